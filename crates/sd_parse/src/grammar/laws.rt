ghost use Rattle.std.specs.Prelude.{◌≡◌, ℕ, List, Some, Ok};
ghost use Rattle.sd_lex.specs.PlainTree.{ProgramTree};
ghost use Rattle.sd_source.specs.source.SourceReading.{reads};
ghost use Rattle.sd_parse.specs.grammar.Programs.{tree_of};
ghost use Rattle.sd_parse.specs.grammar.Small.{small_program, small_source};

/// The program that a text is read as is the one that the grammar has for it. The grammar has one
/// program at most for a text, and asks nothing of names, of affine places or of limits.
pub fn a_text_that_is_read_is_its_program_by_the_grammar()
    ensures { (text : List ℕ) (program : ProgramTree) → reads text ≡ Ok program → tree_of text ≡ Some program }
{}

/// A small source is read as the program that stands beside it, which the checker computes from its bytes.
pub fn a_small_source_is_read_as_its_program()
    ensures { reads small_source ≡ Ok small_program }
{}
