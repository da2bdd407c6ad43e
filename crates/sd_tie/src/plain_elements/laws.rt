ghost use Rattle.std.specs.Prelude.{◌≡◌, ℕ, List, Ok};
ghost use Rattle.sd_lex.specs.PlainTree.{ProgramTree};
ghost use Rattle.sd_program.specs.Every.{Everywhere};
ghost use Rattle.sd_source.specs.source.SourceReading.{reads};
ghost use Rattle.sd_tie.specs.programs.Joined.{HasPlainElement};

/// In a program that was read, no element of a consume scope has a `$` in its name. A graph makes new
/// names with it, so a name that is made is none of a source.
pub fn elements_that_were_read_have_plain_names()
    ensures { (text : List ℕ) (program : ProgramTree) → reads text ≡ Ok program → Everywhere HasPlainElement program }
{}
