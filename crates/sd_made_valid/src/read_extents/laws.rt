//! Extents in a program that was read: the law is a function that does nothing.
ghost use Rattle.std.specs.Prelude.{◌≡◌, ℕ, List, Ok};
ghost use Rattle.sd_lex.specs.PlainTree.{ProgramTree};
ghost use Rattle.sd_program.specs.Every.{Everywhere};
ghost use Rattle.sd_source.specs.source.SourceReading.{reads};
ghost use Rattle.sd_made_valid.specs.read_extents.Symbols.{NamesSymbols};

/// In a program that was read, each extent of an array is an affine expression of the program's size
/// symbols.
pub fn extents_that_were_read_name_size_symbols()
    ensures { (text : List ℕ) (program : ProgramTree) → reads text ≡ Ok program → Everywhere (NamesSymbols program.symbols) program }
{}
