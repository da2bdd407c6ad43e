//! Connectors in a program that was read: the law is a function that does nothing.
ghost use Rattle.std.specs.Prelude.{◌≡◌, ℕ, List, Ok};
ghost use Rattle.std.specs.List.{AllByRecursion};
ghost use Rattle.sd_lex.specs.PlainTree.{ProgramTree};
ghost use Rattle.sd_source.specs.source.SourceReading.{reads};
ghost use Rattle.sd_made_valid.specs.read_dimensions.Counts.{CountsOf};

/// In a program that was read, each connector of a tasklet is named with as many subscripts as it has
/// dimensions: one for each range of its subset, and where none is written one for each extent of its
/// array, or none where each is 1. An element of a stream has none.
pub fn tasklets_that_were_read_are_counted()
    ensures { (text : List ℕ) (program : ProgramTree) → reads text ≡ Ok program → AllByRecursion CountsOf program.functions }
{}
