ghost use Rattle.std.specs.Prelude.{◌≡◌, ℕ, List, Ok};
ghost use Rattle.sd_lex.specs.PlainTree.{ProgramTree};
ghost use Rattle.sd_program.specs.Every.{Everywhere};
ghost use Rattle.sd_source.specs.source.SourceReading.{reads};
ghost use Rattle.sd_tie.specs.items.Standing.{IsJoined};

/// In a program that was read, what has subscripts in a tasklet is one of its inputs, and what is assigned
/// at subscripts is one of its outputs; the element of a consume scope that is one tasklet is an input too.
pub fn tasklets_that_were_read_are_joined()
    ensures { (text : List ℕ) (program : ProgramTree) → reads text ≡ Ok program → Everywhere IsJoined program }
{}
