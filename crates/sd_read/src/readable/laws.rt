ghost use Rattle.std.specs.Prelude.{◌≡◌, ◌≤◌, ℕ, List, length, Ok};
ghost use Rattle.sd_lex.specs.PlainTree.{ProgramTree};
ghost use Rattle.sd_read.specs.readable.Levels.{HasFewLevels};
ghost use Rattle.sd_read.specs.readable.Parts.{HasParts};
ghost use Rattle.sd_source.specs.source.SourceReading.{reads};
ghost use Rattle.sd_program.specs.Every.{Everywhere};
ghost use Rattle.sd_program.specs.Place.{EveryPlace};
ghost use Rattle.sd_program.specs.WellFormed.{IsWellFormed};

/// What a source is read to is well formed, and no expression of it is nested more deeply than the
/// limit. There is a program, each array that is declared has an extent, and each map a parameter.
pub fn a_program_that_was_read_is_well_formed()
    ensures well_formed { (text : List ℕ) (program : ProgramTree) → reads text ≡ Ok program → IsWellFormed program }
    ensures levels { (text : List ℕ) (program : ProgramTree) → reads text ≡ Ok program → EveryPlace HasFewLevels program }
    ensures parts { (text : List ℕ) (program : ProgramTree) → reads text ≡ Ok program → Everywhere HasParts program }
    ensures functions { (text : List ℕ) (program : ProgramTree) → reads text ≡ Ok program → 1 ≤ length program.functions }
{}
