ghost use Rattle.std.specs.Prelude.{◌≡◌, ℕ, List, true};
ghost use Rattle.sd_work.specs.Memory.{Memories};
ghost use Rattle.sd_work.specs.Residual.{Term, finished};
ghost use Rattle.sd_work.specs.Moves.{moves};
ghost use Rattle.sd_work.specs.Step.{Machine};
ghost use Rattle.sd_work.specs.Run.{memory_of, run, traced};
ghost use Rattle.sd_work.specs.WellFormed.{IsWellFormed};
ghost use Rattle.sd_core.specs.Released.{IsReleased};

/// Where finished owners let go of what they held, the work has the same next moves, and each run of it has the same outcome and the
/// same trace. A machine that is well-formed stays so.
pub fn what_was_let_go_is_not_missed<P>()
    ensures finished { (old new : Term P) → IsReleased old new → finished new ≡ finished old }
    ensures moves { (old new : Term P) (memories : Memories) → IsReleased old new → moves new memories ≡ moves old memories }
    ensures memory { (old new : Term P) → IsReleased old new → memory_of new ≡ memory_of old }
    ensures run { (looks : ℕ) (picks : List ℕ) (old new : Machine P) → IsReleased old.term new.term → new.turns ≡ old.turns
        → run looks picks new ≡ run looks picks old }
    ensures trace { (steps : ℕ) (picks : List ℕ) (old new : Machine P) → IsReleased old.term new.term → new.turns ≡ old.turns
        → traced steps picks new ≡ traced steps picks old }
    ensures formed { (old new : Machine P) → IsReleased old.term new.term → IsWellFormed old → IsWellFormed new }
{}
