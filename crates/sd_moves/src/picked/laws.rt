ghost use Rattle.std.specs.Prelude.{◌≡◌, ℕ, suc, List, [], drop};
ghost use Rattle.sd_work.specs.Step.{Machine};
ghost use Rattle.sd_work.specs.Run.{run, traced};
ghost use Rattle.sd_moves.specs.numbered.Counts.{count};
ghost use Rattle.sd_moves.specs.picked.Numbered.{run_on, trace_on};

/// A run by picks is done where its machine counts no next move, and else makes the one of the picked number. Its trace has that
/// number and the count.
pub fn a_run_goes_by_numbers<P>()
    ensures run { (looks : ℕ) (picks : List ℕ) (machine : Machine P)
        → run (suc looks) picks machine ≡ run_on (count machine.term []) picks machine (run looks (drop 1 picks)) }
    ensures trace { (steps : ℕ) (picks : List ℕ) (machine : Machine P)
        → traced (suc steps) picks machine ≡ trace_on (count machine.term []) picks machine (traced steps (drop 1 picks)) }
{}
