ghost use Rattle.std.specs.Prelude.{◌≡◌, ◌≤◌, ◌+◌, ℕ, List, ◌++◌, length, Bool, false};
ghost use Rattle.sd_work.specs.Memory.{Memories};
ghost use Rattle.sd_work.specs.Residual.{Term, Terms, Parts, is_ready, flags_of};
ghost use Rattle.sd_work.specs.Settle.{settle, settle_parts};

/// Work that may not go on has no pool that settling finishes.
pub fn work_that_may_not_go_on_stays<P>()
    ensures term { (cleared : List Bool) (memories : Memories) (term : Term P) → settle false cleared memories term ≡ term }
    ensures parts { (cleared : List Bool) (memories : Memories) (kind : Parts) (before : ℕ → ℕ → Bool) (flags : List Bool) (number : ℕ) (parts : Terms P)
        → settle_parts false cleared memories kind before flags number parts ≡ parts }
{}

/// Where no later part is before a part, it may go on by the flags of the earlier ones as by those of all.
pub fn later_parts_do_not_hold_up()
    ensures { (before : ℕ → ℕ → Bool) (earlier later : List Bool) (number : ℕ)
        → ((other : ℕ) → length earlier ≤ other → before other number ≡ false)
        → is_ready before (earlier ++ later) number ≡ is_ready before earlier number }
{}
