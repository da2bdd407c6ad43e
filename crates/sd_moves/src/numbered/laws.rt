ghost use Rattle.std.specs.Prelude.{◌≡◌, ◌<◌, ℕ, true, Bool, List, [], ◌∷◌, length, slice_index_or};
ghost use Rattle.sd_work.specs.Memory.{Memory, Memories};
ghost use Rattle.sd_work.specs.Move.{Move, map_move};
ghost use Rattle.sd_work.specs.Residual.{Term, Terms, Actives, finished, flags_of, part_at};
ghost use Rattle.sd_work.specs.Moves.{Path, moves};
ghost use Rattle.sd_work.specs.Fire.{fire, fire_part, fire_active, owned};
ghost use Rattle.sd_work.specs.Settle.{settle, settled};
ghost use Rattle.sd_work.specs.Step.{Machine, Done, step};
ghost use Rattle.sd_work.specs.WellFormed.{HasNoPool};
ghost use Rattle.sd_moves.specs.numbered.Counts.{count};
ghost use Rattle.sd_moves.specs.numbered.Places.{place_of};
ghost use Rattle.sd_moves.specs.numbered.PartsChanged.{with_part, active_at, with_active};
ghost use Rattle.sd_moves.specs.numbered.Gone.{gone, map_outcome, within, inside, settled_machine};
ghost use Rattle.sd_moves.specs.numbered.OpenPools.{HasNoOpenPool};

/// There are as many next moves as the counts of the parts say, and the one of a number is at the place of that number.
/// Finished work has none.
pub fn next_moves_are_counted<P>()
    ensures count { (term : Term P) (memories : Memories) → length (moves term memories) ≡ count term memories }
    ensures place { (term : Term P) (memories : Memories) (move : ℕ) (other : Path) → move < count term memories
        → slice_index_or (moves term memories) move other ≡ place_of term memories move }
    ensures finished { (term : Term P) (memories : Memories) → finished term ≡ true → count term memories ≡ 0 }
{}

/// A move in a part of a list, or in an active term of a pool, is one of the part, and it leaves the others as they are.
pub fn a_move_in_a_part_changes_that_part_alone<P>()
    ensures part { (parts : Terms P) (number : ℕ) (path : Path) (memories : Memories)
        → fire_part parts number path memories ≡ map_move (with_part parts number) (fire (part_at parts number) path memories) }
    ensures active { (active : Actives P) (number : ℕ) (path : Path) (memories : Memories)
        → fire_active active number path memories ≡ map_move (with_active active number) (fire (active_at active number) path memories) }
    ensures others { (parts : Terms P) (number other : ℕ) (part : Term P) → (other ≡ number → ⊥)
        → part_at (with_part parts number part) other ≡ part_at parts other }
{}

/// What a move of a part comes to is what it comes to in the whole: in a list and a pool with what the part leaves, in an
/// owner with the innermost memory as the owner's. What a step comes to is what its move comes to, settled.
pub fn a_move_of_a_part_comes_to_one_of_the_whole<P, A, B>()
    ensures mapped { (whole : A → B) (move : Move P A) (old : A) (memories : Memories) (turns : ℕ)
        → gone (map_move whole move) (whole old) memories turns ≡ map_outcome (within whole) (gone move old memories turns) }
    ensures owned { (whole : Memory → Term P → Term P) (own : Memory) (move : Move P (Term P)) (old : Term P) (memories : Memories) (turns : ℕ)
        → gone (owned whole own move) (whole own old) memories turns ≡ map_outcome (inside whole) (gone move old (own ∷ memories) turns) }
    ensures stepped { (machine : Machine P) (path : Path) → settled machine.term ≡ machine.term
        → step path machine ≡ map_outcome settled_machine (gone (fire machine.term path []) machine.term [] machine.turns) }
{}

/// Work without open pools is settled as it is, so that settling has only to go where open pools are.
pub fn work_without_open_pools_is_settled<P>()
    ensures { (term : Term P) (may_go : Bool) (cleared : List Bool) (memories : Memories) → HasNoOpenPool term
        → settle may_go cleared memories term ≡ term }
{}

/// Work without pools never has one. Its next moves do not hang on memories.
pub fn work_without_pools_stays_so<P>()
    ensures settled { (term : Term P) → HasNoPool term → HasNoOpenPool term }
    ensures step { (machine next : Machine P) (path : Path) → HasNoPool machine.term → step path machine ≡ Done next → HasNoPool next.term }
    ensures counts { (term : Term P) (memories others : Memories) → HasNoPool term → count term memories ≡ count term others }
    ensures places { (term : Term P) (memories others : Memories) (move : ℕ) → HasNoPool term
        → place_of term memories move ≡ place_of term others move }
{}
