ghost use Rattle.std.specs.Prelude.{◌≡◌, ◌≢◌, ◌⊎◌, ◌+◌, ℕ, ℤ, List, [], ◌∷◌, Bool};
ghost use Rattle.std.specs.List.{AllByRecursion, Contains};
ghost use Rattle.sd_work.specs.Memory.{Memory, Memories, waiting};
ghost use Rattle.sd_work.specs.Change.{Change, apply};
ghost use Rattle.sd_work.specs.Move.{goes};
ghost use Rattle.sd_work.specs.Moves.{Path, moves};
ghost use Rattle.sd_work.specs.Fire.{fire};
ghost use Rattle.sd_work.specs.Residual.{Parts, Term, Terms, list, part_at};
ghost use Rattle.sd_work.specs.Step.{Machine, Done, opening, next_moves, step};
ghost use Rattle.sd_work.specs.Run.{Left, Run, choices, memory_of};
ghost use Rattle.sd_work.specs.New.{IsNew, UnfoldsNew};
ghost use Rattle.sd_work.specs.Touch.{Touch, Touches, SparesWork};
ghost use Rattle.sd_confluence.specs.Left.{IsLeftOf};
ghost use Rattle.sd_confluence.specs.Safe.{TouchCompatibly, IsSafe, MayInterleave, pool_over};
ghost use Rattle.sd_confluence.specs.Sides.{AreOfTwoParts, AreTermsAlike};
ghost use Rattle.sd_confluence.specs.Takes.{AreTwoTakes, behind_take, AreTermsReordered};
ghost use Rattle.sd_confluence.specs.Alike.{how_often, AreAlike, AreStacksAlike, LeaveAlike};
ghost use Rattle.sd_confluence.specs.Event.{Event, values_pushed, values_taken, DoneWith, AreEventsAlike};

/// Terms that are alike have memories that are alike.
pub fn terms_that_are_alike_have_memories_alike<P>()
    ensures { (term other : Term P) → AreTermsAlike term other → AreAlike (memory_of term) (memory_of other) }
{}

/// Of two runs of work that may interleave, by any picks, the one is done where the other is, and they leave
/// memories alike and as many turns. Without picks a run is the sequential one.
pub fn every_interleaving_ends_alike<P>()
    ensures { (term : Term P) (turns : ℕ) (picks others : List ℕ) (left : Left) → MayInterleave term
        → Run term turns picks (Done left)
        → (end : Left) × Run term turns others (Done end) × LeaveAlike left end }
{}

/// Of two runs of a graph that is one safe pool, from memories that are alike and by any picks, the one is done
/// where the other is. They leave alike memories and as many turns; from each stream they took, and into each
/// they pushed, each value equally often.
pub fn the_order_of_taking_makes_no_difference<P>()
    ensures { (own other : Memory) (container : ℕ) (body : ℤ → Term P) (turns : ℕ) (picks others : List ℕ)
        (left : Left) (happened : List Event)
        → MayInterleave (pool_over own container body) → AreAlike own other
        → DoneWith (pool_over own container body) turns picks left happened
        → (end : Left) × (happened_there : List Event)
        × DoneWith (pool_over other container body) turns others end happened_there
        × LeaveAlike left end × AreEventsAlike happened happened_there }
{}

/// In a run no value of a stream of its memory is lost and none is made: each that waited at the begin or was
/// pushed is taken or waits at the end.
pub fn each_value_is_taken_or_waits<P>()
    ensures { (term : Term P) (turns : ℕ) (picks : List ℕ) (left : Left) (happened : List Event)
        → DoneWith term turns picks left happened
        → (stream : ℕ) (value : ℤ)
        → how_often (waiting 0 stream (left.memory ∷ [])) value + how_often (values_taken stream happened) value
        ≡ how_often (waiting 0 stream (memory_of term ∷ [])) value + how_often (values_pushed stream happened) value }
{}

/// Whatever a run leaves of work is left of it part by part, and touches no more than the work does. Work as
/// it is unfolded is left of itself.
pub fn what_is_left_touches_no_more<P>()
    ensures begins { (term : Term P) → IsNew term → IsLeftOf term term }
    ensures stays { (term left : Term P) (steps turns : ℕ) (picks : List ℕ) → UnfoldsNew term → IsLeftOf term left
        → AllByRecursion (λ choice. IsLeftOf term choice.machine.term) (choices steps picks (opening left turns)) }
    ensures touches { (term left : Term P) (touch : Touch)
        → IsLeftOf term left → Touches left touch → Touches term touch }
{}

/// Work that may interleave may do so at each choice of each run.
pub fn work_may_interleave_at_each_choice<P>()
    ensures { (term : Term P) (steps turns : ℕ) (picks : List ℕ) → MayInterleave term
        → AllByRecursion (λ choice. MayInterleave choice.machine.term) (choices steps picks (opening term turns)) }
{}

/// A move is not seen by other work that its own does not conflict with. So of two moves of different parts of a
/// list which do not conflict, one behind the other, the second may be made first: each answers as before and
/// changes the same, they leave the same, and the memories are alike.
pub fn moves_of_parts_that_do_not_conflict_commute<P>()
    ensures unseen { (term other left : Term P) (path : Path) (memories : Memories) (turn : Bool) (change : Change)
        → TouchCompatibly term other → fire term path memories ≡ goes turn change left → SparesWork other change }
    ensures commute { (kind : Parts) (before : ℕ → ℕ → Bool) (parts : Terms P) (i j : ℕ) (path second : Path)
        (memories : Memories) (turn later : Bool) (change other : Change) (between both : Term P)
        → i ≢ j → TouchCompatibly (part_at parts i) (part_at parts j)
        → fire (list kind before parts) (i ∷ path) memories ≡ goes turn change between
        → fire between (j ∷ second) (apply change memories) ≡ goes later other both
        → (early : Term P) × (fire (list kind before parts) (j ∷ second) memories ≡ goes later other early)
        × (fire early (i ∷ path) (apply other memories) ≡ goes turn change both)
        × AreStacksAlike (apply other (apply change memories)) (apply change (apply other memories)) }
{}

/// Two steps by next moves of two parts of one list commute, wherever in safe work the list stands. So do those of
/// two active terms of one pool, and of an active term and a take. After the one the other is still next; where it is
/// made too, it may be made first and the one behind it, with as many turns. What they leave is equal but for the
/// order of values in streams.
pub fn steps_of_two_parts_commute<P>()
    ensures stays { (machine between : Machine P) (path second : Path) → IsSafe machine.term
        → Contains (next_moves machine) path → Contains (next_moves machine) second
        → AreOfTwoParts machine.term path second
        → step path machine ≡ Done between → Contains (next_moves between) second }
    ensures commute { (machine between both : Machine P) (path second : Path) → IsSafe machine.term
        → Contains (next_moves machine) path → Contains (next_moves machine) second
        → AreOfTwoParts machine.term path second
        → step path machine ≡ Done between → step second between ≡ Done both
        → (early last : Machine P) × (step second machine ≡ Done early) × (step path early ≡ Done last)
        × AreTermsAlike both.term last.term × (both.turns ≡ last.turns) }
{}

/// Two steps that take from one pool commute too, wherever in safe work it stands, each behind the other at the position that its value has then. What
/// they leave is equal but for the order of active terms in pools.
pub fn two_takes_of_one_pool_commute<P>()
    ensures stays { (machine between : Machine P) (path second : Path)
        → Contains (next_moves machine) path → Contains (next_moves machine) second
        → AreTwoTakes machine.term path second
        → step path machine ≡ Done between → Contains (next_moves between) (behind_take path second) }
    ensures commute { (machine between both : Machine P) (path second : Path) → IsSafe machine.term
        → Contains (next_moves machine) path → Contains (next_moves machine) second
        → AreTwoTakes machine.term path second
        → step path machine ≡ Done between → step (behind_take path second) between ≡ Done both
        → (early last : Machine P) × (step second machine ≡ Done early) × (step (behind_take second path) early ≡ Done last)
        × AreTermsReordered both.term last.term × (both.turns ≡ last.turns) }
{}

/// Any two different next moves are of two parts of one list or one pool, or are two takes of one pool.
pub fn any_two_next_moves_are_of_two_parts_or_two_takes<P>()
    ensures { (machine : Machine P) (path second : Path)
        → Contains (next_moves machine) path → Contains (next_moves machine) second → path ≢ second
        → AreOfTwoParts machine.term path second ⊎ AreTwoTakes machine.term path second }
{}
