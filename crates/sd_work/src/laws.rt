ghost use Rattle.std.specs.Prelude.{◌≡◌, ℕ, ℤ, true, List, [], ◌∷◌, Option, Some, FitsSigned};
ghost use Rattle.std.specs.Int.{w64};
ghost use Rattle.sd_num.specs.Width.{wrapped_to, IsElement};
ghost use Rattle.sd_num.specs.declared.width.Width.{Width};
ghost use Rattle.sd_num.specs.declared.width.Width.TheVariants.{W64};
ghost use Rattle.sd_num.specs.declared.resolution.Resolution.{Resolution};
ghost use Rattle.sd_work.specs.Memory.{Memory, Memories, Reference, contents_of, look, waiting, width_of};
ghost use Rattle.sd_work.specs.Change.{Change, apply, became, outer, own_after, written};
ghost use Rattle.sd_work.specs.Residual.{Term, finished};
ghost use Rattle.sd_work.specs.Moves.{Path, moves};
ghost use Rattle.sd_work.specs.Fire.{fire};
ghost use Rattle.sd_work.specs.Settle.{settled};
ghost use Rattle.sd_work.specs.Step.{Machine, Outcome, Done, opening, next_moves, step};
ghost use Rattle.sd_work.specs.Run.{Left, Run, Sequential};
ghost use Rattle.sd_work.specs.BigRun.{big_run};
ghost use Rattle.sd_work.specs.WellFormed.{IsOrdered, HasNoPool, HasPoolMemories, IsWellFormed, PaysCycles, IsRun};
ghost use Rattle.sd_work.specs.New.{UnfoldsNew};
ghost use Rattle.sd_work.specs.OrderedPools.{HasOrderedPools};
ghost use Rattle.sd_work.specs.Harmless.{AreHarmless, SparesElement, SparesStream};
ghost use Rattle.sd_work.specs.Touch.{SparesWork};

/// What is written to an element is the new value, or the old one resolved with it, and what they come to is
/// wrapped; at 64 bits it is an element as it is.
pub fn an_element_is_replaced_or_resolved()
    ensures same { (width : Width) (by : Option Resolution) (value old : ℤ) → IsElement width value → IsElement width old
        → written width by value old ≡ wrapped_to width (became by old value) }
    ensures wide { (by : Option Resolution) (value old : ℤ) → FitsSigned w64 value → FitsSigned w64 old
        → written W64 by value old ≡ became by old value }
    ensures fits { (width : Width) (by : Option Resolution) (value old : ℤ) → IsElement width (written width by value old) }
{}

/// A change keeps the width of each container.
pub fn a_change_keeps_widths()
    ensures { (level container : ℕ) (change : Change) (memories : Memories)
        → width_of (contents_of level container (apply change memories)) ≡ width_of (contents_of level container memories) }
{}

/// Changes at different places may be made in either order, and so may values that are resolved
/// into one element by one resolution that commutes.
pub fn changes_at_different_places_commute()
    ensures { (change other : Change) → AreHarmless change other → (memories : Memories)
        → apply change (apply other memories) ≡ apply other (apply change memories) }
{}

/// A change elsewhere is not seen of an element or a stream.
pub fn a_change_elsewhere_is_not_seen()
    ensures element { (reference : Reference) (change : Change) → SparesElement reference change
        → (memories : Memories) → look reference (apply change memories) ≡ look reference memories }
    ensures stream { (level container : ℕ) (change : Change) → SparesStream level container change
        → (memories : Memories)
        → waiting level container (apply change memories) ≡ waiting level container memories }
{}

/// Work does not see a change of what it neither reads nor takes. So what it does depends on itself
/// and on what it reads and takes alone.
pub fn work_does_not_see_a_change_elsewhere<P>()
    ensures moves { (term : Term P) (change : Change) → SparesWork term change
        → (memories : Memories) → moves term (apply change memories) ≡ moves term memories }
    ensures work { (term : Term P) (change : Change) → SparesWork term change
        → (path : Path) (memories : Memories)
        → fire term path (apply change memories) ≡ fire term path memories }
{}

/// A change splits at an owner into what it leaves in the owner's memory and what it is outside.
pub fn a_change_splits_at_an_owner()
    ensures { (change : Change) (own : Memory) (memories : Memories)
        → apply change (own ∷ memories) ≡ own_after change own ∷ apply (outer change) memories }
{}

/// Where nothing is left to do there is no move.
pub fn a_finished_term_has_no_move<P>()
    ensures { (term : Term P) (memories : Memories) → finished term ≡ true → moves term memories ≡ [] }
{}

/// A well-formed machine has no next move exactly where it is finished, so no run stands still before
/// its end. A machine is well-formed when its run begins, where the lists have orders and the memories
/// of the pools are there, and every step keeps that. Where the pools are in order their memories
/// are there.
pub fn a_machine_moves_until_it_is_finished<P>()
    ensures moves { (machine : Machine P) → IsWellFormed machine
        → next_moves machine ≡ [] → finished machine.term ≡ true }
    ensures finished { (machine : Machine P)
        → finished machine.term ≡ true → next_moves machine ≡ [] }
    ensures opening { (term : Term P) (turns : ℕ) → IsOrdered term → HasPoolMemories 0 term
        → IsWellFormed (opening term turns) }
    ensures step { (machine next : Machine P) (path : Path) → IsWellFormed machine
        → step path machine ≡ Done next → IsWellFormed next }
    ensures ordered_pools { (term : Term P) (depth : ℕ)
        → HasOrderedPools depth term → HasPoolMemories depth term }
{}

/// Settling goes once through a term: to settle it again changes nothing.
pub fn settling_once_is_enough<P>()
    ensures { (term : Term P) → settled (settled term) ≡ settled term }
{}

/// A run by picks has at most one outcome, however many moves it is allowed.
pub fn a_run_has_one_outcome<P>()
    ensures { (term : Term P) (turns : ℕ) (picks : List ℕ) (outcome other : Outcome P Left)
        → Run term turns picks outcome → Run term turns picks other → outcome ≡ other }
{}

/// A run of a graph whose lists and pools are in order, done from left to right, ends as its
/// sequential run does: with the same memory and turns, the same fault, or a want of turns. It has
/// an end wherever the sequential run has one, with enough transitions and takes allowed. In a term
/// without pools they are in order.
pub fn a_run_from_left_to_right_is_sequential<P>()
    ensures sequential { (term : Term P) (most turns : ℕ) (outcome : Outcome P Left)
        → IsOrdered term → HasOrderedPools 0 term
        → big_run term most turns ≡ Some outcome → Sequential term turns outcome }
    ensures answers { (term : Term P) (turns : ℕ) (outcome : Outcome P Left)
        → IsOrdered term → HasOrderedPools 0 term → IsRun term
        → Sequential term turns outcome → (most : ℕ) × (big_run term most turns ≡ Some outcome) }
    ensures without_pools { (term : Term P) (depth : ℕ) → HasNoPool term → HasOrderedPools depth term }
{}

/// Every run ends, by whatever picks, where each cycle of transitions spends a turn and the term
/// has no pool, or what it unfolds is new.
pub fn every_run_ends<P>()
    ensures without_pools { (term : Term P) (turns : ℕ) (picks : List ℕ) → HasNoPool term
        → PaysCycles term → (outcome : Outcome P Left) × Run term turns picks outcome }
    ensures with_pools { (term : Term P) (turns : ℕ) (picks : List ℕ) → PaysCycles term
        → UnfoldsNew term → (outcome : Outcome P Left) × Run term turns picks outcome }
{}
