ghost use Rattle.std.specs.Prelude.{◌≡◌, ℕ};
ghost use Rattle.sd_work.specs.Memory.{Memories};
ghost use Rattle.sd_work.specs.Residual.{Term};
ghost use Rattle.sd_work.specs.Touch.{Touch, Touches};
ghost use Rattle.sd_work.specs.BigStep.{big_step};
ghost use Rattle.sd_pieces.specs.cut.Merged.{Marking, IsMarked, IsPrepared, IsMerged, AreElementsOfWidth, MergesTo};
ghost use Rattle.sd_pieces.specs.cut.Naming.{Naming, IsOneToOne, term_named, IsTouchNamed, AreMemoriesNamed, ComesToNamed};

/// Work that names elements by other numbers comes to the same over memories that have the same elements by these numbers, where
/// each element that it touches has one.
pub fn work_by_other_numbers_comes_to_the_same<P>()
    ensures { (naming : Naming) (depth : ℕ) (term : Term P) (most : ℕ) (memories others : Memories) (turns : ℕ)
        → IsOneToOne naming → ((touch : Touch) → Touches term touch → IsTouchNamed naming depth touch)
        → AreMemoriesNamed naming depth memories others
        → ComesToNamed naming depth (big_step term most memories turns) (big_step (term_named naming depth term) most others turns) }
{}

/// Work on a cut of a memory, merged into another memory, is the work from that one. The cut has each element that the work touches,
/// by other numbers; the other memory has the same as the one that was cut where the work reads or replaces an element or takes from a stream. Elements with
/// which values are resolved by one resolution begin at its identity in the cut, and streams that are appended to are empty there.
pub fn work_on_a_cut_is_the_work<P>()
    ensures { (naming : Naming) (marking : Marking) (term : Term P) (most : ℕ) (memories cut others : Memories) (turns : ℕ)
        → IsOneToOne naming → ((touch : Touch) → Touches term touch → IsTouchNamed naming 0 touch)
        → ((touch : Touch) → Touches term touch → IsMarked marking touch)
        → IsPrepared marking memories others → AreMemoriesNamed naming 0 memories cut
        → MergesTo naming marking others (big_step (term_named naming 0 term) most cut turns) (big_step term most others turns) }
{}

/// What the work left on a cut, merged into a stack of memories, is one stack: where elements of the outermost memory are ones of their
/// containers' widths, the naming, the marking, what was left and what was there before leave nothing of it open.
pub fn what_is_merged_is_one_stack()
    ensures { (naming : Naming) (marking : Marking) (left before after others : Memories)
        → AreElementsOfWidth before → IsMerged naming marking left before after → IsMerged naming marking left before others → after ≡ others }
{}
