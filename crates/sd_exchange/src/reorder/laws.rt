ghost use Rattle.std.specs.Prelude.{◌≡◌, ℕ, List, Some};
ghost use Rattle.sd_work.specs.Memory.{Memory, Memories};
ghost use Rattle.sd_work.specs.Exit.{Values, Exit};
ghost use Rattle.sd_work.specs.Residual.{Term, Terms, nested};
ghost use Rattle.sd_work.specs.Step.{Done};
ghost use Rattle.sd_work.specs.Run.{Left, Sequential};
ghost use Rattle.sd_work.specs.WellFormed.{IsOrdered};
ghost use Rattle.sd_work.specs.OrderedPools.{HasOrderedPools};
ghost use Rattle.sd_work.specs.BigStep.{Reached, reached, big_step, big_parts};
ghost use Rattle.sd_confluence.specs.Alike.{AreAlike, LeaveAlike};
ghost use Rattle.sd_confluence.specs.Alike.{AreStacksAlike};
ghost use Rattle.sd_exchange.specs.reorder.SafePools.{HasSafePools, HaveSafePools};
ghost use Rattle.sd_exchange.specs.reorder.Reordered.{Reordered};

/// Parts that are done from left to right end alike in another order, from alike memories and with as
/// many turns left, where those that changed places do not conflict and each pool is safe; of what else
/// is done side by side in a part nothing is asked. Such an order may be undone, and keeps pools safe: so
/// the one is done exactly where the other is.
pub fn parts_in_another_order_end_alike<P>()
    ensures ends { (parts others : Terms P) (most turns : ℕ) (memories other : Memories) (now : Reached)
        → Reordered parts others → HaveSafePools parts → AreStacksAlike memories other
        → big_parts parts most memories turns ≡ Some (Done now)
        → (end : Memories) × (big_parts others most other turns ≡ reached end now.turns)
        × AreStacksAlike now.memories end }
    ensures back { (parts others : Terms P) → Reordered parts others → Reordered others parts }
    ensures safe { (parts others : Terms P) → Reordered parts others → HaveSafePools parts → HaveSafePools others }
{}

/// Work whose pools are safe, done from left to right, ends alike from alike memories, with as many turns
/// left. So does the sequential run of a graph.
pub fn alike_memories_end_alike<P>()
    ensures work { (term : Term P) (most turns : ℕ) (memories other : Memories) (now : Reached)
        → HasSafePools term → AreStacksAlike memories other
        → big_step term most memories turns ≡ Some (Done now)
        → (end : Memories) × (big_step term most other turns ≡ reached end now.turns)
        × AreStacksAlike now.memories end }
    ensures runs { (body : ℕ → Values → Term P) (exits : ℕ → Values → List (Exit P)) (own other : Memory)
        (state : ℕ) (values : Values) (part : Term P) (turns : ℕ) (left : Left)
        → IsOrdered (nested body exits own state values part)
        → HasOrderedPools 0 (nested body exits own state values part)
        → HasSafePools (nested body exits own state values part) → AreAlike own other
        → Sequential (nested body exits own state values part) turns (Done left)
        → (end : Left) × Sequential (nested body exits other state values part) turns (Done end)
        × LeaveAlike left end }
{}
