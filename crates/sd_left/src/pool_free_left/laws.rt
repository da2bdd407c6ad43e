ghost use Rattle.std.specs.Prelude.{◌≡◌, ℕ, List, true};
ghost use Rattle.sd_work.specs.Memory.{Memories};
ghost use Rattle.sd_moves.specs.numbered.OpenPools.{HasNoOpenPool};
ghost use Rattle.sd_graph.specs.PlainTree.{KindTree, ItemTrees, GraphTree};
ghost use Rattle.sd_graph.specs.Context.{Context, Reach};
ghost use Rattle.sd_graph.specs.declared.place.Frame.{Frame};
ghost use Rattle.sd_left.specs.tree.Standing.{body_left, run_left};
ghost use Rattle.sd_left.specs.declared.left.left.Left.{Left as LeftNow};
ghost use Rattle.sd_left.specs.declared.left.left.Body.{Body as BodyNow};
ghost use Rattle.sd_left.specs.declared.left.left.Run.{Run as RunNow};
ghost use Rattle.sd_left.specs.left.Kept.{left_of, body_kept, run_kept};
ghost use Rattle.sd_left.specs.left.Waits.{is_counted, is_body_counted, is_run_counted};

/// Where the work that is left of an item, of items or of a run has no open pool, each number of values that wait is right, whatever
/// the memories.
pub fn a_tree_without_open_pools_waits_for_no_value()
    ensures item { (left : LeftNow) (kind : KindTree) (line : ℕ) (context : Context) (memories : Memories) → HasNoOpenPool (left_of left kind line context)
        → is_counted left memories ≡ true }
    ensures body { (body : BodyNow) (items : ItemTrees) (context : Context) (memories : Memories) → HasNoOpenPool (body_left (body_kept body) items context)
        → is_body_counted body memories ≡ true }
    ensures run { (run : RunNow) (tree : GraphTree) (reach : ℕ → Reach) (around : List Frame) (memories : Memories) → HasNoOpenPool (run_left (run_kept run) tree reach around)
        → is_run_counted run memories ≡ true }
{}
