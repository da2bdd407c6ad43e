ghost use Rattle.std.specs.Prelude.{◌≡◌, ℕ, ◌∷◌, List, not, true};
ghost use Rattle.sd_work.specs.Memory.{Memories};
ghost use Rattle.sd_work.specs.Residual.{finished};
ghost use Rattle.sd_moves.specs.numbered.Counts.{count};
ghost use Rattle.sd_moves.specs.numbered.OpenPools.{HasNoOpenPool, HaveNoOpenPool, HaveNoActiveOpenPool};
ghost use Rattle.sd_graph.specs.PlainTree.{KindTree, ItemTrees, GraphTree};
ghost use Rattle.sd_graph.specs.Context.{Context, Reach};
ghost use Rattle.sd_graph.specs.declared.place.Frame.{Frame};
ghost use Rattle.sd_left.specs.tree.Standing.{body_left, points_left, active_left, run_left};
ghost use Rattle.sd_left.specs.declared.left.left.Left.{Left as LeftNow};
ghost use Rattle.sd_left.specs.declared.left.left.Bodies.{Bodies as BodiesNow};
ghost use Rattle.sd_left.specs.declared.left.left.Body.{Body as BodyNow};
ghost use Rattle.sd_left.specs.declared.left.left.Run.{Run as RunNow};
ghost use Rattle.sd_left.specs.left.Kept.{left_of, bodies_kept, body_kept, run_kept};
ghost use Rattle.sd_left.specs.left.Waits.{is_counted, is_body_counted, is_run_counted};
ghost use Rattle.sd_left.specs.left.Tells.{tells, bodies_tell, body_tells, run_tells};

/// A tree whose counts are right tells whether something is left. Where each open pool has the number of the values that wait as
/// well, it tells how many moves come next.
pub fn a_tree_tells_its_next_moves()
    ensures finished { (left : LeftNow) (kind : KindTree) (line : ℕ) (context : Context) → (tells left).is_right ≡ true
        → finished (left_of left kind line context) ≡ not (tells left).is_unfinished }
    ensures moves { (left : LeftNow) (kind : KindTree) (line : ℕ) (context : Context) (memories : Memories) → (tells left).is_right ≡ true → is_counted left memories ≡ true
        → count (left_of left kind line context) memories ≡ (tells left).moves }
    ensures body_finished { (body : BodyNow) (items : ItemTrees) (context : Context) → (body_tells body).is_right ≡ true
        → finished (body_left (body_kept body) items context) ≡ not (body_tells body).is_unfinished }
    ensures body_moves { (body : BodyNow) (items : ItemTrees) (context : Context) (memories : Memories) → (body_tells body).is_right ≡ true → is_body_counted body memories ≡ true
        → count (body_left (body_kept body) items context) ((body_kept body).own ∷ memories) ≡ (body_tells body).moves }
    ensures run_finished { (run : RunNow) (tree : GraphTree) (reach : ℕ → Reach) (around : List Frame) → (run_tells run).is_right ≡ true
        → finished (run_left (run_kept run) tree reach around) ≡ not (run_tells run).is_unfinished }
    ensures run_moves { (run : RunNow) (tree : GraphTree) (reach : ℕ → Reach) (around : List Frame) (memories : Memories) → (run_tells run).is_right ≡ true → is_run_counted run memories ≡ true
        → count (run_left (run_kept run) tree reach around) memories ≡ (run_tells run).moves }
{}

/// Where the counts of a tree are right, and tell of no open consume scope, the work that is left has none: that of an item, of
/// points and of elements, of items, and of a run.
pub fn work_that_counts_no_open_pool_has_none()
    ensures item { (left : LeftNow) (kind : KindTree) (line : ℕ) (context : Context) → (tells left).is_right ≡ true → (tells left).pools ≡ 0
        → HasNoOpenPool (left_of left kind line context) }
    ensures points { (bodies : BodiesNow) (kind : KindTree) (context : Context) → (bodies_tell bodies).is_right ≡ true → (bodies_tell bodies).pools ≡ 0
        → HaveNoOpenPool (points_left (bodies_kept bodies) kind context) }
    ensures active { (bodies : BodiesNow) (kind : KindTree) (context : Context) → (bodies_tell bodies).is_right ≡ true → (bodies_tell bodies).pools ≡ 0
        → HaveNoActiveOpenPool (active_left (bodies_kept bodies) kind context) }
    ensures body { (body : BodyNow) (items : ItemTrees) (context : Context) → (body_tells body).is_right ≡ true → (body_tells body).pools ≡ 0
        → HasNoOpenPool (body_left (body_kept body) items context) }
    ensures run { (run : RunNow) (tree : GraphTree) (reach : ℕ → Reach) (around : List Frame) → (run_tells run).is_right ≡ true → (run_tells run).pools ≡ 0
        → HasNoOpenPool (run_left (run_kept run) tree reach around) }
{}
