ghost use Rattle.std.specs.Prelude.{◌≡◌, ◌<◌, ◌≤◌, ℕ, ℤ, List, [], ◌∷◌, ◌++◌, length, map, slice_get, slice_set, slice_index_or, Some, None, Ok, Err, Bool, true, false, zero};
ghost use Rattle.sd_work.specs.declared.fault.FaultKind.{FaultKind};
ghost use Rattle.sd_work.specs.Memory.{waiting};
ghost use Rattle.sd_work.specs.Change.{apply, take};
ghost use Rattle.sd_work.specs.Move.{fault_at, no_move};
ghost use Rattle.sd_work.specs.Leaf.{Leaf};
ghost use Rattle.sd_work.specs.LeafMove.{leaf_move};
ghost use Rattle.sd_work.specs.Exit.{Exit as Way, first_exit};
ghost use Rattle.sd_work.specs.Residual.{Term, leaf, list, pool, Items, Points, finished};
ghost use Rattle.sd_work.specs.Moves.{Path};
ghost use Rattle.sd_work.specs.Fire.{fire};
ghost use Rattle.sd_work.specs.BigStep.{Reached};
ghost use Rattle.sd_graph.specs.PlainTree.{KindTree, ItemTrees, GraphTree};
ghost use Rattle.sd_graph.specs.TreeParts.{states_of_graph, items_at};
ghost use Rattle.sd_graph.specs.Context.{Reach, Context};
ghost use Rattle.sd_graph.specs.declared.place.Frame.{Frame};
ghost use Rattle.sd_graph.specs.declared.place.Place.{Place};
ghost use Rattle.sd_mem.specs.machine.Coming.{exits_of, state_context};
ghost use Rattle.sd_mem.specs.machine.Stack.{IsPaid};
ghost use Rattle.sd_mem.specs.declared.machine.end.End.{End};
ghost use Rattle.sd_leaves.specs.moves.Moved.{IsMoved};
ghost use Rattle.sd_left.specs.tree.Standing.{ItemLeft, BodyLeft, RunLeft, first_line, first_kind, behind, body_of, point_inside, element_inside, element_term, value_at, parts_left, point_left, points_left, element_left, active_left, state_left, run_left};
ghost use Rattle.sd_left.specs.fired.Fired.{IsFired, IsBodyFired, IsEntered, IsElementBegun, IsStateBegun, IsEnded};

/// What the move of an instance, a copy or a reduction comes to is what it comes to in its item, whatever the path within it.
pub fn a_move_of_a_leaf_is_one_of_its_item()
    ensures { (place : Place) (old new : Leaf) (path : Path) (before after : Reached) (end : End)
        → IsMoved (leaf_move place old before.memories) old before end after new
        → IsFired (leaf place old) path before end after (leaf place new) }
{}

/// What a move of an item comes to is what it comes to in its list, where that item alone has changed, in whatever way the items are
/// kept. So it is with a point of a map, and with an element of a consume scope that is in work, whose numbers stay.
pub fn a_move_of_a_part_changes_its_list_there_alone<A>()
    ensures items { (tell : A → ItemLeft) (order : ℕ → ℕ → Bool) (parts : List A) (number : ℕ) (old new : A) (items : ItemTrees) (context : Context) (path : Path) (before after : Reached) (end : End)
        → number < length parts → old ≡ slice_index_or parts number old
        → IsFired (tell old (first_kind (behind number items)) (first_line (behind number items)) context) path before end after (tell new (first_kind (behind number items)) (first_line (behind number items)) context)
        → IsFired (list Items order (parts_left (map tell parts) items context)) (number ∷ path) before end after (list Items order (parts_left (map tell (slice_set parts number new)) items context)) }
    ensures points { (tell : A → BodyLeft) (order : ℕ → ℕ → Bool) (points : List A) (number : ℕ) (old new : A) (kind : KindTree) (context : Context) (path : Path) (before after : Reached) (end : End)
        → number < length points → old ≡ slice_index_or points number old
        → IsFired (point_left (tell old) kind context) path before end after (point_left (tell new) kind context)
        → IsFired (list Points order (points_left (map tell points) kind context)) (number ∷ path) before end after (list Points order (points_left (map tell (slice_set points number new)) kind context)) }
    ensures elements { (tell : A → BodyLeft) (level container : ℕ) (body : ℤ → Term Place) (closed : Bool) (active : List A) (number : ℕ) (old new : A) (kind : KindTree) (context : Context) (path : Path) (before after : Reached) (end : End)
        → number < length active → old ≡ slice_index_or active number old → (tell new).at ≡ (tell old).at
        → IsFired (element_left (tell old) kind context) path before end after (element_left (tell new) kind context)
        → IsFired (pool level container body (active_left (map tell active) kind context) closed) (1 ∷ number ∷ path) before end after (pool level container body (active_left (map tell (slice_set active number new)) kind context) closed) }
{}

/// What a move of items comes to inside the memory of their point, element or run is what it comes to of the whole. A run moves so
/// as long as its state is not finished.
pub fn a_move_inside_an_owner_is_one_of_it()
    ensures point { (old new : BodyLeft) (kind : KindTree) (context : Context) (path : Path) (before after : Reached) (end : End)
        → IsBodyFired old (body_of kind) (point_inside kind context old.at) path before end after new
        → IsFired (point_left old kind context) path before end after (point_left new kind context) }
    ensures element { (old new : BodyLeft) (kind : KindTree) (context : Context) (path : Path) (before after : Reached) (end : End)
        → IsBodyFired old (body_of kind) (element_inside kind context (value_at old.at)) path before end after new
        → IsFired (element_left old kind context) path before end after (element_left new kind context) }
    ensures run { (old new : RunLeft) (tree : GraphTree) (reach : ℕ → Reach) (around : List Frame) (path : Path) (before after : Reached) (end : End)
        → old.ended ≡ false → finished (state_left old tree reach around) ≡ false → new.ended ≡ false → new.state ≡ old.state
        → IsBodyFired old.body (items_at (states_of_graph tree) old.state) (state_context tree reach around old.state old.body.at) path before end after new.body
        → IsFired (run_left old tree reach around) path before end after (run_left new tree reach around) }
{}

/// The take of a value begins an element with it, behind those in work; where no value waits at the position all stays.
pub fn a_take_begins_an_element()
    ensures value { (level container : ℕ) (closed : Bool) (active : List BodyLeft) (element : BodyLeft) (kind : KindTree) (context : Context) (position : ℕ) (path : Path) (value : ℤ) (before after : Reached)
        → slice_get (waiting level container before.memories) position ≡ Some value → IsElementBegun kind context value element
        → after.memories ≡ apply (take level container position) before.memories → after.turns ≡ before.turns
        → IsFired (pool level container (element_term kind context) (active_left active kind context) closed) (0 ∷ position ∷ path) before End.Finished after (pool level container (element_term kind context) (active_left (active ++ element ∷ []) kind context) closed) }
    ensures none { (level container : ℕ) (closed : Bool) (active : List BodyLeft) (kind : KindTree) (context : Context) (position : ℕ) (path : Path) (before after : Reached)
        → slice_get (waiting level container before.memories) position ≡ None
        → after.memories ≡ apply (take level container position) before.memories → after.turns ≡ before.turns
        → IsFired (pool level container (element_term kind context) (active_left active kind context) closed) (0 ∷ position ∷ path) before End.Finished after (pool level container (element_term kind context) (active_left active kind context) closed) }
{}

/// A run whose state is finished makes the transition, whatever the path: the first exit that may be taken spends its turn, if it is
/// marked, and its state begins; without one the run ends; and a condition may come to a fault.
pub fn a_finished_state_goes_on()
    ensures exit { (old new : RunLeft) (tree : GraphTree) (reach : ℕ → Reach) (around : List Frame) (path : Path) (before inside after : Reached) (exit : Way Place)
        → old.ended ≡ false → finished (state_left old tree reach around) ≡ true → IsEntered old.body.own before inside
        → first_exit (exits_of tree reach around old.state old.body.at) inside.memories ≡ Ok (Some exit)
        → after.memories ≡ before.memories → IsPaid exit.marked before.turns after.turns
        → IsStateBegun tree reach around old.body.own exit.state exit.values new
        → IsFired (run_left old tree reach around) path before End.Finished after (run_left new tree reach around) }
    ensures spent { (old new : RunLeft) (tree : GraphTree) (reach : ℕ → Reach) (around : List Frame) (path : Path) (before inside after : Reached) (exit : Way Place)
        → old.ended ≡ false → finished (state_left old tree reach around) ≡ true → IsEntered old.body.own before inside
        → first_exit (exits_of tree reach around old.state old.body.at) inside.memories ≡ Ok (Some exit)
        → after.memories ≡ before.memories → exit.marked ≡ true → before.turns ≡ zero
        → IsFired (run_left old tree reach around) path before End.OutOfTurns after (run_left new tree reach around) }
    ensures nowhere { (old new : RunLeft) (tree : GraphTree) (reach : ℕ → Reach) (around : List Frame) (path : Path) (before inside after : Reached)
        → old.ended ≡ false → finished (state_left old tree reach around) ≡ true → IsEntered old.body.own before inside
        → first_exit (exits_of tree reach around old.state old.body.at) inside.memories ≡ Ok None
        → after.memories ≡ before.memories → after.turns ≡ before.turns → IsEnded old.body.own new
        → IsFired (run_left old tree reach around) path before End.Finished after (run_left new tree reach around) }
    ensures fault { (old new : RunLeft) (tree : GraphTree) (reach : ℕ → Reach) (around : List Frame) (path : Path) (before inside after : Reached) (place : Place) (kind : FaultKind)
        → old.ended ≡ false → finished (state_left old tree reach around) ≡ true → IsEntered old.body.own before inside
        → first_exit (exits_of tree reach around old.state old.body.at) inside.memories ≡ Err (fault_at place kind)
        → after.memories ≡ before.memories
        → IsFired (run_left old tree reach around) path before (End.Fault place kind) after (run_left new tree reach around) }
{}

/// Where work has no move at a path, all stays as it is; so it is with an item, a point or an element that is not there, and with a run
/// that has ended.
pub fn where_nothing_moves_all_stays<A>()
    ensures work { (old : Term Place) (path : Path) (now : Reached) → fire old path now.memories ≡ no_move → IsFired old path now End.Finished now old }
    ensures items { (tell : A → ItemLeft) (order : ℕ → ℕ → Bool) (parts : List A) (number : ℕ) (items : ItemTrees) (context : Context) (path : Path) (now : Reached)
        → length parts ≤ number → IsFired (list Items order (parts_left (map tell parts) items context)) (number ∷ path) now End.Finished now (list Items order (parts_left (map tell parts) items context)) }
    ensures points { (tell : A → BodyLeft) (order : ℕ → ℕ → Bool) (points : List A) (number : ℕ) (kind : KindTree) (context : Context) (path : Path) (now : Reached)
        → length points ≤ number → IsFired (list Points order (points_left (map tell points) kind context)) (number ∷ path) now End.Finished now (list Points order (points_left (map tell points) kind context)) }
    ensures elements { (tell : A → BodyLeft) (level container : ℕ) (body : ℤ → Term Place) (closed : Bool) (active : List A) (number : ℕ) (kind : KindTree) (context : Context) (path : Path) (now : Reached)
        → length active ≤ number → IsFired (pool level container body (active_left (map tell active) kind context) closed) (1 ∷ number ∷ path) now End.Finished now (pool level container body (active_left (map tell active) kind context) closed) }
    ensures ended { (run : RunLeft) (tree : GraphTree) (reach : ℕ → Reach) (around : List Frame) (path : Path) (now : Reached)
        → run.ended ≡ true → IsFired (run_left run tree reach around) path now End.Finished now (run_left run tree reach around) }
{}
