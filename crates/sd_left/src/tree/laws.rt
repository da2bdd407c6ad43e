ghost use Rattle.std.specs.Prelude.{◌≡◌, ◌+◌, ◌<◌, ◌≤◌, ℕ, ℤ, List, [], ◌∷◌, length, slice_set, slice_index_or, Bool, true, false, cond};
ghost use Rattle.sd_range.specs.declared.range.Range.{Range};
ghost use Rattle.sd_work.specs.Memory.{Memory, Memories};
ghost use Rattle.sd_work.specs.Exit.{Values, first_exit};
ghost use Rattle.sd_work.specs.Move.{no_move};
ghost use Rattle.sd_work.specs.Residual.{list, nested, pool, Items, Points, finished, part_at, Term};
ghost use Rattle.sd_work.specs.Moves.{Path};
ghost use Rattle.sd_work.specs.Fire.{fire, owned, transition};
ghost use Rattle.sd_work.specs.Step.{Outcome};
ghost use Rattle.sd_moves.specs.numbered.Counts.{count};
ghost use Rattle.sd_moves.specs.numbered.Gone.{Gone, gone, map_outcome, within};
ghost use Rattle.sd_graph.specs.PlainTree.{KindTree, map_scope, ItemTrees, GraphTree};
ghost use Rattle.sd_graph.specs.TreeParts.{states_of_graph, items_at};
ghost use Rattle.sd_graph.specs.Context.{Reach, Context};
ghost use Rattle.sd_graph.specs.Unfold.{in_any_order, one_after_another, list_of, point_terms, unfold_items, unfold_graph};
ghost use Rattle.sd_graph.specs.declared.place.Frame.{Frame};
ghost use Rattle.sd_graph.specs.declared.place.Place.{Place};
ghost use Rattle.sd_mem.specs.machine.Coming.{point_term, state_context, state_term, exits_of};
ghost use Rattle.sd_left.specs.tree.Standing.{ItemLeft, BodyLeft, RunLeft, first_line, first_kind, behind, body_left, parts_left, point_left, points_left, with_inside, element_left, active_left, state_left, run_left};
ghost use Rattle.sd_left.specs.tree.Begun.{AreBegun, ArePointsBegun, zeros};

/// Where each part is what its item unfolds to, the parts are the work of the items; so it is with the points of a map, and with
/// a run of a graph over its memory. A state does what its items do.
pub fn work_that_begins_is_that_of_the_graph()
    ensures items { (parts : List ItemLeft) (items : ItemTrees) (context : Context) → AreBegun parts items context
        → parts_left parts items context ≡ unfold_items items context }
    ensures points { (sequential : Bool) (params : List (ℕ × Range)) (private : List ℕ) (items : ItemTrees) (context : Context) (numbers : List (List ℤ)) (points : List BodyLeft)
        → ArePointsBegun params private items context numbers points
        → points_left points (map_scope sequential params private items) context ≡ point_terms (point_term items params private context) numbers }
    ensures state { (tree : GraphTree) (reach : ℕ → Reach) (around : List Frame) (state : ℕ) (values : Values)
        → state_term tree reach around state values
        ≡ list_of (state_context tree reach around state values) (items_at (states_of_graph tree) state) (unfold_items (items_at (states_of_graph tree) state) (state_context tree reach around state values)) }
    ensures run { (tree : GraphTree) (reach : ℕ → Reach) (around : List Frame) (own : Memory) (body : BodyLeft) → body.at ≡ zeros tree → body.own ≡ own
        → body_left body (items_at (states_of_graph tree) 0) (state_context tree reach around 0 (zeros tree)) ≡ state_term tree reach around 0 (zeros tree)
        → run_left (record { state = 0; ended = false; body = body }) tree reach around ≡ unfold_graph tree reach own around }
{}

/// What a move of an item comes to is what it comes to in its list, where the item has what the move leaves in its place. So it is
/// with a point of a map and with an element of a consume scope that is in work, whose numbers stay.
pub fn a_move_of_a_part_is_one_of_its_list()
    ensures items { (order : ℕ → ℕ → Bool) (parts : List ItemLeft) (number : ℕ) (items : ItemTrees) (context : Context) (path : Path) (memories : Memories) (turns : ℕ) (given : Outcome Place (Gone ItemLeft))
        → number < length parts
        → gone (fire (part_at (parts_left parts items context) number) path memories) (part_at (parts_left parts items context) number) memories turns
        ≡ map_outcome (within (λ left. left (first_kind (behind number items)) (first_line (behind number items)) context)) given
        → gone (fire (list Items order (parts_left parts items context)) (number ∷ path) memories) (list Items order (parts_left parts items context)) memories turns
        ≡ map_outcome (within (λ left. list Items order (parts_left (slice_set parts number left) items context))) given }
    ensures points { (order : ℕ → ℕ → Bool) (points : List BodyLeft) (number : ℕ) (kind : KindTree) (context : Context) (path : Path) (memories : Memories) (turns : ℕ) (given : Outcome Place (Gone BodyLeft))
        → number < length points
        → gone (fire (part_at (points_left points kind context) number) path memories) (part_at (points_left points kind context) number) memories turns
        ≡ map_outcome (within (λ point. point_left point kind context)) given
        → gone (fire (list Points order (points_left points kind context)) (number ∷ path) memories) (list Points order (points_left points kind context)) memories turns
        ≡ map_outcome (within (λ point. list Points order (points_left (slice_set points number point) kind context))) given }
    ensures elements { (level container : ℕ) (body : ℤ → Term Place) (closed : Bool) (active : List BodyLeft) (number : ℕ) (element : BodyLeft) (kind : KindTree) (context : Context) (path : Path) (memories : Memories) (turns : ℕ) (given : Outcome Place (Gone (Memory × List ItemLeft)))
        → number < length active → element ≡ slice_index_or active number element
        → gone (fire (element_left element kind context) path memories) (element_left element kind context) memories turns
        ≡ map_outcome (within (λ inside. element_left (with_inside element inside) kind context)) given
        → gone (fire (pool level container body (active_left active kind context) closed) (1 ∷ number ∷ path) memories) (pool level container body (active_left active kind context) closed) memories turns
        ≡ map_outcome (within (λ inside. pool level container body (active_left (slice_set active number (with_inside element inside)) kind context) closed)) given }
{}

/// A part, a point or an element that is not there has no move, and a run that has ended has none.
pub fn what_is_not_there_has_no_move()
    ensures items { (order : ℕ → ℕ → Bool) (parts : List ItemLeft) (number : ℕ) (items : ItemTrees) (context : Context) (path : Path) (memories : Memories)
        → length parts ≤ number → fire (list Items order (parts_left parts items context)) (number ∷ path) memories ≡ no_move }
    ensures points { (order : ℕ → ℕ → Bool) (points : List BodyLeft) (number : ℕ) (kind : KindTree) (context : Context) (path : Path) (memories : Memories)
        → length points ≤ number → fire (list Points order (points_left points kind context)) (number ∷ path) memories ≡ no_move }
    ensures elements { (level container : ℕ) (body : ℤ → Term Place) (closed : Bool) (active : List BodyLeft) (number : ℕ) (kind : KindTree) (context : Context) (path : Path) (memories : Memories)
        → length active ≤ number → fire (pool level container body (active_left active kind context) closed) (1 ∷ number ∷ path) memories ≡ no_move }
    ensures ended { (run : RunLeft) (tree : GraphTree) (reach : ℕ → Reach) (around : List Frame) (path : Path) (memories : Memories)
        → run.ended ≡ true → fire (run_left run tree reach around) path memories ≡ no_move }
{}

/// A run that goes on moves inside its state until that is finished, over its own memory, and then makes the transition.
pub fn a_run_moves_in_its_state_or_goes_on()
    ensures state { (run : RunLeft) (tree : GraphTree) (reach : ℕ → Reach) (around : List Frame) (path : Path) (memories : Memories)
        → run.ended ≡ false → finished (state_left run tree reach around) ≡ false
        → fire (run_left run tree reach around) path memories
        ≡ owned (λ own left. nested (state_term tree reach around) (exits_of tree reach around) own run.state run.body.at left) run.body.own (fire (state_left run tree reach around) path (run.body.own ∷ memories)) }
    ensures transition { (run : RunLeft) (tree : GraphTree) (reach : ℕ → Reach) (around : List Frame) (path : Path) (memories : Memories)
        → run.ended ≡ false → finished (state_left run tree reach around) ≡ true
        → fire (run_left run tree reach around) path memories
        ≡ transition (state_term tree reach around) (exits_of tree reach around) run.body.own (first_exit (exits_of tree reach around run.state run.body.at) (run.body.own ∷ memories)) }
{}

/// The next moves of points that come in any order are those of each.
pub fn moves_of_points_are_added_up()
    ensures none { (kind : KindTree) (context : Context) (memories : Memories) → count (list Points in_any_order (points_left [] kind context)) memories ≡ 0 }
    ensures more { (point : BodyLeft) (points : List BodyLeft) (kind : KindTree) (context : Context) (memories : Memories)
        → count (list Points in_any_order (points_left (point ∷ points) kind context)) memories
        ≡ count (point_left point kind context) memories + count (list Points in_any_order (points_left points kind context)) memories }
{}

/// The next moves of points that come one after another are those of the first of which something is left.
pub fn the_first_unfinished_point_moves()
    ensures none { (kind : KindTree) (context : Context) (memories : Memories) → count (list Points one_after_another (points_left [] kind context)) memories ≡ 0 }
    ensures more { (point : BodyLeft) (points : List BodyLeft) (kind : KindTree) (context : Context) (memories : Memories)
        → count (list Points one_after_another (points_left (point ∷ points) kind context)) memories
        ≡ cond (finished (point_left point kind context)) (count (list Points one_after_another (points_left points kind context)) memories) (count (point_left point kind context) memories) }
{}
