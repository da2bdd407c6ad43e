//! What acceptance gives: each law is a function that does nothing.

ghost use Rattle.std.specs.Prelude.{◌≡◌, ◌<◌, ◌++◌, ◌∷◌, ℕ, List, [], Bool, false};
ghost use Rattle.sd_work.specs.Memory.{Memory};
ghost use Rattle.sd_work.specs.Residual.{Points, owning, idle, part_at};
ghost use Rattle.sd_work.specs.Step.{Done};
ghost use Rattle.sd_work.specs.Run.{Left, Run, Sequential};
ghost use Rattle.sd_confluence.specs.Safe.{TouchCompatibly, ArePartsSafe, IsPoolSafe, MayInterleave, pool_over};
ghost use Rattle.sd_confluence.specs.Alike.{AreAlike, LeaveAlike};
ghost use Rattle.sd_confluence.specs.Event.{Event, DoneWith, AreEventsAlike};
ghost use Rattle.sd_range.specs.Points.{points, ranges_of};
ghost use Rattle.sd_subset.specs.boxes.Box.{Parameter};
ghost use Rattle.sd_subset.specs.boxes.InForce.{AreFresh};
ghost use Rattle.sd_graph.specs.PlainTree.{KindTree, ItemTrees, GraphTree, consume_scope};
ghost use Rattle.sd_graph.specs.Wiring.{outside, item_uses, before};
ghost use Rattle.sd_graph.specs.Context.{Context, own_reach, private_memory};
ghost use Rattle.sd_graph.specs.Unfold.{at_point, at_element, element_memory, list_of, order_of_points, point_terms, unfold_items, run_of};
ghost use Rattle.sd_prop.specs.propagation.Scopes as scopes;
ghost use Rattle.sd_prop.specs.propagation.Scopes.{scope_of, scopes_itself, scopes_inside};
ghost use Rattle.sd_race.specs.race.Pairs.{IsScopeAccepted, AreScopesAccepted, IsGraphAccepted};
ghost use Rattle.sd_safe.specs.normal.NormalForm.{IsGraphNormal};
ghost use Rattle.sd_validity.specs.rules.Valid.{IsValid};
ghost use Rattle.sd_race.specs.cover.Fit.{IsFit, AreFit, IsGraphFit};
ghost use Rattle.sd_safe.specs.safe.Reached.{MayStand};
ghost use Rattle.sd_safe.specs.safe.Standing.{Spot, StandsInGraph, StandsAlone};

/// Items of a list that are not one before the other do not conflict.
pub fn items_without_a_path_do_not_conflict()
    ensures { (items : ItemTrees) (around : List Parameter) (context : Context)
        → AreFit items around → MayStand context around (item_uses items context.containers)
        → (i j : ℕ) → i < j → before context.containers items i j ≡ false
        → TouchCompatibly (part_at (unfold_items items context) i) (part_at (unfold_items items context) j) }
{}

/// The points of an accepted map that do not come one after another do not conflict, and no later one takes
/// from a stream outside of it. Those of a sequential map may: each is before all behind it.
pub fn points_of_an_accepted_map_do_not_conflict()
    ensures { (sequential : Bool) (params : List Parameter) (private : List ℕ) (body : ItemTrees) (path nodes : List ℕ) (around : List Parameter) (context : Context)
        → AreFresh around params → AreFit body (around ++ params)
        → MayStand context around (outside private (item_uses body context.containers))
        → IsScopeAccepted (scope_of (scopes.points sequential params) private body context.containers path around nodes)
        → ArePartsSafe Points (order_of_points sequential)
        (point_terms (λ point. owning (private_memory context.containers private)
        (list_of (at_point context params private point) body (unfold_items body (at_point context params private point))))
        (points (ranges_of params) context.values)) }
{}

/// The elements of an accepted consume scope do not conflict.
pub fn elements_of_an_accepted_consume_scope_do_not_conflict()
    ensures { (element : ℕ) (private : List ℕ) (body : ItemTrees) (path nodes : List ℕ) (around : List Parameter) (context : Context)
        → AreFit body around
        → MayStand context around (outside (element ∷ private) (item_uses body context.containers))
        → IsScopeAccepted (scope_of scopes.elements (element ∷ private) body context.containers path around nodes)
        → IsPoolSafe (λ value. owning (element_memory context element private value)
        (list_of (at_element context element private value) body (unfold_items body (at_element context element private value)))) idle }
{}

/// The run of an accepted graph may be done in any order.
pub fn an_accepted_graph_may_interleave()
    ensures { (tree : GraphTree) (memory : Memory)
        → IsGraphFit tree [] → IsGraphAccepted tree → MayInterleave (run_of tree memory) }
{}

/// Over a memory of its graph an item may stand outside of maps, and is alone there.
pub fn an_item_over_a_memory_of_its_graph_stands_alone()
    ensures { (kind : KindTree) (context : Context)
        → ((number : ℕ) → context.reach number ≡ own_reach context.containers number) → StandsAlone context kind [] }
{}

/// A pool alone whose body is accepted, with the scopes in it, may be done in any order, over a memory
/// in which all that it reaches lies.
pub fn an_accepted_consume_scope_may_interleave()
    ensures { (memory : Memory) (stream element : ℕ) (private : List ℕ) (body : ItemTrees) (path nodes : List ℕ) (around : List Parameter) (context : Context)
        → StandsAlone context (consume_scope stream element private body) around
        → IsFit (consume_scope stream element private body) around
        → AreScopesAccepted (scopes_itself (consume_scope stream element private body) context.containers path around nodes)
        → AreScopesAccepted (scopes_inside (consume_scope stream element private body) context.containers path around nodes)
        → MayInterleave (pool_over memory (context.reach stream).container (λ value. owning (element_memory context element private value)
        (list_of (at_element context element private value) body (unfold_items body (at_element context element private value))))) }
{}

/// Of two runs of an accepted graph, by any picks, the one is done where the other is, and they
/// leave memories alike and as many turns.
pub fn an_accepted_graph_ends_alike()
    ensures { (tree : GraphTree) (memory : Memory) (turns : ℕ) (picks others : List ℕ) (left : Left)
        → IsGraphFit tree [] → IsGraphAccepted tree
        → Run (run_of tree memory) turns picks (Done left)
        → (end : Left) × Run (run_of tree memory) turns others (Done end) × LeaveAlike left end }
{}

/// The run of a valid graph that is accepted may be done in any order. Each graph that a program holds
/// has its expressions in normal form, by the types of its parts.
pub fn a_valid_accepted_graph_may_interleave()
    ensures { (tree : GraphTree) (memory : Memory)
        → IsValid tree → IsGraphNormal tree → IsGraphAccepted tree → MayInterleave (run_of tree memory) }
{}

/// The run of a valid, accepted graph by any picks is done where the sequential run is, and the other
/// way, with alike memories and as many turns: whatever the memory, the turns and the picks are.
pub fn each_interleaving_of_a_valid_accepted_graph_ends_as_the_sequential_run()
    ensures picked { (tree : GraphTree) (memory : Memory) (turns : ℕ) (picks : List ℕ) (left : Left)
        → IsValid tree → IsGraphNormal tree → IsGraphAccepted tree
        → Sequential (run_of tree memory) turns (Done left)
        → (end : Left) × Run (run_of tree memory) turns picks (Done end) × LeaveAlike left end }
    ensures sequential { (tree : GraphTree) (memory : Memory) (turns : ℕ) (picks : List ℕ) (left : Left)
        → IsValid tree → IsGraphNormal tree → IsGraphAccepted tree
        → Run (run_of tree memory) turns picks (Done left)
        → (end : Left) × Sequential (run_of tree memory) turns (Done end) × LeaveAlike left end }
{}

/// Of two runs of such a pool, from memories that are alike and by any picks, the one is done where
/// the other is. They leave alike memories and as many turns; from each stream they took, and into
/// each they pushed, each value equally often.
pub fn the_order_of_taking_of_an_accepted_scope_makes_no_difference()
    ensures { (own other : Memory) (stream element : ℕ) (private : List ℕ) (body : ItemTrees) (path nodes : List ℕ) (around : List Parameter) (context : Context)
        (turns : ℕ) (picks others : List ℕ) (left : Left) (happened : List Event)
        → StandsAlone context (consume_scope stream element private body) around
        → IsFit (consume_scope stream element private body) around
        → AreScopesAccepted (scopes_itself (consume_scope stream element private body) context.containers path around nodes)
        → AreScopesAccepted (scopes_inside (consume_scope stream element private body) context.containers path around nodes)
        → AreAlike own other
        → DoneWith (pool_over own (context.reach stream).container (λ value. owning (element_memory context element private value)
        (list_of (at_element context element private value) body (unfold_items body (at_element context element private value))))) turns picks left happened
        → (end : Left) × (happened_there : List Event)
        × DoneWith (pool_over other (context.reach stream).container (λ value. owning (element_memory context element private value)
        (list_of (at_element context element private value) body (unfold_items body (at_element context element private value))))) turns others end happened_there
        × LeaveAlike left end × AreEventsAlike happened happened_there }
{}

/// So it is of each consume scope of a valid, accepted graph, wherever it stands: in a list of a state,
/// in other scopes, or in a nested graph.
pub fn the_order_of_taking_in_a_valid_accepted_graph_makes_no_difference()
    ensures { (tree : GraphTree) (own other : Memory) (stream element : ℕ) (private : List ℕ) (body : ItemTrees) (at : Spot) (context : Context)
        (turns : ℕ) (picks others : List ℕ) (left : Left) (happened : List Event)
        → IsValid tree → IsGraphNormal tree → IsGraphAccepted tree
        → StandsInGraph (consume_scope stream element private body) at tree
        → context.containers ≡ at.containers → StandsAlone context (consume_scope stream element private body) at.around
        → AreAlike own other
        → DoneWith (pool_over own (context.reach stream).container (λ value. owning (element_memory context element private value)
        (list_of (at_element context element private value) body (unfold_items body (at_element context element private value))))) turns picks left happened
        → (end : Left) × (happened_there : List Event)
        × DoneWith (pool_over other (context.reach stream).container (λ value. owning (element_memory context element private value)
        (list_of (at_element context element private value) body (unfold_items body (at_element context element private value))))) turns others end happened_there
        × LeaveAlike left end × AreEventsAlike happened happened_there }
{}
