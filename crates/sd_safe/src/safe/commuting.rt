//! What moves of an accepted graph give, and what its runs leave: each law is a function that does nothing.

ghost use Rattle.std.specs.Prelude.{◌≡◌, ◌∷◌, ◌++◌, ℕ, ℤ, List, Bool};
ghost use Rattle.std.specs.List.{AllByRecursion, Contains};
ghost use Rattle.sd_work.specs.Memory.{Memory};
ghost use Rattle.sd_work.specs.Residual.{Term, owning};
ghost use Rattle.sd_work.specs.Moves.{Path};
ghost use Rattle.sd_work.specs.Step.{Machine, Done, opening, next_moves, step};
ghost use Rattle.sd_work.specs.Run.{Choice, choices};
ghost use Rattle.sd_work.specs.Touch.{Touch, Touches};
ghost use Rattle.sd_confluence.specs.Left.{IsLeftOf};
ghost use Rattle.sd_confluence.specs.Sides.{AreOfTwoParts, AreTermsAlike};
ghost use Rattle.sd_confluence.specs.Takes.{AreTwoTakes, behind_take, AreTermsReordered};
ghost use Rattle.sd_range.specs.declared.range.Range.{Range};
ghost use Rattle.sd_subset.specs.boxes.Box.{Parameter};
ghost use Rattle.sd_subset.specs.boxes.InForce.{AreInForce, IsPoint};
ghost use Rattle.sd_subset.specs.boxes.InForce as box;
ghost use Rattle.sd_graph.specs.declared.place.Place.{Place};
ghost use Rattle.sd_graph.specs.PlainTree.{KindTree, ItemTrees, GraphTree, map_scope, consume_scope};
ghost use Rattle.sd_graph.specs.Context.{Context, own_reach, private_memory};
ghost use Rattle.sd_graph.specs.Unfold.{at_point, at_element, element_memory, list_of, unfold_kind, unfold_items, run_of};
ghost use Rattle.sd_prop.specs.propagation.Accesses.{kind_accesses, item_accesses, outside_accesses};
ghost use Rattle.sd_race.specs.race.Pairs.{IsGraphAccepted};
ghost use Rattle.sd_race.specs.cover.Touched.{IsCovered};
ghost use Rattle.sd_validity.specs.rules.Valid.{IsValid};
ghost use Rattle.sd_safe.specs.normal.NormalForm.{IsGraphNormal};
ghost use Rattle.sd_safe.specs.safe.Standing.{Spot, StandsInGraph, StandsAlone};

/// At each choice of each run of a valid, accepted graph two next moves commute that are of two parts of one list, as
/// of two points of a map or of two items of which neither waits for the other; or of two elements in work of one
/// consume scope, or of one and a take. After the one the other is still next; where it is made too, it may be made
/// first and the one behind it, with as many turns. What they leave is equal but for the order of values in streams.
pub fn steps_in_two_parts_of_a_valid_accepted_graph_commute()
    ensures stays { (tree : GraphTree) (memory : Memory) (steps turns : ℕ) (picks : List ℕ) (choice : Choice Place) (path second : Path) (between : Machine Place)
        → IsValid tree → IsGraphNormal tree → IsGraphAccepted tree
        → Contains (choices steps picks (opening (run_of tree memory) turns)) choice
        → Contains (next_moves choice.machine) path → Contains (next_moves choice.machine) second
        → AreOfTwoParts choice.machine.term path second
        → step path choice.machine ≡ Done between → Contains (next_moves between) second }
    ensures commute { (tree : GraphTree) (memory : Memory) (steps turns : ℕ) (picks : List ℕ) (choice : Choice Place) (path second : Path) (between both : Machine Place)
        → IsValid tree → IsGraphNormal tree → IsGraphAccepted tree
        → Contains (choices steps picks (opening (run_of tree memory) turns)) choice
        → Contains (next_moves choice.machine) path → Contains (next_moves choice.machine) second
        → AreOfTwoParts choice.machine.term path second
        → step path choice.machine ≡ Done between → step second between ≡ Done both
        → (early last : Machine Place) × (step second choice.machine ≡ Done early) × (step path early ≡ Done last)
        × AreTermsAlike both.term last.term × (both.turns ≡ last.turns) }
{}

/// At each choice of each run of a valid, accepted graph two next moves that take from one consume scope commute too, each behind the other at
/// the position that its value has then. What they leave is equal but for the order of the scope's elements in work.
pub fn two_takes_of_a_valid_accepted_graph_commute()
    ensures stays { (tree : GraphTree) (memory : Memory) (steps turns : ℕ) (picks : List ℕ) (choice : Choice Place) (path second : Path) (between : Machine Place)
        → IsValid tree → IsGraphNormal tree → IsGraphAccepted tree
        → Contains (choices steps picks (opening (run_of tree memory) turns)) choice
        → Contains (next_moves choice.machine) path → Contains (next_moves choice.machine) second
        → AreTwoTakes choice.machine.term path second
        → step path choice.machine ≡ Done between → Contains (next_moves between) (behind_take path second) }
    ensures commute { (tree : GraphTree) (memory : Memory) (steps turns : ℕ) (picks : List ℕ) (choice : Choice Place) (path second : Path) (between both : Machine Place)
        → IsValid tree → IsGraphNormal tree → IsGraphAccepted tree
        → Contains (choices steps picks (opening (run_of tree memory) turns)) choice
        → Contains (next_moves choice.machine) path → Contains (next_moves choice.machine) second
        → AreTwoTakes choice.machine.term path second
        → step path choice.machine ≡ Done between → step (behind_take path second) between ≡ Done both
        → (early last : Machine Place) × (step second choice.machine ≡ Done early) × (step (behind_take second path) early ≡ Done last)
        × AreTermsReordered both.term last.term × (both.turns ≡ last.turns) }
{}

/// At each choice of each run of a graph what is left is left of the run as it was unfolded, part by part. Of a valid
/// graph, what is left of an item, of a point of a map or of an element of a consume scope touches outside of its own
/// containers only what lies in the box of one of its accesses, at the values in force.
pub fn what_is_left_of_a_valid_graph_lies_in_its_boxes()
    ensures stays { (tree : GraphTree) (memory : Memory) (steps turns : ℕ) (picks : List ℕ)
        → AllByRecursion (λ choice. IsLeftOf (run_of tree memory) choice.machine.term) (choices steps picks (opening (run_of tree memory) turns)) }
    ensures items { (tree : GraphTree) (kind : KindTree) (at : Spot) (line : ℕ) (nodes : List ℕ) (context : Context) (left : Term Place) (touch : Touch)
        → IsValid tree → IsGraphNormal tree → StandsInGraph kind at tree → AreInForce context.values at.around
        → IsLeftOf (unfold_kind kind line context) left → Touches left touch
        → IsCovered context.values context.reach (kind_accesses kind context.containers nodes) touch }
    ensures points { (tree : GraphTree) (sequential : Bool) (params : List (ℕ × Range)) (private : List ℕ) (body : ItemTrees) (at : Spot) (nodes : List ℕ) (context : Context)
        (point : List ℤ) (left : Term Place) (touch : Touch)
        → IsValid tree → IsGraphNormal tree → StandsInGraph (map_scope sequential params private body) at tree
        → AreInForce context.values at.around → IsPoint params context.values point
        → IsLeftOf (owning (private_memory context.containers private)
        (list_of (at_point context params private point) body (unfold_items body (at_point context params private point)))) left
        → Touches left touch
        → IsCovered (box.at_point params point context.values) context.reach (outside_accesses private (item_accesses body context.containers nodes)) touch }
    ensures elements { (tree : GraphTree) (stream element : ℕ) (private : List ℕ) (body : ItemTrees) (at : Spot) (nodes : List ℕ) (context : Context)
        (value : ℤ) (left : Term Place) (touch : Touch)
        → IsValid tree → IsGraphNormal tree → StandsInGraph (consume_scope stream element private body) at tree
        → AreInForce context.values at.around
        → IsLeftOf (owning (element_memory context element private value)
        (list_of (at_element context element private value) body (unfold_items body (at_element context element private value)))) left
        → Touches left touch
        → IsCovered context.values context.reach (outside_accesses (element ∷ private) (item_accesses body context.containers nodes)) touch }
{}

/// Over a memory of its graph an item may stand alone at the values of the maps around it.
pub fn an_item_inside_maps_over_a_memory_of_its_graph_stands_alone()
    ensures { (kind : KindTree) (context : Context) (around : List Parameter)
        → ((number : ℕ) → context.reach number ≡ own_reach context.containers number) → AreInForce context.values around
        → StandsAlone context kind around }
{}
