//! What binding gives at the places of a graph: each law is a function that does nothing.
ghost use Rattle.std.specs.Prelude.{◌≡◌, ℕ, ℤ, List, length, map};
ghost use Rattle.sd_graph.specs.PlainTree.{GraphTree};
ghost use Rattle.sd_valid.specs.BoundTree.{bound_graph};
ghost use Rattle.sd_validity.specs.rules.Places.{places_of};
ghost use Rattle.sd_validity.specs.rules.Failing.{Holds};
ghost use Rattle.sd_validity.specs.rules.SizesGone.{rule_8};
ghost use Rattle.sd_validity.specs.bound_places.BoundPlace.{bound_place};
ghost use Rattle.sd_validity.specs.bound_places.SizedExtents.{HasSizedExtentsThroughout};

/// The places of a bound graph are those of the graph, one for one, each with the sizes.
pub fn the_places_of_a_bound_graph_are_those_of_the_graph()
    ensures { (sizes : List ℤ) (tree : GraphTree) (path : List ℕ) (depth : ℕ)
        → places_of (bound_graph sizes tree) path depth ≡ map (bound_place sizes) (places_of tree path depth) }
{}

/// In a bound graph no size symbol is left and every extent is a constant, where the extents of the
/// graph, and of each graph nested in it, name size symbols alone.
pub fn a_bound_graph_names_no_size()
    ensures { (sizes : List ℤ) (tree : GraphTree) → HasSizedExtentsThroughout (length sizes) tree → Holds rule_8 (bound_graph sizes tree) }
{}
