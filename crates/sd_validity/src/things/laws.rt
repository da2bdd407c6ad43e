//! What stands in one graph: the law is a function that does nothing.
ghost use Rattle.std.specs.Prelude.{[]};
ghost use Rattle.sd_graph.specs.PlainTree.{GraphTree};
ghost use Rattle.sd_validity.specs.rules.Places.{all_places};
ghost use Rattle.sd_validity.specs.things.Behind.{AllBehind, StandsBehind};

/// What stands in the graph of a place is what stands at the places before it that are of that graph,
/// then what stands at it, and then the rest. So what two places of a graph share, the graph has twice.
pub fn what_stands_before_a_place_stands_in_its_graph()
    ensures { (tree : GraphTree) → AllBehind StandsBehind [] (all_places tree) }
{}
