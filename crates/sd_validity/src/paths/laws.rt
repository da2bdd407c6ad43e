//! What paths tell: the law is a function that does nothing.
ghost use Rattle.std.specs.Prelude.{◌≡◌, Some};
ghost use Rattle.std.specs.List.{AllByRecursion};
ghost use Rattle.sd_graph.specs.PlainTree.{GraphTree};
ghost use Rattle.sd_validity.specs.rules.Places.{all_places};
ghost use Rattle.sd_validity.specs.paths.GraphAt.{graph_at};

/// The graph of each place is the one at the path that the place tells of it. So two places with
/// one path of their graph are of one graph.
pub fn the_graph_of_a_place_is_found_at_its_path()
    ensures { (tree : GraphTree) → AllByRecursion (λ place. graph_at tree place.graph_path ≡ Some place.graph) (all_places tree) }
{}
