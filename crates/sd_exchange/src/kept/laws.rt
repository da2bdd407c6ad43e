//! What rewrites that change the order of points keep of the rules of valid graphs: each law is a function that does nothing.
ghost use Rattle.std.specs.Prelude.{◌≡◌, ℕ, List, [], length};
ghost use Rattle.sd_graph.specs.PlainTree.{GraphTree};
ghost use Rattle.sd_validity.specs.rules.Failing.{Holds};
ghost use Rattle.sd_validity.specs.rules.Transitions.{rule_3};
ghost use Rattle.sd_validity.specs.rules.WithinLimits.{rule_7};
ghost use Rattle.sd_validity.specs.rules.Valid.{IsValid};
ghost use Rattle.sd_alike.specs.alike.Maps.{IsCollapsible};
ghost use Rattle.sd_alike.specs.alike.Places.{GraphLeads, graph_with};
ghost use Rattle.sd_exchange.specs.maps.OrderRewrites.{interchanged, tiled_by, HasSizes};

/// A valid graph with a map and the one that stands alone in it exchanged is valid, where the inner ranges name no
/// parameter of the outer one, and the new graph keeps the rules on transitions and on limits.
pub fn a_graph_with_maps_interchanged_stays_valid()
    ensures { (tree : GraphTree) (path : List ℕ) → IsValid tree → GraphLeads IsCollapsible tree path
        → Holds rule_3 (graph_with interchanged [] tree path) → Holds rule_7 (graph_with interchanged [] tree path)
        → IsValid (graph_with interchanged [] tree path) }
{}

/// So is one with a map cut into tiles, where there is a size and a new variable for each parameter, whatever the
/// sizes and the variables' names are, and the new graph keeps these two rules.
pub fn a_graph_with_a_map_tiled_stays_valid()
    ensures { (sizes : List ℕ) (names : List (List ℕ)) (tree : GraphTree) (path : List ℕ) → IsValid tree → GraphLeads (HasSizes sizes) tree path
        → length names ≡ length sizes
        → Holds rule_3 (graph_with (tiled_by sizes) names tree path) → Holds rule_7 (graph_with (tiled_by sizes) names tree path)
        → IsValid (graph_with (tiled_by sizes) names tree path) }
{}
