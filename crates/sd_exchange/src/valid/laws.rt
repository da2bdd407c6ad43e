//! What rewrites that change the order of points leave as it was: each law is a function that does nothing.
ghost use Rattle.std.specs.Prelude.{ℕ, List, []};
ghost use Rattle.sd_graph.specs.PlainTree.{GraphTree};
ghost use Rattle.sd_alike.specs.alike.Places.{graph_with};
ghost use Rattle.sd_alike.specs.alike.Rewritten.{RunsSame};
ghost use Rattle.sd_safe.specs.normal.NormalForm.{IsGraphNormal};
ghost use Rattle.sd_validity.specs.rules.Valid.{IsValid};
ghost use Rattle.sd_exchange.specs.maps.AcceptedPools.{ArePoolsAccepted};
ghost use Rattle.sd_exchange.specs.maps.Tails.{GraphLeadsTo};
ghost use Rattle.sd_exchange.specs.maps.OrderAsked.{InterchangeAsked, TilingAsked};
ghost use Rattle.sd_exchange.specs.maps.OrderRewrites.{interchanged, tiled_by};
ghost use Rattle.sd_exchange.specs.maps.RunsAlike.{RunsAlike};

/// A valid graph whose consume scopes are accepted, and the graph with a map and the one that stands alone in it
/// exchanged, end alike, where the outer one is free of races and the inner ranges name no parameter of it. The
/// rest of the graph, the inner map too, may have races.
pub fn a_valid_graph_with_maps_interchanged_ends_alike()
    ensures ends { (tree : GraphTree) (path : List ℕ)
        → IsValid tree → IsGraphNormal tree → ArePoolsAccepted tree → GraphLeadsTo InterchangeAsked tree path
        → RunsAlike tree (graph_with interchanged [] tree path) }
    ensures began { (tree : GraphTree) (path : List ℕ)
        → IsValid tree → IsGraphNormal tree → ArePoolsAccepted tree → GraphLeadsTo InterchangeAsked tree path
        → RunsAlike (graph_with interchanged [] tree path) tree }
{}

/// So it is with a map of any number of parameters cut into tiles, where the map is free of races.
pub fn a_valid_graph_with_a_map_tiled_ends_alike()
    ensures ends { (sizes : List ℕ) (names : List (List ℕ)) (tree : GraphTree) (path : List ℕ)
        → IsValid tree → IsGraphNormal tree → ArePoolsAccepted tree → GraphLeadsTo (TilingAsked sizes) tree path
        → RunsAlike tree (graph_with (tiled_by sizes) names tree path) }
    ensures began { (sizes : List ℕ) (names : List (List ℕ)) (tree : GraphTree) (path : List ℕ)
        → IsValid tree → IsGraphNormal tree → ArePoolsAccepted tree → GraphLeadsTo (TilingAsked sizes) tree path
        → RunsAlike (graph_with (tiled_by sizes) names tree path) tree }
{}

/// Graphs that end alike, one after another, end alike, and those that run the same do.
pub fn graphs_that_end_alike_in_turn_end_alike()
    ensures follows { (tree between other : GraphTree) → RunsAlike tree between → RunsAlike between other → RunsAlike tree other }
    ensures same { (tree other : GraphTree) → RunsSame tree other → RunsAlike tree other }
    ensures same_back { (tree other : GraphTree) → RunsSame tree other → RunsAlike other tree }
{}
