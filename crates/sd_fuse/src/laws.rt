//! What two maps made one do: each law is a function that does nothing.
ghost use Rattle.std.specs.Prelude.{ℕ, ℤ, Bool, List, [], ◌++◌};
ghost use Rattle.sd_range.specs.Points.{points, ranges_of};
ghost use Rattle.sd_work.specs.Residual.{Points, Terms, list, also};
ghost use Rattle.sd_subset.specs.boxes.Box.{Parameter};
ghost use Rattle.sd_graph.specs.declared.place.Place.{Place};
ghost use Rattle.sd_graph.specs.PlainTree.{GraphTree, ItemTrees, map_scope};
ghost use Rattle.sd_graph.specs.Wiring.{kind_uses};
ghost use Rattle.sd_graph.specs.Context.{Context};
ghost use Rattle.sd_graph.specs.Unfold.{in_any_order, point_terms, unfold_kind};
ghost use Rattle.sd_validity.specs.rules.Valid.{IsValid};
ghost use Rattle.sd_prop.specs.propagation.Accesses.{item_accesses, outside_accesses};
ghost use Rattle.sd_race.specs.cover.Fit.{IsFit};
ghost use Rattle.sd_safe.specs.normal.NormalForm.{IsGraphNormal};
ghost use Rattle.sd_safe.specs.safe.Reached.{MayStand};
ghost use Rattle.sd_exchange.specs.reorder.SafePools.{HaveSafePools};
ghost use Rattle.sd_exchange.specs.ends.Points.{point_of, pair_of};
ghost use Rattle.sd_exchange.specs.maps.AcceptedPools.{HasAcceptedPools, ArePoolsAccepted};
ghost use Rattle.sd_exchange.specs.maps.Tails.{GraphLeadsTo, graph_tail};
ghost use Rattle.sd_exchange.specs.maps.RunsAlike.{RunsAlike};
ghost use Rattle.sd_fuse.specs.ends.DoneAlike.{DoneAlike};
ghost use Rattle.sd_fuse.specs.maps.Cross.{CrossHarmlessly};
ghost use Rattle.sd_fuse.specs.maps.FusionRewrite.{fused_by};
ghost use Rattle.sd_fuse.specs.maps.FusionAsked.{FusionAsked};

/// Two maps over the same points, one behind the other, may be done point by point, where each conflicting pair of
/// accesses, one of each body, is harmless. Each of the two maps may have races of its own.
pub fn maps_may_be_done_point_by_point()
    ensures { (first_sequential second_sequential : Bool) (params : List Parameter) (private own : List ℕ) (body other : ItemTrees)
        (nodes others : List ℕ) (around : List Parameter) (line there : ℕ) (context : Context) (inside : ℕ → ℕ → Bool) (rest : Terms Place)
        → IsFit (map_scope first_sequential params private body) around → IsFit (map_scope second_sequential params own other) around
        → MayStand context around (kind_uses (map_scope first_sequential params private body) context.containers
        ++ kind_uses (map_scope second_sequential params own other) context.containers)
        → HasAcceptedPools (map_scope first_sequential params private body) context.containers
        → HasAcceptedPools (map_scope second_sequential params own other) context.containers → HaveSafePools rest
        → CrossHarmlessly around params (outside_accesses private (item_accesses body context.containers nodes))
        (outside_accesses own (item_accesses other context.containers others))
        → (let two = also (unfold_kind (map_scope first_sequential params private body) line context)
        (also (unfold_kind (map_scope second_sequential params own other) there context) rest) in
        let one = also (list Points in_any_order (point_terms
        (pair_of inside (point_of params private body context) (point_of params own other context))
        (points (ranges_of params) context.values))) rest in
        DoneAlike two one × DoneAlike one two) }
{}

/// A valid graph whose consume scopes are accepted, and the graph with two maps of a list made one, end alike. The
/// second map's ranges are those of the first after its parameters are renamed, no item between is on a path from
/// the first to the second, and each conflicting pair of accesses, one of each body, is harmless. The rest of the
/// graph, each of the two maps too, may have races.
pub fn a_valid_graph_with_maps_fused_ends_alike()
    ensures ends { (distance : ℕ) (tree : GraphTree) (path : List ℕ)
        → IsValid tree → IsGraphNormal tree → ArePoolsAccepted tree → GraphLeadsTo (FusionAsked distance) tree path
        → RunsAlike tree (graph_tail (fused_by distance) [] tree path) }
    ensures began { (distance : ℕ) (tree : GraphTree) (path : List ℕ)
        → IsValid tree → IsGraphNormal tree → ArePoolsAccepted tree → GraphLeadsTo (FusionAsked distance) tree path
        → RunsAlike (graph_tail (fused_by distance) [] tree path) tree }
{}

/// Its expressions are in normal form where those of the old one are, whatever the path is.
pub fn a_graph_with_maps_fused_stays_normal()
    ensures { (distance : ℕ) (tree : GraphTree) (path : List ℕ)
        → IsGraphNormal tree → IsGraphNormal (graph_tail (fused_by distance) [] tree path) }
{}
