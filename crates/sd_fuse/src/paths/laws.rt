//! What MapFusion gives where its conditions hold: the law is a function that does nothing.
ghost use Rattle.std.specs.Prelude.{◌≡◌, ℕ, List, None};
ghost use Rattle.sd_graph.specs.PlainTree.{GraphTree};
ghost use Rattle.sd_validity.specs.rules.Valid.{IsValid};
ghost use Rattle.sd_safe.specs.normal.NormalForm.{IsGraphNormal};
ghost use Rattle.sd_exchange.specs.maps.RunsAlike.{RunsAlike};
ghost use Rattle.sd_mapx.specs.Conditions.{lowest_failing};
ghost use Rattle.sd_fuse.specs.paths.FusionConditions.{fused_at, fusion_conditions};

/// Where no condition of MapFusion fails, of a valid graph in normal form, the sequential run of the graph with the two
/// maps made one is done exactly where that of the old one is, with alike memories and as many turns left.
pub fn a_fused_graph_ends_alike()
    ensures ends { (tree : GraphTree) (first second : List ℕ) → IsValid tree → IsGraphNormal tree
        → lowest_failing (fusion_conditions tree first second) ≡ None → RunsAlike tree (fused_at tree first second) }
    ensures began { (tree : GraphTree) (first second : List ℕ) → IsValid tree → IsGraphNormal tree
        → lowest_failing (fusion_conditions tree first second) ≡ None → RunsAlike (fused_at tree first second) tree }
{}
