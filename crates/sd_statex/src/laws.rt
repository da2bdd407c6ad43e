//! What holds of the graph with two states fused: each law is a function that does nothing.
ghost use Rattle.std.specs.Prelude.{◌≡◌, ℕ, List, None};
ghost use Rattle.sd_graph.specs.PlainTree.{GraphTree};
ghost use Rattle.sd_validity.specs.rules.Valid.{IsValid};
ghost use Rattle.sd_safe.specs.normal.NormalForm.{IsGraphNormal};
ghost use Rattle.sd_alike.specs.alike.Rewritten.{RunsSame};
ghost use Rattle.sd_mapx.specs.Conditions.{lowest_failing};
ghost use Rattle.sd_statex.specs.StateFusion.{fused_at, state_fusion_conditions};

/// Where no condition fails, the graph with the two states at two paths as one runs as the old one.
pub fn a_graph_with_two_states_as_one_runs_the_same()
    ensures { (tree : GraphTree) (first second : List ℕ) → IsValid tree → lowest_failing (state_fusion_conditions tree first second) ≡ None
        → RunsSame tree (fused_at tree first second) }
{}

/// And it is valid.
pub fn a_graph_with_two_states_as_one_is_valid()
    ensures { (tree : GraphTree) (first second : List ℕ) → IsValid tree → lowest_failing (state_fusion_conditions tree first second) ≡ None
        → IsValid (fused_at tree first second) }
{}

/// It is in normal form where the old one is, whatever the paths are.
pub fn a_graph_with_two_states_as_one_is_normal()
    ensures { (tree : GraphTree) (first second : List ℕ) → IsGraphNormal tree → IsGraphNormal (fused_at tree first second) }
{}
