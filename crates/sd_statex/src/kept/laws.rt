//! What fused states keep of the rules of valid graphs: the law is a function that does nothing.
ghost use Rattle.std.specs.Prelude.{ℕ, List};
ghost use Rattle.sd_graph.specs.PlainTree.{GraphTree};
ghost use Rattle.sd_validity.specs.rules.Failing.{Holds};
ghost use Rattle.sd_validity.specs.rules.Transitions.{rule_3};
ghost use Rattle.sd_validity.specs.rules.WithinLimits.{rule_7};
ghost use Rattle.sd_validity.specs.rules.Valid.{IsValid};
ghost use Rattle.sd_statex.specs.states.FusedStates.{graph_fused, AreStatesFusible};
ghost use Rattle.sd_statex.specs.states.ChangedGraphs.{graph_changed, GraphHas};

/// A valid graph with two states fused, of it or of a graph nested in it, is valid, where the new graph keeps the
/// rules on transitions and on limits.
pub fn a_graph_with_states_fused_stays_valid()
    ensures { (first second : ℕ) (tree : GraphTree) (path : List ℕ) → IsValid tree → GraphHas (AreStatesFusible first second) tree path
        → Holds rule_3 (graph_changed (graph_fused first second) tree path) → Holds rule_7 (graph_changed (graph_fused first second) tree path)
        → IsValid (graph_changed (graph_fused first second) tree path) }
{}
