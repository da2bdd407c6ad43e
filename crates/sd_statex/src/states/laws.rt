//! Two states of a graph fused: each law is a function that does nothing.
ghost use Rattle.std.specs.Prelude.{ℕ, List};
ghost use Rattle.sd_work.specs.Residual.{Term};
ghost use Rattle.sd_graph.specs.declared.place.Place.{Place};
ghost use Rattle.sd_graph.specs.PlainTree.{GraphTree};
ghost use Rattle.sd_alike.specs.alike.Alike.{NamesItsVariables};
ghost use Rattle.sd_alike.specs.alike.Rewritten.{RunsSame};
ghost use Rattle.sd_statex.specs.states.FusedStates.{graph_fused, AreStatesFusible};
ghost use Rattle.sd_statex.specs.states.ChangedGraphs.{graph_changed, GraphHas};
ghost use Rattle.sd_statex.specs.states.Reaching.{AtMost, DoesWith};

/// Work that is done with so many transitions and takes is done with more.
pub fn more_transitions_are_enough()
    ensures { (term : Term Place) (most more : ℕ) → AtMost most more → DoesWith most term more term }
{}

/// A graph with two states fused, of it or of a graph nested in it, runs as the old one.
pub fn a_graph_with_states_fused_runs_the_same()
    ensures { (first second : ℕ) (tree : GraphTree) (path : List ℕ) → GraphHas (AreStatesFusible first second) tree path → NamesItsVariables tree
        → RunsSame tree (graph_changed (graph_fused first second) tree path) }
{}
