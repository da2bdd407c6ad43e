ghost use Rattle.std.specs.Prelude.{◌≡◌, ℕ, List, false};
ghost use Rattle.sd_work.specs.Memory.{Memory};
ghost use Rattle.sd_work.specs.WellFormed.{HasNoPool};
ghost use Rattle.sd_graph.specs.PlainTree.{GraphTree};
ghost use Rattle.sd_graph.specs.Context.{Reach};
ghost use Rattle.sd_graph.specs.Unfold.{unfold_graph};
ghost use Rattle.sd_graph.specs.declared.place.Frame.{Frame};
ghost use Rattle.sd_left.specs.pool_free.Consuming.{graph_consumes};

/// Without consume scopes a run of a graph has no pools, also in the states that it may come to.
pub fn a_graph_without_consume_scopes_has_no_pools()
    ensures { (tree : GraphTree) (reach : ℕ → Reach) (own : Memory) (around : List Frame) → graph_consumes tree ≡ false
        → HasNoPool (unfold_graph tree reach own around) }
{}
