//! What holds of chains: each law is a function that does nothing.
ghost use Rattle.std.specs.Prelude.{◌≡◌, ◌↔◌, ℕ, List, None, Ok};
ghost use Rattle.std.specs.List.{Contains};
ghost use Rattle.sd_graph.specs.PlainTree.{GraphTree};
ghost use Rattle.sd_validity.specs.rules.Valid.{IsValid};
ghost use Rattle.sd_safe.specs.normal.NormalForm.{IsGraphNormal};
ghost use Rattle.sd_alike.specs.alike.Rewritten.{RunsSame};
ghost use Rattle.sd_exchange.specs.maps.RunsAlike.{RunsAlike};
ghost use Rattle.sd_chain.specs.declared.step.Step.{Step};
ghost use Rattle.sd_steps.specs.Chained.{chained, failing, KeepOrder};
ghost use Rattle.sd_steps.specs.Matched.{matched, IsTried};

/// The graph that a chain makes of a valid graph is valid.
pub fn a_chained_graph_is_valid()
    ensures { (tree new : GraphTree) (steps : List (ℕ × Step)) → IsValid tree → chained tree steps ≡ Ok new → IsValid new }
{}

/// Where the expressions of the old one are in normal form, so are its own.
pub fn a_chained_graph_is_normal()
    ensures { (tree new : GraphTree) (steps : List (ℕ × Step)) → IsGraphNormal tree → chained tree steps ≡ Ok new → IsGraphNormal new }
{}

/// And it ends alike as the old one, and the old one as it.
pub fn a_chained_graph_runs_alike()
    ensures ends { (tree new : GraphTree) (steps : List (ℕ × Step)) → IsValid tree → IsGraphNormal tree → chained tree steps ≡ Ok new → RunsAlike tree new }
    ensures began { (tree new : GraphTree) (steps : List (ℕ × Step)) → IsValid tree → IsGraphNormal tree → chained tree steps ≡ Ok new → RunsAlike new tree }
{}

/// Where each step leaves the points of maps in their order, it runs as the old one.
pub fn a_chained_graph_in_the_same_order_runs_the_same()
    ensures { (tree new : GraphTree) (steps : List (ℕ × Step)) → IsValid tree → KeepOrder steps → chained tree steps ≡ Ok new → RunsSame tree new }
{}

/// A step that is tried may be done exactly where it is one of the matches, and no other one is.
pub fn the_matches_are_the_steps_that_can_be_done()
    ensures { (tree : GraphTree) (step : Step) → Contains (matched tree) step ↔ (IsTried step × (failing tree step ≡ None)) }
{}
