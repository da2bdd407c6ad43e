//! What validity gives for boxes: the law is a function that does nothing.

ghost use Rattle.std.specs.Prelude.{[]};
ghost use Rattle.sd_graph.specs.PlainTree.{GraphTree};
ghost use Rattle.sd_safe.specs.normal.NormalForm.{IsGraphNormal};
ghost use Rattle.sd_validity.specs.rules.Valid.{IsValid};
ghost use Rattle.sd_race.specs.cover.Fit.{IsGraphFit};

/// A valid graph is fit, where its expressions are in normal form. Each graph that a program holds
/// has them so, by the types of its parts.
pub fn a_valid_graph_is_fit()
    ensures { (tree : GraphTree) → IsValid tree → IsGraphNormal tree → IsGraphFit tree [] }
{}
