//! What validity gives: each law is a function that does nothing.
ghost use Rattle.std.specs.Prelude.{◌≡◌, ℕ, List, [], None, Some};
ghost use Rattle.sd_graph.specs.PlainTree.{GraphTree};
ghost use Rattle.sd_graph.specs.InForce.{AreContainersInForce};
ghost use Rattle.sd_graph.specs.InPlace.{HasStreamsInPlace, IsLinked};
ghost use Rattle.sd_graph.specs.Upwards.{LeadsUpwards};
ghost use Rattle.sd_validity.specs.rules.Failing.{Holds, IsFirst, Rule, failing};
ghost use Rattle.sd_validity.specs.rules.Places.{Place};
ghost use Rattle.sd_validity.specs.rules.NamesInForce.{rule_1};
ghost use Rattle.sd_validity.specs.rules.Transitions.{rule_3};
ghost use Rattle.sd_validity.specs.rules.StreamUse.{rule_4};
ghost use Rattle.sd_validity.specs.rules.NestedLinks.{rule_5};
ghost use Rattle.sd_validity.specs.rules.Valid.{IsValid, invalidity};

/// Each container that is named in a graph, and in each graph nested in it, is in force there, where
/// the rule of names holds.
pub fn a_graph_with_its_names_names_what_is_in_force()
    ensures { (tree : GraphTree) → Holds rule_1 tree → AreContainersInForce tree }
{}

/// Each transition without a mark leads to a higher state that is there, where the rule of
/// transitions holds. So each run of the graph ends, and has one outcome.
pub fn a_graph_with_right_transitions_leads_upwards()
    ensures { (tree : GraphTree) → Holds rule_3 tree → LeadsUpwards tree }
{}

/// Streams are only pushed into by tasklets and consumed, where the rule of streams holds.
pub fn a_graph_with_its_streams_has_them_in_place()
    ensures { (tree : GraphTree) → Holds rule_4 tree → HasStreamsInPlace tree }
{}

/// A nested graph has a link for each of its arguments, which are its first containers, where the
/// rule of nested graphs holds.
pub fn a_graph_with_right_links_is_linked()
    ensures { (tree : GraphTree) → Holds rule_5 tree → IsLinked tree }
{}

/// A valid graph is one that the laws of graphs ask for.
pub fn a_valid_graph_is_as_its_laws_ask()
    ensures in_force { (tree : GraphTree) → IsValid tree → AreContainersInForce tree }
    ensures upwards { (tree : GraphTree) → IsValid tree → LeadsUpwards tree }
    ensures in_place { (tree : GraphTree) → IsValid tree → HasStreamsInPlace tree }
    ensures linked { (tree : GraphTree) → IsValid tree → IsLinked tree }
{}

/// A graph is valid exactly where no rule fails at a place of it.
pub fn a_graph_is_valid_where_no_rule_fails()
    ensures valid { (tree : GraphTree) → invalidity tree ≡ None → IsValid tree }
    ensures none { (tree : GraphTree) → IsValid tree → invalidity tree ≡ None }
{}

/// The path that is told of a rule is that of the first place at which it fails: at each one before
/// it the rule holds.
pub fn the_place_that_is_told_is_the_first_that_fails()
    ensures { (rule : Rule) (places : List Place) (path : List ℕ) → failing rule [] places ≡ Some path → IsFirst rule places path }
{}
