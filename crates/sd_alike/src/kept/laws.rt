//! What a rewrite of maps keeps of the rules of valid graphs, each rule alone: each law is a function that does nothing.
ghost use Rattle.std.specs.Prelude.{ℕ, List, []};
ghost use Rattle.sd_graph.specs.PlainTree.{GraphTree};
ghost use Rattle.sd_validity.specs.rules.Failing.{Holds};
ghost use Rattle.sd_alike.specs.alike.Places.{GraphLeads, graph_with};
ghost use Rattle.sd_alike.specs.alike.Alike.{NamesItsVariables};
ghost use Rattle.sd_validity.specs.rules.NamesInForce.{rule_1};
ghost use Rattle.sd_alike.specs.alike.Maps.{IsCollapsible, collapsed, IsExpandable, expanded};
ghost use Rattle.sd_validity.specs.rules.Dimensions.{rule_2};
ghost use Rattle.sd_validity.specs.rules.StreamUse.{rule_4};
ghost use Rattle.sd_validity.specs.rules.NestedLinks.{rule_5};
ghost use Rattle.sd_validity.specs.rules.MovedShapes.{rule_6};
ghost use Rattle.sd_validity.specs.rules.SizesGone.{rule_8};

/// A graph with a map collapsed keeps the rules on names, dimensions, streams, nested graphs, copies
/// and reductions, and sizes. Those on transitions and on limits it may break.
pub fn a_map_collapsed_keeps_rules()
    ensures names { (tree : GraphTree) (path : List ℕ) → GraphLeads IsCollapsible tree path
        → Holds rule_1 tree → Holds rule_1 (graph_with collapsed [] tree path) }
    ensures dimensions { (tree : GraphTree) (path : List ℕ) → GraphLeads IsCollapsible tree path
        → Holds rule_2 tree → Holds rule_2 (graph_with collapsed [] tree path) }
    ensures streams { (tree : GraphTree) (path : List ℕ) → GraphLeads IsCollapsible tree path
        → Holds rule_4 tree → Holds rule_4 (graph_with collapsed [] tree path) }
    ensures nesting { (tree : GraphTree) (path : List ℕ) → GraphLeads IsCollapsible tree path
        → Holds rule_5 tree → Holds rule_5 (graph_with collapsed [] tree path) }
    ensures shapes { (tree : GraphTree) (path : List ℕ) → GraphLeads IsCollapsible tree path
        → Holds rule_6 tree → Holds rule_6 (graph_with collapsed [] tree path) }
    ensures sizes { (tree : GraphTree) (path : List ℕ) → GraphLeads IsCollapsible tree path
        → Holds rule_8 tree → Holds rule_8 (graph_with collapsed [] tree path) }
{}

/// A graph with a map expanded keeps them too.
pub fn a_map_expanded_keeps_rules()
    ensures names { (tree : GraphTree) (path : List ℕ) → GraphLeads IsExpandable tree path
        → Holds rule_1 tree → Holds rule_1 (graph_with expanded [] tree path) }
    ensures dimensions { (tree : GraphTree) (path : List ℕ) → GraphLeads IsExpandable tree path
        → Holds rule_2 tree → Holds rule_2 (graph_with expanded [] tree path) }
    ensures streams { (tree : GraphTree) (path : List ℕ) → GraphLeads IsExpandable tree path
        → Holds rule_4 tree → Holds rule_4 (graph_with expanded [] tree path) }
    ensures nesting { (tree : GraphTree) (path : List ℕ) → GraphLeads IsExpandable tree path
        → Holds rule_5 tree → Holds rule_5 (graph_with expanded [] tree path) }
    ensures shapes { (tree : GraphTree) (path : List ℕ) → GraphLeads IsExpandable tree path
        → Holds rule_6 tree → Holds rule_6 (graph_with expanded [] tree path) }
    ensures sizes { (tree : GraphTree) (path : List ℕ) → GraphLeads IsExpandable tree path
        → Holds rule_8 tree → Holds rule_8 (graph_with expanded [] tree path) }
{}

/// A graph in which the rule of names holds names no variables but its own, and so does each graph nested in it.
pub fn a_graph_with_its_names_names_its_variables()
    ensures { (tree : GraphTree) → Holds rule_1 tree → NamesItsVariables tree }
{}
