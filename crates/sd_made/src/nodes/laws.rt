//! The nodes of the bound graph of a program: each law is a function that does nothing.
ghost use Rattle.std.specs.Prelude.{◌≡◌, Ok};
ghost use Rattle.sd_lex.specs.PlainTree.{ProgramTree};
ghost use Rattle.sd_program.specs.WellFormed.{IsWellFormed};
ghost use Rattle.sd_graph.specs.PlainTree.{GraphTree};
ghost use Rattle.sd_elab.specs.elab.Elaboration.{graph_of};
ghost use Rattle.sd_valid.specs.SizeValues.{NamedSizes};
ghost use Rattle.sd_valid.specs.Binding.{binding};
ghost use Rattle.sd_validity.specs.rules.Places.{all_places};
ghost use Rattle.sd_validity.specs.rules.Failing.{Holds};
ghost use Rattle.sd_validity.specs.rules.WithinLimits.{nodes_among};
ghost use Rattle.sd_made.specs.nodes.FewNodes.{nodes_rule, nodes_counted};

/// In the graph of a well-formed program, bound to sizes, each state has at most 1,024 nodes, and 65,536
/// with those of the states before it, in nested graphs too.
pub fn states_of_the_bound_graph_of_a_program_have_few_nodes()
    ensures { (program : ProgramTree) (sizes : NamedSizes) (bound : GraphTree) → IsWellFormed program
        → binding (graph_of program) sizes ≡ Ok bound → Holds nodes_rule bound }
{}

/// It has as many nodes in all as its source is counted to have, those of nested graphs at each call.
pub fn the_bound_graph_of_a_program_has_the_nodes_that_are_counted()
    ensures { (program : ProgramTree) (sizes : NamedSizes) (bound : GraphTree) → IsWellFormed program
        → binding (graph_of program) sizes ≡ Ok bound → nodes_among (all_places bound) ≡ nodes_counted program }
{}
