//! What sizes keep of the graph of a program: the law is a function that does nothing.
ghost use Rattle.std.specs.Prelude.{◌≡◌, Ok};
ghost use Rattle.sd_lex.specs.PlainTree.{ProgramTree};
ghost use Rattle.sd_graph.specs.PlainTree.{GraphTree};
ghost use Rattle.sd_elab.specs.elab.Elaboration.{graph_of};
ghost use Rattle.sd_valid.specs.SizeValues.{NamedSizes};
ghost use Rattle.sd_valid.specs.Binding.{binding};
ghost use Rattle.sd_validity.specs.rules.Failing.{Holds};
ghost use Rattle.sd_validity.specs.rules.NestedLinks.{rule_5};
ghost use Rattle.sd_validity.specs.rules.MovedShapes.{rule_6};

/// Where the graph of a program keeps the rule on nested graphs, it keeps it bound to sizes; and so it
/// is of the rule on copies and reductions.
pub fn the_bound_graph_of_a_program_keeps_the_shapes_of_the_graph()
    ensures nesting { (program : ProgramTree) (sizes : NamedSizes) (bound : GraphTree) → Holds rule_5 (graph_of program)
        → binding (graph_of program) sizes ≡ Ok bound → Holds rule_5 bound }
    ensures shapes { (program : ProgramTree) (sizes : NamedSizes) (bound : GraphTree) → Holds rule_6 (graph_of program)
        → binding (graph_of program) sizes ≡ Ok bound → Holds rule_6 bound }
{}
