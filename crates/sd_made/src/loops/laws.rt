//! What transitions of the graph of a program are: the law is a function that does nothing.
ghost use Rattle.std.specs.Prelude.{◌≡◌, Ok};
ghost use Rattle.sd_lex.specs.PlainTree.{ProgramTree};
ghost use Rattle.sd_program.specs.WellFormed.{IsWellFormed};
ghost use Rattle.sd_graph.specs.PlainTree.{GraphTree};
ghost use Rattle.sd_elab.specs.elab.Elaboration.{graph_of};
ghost use Rattle.sd_valid.specs.SizeValues.{NamedSizes};
ghost use Rattle.sd_valid.specs.Binding.{binding};
ghost use Rattle.sd_validity.specs.rules.Failing.{Holds};
ghost use Rattle.sd_validity.specs.rules.Transitions.{rule_3};

/// In the graph of a well-formed program, bound to sizes, each transition leads to a state that is
/// there, a higher one or, marked, not a higher one, and sets the variables of `for` loops alone, each
/// of which has one begin.
pub fn the_bound_graph_of_a_program_has_right_transitions()
    ensures { (program : ProgramTree) (sizes : NamedSizes) (bound : GraphTree) → IsWellFormed program
        → binding (graph_of program) sizes ≡ Ok bound → Holds rule_3 bound }
{}
