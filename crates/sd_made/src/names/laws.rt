//! What the graph of a program names: the law is a function that does nothing.
ghost use Rattle.std.specs.Prelude.{◌≡◌, Ok, true};
ghost use Rattle.std.specs.List.{AllByRecursion};
ghost use Rattle.sd_lex.specs.PlainTree.{ProgramTree};
ghost use Rattle.sd_program.specs.WellFormed.{IsWellFormed};
ghost use Rattle.sd_graph.specs.PlainTree.{GraphTree};
ghost use Rattle.sd_elab.specs.elab.Elaboration.{graph_of};
ghost use Rattle.sd_valid.specs.SizeValues.{NamedSizes};
ghost use Rattle.sd_valid.specs.Binding.{binding};
ghost use Rattle.sd_validity.specs.rules.Places.{all_places};
ghost use Rattle.sd_validity.specs.rules.NamesInForce.{are_names_in_force};

/// In the graph of a well-formed program, bound to sizes, each container and each variable that is
/// named at a place is in force there, and each variable that is given a value is there.
pub fn the_bound_graph_of_a_program_names_what_is_in_force()
    ensures { (program : ProgramTree) (sizes : NamedSizes) (bound : GraphTree) → IsWellFormed program
        → binding (graph_of program) sizes ≡ Ok bound → AllByRecursion (λ place. are_names_in_force place ≡ true) (all_places bound) }
{}
