//! How large the ends of loops of a bound graph are: the law is a function that does nothing.
ghost use Rattle.std.specs.Prelude.{◌≡◌, Ok, true};
ghost use Rattle.std.specs.List.{AllByRecursion};
ghost use Rattle.sd_lex.specs.PlainTree.{ProgramTree};
ghost use Rattle.sd_program.specs.WellFormed.{IsWellFormed};
ghost use Rattle.sd_graph.specs.PlainTree.{GraphTree};
ghost use Rattle.sd_elab.specs.elab.Elaboration.{graph_of};
ghost use Rattle.sd_valid.specs.SizeValues.{NamedSizes};
ghost use Rattle.sd_valid.specs.Binding.{binding};
ghost use Rattle.sd_validity.specs.rules.Places.{all_places};
ghost use Rattle.sd_made_valid.specs.ends.Ends.{are_ends_small};

/// In the graph of a well-formed program, bound to sizes, a condition that compares the variable of a
/// loop where the loop begins compares it with an affine value that is small, as each part of it is.
pub fn ends_of_loops_of_the_bound_graph_of_a_program_are_small()
    ensures { (program : ProgramTree) (sizes : NamedSizes) (bound : GraphTree) → IsWellFormed program
        → binding (graph_of program) sizes ≡ Ok bound → AllByRecursion (λ place. are_ends_small place place.thing ≡ true) (all_places bound) }
{}
