//! How deep the items of a bound graph stand: the law is a function that does nothing.
ghost use Rattle.std.specs.Prelude.{◌≡◌, Ok, true};
ghost use Rattle.std.specs.List.{AllByRecursion};
ghost use Rattle.sd_lex.specs.PlainTree.{ProgramTree};
ghost use Rattle.sd_program.specs.WellFormed.{IsWellFormed};
ghost use Rattle.sd_graph.specs.PlainTree.{GraphTree};
ghost use Rattle.sd_elab.specs.elab.Elaboration.{graph_of};
ghost use Rattle.sd_valid.specs.SizeValues.{NamedSizes};
ghost use Rattle.sd_valid.specs.Binding.{binding};
ghost use Rattle.sd_validity.specs.rules.Places.{all_places};
ghost use Rattle.sd_made.specs.depths.About.{has_few_about};

/// In the graph of a well-formed program, bound to sizes, at most seven scopes and loops are about an
/// item in its own graph.
pub fn items_of_the_bound_graph_of_a_program_have_few_about()
    ensures { (program : ProgramTree) (sizes : NamedSizes) (bound : GraphTree) → IsWellFormed program
        → binding (graph_of program) sizes ≡ Ok bound → AllByRecursion (λ place. has_few_about place place.thing ≡ true) (all_places bound) }
{}
