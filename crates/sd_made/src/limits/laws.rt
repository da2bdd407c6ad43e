//! What the bound graph of a program keeps of the rule on limits: each law is a function that does
//! nothing.
ghost use Rattle.std.specs.Prelude.{◌≡◌, Ok, true};
ghost use Rattle.std.specs.List.{AllByRecursion};
ghost use Rattle.sd_lex.specs.PlainTree.{ProgramTree};
ghost use Rattle.sd_program.specs.WellFormed.{IsWellFormed};
ghost use Rattle.sd_graph.specs.PlainTree.{GraphTree};
ghost use Rattle.sd_graph.specs.TreeParts.{containers_of};
ghost use Rattle.sd_elab.specs.elab.Elaboration.{graph_of};
ghost use Rattle.sd_valid.specs.SizeValues.{NamedSizes};
ghost use Rattle.sd_valid.specs.Binding.{binding};
ghost use Rattle.sd_validity.specs.rules.Places.{all_places};
ghost use Rattle.sd_validity.specs.rules.Parts.{is_thing_passed};
ghost use Rattle.sd_made.specs.limits.Expressions.{expression_tests};
ghost use Rattle.sd_made.specs.limits.Containers.{are_containers_few};

/// In the graph of a well-formed program, bound to sizes, each expression is small: its constant is
/// below 2^41 and its coefficients are at most 2^10 together. A range has 1 to 4 ends, and a step of
/// at least 1 and below 2^40.
pub fn expressions_of_the_bound_graph_of_a_program_are_small()
    ensures { (program : ProgramTree) (sizes : NamedSizes) (bound : GraphTree) → IsWellFormed program
        → binding (graph_of program) sizes ≡ Ok bound → AllByRecursion (λ place. is_thing_passed expression_tests place.thing ≡ true) (all_places bound) }
{}

/// In the graph of a well-formed program, bound to sizes, each graph has at most 256 containers. An array
/// has 1 to 4 dimensions and a stream none, and each extent is small.
pub fn containers_of_the_bound_graph_of_a_program_are_few()
    ensures { (program : ProgramTree) (sizes : NamedSizes) (bound : GraphTree) → IsWellFormed program
        → binding (graph_of program) sizes ≡ Ok bound → AllByRecursion (λ place. are_containers_few (containers_of place.graph) ≡ true) (all_places bound) }
{}
