//! What the bound graph of a program keeps of the rule on dimensions: each law is a function that does
//! nothing.
ghost use Rattle.std.specs.Prelude.{◌≡◌, ℕ, List, Ok, true};
ghost use Rattle.std.specs.List.{AllByRecursion};
ghost use Rattle.sd_lex.specs.PlainTree.{ProgramTree};
ghost use Rattle.sd_program.specs.WellFormed.{IsWellFormed};
ghost use Rattle.sd_source.specs.source.SourceReading.{reads};
ghost use Rattle.sd_graph.specs.PlainTree.{GraphTree};
ghost use Rattle.sd_graph.specs.TreeParts.{containers_of};
ghost use Rattle.sd_elab.specs.elab.Elaboration.{graph_of};
ghost use Rattle.sd_valid.specs.SizeValues.{NamedSizes};
ghost use Rattle.sd_valid.specs.Binding.{binding};
ghost use Rattle.sd_validity.specs.rules.Places.{all_places};
ghost use Rattle.sd_validity.specs.rules.Parts.{is_thing_passed};
ghost use Rattle.sd_validity.specs.rules.Dimensions.{is_code_linked};
ghost use Rattle.sd_made_valid.specs.dimensions.Subsets.{subset_tests};

/// In the graph of a well-formed program, bound to sizes, code has a link for each connector, with a
/// dimension for each range of its subset; a condition reads single elements, and gives its one output
/// a value.
pub fn code_of_the_bound_graph_of_a_program_is_linked()
    ensures { (program : ProgramTree) (sizes : NamedSizes) (bound : GraphTree) → IsWellFormed program
        → binding (graph_of program) sizes ≡ Ok bound → AllByRecursion (λ place. is_code_linked place.thing ≡ true) (all_places bound) }
{}

/// In the graph of a program that was read, bound to sizes, each subset has a dimension for each of its
/// container, and each range of it has one end.
pub fn subsets_of_the_bound_graph_of_a_text_fit()
    ensures { (text : List ℕ) (program : ProgramTree) (sizes : NamedSizes) (bound : GraphTree) → reads text ≡ Ok program
        → binding (graph_of program) sizes ≡ Ok bound
        → AllByRecursion (λ place. is_thing_passed (subset_tests (containers_of place.graph)) place.thing ≡ true) (all_places bound) }
{}
