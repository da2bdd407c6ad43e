//! How large the code of a bound graph is: the law is a function that does nothing.
ghost use Rattle.std.specs.Prelude.{◌≡◌, ℕ, List, Ok, true};
ghost use Rattle.std.specs.List.{AllByRecursion};
ghost use Rattle.sd_lex.specs.PlainTree.{ProgramTree};
ghost use Rattle.sd_source.specs.source.SourceReading.{reads};
ghost use Rattle.sd_graph.specs.PlainTree.{GraphTree};
ghost use Rattle.sd_elab.specs.elab.Elaboration.{graph_of};
ghost use Rattle.sd_valid.specs.SizeValues.{NamedSizes};
ghost use Rattle.sd_valid.specs.Binding.{binding};
ghost use Rattle.sd_validity.specs.rules.Places.{all_places};
ghost use Rattle.sd_validity.specs.rules.Parts.{is_thing_passed};
ghost use Rattle.sd_made_valid.specs.code.Code.{code_tests};

/// In the graph of a program that was read, bound to sizes, the code of a tasklet and of a condition has
/// at most 64 connectors and 1,024 lines, and its expressions have at most 64 levels.
pub fn code_of_the_bound_graph_of_a_text_is_small()
    ensures { (text : List ℕ) (program : ProgramTree) (sizes : NamedSizes) (bound : GraphTree) → reads text ≡ Ok program
        → binding (graph_of program) sizes ≡ Ok bound → AllByRecursion (λ place. is_thing_passed code_tests place.thing ≡ true) (all_places bound) }
{}
