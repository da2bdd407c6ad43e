//! Ranks of the variables of a bound graph: the law is a function that does nothing.
ghost use Rattle.std.specs.Prelude.{◌≡◌, ℕ, List, Ok, true};
ghost use Rattle.std.specs.List.{AllByRecursion};
ghost use Rattle.sd_lex.specs.PlainTree.{ProgramTree};
ghost use Rattle.sd_source.specs.source.SourceReading.{reads};
ghost use Rattle.sd_graph.specs.PlainTree.{GraphTree};
ghost use Rattle.sd_elab.specs.elab.Elaboration.{graph_of};
ghost use Rattle.sd_valid.specs.SizeValues.{NamedSizes};
ghost use Rattle.sd_valid.specs.Binding.{binding};
ghost use Rattle.sd_validity.specs.rules.Places.{all_places};
ghost use Rattle.sd_made_valid.specs.ranks.Ranks.{are_variables_ranked};

/// In the graph of a program that was read, bound to sizes, each parameter of a map, and each variable
/// that is given its begin where a loop begins, has a rank of at most 7.
pub fn variables_of_the_bound_graph_of_a_text_have_ranks()
    ensures { (text : List ℕ) (program : ProgramTree) (sizes : NamedSizes) (bound : GraphTree) → reads text ≡ Ok program
        → binding (graph_of program) sizes ≡ Ok bound → AllByRecursion (λ place. are_variables_ranked place place.thing ≡ true) (all_places bound) }
{}
