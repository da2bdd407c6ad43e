//! What calls of a program that was read write: each law is a function that does nothing.
ghost use Rattle.std.specs.Prelude.{◌≡◌, ℕ, List, Ok};
ghost use Rattle.sd_lex.specs.PlainTree.{ProgramTree};
ghost use Rattle.sd_program.specs.Place.{EveryPlace};
ghost use Rattle.sd_source.specs.source.SourceReading.{reads};
ghost use Rattle.sd_graph.specs.PlainTree.{GraphTree};
ghost use Rattle.sd_elab.specs.elab.Elaboration.{graph_of};
ghost use Rattle.sd_valid.specs.SizeValues.{NamedSizes};
ghost use Rattle.sd_valid.specs.Binding.{binding};
ghost use Rattle.sd_validity.specs.rules.Failing.{Holds};
ghost use Rattle.sd_validity.specs.rules.NestedLinks.{rule_5};
ghost use Rattle.sd_made.specs.writes.Apart.{CallsApart, IsGraphApart};
ghost use Rattle.sd_made_valid.specs.nesting.Shaped.{IsShaped};

/// A call in a program that was read writes none of its arguments that is another one too.
pub fn calls_of_a_program_that_was_read_are_apart()
    ensures { (text : List ℕ) (program : ProgramTree) → reads text ≡ Ok program → EveryPlace CallsApart program }
{}

/// In the graph of a program that was read, bound to sizes, of two links of one container a nested
/// graph writes neither.
pub fn the_bound_graph_of_a_text_writes_no_container_that_it_links_twice()
    ensures { (text : List ℕ) (program : ProgramTree) (sizes : NamedSizes) (bound : GraphTree) → reads text ≡ Ok program
        → binding (graph_of program) sizes ≡ Ok bound → IsGraphApart bound }
{}

/// The graph of a program that was read, bound to sizes, keeps the rule on nested graphs where each
/// link of the graph has the shape of its parameter.
pub fn the_bound_graph_of_a_text_has_right_links()
    ensures { (text : List ℕ) (program : ProgramTree) (sizes : NamedSizes) (bound : GraphTree) → reads text ≡ Ok program
        → IsShaped (graph_of program) → binding (graph_of program) sizes ≡ Ok bound → Holds rule_5 bound }
{}
