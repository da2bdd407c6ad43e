//! Shapes in the graph of a program that was read: the law is a function that does nothing.
ghost use Rattle.std.specs.Prelude.{◌≡◌, ℕ, List, Ok};
ghost use Rattle.sd_lex.specs.PlainTree.{ProgramTree};
ghost use Rattle.sd_source.specs.source.SourceReading.{reads};
ghost use Rattle.sd_graph.specs.PlainTree.{GraphTree};
ghost use Rattle.sd_elab.specs.elab.Elaboration.{graph_of};
ghost use Rattle.sd_valid.specs.SizeValues.{NamedSizes};
ghost use Rattle.sd_valid.specs.Binding.{binding};
ghost use Rattle.sd_validity.specs.rules.Failing.{Holds};
ghost use Rattle.sd_validity.specs.rules.NestedLinks.{rule_5};
ghost use Rattle.sd_validity.specs.rules.MovedShapes.{rule_6};
ghost use Rattle.sd_made_valid.specs.nesting.Shaped.{IsShaped};

/// In the graph of a program that was read each link of a nested graph has the shape of its parameter.
/// Bound to sizes the graph keeps the rule on nested graphs, and the one on copies and reductions.
pub fn the_bound_graph_of_a_program_that_was_read_has_right_shapes()
    ensures shaped { (text : List ℕ) (program : ProgramTree) → reads text ≡ Ok program → IsShaped (graph_of program) }
    ensures nesting { (text : List ℕ) (program : ProgramTree) (sizes : NamedSizes) (bound : GraphTree) → reads text ≡ Ok program
        → binding (graph_of program) sizes ≡ Ok bound → Holds rule_5 bound }
    ensures shapes { (text : List ℕ) (program : ProgramTree) (sizes : NamedSizes) (bound : GraphTree) → reads text ≡ Ok program
        → binding (graph_of program) sizes ≡ Ok bound → Holds rule_6 bound }
{}
