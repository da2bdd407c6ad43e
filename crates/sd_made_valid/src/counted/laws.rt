//! Dimensions in the graph of a program that was read: the law is a function that does nothing.
ghost use Rattle.std.specs.Prelude.{◌≡◌, ℕ, List, Ok};
ghost use Rattle.sd_lex.specs.PlainTree.{ProgramTree};
ghost use Rattle.sd_source.specs.source.SourceReading.{reads};
ghost use Rattle.sd_graph.specs.PlainTree.{GraphTree};
ghost use Rattle.sd_elab.specs.elab.Elaboration.{graph_of};
ghost use Rattle.sd_valid.specs.SizeValues.{NamedSizes};
ghost use Rattle.sd_valid.specs.Binding.{binding};
ghost use Rattle.sd_validity.specs.rules.Failing.{Holds};
ghost use Rattle.sd_validity.specs.rules.Dimensions.{rule_2};

/// The graph of a program that was read, bound to sizes, keeps the rule on dimensions: subsets have those of
/// their containers and connectors those of their subsets, and code names what it has.
pub fn the_bound_graph_of_a_program_that_was_read_keeps_the_rule_on_dimensions()
    ensures { (text : List ℕ) (program : ProgramTree) (sizes : NamedSizes) (bound : GraphTree) → reads text ≡ Ok program
        → binding (graph_of program) sizes ≡ Ok bound → Holds rule_2 bound }
{}
