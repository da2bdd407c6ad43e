//! What is linked in the graph of a program: the law is a function that does nothing.
ghost use Rattle.std.specs.Prelude.{◌≡◌, Ok};
ghost use Rattle.sd_lex.specs.PlainTree.{ProgramTree};
ghost use Rattle.sd_program.specs.Place.{EveryPlace};
ghost use Rattle.sd_program.specs.WellFormed.{IsWellFormed};
ghost use Rattle.sd_graph.specs.PlainTree.{GraphTree};
ghost use Rattle.sd_elab.specs.elab.Elaboration.{graph_of};
ghost use Rattle.sd_valid.specs.SizeValues.{NamedSizes};
ghost use Rattle.sd_valid.specs.Binding.{binding};
ghost use Rattle.sd_validity.specs.rules.Failing.{Holds};
ghost use Rattle.sd_validity.specs.rules.NestedLinks.{rule_5};
ghost use Rattle.sd_made.specs.writes.Apart.{CallsApart};
ghost use Rattle.sd_made_valid.specs.nesting.Shaped.{IsShaped};

/// The graph of a well-formed program, bound to sizes, keeps the rule on nested graphs where no call
/// writes an argument that is another one too, and each link of the graph has the shape of its parameter.
pub fn the_bound_graph_of_a_program_has_right_links()
    ensures { (program : ProgramTree) (sizes : NamedSizes) (bound : GraphTree) → IsWellFormed program
        → EveryPlace CallsApart program → IsShaped (graph_of program) → binding (graph_of program) sizes ≡ Ok bound → Holds rule_5 bound }
{}
