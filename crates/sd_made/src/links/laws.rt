//! What is linked in the graph of a program: the law is a function that does nothing.
ghost use Rattle.std.specs.Prelude.{◌≡◌, Ok};
ghost use Rattle.sd_lex.specs.PlainTree.{ProgramTree};
ghost use Rattle.sd_program.specs.WellFormed.{IsWellFormed};
ghost use Rattle.sd_graph.specs.PlainTree.{GraphTree};
ghost use Rattle.sd_graph.specs.InPlace.{IsLinked};
ghost use Rattle.sd_elab.specs.elab.Elaboration.{graph_of};
ghost use Rattle.sd_valid.specs.SizeValues.{NamedSizes};
ghost use Rattle.sd_valid.specs.Binding.{binding};

/// In the graph of a well-formed program, bound to sizes, the arguments of each graph are its first
/// containers, and a nested graph has a link for each of them.
pub fn the_bound_graph_of_a_program_links_its_arguments()
    ensures { (program : ProgramTree) (sizes : NamedSizes) (bound : GraphTree) → IsWellFormed program
        → binding (graph_of program) sizes ≡ Ok bound → IsLinked bound }
{}
