//! What nested graphs in the graph of a program write: the law is a function that does nothing.
ghost use Rattle.std.specs.Prelude.{◌≡◌, Ok};
ghost use Rattle.sd_lex.specs.PlainTree.{ProgramTree};
ghost use Rattle.sd_program.specs.Place.{EveryPlace};
ghost use Rattle.sd_program.specs.WellFormed.{IsWellFormed};
ghost use Rattle.sd_graph.specs.PlainTree.{GraphTree};
ghost use Rattle.sd_elab.specs.elab.Elaboration.{graph_of};
ghost use Rattle.sd_valid.specs.SizeValues.{NamedSizes};
ghost use Rattle.sd_valid.specs.Binding.{binding};
ghost use Rattle.sd_made.specs.writes.Apart.{CallsApart, IsGraphApart};

/// In the graph of a well-formed program no call of which writes an argument that is another one too,
/// bound to sizes, of two links of one container a nested graph writes neither.
pub fn the_bound_graph_of_a_program_writes_no_container_that_it_links_twice()
    ensures { (program : ProgramTree) (sizes : NamedSizes) (bound : GraphTree) → IsWellFormed program → EveryPlace CallsApart program
        → binding (graph_of program) sizes ≡ Ok bound → IsGraphApart bound }
{}
