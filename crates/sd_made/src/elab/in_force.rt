ghost use Rattle.sd_lex.specs.PlainTree.{ProgramTree};
ghost use Rattle.sd_program.specs.WellFormed.{IsWellFormed};
ghost use Rattle.sd_graph.specs.InForce.{AreContainersInForce};
ghost use Rattle.sd_elab.specs.elab.Elaboration.{graph_of};

/// In the graph of a program that is well formed, and in each graph nested in it, each container that
/// an item or a condition names is in force there.
pub fn the_graph_of_a_program_names_what_is_in_force()
    ensures { (program : ProgramTree) → IsWellFormed program → AreContainersInForce (graph_of program) }
{}
