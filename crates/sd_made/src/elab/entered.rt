ghost use Rattle.sd_lex.specs.PlainTree.{ProgramTree};
ghost use Rattle.sd_elab.specs.elab.Elaboration.{graph_of};
ghost use Rattle.sd_made.specs.elab.EnteredLoops.{EntersLoopsAtBegins};

/// In the graph of a program, and in each graph nested in it, a marked transition closes a loop that is
/// entered at its begin alone: each path from state 0 to the loop's end comes to the begin, and leaves
/// it for the last time by the first of its two transitions.
pub fn the_graph_of_a_program_enters_loops_at_their_begins()
    ensures { (program : ProgramTree) → EntersLoopsAtBegins (graph_of program) }
{}
