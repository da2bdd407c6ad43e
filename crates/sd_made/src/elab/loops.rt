ghost use Rattle.sd_lex.specs.PlainTree.{ProgramTree};
ghost use Rattle.sd_program.specs.WellFormed.{IsWellFormed};
ghost use Rattle.sd_elab.specs.elab.Elaboration.{graph_of};
ghost use Rattle.sd_made.specs.elab.LoopShape.{SetsLoopVariablesOnly};

/// In the graph of a program that is well formed, and in each graph nested in it, a transition sets a
/// variable only where it enters the variable's loop or, marked, goes back to its begin: there the
/// variable is below an affine end, or the loop is left.
pub fn the_graph_of_a_program_sets_loop_variables_only()
    ensures { (program : ProgramTree) → IsWellFormed program → SetsLoopVariablesOnly (graph_of program) }
{}
