ghost use Rattle.std.specs.Prelude.{◌≡◌, ℕ, ◌+◌, ◌≤◌, List, [], length};
ghost use Rattle.sd_lex.specs.PlainTree.{FunctionTree};
ghost use Rattle.sd_graph.specs.PlainTree.{GraphTree};
ghost use Rattle.sd_graph.specs.TreeFold.{states_listed};
ghost use Rattle.sd_graph.specs.LoopScope.{loops_in_force};
ghost use Rattle.sd_program.specs.Names.{Name};
ghost use Rattle.sd_elab.specs.items.Counts.{variables_in_all};
ghost use Rattle.sd_elab.specs.elab.Elaboration.{start_of, states_of_function};
ghost use Rattle.sd_made.specs.loops_shown.Shown.{ShowsAll};

/// In each state that the statements of a program make exactly the variables of the `for` loops round
/// them are in force, the outermost first; in state 0, which is before them, none is. They are found
/// in a graph by its transitions alone.
pub fn the_variables_of_loops_show_in_their_blocks()
    ensures shown { (symbols : List Name) (graphs : Name → GraphTree) (function : FunctionTree) (variables : ℕ)
        → length symbols + variables_in_all function.body ≤ variables
        → ShowsAll (loops_in_force (states_listed (states_of_function symbols graphs function)) variables) function.body 1 (start_of symbols function).variable [] }
    ensures before { (symbols : List Name) (graphs : Name → GraphTree) (function : FunctionTree) (variables : ℕ)
        → loops_in_force (states_listed (states_of_function symbols graphs function)) variables 0 ≡ [] }
{}
