ghost use Rattle.std.specs.Prelude.{◌≡◌, ℕ, ◌+◌, List, [], ◌∷◌};
ghost use Rattle.sd_lex.specs.PlainTree.{Block, FunctionTree};
ghost use Rattle.sd_graph.specs.PlainTree.{GraphTree, StateTrees};
ghost use Rattle.sd_graph.specs.TreeFold.{states_listed};
ghost use Rattle.sd_graph.specs.TreeParts.{exits_at};
ghost use Rattle.sd_program.specs.Names.{Name};
ghost use Rattle.sd_elab.specs.states.Standing.{Standing};
ghost use Rattle.sd_elab.specs.elab.Elaboration.{start_of, states_of_function};
ghost use Rattle.sd_tie.specs.states.Made.{AreMade};
ghost use Rattle.sd_made.specs.loops_shown.Shown.{ShowsAll};

/// The states of a program stand as the statements of its block make them, from state 0 on, where the
/// variables of the loops around them show in them; and there is no way out of the last one.
pub fn the_states_of_a_block_stand_as_they_are_made()
    ensures { (symbols : List Name) (graphs : Name → GraphTree) (function : FunctionTree) (shows : ℕ → List ℕ)
        → ShowsAll shows function.body 1 (start_of symbols function).variable []
        → (last : ℕ) × AreMade graphs (states_listed (states_of_function symbols graphs function)) shows function.body
        (start_of symbols function).table (start_of symbols function).container (start_of symbols function).variable [] 0 last
        × (exits_at (states_listed (states_of_function symbols graphs function)) last ≡ []) }
{}
