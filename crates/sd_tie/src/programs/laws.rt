ghost use Rattle.std.specs.Prelude.{◌≡◌, ℕ, ◌+◌, ℤ, List, [], ◌∷◌, Some};
ghost use Rattle.sd_lex.specs.PlainTree.{FunctionTree};
ghost use Rattle.sd_work.specs.Memory.{Memory};
ghost use Rattle.sd_work.specs.Step.{Outcome};
ghost use Rattle.sd_work.specs.Run.{Left};
ghost use Rattle.sd_work.specs.BigRun.{left_by, big_run};
ghost use Rattle.sd_graph.specs.declared.place.Place.{Place};
ghost use Rattle.sd_valid.specs.SizedWork.{sized_run};
ghost use Rattle.sd_program.specs.Names.{Named};
ghost use Rattle.sd_says.specs.Says.{says_last};
ghost use Rattle.sd_tie.specs.programs.Programs.{values_of, AreFitting, source_graph};
ghost use Rattle.sd_tie.specs.items.Extents.{HasExtentsThroughout};

/// What the latest of several programs says over its memory, with these sizes, is what its graph comes
/// to, from some number of transitions and takes on. Each program fulfils what a well-formed one does, and
/// no container of the graph, or of a graph nested in it, has a negative extent.
pub fn a_program_does_what_it_says()
    ensures { (named : Named ℤ) (functions : List FunctionTree) → AreFitting functions → HasExtentsThroughout (values_of named) (source_graph named functions)
        → (most : ℕ) (memory : Memory) (turns : ℕ) (outcome : Outcome Place Left) → left_by (says_last named functions most (memory ∷ []) turns) ≡ Some outcome
        → (least : ℕ) × ((more : ℕ) → big_run (sized_run (values_of named) (source_graph named functions) memory) (least + more) turns ≡ Some outcome) }
{}
