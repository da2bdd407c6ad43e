ghost use Rattle.std.specs.Prelude.{◌≡◌, ℕ, List};
ghost use Rattle.sd_lex.specs.PlainTree.{ProgramTree};
ghost use Rattle.sd_work.specs.Memory.{Memory};
ghost use Rattle.sd_work.specs.WellFormed.{PaysCycles};
ghost use Rattle.sd_work.specs.Step.{Outcome};
ghost use Rattle.sd_work.specs.Run.{Left, Run};
ghost use Rattle.sd_graph.specs.Upwards.{LeadsUpwards};
ghost use Rattle.sd_graph.specs.Unfold.{run_of};
ghost use Rattle.sd_graph.specs.declared.place.Place.{Place};
ghost use Rattle.sd_elab.specs.elab.Elaboration.{graph_of};

/// In the graph of a program, and in each graph nested in it, a transition without a mark leads to a
/// later state that is there. So each cycle of transitions spends a turn.
pub fn the_graph_of_a_program_leads_upwards()
    ensures upwards { (program : ProgramTree) → LeadsUpwards (graph_of program) }
    ensures cycles { (program : ProgramTree) (memory : Memory) → PaysCycles (run_of (graph_of program) memory) }
{}

/// Each run of the graph of a program ends, by whatever picks, and has exactly one outcome: whatever
/// the memory is and whatever turns are allowed.
pub fn each_run_of_the_graph_of_a_program_has_one_outcome()
    ensures ends { (program : ProgramTree) (memory : Memory) (turns : ℕ) (picks : List ℕ) →
        (outcome : Outcome Place Left) × Run (run_of (graph_of program) memory) turns picks outcome }
    ensures once { (program : ProgramTree) (memory : Memory) (turns : ℕ) (picks : List ℕ) (outcome other : Outcome Place Left) →
        Run (run_of (graph_of program) memory) turns picks outcome → Run (run_of (graph_of program) memory) turns picks other → outcome ≡ other }
{}
