ghost use Rattle.std.specs.Prelude.{◌≡◌, ℕ, ◌+◌, List, Some, Ok};
ghost use Rattle.sd_lex.specs.PlainTree.{ProgramTree};
ghost use Rattle.sd_work.specs.Memory.{Memory};
ghost use Rattle.sd_work.specs.Step.{Outcome};
ghost use Rattle.sd_work.specs.Run.{Left, Sequential};
ghost use Rattle.sd_work.specs.BigRun.{big_run};
ghost use Rattle.sd_graph.specs.PlainTree.{GraphTree};
ghost use Rattle.sd_graph.specs.Unfold.{run_of};
ghost use Rattle.sd_graph.specs.declared.place.Place.{Place};
ghost use Rattle.sd_valid.specs.SizeValues.{NamedSizes};
ghost use Rattle.sd_valid.specs.Binding.{binding};
ghost use Rattle.sd_program.specs.WellFormed.{IsWellFormed};
ghost use Rattle.sd_source.specs.source.SourceReading.{reads};
ghost use Rattle.sd_elab.specs.elab.Elaboration.{graph_of};
ghost use Rattle.sd_says.specs.Says.{Says};
ghost use Rattle.sd_tie.specs.programs.Joined.{IsJoinedWhole};

/// The graph of a program, bound to sizes, does what its source says, over each memory and with each
/// number of turns: the sequential run of the graph ends as is said, with the same memory and turns, the
/// same fault at the same place, or a want of turns; and what it ends with is said. So it is of each
/// program that is well formed, whose tasklets name connectors that are there and whose elements have
/// names without `$`, with sizes whose binding is not refused.
pub fn a_graph_does_what_its_source_says()
    ensures said { (program : ProgramTree) (sizes : NamedSizes) (bound : GraphTree) (memory : Memory) (turns : ℕ) (outcome : Outcome Place Left)
        → IsWellFormed program → IsJoinedWhole program → binding (graph_of program) sizes ≡ Ok bound
        → Says program sizes memory turns outcome → Sequential (run_of bound memory) turns outcome }
    ensures run { (program : ProgramTree) (sizes : NamedSizes) (bound : GraphTree) (memory : Memory) (turns : ℕ) (outcome : Outcome Place Left)
        → IsWellFormed program → IsJoinedWhole program → binding (graph_of program) sizes ≡ Ok bound
        → Sequential (run_of bound memory) turns outcome → Says program sizes memory turns outcome }
    ensures left_to_right { (program : ProgramTree) (sizes : NamedSizes) (bound : GraphTree) (memory : Memory) (turns : ℕ) (outcome : Outcome Place Left)
        → IsWellFormed program → IsJoinedWhole program → binding (graph_of program) sizes ≡ Ok bound
        → Says program sizes memory turns outcome → (least : ℕ) × ((more : ℕ) → big_run (run_of bound memory) (least + more) turns ≡ Some outcome) }
{}

/// The graph of a text that is read to a program, bound to sizes, does what the program says, over each
/// memory and with each number of turns: what is said is run, and what is run is said.
pub fn a_graph_does_what_its_text_says()
    ensures said { (text : List ℕ) (program : ProgramTree) (sizes : NamedSizes) (bound : GraphTree) (memory : Memory) (turns : ℕ) (outcome : Outcome Place Left)
        → reads text ≡ Ok program → binding (graph_of program) sizes ≡ Ok bound
        → Says program sizes memory turns outcome → Sequential (run_of bound memory) turns outcome }
    ensures run { (text : List ℕ) (program : ProgramTree) (sizes : NamedSizes) (bound : GraphTree) (memory : Memory) (turns : ℕ) (outcome : Outcome Place Left)
        → reads text ≡ Ok program → binding (graph_of program) sizes ≡ Ok bound
        → Sequential (run_of bound memory) turns outcome → Says program sizes memory turns outcome }
{}
