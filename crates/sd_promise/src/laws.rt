ghost use Rattle.std.specs.Prelude.{◌≡◌, ℕ, List, [], Ok};
ghost use Rattle.sd_work.specs.Move.{Fault};
ghost use Rattle.sd_work.specs.Run.{Left, Sequential};
ghost use Rattle.sd_work.specs.Step.{Outcome, Faulted, Spent};
ghost use Rattle.sd_graph.specs.PlainTree.{GraphTree};
ghost use Rattle.sd_graph.specs.declared.place.Place.{Place};
ghost use Rattle.sd_report.specs.write.RunText.{end_text};
ghost use Rattle.sd_words.specs.Command.{Call, Run, to_run};
ghost use Rattle.sd_tool.specs.Work.{Work, source_graph, prepared, run_of_work};
ghost use Rattle.sd_race.specs.race.Pairs.{IsGraphAccepted};
ghost use Rattle.sd_tool.specs.Files.{ShelfUse};
ghost use Rattle.sd_tool.specs.Ends.{SinkUse};
ghost use Rattle.sd_tool.specs.Headline.{Prints, PrintsTraced};
ghost use Rattle.sd_tool.specs.Statuses.{Statuses};
ghost use Rattle.sd_tool.specs.Accepted.{IsRaceFree};
ghost use Rattle.sd_tool.specs.Told.{Asks, Presents, Chained};
ghost use Rattle.sd_parse.specs.grammar.Small.{small_source};
ghost use Rattle.sd_promise.specs.Promise.{FilesSay, PrintsWhatIsSaid, EndsAsSaid, RunWasSaid, DoneAsSaid};
ghost use Rattle.sd_promise.specs.Small.{small_arrays, small_words, small_call, TellsSmall, small_outcome, small_printed};

/// Where a text has a graph and an arrays file fits it, the files say exactly what the sequential run of
/// their work comes to, and the text of that is the one that is told of the run.
pub fn files_say_what_their_graph_runs()
    ensures run { (text arrays : List ℕ) (tree : GraphTree) (work : Work) (turns : ℕ) (outcome : Outcome Place Left)
        → source_graph text ≡ Ok tree → prepared tree arrays ≡ Ok work
        → Sequential (run_of_work work) turns outcome → FilesSay text arrays turns outcome (end_text work.tree turns outcome) }
    ensures said { (text arrays : List ℕ) (tree : GraphTree) (work : Work) (turns : ℕ) (outcome : Outcome Place Left) (printed : List ℕ)
        → source_graph text ≡ Ok tree → prepared tree arrays ≡ Ok work → FilesSay text arrays turns outcome printed
        → Sequential (run_of_work work) turns outcome × (printed ≡ end_text work.tree turns outcome) }
{}

/// What a run prints is what its source says, for every chain of rewrites and every number of workers. Where two files are told
/// and fit, what is printed is the text of an outcome that the source says with the sizes and arrays of the file (`prints`), behind
/// the lines of the moves where a run by picks tells them (`moves`), and the text of what the source says is printed (`said`). No
/// chain and no number of workers occurs in what is said. Status 0 of a run, 7 and 8 come only where the source says that all is
/// done, or this fault at this place, or that the turns are spent (`done`, `fault`, `spent`). So it is of a run by picks.
pub fn run_prints_what_the_source_says()
    ensures prints { (words : List (List ℕ)) (shelf : ShelfUse) (sink : SinkUse) (status : ℕ) (call : Call) (work : Work) (turns : ℕ) (asks : Asks words shelf call work)
        → Prints work turns sink status → PrintsWhatIsSaid asks.source asks.arrays turns [] sink status }
    ensures moves { (words : List (List ℕ)) (shelf : ShelfUse) (sink : SinkUse) (status : ℕ) (call : Call) (work : Work) (other : GraphTree) (picks : List ℕ) (turns : ℕ) (asks : Asks words shelf call work)
        → (prints : PrintsTraced work other picks turns sink status) → PrintsWhatIsSaid asks.source asks.arrays turns prints.trace sink status }
    ensures said { (words : List (List ℕ)) (shelf : ShelfUse) (sink : SinkUse) (status : ℕ) (call : Call) (run : Run) (work : Work) (other : GraphTree) (outcome : Outcome Place Left) (printed : List ℕ)
        → Statuses words shelf sink status → (asks : Asks words shelf call work) → Chained shelf call.chain work.tree other → call.command ≡ to_run run → IsGraphAccepted other
        → FilesSay asks.source asks.arrays run.turns outcome printed → EndsAsSaid outcome printed sink status }
    ensures done { (words : List (List ℕ)) (shelf : ShelfUse) (sink : SinkUse) (status : ℕ) → Statuses words shelf sink status → status ≡ 0 → DoneAsSaid words shelf sink }
    ensures fault { (words : List (List ℕ)) (shelf : ShelfUse) (sink : SinkUse) (status : ℕ) → Statuses words shelf sink status → status ≡ 7
        → (fault : Fault Place) × RunWasSaid words shelf sink (Faulted fault) }
    ensures spent { (words : List (List ℕ)) (shelf : ShelfUse) (sink : SinkUse) (status : ℕ) → Statuses words shelf sink status → status ≡ 8 → RunWasSaid words shelf sink Spent }
{}

/// A small source with its arrays, from bytes to bytes, which the checker computes: where a shelf tells both files, all
/// that is asked of a run holds (`asked`, and `presented` of the headline), the files say that 1 was added to each
/// element (`said`), and the text of this is printed (`printed`).
pub fn a_small_source_and_its_arrays_say_what_is_printed()
    ensures asked { (shelf : ShelfUse) → TellsSmall shelf → (work : Work) × Asks small_words shelf small_call work }
    ensures presented { (shelf : ShelfUse) → TellsSmall shelf
        → (work : Work) × Presents small_words shelf small_call work × IsRaceFree work.tree }
    ensures said { FilesSay small_source small_arrays 10000000 small_outcome small_printed }
    ensures printed { (shelf : ShelfUse) → TellsSmall shelf → (sink : SinkUse) (status : ℕ)
        → Statuses small_words shelf sink status → EndsAsSaid small_outcome small_printed sink status }
{}
