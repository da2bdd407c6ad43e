//! What is told of a run by picks: each law is a function that does nothing.
ghost use Rattle.std.specs.Prelude.{◌≡◌, ℕ, List};
ghost use Rattle.sd_work.specs.Memory.{Memory};
ghost use Rattle.sd_work.specs.Step.{Outcome};
ghost use Rattle.sd_work.specs.Run.{Left, Sequential};
ghost use Rattle.sd_confluence.specs.Alike.{AreAlike};
ghost use Rattle.sd_graph.specs.PlainTree.{GraphTree};
ghost use Rattle.sd_graph.specs.Unfold.{run_of};
ghost use Rattle.sd_graph.specs.declared.place.Place.{Place};
ghost use Rattle.sd_race.specs.race.Pairs.{IsGraphAccepted};
ghost use Rattle.sd_safe.specs.normal.NormalForm.{IsGraphNormal};
ghost use Rattle.sd_validity.specs.rules.Valid.{IsValid};
ghost use Rattle.sd_json.specs.AnswerText.{text_of_arrays};
ghost use Rattle.sd_report.specs.same_end.Told.{IsTold, EndAlike};

/// Of a valid, accepted graph what is told of a run by picks is the end of the sequential run, but
/// for the order of values in streams; and something is told, whatever the picks are.
pub fn a_run_by_picks_is_told_as_the_sequential_run()
    ensures told { (tree : GraphTree) (memory : Memory) (turns : ℕ) (picks : List ℕ) (told : Outcome Place Left)
        → IsValid tree → IsGraphNormal tree → IsGraphAccepted tree
        → IsTold (run_of tree memory) turns picks told
        → (end : Outcome Place Left) × Sequential (run_of tree memory) turns end × EndAlike told end }
    ensures some { (tree : GraphTree) (memory : Memory) (turns : ℕ) (picks : List ℕ) → IsValid tree
        → (told : Outcome Place Left) × IsTold (run_of tree memory) turns picks told }
{}

/// Memories that differ in the order of values in streams alone have the same text, whatever the
/// extents of their arrays are.
pub fn memories_that_are_alike_have_one_text()
    ensures { (tree : GraphTree) (shapes : List (List ℕ)) (memory other : Memory) → AreAlike memory other
        → text_of_arrays tree (record { shapes = shapes; contents = memory })
        ≡ text_of_arrays tree (record { shapes = shapes; contents = other }) }
{}
