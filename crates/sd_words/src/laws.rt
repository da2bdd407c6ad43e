ghost use Rattle.std.specs.Prelude.{◌≡◌, ◌≤◌, ◌^◌, ◌++◌, ℕ, List, [], ◌∷◌, Some, None, codes};
ghost use Rattle.sd_words.specs.Arguments.{Kind, Parse, given, word_of};
ghost use Rattle.sd_words.specs.Command.{AreWithin, Call, IsCall, Run, RunsWith, to_run};

/// No words are two calls.
pub fn words_are_one_call()
    ensures { (words : List (List ℕ)) (one other : Call) → IsCall words one → IsCall words other → one ≡ other }
{}

/// A run of a call may spend from one turn to 2^40, and has from one worker to 64.
pub fn numbers_keep_their_limits()
    ensures turns { (words : List (List ℕ)) (call : Call) (turns : ℕ) → IsCall words call → RunsWith call.command turns → (1 ≤ turns) × (turns ≤ 2 ^ 40) }
    ensures workers { (words : List (List ℕ)) (call : Call) (run : Run) → IsCall words call → call.command ≡ to_run run → (1 ≤ run.workers) × (run.workers ≤ 64) }
{}

/// Words that clap takes for the arguments of the command before them are a call, where their numbers are within the
/// limits.
pub fn words_that_parse_are_a_call()
    ensures { (kind : Kind) (words others : List (List ℕ)) → words ≡ word_of kind ∷ others → Parse kind words → AreWithin kind (given kind words)
        → (call : Call) × IsCall words call }
{}

/// `run` and two files that begin with another byte than a dash are a call, by one worker and with ten million turns;
/// a word `--chain=` with a name behind the sign, after them, names the chain.
pub fn files_alone_are_a_run()
    ensures alone { (a b : ℕ) (source arrays : List ℕ) → (a ≡ 45 → ⊥) → (b ≡ 45 → ⊥)
        → IsCall (codes "run" ∷ (a ∷ source) ∷ (b ∷ arrays) ∷ [])
        (record { source = a ∷ source; arrays = b ∷ arrays; chain = None; command = to_run (record { turns = 10000000; workers = 1 }) }) }
    ensures with_chain { (a b : ℕ) (source arrays chain : List ℕ) → (a ≡ 45 → ⊥) → (b ≡ 45 → ⊥)
        → IsCall (codes "run" ∷ (a ∷ source) ∷ (b ∷ arrays) ∷ (codes "--chain=" ++ chain) ∷ [])
        (record { source = a ∷ source; arrays = b ∷ arrays; chain = Some chain; command = to_run (record { turns = 10000000; workers = 1 }) }) }
{}
