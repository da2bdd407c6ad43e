ghost use Rattle.std.specs.Prelude.{◌≡◌, ◌<◌, ◌≤◌, ℕ, List, Ok, Err};
ghost use Rattle.sd_lex.specs.declared.error.LexError.{LexError};
ghost use Rattle.sd_lex.specs.declared.token.Token.{Token};
ghost use Rattle.sd_lex.specs.Layout.{lexed};
ghost use Rattle.sd_lex.specs.PlainTree.{ProgramTree};
ghost use Rattle.sd_lex.specs.Position.{line_count};
ghost use Rattle.sd_context.specs.declared.blocks.refusal.Refusal.{Refusal};
ghost use Rattle.sd_read.specs.decided.FirstRefused.{Decides, IsAllAccepted};
ghost use Rattle.sd_source.specs.source.SourceReading.{refusal_of_text, reads};
ghost use Rattle.sd_line.specs.lines.TokenLines.{lines_of_tokens};

/// Where the tokens of a source are without an error, the first line that is refused decides, with
/// the least number that stands against it.
pub fn the_first_refused_line_decides()
    ensures { (text : List ℕ) (tokens : List Token) (refusal : Refusal) → lexed text ≡ Ok tokens → reads text ≡ Err refusal →
        Decides (line_count text) (lines_of_tokens text tokens) refusal }
{}

/// No line of a source that is a program is refused, and it passes no limit on nodes.
pub fn no_line_of_a_program_is_refused()
    ensures { (text : List ℕ) (program : ProgramTree) → reads text ≡ Ok program →
        (tokens : List Token) × (lexed text ≡ Ok tokens) × IsAllAccepted (line_count text) (lines_of_tokens text tokens) program }
{}

/// An error of the tokens goes before all others, wherever it stands, and numbers below 4 are of no
/// other.
pub fn errors_of_tokens_go_first()
    ensures first { (text : List ℕ) (error : LexError) → lexed text ≡ Err error → reads text ≡ Err (refusal_of_text error) }
    ensures only { (text : List ℕ) (refusal : Refusal) → reads text ≡ Err refusal → refusal.number < 4 →
        (error : LexError) × (lexed text ≡ Err error) × (refusal ≡ refusal_of_text error) }
{}
