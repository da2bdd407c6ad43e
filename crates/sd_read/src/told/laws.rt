ghost use Rattle.std.specs.Prelude.{◌≡◌, ℕ, List, Err};
ghost use Rattle.sd_context.specs.declared.blocks.refusal.Refusal.{Refusal};
ghost use Rattle.sd_source.specs.source.SourceReading.{reads};
ghost use Rattle.sd_read.specs.told.Told.{IsErrorNumber, IsLineOf};

/// Each error of a source has one of ten numbers, and it stands on a line of the text or, where something
/// is missing at its end, on the line behind the last one.
pub fn an_error_has_a_number_and_a_line()
    ensures number { (text : List ℕ) (refusal : Refusal) → reads text ≡ Err refusal → IsErrorNumber refusal.number }
    ensures line { (text : List ℕ) (refusal : Refusal) → reads text ≡ Err refusal → IsLineOf text refusal.line }
{}
