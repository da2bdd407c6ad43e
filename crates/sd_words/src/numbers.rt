ghost use Rattle.std.specs.Prelude.{ℕ};
ghost use Rattle.sd_words.specs.Finding.{Finds};
ghost use Rattle.sd_words.specs.Command.{IsNumber};

/// The number that a word is, where it is digits alone and within the limits.
pub fn number(word: &str, least: u64, most: u64) -> Option<u64>
    ensures { Finds (λ (number : ℕ). number) (IsNumber least most word.now) result }
{
    if word.as_bytes().first() == Some(&b'+') {
        return None;
    }
    match word.parse::<u64>() {
        Ok(number) if least <= number && number <= most => Some(number),
        _ => None,
    }
}
