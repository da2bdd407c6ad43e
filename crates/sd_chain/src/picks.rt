ghost use Rattle.std.specs.Prelude.{◌≡◌, ◌<◌, [], Ok, length, IfOk, IfErr};
ghost use Rattle.std.specs.Option.{MatchOption};
ghost use Rattle.std.specs.List.{position, position_or_len};
ghost use Rattle.sd_chain.specs.Picks.{is_blank as is_blank_byte, is_in_word, words, IsFirstWord, pick_of as pick_written, picks_reading, IsRefusal};

use crate::error::PicksError;
use fast_float::parse_u64;
use std::alloc::Global;

/// Whether a byte stands between words.
fn is_blank(byte: u8) -> bool
    ensures { result ≡ is_blank_byte byte }
{
    byte == b' ' || byte == b'\n'
}

/// Where the first byte stands that is in a word.
fn word_begin(text: &[u8]) -> Option<usize>
    ensures { result ≡ position is_in_word text.now }
{
    text.iter().position(|byte| !is_blank(*byte))
}

/// Where the first byte stands that is in no word.
fn word_end(text: &[u8]) -> Option<usize>
    ensures { result ≡ position is_blank_byte text.now }
{
    text.iter().position(|byte| is_blank(*byte))
}

/// How many bytes stand before the first one that is in no word.
fn word_length(text: &[u8]) -> usize
    ensures { result ≡ position_or_len is_blank_byte text.now }
{
    match word_end(text) {
        Some(end) => end,
        None => text.len(),
    }
}

/// The first word of a text, and what stands behind it.
pub(crate) fn first_word(text: &[u8]) -> Option<(&[u8], &[u8])>
    ensures { MatchOption result (words text.now ≡ []) (λ parts. IsFirstWord text.now parts.0.now parts.1.now) }
{
    match word_begin(text) {
        Some(begin) => {
            let from = &text[begin..];
            Some(from.split_at(word_length(from)))
        }
        None => None,
    }
}

/// The pick that a word writes.
pub(crate) fn pick_of(word: &[u8]) -> Option<u64>
    requires { 0 < length word.now }
    ensures { result ≡ pick_written word.now }
{
    if word[0] == b'+' {
        return None;
    }
    match parse_u64(word) {
        Ok(pick) => Some(pick),
        Err(_) => None,
    }
}

/// The numbers of a picks file: decimal digits below 2^64, parted by spaces and newlines. Takes time linear in the text.
#[tactic(auto, using(crate::proofs::Reading::steps))]
pub fn read_picks(alloc: Global, text: &[u8]) -> Result<Vec<u64>, PicksError>
    ensures ok { IfOk result (λ picks. picks_reading text.now ≡ Ok picks.items) }
    ensures err { IfErr result (λ error. IsRefusal (picks_reading text.now) error) }
{
    let mut picks = Vec::new(alloc);
    let mut rest = text;
    while let Some((word, behind)) = first_word(rest) {
        match pick_of(word) {
            Some(pick) => picks.push(pick)?,
            None => return Err(PicksError::NoForm(picks.len() as u64 + 1)),
        }
        rest = behind;
    }
    Ok(picks)
}
