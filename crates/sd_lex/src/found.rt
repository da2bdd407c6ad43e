ghost use Rattle.std.specs.Prelude.{◌≡◌, ◌≤◌, ◌<◌, ◌+◌, ◌^◌, ◌-◌, pos, [], ◌∷◌, length, take, drop, nat_eq, MatchOption};
ghost use Rattle.sd_lex.specs.Bytes as kinds;
ghost use Rattle.sd_lex.specs.Digits as numbers;
ghost use Rattle.sd_lex.specs.Digits.{decimal_value};
ghost use Rattle.sd_lex.specs.FoundAt.{run, number_found, text_found, sign_found, found_at, IsWithin};

use crate::bytes::{is_digit, is_letter, is_name_byte, is_quote};
use crate::sign::{begins_with_sign_of_two, is_sign_of_one};
use crate::token::TokenKind;

/// What begins at a place of a line.
#[derive(Clone, Copy, Debug, PartialEq, Eq)]
pub(crate) enum Found {
    /// No token begins there, a string is not closed, or a name byte follows a number.
    BadByte,
    /// A number above 2^63 - 1 begins there.
    NumberTooWide,
    /// A token of so many bytes.
    Token(TokenKind, usize),
}

/// How many digits stand at the begin.
fn digits(bytes: &[u8]) -> usize
    ensures run { result ≡ run kinds.is_digit bytes.now }
    ensures within { result ≤ length bytes.now }
{
    bytes.iter().take_while(|byte| is_digit(**byte)).count()
}

/// How many bytes of a name stand at the begin.
fn name_bytes(bytes: &[u8]) -> usize
    ensures run { result ≡ run kinds.is_name_byte bytes.now }
    ensures within { result ≤ length bytes.now }
{
    bytes.iter().take_while(|byte| is_name_byte(**byte)).count()
}

/// A number with one more digit, where it fits.
fn with_digit(value: u64, digit: u8) -> Option<u64>
    ensures { MatchOption result (2 ^ 64 ≤ numbers.with_digit value digit) (λ next. next ≡ numbers.with_digit value digit) }
{
    value
        .checked_mul(10)?
        .checked_add(u64::from(digit.saturating_sub(b'0')))
}

/// The number that decimal digits write, where it is below 2^63.
fn number(digits: &[u8]) -> Option<i64>
    ensures { MatchOption result (2 ^ 63 ≤ decimal_value digits.now) (λ v. (v ≡ pos (decimal_value digits.now)) × (decimal_value digits.now < 2 ^ 63)) }
{
    let mut value: u64 = 0;
    for digit in digits {
        value = with_digit(value, *digit)?;
    }
    i64::try_from(value).ok()
}

/// A number of so many digits.
fn number_of(digits: usize, bytes: &[u8]) -> Found
    requires { digits ≤ length bytes.now }
    ensures { result ≡ number_found digits bytes.now }
{
    match bytes[digits..].first() {
        Some(byte) if is_name_byte(*byte) => Found::BadByte,
        _ => match number(&bytes[..digits]) {
            Some(value) => Found::Token(TokenKind::Number(value), digits),
            None => Found::NumberTooWide,
        },
    }
}

/// A quote, a name and the same quote.
fn string_of(quote: u8, name: &[u8]) -> Found
    requires { length name.now < 2 ^ 32 }
    ensures { result ≡ text_found quote name.now }
{
    let length = name_bytes(name);
    match (name.first(), name[length..].first()) {
        (Some(first), Some(last)) if is_letter(*first) && *last == quote => {
            Found::Token(TokenKind::Text, length + 2)
        }
        _ => Found::BadByte,
    }
}

/// The longest sign.
fn sign_of(bytes: &[u8]) -> Found
    ensures { result ≡ sign_found bytes.now }
{
    if begins_with_sign_of_two(bytes) {
        return Found::Token(TokenKind::Sign, 2);
    }
    match bytes.first() {
        Some(byte) if is_sign_of_one(*byte) => Found::Token(TokenKind::Sign, 1),
        _ => Found::BadByte,
    }
}

/// What begins at the begin of these bytes.
#[tactic(auto, using(crate::proofs::FoundLemmas::found_within))]
pub(crate) fn find(bytes: &[u8]) -> Found
    requires { length bytes.now < 2 ^ 32 }
    ensures value { result ≡ found_at bytes.now }
    ensures within { IsWithin (length bytes.now) result }
{
    match bytes.split_first() {
        None => Found::BadByte,
        Some((byte, _)) if is_letter(*byte) => Found::Token(TokenKind::Name, name_bytes(bytes)),
        Some((b'0', _)) => number_of(1, bytes),
        Some((byte, _)) if is_digit(*byte) => number_of(digits(bytes), bytes),
        Some((byte, name)) if is_quote(*byte) => string_of(*byte, name),
        Some(_) => sign_of(bytes),
    }
}
