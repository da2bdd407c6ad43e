ghost use Rattle.std.specs.Prelude.{◌≡◌, ◌==◌, ◌<◌, ◌^◌, length, slice_index, option_map, Some, true, false, IsTrue, IfSome};
ghost use Rattle.std.specs.Char.{digit_value};
ghost use Rattle.fast_float.specs.Text.{scan, digits_of};
ghost use Rattle.serde_json.specs.Read.{number_of, number_from, float_of, is_integer};
ghost use Rattle.serde_json.specs.Find.{as_i64};

use fast_float::{Numeral, parse_u64};

/// What a number is that has to be a float: no whole number, or nothing where it is too large.
#[cold]
fn float(negative: bool, numeral: &Numeral<'_>) -> Option<Option<i64>>
    ensures { result ≡ option_map as_i64 (float_of negative numeral.now) }
{
    if numeral.to_float::<f64>(negative).is_finite() {
        Some(None)
    } else {
        None
    }
}

/// Numbers of other forms than digits that fit 64 bits, without their sign.
#[cold]
fn other_without_sign(bytes: &[u8]) -> Option<Option<i64>>
    ensures { result ≡ option_map as_i64 (number_from false (scan bytes.now)) }
{
    let numeral = Numeral::scan(bytes);
    match numeral.to_u64() {
        Some(number) if number <= i64::MAX as u64 => Some(Some(number as i64)),
        Some(_) => Some(None),
        None => float(false, &numeral),
    }
}

#[cold]
fn other_with_sign(bytes: &[u8]) -> Option<Option<i64>>
    ensures { result ≡ option_map as_i64 (number_from true (scan bytes.now)) }
{
    let numeral = Numeral::scan(bytes);
    match numeral.to_i64(true) {
        Some(number) if number < 0 => Some(Some(number)),
        _ => float(true, &numeral),
    }
}

/// The number that one digit is.
#[inline(always)]
fn digit(byte: u8) -> Option<u64>
    ensures { IfSome result (λ number. (digit_value byte < 10) × (number ≡ digit_value byte)) }
{
    let number = u64::from(byte).wrapping_sub(u64::from(b'0'));
    if number < 10 { Some(number) } else { None }
}

/// The number that a text of at most 18 digits writes.
#[inline(always)]
fn short_digits(bytes: &[u8]) -> Option<u64>
    ensures digits { IfSome result (λ number. (is_integer (scan bytes.now) ≡ true) × (digits_of (scan bytes.now) ≡ number)) }
    ensures small { IfSome result (λ number. number < 2 ^ 63) }
{
    if bytes.is_empty() || bytes.len() > 18 {
        return None;
    }
    let mut number = 0;
    for byte in bytes {
        number = number * 10 + digit(*byte)?;
    }
    Some(number)
}

/// The number that digits alone write, where it fits 64 bits.
fn digits(bytes: &[u8]) -> Option<u64>
    ensures { IfSome result (λ number. (is_integer (scan bytes.now) ≡ true) × (digits_of (scan bytes.now) ≡ number)) }
{
    if bytes.is_empty() || bytes[0] == b'+' {
        return None;
    }
    match parse_u64(bytes) {
        Ok(number) => Some(number),
        Err(_) => None,
    }
}

fn without_sign(bytes: &[u8]) -> Option<Option<i64>>
    ensures { result ≡ option_map as_i64 (number_from false (scan bytes.now)) }
{
    match digits(bytes) {
        Some(number) if number < 1 << 63 => Some(Some(number as i64)),
        _ => other_without_sign(bytes),
    }
}

fn with_sign(bytes: &[u8]) -> Option<Option<i64>>
    ensures { result ≡ option_map as_i64 (number_from true (scan bytes.now)) }
{
    match digits(bytes) {
        Some(number) if 0 < number && number < 1 << 63 => Some(Some(-(number as i64))),
        _ => other_with_sign(bytes),
    }
}

/// The first byte is a minus.
#[inline(always)]
fn has_minus(bytes: &[u8]) -> bool
    ensures value { result ≡ (slice_index bytes.now 0 == 45) }
    ensures len { IsTrue result → 0 < length bytes.now }
{
    !bytes.is_empty() && bytes[0] == b'-'
}

#[inline(always)]
fn short_without_sign(bytes: &[u8]) -> Option<i64>
    ensures { IfSome result (λ number. Some (Some number) ≡ option_map as_i64 (number_from false (scan bytes.now))) }
{
    match short_digits(bytes) {
        Some(number) => Some(number as i64),
        None => None,
    }
}

#[inline(always)]
fn short_with_sign(bytes: &[u8]) -> Option<i64>
    ensures { IfSome result (λ number. Some (Some number) ≡ option_map as_i64 (number_from true (scan bytes.now))) }
{
    match short_digits(bytes) {
        Some(number) if 0 < number => Some(-(number as i64)),
        _ => None,
    }
}

/// The whole number that a number of JSON is, where at most 18 digits write it, as each of an
/// array mostly is.
#[inline(always)]
pub(crate) fn short_number(text: &str) -> Option<i64>
    ensures { IfSome result (λ number. Some (Some number) ≡ option_map as_i64 (number_of text.now)) }
{
    let bytes = text.as_bytes();
    if has_minus(bytes) {
        short_with_sign(&bytes[1..])
    } else {
        short_without_sign(bytes)
    }
}

/// The whole number from -2^63 to 2^63-1 that a number of JSON is, where it is one; and nothing
/// where it is too large for a float.
pub(crate) fn read_number(text: &str) -> Option<Option<i64>>
    ensures { result ≡ option_map as_i64 (number_of text.now) }
{
    let bytes = text.as_bytes();
    if has_minus(bytes) {
        with_sign(&bytes[1..])
    } else {
        without_sign(bytes)
    }
}
