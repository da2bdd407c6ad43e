ghost use Rattle.std.specs.Prelude.{◌≡◌, ℕ, ◌<◌, ◌≤◌, ◌^◌, ℤ, ◌≤ℤ◌, pos, unsigned_abs, IsTrue};
ghost use Rattle.std.specs.Option.{MatchOption};
ghost use Rattle.std.specs.Bool.{⊤};
ghost use Rattle.sd_scope.specs.even.Even.{spaced};
ghost use Rattle.sd_tcode.specs.columns.Columns.{value_on};

use sd_tcode::Spaced;

/// The numbers from one to another one, so many points further, which most often have this distance; `None` where they do not fit.
pub(crate) fn spaced_between(first: u64, last: u64, gaps: u32, guess: i64) -> Option<Spaced>
    ensures { MatchOption result ⊤ (λ numbers. (distance : ℤ) → pos last ≡ spaced (pos first) distance gaps
        → (k element : ℕ) → k ≤ gaps → pos element ≡ spaced (pos first) distance k → element ≡ unsigned_abs (value_on numbers k)) }
{
    let first = small(first)?;
    let last = small(last)?;
    let step = distance(first, last, gaps, guess);
    Some(Spaced { first, step })
}

/// A number as an element, where it is one.
fn small(number: u64) -> Option<i64>
    ensures { MatchOption result ⊤ (λ element. (element ≡ pos number) × (number < 2 ^ 63)) }
{
    i64::try_from(number).ok()
}

/// The number at a position of numbers at equal distances.
fn number_at(first: i64, step: i64, k: u32) -> Option<i64>
    ensures { MatchOption result ⊤ (λ number. number ≡ spaced first step k) }
{
    first.checked_add(step.checked_mul(i64::from(k))?)
}

/// Whether so many gaps of this distance lead from one number to another one.
fn is_apart(first: i64, last: i64, gaps: u32, step: i64) -> bool
    ensures { IsTrue result → last ≡ spaced first step gaps }
{
    match number_at(first, step, gaps) {
        Some(number) => number == last,
        None => false,
    }
}

/// How far two numbers lie apart with so many gaps between them, as far as was guessed or by a division.
fn distance(first: i64, last: i64, gaps: u32, guess: i64) -> i64
    requires first { pos 0 ≤ℤ first }
    requires last { pos 0 ≤ℤ last }
    ensures { (apart : ℤ) → last ≡ spaced first apart gaps → (k : ℕ) → k ≤ gaps → spaced first result k ≡ spaced first apart k }
{
    if is_apart(first, last, gaps, guess) {
        return guess;
    }
    if gaps == 0 {
        return 0;
    }
    (last - first) / i64::from(gaps)
}
