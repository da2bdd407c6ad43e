ghost use Rattle.std.specs.Prelude.{◌≡◌, ◌+ℤ◌, ◌-ℤ◌, ◌*ℤ◌};
ghost use Rattle.sd_num.specs.Wrapped.{wrapped};

/// The sum of two elements. It never overflows: it wraps.
pub fn add(a: i64, b: i64) -> i64
    ensures { result ≡ wrapped (a +ℤ b) }
{
    a.wrapping_add(b)
}

/// The first element less the second. It never overflows: it wraps.
pub fn sub(a: i64, b: i64) -> i64
    ensures { result ≡ wrapped (a -ℤ b) }
{
    a.wrapping_sub(b)
}

/// The product of two elements. It never overflows: it wraps.
pub fn mul(a: i64, b: i64) -> i64
    ensures { result ≡ wrapped (a *ℤ b) }
{
    a.wrapping_mul(b)
}

/// The element that a wider number stands for: the number taken modulo 2^64 as a signed one.
pub fn element_of(value: i128) -> i64
    ensures { result ≡ wrapped value }
{
    (value.rem_euclid(1 << 64) as u64).cast_signed()
}
