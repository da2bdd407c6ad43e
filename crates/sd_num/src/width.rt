ghost use Rattle.std.specs.Prelude.{◌≡◌, ℤ, pos, neg_ℤ, ◌-◌, ◌^◌};
ghost use Rattle.sd_num.specs.Width.{wrapped_to, IsElement, greatest_of, least_of};
ghost use Rattle.sd_num.specs.declared.width.Width.{Width};
ghost use Rattle.sd_num.specs.declared.width.Width.TheVariants.{W32, W64};

/// How many bits the elements of a container have.
#[derive(Clone, Copy, Debug, PartialEq, Eq)]
pub enum Width {
    /// 32 bits: from -2^31 to 2^31 - 1.
    W32,
    /// 64 bits: from -2^63 to 2^63 - 1.
    W64,
}

/// The number modulo 2^32, as a signed one.
fn low_half(value: i64) -> i32
    ensures { result ≡ wrapped_to Width.W32 value }
{
    (value.rem_euclid(1 << 32) as u32).cast_signed()
}

/// The element of the width that a number stands for: the number taken modulo 2^32 or 2^64 as a
/// signed one.
pub fn wrap(width: Width, value: i64) -> i64
    ensures { result ≡ wrapped_to width value }
{
    match width {
        Width::W32 => i64::from(low_half(value)),
        Width::W64 => value,
    }
}

/// The greatest element of a width.
pub(crate) fn greatest(width: Width) -> i64
    ensures { result ≡ greatest_of width }
{
    match width {
        Width::W32 => i64::from(i32::MAX),
        Width::W64 => i64::MAX,
    }
}

/// The least element of a width.
pub(crate) fn least(width: Width) -> i64
    ensures { result ≡ least_of width }
{
    match width {
        Width::W32 => i64::from(i32::MIN),
        Width::W64 => i64::MIN,
    }
}

/// A number in memory that holds one element of its width.
pub trait Cell: Copy {
    /// The width of the cell.
    const WIDTH: Width;

    ghost WIDTH: { Width };

    /// The element that a cell holds.
    ghost element: { Self → ℤ };

    /// The element that the cell holds.
    fn value(self) -> i64
        ensures value { result ≡ element self }
        ensures width { IsElement WIDTH result };

    /// The cell that holds the element a number stands for.
    fn of(value: i64) -> Self
        ensures { element result ≡ wrapped_to WIDTH value };

    ghost same: { (a b : Self) → element a ≡ element b → a ≡ b };
}

impl Cell for i32 {
    const WIDTH: Width = Width::W32;

    ghost WIDTH = { W32 };

    ghost element = { λ cell. cell };

    ghost same = { λ a b equal. equal };

    #[inline(always)]
    fn value(self) -> i64 {
        i64::from(self)
    }

    #[inline(always)]
    fn of(value: i64) -> i32 {
        low_half(value)
    }
}

impl Cell for i64 {
    const WIDTH: Width = Width::W64;

    ghost WIDTH = { W64 };

    ghost element = { λ cell. cell };

    ghost same = { λ a b equal. equal };

    #[inline(always)]
    fn value(self) -> i64 {
        self
    }

    #[inline(always)]
    fn of(value: i64) -> i64 {
        value
    }
}
