ghost use Rattle.std.specs.Prelude.{◌≡◌, ◌↔◌, None};
ghost use Rattle.sd_num.specs.Resolution.{resolved, stored, identity_of};

use crate::width::{greatest, least};
use crate::{Width, add, mul, wrap};

/// How two values that are written to one element become one.
#[derive(Clone, Copy, Debug, PartialEq, Eq)]
pub enum Resolution {
    /// The wrapping sum.
    Sum,
    /// The wrapping product.
    Product,
    /// The least.
    Min,
    /// The greatest.
    Max,
    /// The bits that both have.
    And,
    /// The bits that one has.
    Or,
    /// The bits that exactly one has.
    Xor,
    /// The new one.
    Last,
}

/// The element that an old and a new one become.
pub fn resolve(resolution: Resolution, old: i64, new: i64) -> i64
    ensures { result ≡ resolved resolution old new }
{
    match resolution {
        Resolution::Sum => add(old, new),
        Resolution::Product => mul(old, new),
        Resolution::Min => old.min(new),
        Resolution::Max => old.max(new),
        Resolution::And => old & new,
        Resolution::Or => old | new,
        Resolution::Xor => old ^ new,
        Resolution::Last => new,
    }
}

/// The element that an old one becomes where a new value is stored: with no resolution the new
/// value, wrapped; else both are wrapped, then resolved, and the result is wrapped.
pub fn store(width: Width, by: Option<Resolution>, old: i64, new: i64) -> i64
    ensures { result ≡ stored width by old new }
{
    match by {
        None => wrap(width, new),
        Some(resolution) => {
            let resolved = resolve(resolution, wrap(width, old), wrap(width, new));
            wrap(width, resolved)
        }
    }
}

/// The element that changes no element of the width. `Last` has none.
pub fn identity(resolution: Resolution, width: Width) -> Option<i64>
    ensures value { result ≡ identity_of resolution width }
    ensures none { result ≡ None ↔ resolution ≡ Resolution.Last }
{
    match resolution {
        Resolution::Sum | Resolution::Or | Resolution::Xor => Some(0),
        Resolution::Product => Some(1),
        Resolution::Min => Some(greatest(width)),
        Resolution::Max => Some(least(width)),
        Resolution::And => Some(-1),
        Resolution::Last => None,
    }
}
