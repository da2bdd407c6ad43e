ghost use Rattle.std.specs.Prelude.{◌≡◌, pos, ◌&&◌, int_le, int_lt};
ghost use Rattle.sd_range.specs.Subset.{inside};

/// Whether an index is inside a container of this shape: it has one number for each extent, from
/// 0 to the extent less one. A negative number is outside. Takes no memory.
pub fn contains(shape: &[u64], index: &[i128]) -> bool
    ensures { result ≡ inside shape.now index.now }
{
    if shape.len() != index.len() {
        return false;
    }
    for (i, extent) in shape.iter().enumerate() {
        if !is_within(extent, &index[i]) {
            return false;
        }
    }
    true
}

/// Whether a number is from 0 to the extent less one.
fn is_within(extent: &u64, number: &i128) -> bool
    ensures { result ≡ (int_le (pos 0) number.now && int_lt number.now (pos extent.now)) }
{
    0 <= *number && *number < i128::from(*extent)
}
