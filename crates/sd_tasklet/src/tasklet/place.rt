ghost use Rattle.std.specs.Prelude.{◌≡◌, ◌≤◌, ◌<◌, ◌^◌, ◌&&◌, ℕ, List, pos, int_le, int_lt, length, map, true};
ghost use Rattle.sd_range.specs.Points.{product};
ghost use Rattle.sd_range.specs.Subset as subset;
ghost use Rattle.sd_graph.specs.RowOrder as order;
ghost use Rattle.sd_tasklet.specs.tasklet.Given.{told_extent};
ghost use Rattle.sd_tasklet.specs.tasklet.Kept as kept;

/// A number of an index is inside its extent.
fn is_below(number: i64, extent: u64) -> bool
    ensures given { result ≡ (int_le (pos 0) number && int_lt number (pos extent)) }
    ensures meant { (meant : ℕ) → told_extent meant ≡ told_extent extent → result ≡ (int_le (pos 0) number && int_lt number (pos meant)) }
{
    number >= 0 && (number as u64) < extent
}

/// An index is inside these extents: it has a number for each, from 0 to the extent less one. Extents above 2^63 have the same
/// indices inside, since no number of an index comes up to them.
pub fn is_inside(extents: &[u64], at: &[i64]) -> bool
    ensures given { result ≡ subset.inside extents.now at.now }
    ensures meant { (meant : List ℕ) → map told_extent meant ≡ map told_extent extents.now → result ≡ subset.inside meant at.now }
{
    if extents.len() != at.len() {
        return false;
    }
    for k in 0..extents.len() {
        if !is_below(at[k], extents[k]) {
            return false;
        }
    }
    true
}

/// The number of an element in row order.
pub fn row_number(extents: &[u64], at: &[i64]) -> usize
    requires inside { subset.inside extents.now at.now ≡ true }
    requires few { product extents.now < 2 ^ 63 }
    ensures { result ≡ order.row_number extents.now at.now }
{
    let mut row = 0;
    for k in 0..extents.len() {
        row = row * extents[k] + at[k].unsigned_abs();
    }
    row as usize
}

/// The sizes of the numbers of an index, and zeros behind them up to four.
pub fn filled(at: &[i64]) -> [u64; 4]
    requires { length at.now ≤ 4 }
    ensures { result ≡ kept.filled at.now }
{
    let mut index = [0; 4];
    for k in 0..at.len() {
        index[k] = at[k].unsigned_abs();
    }
    index
}
