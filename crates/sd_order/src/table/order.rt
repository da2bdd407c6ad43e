ghost use Rattle.std.specs.Prelude.{◌≡◌, ◌≤◌, ◌+◌, ◌*◌, ◌^◌, false, slice_index_or};
ghost use Rattle.std.specs.Option.{MatchOption};
ghost use Rattle.sd_work.specs.Residual.{is_ready};
ghost use Rattle.sd_order.specs.table.Told.{told};

/// Which of so many items are before which: a table with a row for each item, row after row, of those before it.
#[derive(Drop)]
pub struct Order {
    pub count: usize,
    pub table: Vec<bool>,
}

impl Order {
    /// Whether an item is before another one.
    pub fn is_before(&self, from: usize, to: usize) -> bool
        ensures { result ≡ told self.now from to }
    {
        if from >= to || to >= self.count {
            return false;
        }
        told_at(self.table.as_slice(), to, self.count, from)
    }

    /// Whether an item may go on, where these are finished: each that is before it is.
    pub fn is_ready(&self, finished: &[bool], number: usize) -> bool
        ensures { result ≡ is_ready (told self.now) finished.now number }
    {
        for from in 0..finished.len() {
            if !finished[from] && self.is_before(from, number) {
                return false;
            }
        }
        true
    }
}

/// What a table of so many columns has in a row; `false` where it has no such row.
pub fn told_at(table: &[bool], row: usize, columns: usize, column: usize) -> bool
    ensures { result ≡ slice_index_or table.now (row * columns + column) false }
{
    let Some(place) = place(row, columns, column) else {
        return false;
    };
    match table.get(place) {
        Some(told) => *told,
        None => false,
    }
}

/// The place of a column in a row of a table; `None` where it has no 64-bit number.
fn place(row: usize, columns: usize, column: usize) -> Option<usize>
    ensures { MatchOption result (2 ^ 64 ≤ row * columns + column) (λ place. place ≡ row * columns + column) }
{
    row.checked_mul(columns)?.checked_add(column)
}
