/// What a piece of work passes at its start, with the piece's number.
///
/// A gate answers nothing and changes no result. A test may hold calls back in it, to see
/// that two of them are under way at once.
pub trait Gate: Sync {
    /// Returns when the call may go on.
    fn pass(&self, call: u64);
}

/// The gate that holds nothing back.
#[derive(Clone, Copy, Debug, PartialEq, Eq)]
pub struct Open;

impl Gate for Open {
    fn pass(&self, _call: u64) {}
}
