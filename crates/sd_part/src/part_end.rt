use crate::kept::Kept;

/// How a part of a graph ends.
#[derive(Drop)]
pub enum PartEnd {
    /// It was done, for so many turns.
    Done(u64),
    Stopped(Kept),
}
