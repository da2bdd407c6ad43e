use sd_graph::{FaultKind, Place};

/// How a step of a machine ends.
#[derive(Drop)]
pub enum Stepped {
    /// There is a next move.
    Moved,
    /// The run is done: nothing is left.
    Done,
    /// The move has this fault, and the run is over.
    Fault(Place, FaultKind),
    /// The move wants a turn, none is left, and the run is over.
    Spent,
}
