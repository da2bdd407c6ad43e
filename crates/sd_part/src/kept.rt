use sd_graph::{FaultKind, Place};

/// Why work on a graph stopped.
#[derive(Drop)]
pub enum Kept {
    /// A fault, and where it came.
    Fault(Place, FaultKind),
    /// So many turns were wanted, which is one more than there were.
    Turns(u64),
}
