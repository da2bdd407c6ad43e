use sd_graph::{FaultKind, Place};

/// How work ends.
#[derive(Drop)]
pub enum End {
    Finished,
    Fault(Place, FaultKind),
    /// A turn was wanted, and none was left.
    OutOfTurns,
}
