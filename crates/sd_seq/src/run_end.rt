use sd_graph::{FaultKind, Place};
use sd_mem::Memory;

/// How a run of a graph ends.
#[derive(Drop)]
pub enum RunEnd {
    /// With this memory, and so many turns that are left.
    Done { memory: Memory, turns: u64 },
    /// The first fault, and where it came.
    Fault(Place, FaultKind),
    /// A turn was wanted, and none was left.
    Spent,
}
