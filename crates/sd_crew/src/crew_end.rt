use sd_mem::Memory;

/// How a run of a graph by workers ends.
#[derive(Drop)]
pub enum CrewEnd {
    /// With this memory, and so many turns that are left.
    Done { memory: Memory, turns: u64 },
    /// By a fault, or by a turn that was wanted when none was left.
    Stopped,
}
