//! Where a line stands.
use sd_line::BlockKind;

/// What was counted before a line.
#[derive(Clone, Copy, Debug, PartialEq, Eq)]
pub struct Counts {
    /// Of the program.
    pub containers: usize,
    pub states: usize,
    /// The longest chain of calls that the program makes.
    pub calls: usize,
    /// Of the tasklet.
    pub connectors: usize,
    pub lines: usize,
}

/// Where a line stands, and what was counted before it.
#[derive(Clone, Copy, Debug, PartialEq, Eq)]
pub struct Site {
    /// The kind of its block.
    pub kind: BlockKind,
    /// How many scopes and loops are about it.
    pub depth: usize,
    /// Whether a connector line may stand here.
    pub connects: bool,
    pub counts: Counts,
}
