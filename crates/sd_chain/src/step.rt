//! The steps of chains.
use sd_graph::Path;
use sd_list::Sequence;

/// A rewrite, and where it is done.
#[derive(Drop)]
pub enum Step {
    /// A map and the one map in it become one.
    MapCollapse { at: Path },
    /// A map becomes one of its first parameter round one of the others.
    MapExpansion { at: Path },
    /// A map and the one map in it take each other's parameters.
    MapInterchange { at: Path },
    /// A map becomes one over tiles round one of the points of a tile; each parameter has a size.
    MapTiling { at: Path, sizes: Sequence<u64> },
}

/// Steps one after another, each with the number of its line in the chain file, counted from 1.
#[derive(Drop)]
pub struct Chain {
    pub steps: Sequence<(u32, Step)>,
}
