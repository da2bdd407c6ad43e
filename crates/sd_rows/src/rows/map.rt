use sd_graph::{Link, Sdfg, Tasklet};
use sd_range::Range;
use sd_scope::{Base, Scope};

/// A map whose body is one tasklet, and where the map stands.
#[derive(Clone, Copy)]
pub(crate) struct TaskMap<'a> {
    pub tasklet: &'a Tasklet,
    pub ins: &'a [Link],
    pub outs: &'a [Link],
    pub line: u32,
    pub params: &'a [(u32, Range)],
    pub private: &'a [u32],
    pub graph: &'a Sdfg,
    pub base: &'a Base,
    pub scope: &'a Scope,
}
