use crate::link::Link;

/// A state as nodes and edges.
#[derive(Drop)]
pub struct Wired {
    pub nodes: Vec<Node>,
    pub edges: Vec<Edge>,
}

/// One node, with the line of the item for which it was made.
#[derive(Drop)]
pub struct Node {
    /// The node of the entry of the scope in which it stands.
    pub scope: Option<u32>,
    pub kind: NodeKind,
    pub line: u32,
}

/// What a node is.
///
/// The nodes that are neither an access nor an exit are the state's items, depth first.
#[derive(Clone, Copy, Debug, PartialEq, Eq)]
pub enum NodeKind {
    /// The container of this number.
    Access(u32),
    Tasklet,
    MapEntry,
    ConsumeEntry,
    /// The exit of the scope with this entry.
    Exit(u32),
    Nested,
    Reduce,
    Copy,
}

/// One edge between two nodes, by their numbers.
///
/// A connector's edge has its link, one into a scope's entry or out of its exit its container, and
/// one that only orders has neither.
#[derive(Drop)]
pub struct Edge {
    pub from: u32,
    pub to: u32,
    pub link: Option<Link>,
    pub container: Option<u32>,
}
