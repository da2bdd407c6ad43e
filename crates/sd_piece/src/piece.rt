use sd_cut::Overlay;
use sd_graph::Item;
use sd_part::{NumberBox, PartEnd};

/// Which piece of a graph's items is meant: so many of an item's values from the one of number `first` on. A map whose points are in any order has those
/// of its first parameter; any other item counts as one value.
#[derive(Clone, Copy, Debug, PartialEq, Eq)]
pub struct PieceAt {
    pub state: u32,
    /// The number of the item in its state.
    pub item: u32,
    pub first: u128,
    pub count: u128,
}

/// A piece of an item of a state, where the variables have these values, and what was cut of a memory for it.
#[derive(Drop)]
pub struct Piece {
    pub state: u32,
    pub values: Vec<i128>,
    pub item: Item,
    /// What its accesses may touch.
    pub boxes: Vec<NumberBox>,
    pub cut: Overlay,
}

/// How a piece ended, and what it left of what was cut for it.
#[derive(Drop)]
pub struct PieceEnd {
    pub cut: Overlay,
    pub end: PartEnd,
}
