use crate::sparse::{Stretch, Tasks};
use sd_leaves::{Doing, Instance};
use sd_list::Tally;
use sd_mem::{Memory, Station};
use sd_order::Order;

/// What is left of an item.
#[derive(Drop)]
#[cycle(left)]
pub enum Left {
    /// Of a tasklet.
    Instance(Instance),
    /// Of a copy or a reduction.
    Doing(Doing),
    /// Of a map: at each of its points. Those of a sequential map come one after another.
    Points {
        sequential: bool,
        points: Bodies,
    },
    /// Of a map of tasklets: at each of its points, which are kept as they begin.
    Sparse {
        sequential: bool,
        tasks: Tasks,
        points: Stretch,
    },
    /// Of a consume scope over this stream: of each element taken, in the order of taking. So many values wait.
    Pool {
        stream: Station,
        active: Bodies,
        waiting: usize,
        closed: bool,
    },
    /// Of a nested graph.
    Nested(Box<Run>),
}

/// Points of a map, or elements of a consume scope, and what is counted of them.
#[derive(Drop)]
#[cycle(left)]
pub struct Bodies {
    pub bodies: Vec<Body>,
    /// How many moves of each come next.
    pub moves: Tally,
    /// 1 for each of which something is left, and else 0.
    pub unfinished: Tally,
    /// How many open consume scopes are in each.
    pub open: Tally,
}

/// What is left of items at a point, in an element or in a state, and what is counted of them.
#[derive(Drop)]
#[cycle(left)]
pub struct Body {
    /// The point's numbers, the value that was taken, or the values of the variables.
    pub at: Vec<i128>,
    /// The containers of the point, the element or the run.
    pub own: Memory,
    pub order: Order,
    pub parts: Vec<Left>,
    /// How many moves of each item come next: none of one that may not go on.
    pub moves: Tally,
    /// 1 for each item of which something is left, and else 0.
    pub unfinished: Tally,
    /// How many open consume scopes are in each.
    pub open: Tally,
}

/// What is left of a run of a graph. An ended one keeps its memory.
#[derive(Drop)]
#[cycle(left)]
pub struct Run {
    pub state: u32,
    pub ended: bool,
    pub body: Body,
}
