//! Maps of tasklets, whose points are kept as a count until they begin.
//!
//! `begin` makes such a map, `count` tells how many points it has and the numbers of one, and `fire` makes the move of a tasklet of a
//! point, which begins with its first move.
mod begin;
mod count;
mod fire;

pub(crate) use begin::{are_tasks, begin_sparse};
pub(crate) use count::count_points;
pub(crate) use fire::fire_sparse;
