//! What is left of a map whose body is a list of tasklets: its points, most of which may not have begun.
//!
//! Points that have not begun are kept as a count: a tasklet that has not begun has one move, wherever its point is, so all of them
//! have as many next moves. A point that has begun has what is left of its tasklets, and its private containers where they were made
//! (`specs/sparse/Point.antt`). A tree of stretches keeps the points, with their moves counted along each path (`specs/sparse/Stretch.antt`).
mod point;
mod stretch;

pub use point::{Begun, Tasks, task_count};
pub use stretch::{Counts, Stretch, Way, count_points, open_at, swap};
pub(crate) use stretch::{first_moves, is_unfinished, moves_in, way_in};
