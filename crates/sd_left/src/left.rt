//! What is left of a graph's run, as code keeps it: a tree beside the graph.
//!
//! An item that works has an instance or a list of things to do; a map its points, a consume scope the elements in work, a
//! nested graph its state; each of these its own memory and what is left of its items. `specs/left/Kept.antt` says of which
//! residual work such a tree is, where its items stand. The tree keeps counts of its next moves and of its open consume scopes
//! (`specs/left/Tells.antt`), so that it tells how many there are, and whether it is finished, without a look at its parts.
mod begin;
mod change;
mod count;
mod laws;
mod left;
mod tells;

pub use count::is_ready;
pub use laws::{a_tree_tells_its_next_moves, work_that_counts_no_open_pool_has_none};
pub use left::{Bodies, Body, Left, Run};
pub use tells::{
    are_finished, is_body_finished, is_finished, moves_of, moves_of_bodies, moves_of_body,
    moves_of_run, pools_of, pools_of_bodies, pools_of_body, pools_of_run,
};
