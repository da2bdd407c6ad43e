//! The memory that a graph runs on.
//!
//! `mem` has flat buffers in row order, and streams: reads, writes, pushes and takes change them as the changes of
//! `sd_work` do. `machine` has the memories of all that runs, on a stack, and the turns that are left. Only what
//! makes, copies or grows a memory takes memory.
#![tactic(auto)]

mod machine;
mod mem;

pub use machine::{Address, End, Machine, Station};
pub use mem::{
    Cells, Elements, Memory, a_place_is_the_sum_of_strides_times_numbers,
    an_element_is_the_one_that_work_reaches, memories_of_a_graph_are_whole,
};
