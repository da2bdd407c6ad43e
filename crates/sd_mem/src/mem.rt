//! The memory that a graph runs on: flat buffers in row order, and streams.
//!
//! Contracts see a `Memory` as the extents of its containers and the memory of `sd_work`
//! (`specs/mem/Shaped.antt`): a read gives the element that the work reads, a write, a push and a take
//! change what the work's changes do. Only what makes, copies or grows one takes memory. An
//! element has a place, its number in row order, so that code may find it once and use it often.
mod beginning;
mod buffer;
mod cells;
mod element;
mod growing;
mod holding;
mod laws;
mod lending;
mod memory;
mod opening;
mod place;
mod stream;

pub use cells::{Cells, Elements};
pub use laws::{
    a_place_is_the_sum_of_strides_times_numbers, an_element_is_the_one_that_work_reaches,
    memories_of_a_graph_are_whole,
};
pub use memory::Memory;
