//! A cut of a memory, in code: windows of its containers, and what was cut of its arrays and streams.
//!
//! `windowed_base` is a run of a graph whose containers are reached through windows, as a nested graph reaches its arguments through
//! views. An `Overlay` has the elements in the windows and the streams that were cut, as they were, with marks of what has to be as it was and of
//! what is left. By the laws an item over windows that have what its accesses may touch is the item, and what an overlay commits is merged.
#![tactic(auto)]

mod cells;
mod committing;
mod cutting;
mod effects;
mod elements;
mod laws;
mod marks;
mod opening;
mod overlay;
mod placing;
mod refusal;
mod rows;
mod streams;
mod turning;
mod using;
mod window;

pub use cells::cells_within;
pub use elements::{CutElement, ElementMark};
pub use laws::{
    a_ready_cut_is_prepared, a_use_asks_no_less, a_window_has_its_elements,
    an_item_over_windows_is_the_item, kept_elements_are_as_they_were, streams_are_committed,
    what_is_cut_is_found, what_is_just_cut_is_ready, what_is_left_is_merged,
    what_work_leaves_is_merged, windows_number_what_is_cut,
};
pub use overlay::Overlay;
pub use refusal::CutError;
pub use streams::{CutStream, StreamUse};
pub use window::{Window, windowed_base};
