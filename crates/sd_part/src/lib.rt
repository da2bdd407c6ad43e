//! Parts of a graph, as they are run on a memory or on what was cut of one.
//!
//! `piece_of` makes a piece of an item, `outline_of` has the accesses of all pieces of an item, `piece_boxes` the boxes of one in numbers, and
//! `windows_of` the windows that they need; by `laws` the boxes mark all that a piece may touch. `run_part` runs a part on a `Store`: it ends as
//! the part's own work does from the memory that the store stands for; `follow` makes the transition behind a state. A memory is a store, and
//! so is what was cut of one. Want of memory is the one refusal; a number that has no room is one too.
#![tactic(auto)]

mod boxes;
mod cut;
mod hulls;
mod kept;
mod laws;
mod lent;
mod marking;
mod marks;
mod numbers;
mod outline;
mod part;
mod part_end;
mod piece;
mod run;
mod store;
mod transition;
mod whole;

pub use boxes::{Interval, NumberBox};
pub use hulls::windows_of;
pub use kept::Kept;
pub use laws::{
    a_box_in_numbers_has_the_indices_of_its_box, a_marked_cut_is_marked_as_accesses_ask,
    a_piece_fits_where_its_item_does, an_outline_has_the_accesses_of_each_piece,
    boxes_mark_what_accesses_may_touch, elements_are_of_their_widths,
    values_of_streams_are_of_their_widths, what_is_just_cut_may_be_lent,
};
pub use marking::mark_boxes;
pub use marks::{is_pushed_to, is_taken_from, numbers_among, resolution_among, streams_of};
pub use outline::{Outline, outline_of, piece_boxes};
pub use part::run_part;
pub use part_end::PartEnd;
pub use piece::piece_of;
pub use store::Store;
pub use transition::{Followed, follow};
