//! Windows of containers and pieces of maps, over definitions alone: there is no code here.
//!
//! A window is a box of a container's elements with numbers of their own. By `laws`, what items have to do over windows is their work by
//! these numbers; a map whose points are in any order is its pieces, which have some values of its first parameter each, one
//! after another; a sequential map, and any other item, is one piece. So the items of a list are cut into pieces.
#![tactic(auto)]

mod laws;

pub use laws::{
    a_map_is_its_pieces, items_are_cut_into_their_pieces,
    items_reached_by_other_numbers_are_the_work_by_them, windows_number_their_elements,
};
