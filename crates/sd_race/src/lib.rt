//! The race check: which graphs are accepted, and the first pair of accesses that is not.
//!
//! `race` has the definitions, and that acceptance and a race exclude each other. `checking` answers the first pair
//! exactly where a graph is not accepted, and `text` writes its answer. `cover` has the law that what an item touches
//! lies in the boxes of its accesses. Want of memory is the one other refusal.
#![tactic(auto)]

mod checking;
mod cover;
mod race;
mod text;

pub use checking::{Race, RaceError, check, is_free_of_races, scope_accepted};
pub use cover::{joined_accesses_cover_what_their_accesses_do, what_is_touched_lies_in_the_boxes};
pub use race::{
    a_graph_has_one_race, a_test_tells_which_scopes_are_free_of_races,
    an_accepted_graph_has_no_race, each_two_accesses_of_a_scope_free_of_races_are_accepted,
    no_race_is_told_of_a_sequential_map, sequential_maps_are_passed_over,
};
pub use text::{check_text, race_text};
