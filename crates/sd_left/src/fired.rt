//! What a move at a path of the tree of what is left comes to (`specs/fired/Fired.antt`).
//! By `laws` it is told level by level: a move of a leaf, of an item in its list, of a point or an element inside its memory and of a
//! state inside its run is one of the whole, and nothing is changed beside the path. A take begins an element, and the
//! transition of a run whose state is finished begins the next state or ends it. So code that goes down a path makes the
//! move of the work. There is no code here.
mod laws;

pub use laws::{
    a_finished_state_goes_on, a_move_inside_an_owner_is_one_of_it,
    a_move_of_a_leaf_is_one_of_its_item, a_move_of_a_part_changes_its_list_there_alone,
    a_take_begins_an_element, where_nothing_moves_all_stays,
};
