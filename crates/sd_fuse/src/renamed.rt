//! Items with variables renamed do the same.
mod laws;

pub use laws::{
    renamed_items_do_the_same_at_the_values_of_the_old_names, renamed_items_use_the_same,
};
