//! Work on a cut of a memory: on some of its elements, which have numbers of their own there (`specs/cut/Naming.antt`). By `laws`, work that
//! names them so comes to the same; and what the cut is left with, merged into another memory that has what the work may read
//! (`specs/cut/Merged.antt`), is what the work comes to from that memory.
mod laws;

pub use laws::{
    what_is_merged_is_one_stack, work_by_other_numbers_comes_to_the_same, work_on_a_cut_is_the_work,
};
