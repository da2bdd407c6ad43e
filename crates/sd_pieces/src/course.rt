//! What work reads and changes, in order, when it is done from left to right: its course (`specs/course/Course.antt`). By `laws` it tells
//! what the work comes to, and depends on what is read alone, so that work which reads the same is the same; and all of it is
//! of what the work may touch. More transitions and takes that are allowed make no difference to work that ends.
mod laws;

pub use laws::{
    a_course_is_of_what_its_work_touches, work_keeps_the_shape_of_its_memories,
    work_that_is_allowed_more_is_the_same, work_that_reads_the_same_is_the_same,
};
