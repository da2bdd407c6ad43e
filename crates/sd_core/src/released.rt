//! Work of which finished owners have let go of what they held (`specs/Released.antt`). By `laws` its runs are those of the work
//! that has kept all.
//! There is no code here.
mod laws;

pub use laws::what_was_let_go_is_not_missed;
