//! Runs an instance whose inputs are read where they stand.
//!
//! A `Window` is the elements of an input: the first one and how far others are from it (`specs/view/View.antt`). It is found
//! by the elements of a few places and one test that the last place is inside (`specs/view/Places.antt`). `Views` are the
//! windows of a tasklet's inputs beside what its outputs are. `run_on_views` tests nothing of its inputs any more: it takes
//! the scalars, evaluates, looking at elements where the code wants them, and performs the effects.
mod finding;
mod fitting;
mod running;
mod sight;
mod views;
mod views_at;
mod window;

pub use running::run_on_views;
pub use views::Views;
pub use window::Window;
