//! What is known between two lines of a source, and what a line leaves behind.
//!
//! `Context.antt` lists what is known. Which names a line declares is in `Declaring.antt`, which containers
//! it writes in `Writing.antt`, what has to come behind it in `Awaiting.antt`, where what it says goes in
//! `Placing.antt`, and all that is known behind it in `After.antt`. Nothing is judged here, and only memory can
//! be wanting.
mod after;
mod awaiting;
mod block;
mod context;
mod declaring;
mod placing;
mod writing;

pub use awaiting::{Wanted, comes_right, is_wanted, wanted_of, wrong_number};
pub use block::{Branch, InForce, OpenBlock, Opener};
pub use context::{Awaited, Context};
