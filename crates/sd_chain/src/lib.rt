//! Chain files, which rewrite a graph, and picks files, which steer a run.
//!
//! `read_chain` reads the steps of a chain file, each a rewrite and where it is done (`specs/Chain.antt`): it answers them with their
//! lines, or the first line that is no form. `read_picks` reads the file of picks, which chooses one move after another of a run
//! (`specs/Picks.antt`): it answers the picks, or the first word that is none.
#![tactic(auto)]

mod chain;
mod error;
mod line;
mod parts;
mod picks;
mod step;

pub use chain::read_chain;
pub use error::{ChainError, PicksError};
pub use picks::read_picks;
pub use step::{Chain, Step};
