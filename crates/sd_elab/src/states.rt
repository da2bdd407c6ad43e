//! The states of a program's block.
//!
//! `thread_all` adds the states of statements behind those of the statements before them, exactly as
//! `threaded_all` (`Threaded.antt`) defines them. By `ThreadedLemmas.antt` they are those of `States.antt`,
//! which has one rule for each form. Calls are of given graphs.
mod building;
mod count;
mod exit;
mod thread;

pub use building::Building;
pub use thread::thread_all;
