//! What the program reads, writes and passes: a shelf of named files, a sink of bytes, a gate.
//!
//! Each is a trait whose ghost members say what it tells and what it counts. A shelf gives
//! the content that it tells, and a fault or an overrun of a name comes only where that
//! name's number rose. A sink takes a piece whole, or counts a fault and takes a prefix of
//! it, or takes nothing for want of memory. Of the devices in memory here `SureShelf` and
//! `SureSink` have no fault of their own, `MemShelf` and `MemSink` fail at listed calls. The gate `Pair`
//! holds two calls until both are inside.
#![tactic(auto)]

mod files;
mod gate;
mod mem_shelf;
mod mem_sink;
mod pair;
mod shelf;
mod sink;
mod sure_shelf;
mod sure_sink;

pub use gate::{Gate, Open};
pub use mem_shelf::MemShelf;
pub use mem_sink::MemSink;
pub use pair::Pair;
pub use shelf::{Shelf, ShelfError};
pub use sink::{Sink, SinkError};
pub use sure_shelf::SureShelf;
pub use sure_sink::SureSink;
