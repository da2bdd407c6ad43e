//! The texts of places and of faults, byte for byte as `specs/places/FaultText.antt` has them.
mod text;

pub use text::{fault_text, place_text};
