//! The flat code of a tasklet is made of its tree.
//!
//! `compile` emits the instructions that `sd_tcode` defines (`specs/tcode/Emitted.antt` there), counts the
//! registers and effects that they need (`specs/Reach.antt`), and tells whether the code is plain.
//! Code that names only what it has can be compiled; `is_named` tells whether it does.
#![tactic(auto)]

mod compiling;
mod emit;
mod emit_act;
mod named;
mod plain;
mod reach;

pub use compiling::compile;
pub use named::is_named;
