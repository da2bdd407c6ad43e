//! What holds of a program that is elaborated, over the plain tree of its syntax.
//!
//! `specs/WellFormed.antt` lists it: affine places are affine and small (`IsAffine.antt`,
//! `Small.antt`), forms, containers and calls are in force where they stand (`Place.antt`,
//! `Known.antt`, `Calls.antt`), and limits that need no sizes are kept (`Limits.antt`). There is
//! no code here; by the law below the numbers of small expressions fit 128 bits.
#![tactic(auto)]

mod laws;

pub use laws::small_expressions_are_representable;
