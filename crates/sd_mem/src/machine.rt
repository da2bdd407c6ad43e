//! The memories of all that is running, and the turns that are left.
//!
//! A graph that runs, a point of a map and an element of a consume scope each have a memory; they stand on
//! a stack. Contracts see a `Machine` as the memories and the turns that a run from left to right goes on
//! with (`specs/machine/Stack.antt`): each call changes them as the work's changes do, whatever is there. What work
//! comes to is told by `specs/machine/ComesTo.antt`. Only `new`, `enter`, `lend` and `push` take memory.
mod address;
mod end;
mod machine;

pub use address::{Address, Station};
pub use end::End;
pub use machine::Machine;
