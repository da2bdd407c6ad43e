//! A whole program does in its graph what it says, and so does each call of a program above it.
//! `specs/programs/Programs.antt` has what a program fulfils and the graphs of several programs, `specs/items/Extents.antt`
//! what is asked of the sizes, `specs/programs/Joined.antt` what tasklets and consume scopes fulfil. By the law what
//! a program says is what its graph comes to, done from left to right.
mod laws;

pub use laws::a_program_does_what_it_says;
