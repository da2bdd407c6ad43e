//! The statements that are items of a graph, maps, consume scopes and calls too, do in the graph what
//! they say. `specs/items/Standing.antt` has where a statement stands in the source and in its graph, and what
//! it fulfils there; `specs/items/CallsDo.antt` what is asked of calls. By the law what a statement says is
//! what its items come to, done from left to right, from some number of transitions and takes on.
mod laws;

pub use laws::{a_block_of_a_scope_does_what_it_says, a_statement_does_what_it_says};
