//! A tasklet does in the graph what its lines say: where a setting is that of a context, a tasklet's
//! item is, unfolded, the work that its block says. Its connectors are those that the block declares
//! (`specs/tasklets/Connected.antt`); of a consume scope that is one tasklet the element is the first of them.
mod laws;

pub use laws::{a_tasklet_does_what_it_says, a_tasklet_on_an_element_does_what_it_says};
