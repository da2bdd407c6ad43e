//! Of two links of one container a nested graph in the graph of a program writes neither.
//!
//! The graph of a program writes the containers that the program writes by name (`specs/writes/Writes.antt`). So
//! where no call writes an argument that is another one too, no nested graph writes what two of its
//! links are of (`specs/writes/Apart.antt`).
mod laws;

pub use laws::the_bound_graph_of_a_program_writes_no_container_that_it_links_twice;
