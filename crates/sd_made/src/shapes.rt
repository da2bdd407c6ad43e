//! Rules on nested graphs and on shapes that the graph of a program keeps, it keeps with sizes.
//!
//! Each range of a link and each extent of the graph is in normal form (`proofs/shapes_lemmas/NormalForms.antt`), and
//! shapes in normal form that fit without sizes do so with them (`sd_validity`). So what these rules
//! ask of the bound graph is asked of the graph alone.
mod laws;

pub use laws::the_bound_graph_of_a_program_keeps_the_shapes_of_the_graph;
