//! In a program that was read no call writes an argument that is another one too, and so it is in its graph.
//!
//! A line that calls so is refused (`proofs/apart_lemmas/Shared`). What a program writes is noted line by line, and its
//! signature tells it where the program ends (`proofs/apart_lemmas/Told`, `proofs/apart_lemmas/Ends`); so calls in the programs
//! below are judged by what it writes. So of two links of one container a nested graph in the graph of the
//! program writes neither, and the rule on nested graphs is kept but for shapes (`proofs/apart_lemmas/Graphs`).
mod laws;

pub use laws::{
    calls_of_a_program_that_was_read_are_apart, the_bound_graph_of_a_text_has_right_links,
    the_bound_graph_of_a_text_writes_no_container_that_it_links_twice,
};
