//! The graph of a program, bound to sizes, keeps the rule on nested graphs where calls are as they may be.
//!
//! Of what the rule asks, each program has the arguments first and a link for each (`links` of `sd_made`).
//! What is written is asked of its calls (`writes` there), and shapes of the graph without sizes
//! (`specs/nesting/Shaped.antt`, `shapes` there).
mod laws;

pub use laws::the_bound_graph_of_a_program_has_right_links;
