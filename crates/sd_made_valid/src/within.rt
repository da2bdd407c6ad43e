//! The graph of a program that was read, bound to sizes, keeps the whole rule on limits.
//!
//! What the rule asks is shown in parts: of expressions and containers, of the elements of containers,
//! of nodes, of ends of loops, of scopes and loops, of graphs, of maps, of code and of ranks. The rule's
//! tests of what stands at a place are those of expressions and of code together (`proofs/within_lemmas/Tests`); each
//! place passes all parts behind those before it, so it passes the rule (`proofs/within_lemmas/Places`, `proofs/within_lemmas/Texts`).
mod laws;

pub use laws::the_bound_graph_of_a_text_is_within_its_limits;
