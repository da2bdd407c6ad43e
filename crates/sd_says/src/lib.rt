//! What a source says: the meaning of its statements, by recursion on its plain syntax tree, with no
//! graph in it. `specs/Says.antt` has the whole; `Exact` and `Parts` are affine places and parts of
//! containers, `Work`, `Effects` and `Ways` what becomes of memories, `Elements`, `Connectors`,
//! `Tasklets` and `Pieces` what one statement reads and gives, `Items` and `Statements` the blocks.
//! `AsLeaves` is no part of it: it has the same statements as leaves of graphs. By the laws below each
//! source says exactly one outcome, and what a statement says is what its leaf comes to.
#![tactic(auto)]

mod laws;

pub use laws::{a_statement_says_what_its_leaf_comes_to, every_source_says_one_outcome};
