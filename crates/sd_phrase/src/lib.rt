//! What parts of a line say: tokens as words, lists of words cut at marks and brackets, and the
//! expressions, subsets, lambdas and memlets that they are.
//!
//! Each `read_..` tells what the tokens are exactly as its definition in `specs/` does: a form, none, or
//! nested too deeply. Of two parts "none" goes before "too deep". Only memory can be wanting.
//!
//! The laws tie the reading of expressions to their grammar: what it has for a tree reads as that tree.
#![tactic(auto)]

mod cut;
mod expression;
mod lambda;
mod laws;
mod memlet;
mod parts;
mod phrase;
mod reading;
mod subset;
mod word;

pub use expression::{LEVELS, name_of, read_expression, read_list};
pub use lambda::{LambdaNames, WrittenLambda, lambda_names, read_lambda_by};
pub use laws::{
    an_expression_of_the_grammar_reads_as_its_tree,
    an_expression_with_all_its_parentheses_reads_as_itself, operators_join_by_their_ranks,
};
pub use memlet::{WrittenMemlet, read_memlet};
pub use parts::{
    Few, at_mark, bracketed, bracketed_whole, closed, closed_whole, few_parts, is_balanced,
    mark_of, part_count,
};
pub use phrase::{
    after, header, is_phrase, lone_name, lone_number, name_first, next, number_first, step_of,
};
pub use reading::Reading;
pub use subset::{read_slots, read_subset};
pub use word::{Bracket, Mark, Piece, Word, is_name, is_spelled, pieces_of};
