//! Confluence: safe residual work ends alike by every interleaving. `specs/` defines what work is safe,
//! when memories and terms are alike, what a run leaves of work, and what it pushes and takes.
//!
//! By `laws`, of two runs by any picks the one is done where the other is, with alike memories and as many
//! turns. So are two runs of one pool from alike streams, which take and push each value equally often.
//! Two steps in two parts of one list or one pool commute, and so do two takes of one pool, up to the order
//! of active terms. What a run leaves touches no more than its work does. The proof of runs goes by work whose
//! streams are bags (`proofs/bags/`), where any next move can be made first (`proofs/commuting/`); that of
//! steps goes by the terms themselves (`proofs/left/`).
#![tactic(auto)]

mod laws;

pub use laws::{
    any_two_next_moves_are_of_two_parts_or_two_takes, each_value_is_taken_or_waits,
    every_interleaving_ends_alike, moves_of_parts_that_do_not_conflict_commute,
    steps_of_two_parts_commute, terms_that_are_alike_have_memories_alike,
    the_order_of_taking_makes_no_difference, two_takes_of_one_pool_commute,
    what_is_left_touches_no_more, work_may_interleave_at_each_choice,
};
