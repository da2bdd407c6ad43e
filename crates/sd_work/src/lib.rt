//! Residual work: what is left to do of a run, apart from graphs. `specs/` defines memories and
//! their changes, the terms of residual work, their next moves, steps and runs by picks
//! (`docs/SEMANTICS.md` has each in plain words). By `laws` changes at different places commute, and a run
//! has at most one outcome. It has one where its cycles of transitions pay and what it unfolds is new. It goes
//! on until it is finished where its lists have orders and its pools memories. Where all is in order, work
//! from left to right gives what the sequential run does.
//! There is no code here but the kinds of faults.
#![tactic(auto)]

mod fault;
mod laws;

pub use fault::FaultKind;
pub use laws::{
    a_change_elsewhere_is_not_seen, a_change_keeps_widths, a_change_splits_at_an_owner,
    a_finished_term_has_no_move, a_machine_moves_until_it_is_finished,
    a_run_from_left_to_right_is_sequential, a_run_has_one_outcome,
    an_element_is_replaced_or_resolved, changes_at_different_places_commute, every_run_ends,
    settling_once_is_enough, work_does_not_see_a_change_elsewhere,
};
