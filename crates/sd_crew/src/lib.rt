//! Graphs that workers run, state by state.
//!
//! `places` tells where the pieces of a state's items are for so many workers, `work` how each is cut and done, `stage` does a state's
//! pieces on a board, and `crew` goes from state to state. Where a run by workers is done, the memory and the turns are those of the graph's sequential run,
//! but for the order of values in streams; where it is stopped, the sequential run is not done either. Want of memory, or a piece that a worker left,
//! is the one refusal.
#![tactic(auto)]

mod crew;
mod crew_end;
mod places;
mod stage;
mod work;

pub use crew::run_crew;
pub use crew_end::CrewEnd;
