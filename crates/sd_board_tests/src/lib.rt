//! Tests of boards that need no graph: what workers are told, step by step, and what a closed board tells.
#![tactic(auto)]

#[cfg(test)]
mod steps;
#[cfg(test)]
mod workers;
