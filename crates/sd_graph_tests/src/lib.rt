//! Tests of graphs that no source has: their loops, their memories, their validity, and what their leaves do. They are in a
//! crate of their own so that the crates of graphs are proved without them.
#![tactic(auto)]

#[cfg(test)]
mod cases;
#[cfg(test)]
mod graphs;
#[cfg(test)]
mod leaves;
#[cfg(test)]
mod loops;
#[cfg(test)]
mod memories;
#[cfg(test)]
mod sure;
#[cfg(test)]
mod validity;
#[cfg(test)]
mod written;
