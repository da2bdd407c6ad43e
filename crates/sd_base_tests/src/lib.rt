//! Tests of lists, numbers, points, ranges, subsets, shelves, sinks and gates, in a crate of their own so that the crates at the base are
//! proved without them. What the program shows of them stands in the tables of `tools/calls`.
#![tactic(auto)]

#[cfg(test)]
mod gates;
#[cfg(test)]
mod lists;
#[cfg(test)]
mod numbers;
#[cfg(test)]
mod points;
#[cfg(test)]
mod ranges;
#[cfg(test)]
mod shelves;
#[cfg(test)]
mod sinks;
#[cfg(test)]
mod subsets;
#[cfg(test)]
mod sure;
