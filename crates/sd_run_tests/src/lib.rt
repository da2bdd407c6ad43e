//! Tests of what runs stand on, where no command shows it: the size of an instruction, flat code that reads an array, the
//! memories of a run, maps whose points are ordered, pieces of a map, runs by workers on threads, containers of 32 bits, transitions one by
//! one, and that fast ways are taken. They are in a crate of their own so that the crates of runs are proved without them.
#![tactic(auto)]

#[cfg(test)]
mod building;
#[cfg(test)]
mod crews;
#[cfg(test)]
mod fast_ways;
#[cfg(test)]
mod flat_code;
#[cfg(test)]
mod instructions;
#[cfg(test)]
mod machines;
#[cfg(test)]
mod neighbours;
#[cfg(test)]
mod pieces;
#[cfg(test)]
mod sources;
#[cfg(test)]
mod sure;
#[cfg(test)]
mod transitions;
#[cfg(test)]
mod widths;
