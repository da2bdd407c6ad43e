//! Tests of the rewrites of maps: that the calls answer, and what, on chains of maps.
#![tactic(auto)]

#[cfg(test)]
mod chains;
#[cfg(test)]
mod rewrites;
#[cfg(test)]
mod tiles;
#[cfg(test)]
mod written;
