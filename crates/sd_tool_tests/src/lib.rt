//! Tests of the top call where its devices fail and where workers do it, in a crate of their own so that `sd_tool` is proved without them.
#![tactic(auto)]

#[cfg(test)]
mod call;
#[cfg(test)]
mod delayed;
#[cfg(test)]
mod delays;
#[cfg(test)]
mod devices;
#[cfg(test)]
mod sources;
#[cfg(test)]
mod workers;
