//! Tests of what no command shows of a source, but a call does: its tokens, and numbers of its lines that no graph has. All else
//! that a source says is told by tables (`docs/TESTS.md`).
#![tactic(auto)]

#[cfg(test)]
mod lines;
#[cfg(test)]
mod sure;
#[cfg(test)]
mod tokens;
