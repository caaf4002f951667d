//! Programs to try `ql` on: one of any size that is generated from a number, and a table of small ones with what a run
//! of each answers.
#![tactic(auto)]

pub mod block;
pub mod generate;
pub mod laws;
#[cfg(test)]
mod tests;
pub mod vector;
