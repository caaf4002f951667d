//! The cells of a run: its pairs, boxes and closures.
#![tactic(auto)]

pub mod cells;
pub mod laws;
#[cfg(test)]
mod tests;
