//! The futures of a run, with the state of each.
#![tactic(auto)]

pub mod futures;
#[cfg(test)]
mod tests;
