//! Code, and what the machine that runs it rests on.
#![tactic(auto)]

pub mod code;
pub mod laws;
pub mod listing;
pub mod mark;
#[cfg(test)]
mod tests;
