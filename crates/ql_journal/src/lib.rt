//! The journal of a run: its events as they come, its text in both versions, and the reader of that text.
#![tactic(auto)]

pub mod journal;
pub mod laws;
mod line;
pub mod order;
pub mod read;
#[cfg(test)]
mod tests;
pub mod turns;
mod words;
pub mod write;
