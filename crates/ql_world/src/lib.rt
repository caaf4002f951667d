//! What the processes of a run share, and the ticks that they take, for every kind of machine.
#![tactic(auto)]

pub mod event;
pub mod laws;
pub mod operator;
pub mod short;
#[cfg(test)]
mod tests;
pub mod text;
pub mod word;
pub mod world;
