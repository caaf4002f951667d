//! The processes of a run, without their control, and its catches: who is within which catch, and what a kill does.
#![tactic(auto)]

mod catches;
pub mod laws;
pub mod person;
mod persons;
mod room;
#[cfg(test)]
mod tests;
pub mod tree;
