//! The turn that worker threads take, and the one value that lies in it between two turns.
//!
//! A thread takes part by a pass. It takes the turn, which hands it the value, and gives the turn back with a value of
//! the same program whose journal goes on from there.
#![tactic(auto)]

pub mod kept;
pub mod notes;
pub mod pass;
mod plays;
mod steps;
#[cfg(test)]
mod tests;
pub mod turn;
mod view;
