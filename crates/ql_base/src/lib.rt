//! What every other crate speaks of: numbers of processes and places in a text, the limits of a
//! run, its faults, names, and the outside as two traits, with the ends that implement them.
#![tactic(auto)]

pub mod fault;
pub mod laws;
pub mod limits;
pub mod memory;
pub mod names;
pub mod numbers;
pub mod outside;
pub mod refusal;
pub mod reserved;
pub mod standard;
pub mod sure;
