//! Work, span and heaviest chain of a journal: how much was done in all, and what had to be done one after another.
#![tactic(auto)]

pub mod answer;
mod found;
mod keeper;
mod key;
pub mod laws;
mod marks;
pub mod spans;
#[cfg(test)]
mod tests;
pub mod write;
