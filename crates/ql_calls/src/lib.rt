//! The process closures of a run, and the calls that wait for them.
#![tactic(auto)]

pub mod calls;
mod room;
pub mod server;
#[cfg(test)]
mod tests;
