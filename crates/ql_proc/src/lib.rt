//! A process: its place in the code, its stack, and the moves that a host makes on it.
#![tactic(auto)]

mod ahead;
mod cuts;
pub mod frames;
mod inside;
mod land;
pub mod local;
pub mod looks;
pub mod makers;
mod marks;
pub mod moves;
pub mod next;
pub mod process;
pub mod settle;
mod slots;
pub mod stack;
#[cfg(test)]
mod tests;
mod upper;
pub mod window;
