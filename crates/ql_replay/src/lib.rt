//! Whether a journal is one of a program's, and else the first line at which it differs from all of them.
#![tactic(auto)]

mod follow;
mod followed;
mod follower;
pub mod laws;
mod lines;
mod page;
pub mod replay;
mod run;
mod steps;
mod turn;
pub mod verdict;
