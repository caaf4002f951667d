//! The compiler: the code of a program, and what its runs tell.
#![tactic(auto)]

mod captured;
pub mod compile;
mod emit;
mod frame;
mod free;
pub mod laws;
mod lookup;
mod measure;
mod names;
mod number;
mod output;
mod quotes;
mod table;
