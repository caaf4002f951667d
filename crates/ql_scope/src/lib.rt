//! The scope check: whether each name in a program stands for something, and what else the binders
//! and calls of a program must keep to.
#![tactic(auto)]

mod binder_stack;
pub mod check;
pub mod laws;
mod repeats;
pub mod scoped;
pub mod table;
mod variable;
mod walk;
