//! The expander: core, which is what forms mean once their sugar is expanded.
#![tactic(auto)]

pub mod assemble;
pub mod build;
pub mod core_form;
pub mod expand;
pub mod laws;
mod level;
pub mod operator;
pub mod parts;
pub mod program;
mod search;
pub mod top;
