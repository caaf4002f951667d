//! What a program means: control and frames over its core.
#![tactic(auto)]

pub mod laws;
