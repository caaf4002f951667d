//! Forms: what a source spells, and the one text that spells a form again.
#![tactic(auto)]

pub mod form;
pub mod laws;
#[cfg(test)]
mod tests;
pub mod text;
pub mod write;
