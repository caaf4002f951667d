//! The reader: bytes, in pieces of any size, to forms and the names of their symbols.
#![tactic(auto)]

mod byte_class;
mod ending;
pub mod laws;
mod lists;
mod nesting;
mod number;
pub mod reader;
mod scan;
#[cfg(test)]
mod tests;
mod token;
