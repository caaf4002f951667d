//! The top call: words, a source and a book go in; output, a journal and a status come out.
#![tactic(auto)]

pub mod accept;
pub mod book;
pub mod command_line;
pub mod error_line;
pub mod laws;
pub mod reading;
pub mod replay;
pub mod show;
pub mod span;
pub mod status;
pub mod summary;
pub mod texts;
pub mod top;
pub mod words;
pub mod worker;
pub mod writing;
