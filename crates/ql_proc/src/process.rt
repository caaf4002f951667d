//! A process between two of its ticks.

use crate::stack::Stack;
use ql_code::mark::State;

/// How far a process has come. Contracts see it as a `Point` of the machine, by `point_of`.
#[derive(Drop)]
pub struct Proc {
    /// The place of its next instruction.
    pub place: u32,
    pub stack: Stack,
    pub state: State,
}
