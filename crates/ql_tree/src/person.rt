//! A process, without its control.

use ql_world::world::{Aim, Kind};

/// What is kept of a process beside its control.
#[derive(Clone, Copy, Debug, PartialEq, Eq)]
pub struct Person {
    /// The innermost catch at its spawn.
    pub home: u32,
    pub kind: Kind,
    pub aim: Aim,
    pub ended: bool,
}
