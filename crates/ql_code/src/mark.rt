//! What stands between the slots of a stack, and how a process stands to its code.

use ql_world::world::Cleanup;

/// What stands between slots. A place is one of the code.
#[derive(Clone, Copy, Debug, PartialEq, Eq)]
pub enum Mark {
    /// Where a call goes on.
    Returning(u32),
    /// A catch, and where a landing goes on.
    Catching(u32, u32),
    /// A protect, and where an unwinding goes on.
    Protecting(u64, u32),
    /// A running cleanup of this protect. The protected value stands under it.
    Cleaning(u64, Cleanup),
    /// The bottom, and where a child has its own `join`.
    Base(Option<u32>),
}

/// How a process stands to its code.
#[derive(Clone, Copy, Debug, PartialEq, Eq)]
pub enum State {
    /// It is at an instruction.
    Running,
    /// It leaves its frames.
    Unwinding,
    /// It waits for a call.
    Resting,
    /// It has ended.
    Over,
}
