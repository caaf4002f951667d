//! What the processes of a run share.

use crate::word::{Slot, Word};
use sqlite_items::Items;

/// The state of a future.
#[derive(Clone, Copy, Debug, PartialEq, Eq)]
pub enum FutState {
    /// It has no value yet.
    Pending,
    /// It has this value, which is never a future.
    Value(Word),
    /// Its process was killed.
    Dead,
}

/// What a process is leaving for.
#[derive(Clone, Copy, Debug, PartialEq, Eq)]
pub enum Aim {
    /// Nothing.
    Free,
    /// The catch with this number, with a word thrown to it.
    To(u32, Word),
    /// Its end.
    Die,
}

/// A catch.
#[derive(Clone, Copy, Debug, PartialEq, Eq)]
pub struct Catch {
    /// The process that opened it.
    pub owner: u32,
    /// Catch 0 alone has none.
    pub tag: Option<Word>,
    /// The catch around it.
    pub enclosing: u32,
    /// It is left only when nobody within it is at work.
    pub waits: bool,
    pub open_still: bool,
}

/// What a process is for.
#[derive(Clone, Copy, Debug, PartialEq, Eq)]
pub enum Kind {
    /// Process 1.
    Main,
    /// It gives this future its value.
    Child(u32),
    /// It serves this process closure.
    Closure(u32),
}

/// A closure.
#[derive(Debug, Drop)]
pub struct Closure {
    /// The place at which its body begins.
    pub place: u32,
    /// How many parameters it has.
    pub count: u32,
    /// Which of them are stored.
    pub mask: u32,
    /// The slots that it has captured.
    pub captured: Items<Slot>,
}

/// A running cleanup.
#[derive(Clone, Copy, Debug, PartialEq, Eq)]
pub struct Cleanup {
    /// What its process is leaving for since it began.
    pub aim: Aim,
    /// The greatest number of a catch at that time.
    pub floor: u32,
}

/// A process. P is its control and its frames.
#[derive(Drop)]
pub struct Process<P> {
    /// The innermost catch at its spawn.
    pub home: u32,
    pub kind: Kind,
    pub aim: Aim,
    pub thread: P,
    pub ended: bool,
}
