//! Numbers of things in a run, and places in a source.

/// The number of a process. The first process is 1.
#[derive(Clone, Copy, Debug, PartialEq, Eq)]
pub struct Pid(pub u32);

/// The number of a catch, in order of opening. Catch 0 is round the whole program.
#[derive(Clone, Copy, Debug, PartialEq, Eq)]
pub struct CatchId(pub u32);

/// The number of a future, from 1.
#[derive(Clone, Copy, Debug, PartialEq, Eq)]
pub struct FutId(pub u32);

/// The number of a process closure, from 1.
#[derive(Clone, Copy, Debug, PartialEq, Eq)]
pub struct CloId(pub u32);

/// A place in a source, in bytes from its first one, which stands at 0.
#[derive(Clone, Copy, Debug, PartialEq, Eq)]
pub struct Offset(pub u64);
