//! What is told of a run.

use crate::short::Short;
use ql_base::fault::RunFault;
use ql_base::limits::LimitKind;

/// Why a run stopped.
#[derive(Clone, Copy, Debug, PartialEq, Eq)]
pub enum Stop {
    /// All processes have ended.
    Done,
    /// A tick of process `proc` erred, at the form with this offset.
    Fault { kind: RunFault, proc: u32, at: u64 },
    /// A tick met a limit.
    Limit { kind: LimitKind },
    /// No process can step.
    Deadlock,
    /// All ticks of the budget were taken.
    Budget,
}

/// What a process is spawned for.
#[derive(Clone, Copy, Debug, PartialEq, Eq)]
pub enum Mode {
    /// A binding.
    Let,
    /// Calls of a process closure.
    Call(u32),
    /// The same, with a body that starts at once.
    Eager(u32),
}

/// What happens in a run: `p` and `q` are processes, `c` and `d` catches, `u` a protect, `k` a process closure and `n`
/// a call of it. A text is that of the value that is handed on. There is none where process 1 ends, and none at all
/// in a journal of version 1.
#[derive(Drop)]
pub enum Event {
    /// The process took so many ticks. The events of the last one follow.
    Turn {
        p: u32,
        n: u64,
    },
    /// The process spawned process `q`, whose home is `c`.
    Spawn {
        p: u32,
        q: u32,
        c: u32,
        mode: Mode,
    },
    /// The process opened catch `c`, which `d` encloses.
    Opened {
        p: u32,
        c: u32,
        d: u32,
    },
    /// The process left its catch.
    Exit {
        p: u32,
        c: u32,
    },
    /// The process threw to a catch.
    Throw {
        p: u32,
        c: u32,
    },
    /// The process came to the catch that was thrown to.
    Land {
        p: u32,
        c: u32,
    },
    /// For catch `c` process `q` was killed.
    Kill {
        c: u32,
        q: u32,
    },
    /// The process began a protected body.
    Protect {
        p: u32,
        u: u64,
    },
    /// The process began a cleanup.
    Begin {
        p: u32,
        u: u64,
    },
    /// The process finished a cleanup.
    Finish {
        p: u32,
        u: u64,
    },
    /// The process sent a call.
    Send {
        p: u32,
        k: u32,
        n: u64,
    },
    /// The process of a process closure took a call.
    Take {
        q: u32,
        k: u32,
        n: u64,
    },
    /// The process of a process closure answered a call.
    Reply {
        q: u32,
        k: u32,
        n: u64,
        text: Option<Short>,
    },
    /// The process ended with its value.
    EndOk {
        p: u32,
        text: Option<Short>,
    },
    /// The process was killed, and has cleaned up.
    EndKilled {
        p: u32,
    },
    /// The run stopped.
    Stopped {
        stop: Stop,
    },
}

/// A line of a journal with its turns as single ticks.
#[derive(Drop)]
pub enum Entry {
    /// A tick of this process.
    Tick(u32),
    /// An event that is no turn.
    Other(Event),
}

/// The limits that a journal tells.
#[derive(Clone, Copy, Debug, PartialEq, Eq)]
pub struct Head {
    pub budget: u64,
    pub cells: u64,
    pub procs: u64,
    pub output: u64,
}
