//! How a call ended.

ghost use Rattle.std.specs.Prelude.{◌≡◌};
ghost use Rattle.ql_top.specs.Status.{status_of, code_of};

use ql_base::fault::RunFault;
use ql_base::limits::LimitKind;
use ql_base::numbers::Pid;
use ql_host::told::Told;
use ql_world::event::Stop;

/// How a call of the top ended.
#[derive(Clone, Copy, Debug, PartialEq, Eq)]
pub enum Status {
    /// The run stopped by done, or the command's text was written.
    Done,
    /// The source is refused by this kind, at this offset in bytes.
    Refused { kind: u8, at: u64 },
    /// The words ask for no command.
    Words,
    /// The run stopped by an error of process `proc` at this offset.
    Fault { kind: RunFault, proc: Pid, at: u64 },
    /// The run took all ticks of its budget.
    Budget,
    /// No process could step.
    Deadlock,
    /// The run met a limit.
    Limit { kind: LimitKind },
    /// Want of memory.
    NoMemory,
    /// A call of the source or of the book failed.
    ReadFault,
    /// A call of the output or of the journal failed.
    WriteFault,
    /// The book is no journal of the program: this line, from 1, is the first at which it differs from all of them.
    Differs { line: u64 },
}

/// How a call ended, and what a host told of the run, where there was one.
#[derive(Drop)]
pub struct Ended {
    pub status: Status,
    pub told: Option<Told>,
}

/// The exit code of a status.
pub fn code_of(status: &Status) -> u8
    ensures { result ≡ code_of status.now }
{
    match status {
        Status::Done => 0,
        Status::Refused { .. } => 1,
        Status::Words => 2,
        Status::Fault { .. } => 3,
        Status::Budget => 4,
        Status::Deadlock => 5,
        Status::Limit { .. } => 6,
        Status::NoMemory => 7,
        Status::ReadFault => 8,
        Status::WriteFault => 9,
        Status::Differs { .. } => 10,
    }
}

/// The status of the same name as a stop.
pub fn status_of(stop: Stop) -> Status
    ensures { result ≡ status_of stop }
{
    match stop {
        Stop::Done => Status::Done,
        Stop::Fault { kind, proc, at } => Status::Fault {
            kind,
            proc: Pid(proc),
            at,
        },
        Stop::Limit { kind } => Status::Limit { kind },
        Stop::Deadlock => Status::Deadlock,
        Stop::Budget => Status::Budget,
    }
}
