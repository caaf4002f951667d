//! Room for what a tick makes, taken before it changes anything.

ghost use Rattle.std.specs.Prelude.{◌≡◌, ◌≤◌, OnOk};
ghost use Rattle.ql_host.specs.Room.{with_room, HasRoom};

use crate::shared::Shared;
use ql_proc::process::Proc;
use std::alloc::AllocError;

/// How much a tick makes at most.
#[derive(Clone, Copy)]
pub struct Room {
    /// Pairs, boxes and closures, of each kind.
    pub cells: u64,
    pub futures: u64,
    /// Processes, and catches.
    pub tree: u64,
    /// Events, the turn and the stop of the run included.
    pub events: u64,
    /// Slots, and marks.
    pub stack: u64,
}

/// Takes room for what a tick makes.
pub fn take_room(shared: &mut Shared, proc: &mut Proc, room: Room) -> Result<(), AllocError>
    ensures shared { shared.new ≡ with_room shared.old shared.new }
    ensures proc { proc.new ≡ record proc.old { stack = record proc.old.stack { room = proc.new.stack.room } } }
    ensures room { OnOk result (HasRoom room shared.new proc.new) }
    ensures events { shared.old.history.spare ≤ shared.new.history.spare }
{
    shared.cells.reserve(room.cells)?;
    shared.futures.reserve(room.futures)?;
    shared.tree.reserve(room.tree)?;
    shared.history.reserve(room.events)?;
    proc.stack.reserve(room.stack)
}
