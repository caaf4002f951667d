//! The tick that makes a closure.

ghost use Rattle.std.specs.Prelude.{◌≡◌, ◌<◌, ◌+◌, OnOk, OnErr, length};
ghost use Rattle.ql_code.specs.declared.code.Op.TheVariants as ops;
ghost use Rattle.ql_host.specs.World.{Keeps};
ghost use Rattle.ql_host.specs.Acting.{Takes, StandsAt, IsKept};

use crate::room::{Room, take_room};
use crate::setting::Setting;
use crate::shared::Shared;
use crate::ticks::values::stop;
use ql_base::limits::LimitKind;
use ql_proc::process::Proc;
use ql_proc::settle::next_place;
use ql_tree::person::Person;
use ql_world::event::Stop;
use ql_world::world::Closure;
use std::alloc::AllocError;

/// Makes a closure, whose body is next, and goes on at another place.
pub fn close(
    s: Setting,
    shared: &mut Shared,
    proc: &mut Proc,
    p: u32,
    person: Person,
    params: u32,
    mask: u32,
    slots: &[u32],
    next: u32,
    at: u64,
) -> Result<(), AllocError>
    requires { StandsAt s p person shared.old proc.old (ops.Close params mask slots.now next) at }
    ensures takes { OnOk result (Takes s.entry p person shared.old proc.old shared.new proc.new) }
    ensures keeps { OnOk result (Keeps shared.old shared.new) }
    ensures kept { OnErr result (IsKept shared.old proc.old shared.new proc.new) }
{
    let room = Room {
        cells: 1,
        futures: 0,
        tree: 0,
        events: 2,
        stack: 1,
    };
    take_room(shared, proc, room)?;
    let captured = proc.captured(s.alloc, slots)?;
    if shared.cells.room() == 0 {
        let kind = LimitKind::Cells;
        stop(shared, p, Stop::Limit { kind });
        return Ok(());
    }
    let made = Closure {
        place: next_place(s.code, proc.place),
        count: params,
        mask,
        captured,
    };
    let w = shared.cells.put_closure(made);
    proc.push_at(s.code, next, w);
    shared.history.tick(p);
    Ok(())
}
