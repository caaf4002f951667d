//! Ticks on catches and protects.

ghost use Rattle.std.specs.Prelude.{◌≡◌, pred, length, None, OnOk, OnErr, drop as without_first};
ghost use Rattle.ql_world.specs.Idle.{acting};
ghost use Rattle.ql_code.specs.declared.code.Op.TheVariants as ops;
ghost use Rattle.ql_code.specs.Machine.{cleanups_on};
ghost use Rattle.ql_host.specs.Awaited.{awaited};
ghost use Rattle.ql_host.specs.Marked.{catch_op};
ghost use Rattle.ql_host.specs.World.{Keeps};
ghost use Rattle.ql_host.specs.Acting.{Takes, StandsAt, IsKept};

use crate::room::{Room, take_room};
use crate::setting::Setting;
use crate::shared::Shared;
use ql_code::mark::Mark;
use ql_proc::process::Proc;
use ql_tree::person::Person;
use ql_tree::tree::Tree;
use ql_world::event::Event;
use ql_world::world::Aim;
use std::alloc::AllocError;

/// Opens a catch, or one that waits. Its tag is the topmost word, and a landing goes on at the place.
pub fn open(
    s: Setting,
    shared: &mut Shared,
    proc: &mut Proc,
    p: u32,
    person: Person,
    waits: bool,
    place: u32,
    at: u64,
) -> Result<(), AllocError>
    requires here { StandsAt s p person shared.old proc.old (catch_op waits place) at }
    requires calm { awaited (catch_op waits place) proc.old.stack.items ≡ None }
    ensures takes { OnOk result (Takes s.entry p person shared.old proc.old shared.new proc.new) }
    ensures keeps { OnOk result (Keeps shared.old shared.new) }
    ensures kept { OnErr result (IsKept shared.old proc.old shared.new proc.new) }
{
    let room = Room {
        cells: 0,
        futures: 0,
        tree: 1,
        events: 3,
        stack: 1,
    };
    take_room(shared, proc, room)?;
    let Some(tag) = proc.top_word() else {
        return Ok(());
    };
    let d = proc.innermost().unwrap_or(person.home);
    let c = shared.tree.open(p, tag, d, waits);
    proc.open(s.code, c, place);
    shared.history.tick(p);
    shared.history.tell(Event::Opened { p, c, d });
    Ok(())
}

/// Begins a protected body, whose cleanup begins at the place.
pub fn protect(
    s: Setting,
    shared: &mut Shared,
    proc: &mut Proc,
    p: u32,
    person: Person,
    place: u32,
    at: u64,
) -> Result<(), AllocError>
    requires { StandsAt s p person shared.old proc.old (ops.Protect place) at }
    ensures takes { OnOk result (Takes s.entry p person shared.old proc.old shared.new proc.new) }
    ensures keeps { OnOk result (Keeps shared.old shared.new) }
    ensures kept { OnErr result (IsKept shared.old proc.old shared.new proc.new) }
{
    let room = Room {
        cells: 0,
        futures: 0,
        tree: 0,
        events: 3,
        stack: 1,
    };
    take_room(shared, proc, room)?;
    let u = shared.protects + 1;
    shared.protects = u;
    proc.protect(s.code, u, place);
    shared.history.tick(p);
    shared.history.tell(Event::Protect { p, u });
    Ok(())
}

/// Ends a protected body with the topmost word, and begins its cleanup.
pub fn leave(
    s: Setting,
    shared: &mut Shared,
    proc: &mut Proc,
    p: u32,
    person: Person,
    at: u64,
) -> Result<(), AllocError>
    requires { StandsAt s p person shared.old proc.old ops.Leave at }
    ensures takes { OnOk result (Takes s.entry p person shared.old proc.old shared.new proc.new) }
    ensures keeps { OnOk result (Keeps shared.old shared.new) }
    ensures kept { OnErr result (IsKept shared.old proc.old shared.new proc.new) }
{
    let room = Room {
        cells: 0,
        futures: 0,
        tree: 0,
        events: 3,
        stack: 0,
    };
    take_room(shared, proc, room)?;
    let Some(Mark::Protecting(u, _)) = proc.mark_under_slot() else {
        return Ok(());
    };
    proc.begin(s.code, u, newest_catch(&shared.tree));
    shared.history.tick(p);
    shared.history.tell(Event::Begin { p, u });
    Ok(())
}

/// Ends a cleanup: goes on, or unwinds if its process leaves for something.
pub fn end_clean(
    s: Setting,
    shared: &mut Shared,
    proc: &mut Proc,
    p: u32,
    person: Person,
    at: u64,
) -> Result<(), AllocError>
    requires { StandsAt s p person shared.old proc.old ops.EndClean at }
    ensures takes { OnOk result (Takes s.entry p person shared.old proc.old shared.new proc.new) }
    ensures keeps { OnOk result (Keeps shared.old shared.new) }
    ensures kept { OnErr result (IsKept shared.old proc.old shared.new proc.new) }
{
    let room = Room {
        cells: 0,
        futures: 0,
        tree: 0,
        events: 3,
        stack: 0,
    };
    take_room(shared, proc, room)?;
    let Some(Mark::Cleaning(u, _)) = proc.mark_under_slot() else {
        return Ok(());
    };
    match outer_aim(proc, person) {
        Aim::Free => proc.finish(s.code),
        _ => proc.finish_unwinding(),
    }
    shared.history.tick(p);
    shared.history.tell(Event::Finish { p, u });
    Ok(())
}

/// What a process leaves for, but for its innermost cleanup.
fn outer_aim(proc: &Proc, person: Person) -> Aim
    ensures { result ≡ acting (without_first 1 (cleanups_on proc.now.stack.items)) person.aim }
{
    match proc.outer_cleanup() {
        Some(cleanup) => cleanup.aim,
        None => person.aim,
    }
}

/// The greatest number of a catch.
pub(crate) fn newest_catch(tree: &Tree) -> u32
    ensures { result ≡ pred (length tree.now.catches) }
{
    tree.catch_count().saturating_sub(1)
}
