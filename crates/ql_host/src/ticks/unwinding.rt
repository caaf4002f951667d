//! Ticks of a process that unwinds.

ghost use Rattle.std.specs.Prelude.{◌≡◌, ◌≤◌, Some, None, OnOk, OnErr, length};
ghost use Rattle.ql_world.specs.Idle.{acting};
ghost use Rattle.ql_world.specs.Tick as ticks;
ghost use Rattle.ql_code.specs.declared.mark.Mark.TheVariants.{Catching as catching, Protecting as protecting, Base as base};
ghost use Rattle.ql_code.specs.Machine.{cleanups_on};
ghost use Rattle.ql_proc.specs.Looks.{mark_on};
ghost use Rattle.ql_host.specs.World.{Keeps};
ghost use Rattle.ql_host.specs.Acting.{Takes, IsKept};
ghost use Rattle.ql_host.specs.Unwinding as unwound;
ghost use Rattle.ql_host.specs.Unwinding.{Unwinds};

use crate::room::{Room, take_room};
use crate::setting::Setting;
use crate::shared::Shared;
use crate::ticks::marks::newest_catch;
use ql_code::mark::Mark;
use ql_proc::process::Proc;
use ql_tree::person::Person;
use ql_tree::tree::Tree;
use ql_world::event::Event;
use ql_world::word::Word;
use ql_world::world::Aim;
use std::alloc::AllocError;

/// Begins the cleanup of the protect on top.
pub fn begin_unwinding(
    s: Setting,
    shared: &mut Shared,
    proc: &mut Proc,
    p: u32,
    person: Person,
    u: u64,
    place: u32,
) -> Result<(), AllocError>
    requires here { Unwinds s person shared.old proc.old }
    requires top { mark_on proc.old.stack.items ≡ Some (protecting u place) }
    ensures takes { OnOk result (Takes s.entry p person shared.old proc.old shared.new proc.new) }
    ensures keeps { OnOk result (Keeps shared.old shared.new) }
    ensures kept { OnErr result (IsKept shared.old proc.old shared.new proc.new) }
{
    let room = Room {
        cells: 0,
        futures: 0,
        tree: 0,
        events: 3,
        stack: 1,
    };
    take_room(shared, proc, room)?;
    proc.begin_unwinding(s.code, u, place, newest_catch(&shared.tree));
    shared.history.tick(p);
    shared.history.tell(Event::Begin { p, u });
    Ok(())
}

/// Leaves the catch on top: lands at it where its process leaves for this one, and goes on at the place. Otherwise
/// unwinds on.
pub fn unwind_catch(
    s: Setting,
    shared: &mut Shared,
    proc: &mut Proc,
    p: u32,
    person: Person,
    c: u32,
    place: u32,
) -> Result<(), AllocError>
    requires here { Unwinds s person shared.old proc.old }
    requires top { mark_on proc.old.stack.items ≡ Some (catching c place) }
    ensures takes { OnOk result (Takes s.entry p person shared.old proc.old shared.new proc.new) }
    ensures keeps { OnOk result (Keeps shared.old shared.new) }
    ensures kept { OnErr result (IsKept shared.old proc.old shared.new proc.new) }
{
    match landing(acting_aim(proc, person), c) {
        Some(w) => land(s, shared, proc, p, person, c, place, w),
        None => pass(s, shared, proc, p, person, c, place),
    }
}

/// Lands at the catch on top with this word.
fn land(
    s: Setting,
    shared: &mut Shared,
    proc: &mut Proc,
    p: u32,
    person: Person,
    c: u32,
    place: u32,
    w: Word,
) -> Result<(), AllocError>
    requires here { Unwinds s person shared.old proc.old }
    requires top { mark_on proc.old.stack.items ≡ Some (catching c place) }
    requires aim { ticks.landing (acting (cleanups_on proc.old.stack.items) person.aim) c ≡ Some w }
    ensures takes { OnOk result (Takes s.entry p person shared.old proc.old shared.new proc.new) }
    ensures keeps { OnOk result (Keeps shared.old shared.new) }
    ensures kept { OnErr result (IsKept shared.old proc.old shared.new proc.new) }
{
    let room = Room {
        cells: 0,
        futures: 0,
        tree: 0,
        events: 3,
        stack: 1,
    };
    take_room(shared, proc, room)?;
    close_landed(&mut shared.tree, p, c, proc.is_in_cleanup());
    proc.land(s.code, place, w);
    shared.history.tick(p);
    shared.history.tell(Event::Land { p, c });
    Ok(())
}

/// Leaves the catch on top, and unwinds on.
fn pass(
    s: Setting,
    shared: &mut Shared,
    proc: &mut Proc,
    p: u32,
    person: Person,
    c: u32,
    place: u32,
) -> Result<(), AllocError>
    requires here { Unwinds s person shared.old proc.old }
    requires top { mark_on proc.old.stack.items ≡ Some (catching c place) }
    requires aim { ticks.landing (acting (cleanups_on proc.old.stack.items) person.aim) c ≡ None }
    ensures takes { OnOk result (Takes s.entry p person shared.old proc.old shared.new proc.new) }
    ensures keeps { OnOk result (Keeps shared.old shared.new) }
    ensures kept { OnErr result (IsKept shared.old proc.old shared.new proc.new) }
{
    let room = Room {
        cells: 0,
        futures: 0,
        tree: 0,
        events: 2,
        stack: 0,
    };
    take_room(shared, proc, room)?;
    shared.tree.leave(c);
    proc.leave();
    shared.history.tick(p);
    Ok(())
}

/// Ends a process that has unwound.
#[tactic(auto, using(crate::proofs::Counts::no_fewer))]
pub fn end_unwinding(
    s: Setting,
    shared: &mut Shared,
    proc: &mut Proc,
    p: u32,
    person: Person,
    join: Option<u32>,
) -> Result<(), AllocError>
    requires here { Unwinds s person shared.old proc.old }
    requires top { mark_on proc.old.stack.items ≡ Some (base join) }
    ensures takes { OnOk result (Takes s.entry p person shared.old proc.old shared.new proc.new) }
    ensures keeps { OnOk result (Keeps shared.old shared.new) }
    ensures kept { OnErr result (IsKept shared.old proc.old shared.new proc.new) }
{
    let room = Room {
        cells: 0,
        futures: 0,
        tree: 0,
        events: 3,
        stack: 0,
    };
    take_room(shared, proc, room)?;
    shared.tree.set_ended(p);
    proc.end();
    shared.history.tick(p);
    shared.history.tell(Event::EndKilled { p });
    Ok(())
}

/// What a process leaves for.
fn acting_aim(proc: &Proc, person: Person) -> Aim
    ensures { result ≡ acting (cleanups_on proc.now.stack.items) person.aim }
{
    match proc.cleanup() {
        Some(cleanup) => cleanup.aim,
        None => person.aim,
    }
}

/// The word that is thrown to this catch.
fn landing(aim: Aim, c: u32) -> Option<Word>
    ensures { result ≡ ticks.landing aim c }
{
    match aim {
        Aim::To(d, w) if d == c => Some(w),
        _ => None,
    }
}

/// Closes a catch at which a process lands. Where it runs no cleanup, it leaves for nothing any more.
#[tactic(auto, using(crate::proofs::Counts::no_fewer))]
fn close_landed(tree: &mut Tree, p: u32, c: u32, cleans: bool)
    ensures landed { tree.new ≡ unwound.landed p c cleans tree.old }
    ensures persons { length tree.old.persons ≤ length tree.new.persons }
{
    tree.leave(c);
    if !cleans {
        tree.aim_at(p, Aim::Free);
    }
}
