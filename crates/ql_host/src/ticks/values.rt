//! Ticks on words, cells and output.

ghost use Rattle.std.specs.Prelude.{◌≡◌, ◌<◌, ◌≤◌, ◌+◌, ◌^◌, OnOk, OnErr, None, Some, List, MatchOption, if◌then◌else◌, slice_get};
ghost use Rattle.ql_world.specs.Word.{is_nil};
ghost use Rattle.ql_world.specs.World.{change, counted, marked};
ghost use Rattle.ql_world.specs.Machine.{held as place_held, box as place_box};
ghost use Rattle.ql_code.specs.declared.code.Op.TheVariants as ops;
ghost use Rattle.ql_code.specs.Code.{Instruction};
ghost use Rattle.ql_code.specs.Machine.{Point, held_word, place_of_slot};
ghost use Rattle.ql_host.specs.Awaited.{awaited};
ghost use Rattle.ql_host.specs.World.{world_of, Keeps};
ghost use Rattle.ql_host.specs.Acting.{Takes, StandsAt, IsKept};

use crate::room::{Room, take_room};
use crate::setting::Setting;
use crate::shared::Shared;
use ql_base::fault::RunFault;
use ql_proc::process::Proc;
use ql_proc::settle::next_place;
use ql_tree::person::Person;
use ql_world::event::Stop;
use ql_world::word::{Slot, Word};
use std::alloc::AllocError;

/// A tick that errs or meets a limit: it is counted, and changes nothing else.
pub fn stop(shared: &mut Shared, p: u32, why: Stop)
    requires room { 0 < shared.old.history.spare }
    requires small { shared.old.history.ticks < 2 ^ 63 }
    ensures same { shared.new ≡ record shared.old { history = shared.new.history; mark = Some why } }
    ensures spare { shared.old.history.spare ≤ shared.new.history.spare + 1 }
    ensures head { shared.new.history.head ≡ shared.old.history.head }
    ensures ticks { shared.new.history.ticks ≡ shared.old.history.ticks + 1 }
    ensures marked { (threads : List Point) → world_of shared.new threads ≡ marked (counted (world_of shared.old threads) p) why }
{
    shared.history.tick(p);
    shared.mark = Some(why);
}

/// Pushes a word.
pub fn lit(
    s: Setting,
    shared: &mut Shared,
    proc: &mut Proc,
    p: u32,
    person: Person,
    w: Word,
    at: u64,
) -> Result<(), AllocError>
    requires { StandsAt s p person shared.old proc.old (ops.Lit w) at }
    ensures takes { OnOk result (Takes s.entry p person shared.old proc.old shared.new proc.new) }
    ensures keeps { OnOk result (Keeps shared.old shared.new) }
    ensures kept { OnErr result (IsKept shared.old proc.old shared.new proc.new) }
{
    let room = Room {
        cells: 0,
        futures: 0,
        tree: 0,
        events: 2,
        stack: 1,
    };
    take_room(shared, proc, room)?;
    proc.push_word(s.code, w);
    shared.history.tick(p);
    Ok(())
}

/// Pushes the word in a slot.
pub fn local(
    s: Setting,
    shared: &mut Shared,
    proc: &mut Proc,
    p: u32,
    person: Person,
    slot: u32,
    at: u64,
) -> Result<(), AllocError>
    requires { StandsAt s p person shared.old proc.old (ops.Local slot) at }
    ensures takes { OnOk result (Takes s.entry p person shared.old proc.old shared.new proc.new) }
    ensures keeps { OnOk result (Keeps shared.old shared.new) }
    ensures kept { OnErr result (IsKept shared.old proc.old shared.new proc.new) }
{
    let room = Room {
        cells: 0,
        futures: 0,
        tree: 0,
        events: 2,
        stack: 1,
    };
    take_room(shared, proc, room)?;
    let w = held(proc.local(slot));
    proc.push_word(s.code, w);
    shared.history.tick(p);
    Ok(())
}

/// The word that a slot holds itself, nil where there is none.
fn held(slot: Option<Slot>) -> Word
    ensures { (code : List Instruction) → result ≡ held_word code slot }
{
    match slot {
        Some(Slot::Val(w)) => w,
        _ => Word::Sym(0),
    }
}

/// Pushes the word in the box of a slot. Where the slot has no box, which sound code rules out, the process ends.
pub fn box_get(
    s: Setting,
    shared: &mut Shared,
    proc: &mut Proc,
    p: u32,
    person: Person,
    slot: u32,
    at: u64,
) -> Result<(), AllocError>
    requires { StandsAt s p person shared.old proc.old (ops.BoxGet slot) at }
    ensures takes { OnOk result (Takes s.entry p person shared.old proc.old shared.new proc.new) }
    ensures keeps { OnOk result (Keeps shared.old shared.new) }
    ensures kept { OnErr result (IsKept shared.old proc.old shared.new proc.new) }
{
    let room = Room {
        cells: 0,
        futures: 0,
        tree: 0,
        events: 2,
        stack: 1,
    };
    take_room(shared, proc, room)?;
    let Some(b) = box_of(proc.local(slot)) else {
        proc.end();
        shared.history.tick(p);
        return Ok(());
    };
    let Some(w) = shared.cells.get_box(b) else {
        // No: the boxes of slots are there.
        return Ok(());
    };
    proc.push_word(s.code, w);
    shared.history.tick(p);
    Ok(())
}

/// The box of a slot.
fn box_of(slot: Option<Slot>) -> Option<u32>
    ensures { MatchOption result (place_of_slot slot ≡ place_held) (λ b. place_of_slot slot ≡ place_box b) }
{
    match slot {
        Some(Slot::Cell(b)) => Some(b),
        _ => None,
    }
}

/// Puts the top word into the box of a slot.
pub fn box_set(
    s: Setting,
    shared: &mut Shared,
    proc: &mut Proc,
    p: u32,
    person: Person,
    slot: u32,
    at: u64,
) -> Result<(), AllocError>
    requires { StandsAt s p person shared.old proc.old (ops.BoxSet slot) at }
    ensures takes { OnOk result (Takes s.entry p person shared.old proc.old shared.new proc.new) }
    ensures keeps { OnOk result (Keeps shared.old shared.new) }
    ensures kept { OnErr result (IsKept shared.old proc.old shared.new proc.new) }
{
    let room = Room {
        cells: 0,
        futures: 0,
        tree: 0,
        events: 2,
        stack: 0,
    };
    take_room(shared, proc, room)?;
    let Some(w) = proc.top_word() else {
        // No: the operands of an instruction are there.
        return Ok(());
    };
    let Some(b) = box_of(proc.local(slot)) else {
        // No: what is stored has a box.
        return Ok(());
    };
    shared.cells.set_box(b, w);
    proc.pass_on(s.code);
    shared.history.tick(p);
    Ok(())
}

/// Reads a global.
pub fn global_get(
    s: Setting,
    shared: &mut Shared,
    proc: &mut Proc,
    p: u32,
    person: Person,
    global: u32,
    at: u64,
) -> Result<(), AllocError>
    requires { StandsAt s p person shared.old proc.old (ops.GlobalGet global) at }
    ensures takes { OnOk result (Takes s.entry p person shared.old proc.old shared.new proc.new) }
    ensures keeps { OnOk result (Keeps shared.old shared.new) }
    ensures kept { OnErr result (IsKept shared.old proc.old shared.new proc.new) }
{
    let room = Room {
        cells: 0,
        futures: 0,
        tree: 0,
        events: 2,
        stack: 1,
    };
    take_room(shared, proc, room)?;
    let Some(held) = word_at(&shared.globals, global as usize) else {
        return Ok(());
    };
    let Some(w) = held else {
        stop(
            shared,
            p,
            Stop::Fault {
                kind: RunFault::Unbound,
                proc: p,
                at,
            },
        );
        return Ok(());
    };
    proc.push_word(s.code, w);
    shared.history.tick(p);
    Ok(())
}

fn word_at(globals: &[Option<Word>], at: usize) -> Option<Option<Word>>
    ensures { result ≡ slice_get globals.now at }
{
    globals.get(at).copied()
}

/// Gives the top word to a global.
pub fn global_set(
    s: Setting,
    shared: &mut Shared,
    proc: &mut Proc,
    p: u32,
    person: Person,
    global: u32,
    at: u64,
) -> Result<(), AllocError>
    requires { StandsAt s p person shared.old proc.old (ops.GlobalSet global) at }
    ensures takes { OnOk result (Takes s.entry p person shared.old proc.old shared.new proc.new) }
    ensures keeps { OnOk result (Keeps shared.old shared.new) }
    ensures kept { OnErr result (IsKept shared.old proc.old shared.new proc.new) }
{
    let room = Room {
        cells: 0,
        futures: 0,
        tree: 0,
        events: 2,
        stack: 0,
    };
    take_room(shared, proc, room)?;
    let Some(w) = proc.top_word() else {
        // No: the operands of an instruction are there.
        return Ok(());
    };
    put_global(&mut shared.globals, global as usize, w);
    proc.pass_on(s.code);
    shared.history.tick(p);
    Ok(())
}

fn put_global(globals: &mut Vec<Option<Word>>, at: usize, w: Word)
    ensures { globals.new.items ≡ change (λ y. Some w) globals.old.items at }
{
    if at < globals.len() {
        globals[at] = Some(w);
    }
}

/// Takes a word, and goes to a place where it is nil.
pub fn branch(
    s: Setting,
    shared: &mut Shared,
    proc: &mut Proc,
    p: u32,
    person: Person,
    place: u32,
    at: u64,
) -> Result<(), AllocError>
    requires here { StandsAt s p person shared.old proc.old (ops.Branch place) at }
    requires calm { awaited (ops.Branch place) proc.old.stack.items ≡ None }
    ensures takes { OnOk result (Takes s.entry p person shared.old proc.old shared.new proc.new) }
    ensures keeps { OnOk result (Keeps shared.old shared.new) }
    ensures kept { OnErr result (IsKept shared.old proc.old shared.new proc.new) }
{
    let room = Room {
        cells: 0,
        futures: 0,
        tree: 0,
        events: 2,
        stack: 0,
    };
    take_room(shared, proc, room)?;
    let Some(w) = proc.top_word() else {
        // No: the operands of an instruction are there.
        return Ok(());
    };
    let next = next_place(s.code, proc.place);
    proc.drop_to(s.code, way(w, place, next));
    shared.history.tick(p);
    Ok(())
}

/// The first place for nil, and the second for all else.
fn way(w: Word, place: u32, next: u32) -> u32
    ensures { result ≡ (if is_nil w then place else next) }
{
    if w.is_nil() { place } else { next }
}
