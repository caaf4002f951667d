//! The tick that makes a process closure.

ghost use Rattle.std.specs.Prelude.{◌≡◌, ◌<◌, ◌≤◌, ◌+◌, ◌++◌, ◌∷◌, [], ◌||◌, suc, true, false, if◌then◌else◌, map, length, IfOk, OnOk, OnErr, Some, None, List, slice_get};
ghost use Rattle.ql_world.specs.Word.{is_nil, is_eager};
ghost use Rattle.ql_world.specs.declared.event.Mode.TheVariants.{Call as called, Eager as begun_at_once};
ghost use Rattle.ql_world.specs.Tick.{with_server_made};
ghost use Rattle.ql_world.specs.Idle.{in_cleanup};
ghost use Rattle.ql_code.specs.declared.code.Op.TheVariants as ops;
ghost use Rattle.ql_code.specs.Machine.{Point, words, frame_of, slots_at, cleanups_on};
ghost use Rattle.ql_proc.specs.declared.process.Proc.{Proc};
ghost use Rattle.ql_host.specs.Awaited.{awaited};
ghost use Rattle.ql_host.specs.Room.{with_room};
ghost use Rattle.ql_host.specs.World.{world_of, Keeps};
ghost use Rattle.ql_host.specs.Acting.{TakesAll, StandsAt, IsKept};
ghost use Rattle.ql_host.specs.Making.{Makes, StandsAmong, AreKept, Grows};

use crate::room::{Room, take_room};
use crate::setting::Setting;
use crate::shared::Shared;
use crate::ticks::making::take_in;
use crate::ticks::spawns::{around, is_eager};
use crate::ticks::values::stop;
use crate::turns::{next_turn, put_turn};
use ql_base::limits::LimitKind;
use ql_calls::calls::Calls;
use ql_proc::process::Proc;
use ql_proc::settle::next_place;
use ql_tree::person::Person;
use ql_world::event::{Event, Mode, Stop};
use ql_world::word::Word;
use ql_world::world::{Closure, Kind};
use std::alloc::{AllocError, Global};

/// Makes a process closure, whose body is next, and its process, and goes on at another place. Where the proposition is
/// nil or a cleanup runs it makes a closure.
pub fn qlambda(
    s: Setting,
    shared: &mut Shared,
    procs: &mut Vec<Proc>,
    i: usize,
    p: u32,
    person: Person,
    params: u32,
    mask: u32,
    slots: &[u32],
    next: u32,
    at: u64,
) -> Result<(), AllocError>
    requires number { p ≡ suc i }
    requires there { i < length procs.old.items }
    requires stands { StandsAmong s p person shared.old procs.old.items (ops.Qlambda params mask slots.now next) at }
    requires calm { (t : Proc) → slice_get procs.old.items i ≡ Some t → awaited (ops.Qlambda params mask slots.now next) t.stack.items ≡ None }
    ensures takes { OnOk result (TakesAll s.entry p person shared.old procs.old.items shared.new procs.new.items) }
    ensures long { OnOk result (length procs.old.items ≡ length shared.old.tree.persons → length procs.new.items ≡ length shared.new.tree.persons) }
    ensures keeps { OnOk result (Keeps shared.old shared.new) }
    ensures kept { OnErr result (AreKept shared.old procs.old.items shared.new procs.new.items) }
{
    procs.reserve(1)?;
    let made = qlambda_of(
        s,
        shared,
        &mut procs[i],
        p,
        person,
        params,
        mask,
        slots,
        next,
        at,
    )?;
    take_in(procs, made);
    Ok(())
}

/// The same of one process. What is given is the new one.
fn qlambda_of(
    s: Setting,
    shared: &mut Shared,
    proc: &mut Proc,
    p: u32,
    person: Person,
    params: u32,
    mask: u32,
    slots: &[u32],
    next: u32,
    at: u64,
) -> Result<Vec<Proc>, AllocError>
    requires stands { StandsAt s p person shared.old proc.old (ops.Qlambda params mask slots.now next) at }
    requires calm { awaited (ops.Qlambda params mask slots.now next) proc.old.stack.items ≡ None }
    ensures makes { IfOk result (λ made. Makes s.entry p person shared.old proc.old shared.new proc.new made.items) }
    ensures long { IfOk result (λ made. length shared.new.tree.persons ≡ length shared.old.tree.persons + length made.items) }
    ensures few { IfOk result (λ made. length made.items ≤ 1) }
    ensures keeps { OnOk result (Keeps shared.old shared.new) }
    ensures kept { OnErr result (IsKept shared.old proc.old shared.new proc.new) }
{
    let Some(x) = proc.top_word() else {
        // No: the operand of an instruction is there.
        return Ok(Vec::new(s.alloc));
    };
    if x.is_nil() || proc.is_in_cleanup() {
        closure(s, shared, proc, p, person, x, params, mask, slots, next, at)?;
        return Ok(Vec::new(s.alloc));
    }
    if shared.tree.count() as u64 + 1 > s.limits.procs {
        too_many(s, shared, proc, p, person, x, params, mask, slots, next, at)?;
        return Ok(Vec::new(s.alloc));
    }
    if is_eager(x) {
        return eager(s, shared, proc, p, person, x, params, mask, slots, next, at);
    }
    plain(s, shared, proc, p, person, x, params, mask, slots, next, at)
}

/// It makes a closure.
fn closure(
    s: Setting,
    shared: &mut Shared,
    proc: &mut Proc,
    p: u32,
    person: Person,
    x: Word,
    params: u32,
    mask: u32,
    slots: &[u32],
    next: u32,
    at: u64,
) -> Result<(), AllocError>
    requires stands { StandsAt s p person shared.old proc.old (ops.Qlambda params mask slots.now next) at }
    requires calm { awaited (ops.Qlambda params mask slots.now next) proc.old.stack.items ≡ None }
    requires top { words 1 proc.old.stack.items ≡ x ∷ [] }
    requires in_line { (is_nil x || in_cleanup (cleanups_on proc.old.stack.items)) ≡ true }
    ensures makes { OnOk result (Makes s.entry p person shared.old proc.old shared.new proc.new []) }
    ensures tree { OnOk result (length shared.new.tree.persons ≡ length shared.old.tree.persons) }
    ensures keeps { OnOk result (Keeps shared.old shared.new) }
    ensures kept { OnErr result (IsKept shared.old proc.old shared.new proc.new) }
{
    let body = body_of(s, proc, params, mask, slots)?;
    let room = Room {
        cells: 1,
        futures: 0,
        tree: 0,
        events: 2,
        stack: 0,
    };
    take_room(shared, proc, room)?;
    if shared.cells.room() == 0 {
        let kind = LimitKind::Cells;
        stop(shared, p, Stop::Limit { kind });
        return Ok(());
    }
    let w = shared.cells.put_closure(body);
    proc.replace_one(s.code, next, w);
    shared.history.tick(p);
    Ok(())
}

/// The closure that the instruction makes.
fn body_of(
    s: Setting,
    proc: &Proc,
    params: u32,
    mask: u32,
    slots: &[u32],
) -> Result<Closure, AllocError>
    requires { proc.now.place < length s.code.now.instructions }
    ensures { IfOk result (λ k. k ≡ record { place = proc.now.place + 1; count = params; mask = mask; captured = slots_at (frame_of proc.now.stack.items) slots.now }) }
{
    let captured = proc.captured(s.alloc, slots)?;
    Ok(Closure {
        place: next_place(s.code, proc.place),
        count: params,
        mask,
        captured,
    })
}

/// There would be too many processes.
fn too_many(
    s: Setting,
    shared: &mut Shared,
    proc: &mut Proc,
    p: u32,
    person: Person,
    x: Word,
    params: u32,
    mask: u32,
    slots: &[u32],
    next: u32,
    at: u64,
) -> Result<(), AllocError>
    requires stands { StandsAt s p person shared.old proc.old (ops.Qlambda params mask slots.now next) at }
    requires calm { awaited (ops.Qlambda params mask slots.now next) proc.old.stack.items ≡ None }
    requires top { words 1 proc.old.stack.items ≡ x ∷ [] }
    requires spawns { (is_nil x || in_cleanup (cleanups_on proc.old.stack.items)) ≡ false }
    requires many { shared.old.tree.limit < length shared.old.tree.persons + 1 }
    ensures makes { OnOk result (Makes s.entry p person shared.old proc.old shared.new proc.new []) }
    ensures tree { OnOk result (length shared.new.tree.persons ≡ length shared.old.tree.persons) }
    ensures keeps { OnOk result (Keeps shared.old shared.new) }
    ensures kept { OnErr result (IsKept shared.old proc.old shared.new proc.new) }
{
    let room = Room {
        cells: 0,
        futures: 0,
        tree: 0,
        events: 2,
        stack: 0,
    };
    take_room(shared, proc, room)?;
    let kind = LimitKind::Procs;
    stop(shared, p, Stop::Limit { kind });
    Ok(())
}

/// Its process waits for a call.
fn plain(
    s: Setting,
    shared: &mut Shared,
    proc: &mut Proc,
    p: u32,
    person: Person,
    x: Word,
    params: u32,
    mask: u32,
    slots: &[u32],
    next: u32,
    at: u64,
) -> Result<Vec<Proc>, AllocError>
    requires stands { StandsAt s p person shared.old proc.old (ops.Qlambda params mask slots.now next) at }
    requires calm { awaited (ops.Qlambda params mask slots.now next) proc.old.stack.items ≡ None }
    requires top { words 1 proc.old.stack.items ≡ x ∷ [] }
    requires spawns { (is_nil x || in_cleanup (cleanups_on proc.old.stack.items)) ≡ false }
    requires rests { is_eager x ≡ false }
    requires few { length shared.old.tree.persons + 1 ≤ shared.old.tree.limit }
    ensures makes { IfOk result (λ made. Makes s.entry p person shared.old proc.old shared.new proc.new made.items) }
    ensures long { IfOk result (λ made. length shared.new.tree.persons ≡ length shared.old.tree.persons + length made.items) }
    ensures few { IfOk result (λ made. length made.items ≤ 1) }
    ensures keeps { OnOk result (Keeps shared.old shared.new) }
    ensures kept { OnErr result (IsKept shared.old proc.old shared.new proc.new) }
{
    let body = body_of(s, proc, params, mask, slots)?;
    let thread = Proc::at_rest(s.alloc, &body)?;
    let made = alone(s.alloc, thread)?;
    let k = next_server(&shared.calls)?;
    take_server_room(shared, proc, 0, 0)?;
    let home = around(proc, person);
    shared.history.tick(p);
    add_server(shared, p, home, k, body, false, Vec::new(s.alloc));
    proc.replace_one(s.code, next, Word::Proc(k));
    Ok(made)
}

/// Its body begins at once.
fn eager(
    s: Setting,
    shared: &mut Shared,
    proc: &mut Proc,
    p: u32,
    person: Person,
    x: Word,
    params: u32,
    mask: u32,
    slots: &[u32],
    next: u32,
    at: u64,
) -> Result<Vec<Proc>, AllocError>
    requires stands { StandsAt s p person shared.old proc.old (ops.Qlambda params mask slots.now next) at }
    requires calm { awaited (ops.Qlambda params mask slots.now next) proc.old.stack.items ≡ None }
    requires top { words 1 proc.old.stack.items ≡ x ∷ [] }
    requires spawns { (is_nil x || in_cleanup (cleanups_on proc.old.stack.items)) ≡ false }
    requires begins { is_eager x ≡ true }
    requires few { length shared.old.tree.persons + 1 ≤ shared.old.tree.limit }
    ensures makes { IfOk result (λ made. Makes s.entry p person shared.old proc.old shared.new proc.new made.items) }
    ensures long { IfOk result (λ made. length shared.new.tree.persons ≡ length shared.old.tree.persons + length made.items) }
    ensures few { IfOk result (λ made. length made.items ≤ 1) }
    ensures keeps { OnOk result (Keeps shared.old shared.new) }
    ensures kept { OnErr result (IsKept shared.old proc.old shared.new proc.new) }
{
    let body = body_of(s, proc, params, mask, slots)?;
    let turn = next_turn(s.alloc, &shared.futures, params, mask)?;
    let k = next_server(&shared.calls)?;
    let stored = turn.stored.len() as u64;
    take_server_room(shared, proc, stored + 1, params as u64)?;
    if stored > shared.cells.room() {
        let kind = LimitKind::Cells;
        stop(shared, p, Stop::Limit { kind });
        return Ok(Vec::new(s.alloc));
    }
    let first = shared.cells.box_count();
    let thread = Proc::started(s.alloc, s.code, &body, &turn.words, first)?;
    let made = alone(s.alloc, thread)?;
    let home = around(proc, person);
    shared.history.tick(p);
    put_turn(shared, &turn);
    add_server(shared, p, home, k, body, true, turn.futures);
    proc.replace_one(s.code, next, Word::Proc(k));
    Ok(made)
}

/// One process.
fn alone(alloc: Global, proc: Proc) -> Result<Vec<Proc>, AllocError>
    ensures { IfOk result (λ made. made.items ≡ proc ∷ []) }
{
    let mut made = Vec::new(alloc);
    made.push(proc)?;
    Ok(made)
}

/// The number of the next process closure.
fn next_server(calls: &Calls) -> Result<u32, AllocError>
    ensures { IfOk result (λ k. k ≡ length calls.now.servers + 1) }
{
    match calls.count().checked_add(1) {
        Some(k) => Ok(k),
        None => Err(AllocError),
    }
}

/// Takes room for a process closure and its process, with so many cells and futures.
fn take_server_room(
    shared: &mut Shared,
    proc: &mut Proc,
    cells: u64,
    futures: u64,
) -> Result<(), AllocError>
    ensures shared { shared.new ≡ with_room shared.old shared.new }
    ensures proc { proc.new ≡ record proc.old { stack = record proc.old.stack { room = proc.new.stack.room } } }
    ensures cells { OnOk result (cells ≤ shared.new.cells.spare) }
    ensures futures { OnOk result (futures ≤ shared.new.futures.spare) }
    ensures tree { OnOk result (0 < shared.new.tree.spare) }
    ensures calls { OnOk result (0 < shared.new.calls.spare) }
    ensures events { OnOk result (3 ≤ shared.new.history.spare) }
    ensures history { shared.old.history.spare ≤ shared.new.history.spare }
{
    let room = Room {
        cells,
        futures,
        tree: 1,
        events: 3,
        stack: 0,
    };
    take_room(shared, proc, room)?;
    shared.calls.reserve(1)
}

/// Makes process closure k of process p, and its process, whose thread is kept elsewhere.
fn add_server(
    shared: &mut Shared,
    p: u32,
    home: u32,
    k: u32,
    body: Closure,
    eager: bool,
    turn: Vec<u32>,
)
    requires number { k ≡ length shared.old.calls.servers + 1 }
    requires calls { 0 < shared.old.calls.spare }
    requires tree { 0 < shared.old.tree.spare }
    requires events { 0 < shared.old.history.spare }
    requires allowed { length shared.old.tree.persons < shared.old.tree.limit }
    ensures world { (threads : List Point) (t : Point) → length threads ≡ length shared.old.tree.persons
        → world_of shared.new (threads ++ t ∷ []) ≡ with_server_made (world_of shared.old threads) p home body eager turn.items t }
    ensures persons { length shared.new.tree.persons ≡ length shared.old.tree.persons + 1 }
    ensures grows { Grows shared.old shared.new }
    ensures events { shared.old.history.spare ≤ shared.new.history.spare + 1 }
{
    let q = shared.tree.add(home, Kind::Closure(k));
    let mode = mode_of(eager, k);
    shared.calls.add(q, body, eager, turn);
    shared.history.tell(Event::Spawn {
        p,
        q,
        c: home,
        mode,
    });
}

/// How process closure k works.
fn mode_of(eager: bool, k: u32) -> Mode
    ensures { result ≡ if eager then begun_at_once k else called k }
{
    if eager { Mode::Eager(k) } else { Mode::Call(k) }
}
