//! The tick of a process.

ghost use Rattle.std.specs.Prelude.{◌≡◌, ℕ, List, None, Some, true, false, OnOk, OnErr, length, slice_get};
ghost use Rattle.ql_world.specs.World.{numbered, or_pending};
ghost use Rattle.ql_world.specs.Idle.{is_pending};
ghost use Rattle.ql_world.specs.Tick.{can_step};
ghost use Rattle.ql_code.specs.declared.code.Op.TheVariants as ops;
ghost use Rattle.ql_code.specs.declared.mark.State.TheVariants as states;
ghost use Rattle.ql_code.specs.Machine.{code_machine};
ghost use Rattle.ql_proc.specs.declared.process.Proc.{Proc};
ghost use Rattle.ql_proc.specs.Points.{point_of};
ghost use Rattle.ql_tree.specs.Persons.{process_of_person};
ghost use Rattle.ql_host.specs.Awaited.{awaited};
ghost use Rattle.ql_host.specs.Called.{call_op};
ghost use Rattle.ql_host.specs.World.{Keeps, IsFit};
ghost use Rattle.ql_host.specs.Acting.{Takes, TakesAll, StandsAt, IsKept};
ghost use Rattle.ql_host.specs.Making.{StandsAmong, AreKept};
ghost use Rattle.ql_host.specs.Unwinding.{Unwinds};
ghost use Rattle.ql_host.specs.Acts.{world_in, CanAct, IsAble, IsTurn, AreCounted, Ticks, IsLeft, changes_others};

use crate::setting::Setting;
use crate::shared::Shared;
use crate::ticks::awaits::{await_word, awaited};
use crate::ticks::calls::{send, take};
use crate::ticks::catches::{exit, last, throw};
use crate::ticks::closes::close;
use crate::ticks::frames::{bind, call, funcall, give_back, sent_to};
use crate::ticks::makes::qlambda;
use crate::ticks::marks::{end_clean, leave, open, protect};
use crate::ticks::primitives::{cons, prim};
use crate::ticks::prints::print;
use crate::ticks::replies::reply;
use crate::ticks::spawns::{child_ends, qlet};
use crate::ticks::unwinding::{begin_unwinding, end_unwinding, unwind_catch};
use crate::ticks::values::{box_get, box_set, branch, global_get, global_set, lit, local};
use ql_code::code::Op;
use ql_code::mark::{Mark, State};
use ql_proc::process::Proc;
use ql_tree::person::Person;
use std::alloc::AllocError;

/// Takes the tick of process p, which can step.
pub fn act(s: Setting, shared: &mut Shared, procs: &mut Vec<Proc>, p: u32) -> Result<(), AllocError>
    requires { CanAct s p shared.old procs.old.items }
    ensures ticks { OnOk result (Ticks s.entry p shared.old procs.old.items shared.new procs.new.items) }
    ensures keeps { OnOk result (Keeps shared.old shared.new) }
    ensures long { OnOk result (length procs.new.items ≡ length shared.new.tree.persons) }
    ensures left { OnErr result (IsLeft shared.old procs.old.items shared.new procs.new.items) }
{
    let Some(person) = shared.tree.person(p) else {
        // No: process p is there.
        return Ok(());
    };
    if p == 0 || p as usize > procs.len() {
        // No: each process has a thread.
        return Ok(());
    }
    take_turn(s, shared, procs, p as usize - 1, p, person)
}

/// The same of the process at this index.
fn take_turn(
    s: Setting,
    shared: &mut Shared,
    procs: &mut Vec<Proc>,
    i: usize,
    p: u32,
    person: Person,
) -> Result<(), AllocError>
    requires { IsTurn s p i person shared.old procs.old.items }
    ensures takes { OnOk result (TakesAll s.entry p person shared.old procs.old.items shared.new procs.new.items) }
    ensures long { OnOk result (length procs.new.items ≡ length shared.new.tree.persons) }
    ensures keeps { OnOk result (Keeps shared.old shared.new) }
    ensures kept { OnErr result (AreKept shared.old procs.old.items shared.new procs.new.items) }
{
    match procs[i].state {
        State::Running => run_instruction(s, shared, procs, i, p, person),
        _ => out_of_code(s, shared, &mut procs[i], p, person),
    }
}

/// Takes the tick of a process that isn't at an instruction.
fn out_of_code(
    s: Setting,
    shared: &mut Shared,
    proc: &mut Proc,
    p: u32,
    person: Person,
) -> Result<(), AllocError>
    requires fit { IsFit s.names.now s.limits shared.old }
    requires counted { AreCounted shared.old }
    requires able { (ts : List Proc) × IsAble s p shared.old ts (process_of_person person (point_of proc.old)) }
    requires out { proc.old.state ≡ states.Running → ⊥ }
    ensures takes { OnOk result (Takes s.entry p person shared.old proc.old shared.new proc.new) }
    ensures keeps { OnOk result (Keeps shared.old shared.new) }
    ensures kept { OnErr result (IsKept shared.old proc.old shared.new proc.new) }
{
    match proc.state {
        State::Unwinding => unwind(s, shared, proc, p, person),
        State::Resting => take(s, shared, proc, p, person),
        // No: it can step.
        State::Running => Ok(()),
        State::Over => Ok(()),
    }
}

/// Takes the tick of a process that unwinds.
fn unwind(
    s: Setting,
    shared: &mut Shared,
    proc: &mut Proc,
    p: u32,
    person: Person,
) -> Result<(), AllocError>
    requires { Unwinds s person shared.old proc.old }
    ensures takes { OnOk result (Takes s.entry p person shared.old proc.old shared.new proc.new) }
    ensures keeps { OnOk result (Keeps shared.old shared.new) }
    ensures kept { OnErr result (IsKept shared.old proc.old shared.new proc.new) }
{
    match proc.mark_on_top() {
        Some(Mark::Catching(c, place)) => unwind_catch(s, shared, proc, p, person, c, place),
        Some(Mark::Protecting(u, place)) => begin_unwinding(s, shared, proc, p, person, u, place),
        Some(Mark::Base(join)) => end_unwinding(s, shared, proc, p, person, join),
        // No: unwinding stops at none of these.
        Some(Mark::Returning(_)) => Ok(()),
        Some(Mark::Cleaning(_, _)) => Ok(()),
        None => Ok(()),
    }
}

/// Takes the tick of a process that is at an instruction.
fn run_instruction(
    s: Setting,
    shared: &mut Shared,
    procs: &mut Vec<Proc>,
    i: usize,
    p: u32,
    person: Person,
) -> Result<(), AllocError>
    requires turn { IsTurn s p i person shared.old procs.old.items }
    requires runs { (t : Proc) → slice_get procs.old.items i ≡ Some t → t.state ≡ states.Running }
    ensures takes { OnOk result (TakesAll s.entry p person shared.old procs.old.items shared.new procs.new.items) }
    ensures long { OnOk result (length procs.new.items ≡ length shared.new.tree.persons) }
    ensures keeps { OnOk result (Keeps shared.old shared.new) }
    ensures kept { OnErr result (AreKept shared.old procs.old.items shared.new procs.new.items) }
{
    let place = procs[i].place;
    if place >= s.code.len() {
        // No: it is within its code.
        return Ok(());
    }
    let op = s.code.at(place);
    let at = s.code.offset(place).0;
    let future = awaited(op, &procs[i]);
    if future.is_none() && changes_others(op) {
        return among(s, shared, procs, i, p, person, op, at);
    }
    alone(s, shared, &mut procs[i], p, person, op, future, at)
}

/// Whether an instruction makes processes, or may change the threads of others.
fn changes_others(op: &Op) -> bool
    ensures { result ≡ changes_others op.now }
{
    match op {
        Op::Qlet {
            starts: _,
            touched: _,
            bound: _,
        } => true,
        Op::Qlambda {
            params: _,
            mask: _,
            slots: _,
            next: _,
        } => true,
        Op::Exit => true,
        Op::Throw => true,
        Op::End => true,
        _ => false,
    }
}

/// Runs an instruction of that kind.
fn among(
    s: Setting,
    shared: &mut Shared,
    procs: &mut Vec<Proc>,
    i: usize,
    p: u32,
    person: Person,
    op: &Op,
    at: u64,
) -> Result<(), AllocError>
    requires turn { IsTurn s p i person shared.old procs.old.items }
    requires stands { StandsAmong s p person shared.old procs.old.items op.now at }
    requires calm { (t : Proc) → slice_get procs.old.items i ≡ Some t → awaited op.now t.stack.items ≡ None }
    requires others { changes_others op.now ≡ true }
    ensures takes { OnOk result (TakesAll s.entry p person shared.old procs.old.items shared.new procs.new.items) }
    ensures long { OnOk result (length procs.new.items ≡ length shared.new.tree.persons) }
    ensures keeps { OnOk result (Keeps shared.old shared.new) }
    ensures kept { OnErr result (AreKept shared.old procs.old.items shared.new procs.new.items) }
{
    match op {
        Op::Qlet {
            starts,
            touched,
            bound,
        } => qlet(
            s,
            shared,
            procs,
            i,
            p,
            person,
            starts.as_slice(),
            *touched,
            *bound,
            at,
        ),
        Op::Qlambda {
            params,
            mask,
            slots,
            next,
        } => qlambda(
            s,
            shared,
            procs,
            i,
            p,
            person,
            *params,
            *mask,
            slots.as_slice(),
            *next,
            at,
        ),
        Op::Exit => exit(s, shared, procs, p, person, at),
        Op::Throw => throw(s, shared, procs, p, person, at),
        Op::End => last(s, shared, procs, p, person, at),
        // No: these are all.
        _ => Ok(()),
    }
}

/// Runs an instruction that changes no thread but its own, or takes the word of the future that it waits for.
fn alone(
    s: Setting,
    shared: &mut Shared,
    proc: &mut Proc,
    p: u32,
    person: Person,
    op: &Op,
    future: Option<u32>,
    at: u64,
) -> Result<(), AllocError>
    requires here { StandsAt s p person shared.old proc.old op.now at }
    requires waits { future ≡ awaited op.now proc.old.stack.items }
    requires ready { (f : ℕ) → future ≡ Some f → is_pending (or_pending (numbered shared.old.futures.states f)) ≡ false }
    requires own { future ≡ None → changes_others op.now ≡ false }
    requires can { (ts : List Proc) × (can_step (code_machine s.code.now.instructions) s.names.now s.limits p (process_of_person person (point_of proc.old)) (world_in shared.old ts) ≡ true) }
    ensures takes { OnOk result (Takes s.entry p person shared.old proc.old shared.new proc.new) }
    ensures keeps { OnOk result (Keeps shared.old shared.new) }
    ensures kept { OnErr result (IsKept shared.old proc.old shared.new proc.new) }
{
    match future {
        Some(f) => await_word(s, shared, proc, p, person, op, f, at),
        None => single(s, shared, proc, p, person, op, at),
    }
}

/// Runs an instruction that waits for no future and changes no thread but its own.
fn single(
    s: Setting,
    shared: &mut Shared,
    proc: &mut Proc,
    p: u32,
    person: Person,
    op: &Op,
    at: u64,
) -> Result<(), AllocError>
    requires here { StandsAt s p person shared.old proc.old op.now at }
    requires calm { awaited op.now proc.old.stack.items ≡ None }
    requires own { changes_others op.now ≡ false }
    requires can { (ts : List Proc) × (can_step (code_machine s.code.now.instructions) s.names.now s.limits p (process_of_person person (point_of proc.old)) (world_in shared.old ts) ≡ true) }
    ensures takes { OnOk result (Takes s.entry p person shared.old proc.old shared.new proc.new) }
    ensures keeps { OnOk result (Keeps shared.old shared.new) }
    ensures kept { OnErr result (IsKept shared.old proc.old shared.new proc.new) }
{
    match op {
        Op::Lit(w) => lit(s, shared, proc, p, person, *w, at),
        Op::Local(slot) => local(s, shared, proc, p, person, *slot, at),
        Op::BoxGet(slot) => box_get(s, shared, proc, p, person, *slot, at),
        Op::GlobalGet(global) => global_get(s, shared, proc, p, person, *global, at),
        Op::BoxSet(slot) => box_set(s, shared, proc, p, person, *slot, at),
        Op::GlobalSet(global) => global_set(s, shared, proc, p, person, *global, at),
        Op::Branch(place) => branch(s, shared, proc, p, person, *place, at),
        Op::Bind { count, mask } => bind(s, shared, proc, p, person, *count, *mask, at),
        Op::Call { place, args, mask } => {
            call(s, shared, proc, p, person, *place, *args, *mask, at)
        }
        Op::Return => go_back(s, shared, proc, p, person, at),
        Op::Close {
            params,
            mask,
            slots,
            next,
        } => close(
            s,
            shared,
            proc,
            p,
            person,
            *params,
            *mask,
            slots.as_slice(),
            *next,
            at,
        ),
        Op::Funcall(count) => call_word(s, shared, proc, p, person, *count, true, at),
        Op::FuncallDrop(count) => call_word(s, shared, proc, p, person, *count, false, at),
        Op::Join => child_ends(s, shared, proc, p, person, at),
        Op::Catch(place) => open(s, shared, proc, p, person, false, *place, at),
        Op::Qcatch(place) => open(s, shared, proc, p, person, true, *place, at),
        Op::Protect(place) => protect(s, shared, proc, p, person, *place, at),
        Op::Leave => leave(s, shared, proc, p, person, at),
        Op::EndClean => end_clean(s, shared, proc, p, person, at),
        Op::Prim(symbol) => prim(s, shared, proc, p, person, *symbol, at),
        Op::Cons => cons(s, shared, proc, p, person, at),
        Op::Print => print(s, shared, proc, p, person, at),
        // No: it is at none of these.
        _ => Ok(()),
    }
}

/// Returns to the caller, or replies at the bottom of the process.
fn go_back(
    s: Setting,
    shared: &mut Shared,
    proc: &mut Proc,
    p: u32,
    person: Person,
    at: u64,
) -> Result<(), AllocError>
    requires here { StandsAt s p person shared.old proc.old ops.Return at }
    requires calm { awaited ops.Return proc.old.stack.items ≡ None }
    requires can { (ts : List Proc) × (can_step (code_machine s.code.now.instructions) s.names.now s.limits p (process_of_person person (point_of proc.old)) (world_in shared.old ts) ≡ true) }
    ensures takes { OnOk result (Takes s.entry p person shared.old proc.old shared.new proc.new) }
    ensures keeps { OnOk result (Keeps shared.old shared.new) }
    ensures kept { OnErr result (IsKept shared.old proc.old shared.new proc.new) }
{
    match proc.top_mark() {
        Some(Mark::Returning(back)) => give_back(s, shared, proc, p, person, back, at),
        Some(Mark::Base(_)) => reply(s, shared, proc, p, person, at),
        // No: a return stands on none of these.
        Some(Mark::Catching(_, _)) => Ok(()),
        Some(Mark::Protecting(_, _)) => Ok(()),
        Some(Mark::Cleaning(_, _)) => Ok(()),
        None => Ok(()),
    }
}

/// Calls the word under so many arguments: sends it the call, or enters it.
fn call_word(
    s: Setting,
    shared: &mut Shared,
    proc: &mut Proc,
    p: u32,
    person: Person,
    count: u32,
    used: bool,
    at: u64,
) -> Result<(), AllocError>
    requires here { StandsAt s p person shared.old proc.old (call_op used count) at }
    requires calm { awaited (call_op used count) proc.old.stack.items ≡ None }
    ensures takes { OnOk result (Takes s.entry p person shared.old proc.old shared.new proc.new) }
    ensures keeps { OnOk result (Keeps shared.old shared.new) }
    ensures kept { OnErr result (IsKept shared.old proc.old shared.new proc.new) }
{
    match sent_to(proc, count) {
        Some(k) => send(s, shared, proc, p, person, count, used, k, at),
        None => funcall(s, shared, proc, p, person, count, used, at),
    }
}
