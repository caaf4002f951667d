//! Ticks on frames: variables, calls, catches and cleanups.

ghost use Rattle.std.specs.Prelude.{◌≡◌, ◌<◌, ◌+◌, ◌^◌, ◌∷◌, suc, false, None, Some, List, OnOk, OnErr, length, option_to_list, if◌then◌else◌};
ghost use Rattle.ql_world.specs.declared.word.Word.TheVariants.{Fun as closure};
ghost use Rattle.ql_world.specs.declared.event.Stop.TheVariants.{Fault as fault};
ghost use Rattle.ql_world.specs.World.{counted, marked};
ghost use Rattle.ql_code.specs.declared.code.Op.TheVariants as ops;
ghost use Rattle.ql_code.specs.declared.mark.Mark.TheVariants.{Returning as returning};
ghost use Rattle.ql_code.specs.Machine.{Point, words, top_mark};
ghost use Rattle.ql_proc.specs.Slots.{HasWords};
ghost use Rattle.ql_host.specs.Awaited.{awaited};
ghost use Rattle.ql_host.specs.Called as called;
ghost use Rattle.ql_host.specs.Called.{call_op, process_closure_first};
ghost use Rattle.ql_host.specs.World.{world_of, Keeps};
ghost use Rattle.ql_host.specs.Acting.{Takes, StandsAt, IsKept};

use crate::room::{Room, take_room};
use crate::setting::Setting;
use crate::shared::Shared;
use crate::ticks::boxes::take_boxes;
use crate::ticks::values::stop;
use ql_base::fault::RunFault;
use ql_code::code::Code;
use ql_proc::process::Proc;
use ql_tree::person::Person;
use ql_world::event::Stop;
use ql_world::word::Word;
use std::alloc::AllocError;

/// Makes variables of the topmost so many words.
pub fn bind(
    s: Setting,
    shared: &mut Shared,
    proc: &mut Proc,
    p: u32,
    person: Person,
    count: u32,
    mask: u32,
    at: u64,
) -> Result<(), AllocError>
    requires { StandsAt s p person shared.old proc.old (ops.Bind count mask) at }
    ensures takes { OnOk result (Takes s.entry p person shared.old proc.old shared.new proc.new) }
    ensures keeps { OnOk result (Keeps shared.old shared.new) }
    ensures kept { OnErr result (IsKept shared.old proc.old shared.new proc.new) }
{
    let Some(first) = take_boxes(shared, proc, p, count, mask, 0)? else {
        return Ok(());
    };
    proc.bind(s.code, count, mask, first);
    shared.history.tick(p);
    Ok(())
}

/// Calls a function whose parameters become the topmost so many words.
pub fn call(
    s: Setting,
    shared: &mut Shared,
    proc: &mut Proc,
    p: u32,
    person: Person,
    place: u32,
    count: u32,
    mask: u32,
    at: u64,
) -> Result<(), AllocError>
    requires { StandsAt s p person shared.old proc.old (ops.Call place count mask) at }
    ensures takes { OnOk result (Takes s.entry p person shared.old proc.old shared.new proc.new) }
    ensures keeps { OnOk result (Keeps shared.old shared.new) }
    ensures kept { OnErr result (IsKept shared.old proc.old shared.new proc.new) }
{
    let Some(first) = take_boxes(shared, proc, p, count, mask, 1)? else {
        return Ok(());
    };
    proc.call(s.code, place, count, mask, first);
    shared.history.tick(p);
    Ok(())
}

/// A tick that errs, and changes nothing else.
pub fn refuse(
    shared: &mut Shared,
    proc: &mut Proc,
    p: u32,
    kind: RunFault,
    at: u64,
) -> Result<(), AllocError>
    requires small { shared.old.history.ticks < 2 ^ 63 }
    ensures proc { proc.new ≡ record proc.old { stack = record proc.old.stack { room = proc.new.stack.room } } }
    ensures marked { OnOk result ((threads : List Point) → world_of shared.new threads ≡ marked (counted (world_of shared.old threads) p) (fault kind p at)) }
    ensures keeps { OnOk result (Keeps shared.old shared.new) }
    ensures kept { OnErr result (IsKept shared.old proc.old shared.new proc.new) }
{
    let room = Room {
        cells: 0,
        futures: 0,
        tree: 0,
        events: 2,
        stack: 0,
    };
    take_room(shared, proc, room)?;
    stop(shared, p, Stop::Fault { kind, proc: p, at });
    Ok(())
}

/// The process closure that a call with so many arguments is sent to, if any.
pub fn sent_to(proc: &Proc, count: u32) -> Option<u32>
    requires { HasWords (suc count) proc.now.stack.items }
    ensures { result ≡ called.sent_to count proc.now.stack.items }
{
    if proc.is_in_cleanup() {
        return None;
    }
    process_closure(proc.word_under(count))
}

/// The number of a process closure.
fn process_closure(word: Option<Word>) -> Option<u32>
    ensures { result ≡ process_closure_first (option_to_list word) }
{
    match word {
        Some(Word::Proc(k)) => Some(k),
        _ => None,
    }
}

/// Calls the word under so many arguments, but for a process closure where no cleanup runs. Its value is used or not.
pub fn funcall(
    s: Setting,
    shared: &mut Shared,
    proc: &mut Proc,
    p: u32,
    person: Person,
    count: u32,
    used: bool,
    at: u64,
) -> Result<(), AllocError>
    requires here { StandsAt s p person shared.old proc.old (call_op used count) at }
    requires calm { awaited (call_op used count) proc.old.stack.items ≡ None }
    requires local { called.sent_to count proc.old.stack.items ≡ None }
    ensures takes { OnOk result (Takes s.entry p person shared.old proc.old shared.new proc.new) }
    ensures keeps { OnOk result (Keeps shared.old shared.new) }
    ensures kept { OnErr result (IsKept shared.old proc.old shared.new proc.new) }
{
    let Some(function) = proc.word_under(count) else {
        return Ok(());
    };
    match function {
        Word::Fun(n) => enter(s, shared, proc, p, person, count, used, n, at),
        Word::Proc(_) => refuse(shared, proc, p, RunFault::InCleanup, at),
        _ => refuse(shared, proc, p, RunFault::NotFunction, at),
    }
}

/// Enters the closure with this number, which stands under so many arguments.
fn enter(
    s: Setting,
    shared: &mut Shared,
    proc: &mut Proc,
    p: u32,
    person: Person,
    count: u32,
    used: bool,
    n: u32,
    at: u64,
) -> Result<(), AllocError>
    requires here { StandsAt s p person shared.old proc.old (call_op used count) at }
    requires function { words (suc count) proc.old.stack.items ≡ closure n ∷ words count proc.old.stack.items }
    ensures takes { OnOk result (Takes s.entry p person shared.old proc.old shared.new proc.new) }
    ensures keeps { OnOk result (Keeps shared.old shared.new) }
    ensures kept { OnErr result (IsKept shared.old proc.old shared.new proc.new) }
{
    let Some(asked) = shared.cells.closure(n) else {
        return Ok(());
    };
    if asked.count != count {
        return refuse(shared, proc, p, RunFault::WrongCount, at);
    }
    let mask = asked.mask;
    let pushed = asked.captured.as_slice().len() as u64 + 1;
    let Some(first) = take_boxes(shared, proc, p, count, mask, pushed)? else {
        return Ok(());
    };
    let Some(entered) = shared.cells.closure(n) else {
        return Ok(());
    };
    let back = place_after(s.code, proc.place, used);
    proc.enter(s.code, count, entered, first, back);
    shared.history.tick(p);
    Ok(())
}

/// Where a call goes back to: past the instruction that takes an unused value away, where its value is used.
fn place_after(code: &Code, place: u32, used: bool) -> u32
    requires { place < length code.now.instructions }
    ensures { result ≡ (if used then place + 2 else place + 1) }
{
    let _length = code.len();
    if used { place + 2 } else { place + 1 }
}

/// Returns the topmost word to the caller, which goes on at this place.
pub fn give_back(
    s: Setting,
    shared: &mut Shared,
    proc: &mut Proc,
    p: u32,
    person: Person,
    back: u32,
    at: u64,
) -> Result<(), AllocError>
    requires here { StandsAt s p person shared.old proc.old ops.Return at }
    requires caller { top_mark proc.old.stack.items ≡ Some (returning back) }
    ensures takes { OnOk result (Takes s.entry p person shared.old proc.old shared.new proc.new) }
    ensures keeps { OnOk result (Keeps shared.old shared.new) }
    ensures kept { OnErr result (IsKept shared.old proc.old shared.new proc.new) }
{
    let room = Room {
        cells: 0,
        futures: 0,
        tree: 0,
        events: 2,
        stack: 0,
    };
    take_room(shared, proc, room)?;
    let Some(w) = proc.top_word() else {
        return Ok(());
    };
    proc.give(s.code, back, w);
    shared.history.tick(p);
    Ok(())
}
