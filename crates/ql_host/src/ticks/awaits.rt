//! The tick that takes the word of a future.

ghost use Rattle.std.specs.Prelude.{◌≡◌, ◌∷◌, false, suc, if◌then◌else◌, OnOk, OnErr, None, Some};
ghost use Rattle.ql_world.specs.Word.{first_future};
ghost use Rattle.ql_world.specs.World.{numbered, or_pending};
ghost use Rattle.ql_world.specs.Idle.{in_cleanup, is_pending};
ghost use Rattle.ql_world.specs.Operator.{operator_of};
ghost use Rattle.ql_world.specs.Touch.{touched_by, touched_in_call};
ghost use Rattle.ql_code.specs.Machine.{words, top_mark, cleanups_on, operand_count};
ghost use Rattle.ql_code.specs.Operands.{operands_of};
ghost use Rattle.ql_proc.specs.Slots.{HasWords};
ghost use Rattle.ql_host.specs.Awaited.{awaited, awaited_among, replied};
ghost use Rattle.ql_host.specs.World.{Keeps};
ghost use Rattle.ql_host.specs.Acting.{Takes, StandsAt, IsKept};

use crate::room::{Room, take_room};
use crate::setting::Setting;
use crate::shared::Shared;
use crate::ticks::values::stop;
use ql_base::fault::RunFault;
use ql_code::code::Op;
use ql_code::mark::Mark;
use ql_proc::process::Proc;
use ql_tree::person::Person;
use ql_world::event::Stop;
use ql_world::operator::{Operator, of_symbol};
use ql_world::word::Word;
use ql_world::world::FutState;
use std::alloc::AllocError;

/// Puts the word of the future that an instruction waits for in place of that future. While the future is pending the
/// process can't step.
pub fn await_word(
    s: Setting,
    shared: &mut Shared,
    proc: &mut Proc,
    p: u32,
    person: Person,
    op: &Op,
    future: u32,
    at: u64,
) -> Result<(), AllocError>
    requires here { StandsAt s p person shared.old proc.old op.now at }
    requires waits { awaited op.now proc.old.stack.items ≡ Some future }
    ensures takes { OnOk result (Takes s.entry p person shared.old proc.old shared.new proc.new) }
    ensures keeps { is_pending (or_pending (numbered shared.old.futures.states future)) ≡ false → OnOk result (Keeps shared.old shared.new) }
    ensures kept { OnErr result (IsKept shared.old proc.old shared.new proc.new) }
{
    let room = Room {
        cells: 0,
        futures: 0,
        tree: 0,
        events: 2,
        stack: 0,
    };
    take_room(shared, proc, room)?;
    match shared.futures.state(future) {
        // No: it can step.
        FutState::Pending => Ok(()),
        FutState::Value(w) => {
            proc.replace_future(s.code, awaited_among(op), w);
            shared.history.tick(p);
            Ok(())
        }
        FutState::Dead => {
            let kind = RunFault::DeadFuture;
            stop(shared, p, Stop::Fault { kind, proc: p, at });
            Ok(())
        }
    }
}

/// The future that an instruction waits for.
pub fn awaited(op: &Op, proc: &Proc) -> Option<u32>
    requires { HasWords (operands_of op.now) proc.now.stack.items }
    ensures { result ≡ awaited op.now proc.now.stack.items }
{
    match op {
        Op::Branch(_)
        | Op::Qlet { .. }
        | Op::Join
        | Op::Qlambda { .. }
        | Op::Catch(_)
        | Op::Qcatch(_)
        | Op::Print => proc.stack.first_future(1),
        Op::Return => awaited_by_reply(proc),
        Op::Funcall(n) => awaited_by_call(proc, *n),
        Op::FuncallDrop(n) => awaited_by_call(proc, *n),
        Op::Touch(n) => proc.stack.first_future(*n as usize),
        Op::Throw => proc.stack.first_future(2),
        Op::Prim(symbol) => awaited_by_primitive(proc, *symbol),
        _ => None,
    }
}

/// Among how many words on top of the stack it is.
pub fn awaited_among(op: &Op) -> usize
    ensures { result ≡ awaited_among op.now }
{
    match op {
        Op::Funcall(n) => *n as usize + 1,
        Op::FuncallDrop(n) => *n as usize + 1,
        Op::Touch(n) => *n as usize,
        Op::Throw => 2,
        Op::Prim(symbol) => operands(*symbol),
        _ => 1,
    }
}

/// The same of a return at the bottom of a process.
fn awaited_by_reply(proc: &Proc) -> Option<u32>
    ensures { result ≡ replied (top_mark proc.now.stack.items) (first_future (words 1 proc.now.stack.items)) }
{
    match proc.top_mark() {
        Some(Mark::Base(_)) => proc.stack.first_future(1),
        _ => None,
    }
}

/// The same of a call with so many arguments.
fn awaited_by_call(proc: &Proc, args: u32) -> Option<u32>
    requires { HasWords (suc args) proc.now.stack.items }
    ensures { result ≡ first_future (touched_in_call (in_cleanup (cleanups_on proc.now.stack.items)) (words (suc args) proc.now.stack.items)) }
{
    let Some(w) = proc.word_under(args) else {
        // No: it stands under the arguments.
        return None;
    };
    awaited_by_calling(proc, w, args)
}

/// The same of a call of a word with so many arguments.
fn awaited_by_calling(proc: &Proc, w: Word, args: u32) -> Option<u32>
    ensures { result ≡ first_future (touched_in_call (in_cleanup (cleanups_on proc.now.stack.items)) (w ∷ words args proc.now.stack.items)) }
{
    match w {
        Word::Fut(f) => Some(f),
        Word::Proc(_) => awaited_by_send(proc, args),
        _ => None,
    }
}

/// The same of a call of a process closure with so many arguments.
fn awaited_by_send(proc: &Proc, args: u32) -> Option<u32>
    ensures { result ≡ (if in_cleanup (cleanups_on proc.now.stack.items) then None else first_future (words args proc.now.stack.items)) }
{
    if proc.is_in_cleanup() {
        return None;
    }
    proc.first_future(args)
}

/// The same of the primitive with this symbol.
fn awaited_by_primitive(proc: &Proc, symbol: u32) -> Option<u32>
    ensures { result ≡ first_future (touched_by (operator_of symbol) (words (operand_count (operator_of symbol)) proc.now.stack.items)) }
{
    match of_symbol(symbol) {
        None => None,
        Some(Operator::Cons) => None,
        Some(_) => proc.stack.first_future(operands(symbol)),
    }
}

/// How many operands the primitive with this symbol takes.
fn operands(symbol: u32) -> usize
    ensures { result ≡ operand_count (operator_of symbol) }
{
    match of_symbol(symbol) {
        None => 0,
        Some(o) => count_of(o),
    }
}

fn count_of(o: Operator) -> usize
    ensures { result ≡ operand_count (Some o) }
{
    if o.takes_one() { 1 } else { 2 }
}
