//! What a process waits for.

ghost use Rattle.std.specs.Prelude.{◌≡◌, ℕ, suc, Bool, Some, slice_get};
ghost use Rattle.ql_world.specs.Idle.{in_cleanup};
ghost use Rattle.ql_world.specs.Operator as operators;
ghost use Rattle.ql_code.specs.Machine.{words, cleanups_on, operand_count, call_want, prim_want, return_want, top_mark, throw_want, exit_want, leave_want, clean_want, op_want, running_want, unwinding_want, code_machine};
ghost use Rattle.ql_proc.specs.Looks.{IsFirst};
ghost use Rattle.ql_proc.specs.Points.{point_of};
ghost use Rattle.ql_proc.specs.Slots.{HasWords};
ghost use Rattle.ql_host.specs.Ready.{waits_of};
ghost use Rattle.ql_host.specs.Waiting.{waits_or, one_waits, word_waits, send_waits};

use ql_code::code::{Code, Op};
use ql_code::mark::{Mark, State};
use ql_proc::process::Proc;
use ql_world::operator::{Operator, of_symbol};
use ql_world::word::Word;

/// What the next tick of a process waits for.
#[derive(Clone, Copy, Debug, PartialEq, Eq)]
pub enum Waits {
    /// There is no next tick.
    Never,
    /// Nothing.
    Nothing,
    /// This future is no longer pending.
    Future(u32),
    /// A call waits in the queue.
    Call,
    /// A call is in progress.
    Reply,
    /// The process may exit this catch.
    Exit(u32),
    /// The process, which unwinds, may leave this catch.
    Leave(u32),
    /// The program may end.
    Last,
}

/// What a process waits for.
pub fn waiting(code: &Code, proc: &Proc) -> Waits
    ensures { result ≡ waits_of ((code_machine code.now.instructions).want (point_of proc.now)) }
{
    match proc.state {
        State::Running => running_waits(code, proc),
        State::Unwinding => unwinding_waits(proc),
        State::Resting => Waits::Call,
        State::Over => Waits::Never,
    }
}

/// What a process at its place waits for.
fn running_waits(code: &Code, proc: &Proc) -> Waits
    ensures { result ≡ waits_of (running_want (slice_get code.now.instructions proc.now.place) proc.now.stack.items) }
{
    if proc.place >= code.len() {
        return Waits::Never;
    }
    op_waits(code.at(proc.place), proc)
}

/// What a process that unwinds waits for.
fn unwinding_waits(proc: &Proc) -> Waits
    ensures { result ≡ waits_of (unwinding_want proc.now.stack.items) }
{
    match proc.mark_on_top() {
        Some(Mark::Catching(c, _)) => Waits::Leave(c),
        Some(Mark::Protecting(_, _)) => Waits::Nothing,
        Some(Mark::Base(_)) => Waits::Nothing,
        _ => Waits::Never,
    }
}

/// What a process at an instruction waits for.
fn op_waits(op: &Op, proc: &Proc) -> Waits
    ensures { (at : ℕ) → result ≡ waits_of (op_want op.now at proc.now.stack.items) }
{
    match op {
        Op::BoxSet(_) => word_waits(proc),
        Op::GlobalSet(_) => word_waits(proc),
        Op::Branch(_) => one_waits(proc, Waits::Nothing),
        Op::Jump(_) => Waits::Never,
        Op::Drop => Waits::Never,
        Op::Slide(_) => Waits::Never,
        Op::Return => return_waits(proc),
        Op::Funcall(count) => call_waits(proc, *count),
        Op::FuncallDrop(count) => call_waits(proc, *count),
        Op::Touch(count) => waits_or(proc.first_future(*count), Waits::Never),
        Op::Qlet {
            starts: _,
            touched: _,
            bound: _,
        } => one_waits(proc, Waits::Nothing),
        Op::Join => one_waits(proc, Waits::Nothing),
        Op::Qlambda {
            params: _,
            mask: _,
            slots: _,
            next: _,
        } => one_waits(proc, Waits::Nothing),
        Op::Catch(_) => one_waits(proc, Waits::Nothing),
        Op::Qcatch(_) => one_waits(proc, Waits::Nothing),
        Op::Exit => exit_waits(proc),
        Op::Throw => throw_waits(proc),
        Op::Leave => leave_waits(proc),
        Op::EndClean => clean_waits(proc),
        Op::Prim(symbol) => symbol_waits(proc, *symbol),
        Op::Print => one_waits(proc, Waits::Nothing),
        Op::End => Waits::Last,
        _ => Waits::Nothing,
    }
}

/// The future, if there is one, or else the other.
fn waits_or(found: Option<u32>, other: Waits) -> Waits
    ensures { result ≡ waits_or found other }
{
    match found {
        Some(f) => Waits::Future(f),
        None => other,
    }
}

/// Of an instruction that touches the topmost word, and then waits for the other.
fn one_waits(proc: &Proc, other: Waits) -> Waits
    ensures { result ≡ one_waits (words 1 proc.now.stack.items) other }
{
    match proc.top_word() {
        Some(Word::Fut(f)) => Waits::Future(f),
        Some(_) => other,
        None => Waits::Never,
    }
}

/// Of an instruction that takes a word as it is.
fn word_waits(proc: &Proc) -> Waits
    ensures { result ≡ word_waits (words 1 proc.now.stack.items) }
{
    if proc.top_word().is_some() {
        Waits::Nothing
    } else {
        Waits::Never
    }
}

/// Of a return.
fn return_waits(proc: &Proc) -> Waits
    ensures { (at : ℕ) → result ≡ waits_of (return_want (top_mark proc.now.stack.items) (words 1 proc.now.stack.items) at) }
{
    match proc.top_mark() {
        Some(Mark::Returning(_)) => Waits::Nothing,
        Some(Mark::Base(_)) => one_waits(proc, Waits::Reply),
        _ => Waits::Never,
    }
}

/// Of an exit from a catch.
fn exit_waits(proc: &Proc) -> Waits
    ensures { result ≡ waits_of (exit_want proc.now.stack.items) }
{
    match proc.mark_under_slot() {
        Some(Mark::Catching(c, _)) => Waits::Exit(c),
        _ => Waits::Never,
    }
}

/// Of a throw.
fn throw_waits(proc: &Proc) -> Waits
    ensures { (at : ℕ) → result ≡ waits_of (throw_want (words 2 proc.now.stack.items) at) }
{
    if proc.top_two().is_none() {
        return Waits::Never;
    }
    waits_or(proc.first_future(2), Waits::Nothing)
}

/// Of the end of a protected body.
fn leave_waits(proc: &Proc) -> Waits
    ensures { result ≡ waits_of (leave_want proc.now.stack.items) }
{
    match proc.mark_under_slot() {
        Some(Mark::Protecting(_, _)) => Waits::Nothing,
        _ => Waits::Never,
    }
}

/// Of the end of a cleanup.
fn clean_waits(proc: &Proc) -> Waits
    ensures { result ≡ waits_of (clean_want proc.now.stack.items) }
{
    match proc.mark_under_slot() {
        Some(Mark::Cleaning(_, _)) => Waits::Nothing,
        _ => Waits::Never,
    }
}

/// Of the primitive with this symbol.
fn symbol_waits(proc: &Proc, symbol: u32) -> Waits
    ensures { (at : ℕ) → result ≡ waits_of (prim_want (operators.operator_of symbol) (words (operand_count (operators.operator_of symbol)) proc.now.stack.items) at) }
{
    match of_symbol(symbol) {
        Some(o) => prim_waits(proc, o),
        None => Waits::Never,
    }
}

/// Of a primitive.
fn prim_waits(proc: &Proc, o: Operator) -> Waits
    ensures { (at : ℕ) → result ≡ waits_of (prim_want (Some o) (words (operand_count (Some o)) proc.now.stack.items) at) }
{
    if !touches(o) {
        return Waits::Nothing;
    }
    let count = if o.takes_one() { 1 } else { 2 };
    waits_or(proc.first_future(count), Waits::Nothing)
}

/// Whether it touches its operands.
fn touches(o: Operator) -> bool
    ensures { result ≡ operators.touches o }
{
    match o {
        Operator::Cons => false,
        _ => true,
    }
}

/// Of a call with so many arguments.
fn call_waits(proc: &Proc, count: u32) -> Waits
    ensures { (used : Bool) (at : ℕ) → result ≡ waits_of (call_want (in_cleanup (cleanups_on proc.now.stack.items)) used (words (suc count) proc.now.stack.items) at) }
{
    match called(proc, count) {
        None => Waits::Never,
        Some(Word::Fut(f)) => Waits::Future(f),
        Some(Word::Proc(_)) => send_waits(proc, count),
        Some(_) => Waits::Nothing,
    }
}

/// Of a call of a process closure with so many arguments.
fn send_waits(proc: &Proc, count: u32) -> Waits
    ensures { result ≡ send_waits (in_cleanup (cleanups_on proc.now.stack.items)) (words count proc.now.stack.items) }
{
    if proc.is_in_cleanup() {
        return Waits::Nothing;
    }
    waits_or(proc.first_future(count), Waits::Nothing)
}

/// The leftmost of the words on top of the stack, of so many and one more.
fn called(proc: &Proc, count: u32) -> Option<Word>
    ensures { IsFirst result (words (suc count) proc.now.stack.items) }
{
    let mut under = count;
    'down: while !proc.has_words(under) {
        under -= 1;
    }
    match proc.word_under(under) {
        Some(w) => Some(w),
        None => lowest(proc, under),
    }
}

/// The leftmost of so many words on top of the stack.
fn lowest(proc: &Proc, count: u32) -> Option<Word>
    requires { HasWords count proc.now.stack.items }
    ensures { IsFirst result (words count proc.now.stack.items) }
{
    if count == 0 {
        return None;
    }
    proc.word_under(count - 1)
}
