//! Whether what a process does next it does by itself.

ghost use Rattle.std.specs.Prelude.{◌≡◌, ◌<◌, ◌≤◌, ◌∷◌, ◌++◌, [], None, Some, false, if◌then◌else◌, MatchOption, is_some, length, map, option_and_then, option_to_list, slice_get, drop as without_first};
ghost use Rattle.ql_world.specs.Word.{is_nil};
ghost use Rattle.ql_world.specs.Operator.{takes_apart, computed};
ghost use Rattle.ql_world.specs.declared.world.Aim.TheVariants.{Free as free};
ghost use Rattle.ql_code.specs.declared.code.Op.TheVariants as ops;
ghost use Rattle.ql_code.specs.declared.mark.State.TheVariants.{Running as running};
ghost use Rattle.ql_code.specs.Machine.{slot, operand_count};
ghost use Rattle.ql_code.specs.LocalPath.{topmost, untouched, result_in, given, local_op, local_tick, is_next_local};
ghost use Rattle.ql_proc.specs.Slots.{slots_on};
ghost use Rattle.ql_proc.specs.Windows.{window_on};
ghost use Rattle.ql_proc.specs.Goes.{goes_on, back_in};

use crate::inside::{lowered, stays};
use crate::process::Proc;
use crate::settle::op_at;
use ql_code::code::{Code, Op};
use ql_code::mark::{Mark, State};
use ql_world::operator::{Computed, Operator, of_symbol};
use ql_world::word::{Slot, Word};

impl Proc {
    /// Whether the next tick of a process that hasn't ended touches its window alone.
    pub fn next_is_local(&self, code: &Code) -> bool
        ensures { result ≡ is_next_local code.now.instructions None (window_on self.now free false) }
    {
        match self.state {
            State::Running => self.is_next_local(code),
            _ => false,
        }
    }

    /// The same of one that runs.
    fn is_next_local(&self, code: &Code) -> bool
        ensures { result ≡ is_some (local_tick code.now.instructions None running (slice_get code.now.instructions self.now.place) self.now.place (topmost 64 self.now.stack.items)) }
    {
        match op_at(code, self.place) {
            Some(op) => self.op_stays(code, op),
            None => false,
        }
    }

    /// The same at this instruction.
    fn op_stays(&self, code: &Code, op: &Op) -> bool
        requires { self.now.place < 65535 }
        ensures { result ≡ goes_on code.now.instructions (local_op None op.now self.now.place (topmost 64 self.now.stack.items)) }
    {
        match op {
            Op::Lit(w) => self.goes_on(code, self.place + 1, Some(Slot::Val(*w)), 0),
            Op::Local(at) => self.local_stays(code, *at),
            Op::Branch(place) => self.branch_stays(code, *place),
            Op::Bind { count, mask } => self.bind_stays(code, *count, *mask),
            Op::Call { place, args, mask } => self.call_stays(code, *place, *args, *mask),
            Op::Return => self.return_stays(code),
            Op::Prim(symbol) => self.prim_stays(code, *symbol),
            _ => false,
        }
    }

    /// Whether it stays within its window from a place on, with a slot in place of the topmost so many.
    fn goes_on(&self, code: &Code, place: u32, top: Option<Slot>, count: usize) -> bool
        requires { count ≤ length (slots_on self.now.stack.items) }
        ensures { result ≡ goes_on code.now.instructions (Some (place, map slot (option_to_list top) ++ without_first count (topmost 64 self.now.stack.items))) }
    {
        let under = lowered(self.stack.loose(), count);
        stays(code, place, top, under, self.stack.mark())
    }

    /// Whether the read of a variable stays within its window.
    fn local_stays(&self, code: &Code, at: u32) -> bool
        requires { self.now.place < 65535 }
        ensures { result ≡ goes_on code.now.instructions (local_op None (ops.Local at) self.now.place (topmost 64 self.now.stack.items)) }
    {
        match self.stack.word_in_window(at) {
            Some(w) => self.goes_on(code, self.place + 1, Some(Slot::Val(w)), 0),
            None => false,
        }
    }

    /// Whether a branch does.
    fn branch_stays(&self, code: &Code, place: u32) -> bool
        requires { self.now.place < 65535 }
        ensures { result ≡ goes_on code.now.instructions (local_op None (ops.Branch place) self.now.place (topmost 64 self.now.stack.items)) }
    {
        let Some(w) = self.untouched() else {
            return false;
        };
        self.goes_on(code, branched(w, place, self.place + 1), None, 1)
    }

    /// Whether the making of variables does.
    fn bind_stays(&self, code: &Code, count: u32, mask: u32) -> bool
        requires { self.now.place < 65535 }
        ensures { result ≡ goes_on code.now.instructions (local_op None (ops.Bind count mask) self.now.place (topmost 64 self.now.stack.items)) }
    {
        if mask != 0 {
            return false;
        }
        if !self.has_words(count) {
            return false;
        }
        self.goes_on(code, self.place + 1, None, 0)
    }

    /// Whether a call does.
    fn call_stays(&self, code: &Code, place: u32, args: u32, mask: u32) -> bool
        requires { self.now.place < 65535 }
        ensures { result ≡ goes_on code.now.instructions (local_op None (ops.Call place args mask) self.now.place (topmost 64 self.now.stack.items)) }
    {
        if mask != 0 {
            return false;
        }
        if !self.has_words(args) {
            return false;
        }
        let back = Some(Mark::Returning(self.place + 1));
        stays(code, place, None, self.stack.uppermost(args as usize), back)
    }

    /// Whether a return does.
    fn return_stays(&self, code: &Code) -> bool
        ensures { result ≡ goes_on code.now.instructions (local_op None ops.Return self.now.place (topmost 64 self.now.stack.items)) }
    {
        let Some(next) = back_in(self.stack.mark()) else {
            return false;
        };
        let Some(w) = self.top_word() else {
            return false;
        };
        let top = Some(Slot::Val(w));
        stays(
            code,
            next,
            top,
            self.stack.loose_below(),
            self.stack.mark_below(),
        )
    }

    /// Whether a primitive does.
    fn prim_stays(&self, code: &Code, symbol: u32) -> bool
        requires { self.now.place < 65535 }
        ensures { result ≡ goes_on code.now.instructions (local_op None (ops.Prim symbol) self.now.place (topmost 64 self.now.stack.items)) }
    {
        let Some(operator) = of_symbol(symbol) else {
            return false;
        };
        let Some(w) = self.computed(operator) else {
            return false;
        };
        self.goes_on(
            code,
            self.place + 1,
            Some(Slot::Val(w)),
            operand_count(operator),
        )
    }

    /// What a primitive gives by itself.
    fn computed(&self, operator: Operator) -> Option<Word>
        ensures { result ≡ option_and_then (λ ws. given (result_in None operator ws)) (untouched (operand_count (Some operator)) self.now.stack.items) }
    {
        if takes_apart(operator) {
            return None;
        }
        self.computed_alone(operator)
    }

    /// The same of one that takes no pair apart.
    fn computed_alone(&self, operator: Operator) -> Option<Word>
        requires { takes_apart operator ≡ false }
        ensures { result ≡ option_and_then (λ ws. given (computed [] operator ws)) (untouched (operand_count (Some operator)) self.now.stack.items) }
    {
        if operator.takes_one() {
            let w = self.untouched()?;
            given(operator.of_one(w))
        } else {
            let (a, b) = self.untouched_two()?;
            given(operator.of_two(a, b))
        }
    }

    /// The topmost item, where it is a word and no future.
    fn untouched(&self) -> Option<Word>
        ensures { MatchOption result (untouched 1 self.now.stack.items ≡ None) (λ w. untouched 1 self.now.stack.items ≡ Some (w ∷ [])) }
    {
        let w = self.top_word()?;
        if w.is_future() {
            return None;
        }
        Some(w)
    }

    /// The topmost two items, where they are words and no futures.
    fn untouched_two(&self) -> Option<(Word, Word)>
        ensures { MatchOption result (untouched 2 self.now.stack.items ≡ None) (λ w. untouched 2 self.now.stack.items ≡ Some (w.0 ∷ (w.1 ∷ []))) }
    {
        let (a, b) = self.top_two()?;
        if a.is_future() {
            return None;
        }
        if b.is_future() {
            return None;
        }
        Some((a, b))
    }
}

/// Where a branch goes on.
fn branched(w: Word, place: u32, next: u32) -> u32
    ensures { result ≡ (if is_nil w then place else next) }
{
    if w.is_nil() { place } else { next }
}

/// Where a call goes on.
fn back_in(mark: Option<Mark>) -> Option<u32>
    ensures { result ≡ back_in mark }
{
    match mark {
        Some(Mark::Returning(place)) => Some(place),
        _ => None,
    }
}

/// Whether it gives a part of its operand.
fn takes_apart(operator: Operator) -> bool
    ensures { result ≡ takes_apart operator }
{
    match operator {
        Operator::Car | Operator::Cdr => true,
        _ => false,
    }
}

/// How many operands a primitive takes.
fn operand_count(operator: Operator) -> usize
    ensures { result ≡ operand_count (Some operator) }
{
    if operator.takes_one() { 1 } else { 2 }
}

/// The word that was given.
fn given(found: Computed) -> Option<Word>
    ensures { result ≡ given (Some found) }
{
    match found {
        Computed::Gives(w) => Some(w),
        _ => None,
    }
}
