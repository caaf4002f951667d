//! The silent instructions, which no tick counts.

ghost use Rattle.std.specs.Prelude.{◌≡◌, ◌<◌, ◌≤◌, ◌+◌, List, MatchOption, IfSome, OnSome, None, Some, length, option_map, slice_get};
ghost use Rattle.ql_code.specs.Machine.{Item, settled};
ghost use Rattle.ql_code.specs.LocalPath.{settle_in};
ghost use Rattle.ql_code.specs.declared.mark.State.TheVariants.{Running as running};
ghost use Rattle.ql_proc.specs.Points.{point_of, Passes};
ghost use Rattle.ql_proc.specs.Loud.{is_silent, is_loud};

use crate::process::Proc;
use ql_code::code::{Code, Op};
use ql_code::mark::{Mark, State};

impl Proc {
    /// Passes the silent instructions, from its place on, and runs.
    pub fn settle(&mut self, code: &Code)
        ensures point { point_of self.new ≡ settled code.now.instructions self.old.place self.old.stack.items }
        ensures room { self.old.stack.room ≤ self.new.stack.room }
    {
        self.state = State::Running;
        if !is_loud(code, self.place) {
            self.pass_silent(code);
        }
    }

    /// Passes the silent instructions, from its place on, of a process that runs.
    #[inline(never)]
    fn pass_silent(&mut self, code: &Code)
        requires { self.old.state ≡ running }
        ensures point { point_of self.new ≡ settled code.now.instructions self.old.place self.old.stack.items }
        ensures room { self.old.stack.room ≤ self.new.stack.room }
    {
        let mut left = code.len();
        'silent: while left > 0 {
            let Some(op) = op_at(code, self.place) else {
                break;
            };
            if !self.pass(op) {
                break;
            }
            left -= 1;
        }
    }

    /// Passes an instruction where it is silent.
    fn pass(&mut self, op: &Op) -> bool
        requires { self.old.place < 65535 }
        ensures passes { Passes result op.now (point_of self.old) (point_of self.new) }
        ensures room { self.old.stack.room ≤ self.new.stack.room }
    {
        match op {
            Op::Jump(place) => {
                self.place = *place;
                true
            }
            Op::Drop => {
                self.stack.drop_top();
                self.place += 1;
                true
            }
            Op::Slide(count) => {
                self.stack.slide(*count as usize);
                self.place += 1;
                true
            }
            Op::Join => self.pass_join(),
            Op::Touch(count) => self.pass_touch(*count),
            _ => false,
        }
    }

    /// Passes the `join` of another process.
    fn pass_join(&mut self) -> bool
        requires { self.old.place < 65535 }
        ensures passes { Passes result Op.Join (point_of self.old) (point_of self.new) }
        ensures room { self.old.stack.room ≤ self.new.stack.room }
    {
        if let Some(Mark::Base(Some(own))) = self.stack.mark() {
            if own == self.place {
                return false;
            }
        }
        self.place += 1;
        true
    }

    /// Passes a touch of words of which none is a future.
    fn pass_touch(&mut self, count: u32) -> bool
        requires { self.old.place < 65535 }
        ensures passes { Passes result (Op.Touch count) (point_of self.old) (point_of self.new) }
        ensures room { self.old.stack.room ≤ self.new.stack.room }
    {
        if let Some(_) = self.stack.first_future(count as usize) {
            return false;
        }
        self.place += 1;
        true
    }
}

/// Whether no silent instruction stands at this place.
#[inline]
pub(crate) fn is_loud(code: &Code, place: u32) -> bool
    ensures { result ≡ is_loud (slice_get code.now.instructions place) }
{
    match op_at(code, place) {
        Some(op) => !is_silent(op),
        None => true,
    }
}

/// Where a tick ends that goes on at this place, where that is told by the instructions alone: no silent one stands there,
/// or a jump past all silent ones.
#[inline]
pub(crate) fn landing(code: &Code, place: u32) -> Option<u32>
    ensures { IfSome result (λ last. (st : List Item) → settle_in code.now.instructions (length code.now.instructions) place st ≡ Some (last, st)) }
{
    let Some(op) = op_at(code, place) else {
        return Some(place);
    };
    match op {
        Op::Jump(to) if is_loud(code, *to) => Some(*to),
        _ if is_silent(op) => None,
        _ => Some(place),
    }
}

/// Whether this instruction is silent, where it can pass.
#[inline]
fn is_silent(op: &Op) -> bool
    ensures { result ≡ is_silent op.now }
{
    match op {
        Op::Jump(_) | Op::Drop | Op::Slide(_) | Op::Join | Op::Touch(_) => true,
        _ => false,
    }
}

/// The instruction at this place.
#[inline]
pub(crate) fn op_at(code: &Code, place: u32) -> Option<&Op>
    ensures found { MatchOption result (slice_get code.now.instructions place ≡ None) (λ op. option_map (λ i. i.op) (slice_get code.now.instructions place) ≡ Some op.now) }
    ensures within { OnSome result (place < 65535) }
{
    if place < code.len() {
        Some(code.at(place))
    } else {
        None
    }
}

/// The place after this one.
pub fn next_place(code: &Code, place: u32) -> u32
    requires { place < length code.now.instructions }
    ensures { result ≡ place + 1 }
{
    let _length = code.len();
    place + 1
}
