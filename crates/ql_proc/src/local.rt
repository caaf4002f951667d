//! What a process does by itself: ticks that touch its window alone.

ghost use Rattle.std.specs.Prelude.{◌≡◌, ◌<◌, ◌≤◌, ◌+◌, ◌∷◌, true, false, None, Some, if◌then◌else◌, length};
ghost use Rattle.ql_world.specs.Word.{is_nil};
ghost use Rattle.ql_world.specs.Operator.{takes_one, takes_apart};
ghost use Rattle.ql_code.specs.declared.code.Op.TheVariants.{Local as local, Branch as branch, Prim as prim, Bind as bind, Call as call, Return as return};
ghost use Rattle.ql_code.specs.declared.mark.State.TheVariants.{Running as running};
ghost use Rattle.ql_code.specs.Machine.{word};
ghost use Rattle.ql_code.specs.LocalPath.{LocalPath, IsGreatest, local_op, computed_by};
ghost use Rattle.ql_proc.specs.Local.{tick_end, Takes, Steps};
ghost use Rattle.ql_proc.specs.Points.{point_of};
ghost use Rattle.ql_proc.specs.Windows.{window_in};

use crate::process::Proc;
use crate::settle::{next_place, op_at};
use crate::window::{Done, Job, Window};
use ql_code::code::{Code, Op};
use ql_code::mark::{Mark, State};
use ql_world::operator::{Computed, Operator, of_symbol};
use ql_world::word::Word;

/// Takes as many ticks as touch the window alone, but at most so many as the job allows.
pub fn run_local(code: &Code, job: Job) -> Done
    requires same { window_in job.start ≡ window_in job.window }
    requires room { job.most ≤ job.window.top.stack.room }
    ensures proc { result.proc ≡ job.proc }
    ensures start { result.start ≡ job.start }
    ensures path { LocalPath code.now.instructions (window_in job.start) result.steps (window_in result.window) }
    ensures greatest { IsGreatest code.now.instructions None (window_in job.start) job.most result.steps }
{
    let mut window = job.window;
    let steps = window.run(code, job.most);
    Done {
        proc: job.proc,
        start: job.start,
        window,
        steps,
    }
}

impl Window {
    /// Takes as many local ticks as there are, but at most so many.
    fn run(&mut self, code: &Code, most: u64) -> u64
        requires room { most ≤ self.old.top.stack.room }
        ensures path { LocalPath code.now.instructions (window_in self.old) result (window_in self.new) }
        ensures greatest { IsGreatest code.now.instructions None (window_in self.old) most result }
    {
        if self.top.state != State::Running {
            return 0;
        }
        let mut steps = 0;
        'ticks: while steps < most {
            if !self.top.step(code) {
                break;
            }
            steps += 1;
        }
        steps
    }
}

impl Proc {
    /// Takes the next tick of a process that runs, where that is local.
    #[inline(always)]
    fn step(&mut self, code: &Code) -> bool
        requires running { self.old.state ≡ running }
        requires room { 0 < self.old.stack.room }
        ensures steps { Steps code.now.instructions result (point_of self.old) (point_of self.new) }
        ensures room { self.old.stack.room ≤ self.new.stack.room + 1 }
    {
        let Some(op) = op_at(code, self.place) else {
            return false;
        };
        match op {
            Op::Lit(w) => self.push_here(code, *w),
            Op::Local(at) => self.read_here(code, *at),
            Op::Branch(place) => self.branch_here(code, *place),
            Op::Prim(symbol) => self.compute_here(code, *symbol),
            Op::Bind { count, mask } => self.bind_here(code, *count, *mask),
            Op::Call { place, args, mask } => self.call_here(code, *place, *args, *mask),
            Op::Return => self.return_here(code),
            _ => false,
        }
    }

    /// Pushes a word.
    #[inline(always)]
    fn push_here(&mut self, code: &Code, w: Word) -> bool
        requires running { self.old.state ≡ running }
        requires place { self.old.place < length code.now.instructions }
        requires room { 0 < self.old.stack.room }
        ensures takes { Takes (tick_end code.now.instructions (Some (self.old.place + 1, word w ∷ self.old.stack.items))) result (point_of self.old) (point_of self.new) }
        ensures room { self.old.stack.room ≤ self.new.stack.room + 1 }
    {
        self.land_push(code, next_place(code, self.place), w)
    }

    /// Pushes the word of a slot.
    #[inline(always)]
    fn read_here(&mut self, code: &Code, at: u32) -> bool
        requires running { self.old.state ≡ running }
        requires place { self.old.place < length code.now.instructions }
        requires room { 0 < self.old.stack.room }
        ensures takes { Takes (tick_end code.now.instructions (local_op None (local at) self.old.place self.old.stack.items)) result (point_of self.old) (point_of self.new) }
        ensures room { self.old.stack.room ≤ self.new.stack.room + 1 }
    {
        let Some(w) = self.stack.local_word(at) else {
            return false;
        };
        self.push_here(code, w)
    }

    /// Takes a word, and goes on at a place where it is nil.
    #[inline(always)]
    fn branch_here(&mut self, code: &Code, place: u32) -> bool
        requires running { self.old.state ≡ running }
        requires place { self.old.place < length code.now.instructions }
        ensures takes { Takes (tick_end code.now.instructions (local_op None (branch place) self.old.place self.old.stack.items)) result (point_of self.old) (point_of self.new) }
        ensures room { self.old.stack.room ≤ self.new.stack.room }
    {
        let Some(w) = self.top_value() else {
            return false;
        };
        let next = branch_place(w, place, next_place(code, self.place));
        self.land_drop(code, next)
    }

    /// Computes by a primitive.
    #[inline(always)]
    fn compute_here(&mut self, code: &Code, symbol: u32) -> bool
        requires running { self.old.state ≡ running }
        requires place { self.old.place < length code.now.instructions }
        ensures takes { Takes (tick_end code.now.instructions (local_op None (prim symbol) self.old.place self.old.stack.items)) result (point_of self.old) (point_of self.new) }
        ensures room { self.old.stack.room ≤ self.new.stack.room }
    {
        let Some(operator) = of_symbol(symbol) else {
            return false;
        };
        if operator.takes_one() {
            self.compute_one(code, operator)
        } else {
            self.compute_two(code, operator)
        }
    }

    /// The same by one that has one operand.
    fn compute_one(&mut self, code: &Code, operator: Operator) -> bool
        requires running { self.old.state ≡ running }
        requires place { self.old.place < length code.now.instructions }
        requires one { takes_one operator ≡ true }
        ensures takes { Takes (tick_end code.now.instructions (computed_by None (Some operator) self.old.place self.old.stack.items)) result (point_of self.old) (point_of self.new) }
        ensures room { self.old.stack.room ≤ self.new.stack.room }
    {
        if takes_apart(operator) {
            return false;
        }
        let Some(a) = self.top_value() else {
            return false;
        };
        let Computed::Gives(w) = operator.of_one(a) else {
            return false;
        };
        self.land_replace(code, next_place(code, self.place), 1, w)
    }

    /// The same by one that has two operands.
    #[inline(always)]
    fn compute_two(&mut self, code: &Code, operator: Operator) -> bool
        requires running { self.old.state ≡ running }
        requires place { self.old.place < length code.now.instructions }
        requires two { takes_one operator ≡ false }
        ensures takes { Takes (tick_end code.now.instructions (computed_by None (Some operator) self.old.place self.old.stack.items)) result (point_of self.old) (point_of self.new) }
        ensures room { self.old.stack.room ≤ self.new.stack.room }
    {
        let Some((a, b)) = self.top_two_values() else {
            return false;
        };
        let Computed::Gives(w) = operator.of_two(a, b) else {
            return false;
        };
        self.land_replace(code, next_place(code, self.place), 2, w)
    }

    /// Makes variables of the topmost so many words, where none is stored.
    #[inline(always)]
    fn bind_here(&mut self, code: &Code, count: u32, mask: u32) -> bool
        requires running { self.old.state ≡ running }
        requires place { self.old.place < length code.now.instructions }
        ensures takes { Takes (tick_end code.now.instructions (local_op None (bind count mask) self.old.place self.old.stack.items)) result (point_of self.old) (point_of self.new) }
        ensures room { self.old.stack.room ≤ self.new.stack.room }
    {
        if mask != 0 || !self.has_words(count) {
            return false;
        }
        self.land_pass(code, next_place(code, self.place))
    }

    /// Calls the function at a place, where no parameter is stored.
    #[inline(always)]
    fn call_here(&mut self, code: &Code, place: u32, count: u32, mask: u32) -> bool
        requires running { self.old.state ≡ running }
        requires place { self.old.place < length code.now.instructions }
        requires room { 0 < self.old.stack.room }
        ensures takes { Takes (tick_end code.now.instructions (local_op None (call place count mask) self.old.place self.old.stack.items)) result (point_of self.old) (point_of self.new) }
        ensures room { self.old.stack.room ≤ self.new.stack.room + 1 }
    {
        if mask != 0 || !self.has_words(count) {
            return false;
        }
        self.land_call(code, place, count as usize, next_place(code, self.place))
    }

    /// Goes back to the caller with the top word.
    #[inline(always)]
    fn return_here(&mut self, code: &Code) -> bool
        requires running { self.old.state ≡ running }
        ensures takes { Takes (tick_end code.now.instructions (local_op None return self.old.place self.old.stack.items)) result (point_of self.old) (point_of self.new) }
        ensures room { self.old.stack.room ≤ self.new.stack.room }
    {
        let Some(w) = self.top_word() else {
            return false;
        };
        let Some(Mark::Returning(back)) = self.top_mark() else {
            return false;
        };
        self.land_give(code, back, w)
    }
}

/// Where a branch on a word goes on: where that is nil at the first place, else at the second.
fn branch_place(w: Word, place: u32, next: u32) -> u32
    ensures { result ≡ (if is_nil w then place else next) }
{
    if w.is_nil() { place } else { next }
}

/// Whether it gives a part of its operand.
fn takes_apart(operator: Operator) -> bool
    ensures { result ≡ takes_apart operator }
{
    match operator {
        Operator::Car | Operator::Cdr => true,
        _ => false,
    }
}
