//! New processes.

ghost use Rattle.std.specs.Prelude.{◌≡◌, ◌<◌, ◌≤◌, ◌+◌, ◌∷◌, [], ◌++◌, None, IfOk, length, drop as without_first};
ghost use Rattle.ql_world.specs.Tick.{slots_of, words_boxed};
ghost use Rattle.ql_code.specs.declared.mark.Mark.TheVariants.{Base as base};
ghost use Rattle.ql_code.specs.declared.mark.State.TheVariants.{Resting as resting};
ghost use Rattle.ql_code.specs.Code.{unmasked};
ghost use Rattle.ql_code.specs.Machine.{point, settled, mark, push_slots, child_stack, frame_of};
ghost use Rattle.ql_proc.specs.Points.{point_of};
ghost use Rattle.ql_proc.specs.Slots.{HasWords};

use crate::process::Proc;
use crate::stack::Stack;
use ql_code::code::Code;
use ql_code::mark::{Mark, State};
use ql_world::word::Word;
use ql_world::world::Closure;
use std::alloc::{AllocError, Global};

impl Proc {
    /// The first process of a run.
    pub fn first(alloc: Global, code: &Code) -> Result<Proc, AllocError>
        ensures { IfOk result (λ p. point_of p ≡ settled code.now.instructions 0 (mark (base None) ∷ [])) }
    {
        let mut process = Proc {
            place: 0,
            stack: bottom(alloc)?,
            state: State::Running,
        };
        process.settle(code);
        Ok(process)
    }

    /// The process of a process closure, when it waits for a call.
    pub fn at_rest(alloc: Global, closure: &Closure) -> Result<Proc, AllocError>
        ensures { IfOk result (λ p. point_of p ≡ point closure.now.place (mark (base None) ∷ []) resting) }
    {
        Ok(Proc {
            place: closure.place,
            stack: bottom(alloc)?,
            state: State::Resting,
        })
    }

    /// The process of a process closure, where its body begins with these words. Parameters that are stored get boxes,
    /// numbered from this one.
    pub fn started(
        alloc: Global,
        code: &Code,
        closure: &Closure,
        words: &[Word],
        first: u32,
    ) -> Result<Proc, AllocError>
        requires count { length words.now ≡ closure.now.count }
        requires boxes { first + length (words_boxed (unmasked closure.now.count closure.now.mask) words.now) ≤ 4294967295 }
        ensures { IfOk result (λ p. point_of p ≡ settled code.now.instructions closure.now.place (push_slots (slots_of (unmasked closure.now.count closure.now.mask) words.now first ++ closure.now.captured) (mark (base None) ∷ []))) }
    {
        let more = words.len() + closure.captured.as_slice().len() + 1;
        let mut process = Proc {
            place: 0,
            stack: Stack::new(alloc),
            state: State::Over,
        };
        process.stack.reserve(more as u64)?;
        process.start(code, closure, words, first);
        Ok(process)
    }

    /// Begins the body of a closure with these words, in place of all that was. Parameters that are stored get boxes,
    /// numbered from this one.
    pub fn start(&mut self, code: &Code, closure: &Closure, words: &[Word], first: u32)
        requires count { length words.now ≡ closure.now.count }
        requires room { length words.now + length closure.now.captured < self.old.stack.room }
        requires boxes { first + length (words_boxed (unmasked closure.now.count closure.now.mask) words.now) ≤ 4294967295 }
        ensures point { point_of self.new ≡ settled code.now.instructions closure.now.place (push_slots (slots_of (unmasked closure.now.count closure.now.mask) words.now first ++ closure.now.captured) (mark (base None) ∷ [])) }
        ensures room { self.old.stack.room ≤ self.new.stack.room + length words.now + length closure.now.captured + 1 }
    {
        self.stack.clear();
        self.stack.push_mark(Mark::Base(None));
        self.stack.push_words(words);
        self.stack.bind(words.len(), closure.mask, first);
        self.stack.push_all(closure.captured.as_slice());
        self.place = closure.place;
        self.settle(code);
    }

    /// Waits for a call of a closure, in place of all that was.
    pub fn reset(&mut self, closure: &Closure)
        requires { 0 < self.old.stack.room }
        ensures point { point_of self.new ≡ point closure.now.place (mark (base None) ∷ []) resting }
        ensures room { self.old.stack.room ≤ self.new.stack.room + 1 }
    {
        self.stack.clear();
        self.stack.push_mark(Mark::Base(None));
        self.place = closure.place;
        self.state = State::Resting;
    }

    /// A child of a process with this stack, which has a proposition on top. The child has a copy of the frame, so many
    /// nils over it, and its own `join` at a place. It begins at the other.
    pub fn child(
        alloc: Global,
        code: &Code,
        parent: &Stack,
        nils: u32,
        join: u32,
        start: u32,
    ) -> Result<Proc, AllocError>
        requires { HasWords 1 parent.now.items }
        ensures { IfOk result (λ p. point_of p ≡ settled code.now.instructions start (child_stack nils join (frame_of (without_first 1 parent.now.items)))) }
    {
        let mut process = Proc {
            place: start,
            stack: child_of(alloc, parent, nils, join)?,
            state: State::Running,
        };
        process.settle(code);
        Ok(process)
    }
}

/// The stack of a process that isn't a child, with its bottom alone.
fn bottom(alloc: Global) -> Result<Stack, AllocError>
    ensures { IfOk result (λ stack. stack.items ≡ mark (base None) ∷ []) }
{
    let mut stack = Stack::new(alloc);
    stack.reserve(1)?;
    stack.push_mark(Mark::Base(None));
    Ok(stack)
}

/// The stack of a child.
fn child_of(alloc: Global, parent: &Stack, nils: u32, join: u32) -> Result<Stack, AllocError>
    requires { HasWords 1 parent.now.items }
    ensures { IfOk result (λ stack. stack.items ≡ child_stack nils join (frame_of (without_first 1 parent.now.items))) }
{
    let frame = parent.frame_under();
    let mut stack = Stack::new(alloc);
    stack.reserve(frame.len() as u64 + nils as u64 + 1)?;
    stack.push_mark(Mark::Base(Some(join)));
    stack.push_all(frame);
    stack.push_nils(nils);
    Ok(stack)
}
