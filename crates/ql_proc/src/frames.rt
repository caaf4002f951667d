//! The moves that a host makes on the catches and cleanups of a process.

ghost use Rattle.std.specs.Prelude.{◌≡◌, ◌<◌, ◌≤◌, ◌+◌, ◌∷◌, ℕ, List, length, drop as without_first};
ghost use Rattle.ql_world.specs.declared.world.Aim.TheVariants.{Free as free};
ghost use Rattle.ql_world.specs.declared.word.Slot.{Slot};
ghost use Rattle.ql_world.specs.declared.word.Slot.TheVariants.{Val as plain};
ghost use Rattle.ql_world.specs.Word.{nil};
ghost use Rattle.ql_code.specs.declared.mark.Mark.{Mark};
ghost use Rattle.ql_code.specs.declared.mark.Mark.TheVariants.{Catching as catching, Protecting as protecting, Cleaning as cleaning};
ghost use Rattle.ql_code.specs.Machine.{Item, slot, mark, word, settled, unwind_point, aim_cleanup};
ghost use Rattle.ql_proc.specs.Points.{point_of};

use crate::process::Proc;
use crate::settle::next_place;
use ql_code::code::Code;
use ql_code::mark::{Mark, State};
use ql_world::word::{Slot, Word};
use ql_world::world::{Aim, Cleanup};

impl Proc {
    /// Takes the tag of a catch, opens the catch, and goes on. A landing goes on at the place.
    pub fn open(&mut self, code: &Code, catch: u32, place: u32)
        requires place { self.old.place < length code.now.instructions }
        requires room { 0 < self.old.stack.room }
        ensures point { point_of self.new ≡ settled code.now.instructions (self.old.place + 1) (mark (catching catch place) ∷ without_first 1 self.old.stack.items) }
        ensures room { self.old.stack.room ≤ self.new.stack.room + 1 }
    {
        self.stack.drop_top();
        self.stack.push_mark(Mark::Catching(catch, place));
        self.place = next_place(code, self.place);
        self.settle(code);
    }

    /// Leaves a catch with the slot over it, and goes on.
    pub fn exit(&mut self, code: &Code)
        requires { self.old.place < length code.now.instructions }
        ensures point { (s : Slot) (k : Mark) (rest : List Item) → self.old.stack.items ≡ slot s ∷ (mark k ∷ rest)
            → point_of self.new ≡ settled code.now.instructions (self.old.place + 1) (slot s ∷ rest) }
        ensures room { self.old.stack.room ≤ self.new.stack.room }
    {
        self.stack.leave_mark();
        self.place = next_place(code, self.place);
        self.settle(code);
    }

    /// Begins a protected body, and goes on. An unwinding goes on at the place.
    pub fn protect(&mut self, code: &Code, protect: u64, place: u32)
        requires place { self.old.place < length code.now.instructions }
        requires room { 0 < self.old.stack.room }
        ensures point { point_of self.new ≡ settled code.now.instructions (self.old.place + 1) (mark (protecting protect place) ∷ self.old.stack.items) }
        ensures room { self.old.stack.room ≤ self.new.stack.room + 1 }
    {
        self.stack.push_mark(Mark::Protecting(protect, place));
        self.place = next_place(code, self.place);
        self.settle(code);
    }

    /// Begins the cleanup of a protect over the protected slot, and goes on.
    pub fn begin(&mut self, code: &Code, protect: u64, floor: u32)
        requires { self.old.place < length code.now.instructions }
        ensures point { (s : Slot) (l : ℕ) (rest : List Item) → self.old.stack.items ≡ slot s ∷ (mark (protecting protect l) ∷ rest)
            → point_of self.new ≡ settled code.now.instructions (self.old.place + 1) (mark (cleaning protect (record { aim = free; floor = floor })) ∷ (slot s ∷ rest)) }
        ensures room { self.old.stack.room ≤ self.new.stack.room }
    {
        self.stack.raise_mark(cleaning_of(protect, floor));
        self.place = next_place(code, self.place);
        self.settle(code);
    }

    /// Begins the cleanup of a protect that is left by unwinding, over nil, at a place.
    pub fn begin_unwinding(&mut self, code: &Code, protect: u64, place: u32, floor: u32)
        requires { 0 < self.old.stack.room }
        ensures point { (rest : List Item) → self.old.stack.items ≡ mark (protecting protect place) ∷ rest
            → point_of self.new ≡ settled code.now.instructions place (mark (cleaning protect (record { aim = free; floor = floor })) ∷ (slot (plain nil) ∷ rest)) }
        ensures room { self.old.stack.room ≤ self.new.stack.room + 1 }
    {
        self.stack.push(Slot::Val(Word::Sym(0)));
        self.stack.raise_mark(cleaning_of(protect, floor));
        self.place = place;
        self.settle(code);
    }

    /// Ends a cleanup, and goes on.
    pub fn finish(&mut self, code: &Code)
        requires { self.old.place < length code.now.instructions }
        ensures point { point_of self.new ≡ settled code.now.instructions (self.old.place + 1) (without_first 2 self.old.stack.items) }
        ensures room { self.old.stack.room ≤ self.new.stack.room }
    {
        self.stack.drop_two();
        self.place = next_place(code, self.place);
        self.settle(code);
    }

    /// Ends a cleanup, and goes on unwinding.
    pub fn finish_unwinding(&mut self)
        ensures point { point_of self.new ≡ unwind_point self.old.place (without_first 2 self.old.stack.items) }
        ensures room { self.old.stack.room ≤ self.new.stack.room }
    {
        self.stack.drop_two();
        self.unwind();
    }

    /// Takes a tag and a word, gives the innermost running cleanup this aim, and unwinds.
    pub fn throw_in_cleanup(&mut self, aim: Aim)
        ensures point { point_of self.new ≡ unwind_point self.old.place (aim_cleanup aim (without_first 2 self.old.stack.items)) }
        ensures room { self.old.stack.room ≤ self.new.stack.room }
    {
        self.stack.drop_two();
        self.stack.aim(aim);
        self.unwind();
    }

    /// Lands at the catch on top with a word, and goes on at its place.
    pub fn land(&mut self, code: &Code, place: u32, w: Word)
        requires { 0 < self.old.stack.room }
        ensures point { point_of self.new ≡ settled code.now.instructions place (word w ∷ aim_cleanup free (without_first 1 self.old.stack.items)) }
        ensures room { self.old.stack.room ≤ self.new.stack.room + 1 }
    {
        self.stack.drop_top();
        self.stack.aim(Aim::Free);
        self.push_at(code, place, w);
    }

    /// Leaves the catch on top, and goes on unwinding.
    pub fn leave(&mut self)
        ensures point { point_of self.new ≡ unwind_point self.old.place (without_first 1 self.old.stack.items) }
        ensures room { self.old.stack.room ≤ self.new.stack.room }
    {
        self.stack.drop_top();
        self.unwind();
    }

    /// Unwinds down to the next catch or protect, to a running cleanup or to the bottom.
    pub fn unwind(&mut self)
        ensures point { point_of self.new ≡ unwind_point self.old.place self.old.stack.items }
        ensures room { self.old.stack.room ≤ self.new.stack.room }
    {
        self.stack.unwind();
        self.state = State::Unwinding;
    }
}

/// The mark of a cleanup that begins.
fn cleaning_of(protect: u64, floor: u32) -> Mark
    ensures { result ≡ cleaning protect (record { aim = free; floor = floor }) }
{
    Mark::Cleaning(
        protect,
        Cleanup {
            aim: Aim::Free,
            floor,
        },
    )
}
