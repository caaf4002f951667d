//! The moves that a host makes on a process, but for those with marks of catches and cleanups.
//!
//! Each move ends at an instruction that isn't silent. Nothing in it takes memory: what it pushes needs room.

ghost use Rattle.std.specs.Prelude.{◌≡◌, ◌<◌, ◌≤◌, ◌+◌, ◌∷◌, ◌++◌, suc, true, is_some, length, map, drop as without_first};
ghost use Rattle.ql_world.specs.declared.word.Word.TheVariants.{Fut as future};
ghost use Rattle.ql_world.specs.Word.{with_value};
ghost use Rattle.ql_world.specs.World.{numbers};
ghost use Rattle.ql_world.specs.Tick.{slots_of, words_boxed};
ghost use Rattle.ql_code.specs.declared.mark.Mark.TheVariants.{Returning as returning};
ghost use Rattle.ql_code.specs.Code.{unmasked};
ghost use Rattle.ql_code.specs.Machine.{settled, ended, mark, word, words, push, push_slots, top_mark, below_mark};
ghost use Rattle.ql_proc.specs.Points.{point_of};
ghost use Rattle.ql_proc.specs.Slots.{HasWords};

use crate::process::Proc;
use crate::settle::next_place;
use ql_code::code::Code;
use ql_code::mark::{Mark, State};
use ql_world::word::{Slot, Word};
use ql_world::world::Closure;

impl Proc {
    /// Pushes a word, and goes on.
    pub fn push_word(&mut self, code: &Code, w: Word)
        requires place { self.old.place < length code.now.instructions }
        requires room { 0 < self.old.stack.room }
        ensures point { point_of self.new ≡ settled code.now.instructions (self.old.place + 1) (word w ∷ self.old.stack.items) }
        ensures room { self.old.stack.room ≤ self.new.stack.room + 1 }
    {
        let next = next_place(code, self.place);
        self.push_at(code, next, w);
    }

    /// Pushes a word, and goes on at a place.
    pub fn push_at(&mut self, code: &Code, place: u32, w: Word)
        requires { 0 < self.old.stack.room }
        ensures point { point_of self.new ≡ settled code.now.instructions place (word w ∷ self.old.stack.items) }
        ensures room { self.old.stack.room ≤ self.new.stack.room + 1 }
    {
        self.stack.push(Slot::Val(w));
        self.place = place;
        self.settle(code);
    }

    /// Goes on.
    pub fn pass_on(&mut self, code: &Code)
        requires { self.old.place < length code.now.instructions }
        ensures point { point_of self.new ≡ settled code.now.instructions (self.old.place + 1) self.old.stack.items }
        ensures room { self.old.stack.room ≤ self.new.stack.room }
    {
        self.place = next_place(code, self.place);
        self.settle(code);
    }

    /// Goes on at a place.
    pub(crate) fn pass_to(&mut self, code: &Code, place: u32)
        ensures point { point_of self.new ≡ settled code.now.instructions place self.old.stack.items }
        ensures room { self.old.stack.room ≤ self.new.stack.room }
    {
        self.place = place;
        self.settle(code);
    }

    /// Takes the topmost item away, and goes on at a place.
    pub fn drop_to(&mut self, code: &Code, place: u32)
        ensures point { point_of self.new ≡ settled code.now.instructions place (without_first 1 self.old.stack.items) }
        ensures room { self.old.stack.room ≤ self.new.stack.room }
    {
        self.stack.drop_top();
        self.place = place;
        self.settle(code);
    }

    /// Puts a word in place of the topmost one, and goes on at a place.
    pub fn replace_one(&mut self, code: &Code, place: u32, w: Word)
        requires { HasWords 1 self.old.stack.items }
        ensures point { point_of self.new ≡ settled code.now.instructions place (word w ∷ without_first 1 self.old.stack.items) }
        ensures room { self.old.stack.room ≤ self.new.stack.room }
    {
        self.stack.replace(1, Slot::Val(w));
        self.place = place;
        self.settle(code);
    }

    /// Puts a word in place of the topmost so many, and goes on at a place.
    pub(crate) fn replace_at(&mut self, code: &Code, place: u32, count: usize, w: Word)
        requires some { 0 < count }
        requires words { HasWords count self.old.stack.items }
        ensures point { point_of self.new ≡ settled code.now.instructions place (word w ∷ without_first count self.old.stack.items) }
        ensures room { self.old.stack.room ≤ self.new.stack.room }
    {
        self.stack.replace(count, Slot::Val(w));
        self.place = place;
        self.settle(code);
    }

    /// Puts a word in place of the topmost two, and goes on.
    pub fn replace_two(&mut self, code: &Code, w: Word)
        requires place { self.old.place < length code.now.instructions }
        requires words { HasWords 2 self.old.stack.items }
        ensures point { point_of self.new ≡ settled code.now.instructions (self.old.place + 1) (word w ∷ without_first 2 self.old.stack.items) }
        ensures room { self.old.stack.room ≤ self.new.stack.room }
    {
        self.stack.replace(2, Slot::Val(w));
        self.place = next_place(code, self.place);
        self.settle(code);
    }

    /// Puts a word in place of so many topmost words and the one under them, and goes on.
    pub fn replace_call(&mut self, code: &Code, count: u32, w: Word)
        requires place { self.old.place < length code.now.instructions }
        requires words { HasWords (suc count) self.old.stack.items }
        ensures point { point_of self.new ≡ settled code.now.instructions (self.old.place + 1) (word w ∷ without_first (suc count) self.old.stack.items) }
        ensures room { self.old.stack.room ≤ self.new.stack.room }
    {
        self.stack.replace(count as usize + 1, Slot::Val(w));
        self.place = next_place(code, self.place);
        self.settle(code);
    }

    /// Puts a word in place of the leftmost future among the topmost so many words, and stays.
    pub fn replace_future(&mut self, code: &Code, count: usize, value: Word)
        requires { HasWords count self.old.stack.items }
        ensures point { point_of self.new ≡ settled code.now.instructions self.old.place (push (with_value value (words count self.old.stack.items)) (without_first count self.old.stack.items)) }
        ensures room { self.old.stack.room ≤ self.new.stack.room }
    {
        self.stack.put_value(count, value);
        self.settle(code);
    }

    /// Takes the topmost item away, pushes so many futures, numbered from this one, and goes on at a place.
    pub fn push_futures(&mut self, code: &Code, place: u32, first: u32, count: u32)
        requires room { count ≤ self.old.stack.room }
        requires numbers { first + count ≤ 4294967295 }
        ensures point { point_of self.new ≡ settled code.now.instructions place (push (map future (numbers first count)) (without_first 1 self.old.stack.items)) }
        ensures room { self.old.stack.room ≤ self.new.stack.room + count }
    {
        self.stack.drop_top();
        self.stack.push_futures(first, count);
        self.place = place;
        self.settle(code);
    }

    /// Makes variables of the topmost so many words, and goes on. Those that are stored get boxes, numbered from this one.
    pub fn bind(&mut self, code: &Code, count: u32, mask: u32, first: u32)
        requires place { self.old.place < length code.now.instructions }
        requires words { HasWords count self.old.stack.items }
        requires boxes { first + length (words_boxed (unmasked count mask) (words count self.old.stack.items)) ≤ 4294967295 }
        ensures point { point_of self.new ≡ settled code.now.instructions (self.old.place + 1) (push_slots (slots_of (unmasked count mask) (words count self.old.stack.items) first) (without_first count self.old.stack.items)) }
        ensures room { self.old.stack.room ≤ self.new.stack.room }
    {
        self.stack.bind(count as usize, mask, first);
        self.place = next_place(code, self.place);
        self.settle(code);
    }

    /// Calls the function at a place, whose parameters become the topmost so many words. Those that are stored get
    /// boxes, numbered from this one.
    pub fn call(&mut self, code: &Code, place: u32, count: u32, mask: u32, first: u32)
        requires place { self.old.place < length code.now.instructions }
        requires room { 0 < self.old.stack.room }
        requires words { HasWords count self.old.stack.items }
        requires boxes { first + length (words_boxed (unmasked count mask) (words count self.old.stack.items)) ≤ 4294967295 }
        ensures point { point_of self.new ≡ settled code.now.instructions place (push_slots (slots_of (unmasked count mask) (words count self.old.stack.items) first) (mark (returning (self.old.place + 1)) ∷ without_first count self.old.stack.items)) }
        ensures room { self.old.stack.room ≤ self.new.stack.room + 1 }
    {
        let back = next_place(code, self.place);
        self.stack.enter(count as usize, Mark::Returning(back));
        self.stack.bind(count as usize, mask, first);
        self.place = place;
        self.settle(code);
    }

    /// Calls the function at a place, which goes back to another, and whose parameters become the topmost so many words, of
    /// which none is stored.
    pub(crate) fn call_plain(&mut self, code: &Code, place: u32, count: usize, back: u32)
        requires room { 0 < self.old.stack.room }
        requires words { HasWords count self.old.stack.items }
        ensures point { point_of self.new ≡ settled code.now.instructions place (push (words count self.old.stack.items) (mark (returning back) ∷ without_first count self.old.stack.items)) }
        ensures room { self.old.stack.room ≤ self.new.stack.room + 1 }
    {
        self.stack.enter(count, Mark::Returning(back));
        self.place = place;
        self.settle(code);
    }

    /// Enters a closure, which stands under its arguments, and which goes back to a place. Parameters that are stored
    /// get boxes, numbered from this one.
    pub fn enter(&mut self, code: &Code, count: u32, closure: &Closure, first: u32, back: u32)
        requires count { closure.now.count ≡ count }
        requires room { length closure.now.captured < self.old.stack.room }
        requires words { HasWords (suc count) self.old.stack.items }
        requires boxes { first + length (words_boxed (unmasked count closure.now.mask) (words count self.old.stack.items)) ≤ 4294967295 }
        ensures point { point_of self.new ≡ settled code.now.instructions closure.now.place (push_slots (slots_of (unmasked closure.now.count closure.now.mask) (words count self.old.stack.items) first ++ closure.now.captured) (mark (returning back) ∷ without_first (suc count) self.old.stack.items)) }
        ensures room { self.old.stack.room ≤ self.new.stack.room + length closure.now.captured + 1 }
    {
        self.stack.enter_call(count as usize, Mark::Returning(back));
        self.stack.bind(count as usize, closure.mask, first);
        self.stack.push_all(closure.captured.as_slice());
        self.place = closure.place;
        self.settle(code);
    }

    /// Returns a word to a place.
    pub fn give(&mut self, code: &Code, place: u32, w: Word)
        requires word { HasWords 1 self.old.stack.items }
        requires mark { is_some (top_mark self.old.stack.items) ≡ true }
        ensures point { point_of self.new ≡ settled code.now.instructions place (word w ∷ below_mark self.old.stack.items) }
        ensures room { self.old.stack.room ≤ self.new.stack.room }
    {
        self.stack.give(w);
        self.place = place;
        self.settle(code);
    }

    /// Ends.
    pub fn end(&mut self)
        ensures point { point_of self.new ≡ ended self.old.place }
        ensures room { self.old.stack.room ≤ self.new.stack.room }
    {
        self.stack.clear();
        self.state = State::Over;
    }
}
