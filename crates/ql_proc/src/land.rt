//! Local ticks, from the place on where they go on: they are taken where the silent instructions that follow stay within the
//! window, and else the process stays as it is.

ghost use Rattle.std.specs.Prelude.{◌≡◌, ◌<◌, ◌≤◌, ◌+◌, ◌∷◌, true, Some, is_some, length, drop as without_first};
ghost use Rattle.ql_code.specs.declared.mark.Mark.TheVariants.{Returning as returning};
ghost use Rattle.ql_code.specs.declared.mark.State.TheVariants.{Running as running};
ghost use Rattle.ql_code.specs.Machine.{mark, word, words, push, top_mark, below_mark};
ghost use Rattle.ql_proc.specs.Local.{tick_end, Takes};
ghost use Rattle.ql_proc.specs.Points.{point_of};
ghost use Rattle.ql_proc.specs.Slots.{HasWords};

use crate::process::Proc;
use crate::settle::landing;
use ql_code::code::Code;
use ql_code::mark::Mark;
use ql_world::word::{Slot, Word};

impl Proc {
    /// Pushes a word.
    #[inline(always)]
    pub(crate) fn land_push(&mut self, code: &Code, place: u32, w: Word) -> bool
        requires running { self.old.state ≡ running }
        requires room { 0 < self.old.stack.room }
        ensures takes { Takes (tick_end code.now.instructions (Some (place, word w ∷ self.old.stack.items))) result (point_of self.old) (point_of self.new) }
        ensures room { self.old.stack.room ≤ self.new.stack.room + 1 }
    {
        let Some(last) = landing(code, place) else {
            return self.land_push_slowly(code, place, w);
        };
        self.stack.push(Slot::Val(w));
        self.place = last;
        true
    }

    /// The same where silent instructions follow.
    #[inline(never)]
    fn land_push_slowly(&mut self, code: &Code, place: u32, w: Word) -> bool
        requires room { 0 < self.old.stack.room }
        ensures takes { Takes (tick_end code.now.instructions (Some (place, word w ∷ self.old.stack.items))) result (point_of self.old) (point_of self.new) }
        ensures room { self.old.stack.room ≤ self.new.stack.room + 1 }
    {
        if !self.stays_with(code, place, Some(Slot::Val(w)), 0) {
            return false;
        }
        self.push_at(code, place, w);
        true
    }

    /// Takes the topmost word away.
    #[inline(always)]
    pub(crate) fn land_drop(&mut self, code: &Code, place: u32) -> bool
        requires running { self.old.state ≡ running }
        requires words { HasWords 1 self.old.stack.items }
        ensures takes { Takes (tick_end code.now.instructions (Some (place, without_first 1 self.old.stack.items))) result (point_of self.old) (point_of self.new) }
        ensures room { self.old.stack.room ≤ self.new.stack.room }
    {
        let Some(last) = landing(code, place) else {
            return self.land_drop_slowly(code, place);
        };
        self.stack.drop_word();
        self.place = last;
        true
    }

    /// The same where silent instructions follow.
    #[inline(never)]
    fn land_drop_slowly(&mut self, code: &Code, place: u32) -> bool
        requires words { HasWords 1 self.old.stack.items }
        ensures takes { Takes (tick_end code.now.instructions (Some (place, without_first 1 self.old.stack.items))) result (point_of self.old) (point_of self.new) }
        ensures room { self.old.stack.room ≤ self.new.stack.room }
    {
        if !self.stays_with(code, place, None, 1) {
            return false;
        }
        self.drop_to(code, place);
        true
    }

    /// Puts a word in place of the topmost so many.
    #[inline(always)]
    pub(crate) fn land_replace(&mut self, code: &Code, place: u32, count: usize, w: Word) -> bool
        requires running { self.old.state ≡ running }
        requires some { 0 < count }
        requires words { HasWords count self.old.stack.items }
        ensures takes { Takes (tick_end code.now.instructions (Some (place, word w ∷ without_first count self.old.stack.items))) result (point_of self.old) (point_of self.new) }
        ensures room { self.old.stack.room ≤ self.new.stack.room }
    {
        let Some(last) = landing(code, place) else {
            return self.land_replace_slowly(code, place, count, w);
        };
        self.stack.replace(count, Slot::Val(w));
        self.place = last;
        true
    }

    /// The same where silent instructions follow.
    #[inline(never)]
    fn land_replace_slowly(&mut self, code: &Code, place: u32, count: usize, w: Word) -> bool
        requires some { 0 < count }
        requires words { HasWords count self.old.stack.items }
        ensures takes { Takes (tick_end code.now.instructions (Some (place, word w ∷ without_first count self.old.stack.items))) result (point_of self.old) (point_of self.new) }
        ensures room { self.old.stack.room ≤ self.new.stack.room }
    {
        if !self.stays_with(code, place, Some(Slot::Val(w)), count) {
            return false;
        }
        self.replace_at(code, place, count, w);
        true
    }

    /// Leaves the stack as it is.
    #[inline(always)]
    pub(crate) fn land_pass(&mut self, code: &Code, place: u32) -> bool
        requires running { self.old.state ≡ running }
        ensures takes { Takes (tick_end code.now.instructions (Some (place, self.old.stack.items))) result (point_of self.old) (point_of self.new) }
        ensures room { self.old.stack.room ≤ self.new.stack.room }
    {
        let Some(last) = landing(code, place) else {
            return self.land_pass_slowly(code, place);
        };
        self.place = last;
        true
    }

    /// The same where silent instructions follow.
    #[inline(never)]
    fn land_pass_slowly(&mut self, code: &Code, place: u32) -> bool
        ensures takes { Takes (tick_end code.now.instructions (Some (place, self.old.stack.items))) result (point_of self.old) (point_of self.new) }
        ensures room { self.old.stack.room ≤ self.new.stack.room }
    {
        if !self.stays_with(code, place, None, 0) {
            return false;
        }
        self.pass_to(code, place);
        true
    }

    /// Puts the mark of a call, which goes back to this place, under the topmost so many words.
    #[inline(always)]
    pub(crate) fn land_call(&mut self, code: &Code, place: u32, count: usize, back: u32) -> bool
        requires running { self.old.state ≡ running }
        requires room { 0 < self.old.stack.room }
        requires words { HasWords count self.old.stack.items }
        ensures takes { Takes (tick_end code.now.instructions (Some (place, push (words count self.old.stack.items) (mark (returning back) ∷ without_first count self.old.stack.items)))) result (point_of self.old) (point_of self.new) }
        ensures room { self.old.stack.room ≤ self.new.stack.room + 1 }
    {
        let Some(last) = landing(code, place) else {
            return self.land_call_slowly(code, place, count, back);
        };
        self.stack.enter(count, Mark::Returning(back));
        self.place = last;
        true
    }

    /// The same where silent instructions follow.
    #[inline(never)]
    fn land_call_slowly(&mut self, code: &Code, place: u32, count: usize, back: u32) -> bool
        requires room { 0 < self.old.stack.room }
        requires words { HasWords count self.old.stack.items }
        ensures takes { Takes (tick_end code.now.instructions (Some (place, push (words count self.old.stack.items) (mark (returning back) ∷ without_first count self.old.stack.items)))) result (point_of self.old) (point_of self.new) }
        ensures room { self.old.stack.room ≤ self.new.stack.room + 1 }
    {
        if !self.stays_called(code, place, count, back) {
            return false;
        }
        self.call_plain(code, place, count, back);
        true
    }

    /// Puts a word in place of all down to the topmost mark, and of that mark.
    #[inline(always)]
    pub(crate) fn land_give(&mut self, code: &Code, place: u32, w: Word) -> bool
        requires running { self.old.state ≡ running }
        requires top { HasWords 1 self.old.stack.items }
        requires mark { is_some (top_mark self.old.stack.items) ≡ true }
        ensures takes { Takes (tick_end code.now.instructions (Some (place, word w ∷ below_mark self.old.stack.items))) result (point_of self.old) (point_of self.new) }
        ensures room { self.old.stack.room ≤ self.new.stack.room }
    {
        let Some(last) = landing(code, place) else {
            return self.land_give_slowly(code, place, w);
        };
        self.stack.give(w);
        self.place = last;
        true
    }

    /// The same where silent instructions follow.
    #[inline(never)]
    fn land_give_slowly(&mut self, code: &Code, place: u32, w: Word) -> bool
        requires top { HasWords 1 self.old.stack.items }
        requires mark { is_some (top_mark self.old.stack.items) ≡ true }
        ensures takes { Takes (tick_end code.now.instructions (Some (place, word w ∷ below_mark self.old.stack.items))) result (point_of self.old) (point_of self.new) }
        ensures room { self.old.stack.room ≤ self.new.stack.room }
    {
        if !self.stays_given(code, place, w) {
            return false;
        }
        self.give(code, place, w);
        true
    }
}
