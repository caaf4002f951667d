//! The stack of a process.

ghost use Rattle.std.specs.Prelude.{◌≡◌, [], ◌∷◌, ◌<◌, ◌≤◌, ◌-◌, ◌+◌, ◌++◌, ◌==◌, reverse, suc, true, false, is_some, Some, slice_get, length, map, replicate, take, List, IfOk, OnOk, IsOk, MatchOption, option_and_then, option_to_list, drop as without_first, vec_len, vec_capacity};
ghost use Rattle.ql_world.specs.declared.word.Slot.{Slot};
ghost use Rattle.ql_code.specs.declared.mark.Mark.{Mark};
ghost use Rattle.ql_world.specs.declared.word.Word.TheVariants.{Fut as future};
ghost use Rattle.ql_world.specs.Word.{nil, first_future, with_value};
ghost use Rattle.ql_world.specs.World.{numbers};
ghost use Rattle.ql_world.specs.Tick.{slots_of, words_boxed};
ghost use Rattle.ql_code.specs.Code.{unmasked};
ghost use Rattle.ql_code.specs.Machine.{Item, slot, mark, word, words, push_slots, push, frame_of, slot_at, slots_at, or_nil, top_mark, below_mark, unwind, cleanups_on, innermost_on, aim_cleanup, slid};
ghost use Rattle.ql_code.specs.LocalPath.{whole_frame, word_in};
ghost use Rattle.ql_proc.specs.Slots.{slots_on, without_mark, is_call, HasWords};
ghost use Rattle.ql_proc.specs.Looks.{mark_on, mark_under};
ghost use Rattle.ql_proc.specs.Stacked.{items_of, floor_of, IsStack};

use crate::marks::{
    aim_in, catch_in, cleanup_in, floor_under, outer_cleanup_in, put_mark, take_mark, topmost,
};
use crate::slots::{
    add, bind_last, cut, future_above, height, last_are_plain, last_words, lower, newest, put,
    put_value, shorten, slot_in, take_out,
};
use ql_code::mark::Mark;
use ql_world::word::{Slot, Word};
use ql_world::world::{Aim, Cleanup};
use sqlite_items::Items;
use std::alloc::{AllocError, Global};
use std::marker::Model;

/// A mark among those of a stack.
#[derive(Clone, Copy)]
pub struct Marker {
    pub mark: Mark,
    /// How many slots stand under it.
    pub height: usize,
    /// How many slots stand under the frame that it stands in.
    pub base: usize,
    /// How many marks there are up to the innermost running cleanup, this one with those under it.
    pub cleaning: usize,
    /// The same up to the innermost catch.
    pub catching: usize,
}

/// Slots and marks. Contracts see it as `Stacked`.
#[derive(Drop)]
pub struct Stack {
    pub(crate) slots: Vec<Slot>,
    pub(crate) marks: Vec<Marker>,
    /// How many slots stand under the topmost mark.
    pub(crate) floor: usize,
    /// How many slots stand under the topmost frame.
    pub(crate) base: usize,
}

impl Model for Stack {
    ghost use Rattle.std.specs.Prelude.{reverse, min, ◌-◌, vec_capacity, vec_len};
    ghost use Rattle.ql_proc.specs.Stacked.{Stacked, items_of, IsStack};

    ghost Value = { Stacked };

    ghost view = { λ s. record {
      items = items_of (reverse s.slots.items) (reverse s.marks.items);
      room = min (vec_capacity s.slots - vec_len s.slots) (vec_capacity s.marks - vec_len s.marks);
    } };

    ghost invariant = { λ s. IsStack (reverse s.slots.items) (reverse s.marks.items) s.floor s.base };
}

impl Stack {
    /// An empty stack.
    pub fn new(alloc: Global) -> Stack
        ensures { result.items ≡ [] }
    {
        Stack {
            slots: Vec::new(alloc),
            marks: Vec::new(alloc),
            floor: 0,
            base: 0,
        }
    }

    /// Makes room for so many more slots and so many more marks.
    pub fn reserve(&mut self, n: u64) -> Result<(), AllocError>
        ensures same { self.new.items ≡ self.old.items }
        ensures ok { OnOk result (n ≤ self.new.room) }
        ensures room { self.old.room ≤ self.new.room }
        ensures enough { n ≤ self.old.room → IsOk result }
    {
        self.slots.reserve(n as usize)?;
        self.marks.reserve(n as usize)
    }

    /// For how many more slots and how many more marks there is room.
    pub fn room(&self) -> u64
        ensures { result ≡ self.now.room }
    {
        let slots = self.slots.capacity() - self.slots.len();
        let marks = self.marks.capacity() - self.marks.len();
        slots.min(marks) as u64
    }

    /// Pushes a slot.
    pub fn push(&mut self, pushed: Slot)
        requires { 0 < self.old.room }
        ensures items { self.new.items ≡ slot pushed ∷ self.old.items }
        ensures room { self.old.room ≤ self.new.room + 1 }
    {
        add(&mut self.slots, pushed);
    }

    /// Pushes a mark.
    pub fn push_mark(&mut self, pushed: Mark)
        requires { 0 < self.old.room }
        ensures items { self.new.items ≡ mark pushed ∷ self.old.items }
        ensures room { self.old.room ≤ self.new.room + 1 }
    {
        self.enter(0, pushed);
    }

    /// Puts a mark under the topmost so many words.
    pub fn enter(&mut self, count: usize, pushed: Mark)
        requires room { 0 < self.old.room }
        requires words { HasWords count self.old.items }
        ensures items { self.new.items ≡ take count self.old.items ++ (mark pushed ∷ without_first count self.old.items) }
        ensures room { self.old.room ≤ self.new.room + 1 }
    {
        let height = height(&self.slots) - count;
        self.base = put_mark(&mut self.marks, pushed, height, self.base);
        self.floor = height;
    }

    /// Puts a mark in place of the word under the topmost so many.
    pub fn enter_call(&mut self, count: usize, pushed: Mark)
        requires room { 0 < self.old.room }
        requires words { HasWords (suc count) self.old.items }
        ensures items { self.new.items ≡ take count self.old.items ++ (mark pushed ∷ without_first (suc count) self.old.items) }
        ensures room { self.old.room ≤ self.new.room + 1 }
    {
        self.remove_under(count);
        self.enter(count, pushed);
    }

    /// The slot at this place of the topmost frame.
    pub fn local(&self, at: u32) -> Option<Slot>
        ensures { result ≡ slot_at (frame_of self.now.items) at }
    {
        slot_in(&self.slots, self.base + at as usize)
    }

    /// Puts a slot in place of the topmost so many words.
    pub fn replace(&mut self, count: usize, last: Slot)
        requires some { 0 < count }
        requires words { HasWords count self.old.items }
        ensures items { self.new.items ≡ slot last ∷ without_first count self.old.items }
        ensures room { self.old.room ≤ self.new.room }
    {
        let at = height(&self.slots) - count;
        put(&mut self.slots, at, last);
    }

    /// How many slots stand above the topmost mark.
    pub fn slots_above(&self) -> usize
        ensures { result ≡ length (slots_on self.now.items) }
    {
        height(&self.slots) - self.floor
    }

    /// Takes the word under the topmost so many out.
    fn remove_under(&mut self, count: usize)
        requires { HasWords (suc count) self.old.items }
        ensures items { self.new.items ≡ take count self.old.items ++ without_first (suc count) self.old.items }
        ensures room { self.old.room ≤ self.new.room }
    {
        take_out(&mut self.slots, count);
    }

    /// Takes all down to the topmost mark away, and that mark, and pushes a word.
    pub fn give(&mut self, w: Word)
        requires top { HasWords 1 self.old.items }
        requires mark { is_some (top_mark self.old.items) ≡ true }
        ensures items { self.new.items ≡ word w ∷ below_mark self.old.items }
        ensures room { self.old.room ≤ self.new.room }
    {
        let Some(marker) = take_mark(&mut self.marks) else {
            return;
        };
        put(&mut self.slots, marker.height, Slot::Val(w));
        self.base = marker.base;
        self.floor = floor_under(&self.marks);
    }

    /// The topmost mark.
    pub fn mark(&self) -> Option<Mark>
        ensures { result ≡ top_mark self.now.items }
    {
        topmost(&self.marks)
    }

    /// Takes the topmost mark away from under the slots above it.
    pub fn leave_mark(&mut self)
        ensures items { self.new.items ≡ without_mark self.old.items }
        ensures room { self.old.room ≤ self.new.room }
    {
        if let Some(marker) = take_mark(&mut self.marks) {
            self.base = marker.base;
            self.floor = floor_under(&self.marks);
        }
    }

    /// Takes the topmost item away.
    pub fn drop_top(&mut self)
        ensures items { self.new.items ≡ without_first 1 self.old.items }
        ensures room { self.old.room ≤ self.new.room }
    {
        self.base = drop_item(&mut self.slots, &mut self.marks, self.base);
        self.floor = floor_under(&self.marks);
    }

    /// Takes the topmost word away.
    pub(crate) fn drop_word(&mut self)
        requires { HasWords 1 self.old.items }
        ensures items { self.new.items ≡ without_first 1 self.old.items }
        ensures room { self.old.room ≤ self.new.room }
    {
        cut(&mut self.slots);
    }

    /// Takes the topmost two items away.
    pub fn drop_two(&mut self)
        ensures items { self.new.items ≡ without_first 2 self.old.items }
        ensures room { self.old.room ≤ self.new.room }
    {
        self.drop_top();
        self.drop_top();
    }

    /// Takes so many items away from under the topmost one.
    pub fn slide(&mut self, count: usize)
        ensures items { self.new.items ≡ slid count self.old.items }
        ensures room { self.old.room ≤ self.new.room }
    {
        if count < self.slots_above() {
            self.slide_slots(count);
        } else {
            self.slide_items(count);
        }
    }

    /// The same of slots.
    fn slide_slots(&mut self, count: usize)
        requires { count < length (slots_on self.old.items) }
        ensures items { self.new.items ≡ slid count self.old.items }
        ensures room { self.old.room ≤ self.new.room }
    {
        let top = newest(&self.slots, 0);
        let at = height(&self.slots) - 1 - count;
        put(&mut self.slots, at, top);
    }

    /// The same one after another.
    fn slide_items(&mut self, count: usize)
        ensures items { self.new.items ≡ slid count self.old.items }
        ensures room { self.old.room ≤ self.new.room }
    {
        let mut left = count;
        'items: while left > 0 {
            self.drop_under();
            left -= 1;
        }
    }

    /// Takes the item under the topmost one away.
    fn drop_under(&mut self)
        ensures items { self.new.items ≡ slid 1 self.old.items }
        ensures room { self.old.room ≤ self.new.room }
    {
        match self.slots_above() {
            0 => self.drop_under_mark(),
            1 => self.leave_mark(),
            _ => self.slide_slots(1),
        }
    }

    /// The same where the topmost item is no slot.
    fn drop_under_mark(&mut self)
        requires { length (slots_on self.old.items) ≡ 0 }
        ensures items { self.new.items ≡ slid 1 self.old.items }
        ensures room { self.old.room ≤ self.new.room }
    {
        let Some(top) = take_mark(&mut self.marks) else {
            return;
        };
        let base = drop_item(&mut self.slots, &mut self.marks, top.base);
        self.floor = height(&self.slots);
        self.base = put_mark(&mut self.marks, top.mark, self.floor, base);
    }

    /// Puts a mark on top in place of the topmost one.
    pub fn raise_mark(&mut self, raised: Mark)
        ensures items { is_some (top_mark self.old.items) ≡ true → self.new.items ≡ mark raised ∷ without_mark self.old.items }
        ensures room { self.old.room ≤ self.new.room }
    {
        let Some(under) = take_mark(&mut self.marks) else {
            return;
        };
        self.floor = height(&self.slots);
        self.base = put_mark(&mut self.marks, raised, self.floor, under.base);
    }

    /// The leftmost future among the topmost so many words.
    pub fn first_future(&self, count: usize) -> Option<u32>
        ensures { result ≡ first_future (words count self.now.items) }
    {
        future_above(&self.slots, self.floor, count)
    }

    /// Whether the topmost so many items are words.
    pub fn has_words(&self, count: usize) -> bool
        ensures { result ≡ (length (words count self.now.items) == count) }
    {
        if self.slots_above() < count {
            return false;
        }
        last_are_plain(&self.slots, count)
    }

    /// Makes variables of the topmost so many words. Those that are stored get boxes, numbered from this one.
    pub fn bind(&mut self, count: usize, mask: u32, first: u32)
        requires words { HasWords count self.old.items }
        requires boxes { first + length (words_boxed (unmasked count mask) (words count self.old.items)) ≤ 4294967295 }
        ensures items { self.new.items ≡ push_slots (slots_of (unmasked count mask) (words count self.old.items) first) (without_first count self.old.items) }
        ensures room { self.old.room ≤ self.new.room }
    {
        if mask == 0 {
            return;
        }
        bind_last(&mut self.slots, count, mask, first);
    }

    /// Puts a word in place of the leftmost future among the topmost so many words.
    pub fn put_value(&mut self, count: usize, value: Word)
        requires { HasWords count self.old.items }
        ensures items { self.new.items ≡ push (with_value value (words count self.old.items)) (without_first count self.old.items) }
        ensures room { self.old.room ≤ self.new.room }
    {
        put_value(&mut self.slots, count, value);
    }

    /// Pushes all of these slots.
    pub fn push_all(&mut self, more: &[Slot])
        requires { length more.now ≤ self.old.room }
        ensures items { self.new.items ≡ push_slots more.now self.old.items }
        ensures room { self.old.room ≤ self.new.room + length more.now }
    {
        'slots: for slot in more {
            self.push(*slot);
        }
    }

    /// Pushes all of these words.
    pub fn push_words(&mut self, more: &[Word])
        requires { length more.now ≤ self.old.room }
        ensures items { self.new.items ≡ push more.now self.old.items }
        ensures room { self.old.room ≤ self.new.room + length more.now }
    {
        'words: for w in more {
            self.push(Slot::Val(*w));
        }
    }

    /// Pushes nil so often.
    pub fn push_nils(&mut self, count: u32)
        requires { count ≤ self.old.room }
        ensures items { self.new.items ≡ replicate count (word nil) ++ self.old.items }
        ensures room { self.old.room ≤ self.new.room + count }
    {
        'nils: for n in 0..count {
            self.push(Slot::Val(Word::Sym(0)));
        }
    }

    /// Pushes so many futures, numbered from this one.
    pub fn push_futures(&mut self, first: u32, count: u32)
        requires room { count ≤ self.old.room }
        requires numbers { first + count ≤ 4294967295 }
        ensures items { self.new.items ≡ push (map future (numbers first count)) self.old.items }
        ensures room { self.old.room ≤ self.new.room + count }
    {
        'futures: for n in 0..count {
            self.push(Slot::Val(Word::Fut(first + n)));
        }
    }

    /// Gives the innermost running cleanup this aim.
    pub fn aim(&mut self, aim: Aim)
        ensures items { self.new.items ≡ aim_cleanup aim self.old.items }
        ensures room { self.old.room ≤ self.new.room }
    {
        aim_in(&mut self.marks, aim);
    }

    /// Takes slots and calls away that unwinding leaves.
    pub fn unwind(&mut self)
        ensures items { self.new.items ≡ unwind self.old.items }
        ensures room { self.old.room ≤ self.new.room }
    {
        'calls: while self.is_in_call() {
            self.leave_call();
        }
        self.leave_slots();
    }

    /// Takes the slots above the topmost mark away.
    fn leave_slots(&mut self)
        requires { is_call (top_mark self.old.items) ≡ false }
        ensures items { self.new.items ≡ unwind self.old.items }
        ensures room { self.old.room ≤ self.new.room }
    {
        shorten(&mut self.slots, self.floor);
    }

    /// Whether the topmost mark is that of a call.
    fn is_in_call(&self) -> bool
        ensures { result ≡ is_call (top_mark self.now.items) }
    {
        match self.mark() {
            Some(Mark::Returning(_)) => true,
            _ => false,
        }
    }

    /// Takes all down to the topmost mark away, and that mark.
    fn leave_call(&mut self)
        requires { is_some (top_mark self.old.items) ≡ true }
        ensures items { self.new.items ≡ below_mark self.old.items }
        ensures room { self.old.room ≤ self.new.room }
    {
        if let Some(marker) = take_mark(&mut self.marks) {
            shorten(&mut self.slots, marker.height);
            self.base = marker.base;
            self.floor = floor_under(&self.marks);
        }
    }

    /// Takes all away.
    pub fn clear(&mut self)
        ensures items { self.new.items ≡ [] }
        ensures room { self.old.room ≤ self.new.room }
    {
        self.slots.clear();
        self.marks.clear();
        self.floor = 0;
        self.base = 0;
    }

    /// The innermost running cleanup.
    pub fn cleanup(&self) -> Option<Cleanup>
        ensures { result ≡ slice_get (cleanups_on self.now.items) 0 }
    {
        cleanup_in(&self.marks)
    }

    /// The cleanup that runs round the innermost one.
    pub fn outer_cleanup(&self) -> Option<Cleanup>
        ensures { result ≡ slice_get (cleanups_on self.now.items) 1 }
    {
        outer_cleanup_in(&self.marks)
    }

    /// The innermost catch.
    pub fn innermost(&self) -> Option<u32>
        ensures { result ≡ innermost_on self.now.items }
    {
        catch_in(&self.marks)
    }

    /// The word under the topmost so many words.
    pub fn word_under(&self, count: usize) -> Option<Word>
        requires { HasWords count self.now.items }
        ensures { option_to_list result ++ words count self.now.items ≡ words (suc count) self.now.items }
    {
        if self.slots_above() <= count {
            return None;
        }
        match newest(&self.slots, count) {
            Slot::Val(w) => Some(w),
            Slot::Cell(_) => None,
        }
    }

    /// The topmost so many words, the topmost one last.
    pub fn words(&self, alloc: Global, count: usize) -> Result<Vec<Word>, AllocError>
        requires { HasWords count self.now.items }
        ensures { IfOk result (λ ws. ws.items ≡ words count self.now.items) }
    {
        last_words(alloc, &self.slots, count)
    }

    /// The slots of the topmost frame but for the word on top, the topmost one last.
    pub fn frame_under(&self) -> &[Slot]
        requires { HasWords 1 self.now.items }
        ensures { reverse result.now ≡ frame_of (without_first 1 self.now.items) }
    {
        lower(&self.slots, self.base)
    }

    /// Whether the bottom of the topmost frame is there. It is where slots stand under it, which is told fastest.
    fn is_frame_there(&self) -> bool
        ensures { result ≡ is_some (whole_frame self.now.items) }
    {
        if self.base > 0 {
            return true;
        }
        self.has_frame()
    }

    /// The word in the slot at this place of the topmost frame, where the bottom of that is there.
    pub(crate) fn local_word(&self, at: u32) -> Option<Word>
        ensures { result ≡ option_and_then (λ ss. word_in (slot_at ss at)) (whole_frame self.now.items) }
    {
        if !self.is_frame_there() {
            return None;
        }
        match self.local(at) {
            Some(Slot::Val(w)) => Some(w),
            _ => None,
        }
    }

    /// The slots at these places of the topmost frame, with nil where there is none.
    pub fn captured(&self, alloc: Global, places: &[u32]) -> Result<Items<Slot>, AllocError>
        ensures { IfOk result (λ slots. slots ≡ slots_at (frame_of self.now.items) places.now) }
    {
        let mut slots = Vec::with_capacity(alloc, places.len())?;
        'places: for place in places {
            slots.push(self.local_or_nil(*place))?;
        }
        Ok(Items::from_vec(slots))
    }

    /// The slot at this place of the topmost frame, with nil where there is none.
    fn local_or_nil(&self, at: u32) -> Slot
        ensures { result ≡ or_nil (slot_at (frame_of self.now.items) at) }
    {
        match self.local(at) {
            Some(slot) => slot,
            None => Slot::Val(Word::Sym(0)),
        }
    }

    /// The topmost item, where it is a mark.
    pub fn mark_on_top(&self) -> Option<Mark>
        ensures mark { result ≡ mark_on self.now.items }
        ensures shape { MatchOption result (Unit {0}) (λ k. (rest : List Item) × (self.now.items ≡ mark k ∷ rest)) }
    {
        if self.slots_above() > 0 {
            return None;
        }
        self.mark()
    }

    /// The mark under the topmost slot.
    pub fn mark_under_slot(&self) -> Option<Mark>
        ensures mark { result ≡ mark_under self.now.items }
        ensures shape { MatchOption result (Unit {0}) (λ k. (s : Slot) × (rest : List Item) × (self.now.items ≡ slot s ∷ (mark k ∷ rest))) }
    {
        if self.slots_above() != 1 {
            return None;
        }
        self.mark()
    }
}

/// Takes the topmost item away. Gives how many slots stand under the topmost frame.
fn drop_item(slots: &mut Vec<Slot>, marks: &mut Vec<Marker>, base: usize) -> usize
    requires { IsStack (reverse slots.old.items) (reverse marks.old.items) (floor_of (reverse marks.old.items)) base }
    ensures items { items_of (reverse slots.new.items) (reverse marks.new.items) ≡ without_first 1 (items_of (reverse slots.old.items) (reverse marks.old.items)) }
    ensures stack { IsStack (reverse slots.new.items) (reverse marks.new.items) (floor_of (reverse marks.new.items)) result }
    ensures slots { (vec_len slots.new ≤ vec_len slots.old) × (vec_capacity slots.new ≡ vec_capacity slots.old) }
    ensures marks { (vec_len marks.new ≤ vec_len marks.old) × (vec_capacity marks.new ≡ vec_capacity marks.old) }
{
    if height(slots) > floor_under(marks) {
        cut(slots);
        return base;
    }
    match take_mark(marks) {
        Some(marker) => marker.base,
        None => base,
    }
}
