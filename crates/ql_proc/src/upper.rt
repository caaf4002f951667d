//! What stands near the top of a stack, without taking it.

ghost use Rattle.std.specs.Prelude.{◌≡◌, ◌≤◌, ◌-◌, is_some, option_and_then, length, reverse, take, drop as without_first};
ghost use Rattle.ql_code.specs.Machine.{slot_at, top_mark, below_mark};
ghost use Rattle.ql_code.specs.LocalPath.{topmost, whole_frame, word_in};
ghost use Rattle.ql_proc.specs.Slots.{slots_on};
ghost use Rattle.ql_proc.specs.Stacked.{frame_among};

use crate::marks::{begins_frame, floor_under, topmost};
use crate::stack::{Marker, Stack};
use ql_code::mark::Mark;
use ql_world::word::{Slot, Word};

impl Stack {
    /// The slots above the topmost mark, the topmost one last.
    pub(crate) fn loose(&self) -> &[Slot]
        ensures { reverse result.now ≡ slots_on self.now.items }
    {
        above(&self.slots, self.floor)
    }

    /// The slots between the topmost mark and the next lower one, the topmost one last.
    pub(crate) fn loose_below(&self) -> &[Slot]
        ensures { reverse result.now ≡ slots_on (below_mark self.now.items) }
    {
        let lower = floor_under(all_but_one(&self.marks));
        above(below(&self.slots, self.floor), lower)
    }

    /// The topmost so many slots, the topmost one last.
    pub(crate) fn uppermost(&self, count: usize) -> &[Slot]
        requires { count ≤ length (slots_on self.now.items) }
        ensures { reverse result.now ≡ take count (slots_on self.now.items) }
    {
        last_slots(&self.slots, count)
    }

    /// The mark under the topmost one.
    pub(crate) fn mark_below(&self) -> Option<Mark>
        ensures { result ≡ top_mark (below_mark self.now.items) }
    {
        topmost(all_but_one(&self.marks))
    }

    /// Whether it has the bottom of the topmost frame.
    pub(crate) fn has_frame(&self) -> bool
        ensures { result ≡ is_some (whole_frame self.now.items) }
    {
        has_frame(&self.marks)
    }

    /// Whether its window has the bottom of the topmost frame.
    pub(crate) fn has_frame_in_window(&self) -> bool
        ensures { result ≡ is_some (whole_frame (topmost 64 self.now.items)) }
    {
        has_frame(last_marks(&self.marks, 64))
    }

    /// The word at this place of the topmost frame, where its window has the bottom of that.
    pub(crate) fn word_in_window(&self, at: u32) -> Option<Word>
        ensures { result ≡ option_and_then (λ ss. word_in (slot_at ss at)) (whole_frame (topmost 64 self.now.items)) }
    {
        if !self.has_frame_in_window() {
            return None;
        }
        word_in(self.local(at))
    }
}

/// The word in a slot.
fn word_in(found: Option<Slot>) -> Option<Word>
    ensures { result ≡ word_in found }
{
    match found {
        Some(Slot::Val(w)) => Some(w),
        _ => None,
    }
}

/// The last so many slots.
fn last_slots(slots: &[Slot], count: usize) -> &[Slot]
    requires { count ≤ length (reverse slots.now) }
    ensures { reverse result.now ≡ take count (reverse slots.now) }
{
    &slots[slots.len() - count..]
}

/// The slots above a height.
fn above(slots: &[Slot], floor: usize) -> &[Slot]
    requires { floor ≤ length (reverse slots.now) }
    ensures { reverse result.now ≡ take (length (reverse slots.now) - floor) (reverse slots.now) }
{
    &slots[floor..]
}

/// The slots below a height.
fn below(slots: &[Slot], height: usize) -> &[Slot]
    requires { height ≤ length (reverse slots.now) }
    ensures { reverse result.now ≡ without_first (length (reverse slots.now) - height) (reverse slots.now) }
{
    &slots[..height]
}

/// These marks without the topmost one.
fn all_but_one(marks: &[Marker]) -> &[Marker]
    ensures { reverse result.now ≡ without_first 1 (reverse marks.now) }
{
    if marks.len() == 0 {
        return marks;
    }
    &marks[..marks.len() - 1]
}

/// The topmost so many of these marks, or all where there are fewer.
fn last_marks(marks: &[Marker], count: usize) -> &[Marker]
    ensures { reverse result.now ≡ take count (reverse marks.now) }
{
    if marks.len() <= count {
        return marks;
    }
    &marks[marks.len() - count..]
}

/// Whether a frame stands on one of these marks.
fn has_frame(marks: &[Marker]) -> bool
    ensures { result ≡ frame_among marks.now }
{
    // Most marks are those of calls, so the lowest one mostly is such.
    for marker in marks {
        if begins_frame(marker.mark) {
            return true;
        }
    }
    false
}
