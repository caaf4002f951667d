//! Windows of stacks: the topmost 64 marks with all that stands above the lowest of them.

ghost use Rattle.std.specs.Prelude.{◌≡◌, ◌↔◌, ◌≤◌, ◌<◌, ◌+◌, ◌-◌, ◌++◌, [], true, length, map, take, reverse, IfOk, OnOk, OnErr, drop as without_first, vec_len, vec_capacity};
ghost use Rattle.ql_code.specs.LocalPath.{topmost, beneath};
ghost use Rattle.ql_proc.specs.Stacked.{floor_of, base_of, Rises, AreLinked};
ghost use Rattle.ql_proc.specs.Windowed.{top_over, shifted, put_all};

use crate::marks::{floor_under, put_mark};
use crate::stack::{Marker, Stack};
use ql_world::word::Slot;
use std::alloc::{AllocError, Global};

impl Stack {
    /// Its window, with room for so many more slots and so many more marks.
    pub(crate) fn window(&self, alloc: Global, more: u64) -> Result<Stack, AllocError>
        ensures items { IfOk result (λ w. w.items ≡ topmost 64 self.now.items) }
        ensures room { IfOk result (λ w. more ≤ w.room) }
    {
        if are_few(&self.marks) {
            return self.copy(alloc, more);
        }
        self.upper(alloc, more)
    }

    /// The same where it has fewer marks than a window can have.
    fn copy(&self, alloc: Global, more: u64) -> Result<Stack, AllocError>
        ensures items { IfOk result (λ w. w.items ≡ self.now.items) }
        ensures room { IfOk result (λ w. more ≤ w.room) }
    {
        Ok(Stack {
            slots: copied(alloc, &self.slots, more)?,
            marks: copied(alloc, &self.marks, more)?,
            floor: self.floor,
            base: self.base,
        })
    }

    /// The same of any.
    fn upper(&self, alloc: Global, more: u64) -> Result<Stack, AllocError>
        ensures items { IfOk result (λ w. w.items ≡ topmost 64 self.now.items) }
        ensures room { IfOk result (λ w. more ≤ w.room) }
    {
        let under = height_under(&self.marks);
        let slots = copied(alloc, upper_slots(&self.slots, under), more)?;
        let (marks, base) = lowered(alloc, upper_marks(&self.marks), under, more)?;
        Ok(Stack {
            slots,
            floor: floor_under(&marks),
            marks,
            base,
        })
    }

    /// Whether this is its window.
    pub(crate) fn has_window(&self, window: &Stack) -> bool
        ensures { (result ≡ true) ↔ (window.now.items ≡ topmost 64 self.now.items) }
    {
        let under = height_under(&self.marks);
        are_same_marks(upper_marks(&self.marks), &window.marks, under)
            && are_same_slots(upper_slots(&self.slots, under), &window.slots)
    }

    /// Puts a window in the place of its own. After want of memory it is as before.
    pub(crate) fn put_window(&mut self, window: &Stack) -> Result<(), AllocError>
        ensures items { OnOk result (self.new.items ≡ window.now.items ++ beneath 64 self.old.items) }
        ensures same { OnErr result (self.new.items ≡ self.old.items) }
    {
        if are_few(&self.marks) {
            return self.become_copy(window);
        }
        self.put_upper(window)
    }

    /// The same where it has fewer marks than a window can have.
    fn become_copy(&mut self, window: &Stack) -> Result<(), AllocError>
        ensures items { OnOk result (self.new.items ≡ window.now.items) }
        ensures same { OnErr result (self.new.items ≡ self.old.items) }
    {
        reserve_over(&mut self.slots, 0, &window.slots)?;
        reserve_over(&mut self.marks, 0, &window.marks)?;
        replace_over(&mut self.slots, 0, &window.slots);
        replace_over(&mut self.marks, 0, &window.marks);
        self.floor = window.floor;
        self.base = window.base;
        Ok(())
    }

    /// The same of any.
    fn put_upper(&mut self, window: &Stack) -> Result<(), AllocError>
        ensures items { OnOk result (self.new.items ≡ window.now.items ++ beneath 64 self.old.items) }
        ensures same { OnErr result (self.new.items ≡ self.old.items) }
    {
        let under = height_under(&self.marks);
        let count = count_under(&self.marks);
        reserve_over(&mut self.slots, under, &window.slots)?;
        reserve_over(&mut self.marks, count, &window.marks)?;
        replace_over(&mut self.slots, under, &window.slots);
        self.base = replace_marks(&mut self.marks, under, &window.marks);
        self.floor = floor_under(&self.marks);
        Ok(())
    }
}

/// How many slots stand under the lowest mark of a window.
fn height_under(marks: &[Marker]) -> usize
    ensures { result ≡ floor_of (without_first 63 (reverse marks.now)) }
{
    if marks.len() < 64 {
        return 0;
    }
    marks[marks.len() - 64].height
}

/// How many slots stand under the frame under the lowest mark of a window.
fn base_under(marks: &[Marker]) -> usize
    requires { Rises (floor_of (reverse marks.now)) (reverse marks.now) }
    ensures { result ≡ base_of (without_first 64 (reverse marks.now)) }
{
    if marks.len() < 64 {
        return 0;
    }
    marks[marks.len() - 64].base
}

/// How many marks stand under a window.
fn count_under(marks: &[Marker]) -> usize
    ensures { result ≡ length marks.now - 64 }
{
    marks.len().saturating_sub(64)
}

/// Whether a window has all of these marks, and what stands under them.
fn are_few(marks: &[Marker]) -> bool
    ensures { result ≡ true → length (reverse marks.now) < 64 }
{
    marks.len() < 64
}

/// The slots from this height on.
fn upper_slots(slots: &[Slot], under: usize) -> &[Slot]
    requires { under ≤ length (reverse slots.now) }
    ensures slots { reverse result.now ≡ take (length (reverse slots.now) - under) (reverse slots.now) }
    ensures fits { length (reverse slots.now) ≤ 18446744073709551615 }
{
    &slots[under..slots.len()]
}

/// The marks of a window.
fn upper_marks(marks: &[Marker]) -> &[Marker]
    ensures { reverse result.now ≡ take 64 (reverse marks.now) }
{
    &marks[count_under(marks)..]
}

/// A copy with room for so many more.
fn copied<T: Copy>(alloc: Global, items: &[T], more: u64) -> Result<Vec<T>, AllocError>
    ensures items { IfOk result (λ copy. copy.items ≡ items.now) }
    ensures room { IfOk result (λ copy. vec_len copy + more ≤ vec_capacity copy) }
{
    let Some(count) = items.len().checked_add(more as usize) else {
        return Err(AllocError);
    };
    let mut copy = Vec::with_capacity(alloc, count)?;
    copy.extend_from_slice(items)?;
    copy.reserve(more as usize)?;
    Ok(copy)
}

/// Marks by themselves, each over so many slots fewer, with room for so many more. Gives how many slots stand under the
/// topmost frame, too.
fn lowered(
    alloc: Global,
    marks: &[Marker],
    under: usize,
    more: u64,
) -> Result<(Vec<Marker>, usize), AllocError>
    ensures marks { IfOk result (λ r. reverse r.0.items ≡ put_all (shifted 0 under) [] marks.now) }
    ensures base { IfOk result (λ r. r.1 ≡ base_of (reverse r.0.items)) }
    ensures room { IfOk result (λ r. vec_len r.0 + more ≤ vec_capacity r.0) }
{
    let Some(count) = marks.len().checked_add(more as usize) else {
        return Err(AllocError);
    };
    let mut lowered = Vec::with_capacity(alloc, count)?;
    let base = put_marks(&mut lowered, marks, 0, under, 0);
    Ok((lowered, base))
}

/// Puts marks on others, each over so many slots more and so many fewer. Gives how many stand under the topmost frame.
fn put_marks(onto: &mut Vec<Marker>, marks: &[Marker], up: usize, down: usize, base: usize) -> usize
    requires room { vec_len onto.old + length marks.now ≤ vec_capacity onto.old }
    requires links { AreLinked (reverse onto.old.items) }
    requires base { base ≡ base_of (reverse onto.old.items) }
    ensures marks { reverse onto.new.items ≡ put_all (shifted up down) (reverse onto.old.items) marks.now }
    ensures base { result ≡ base_of (reverse onto.new.items) }
    ensures len { vec_len onto.new ≡ vec_len onto.old + length marks.now }
    ensures capacity { vec_capacity onto.new ≡ vec_capacity onto.old }
{
    let mut base = base;
    'marks: for marker in marks {
        let height = marker.height.saturating_add(up).saturating_sub(down);
        base = put_mark(onto, marker.mark, height, base);
    }
    base
}

/// Whether these are the same slots.
fn are_same_slots(slots: &[Slot], window: &[Slot]) -> bool
    ensures { (result ≡ true) ↔ (window.now ≡ slots.now) }
{
    slots == window
}

/// Whether these are the same marks, each over so many slots fewer.
fn are_same_marks(marks: &[Marker], window: &[Marker], under: usize) -> bool
    ensures { (result ≡ true) ↔ (map (top_over 0) window.now ≡ map (top_over under) marks.now) }
{
    marks.len() == window.len() && are_same_among(marks, window, under)
}

/// The same of as many.
fn are_same_among(marks: &[Marker], window: &[Marker], under: usize) -> bool
    requires { length window.now ≡ length marks.now }
    ensures { (result ≡ true) ↔ (map (top_over 0) window.now ≡ map (top_over under) marks.now) }
{
    'marks: for at in 0..marks.len() {
        if !is_same(marks[at], window[at], under) {
            return false;
        }
    }
    true
}

/// Whether this is the same mark, over so many slots fewer.
fn is_same(marker: Marker, window: Marker, under: usize) -> bool
    ensures { (result ≡ true) ↔ (top_over 0 window ≡ top_over under marker) }
{
    window.height == marker.height.saturating_sub(under) && window.mark == marker.mark
}

/// Makes room for these on the lowest so many.
fn reserve_over<T>(items: &mut Vec<T>, kept: usize, upper: &[T]) -> Result<(), AllocError>
    requires { kept ≤ length (reverse items.old.items) }
    ensures items { items.new.items ≡ items.old.items }
    ensures room { OnOk result (kept + length upper.now ≤ vec_capacity items.new) }
    ensures fits { OnOk result (kept + length upper.now ≤ 18446744073709551615) }
{
    items.reserve(upper.len().saturating_sub(items.len() - kept))
}

/// Puts these on the lowest so many, in place of the others.
fn replace_over<T: Copy>(items: &mut Vec<T>, kept: usize, upper: &[T])
    requires within { kept ≤ length (reverse items.old.items) }
    requires room { kept + length upper.now ≤ vec_capacity items.old }
    ensures { reverse items.new.items ≡ reverse upper.now ++ without_first (length (reverse items.old.items) - kept) (reverse items.old.items) }
{
    items.truncate(kept);
    let _appended = items.extend_from_slice(upper);
}

/// Puts the marks of a window, each over so many slots more, in place of those of the present one. Gives how many slots stand
/// under the topmost frame.
fn replace_marks(marks: &mut Vec<Marker>, under: usize, window: &[Marker]) -> usize
    requires room { (length marks.old.items - 64) + length window.now ≤ vec_capacity marks.old }
    requires rises { Rises (floor_of (reverse marks.old.items)) (reverse marks.old.items) }
    requires links { AreLinked (reverse marks.old.items) }
    ensures marks { reverse marks.new.items ≡ put_all (shifted under 0) (without_first 64 (reverse marks.old.items)) window.now }
    ensures base { result ≡ base_of (reverse marks.new.items) }
{
    let base = base_under(marks);
    let count = count_under(marks);
    marks.truncate(count);
    put_marks(marks, window, under, 0, base)
}
