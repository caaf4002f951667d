//! The slots of a stack by themselves, the topmost last.

ghost use Rattle.std.specs.Prelude.{◌≡◌, ◌∷◌, [], ◌<◌, ◌≤◌, ◌-◌, ◌+◌, ◌++◌, reverse, suc, true, is_some, option_and_then, map, Some, slice_get, length, take, IfOk, drop as without_first, vec_len, vec_capacity};
ghost use Rattle.std.specs.List.{list_all};
ghost use Rattle.ql_world.specs.declared.word.Slot.TheVariants.{Val as plain};
ghost use Rattle.ql_world.specs.Word.{first_future, with_value};
ghost use Rattle.ql_world.specs.Tick.{slots_of, words_boxed};
ghost use Rattle.ql_code.specs.Code.{unmasked};
ghost use Rattle.ql_code.specs.Machine.{slot, words};
ghost use Rattle.ql_proc.specs.Slots.{is_plain, word_of, words_of, word_in_slot, future_in_slot, or_found};
ghost use Rattle.ql_proc.specs.Binding.{bound_from, boxes_from};

use ql_world::word::{Slot, Word};
use std::alloc::{AllocError, Global};

/// How many slots there are.
pub(crate) fn height(slots: &Vec<Slot>) -> usize
    ensures { result ≡ length (reverse slots.now.items) }
{
    slots.len()
}

/// The slot with so many after it.
pub(crate) fn newest(slots: &Vec<Slot>, after: usize) -> Slot
    requires { after < length (reverse slots.now.items) }
    ensures { slice_get (reverse slots.now.items) after ≡ Some result }
{
    slots[slots.len() - 1 - after]
}

/// The slot at this place.
pub(crate) fn slot_in(slots: &[Slot], at: usize) -> Option<Slot>
    ensures { result ≡ slice_get slots.now at }
{
    slots.get(at).copied()
}

/// The slots from this height on, but for the last.
pub(crate) fn lower(slots: &[Slot], from: usize) -> &[Slot]
    requires { from < length slots.now }
    ensures { result.now ≡ take (length slots.now - 1 - from) (without_first from slots.now) }
{
    &slots[from..slots.len() - 1]
}

/// Adds a slot, for which there is room.
pub(crate) fn add(slots: &mut Vec<Slot>, last: Slot)
    requires { vec_len slots.old < vec_capacity slots.old }
    ensures slots { reverse slots.new.items ≡ last ∷ reverse slots.old.items }
    ensures len { vec_len slots.new ≡ vec_len slots.old + 1 }
    ensures capacity { vec_capacity slots.new ≡ vec_capacity slots.old }
{
    slots.push_reserved(last);
}

/// Takes the last slot away.
pub(crate) fn cut(slots: &mut Vec<Slot>)
    requires { 0 < length (reverse slots.old.items) }
    ensures slots { reverse slots.new.items ≡ without_first 1 (reverse slots.old.items) }
    ensures len { vec_len slots.new ≤ vec_len slots.old }
    ensures capacity { vec_capacity slots.new ≡ vec_capacity slots.old }
{
    slots.pop();
}

/// Puts a slot at this place, as the last one.
pub(crate) fn put(slots: &mut Vec<Slot>, at: usize, last: Slot)
    requires { at < length (reverse slots.old.items) }
    ensures slots { reverse slots.new.items ≡ last ∷ without_first (length (reverse slots.old.items) - at) (reverse slots.old.items) }
    ensures len { vec_len slots.new ≤ vec_len slots.old }
    ensures capacity { vec_capacity slots.new ≡ vec_capacity slots.old }
{
    slots[at] = last;
    slots.truncate(at + 1);
}

/// Leaves so many slots.
pub(crate) fn shorten(slots: &mut Vec<Slot>, height: usize)
    requires { height ≤ length (reverse slots.old.items) }
    ensures slots { reverse slots.new.items ≡ without_first (length (reverse slots.old.items) - height) (reverse slots.old.items) }
    ensures len { vec_len slots.new ≤ vec_len slots.old }
    ensures capacity { vec_capacity slots.new ≡ vec_capacity slots.old }
{
    slots.truncate(height);
}

/// Takes the slot under the last so many out.
pub(crate) fn take_out(slots: &mut Vec<Slot>, after: usize)
    requires { after < length (reverse slots.old.items) }
    ensures slots { reverse slots.new.items ≡ take after (reverse slots.old.items) ++ without_first (suc after) (reverse slots.old.items) }
    ensures len { vec_len slots.new ≤ vec_len slots.old }
    ensures capacity { vec_capacity slots.new ≡ vec_capacity slots.old }
{
    let at = height(slots) - 1 - after;
    slots.remove(at);
}

/// The leftmost future among the topmost so many words above a height.
pub(crate) fn future_above(slots: &[Slot], floor: usize, count: usize) -> Option<u32>
    requires { floor ≤ length slots.now }
    ensures { result ≡ first_future (words count (map slot (reverse (without_first floor slots.now)))) }
{
    future_in(&slots[floor..], count)
}

/// The leftmost future among the last so many words.
pub(crate) fn future_in(slots: &[Slot], count: usize) -> Option<u32>
    ensures { result ≡ first_future (words count (map slot (reverse slots.now))) }
{
    let mut found = None;
    let mut at = slots.len();
    let mut left = count;
    'words: while left > 0 && at > 0 {
        let Some(w) = word_in(slots, at - 1) else {
            break;
        };
        found = future_or(w, found);
        at -= 1;
        left -= 1;
    }
    found
}

/// The word in the slot at this place.
fn word_in(slots: &[Slot], at: usize) -> Option<Word>
    ensures { result ≡ option_and_then word_in_slot (slice_get slots.now at) }
{
    match slots.get(at) {
        Some(Slot::Val(w)) => Some(*w),
        _ => None,
    }
}

/// The number of a future, or the other one.
fn future_or(w: Word, other: Option<u32>) -> Option<u32>
    ensures { result ≡ or_found (first_future (w ∷ [])) other }
{
    match w {
        Word::Fut(f) => Some(f),
        _ => other,
    }
}

/// Whether all of these are words.
fn are_plain(slots: &[Slot]) -> bool
    ensures { result ≡ list_all is_plain slots.now }
{
    for slot in slots {
        if let Slot::Cell(_) = slot {
            return false;
        }
    }
    true
}

/// Whether the last so many are words.
pub(crate) fn last_are_plain(slots: &[Slot], count: usize) -> bool
    requires { count ≤ length slots.now }
    ensures { result ≡ list_all is_plain (take count (reverse slots.now)) }
{
    are_plain(&slots[slots.len() - count..])
}

/// Makes variables of the last so many words. Those that are stored get boxes, numbered from this one.
pub(crate) fn bind_last(slots: &mut Vec<Slot>, count: usize, mask: u32, first: u32)
    requires within { count ≤ length (reverse slots.old.items) }
    requires words { list_all is_plain (take count (reverse slots.old.items)) ≡ true }
    requires boxes { first + length (words_boxed (unmasked count mask) (words_of (reverse (take count (reverse slots.old.items))))) ≤ 4294967295 }
    ensures slots { reverse slots.new.items ≡ reverse (slots_of (unmasked count mask) (words_of (reverse (take count (reverse slots.old.items)))) first) ++ without_first count (reverse slots.old.items) }
    ensures len { vec_len slots.new ≡ vec_len slots.old }
    ensures capacity { vec_capacity slots.new ≡ vec_capacity slots.old }
{
    let from = slots.len() - count;
    bind_from(slots, from, mask, first);
}

/// Makes variables of the words from a place on.
fn bind_from(slots: &mut [Slot], from: usize, mask: u32, first: u32)
    requires within { from ≤ length slots.old }
    requires words { list_all is_plain (without_first from slots.old) ≡ true }
    requires boxes { boxes_from from mask first slots.old ≤ 4294967295 }
    ensures { slots.new ≡ bound_from from mask first slots.old }
{
    let mut rest = mask;
    let mut next = first;
    'slots: for at in from..slots.len() {
        if rest % 2 == 1 {
            slots[at] = Slot::Cell(next);
            next += 1;
        }
        rest /= 2;
    }
}

/// Puts a word in place of the leftmost future among the last so many words.
pub(crate) fn put_value(slots: &mut Vec<Slot>, count: usize, value: Word)
    requires within { count ≤ length (reverse slots.old.items) }
    requires words { list_all is_plain (take count (reverse slots.old.items)) ≡ true }
    ensures slots { reverse slots.new.items ≡ reverse (map plain (with_value value (words_of (reverse (take count (reverse slots.old.items)))))) ++ without_first count (reverse slots.old.items) }
    ensures len { vec_len slots.new ≡ vec_len slots.old }
    ensures capacity { vec_capacity slots.new ≡ vec_capacity slots.old }
{
    let from = slots.len() - count;
    put_value_from(slots, from, value);
}

/// Puts a word in place of the first future from a place on.
fn put_value_from(slots: &mut [Slot], from: usize, value: Word)
    requires within { from ≤ length slots.old }
    requires words { list_all is_plain (without_first from slots.old) ≡ true }
    ensures { slots.new ≡ take from slots.old ++ map plain (with_value value (words_of (without_first from slots.old))) }
{
    'slots: for at in from..slots.len() {
        if is_future_in(slots, at) {
            slots[at] = Slot::Val(value);
            break;
        }
    }
}

/// Whether the slot at this place has a future.
fn is_future_in(slots: &[Slot], at: usize) -> bool
    ensures { result ≡ is_some (option_and_then future_in_slot (slice_get slots.now at)) }
{
    match slots.get(at) {
        Some(Slot::Val(Word::Fut(_))) => true,
        _ => false,
    }
}

/// The last so many words.
pub(crate) fn last_words(
    alloc: Global,
    slots: &[Slot],
    count: usize,
) -> Result<Vec<Word>, AllocError>
    requires { count ≤ length slots.now }
    ensures { IfOk result (λ ws. ws.items ≡ words_of (reverse (take count (reverse slots.now)))) }
{
    words_in(alloc, &slots[slots.len() - count..])
}

/// The words of slots, nil where one lives in a box.
fn words_in(alloc: Global, slots: &[Slot]) -> Result<Vec<Word>, AllocError>
    ensures { IfOk result (λ ws. ws.items ≡ words_of slots.now) }
{
    let mut words = Vec::with_capacity(alloc, slots.len())?;
    'slots: for slot in slots {
        words.push(word_of(*slot))?;
    }
    Ok(words)
}

/// The word of a slot, nil where it lives in a box.
fn word_of(slot: Slot) -> Word
    ensures { result ≡ word_of slot }
{
    match slot {
        Slot::Val(w) => w,
        Slot::Cell(_) => Word::Sym(0),
    }
}
