//! Whether the silent instructions that follow a tick stay within a window.

ghost use Rattle.std.specs.Prelude.{◌≡◌, ◌<◌, ◌≤◌, ◌∷◌, ◌++◌, Bool, List, [], ℕ, MatchOption, length, map, is_some, option_to_list, reverse, drop as without_first, Option};
ghost use Rattle.ql_world.specs.declared.word.Slot.{Slot};
ghost use Rattle.ql_world.specs.Word.{first_future};
ghost use Rattle.ql_code.specs.declared.mark.Mark.{Mark};
ghost use Rattle.ql_code.specs.declared.code.Op.TheVariants.{Drop as drop, Slide as slide, Touch as touch, Join as join};
ghost use Rattle.ql_code.specs.Machine.{slot, words};
ghost use Rattle.ql_proc.specs.Slots.{are_words};
ghost use Rattle.ql_proc.specs.Inside.{stays, stays_past, then_stays};

use crate::settle::op_at;
use crate::slots::{future_in, last_are_plain};
use ql_code::code::{Code, Op};
use ql_code::mark::Mark;
use ql_world::word::Slot;

/// What follows a silent instruction.
pub(crate) enum Next<'a> {
    /// No other one, since it is known whether they stay.
    Known(bool),
    /// The one at this place, with the second on the first of these.
    At(u32, Option<Slot>, &'a [Slot]),
}

/// Whether the silent instructions from a place on find all that they look at, where the slots `under`, with `top` on them,
/// stand on a mark, or on nothing.
pub(crate) fn stays(
    code: &Code,
    mut place: u32,
    mut top: Option<Slot>,
    mut under: &[Slot],
    mark: Option<Mark>,
) -> bool
    ensures { result ≡ stays code.now.instructions mark (length code.now.instructions) place (option_to_list top ++ reverse under.now) }
{
    let mut left = code.len();
    'silent: while left > 0 {
        let Some(op) = op_at(code, place) else {
            return true;
        };
        match pass(op, place, top, under, mark) {
            Next::Known(stays) => return stays,
            Next::At(next, above, rest) => {
                place = next;
                top = above;
                under = rest;
            }
        }
        left -= 1;
    }
    true
}

/// Passes an instruction where it is silent.
fn pass<'a>(
    op: &Op,
    place: u32,
    top: Option<Slot>,
    under: &'a [Slot],
    mark: Option<Mark>,
) -> Next<'a>
    requires { place < 65535 }
    ensures { (next : ℕ → List Slot → Bool) → then_stays next result ≡ stays_past next mark op.now place (option_to_list top ++ reverse under.now) }
{
    match op {
        Op::Jump(to) => Next::At(*to, top, under),
        Op::Drop => pass_drop(place, top, under),
        Op::Slide(count) => pass_slide(place, top, under, *count as usize),
        Op::Join => pass_join(place, top, under, mark),
        Op::Touch(count) => pass_touch(place, top, under, *count as usize),
        _ => Next::Known(true),
    }
}

/// Passes a `drop`.
fn pass_drop<'a>(place: u32, top: Option<Slot>, under: &'a [Slot]) -> Next<'a>
    requires { place < 65535 }
    ensures { (next : ℕ → List Slot → Bool) (k : Option Mark) → then_stays next result ≡ stays_past next k drop place (option_to_list top ++ reverse under.now) }
{
    match uncovered(top, under) {
        Some((_, rest)) => Next::At(place + 1, None, rest),
        None => Next::Known(false),
    }
}

/// Passes a `slide`.
fn pass_slide<'a>(place: u32, top: Option<Slot>, under: &'a [Slot], count: usize) -> Next<'a>
    requires { place < 65535 }
    ensures { (next : ℕ → List Slot → Bool) (k : Option Mark) → then_stays next result ≡ stays_past next k (slide count) place (option_to_list top ++ reverse under.now) }
{
    let Some((last, rest)) = uncovered(top, under) else {
        return Next::Known(false);
    };
    if rest.len() < count {
        return Next::Known(false);
    }
    Next::At(place + 1, Some(last), lowered(rest, count))
}

/// Passes the `join` of another process.
fn pass_join<'a>(place: u32, top: Option<Slot>, under: &'a [Slot], mark: Option<Mark>) -> Next<'a>
    requires { place < 65535 }
    ensures { (next : ℕ → List Slot → Bool) → then_stays next result ≡ stays_past next mark join place (option_to_list top ++ reverse under.now) }
{
    let Some(mark) = mark else {
        return Next::Known(false);
    };
    if let Mark::Base(Some(own)) = mark {
        if own == place {
            return Next::Known(true);
        }
    }
    Next::At(place + 1, top, under)
}

/// Passes a touch of words of which none is a future.
fn pass_touch<'a>(place: u32, top: Option<Slot>, under: &'a [Slot], count: usize) -> Next<'a>
    requires { place < 65535 }
    ensures { (next : ℕ → List Slot → Bool) (k : Option Mark) → then_stays next result ≡ stays_past next k (touch count) place (option_to_list top ++ reverse under.now) }
{
    if !are_words(top, under, count) {
        return Next::Known(false);
    }
    if has_future(top, under, count) {
        return Next::Known(true);
    }
    Next::At(place + 1, top, under)
}

/// Whether the topmost so many are words.
fn are_words(top: Option<Slot>, under: &[Slot], count: usize) -> bool
    ensures { result ≡ are_words count (map slot (option_to_list top ++ reverse under.now)) }
{
    if count == 0 {
        return true;
    }
    match uncovered(top, under) {
        Some((Slot::Val(_), rest)) => last_are_words(rest, count - 1),
        _ => false,
    }
}

/// Whether the last so many are words.
fn last_are_words(slots: &[Slot], count: usize) -> bool
    ensures { result ≡ are_words count (map slot (reverse slots.now)) }
{
    count <= slots.len() && last_are_plain(slots, count)
}

/// Whether a future is among the topmost so many words.
fn has_future(top: Option<Slot>, under: &[Slot], count: usize) -> bool
    ensures { result ≡ is_some (first_future (words count (map slot (option_to_list top ++ reverse under.now)))) }
{
    if count == 0 {
        return false;
    }
    match uncovered(top, under) {
        Some((Slot::Val(w), rest)) => w.is_future() || future_in(rest, count - 1).is_some(),
        _ => false,
    }
}

/// The topmost slot, and those under it.
fn uncovered<'a>(top: Option<Slot>, under: &'a [Slot]) -> Option<(Slot, &'a [Slot])>
    ensures { MatchOption result (option_to_list top ++ reverse under.now ≡ []) (λ x. option_to_list top ++ reverse under.now ≡ x.0 ∷ reverse x.1.now) }
{
    match top {
        Some(slot) => Some((slot, under)),
        None => last_of(under),
    }
}

/// The last slot, and those under it.
fn last_of(slots: &[Slot]) -> Option<(Slot, &[Slot])>
    ensures { MatchOption result (reverse slots.now ≡ []) (λ x. reverse slots.now ≡ x.0 ∷ reverse x.1.now) }
{
    if slots.len() == 0 {
        return None;
    }
    let last = slots.len() - 1;
    Some((slots[last], &slots[..last]))
}

/// These without the last so many.
pub(crate) fn lowered(slots: &[Slot], count: usize) -> &[Slot]
    requires { count ≤ length slots.now }
    ensures { reverse result.now ≡ without_first count (reverse slots.now) }
{
    &slots[..slots.len() - count]
}
