//! The marks of a stack by themselves, the topmost last.

ghost use Rattle.std.specs.Prelude.{◌≡◌, ◌∷◌, [], ◌<◌, ◌≤◌, ◌+◌, suc, None, Some, option_map, reverse, length, if◌then◌else◌, slice_get, MatchOption, vec_len, vec_capacity};
ghost use Rattle.ql_proc.specs.Stacked.{floor_of, mark_of, cleanups_in, cleanup_then, catch_in, catch_or, aimed, is_cleaning, is_catching, up_to, AreLinked, marker_on};
ghost use Rattle.ql_proc.specs.Slots.{is_frame};

use crate::stack::Marker;
use ql_code::mark::Mark;
use ql_world::world::{Aim, Cleanup};

/// Adds a mark, for which there is room.
fn add_mark(marks: &mut Vec<Marker>, last: Marker)
    requires { vec_len marks.old < vec_capacity marks.old }
    ensures marks { reverse marks.new.items ≡ last ∷ reverse marks.old.items }
    ensures len { vec_len marks.new ≡ vec_len marks.old + 1 }
    ensures capacity { vec_capacity marks.new ≡ vec_capacity marks.old }
{
    marks.push_reserved(last);
}

/// Adds a mark over so many slots, in a frame that stands over so many. Gives how many stand under the topmost frame.
pub(crate) fn put_mark(marks: &mut Vec<Marker>, mark: Mark, height: usize, base: usize) -> usize
    requires room { vec_len marks.old < vec_capacity marks.old }
    requires links { AreLinked (reverse marks.old.items) }
    ensures marks { reverse marks.new.items ≡ marker_on (reverse marks.old.items) mark height base ∷ reverse marks.old.items }
    ensures base { result ≡ (if is_frame mark then height else base) }
    ensures len { vec_len marks.new ≡ vec_len marks.old + 1 }
    ensures capacity { vec_capacity marks.new ≡ vec_capacity marks.old }
{
    let cleaning = cleaning_with(marks, mark);
    let catching = catching_with(marks, mark);
    add_mark(
        marks,
        Marker {
            mark,
            height,
            base,
            cleaning,
            catching,
        },
    );
    if begins_frame(mark) { height } else { base }
}

/// How many marks there are up to the innermost running cleanup, with this mark on top.
fn cleaning_with(marks: &[Marker], mark: Mark) -> usize
    requires { AreLinked (reverse marks.now) }
    ensures { result ≡ (if is_cleaning mark then suc (length (reverse marks.now)) else up_to is_cleaning (reverse marks.now)) }
{
    match mark {
        Mark::Cleaning(_, _) => marks.len() + 1,
        _ => cleaning_up_to(marks),
    }
}

/// How many marks there are up to the innermost catch, with this mark on top.
fn catching_with(marks: &[Marker], mark: Mark) -> usize
    requires { AreLinked (reverse marks.now) }
    ensures { result ≡ (if is_catching mark then suc (length (reverse marks.now)) else up_to is_catching (reverse marks.now)) }
{
    match mark {
        Mark::Catching(_, _) => marks.len() + 1,
        _ => catching_up_to(marks),
    }
}

/// How many marks there are up to the innermost running cleanup.
fn cleaning_up_to(marks: &[Marker]) -> usize
    requires { AreLinked (reverse marks.now) }
    ensures { result ≡ up_to is_cleaning (reverse marks.now) }
{
    match marks.last() {
        Some(marker) => marker.cleaning,
        None => 0,
    }
}

/// How many marks there are up to the innermost catch.
fn catching_up_to(marks: &[Marker]) -> usize
    requires { AreLinked (reverse marks.now) }
    ensures { result ≡ up_to is_catching (reverse marks.now) }
{
    match marks.last() {
        Some(marker) => marker.catching,
        None => 0,
    }
}

/// Takes the last mark away.
pub(crate) fn take_mark(marks: &mut Vec<Marker>) -> Option<Marker>
    ensures marks { MatchOption result ((reverse marks.old.items ≡ []) × (reverse marks.new.items ≡ [])) (λ marker. (reverse marks.old.items ≡ marker ∷ reverse marks.new.items) × (vec_len marks.new < vec_capacity marks.new)) }
    ensures len { vec_len marks.new ≤ vec_len marks.old }
    ensures capacity { vec_capacity marks.new ≡ vec_capacity marks.old }
{
    marks.pop()
}

/// The last of these marks.
pub(crate) fn topmost(marks: &[Marker]) -> Option<Mark>
    ensures { result ≡ mark_of (reverse marks.now) }
{
    match marks.last() {
        Some(marker) => Some(marker.mark),
        None => None,
    }
}

/// How many slots stand under the last of these marks.
pub(crate) fn floor_under(marks: &[Marker]) -> usize
    ensures { result ≡ floor_of (reverse marks.now) }
{
    match marks.last() {
        Some(marker) => marker.height,
        None => 0,
    }
}

/// Whether a frame of slots stands on this mark.
pub(crate) fn begins_frame(mark: Mark) -> bool
    ensures { result ≡ is_frame mark }
{
    match mark {
        Mark::Returning(_) | Mark::Base(_) => true,
        _ => false,
    }
}

/// The innermost running cleanup.
pub(crate) fn cleanup_in(marks: &[Marker]) -> Option<Cleanup>
    requires { AreLinked (reverse marks.now) }
    ensures { result ≡ slice_get (cleanups_in (reverse marks.now)) 0 }
{
    let at = cleaning_up_to(marks);
    if at == 0 {
        return None;
    }
    cleanup_of(mark_at(marks, at - 1))
}

/// The running cleanup round the innermost one.
pub(crate) fn outer_cleanup_in(marks: &[Marker]) -> Option<Cleanup>
    requires { AreLinked (reverse marks.now) }
    ensures { result ≡ slice_get (cleanups_in (reverse marks.now)) 1 }
{
    let at = cleaning_up_to(marks);
    if at == 0 {
        return None;
    }
    cleanup_in(&marks[..at - 1])
}

/// The mark at this place.
fn mark_at(marks: &[Marker], at: usize) -> Mark
    requires { at < length marks.now }
    ensures { option_map (λ m. m.mark) (slice_get marks.now at) ≡ Some result }
{
    marks[at].mark
}

/// The cleanup of a mark.
fn cleanup_of(mark: Mark) -> Option<Cleanup>
    ensures { result ≡ slice_get (cleanup_then mark []) 0 }
{
    match mark {
        Mark::Cleaning(_, cleanup) => Some(cleanup),
        _ => None,
    }
}

/// The innermost catch.
pub(crate) fn catch_in(marks: &[Marker]) -> Option<u32>
    requires { AreLinked (reverse marks.now) }
    ensures { result ≡ catch_in (reverse marks.now) }
{
    let at = catching_up_to(marks);
    if at == 0 {
        return None;
    }
    catch_of(mark_at(marks, at - 1))
}

/// The catch of a mark.
fn catch_of(mark: Mark) -> Option<u32>
    ensures { result ≡ catch_or mark None }
{
    match mark {
        Mark::Catching(c, _) => Some(c),
        _ => None,
    }
}

/// Gives the innermost running cleanup this aim.
pub(crate) fn aim_in(marks: &mut Vec<Marker>, aim: Aim)
    ensures marks { reverse marks.new.items ≡ aimed aim (reverse marks.old.items) }
    ensures len { vec_len marks.new ≡ vec_len marks.old }
    ensures capacity { vec_capacity marks.new ≡ vec_capacity marks.old }
{
    aim_among(marks, aim);
}

/// The same among these.
fn aim_among(marks: &mut [Marker], aim: Aim)
    ensures { reverse marks.new ≡ aimed aim (reverse marks.old) }
{
    let mut at = marks.len();
    'marks: while at > 0 {
        at -= 1;
        if let Mark::Cleaning(u, cleanup) = marks[at].mark {
            let floor = cleanup.floor;
            let mark = Mark::Cleaning(u, Cleanup { aim, floor });
            marks[at] = Marker {
                mark,
                height: marks[at].height,
                base: marks[at].base,
                cleaning: marks[at].cleaning,
                catching: marks[at].catching,
            };
            break;
        }
    }
}
