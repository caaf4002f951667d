//! Catches in the order of their numbers.

ghost use Rattle.std.specs.Prelude.{◌≡◌, ◌&&◌, reverse};
ghost use Rattle.ql_world.specs.World.{catch_at, closed};
ghost use Rattle.ql_world.specs.Within.{tagged, is_over, has_tag};
ghost use Rattle.ql_tree.specs.Tree.{is_above};

use ql_world::word::Word;
use ql_world::world::Catch;

/// The catch with this number.
pub(crate) fn catch_at(catches: &[Catch], c: u32) -> Option<Catch>
    ensures { result ≡ catch_at (reverse catches.now) c }
{
    catches.get(c as usize).copied()
}

/// Closes catch c.
pub(crate) fn close(catches: &mut [Catch], c: u32)
    ensures { reverse catches.new ≡ closed (reverse catches.old) c }
{
    let at = c as usize;
    if at < catches.len() {
        catches[at] = Catch {
            open_still: false,
            ..catches[at]
        };
    }
}

/// Whether catch c is catch d, or one that is around it.
pub(crate) fn is_over(catches: &[Catch], c: u32, d: u32) -> bool
    ensures { result ≡ is_over (reverse catches.now) c d }
{
    let mut end = catches.len();
    let mut at = d;
    while (at as usize) < end {
        if c == at {
            return true;
        }
        end = at as usize;
        at = catches[end].enclosing;
    }
    false
}

/// The innermost open catch with this tag, from the given one outwards, above the floor if there is one.
pub(crate) fn find(catches: &[Catch], from: u32, tag: Word, floor: Option<u32>) -> Option<u32>
    ensures { result ≡ tagged (is_above floor) (reverse catches.now) tag from }
{
    let mut end = catches.len();
    let mut at = from;
    while (at as usize) < end && is_above(floor, at) {
        end = at as usize;
        let catch = &catches[end];
        if is_open_with(catch, tag) {
            return Some(at);
        }
        at = catch.enclosing;
    }
    None
}

/// Whether the number of a catch is above the floor, if there is one.
fn is_above(floor: Option<u32>, c: u32) -> bool
    ensures { result ≡ is_above floor c }
{
    match floor {
        None => true,
        Some(floor) => floor < c,
    }
}

/// Whether a catch is open and has this tag.
fn is_open_with(catch: &Catch, tag: Word) -> bool
    ensures { result ≡ (catch.now.open_still && has_tag tag catch.now.tag) }
{
    catch.open_still && has_tag(tag, catch.tag)
}

/// Whether a catch has this tag.
fn has_tag(word: Word, tag: Option<Word>) -> bool
    ensures { result ≡ has_tag word tag }
{
    match tag {
        None => false,
        Some(tag) => word.is_identical(tag),
    }
}
