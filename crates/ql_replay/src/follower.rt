//! A book that is followed as it comes.

ghost use Rattle.std.specs.Prelude.{◌≡◌, ◌≤◌, ◌<◌, ◌+◌, ◌^◌, ◌∷◌, [], false, true, length, IfOk, OnOk};
ghost use Rattle.std.specs.Str.{bytes_eq};
ghost use Rattle.ql_replay.specs.Book.{turn_in, has_feed};
ghost use Rattle.ql_replay.specs.Following.{Follows, TakesByte, EndsHere, feeds, rank};

use crate::followed::Followed;
use crate::lines::read_turn;
use crate::turn::take_turn;
use std::alloc::{AllocError, Global};

/// How far a book was followed.
#[derive(Drop)]
pub struct Follower<H: Followed + Drop> {
    pub host: H,
    /// The bytes of a line that hasn't ended yet.
    pub held: Vec<u8>,
    /// How many lines of the last turn were seen.
    pub seen: u64,
    /// The number of the line.
    pub at: u64,
    pub alloc: Global,
}

/// Takes the next line of a book, where so many lines of the last turn were seen, and tells how many were seen then. A
/// line that differs is None.
fn take_line<H: Followed>(
    alloc: Global,
    host: &mut H,
    seen: u64,
    line: &[u8],
) -> Result<Option<u64>, AllocError>
    ensures same { OnOk result ((H.host host.new ≡ H.host host.old) × (H.line host.new ≡ H.line host.old)) }
    ensures follows { IfOk result (λ o. Follows (H.host host.old) (H.line host.old) turn_in (H.world host.old) seen line.now (H.world host.new) o) }
{
    let mut text = Vec::new(alloc);
    if host.due_line(seen, &mut text)? {
        if is_same(text.as_slice(), line) {
            return Ok(Some(seen + 1));
        }
        return Ok(None);
    }
    if host.has_stopped() {
        return Ok(None);
    }
    let Some((p, n)) = read_turn(line) else {
        return Ok(None);
    };
    if take_turn(host, p, n)? {
        return Ok(Some(0));
    }
    Ok(None)
}

/// Whether a line of the book is the one that is due.
fn is_same(due: &[u8], line: &[u8]) -> bool
    ensures { result ≡ bytes_eq due.now line.now }
{
    due == line
}

/// Takes the next byte of a book. It is false where the line in which it stands differs from every line. More lines than
/// 64 bits can count are want of memory.
pub fn take_byte<H: Followed + Drop>(follower: &mut Follower<H>, b: u8) -> Result<bool, AllocError>
    requires clean { has_feed follower.old.held.items ≡ false }
    requires short { length follower.old.held.items ≤ 200 }
    requires low { follower.old.at < 2 ^ 64 }
    ensures takes { IfOk result (λ more. TakesByte (H.host follower.old.host) (H.line follower.old.host) turn_in more b (H.world follower.old.host) follower.old.seen follower.old.held.items follower.old.at
        (H.world follower.new.host) follower.new.seen follower.new.held.items follower.new.at) }
    ensures clean { OnOk result (has_feed follower.new.held.items ≡ false) }
    ensures short { OnOk result (length follower.new.held.items ≤ 200) }
    ensures low { OnOk result (follower.new.at < 2 ^ 64) }
    ensures same { OnOk result ((H.host follower.new.host ≡ H.host follower.old.host) × (H.line follower.new.host ≡ H.line follower.old.host)) }
    ensures count { IfOk result (λ more. more ≡ true → follower.new.at ≡ follower.old.at + feeds (b ∷ [])) }
    ensures stays { IfOk result (λ more. more ≡ false → follower.new.at ≡ follower.old.at) }
    ensures on { IfOk result (λ more. more ≡ true → rank follower.old.at follower.old.held.items + 1 ≤ rank follower.new.at follower.new.held.items) }
{
    if b == b'\n' {
        let Some(next) = follower.at.checked_add(1) else {
            return Err(AllocError);
        };
        let Some(seen) = take_line(
            follower.alloc,
            &mut follower.host,
            follower.seen,
            follower.held.as_slice(),
        )?
        else {
            return Ok(false);
        };
        follower.seen = seen;
        follower.held.clear();
        follower.at = next;
        return Ok(true);
    }
    if follower.held.len() >= 200 {
        let mut text = Vec::new(follower.alloc);
        follower.host.due_line(follower.seen, &mut text)?;
        return Ok(false);
    }
    follower.held.push(b)?;
    Ok(true)
}

/// Whether the book is whole where it ends here.
pub fn is_whole<H: Followed + Drop>(follower: &Follower<H>) -> Result<bool, AllocError>
    requires clean { has_feed follower.now.held.items ≡ false }
    ensures { IfOk result (λ whole. EndsHere (H.host follower.now.host) (H.line follower.now.host) turn_in whole (H.world follower.now.host) follower.now.seen follower.now.held.items follower.now.at) }
{
    if follower.held.len() > 0 {
        return Ok(false);
    }
    let mut text = Vec::new(follower.alloc);
    if follower.host.due_line(follower.seen, &mut text)? {
        return Ok(false);
    }
    Ok(follower.host.has_stopped())
}
