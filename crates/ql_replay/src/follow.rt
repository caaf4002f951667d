//! A book is followed to its end, or to the first line that differs.

ghost use Rattle.std.specs.Prelude.{◌≡◌, ◌≤◌, ◌<◌, ◌+◌, ◌^◌, [], false, true, is_some, length, IfOk, OnOk};
ghost use Rattle.ql_replay.specs.Book.{turn_in, has_feed};
ghost use Rattle.ql_replay.specs.Replay.{ahead, same};
ghost use Rattle.ql_replay.specs.Following.{rank};
ghost use Rattle.ql_replay.specs.Answer.{Answers, AfterFaults, AfterStep, EndsWith, StepsTo};
ghost use Rattle.ql_replay.specs.declared.follow.Step.TheVariants.{On as on};

use crate::followed::Followed;
use crate::follower::{Follower, is_whole, take_byte};
use crate::page::{Next, Page};
use crate::verdict::{ReplayFault, Verdict};
use ql_base::outside::Source;
use std::alloc::AllocError;

/// What a step along a book came to.
#[derive(Clone, Copy, Debug, PartialEq, Eq)]
enum Step {
    /// A byte was taken.
    On,
    /// The book has ended.
    End,
    /// The line differs.
    Differs,
    /// A call of the book failed.
    Fault,
}

/// Follows a book from here on.
pub fn follow<B: Source, H: Followed + Drop>(
    book: &mut B,
    page: &mut Page,
    follower: Follower<H>,
) -> Result<Verdict, ReplayFault>
    requires clean { has_feed follower.held.items ≡ false }
    requires short { length follower.held.items ≤ 200 }
    requires low { follower.at < 2 ^ 64 }
    ensures answers { Answers (λ rest. ahead (H.host follower.host) (H.line follower.host) turn_in (H.world follower.host) follower.seen follower.held.items rest follower.at) follower.at
        result page.old (B.left book.old) (B.left book.new) }
    ensures faults { AfterFaults result (B.faults book.old) (B.faults book.new) }
{
    let mut follower = follower;
    'bytes: loop {
        match take_next(book, page, &mut follower) {
            Ok(Step::On) => {}
            Ok(Step::End) => return at_end(follower),
            Ok(Step::Differs) => return Ok(Verdict::Differs { line: follower.at }),
            Ok(Step::Fault) => return Err(ReplayFault::Book),
            Err(e) => return Err(ReplayFault::Memory(e)),
        }
    }
}

/// The verdict on a book that ends here.
pub fn at_end<H: Followed + Drop>(follower: Follower<H>) -> Result<Verdict, ReplayFault>
    requires clean { has_feed follower.held.items ≡ false }
    ensures { EndsWith (ahead (H.host follower.host) (H.line follower.host) turn_in (H.world follower.host) follower.seen follower.held.items [] follower.at) result }
{
    match is_whole(&follower) {
        Ok(true) => whole(follower),
        Ok(false) => Ok(Verdict::Differs { line: follower.at }),
        Err(e) => Err(ReplayFault::Memory(e)),
    }
}

/// The verdict on a whole book.
fn whole<H: Followed + Drop>(follower: Follower<H>) -> Result<Verdict, ReplayFault>
    requires { is_some ((H.host follower.host).stop (H.world follower.host)) ≡ true }
    ensures { EndsWith (same ((H.host follower.host).output (H.world follower.host))) result }
{
    match follower.host.output() {
        Ok(bytes) => Ok(Verdict::Same(bytes)),
        Err(e) => Err(ReplayFault::Memory(e)),
    }
}

/// Takes the next byte of a book.
fn take_next<B: Source, H: Followed + Drop>(
    book: &mut B,
    page: &mut Page,
    follower: &mut Follower<H>,
) -> Result<Step, AllocError>
    requires clean { has_feed follower.old.held.items ≡ false }
    requires short { length follower.old.held.items ≤ 200 }
    requires low { follower.old.at < 2 ^ 64 }
    ensures steps { StepsTo (λ rest. ahead (H.host follower.old.host) (H.line follower.old.host) turn_in (H.world follower.old.host) follower.old.seen follower.old.held.items rest follower.old.at) follower.old.at
        page.old (B.left book.old) (λ rest. ahead (H.host follower.new.host) (H.line follower.new.host) turn_in (H.world follower.new.host) follower.new.seen follower.new.held.items rest follower.new.at) follower.new.at
        page.new (B.left book.new) result }
    ensures faults { AfterStep result (B.faults book.old) (B.faults book.new) }
    ensures clean { OnOk result (has_feed follower.new.held.items ≡ false) }
    ensures short { OnOk result (length follower.new.held.items ≤ 200) }
    ensures low { OnOk result (follower.new.at < 2 ^ 64) }
    ensures on { IfOk result (λ s. s ≡ on → rank follower.old.at follower.old.held.items + 1 ≤ rank follower.new.at follower.new.held.items) }
{
    match page.peek(book) {
        Next::Byte(b) => {
            page.skip();
            if take_byte(follower, b)? {
                Ok(Step::On)
            } else {
                Ok(Step::Differs)
            }
        }
        Next::End => Ok(Step::End),
        Next::Fault => Ok(Step::Fault),
    }
}
