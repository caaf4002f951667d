//! A book is replayed.

ghost use Rattle.std.specs.Prelude.{◌≡◌, ◌≤◌, ◌<◌, ◌++◌, IfSome, ℕ, List, [], Some, true, false, length, IfOk};
ghost use Rattle.ql_code.specs.Machine.{code_told};
ghost use Rattle.ql_host.specs.Host.{AreNames};
ghost use Rattle.ql_replay.specs.Book.{has_feed, turn_in};
ghost use Rattle.ql_replay.specs.FirstDiff.{limits_of};
ghost use Rattle.ql_replay.specs.Replay.{is_usable, is_within, plain_verdict, headed_verdict, replayed, ahead};
ghost use Rattle.ql_replay.specs.Running.{host_in, line_in};
ghost use Rattle.ql_replay.specs.Page.{IsAtEnd, first_of};
ghost use Rattle.ql_replay.specs.Answer.{Answers, AnswersTaken, EndsWith, head_before, AfterFaults, IsOpening, Opens, AfterOpening, IsRightOn, IsReadOutOn, IsNotPast};

use crate::follow::{at_end, follow};
use crate::follower::Follower;
use crate::laws::{first_line_is_one, replay_is_right};
use crate::lines::read_head;
use crate::page::{Next, Page};
use crate::run::Run;
use crate::verdict::{ReplayFault, Verdict};
use ql_base::limits::Limits;
use ql_base::names::Names;
use ql_base::outside::Source;
use ql_code::code::Code;
use ql_world::event::Head;
use std::alloc::{AllocError, Global};

/// Tells whether a book is a journal of the code, in either version, and if so what its run printed. If not it tells the
/// first line at which the book differs from all journals of the code. Reading ends there, so it ends for a book that goes
/// on without end.
///
/// The clause `every` holds of every book, for the bytes that were taken.
pub fn replay<B: Source>(
    alloc: Global,
    code: Code,
    names: Names,
    book: &mut B,
) -> Result<Verdict, ReplayFault>
    requires names { AreNames names }
    ensures right { (bytes : List ℕ) → B.left book.old ≡ Some bytes → IsRightOn (code_told names code) bytes result }
    ensures end { (bytes : List ℕ) → B.left book.old ≡ Some bytes → IsReadOutOn result (B.left book.new) }
    ensures early { (bytes : List ℕ) → B.left book.old ≡ Some bytes → IsNotPast (code_told names code) bytes result (B.left book.new) }
    ensures every { AnswersTaken (code_told names code) result (B.left book.old) (B.left book.new) }
    ensures faults { AfterFaults result (B.faults book.old) (B.faults book.new) }
{
    replay_is_right();
    first_line_is_one();
    // for what its type keeps: it is sound
    let _ = code.len();
    read_and_follow(alloc, code, names, book)
}

/// The same, by the verdict that following the lines of a book gives.
fn read_and_follow<B: Source>(
    alloc: Global,
    code: Code,
    names: Names,
    book: &mut B,
) -> Result<Verdict, ReplayFault>
    requires names { AreNames names }
    ensures answers { Answers (replayed names code) 1 result [] (B.left book.old) (B.left book.new) }
    ensures faults { AfterFaults result (B.faults book.old) (B.faults book.new) }
{
    let mut page = Page::new();
    match first_bytes(alloc, book, &mut page) {
        Ok(held) => after_opening(alloc, code, names, book, &mut page, held),
        Err(e) => Err(e),
    }
}

/// The bytes before the first line feed; or 200 of them, which is more than a head line has; or all.
fn first_bytes<B: Source>(
    alloc: Global,
    book: &mut B,
    page: &mut Page,
) -> Result<Vec<u8>, ReplayFault>
    ensures opens { Opens result page.old (B.left book.old) page.new (B.left book.new) }
    ensures clean { IfOk result (λ held. has_feed held.items ≡ false) }
    ensures short { IfOk result (λ held. length held.items ≤ 200) }
    ensures faults { AfterOpening result (B.faults book.old) (B.faults book.new) }
{
    let mut held = Vec::new(alloc);
    'bytes: loop {
        match page.peek(book) {
            Next::Byte(b) if b != b'\n' && held.len() < 200 => {
                held.push(b)?;
                page.skip();
            }
            Next::Fault => return Err(ReplayFault::Book),
            _ => return Ok(held),
        }
    }
}

/// Follows a book whose first bytes are these. Where no byte is left it is at its end, and isn't read once more.
fn after_opening<B: Source>(
    alloc: Global,
    code: Code,
    names: Names,
    book: &mut B,
    page: &mut Page,
    held: Vec<u8>,
) -> Result<Verdict, ReplayFault>
    requires names { AreNames names }
    requires clean { has_feed held.items ≡ false }
    requires short { length held.items ≤ 200 }
    requires opening { IsOpening held.items (first_of page.old) (B.left book.old) }
    ensures answers { Answers (λ rest. replayed names code (held.items ++ rest)) 1 result page.old (B.left book.old) (B.left book.new) }
    ensures faults { AfterFaults result (B.faults book.old) (B.faults book.new) }
{
    if page.first().is_none() {
        return first_line_alone(alloc, code, names, held);
    }
    let Some(head) = head_after(page, &held) else {
        return headless(alloc, code, names, held, book, page);
    };
    if !is_usable(head) {
        return Ok(Verdict::Differs { line: 1 });
    }
    page.skip();
    headed(alloc, code, names, head, book, page)
}

/// The limits that a first line with these bytes tells, if it is a head line that ends here.
fn head_after(page: &Page, held: &[u8]) -> Option<Head>
    ensures head { result ≡ head_before (first_of page.now) held.now }
    ensures some { IfSome result (λ h. 0 < length page.now) }
{
    match page.first() {
        Some(b'\n') => read_head(held),
        _ => None,
    }
}

/// Follows a book from its second line on, whose first one tells these limits.
fn headed<B: Source>(
    alloc: Global,
    code: Code,
    names: Names,
    head: Head,
    book: &mut B,
    page: &mut Page,
) -> Result<Verdict, ReplayFault>
    requires names { AreNames names }
    requires usable { is_usable head ≡ true }
    ensures answers { Answers (λ rest. headed_verdict names code head rest) 2 result page.old (B.left book.old) (B.left book.new) }
    ensures faults { AfterFaults result (B.faults book.old) (B.faults book.new) }
{
    let run = match Run::begin(alloc, code, names, limits_of(head), true) {
        Ok(run) => run,
        Err(e) => return Err(ReplayFault::Memory(e)),
    };
    let follower = Follower {
        host: run,
        held: Vec::new(alloc),
        seen: 0,
        at: 2,
        alloc,
    };
    follow(book, page, follower)
}

/// Follows a book without a head line, of which these bytes were taken.
fn headless<B: Source>(
    alloc: Global,
    code: Code,
    names: Names,
    held: Vec<u8>,
    book: &mut B,
    page: &mut Page,
) -> Result<Verdict, ReplayFault>
    requires names { AreNames names }
    requires clean { has_feed held.items ≡ false }
    requires short { length held.items ≤ 200 }
    ensures answers { Answers (λ rest. plain_verdict names code (held.items ++ rest)) 1 result page.old (B.left book.old) (B.left book.new) }
    ensures faults { AfterFaults result (B.faults book.old) (B.faults book.new) }
{
    match begin_plain(alloc, code, names, held) {
        Ok(follower) => follow(book, page, follower),
        Err(e) => Err(ReplayFault::Memory(e)),
    }
}

/// The verdict on a book of these bytes and no others.
fn first_line_alone(
    alloc: Global,
    code: Code,
    names: Names,
    held: Vec<u8>,
) -> Result<Verdict, ReplayFault>
    requires names { AreNames names }
    requires clean { has_feed held.items ≡ false }
    ensures { EndsWith (replayed names code held.items) result }
{
    match begin_plain(alloc, code, names, held) {
        Ok(follower) => at_end(follower),
        Err(e) => Err(ReplayFault::Memory(e)),
    }
}

/// Before the first line of a book of version 1, of which these bytes were taken.
fn begin_plain(
    alloc: Global,
    code: Code,
    names: Names,
    held: Vec<u8>,
) -> Result<Follower<Run>, AllocError>
    requires names { AreNames names }
    ensures verdict { IfOk result (λ f. (rest : List ℕ) → plain_verdict names code (held.items ++ rest) ≡ ahead (host_in f.host) (line_in f.host.texts) turn_in f.host.host.world f.seen f.held.items rest f.at) }
    ensures held { IfOk result (λ f. f.held.items ≡ held.items) }
    ensures at { IfOk result (λ f. f.at ≡ 1) }
{
    let run = Run::begin(alloc, code, names, Limits::usual(), false)?;
    Ok(Follower {
        host: run,
        held,
        seen: 0,
        at: 1,
        alloc,
    })
}

/// The limits that a head line tells. The quantum and the policy, which it doesn't tell, change no run.
fn limits_of(head: Head) -> Limits
    ensures { result ≡ limits_of head }
{
    let usual = Limits::usual();
    Limits {
        budget: head.budget,
        cells: head.cells,
        procs: head.procs,
        output: head.output,
        quantum: usual.quantum,
        policy: usual.policy,
    }
}

/// Whether a run can have these limits.
fn is_usable(head: Head) -> bool
    ensures { result ≡ is_usable head }
{
    is_within(20_000_000, head.budget)
        && is_within(4_000_000, head.cells)
        && head.procs == 65_535
        && head.output == 16_777_216
}

/// Whether a number is at least 1 and at most so great.
fn is_within(most: u64, n: u64) -> bool
    ensures { result ≡ is_within most n }
{
    1 <= n && n <= most
}
