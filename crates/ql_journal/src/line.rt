//! The lines of a journal.

ghost use Rattle.std.specs.Prelude.{◌≡◌};
ghost use Rattle.ql_journal.specs.Reading.{Gives, one_id, two_ids, id_and_count, three_ids, two_ids_and_count, turn_of, mode_of, spawn_of, opened_of, catch_of, cleanup_of, text_of, call_of, end_of, fault_of, limit_of, limit_stop_of, fault_stop_of, stop_of, stopped_of, event_of, next_event, four_counts, head_in, head_of};

use crate::order::Before;
use crate::words::{count, cut, id, is_short, is_word, next_line, strip};
use ql_base::fault::RunFault;
use ql_base::limits::LimitKind;
use ql_world::event::{Event, Head, Mode, Stop};
use ql_world::short::Short;

/// A word and one process closure.
fn one_id(text: &[u8], word: &[u8]) -> Option<u32>
    ensures { result ≡ one_id word.now text.now }
{
    let text = strip(text, word)?;
    let (k, rest) = id(text)?;
    if rest.is_empty() { Some(k) } else { None }
}

/// A word and two of processes and catches.
fn two_ids(text: &[u8], word: &[u8]) -> Option<(u32, u32)>
    ensures { result ≡ two_ids word.now text.now }
{
    let text = strip(text, word)?;
    let (p, text) = id(text)?;
    let (c, rest) = id(text)?;
    if rest.is_empty() { Some((p, c)) } else { None }
}

/// A word, a process and a number.
pub fn id_and_count(text: &[u8], word: &[u8]) -> Option<(u32, u64)>
    ensures { result ≡ id_and_count word.now text.now }
{
    let text = strip(text, word)?;
    let (p, text) = id(text)?;
    let (n, rest) = count(text)?;
    if rest.is_empty() { Some((p, n)) } else { None }
}

/// A word and three of processes and catches, and what follows.
fn three_ids<'a>(text: &'a [u8], word: &[u8]) -> Option<(u32, u32, u32, &'a [u8])>
    ensures { Gives (λ x. (x.0, x.1, x.2, x.3.now)) result (three_ids word.now text.now) }
{
    let text = strip(text, word)?;
    let (p, text) = id(text)?;
    let (q, text) = id(text)?;
    let (c, rest) = id(text)?;
    Some((p, q, c, rest))
}

/// A word, a process, a process closure and a number, and what follows.
fn two_ids_and_count<'a>(text: &'a [u8], word: &[u8]) -> Option<(u32, u32, u64, &'a [u8])>
    ensures { Gives (λ x. (x.0, x.1, x.2, x.3.now)) result (two_ids_and_count word.now text.now) }
{
    let text = strip(text, word)?;
    let (p, text) = id(text)?;
    let (k, text) = id(text)?;
    let (n, rest) = count(text)?;
    Some((p, k, n, rest))
}

/// A turn of at least one tick.
fn turn_of(text: &[u8]) -> Option<Event>
    ensures { result ≡ turn_of text.now }
{
    let (p, n) = id_and_count(text, b"turn")?;
    if n == 0 {
        None
    } else {
        Some(Event::Turn { p, n })
    }
}

/// What a process is spawned for.
fn mode_of(text: &[u8]) -> Option<Mode>
    ensures { result ≡ mode_of text.now }
{
    if is_word(text, b" let") {
        return Some(Mode::Let);
    }
    if let Some(k) = one_id(text, b" call") {
        return Some(Mode::Call(k));
    }
    let k = one_id(text, b" eager")?;
    Some(Mode::Eager(k))
}

/// A spawned process.
fn spawn_of(text: &[u8]) -> Option<Event>
    ensures { result ≡ spawn_of text.now }
{
    let (p, q, c, rest) = three_ids(text, b"spawn")?;
    let mode = mode_of(rest)?;
    Some(Event::Spawn { p, q, c, mode })
}

/// A catch that was opened.
fn opened_of(text: &[u8]) -> Option<Event>
    ensures { result ≡ opened_of text.now }
{
    let (p, c, d, rest) = three_ids(text, b"open")?;
    if rest.is_empty() {
        Some(Event::Opened { p, c, d })
    } else {
        None
    }
}

/// What else is done with a catch.
fn catch_of(text: &[u8]) -> Option<Event>
    ensures { result ≡ catch_of text.now }
{
    if let Some((p, c)) = two_ids(text, b"exit") {
        return Some(Event::Exit { p, c });
    }
    if let Some((p, c)) = two_ids(text, b"throw") {
        return Some(Event::Throw { p, c });
    }
    if let Some((p, c)) = two_ids(text, b"land") {
        return Some(Event::Land { p, c });
    }
    let (c, q) = two_ids(text, b"kill")?;
    Some(Event::Kill { c, q })
}

/// What is done with a cleanup.
fn cleanup_of(text: &[u8]) -> Option<Event>
    ensures { result ≡ cleanup_of text.now }
{
    if let Some((p, u)) = id_and_count(text, b"protect") {
        return Some(Event::Protect { p, u });
    }
    if let Some((p, u)) = id_and_count(text, b"begin") {
        return Some(Event::Begin { p, u });
    }
    let (p, u) = id_and_count(text, b"finish")?;
    Some(Event::Finish { p, u })
}

/// A text where there is to be one, and else nothing.
fn text_of(texts: bool, text: &[u8]) -> Option<Option<Short>>
    ensures { result ≡ text_of texts text.now }
{
    if !texts {
        return if text.is_empty() { Some(None) } else { None };
    }
    let (first, rest) = text.split_first()?;
    if *first == b' ' && is_short(rest) {
        Some(Some(Short::new(rest)))
    } else {
        None
    }
}

/// What is done with a call of a process closure.
fn call_of(texts: bool, text: &[u8]) -> Option<Event>
    ensures { result ≡ call_of texts text.now }
{
    if let Some((p, k, n, rest)) = two_ids_and_count(text, b"send") {
        if rest.is_empty() {
            return Some(Event::Send { p, k, n });
        }
    }
    if let Some((q, k, n, rest)) = two_ids_and_count(text, b"take") {
        if rest.is_empty() {
            return Some(Event::Take { q, k, n });
        }
    }
    let (q, k, n, rest) = two_ids_and_count(text, b"reply")?;
    let handed = text_of(texts, rest)?;
    Some(Event::Reply {
        q,
        k,
        n,
        text: handed,
    })
}

/// The end of a process.
fn end_of(texts: bool, text: &[u8]) -> Option<Event>
    ensures { result ≡ end_of texts text.now }
{
    let text = strip(text, b"end")?;
    let (p, rest) = id(text)?;
    if is_word(rest, b" killed") {
        return Some(Event::EndKilled { p });
    }
    let rest = strip(rest, b" ok")?;
    let handed = text_of(texts && p != 1, rest)?;
    Some(Event::EndOk { p, text: handed })
}

/// The run error of this name.
fn fault_of(text: &[u8]) -> Option<RunFault>
    ensures { result ≡ fault_of text.now }
{
    if is_word(text, b"overflow") {
        return Some(RunFault::Overflow);
    }
    if is_word(text, b"notnumber") {
        return Some(RunFault::NotNumber);
    }
    if is_word(text, b"notpair") {
        return Some(RunFault::NotPair);
    }
    if is_word(text, b"divzero") {
        return Some(RunFault::DivZero);
    }
    if is_word(text, b"unbound") {
        return Some(RunFault::Unbound);
    }
    if is_word(text, b"nocatch") {
        return Some(RunFault::NoCatch);
    }
    if is_word(text, b"deadfuture") {
        return Some(RunFault::DeadFuture);
    }
    if is_word(text, b"deadclosure") {
        return Some(RunFault::DeadClosure);
    }
    if is_word(text, b"wrongcount") {
        return Some(RunFault::WrongCount);
    }
    if is_word(text, b"notfunction") {
        return Some(RunFault::NotFunction);
    }
    if is_word(text, b"incleanup") {
        return Some(RunFault::InCleanup);
    }
    None
}

/// The limit of this name.
fn limit_of(text: &[u8]) -> Option<LimitKind>
    ensures { result ≡ limit_of text.now }
{
    if is_word(text, b"cells") {
        return Some(LimitKind::Cells);
    }
    if is_word(text, b"procs") {
        return Some(LimitKind::Procs);
    }
    if is_word(text, b"output") {
        return Some(LimitKind::Output);
    }
    None
}

/// A stop by an error.
fn fault_stop_of(text: &[u8]) -> Option<Stop>
    ensures { result ≡ fault_stop_of text.now }
{
    let text = strip(text, b" error ")?;
    let (name, rest) = cut(text, b' ');
    let kind = fault_of(name)?;
    let (p, text) = id(rest)?;
    let (at, rest) = count(text)?;
    if rest.is_empty() {
        Some(Stop::Fault { kind, proc: p, at })
    } else {
        None
    }
}

/// Why a run stopped.
fn stop_of(text: &[u8]) -> Option<Stop>
    ensures { result ≡ stop_of text.now }
{
    if is_word(text, b" done") {
        return Some(Stop::Done);
    }
    if is_word(text, b" deadlock") {
        return Some(Stop::Deadlock);
    }
    if is_word(text, b" budget") {
        return Some(Stop::Budget);
    }
    if let Some(kind) = limit_stop_of(text) {
        return Some(Stop::Limit { kind });
    }
    fault_stop_of(text)
}

/// The limit that a run met.
fn limit_stop_of(text: &[u8]) -> Option<LimitKind>
    ensures { result ≡ limit_stop_of text.now }
{
    let text = strip(text, b" limit ")?;
    limit_of(text)
}

/// A stop line.
fn stopped_of(text: &[u8]) -> Option<Event>
    ensures { result ≡ stopped_of text.now }
{
    let text = strip(text, b"stop")?;
    let stop = stop_of(text)?;
    Some(Event::Stopped { stop })
}

/// The event of a line, in a journal with texts or in one without.
#[tactic(auto, unfolding(crate::specs::Reading::event_of))]
pub fn event_of(texts: bool, text: &[u8]) -> Option<Event>
    ensures { result ≡ event_of texts text.now }
{
    if let Some(event) = turn_of(text) {
        return Some(event);
    }
    if let Some(event) = spawn_of(text) {
        return Some(event);
    }
    if let Some(event) = opened_of(text) {
        return Some(event);
    }
    if let Some(event) = catch_of(text) {
        return Some(event);
    }
    if let Some(event) = cleanup_of(text) {
        return Some(event);
    }
    if let Some(event) = call_of(texts, text) {
        return Some(event);
    }
    if let Some(event) = end_of(texts, text) {
        return Some(event);
    }
    stopped_of(text)
}

/// The next line's event, where it may follow such a line, and what follows it.
pub fn next_event(texts: bool, before: Before, text: &[u8]) -> Option<(Event, &[u8])>
    ensures { Gives (λ x. (x.0, x.1.now)) result (next_event texts before text.now) }
{
    let (line, rest) = next_line(text)?;
    let event = event_of(texts, line)?;
    if before.may_precede(Before::of(&event)) {
        Some((event, rest))
    } else {
        None
    }
}

/// Four numbers, and what follows.
fn four_counts(text: &[u8]) -> Option<(u64, u64, u64, u64, &[u8])>
    ensures { Gives (λ x. (x.0, x.1, x.2, x.3, x.4.now)) result (four_counts text.now) }
{
    let (budget, text) = count(text)?;
    let (cells, text) = count(text)?;
    let (procs, text) = count(text)?;
    let (output, rest) = count(text)?;
    Some((budget, cells, procs, output, rest))
}

/// The head of a line.
pub fn head_in(text: &[u8]) -> Option<Head>
    ensures { result ≡ head_in text.now }
{
    let text = strip(text, b"qlisp 2")?;
    let (budget, cells, procs, output, rest) = four_counts(text)?;
    if rest.is_empty() {
        Some(Head {
            budget,
            cells,
            procs,
            output,
        })
    } else {
        None
    }
}

/// The head of a text, and what follows its line.
#[tactic(auto, unfolding(crate::specs::Reading::head_of))]
pub fn head_of(text: &[u8]) -> Option<(Head, &[u8])>
    ensures { Gives (λ x. (x.0, x.1.now)) result (head_of text.now) }
{
    let (line, rest) = next_line(text)?;
    let head = head_in(line)?;
    Some((head, rest))
}
