//! The text of a journal.

ghost use Rattle.std.specs.Prelude.{◌≡◌, ◌++◌, ◌∷◌, [], if◌then◌else◌, None, OnOk, OnErr};
ghost use Rattle.ql_world.specs.Text.{and_numbers, and_text, mode_text, stop_text, fault_name, limit_name, line_of, lines_of, head_text, journal_text};
ghost use Rattle.ql_journal.specs.Single.{as_told};

use crate::journal::Journal;
use itoa::Buffer;
use ql_base::fault::RunFault;
use ql_base::limits::LimitKind;
use ql_world::event::{Event, Head, Mode, Stop};
use ql_world::short::Short;
use std::alloc::{AllocError, Global};

/// Appends the text of the journal. An `Err` leaves `to` as it was.
pub fn write_journal(alloc: Global, journal: &Journal, to: &mut Vec<u8>) -> Result<(), AllocError>
    ensures ok { OnOk result (to.new.items ≡ to.old.items ++ journal_text journal.now.journal) }
    ensures err { OnErr result (to.new.items ≡ to.old.items) }
{
    let mut text = Vec::new(alloc);
    put_head(&mut text, journal.head())?;
    put_lines(&mut text, journal.events())?;
    to.extend_from_slice(&text)
}

/// Appends the one line of an event, with its line feed. It has the event's text, if any, where `texts` is true. An `Err`
/// leaves `to` as it was.
pub fn write_line(
    alloc: Global,
    event: &Event,
    texts: bool,
    to: &mut Vec<u8>,
) -> Result<(), AllocError>
    ensures ok { OnOk result (to.new.items ≡ to.old.items ++ lines_of (as_told texts event.now ∷ [])) }
    ensures err { OnErr result (to.new.items ≡ to.old.items) }
{
    let mut line = Vec::new(alloc);
    put_line(&mut line, event, texts)?;
    line.extend_from_slice(b"\n")?;
    to.extend_from_slice(&line)
}

/// Appends the head line, if any.
fn put_head(to: &mut Vec<u8>, head: Option<Head>) -> Result<(), AllocError>
    ensures { OnOk result (to.new.items ≡ to.old.items ++ head_text head) }
{
    let Some(h) = head else {
        return Ok(());
    };
    put(to, b"qlisp 2", &[h.budget, h.cells, h.procs, h.output])?;
    to.extend_from_slice(b"\n")
}

/// Appends the lines of events.
fn put_lines(to: &mut Vec<u8>, events: &[Event]) -> Result<(), AllocError>
    ensures { OnOk result (to.new.items ≡ to.old.items ++ lines_of events.now) }
{
    for event in events {
        put_line(to, event, true)?;
        to.extend_from_slice(b"\n")?;
    }
    Ok(())
}

/// Appends the line of an event, without its line feed, and with its text where `texts` is true.
fn put_line(to: &mut Vec<u8>, event: &Event, texts: bool) -> Result<(), AllocError>
    ensures { OnOk result (to.new.items ≡ to.old.items ++ line_of (as_told texts event.now)) }
{
    match event {
        Event::Turn { p, n } => put(to, b"turn", &[u64::from(*p), *n]),
        Event::Spawn { p, q, c, mode } => {
            put(to, b"spawn", &[u64::from(*p), u64::from(*q), u64::from(*c)])?;
            put_mode(to, *mode)
        }
        Event::Opened { p, c, d } => {
            put(to, b"open", &[u64::from(*p), u64::from(*c), u64::from(*d)])
        }
        Event::Exit { p, c } => put(to, b"exit", &[u64::from(*p), u64::from(*c)]),
        Event::Throw { p, c } => put(to, b"throw", &[u64::from(*p), u64::from(*c)]),
        Event::Land { p, c } => put(to, b"land", &[u64::from(*p), u64::from(*c)]),
        Event::Kill { c, q } => put(to, b"kill", &[u64::from(*c), u64::from(*q)]),
        Event::Protect { p, u } => put(to, b"protect", &[u64::from(*p), *u]),
        Event::Begin { p, u } => put(to, b"begin", &[u64::from(*p), *u]),
        Event::Finish { p, u } => put(to, b"finish", &[u64::from(*p), *u]),
        Event::Send { p, k, n } => put(to, b"send", &[u64::from(*p), u64::from(*k), *n]),
        Event::Take { q, k, n } => put(to, b"take", &[u64::from(*q), u64::from(*k), *n]),
        Event::Reply { q, k, n, text } => {
            put(to, b"reply", &[u64::from(*q), u64::from(*k), *n])?;
            put_text(to, text, texts)
        }
        Event::EndOk { p, text } => {
            put(to, b"end", &[u64::from(*p)])?;
            to.extend_from_slice(b" ok")?;
            put_text(to, text, texts)
        }
        Event::EndKilled { p } => {
            put(to, b"end", &[u64::from(*p)])?;
            to.extend_from_slice(b" killed")
        }
        Event::Stopped { stop } => {
            to.extend_from_slice(b"stop")?;
            put_stop(to, *stop)
        }
    }
}

/// Appends a word and numbers.
fn put(to: &mut Vec<u8>, word: &[u8], numbers: &[u64]) -> Result<(), AllocError>
    ensures { OnOk result (to.new.items ≡ to.old.items ++ (word.now ++ and_numbers numbers.now)) }
{
    to.extend_from_slice(word)?;
    put_numbers(to, numbers)
}

/// Appends numbers, each behind a space. An `Err` is want of memory; some of the text may stand then.
pub fn put_numbers(to: &mut Vec<u8>, numbers: &[u64]) -> Result<(), AllocError>
    ensures { OnOk result (to.new.items ≡ to.old.items ++ and_numbers numbers.now) }
{
    let mut buffer = Buffer::new();
    for n in numbers {
        to.extend_from_slice(b" ")?;
        to.extend_from_slice(buffer.format(*n).as_bytes())?;
    }
    Ok(())
}

/// Appends a text behind a space, if there is one and texts are told.
fn put_text(to: &mut Vec<u8>, text: &Option<Short>, texts: bool) -> Result<(), AllocError>
    ensures { OnOk result (to.new.items ≡ to.old.items ++ and_text (if texts then text.now else None)) }
{
    match text {
        Some(short) if texts => {
            to.extend_from_slice(b" ")?;
            to.extend_from_slice(short.bytes())
        }
        _ => Ok(()),
    }
}

/// Appends what a process is spawned for.
fn put_mode(to: &mut Vec<u8>, mode: Mode) -> Result<(), AllocError>
    ensures { OnOk result (to.new.items ≡ to.old.items ++ mode_text mode) }
{
    match mode {
        Mode::Let => to.extend_from_slice(b" let"),
        Mode::Call(k) => put(to, b" call", &[u64::from(k)]),
        Mode::Eager(k) => put(to, b" eager", &[u64::from(k)]),
    }
}

/// Appends why a run stopped, behind a space. An `Err` is want of memory; some of the text may stand then.
pub fn put_stop(to: &mut Vec<u8>, stop: Stop) -> Result<(), AllocError>
    ensures { OnOk result (to.new.items ≡ to.old.items ++ stop_text stop) }
{
    match stop {
        Stop::Done => to.extend_from_slice(b" done"),
        Stop::Fault { kind, proc: p, at } => {
            to.extend_from_slice(b" error ")?;
            put(to, name_of_fault(kind), &[u64::from(p), at])
        }
        Stop::Limit { kind } => {
            to.extend_from_slice(b" limit ")?;
            to.extend_from_slice(name_of_limit(kind))
        }
        Stop::Deadlock => to.extend_from_slice(b" deadlock"),
        Stop::Budget => to.extend_from_slice(b" budget"),
    }
}

/// The name of a run error.
fn name_of_fault(kind: RunFault) -> &'static [u8]
    ensures { result.now ≡ fault_name kind }
{
    match kind {
        RunFault::Overflow => b"overflow",
        RunFault::NotNumber => b"notnumber",
        RunFault::NotPair => b"notpair",
        RunFault::DivZero => b"divzero",
        RunFault::Unbound => b"unbound",
        RunFault::NoCatch => b"nocatch",
        RunFault::DeadFuture => b"deadfuture",
        RunFault::DeadClosure => b"deadclosure",
        RunFault::WrongCount => b"wrongcount",
        RunFault::NotFunction => b"notfunction",
        RunFault::InCleanup => b"incleanup",
    }
}

/// The name of a limit.
fn name_of_limit(kind: LimitKind) -> &'static [u8]
    ensures { result.now ≡ limit_name kind }
{
    match kind {
        LimitKind::Cells => b"cells",
        LimitKind::Procs => b"procs",
        LimitKind::Output => b"output",
    }
}
