//! Lines of a book that are read by themselves, and lines of events.

ghost use Rattle.std.specs.Prelude.{◌≡◌, ◌≤◌, ◌<◌, ◌^◌, OnOk, length};
ghost use Rattle.ql_world.specs.Text.{line_of};
ghost use Rattle.ql_journal.specs.Single.{as_told};
ghost use Rattle.ql_replay.specs.Book.{turn_in, head_in, AllLow, IsLow, IsShort, numbers_of_mode, numbers_of_stop};

use ql_journal::read;
use ql_journal::write::write_line;
use ql_world::event::{Event, Head, Mode, Stop};
use ql_world::short::Short;
use std::alloc::{AllocError, Global};

/// The process and the count of a turn line.
pub fn read_turn(line: &[u8]) -> Option<(u32, u64)>
    ensures { result ≡ turn_in line.now }
{
    match read::read_turn(line) {
        Some((p, n)) => Some((p.0, n)),
        None => None,
    }
}

/// The limits of a head line.
pub fn read_head(line: &[u8]) -> Option<Head>
    ensures { result ≡ head_in line.now }
{
    read::read_head(line)
}

/// Puts the line of an event, without its line feed, in the place of what was there.
pub fn put_line(
    alloc: Global,
    event: &Event,
    texts: bool,
    to: &mut Vec<u8>,
) -> Result<(), AllocError>
    ensures line { OnOk result (to.new.items ≡ line_of (as_told texts event.now)) }
    ensures short { OnOk result (length to.new.items ≤ 200) }
{
    know_low(event);
    put(alloc, event, texts, to)
}

/// Puts the line of an event in the place of what was there.
fn put(alloc: Global, event: &Event, texts: bool, to: &mut Vec<u8>) -> Result<(), AllocError>
    ensures { OnOk result (to.new.items ≡ line_of (as_told texts event.now)) }
{
    to.clear();
    write_line(alloc, event, texts, to)?;
    to.pop();
    Ok(())
}

/// The numbers of an event have 64 bits, and its text is short.
fn know_low(event: &Event)
    ensures { IsLow event.now }
{
    match event {
        Event::Turn { p, n } => know(u64::from(*p), *n, 0),
        Event::Spawn { p, q, c, mode } => {
            know(u64::from(*p), u64::from(*q), u64::from(*c));
            know_mode(*mode);
        }
        Event::Opened { p, c, d } => know(u64::from(*p), u64::from(*c), u64::from(*d)),
        Event::Exit { p, c } | Event::Throw { p, c } | Event::Land { p, c } => {
            know(u64::from(*p), u64::from(*c), 0)
        }
        Event::Kill { c, q } => know(u64::from(*c), u64::from(*q), 0),
        Event::Protect { p, u } | Event::Begin { p, u } | Event::Finish { p, u } => {
            know(u64::from(*p), *u, 0)
        }
        Event::Send { p, k, n } => know(u64::from(*p), u64::from(*k), *n),
        Event::Take { q, k, n } => know(u64::from(*q), u64::from(*k), *n),
        Event::Reply { q, k, n, text } => {
            know(u64::from(*q), u64::from(*k), *n);
            know_short(text);
        }
        Event::EndOk { p, text } => {
            know(u64::from(*p), 0, 0);
            know_short(text);
        }
        Event::EndKilled { p } => know(u64::from(*p), 0, 0),
        Event::Stopped { stop } => know_stop(*stop),
    }
}

/// Numbers of 64 bits.
fn know(a: u64, b: u64, c: u64)
    ensures { (a < 2 ^ 64) × ((b < 2 ^ 64) × (c < 2 ^ 64)) }
{
    let _ = (a, b, c);
}

/// The same of what a process is spawned for.
fn know_mode(mode: Mode)
    ensures { AllLow (numbers_of_mode mode) }
{
    match mode {
        Mode::Let => {}
        Mode::Call(k) | Mode::Eager(k) => know(u64::from(k), 0, 0),
    }
}

/// The same of why a run stopped.
fn know_stop(stop: Stop)
    ensures { AllLow (numbers_of_stop stop) }
{
    if let Stop::Fault { proc: p, at, .. } = stop {
        know(u64::from(p), at, 0);
    }
}

/// A text has at most 64 bytes.
fn know_short(text: &Option<Short>)
    ensures { IsShort text.now }
{
    if let Some(short) = text {
        let _ = short.bytes();
    }
}
