//! The walk along the lines.

ghost use Rattle.std.specs.Prelude.{◌≡◌, ℕ, Option, OnOk, IfOk, option_map, None};
ghost use Rattle.ql_span.specs.Walk.{Key as AnyKey, process, mark, marks};
ghost use Rattle.ql_span.specs.Number.{told, Knows, Learns};

use crate::key::{Key, Mark, number};
use ql_world::event::Event;
use std::alloc::{AllocError, Global};
use std::collections::BTreeMap;

/// The key for which an event tells a process.
fn told(event: &Event) -> Option<(Key, u32)>
    ensures { result ≡ told event.now }
{
    match event {
        Event::Spawn { p, q, .. } => Some((Key::Process(*q), *p)),
        Event::Send { p, k, n } => Some((Key::Call(*k, *n), *p)),
        Event::Opened { p, c, .. } => Some((Key::Catch(*c), *p)),
        _ => None,
    }
}

/// That process is kept.
fn learn(known: &mut BTreeMap<u128, u32>, event: &Event) -> Result<(), AllocError>
    ensures { OnOk result (Learns known.old event.now known.new) }
{
    if let Some((key, p)) = told(event) {
        known.insert(number(key), p)?;
    }
    Ok(())
}

/// The process that is known of a key, as a key.
fn asked(known: &BTreeMap<u128, u32>, key: Key) -> Option<Key>
    ensures { (f : AnyKey → Option ℕ) → Knows known.now f → result ≡ option_map process (f key) }
{
    match known.get(&number(key)) {
        Some(p) => Some(Key::Process(*p)),
        None => None,
    }
}

/// What an event is marked with.
fn marked(known: &BTreeMap<u128, u32>, event: &Event) -> Mark
    ensures { (f : AnyKey → Option ℕ) → Knows known.now f → result ≡ mark f event.now }
{
    match event {
        Event::Turn { p, n } => Mark::Turned(*p, *n),
        Event::Spawn { q, .. } => Mark::Event(Some(Key::Process(*q)), None),
        Event::Send { k, n, .. } => Mark::Event(Some(Key::Call(*k, *n)), None),
        Event::Take { q, k, n } => Mark::Event(Some(Key::Process(*q)), Some(Key::Call(*k, *n))),
        Event::Kill { q, .. } => Mark::Event(Some(Key::Process(*q)), None),
        Event::EndOk { p, .. } => Mark::Event(asked(known, Key::Process(*p)), None),
        Event::Reply { k, n, .. } => Mark::Event(asked(known, Key::Call(*k, *n)), None),
        Event::Throw { c, .. } => Mark::Event(asked(known, Key::Catch(*c)), None),
        _ => Mark::Event(None, None),
    }
}

/// The marks of all lines.
pub fn marks_of(alloc: Global, events: &[Event]) -> Result<Vec<Mark>, AllocError>
    ensures { IfOk result (λ v. v.items ≡ marks (λ k. None) events.now) }
{
    let mut known = BTreeMap::new(alloc);
    let mut marks = Vec::new(alloc);
    for event in events {
        marks.push(marked(&known, event))?;
        learn(&mut known, event)?;
    }
    Ok(marks)
}
