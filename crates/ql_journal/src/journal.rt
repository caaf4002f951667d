//! The events of a run.

ghost use Rattle.std.specs.Prelude.{◌≡◌, ◌++◌, ◌+◌, ◌<◌, ◌≤◌, OnOk, OnErr, IsOk, reverse, [], false, vec_len, vec_capacity};
ghost use Rattle.ql_world.specs.Event.{turns, entries, entry_of};
ghost use Rattle.ql_journal.specs.Schedule.{to_come};
ghost use Rattle.ql_journal.specs.Growing.{pushed, turn_in, Joins, Fits};

use crate::turns::Turns;
use ql_world::event::{Event, Head};
use std::alloc::{AllocError, Global};
use std::marker::Model;

/// The events so far, with the limits of the run in version 2. Contracts see it as `Growing`.
#[derive(Drop)]
pub struct Journal {
    head: Option<Head>,
    events: Vec<Event>,
}

impl Model for Journal {
    ghost use Rattle.std.specs.Prelude.{◌-◌, vec_capacity, vec_len};
    ghost use Rattle.ql_journal.specs.Growing.{Growing};

    ghost Value = { Growing };

    ghost view = { λ j. record { journal = record { head = j.head; events = j.events.items }; spare = vec_capacity j.events - vec_len j.events } };
}

impl Journal {
    /// A journal with no events, of version 2 where it tells the limits.
    pub fn new(alloc: Global, head: Option<Head>) -> Journal
        ensures { result.journal ≡ record { head = head; events = [] } }
    {
        Journal {
            head,
            events: Vec::new(alloc),
        }
    }

    /// A journal with these events.
    pub(crate) fn with_events(head: Option<Head>, events: Vec<Event>) -> Journal
        ensures { result.journal ≡ record { head = head; events = events.items } }
    {
        Journal { head, events }
    }

    /// Adds an event. Turns of one process are joined. An `Err` leaves the journal as it was.
    pub fn push(&mut self, event: Event) -> Result<(), AllocError>
        requires small { Fits event (reverse self.old.journal.events) }
        ensures head { self.new.journal.head ≡ self.old.journal.head }
        ensures events { OnOk result (reverse self.new.journal.events ≡ pushed event (reverse self.old.journal.events)) }
        ensures entries { OnOk result (entries self.new.journal.events ≡ entries self.old.journal.events ++ entry_of event) }
        ensures err { OnErr result (self.new.journal ≡ self.old.journal) }
        ensures room { 0 < self.old.spare → IsOk result }
        ensures spare { self.old.spare ≤ self.new.spare + 1 }
    {
        push_event(&mut self.events, event)
    }

    /// Makes room for so many more events.
    pub fn reserve(&mut self, n: u64) -> Result<(), AllocError>
        ensures same { self.new.journal ≡ self.old.journal }
        ensures ok { OnOk result (n ≤ self.new.spare) }
        ensures spare { self.old.spare ≤ self.new.spare }
    {
        self.events.reserve(n as usize)
    }

    /// For how many events there is room.
    pub fn spare(&self) -> u64
        ensures { result ≡ self.now.spare }
    {
        (self.events.capacity() - self.events.len()) as u64
    }

    /// The events.
    pub fn events(&self) -> &[Event]
        ensures { result.now ≡ self.now.journal.events }
    {
        &self.events
    }

    /// The schedule that the events spell: one process for each tick.
    pub fn turns(&self) -> Turns<'_>
        ensures { to_come result ≡ turns self.now.journal.events }
    {
        Turns::of(&self.events)
    }

    /// The limits that it tells.
    pub fn head(&self) -> Option<Head>
        ensures { result ≡ self.now.journal.head }
    {
        self.head
    }
}

/// Adds an event, and joins turns of one process.
fn push_event(events: &mut Vec<Event>, event: Event) -> Result<(), AllocError>
    requires { Fits event (reverse events.old.items) }
    ensures ok { OnOk result (reverse events.new.items ≡ pushed event (reverse events.old.items)) }
    ensures err { OnErr result (events.new.items ≡ events.old.items) }
    ensures room { vec_len events.old < vec_capacity events.old → IsOk result }
    ensures capacity { vec_capacity events.old ≤ vec_capacity events.new }
    ensures len { vec_len events.new ≤ vec_len events.old + 1 }
{
    if join(events, &event) {
        return Ok(());
    }
    events.push(event)?;
    Ok(())
}

/// Lengthens the last turn where the event is a turn of the same process.
fn join(events: &mut [Event], event: &Event) -> bool
    requires { Fits event.now (reverse events.old) }
    ensures joined { Joins result event.now (reverse events.old) (reverse events.new) }
    ensures kept { result ≡ false → events.new ≡ events.old }
{
    match event {
        Event::Turn { p, n } => lengthen(events, *p, *n),
        _ => false,
    }
}

/// Lengthens the last turn where it is one of process p.
fn lengthen(events: &mut [Event], p: u32, n: u64) -> bool
    requires { Fits (Event.Turn p n) (reverse events.old) }
    ensures joined { Joins result (Event.Turn p n) (reverse events.old) (reverse events.new) }
    ensures kept { result ≡ false → events.new ≡ events.old }
{
    let Some(length) = turn_of(events, p) else {
        return false;
    };
    let last = events.len() - 1;
    events[last] = Event::Turn { p, n: length + n };
    true
}

/// How many ticks the last turn has, where it is one of process p.
fn turn_of(events: &[Event], p: u32) -> Option<u64>
    ensures { result ≡ turn_in p (reverse events.now) }
{
    if let Some(Event::Turn { p: q, n }) = events.last() {
        if p == *q {
            return Some(*n);
        }
    }
    None
}
