//! What a run has told so far.

ghost use Rattle.std.specs.Prelude.{◌≡◌, ◌<◌, ◌≤◌, ◌+◌, ◌^◌, ◌∷◌, [], OnOk, reverse};
ghost use Rattle.ql_world.specs.Event.{with_tick};
ghost use Rattle.ql_code.specs.LocalLaws.{with_turn, with_ticks};
ghost use Rattle.ql_host.specs.History.{IsNoTurn};

use ql_code::laws::commits_are_ticks;
use ql_journal::journal::Journal;
use ql_world::event::{Event, Head};
use std::alloc::{AllocError, Global};
use std::marker::Model;

/// The events of a run, and how many ticks it has taken.
#[derive(Drop)]
pub struct History {
    journal: Journal,
    ticks: u64,
}

impl Model for History {
    ghost use Rattle.std.specs.Prelude.{◌≤◌, reverse};
    ghost use Rattle.ql_host.specs.History.{History, latest};

    ghost Value = { History };

    ghost view = { λ h. record { head = h.journal.journal.head; events = reverse h.journal.journal.events; ticks = h.ticks; spare = h.journal.spare } };

    ghost invariant = { λ h. latest (reverse h.journal.journal.events) ≤ h.ticks };
}

impl History {
    /// Nothing was told yet but the limits.
    pub fn new(alloc: Global, head: Head) -> History
        ensures head { result.head ≡ Some head }
        ensures events { result.events ≡ [] }
        ensures ticks { result.ticks ≡ 0 }
    {
        History {
            journal: Journal::new(alloc, Some(head)),
            ticks: 0,
        }
    }

    /// Makes room for so many more events.
    pub fn reserve(&mut self, n: u64) -> Result<(), AllocError>
        ensures same { self.new ≡ record self.old { spare = self.new.spare } }
        ensures ok { OnOk result (n ≤ self.new.spare) }
        ensures spare { self.old.spare ≤ self.new.spare }
    {
        self.journal.reserve(n)
    }

    /// How many ticks were taken.
    pub fn ticks(&self) -> u64
        ensures { result ≡ self.now.ticks }
    {
        self.ticks
    }

    /// Tells a tick of process p.
    pub fn tick(&mut self, p: u32)
        requires room { 0 < self.old.spare }
        requires small { self.old.ticks < 2 ^ 63 }
        ensures same { self.new ≡ record self.old { events = with_tick p self.old.events; ticks = self.old.ticks + 1; spare = self.new.spare } }
        ensures spare { self.old.spare ≤ self.new.spare + 1 }
    {
        let _ = self.journal.push(Event::Turn { p, n: 1 });
        self.ticks += 1;
    }

    /// Tells so many ticks of process p.
    pub fn tick_often(&mut self, p: u32, n: u64)
        requires room { 0 < self.old.spare }
        requires small { self.old.ticks + n < 2 ^ 63 }
        ensures same { self.new ≡ record self.old { events = with_ticks p n self.old.events; ticks = self.old.ticks + n; spare = self.new.spare } }
        ensures spare { self.old.spare ≤ self.new.spare + 1 }
    {
        commits_are_ticks();
        if n > 0 {
            let _ = self.journal.push(Event::Turn { p, n });
            self.ticks += n;
        }
    }

    /// Tells an event that is no turn.
    pub fn tell(&mut self, event: Event)
        requires room { 0 < self.old.spare }
        requires other { IsNoTurn event }
        ensures same { self.new ≡ record self.old { events = event ∷ self.old.events; spare = self.new.spare } }
        ensures spare { self.old.spare ≤ self.new.spare + 1 }
    {
        let _ = self.journal.push(event);
    }

    /// The journal.
    pub fn journal(&self) -> &Journal
        ensures events { reverse result.now.journal.events ≡ self.now.events }
        ensures head { result.now.journal.head ≡ self.now.head }
    {
        &self.journal
    }

    /// The journal, for whoever ends the run.
    pub fn into_journal(self) -> Journal
        ensures events { reverse result.journal.events ≡ self.events }
        ensures head { result.journal.head ≡ self.head }
        ensures spare { result.spare ≡ self.spare }
    {
        self.journal
    }
}
