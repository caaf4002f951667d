//! The schedule that events spell.

ghost use Rattle.std.specs.Prelude.{◌≡◌, ◌∷◌, [], MatchOption};
ghost use Rattle.ql_world.specs.Event.{turns};
ghost use Rattle.ql_journal.specs.Schedule.{ticks_left, to_come};

use ql_base::numbers::Pid;
use ql_world::event::Event;

/// One process for each tick, in order.
#[derive(Drop)]
pub struct Turns<'a> {
    /// The process of the turn that is told, and how many ticks of it are left.
    process: u32,
    left: u64,
    /// The events after it.
    events: &'a [Event],
}

impl<'a> Turns<'a> {
    /// The schedule of these events.
    pub(crate) fn of(events: &'a [Event]) -> Turns<'a>
        ensures { to_come result ≡ turns events.now }
    {
        Turns {
            process: 0,
            left: 0,
            events,
        }
    }
}

impl<'a> Iterator for Turns<'a> {
    ghost use Rattle.std.specs.Iterator.{YieldsFirstBy, item_count};
    ghost use Rattle.ql_journal.specs.Schedule.{to_come};

    type Item = Pid;

    ghost next_gives = { YieldsFirstBy (λ p. p.0) to_come };

    ghost remaining = { item_count to_come };

    fn next(&mut self) -> Option<Pid> {
        if self.left > 0 {
            self.left -= 1;
            return Some(Pid(self.process));
        }
        let Some((process, left, rest)) = next_tick(self.events) else {
            return None;
        };
        self.process = process;
        self.left = left;
        self.events = rest;
        Some(Pid(process))
    }
}

/// The first tick: its process, how many ticks of its turn are left, and the events after that.
fn next_tick(events: &[Event]) -> Option<(u32, u64, &[Event])>
    ensures { MatchOption result (turns events.now ≡ []) (λ x. turns events.now ≡ x.0 ∷ ticks_left x.0 x.1 x.2.now) }
{
    let mut rest = events;
    'rest: while let Some((first, others)) = rest.split_first() {
        rest = others;
        if let Event::Turn { p, n } = first {
            if *n > 0 {
                return Some((*p, *n - 1, rest));
            }
        }
    }
    None
}
