//! Which line may follow which.

ghost use Rattle.std.specs.Prelude.{◌≡◌};

use ql_world::event::Event;

/// What a line is for the one after it.
#[derive(Clone, Copy, Debug, PartialEq, Eq)]
pub enum Before {
    Other,
    /// A turn of this process.
    Turn(u32),
    Stop,
}

impl Before {
    ghost use Rattle.ql_journal.specs.Grammar.{ending, may_follow};

    /// What the line of this event is.
    pub fn of(event: &Event) -> Before
        ensures { result ≡ ending event.now }
    {
        match event {
            Event::Turn { p, .. } => Before::Turn(*p),
            Event::Stopped { .. } => Before::Stop,
            _ => Before::Other,
        }
    }

    /// Whether such a line may follow.
    pub fn may_precede(self, next: Before) -> bool
        ensures { result ≡ may_follow self next }
    {
        match (self, next) {
            (Before::Stop, _) => false,
            (Before::Turn(p), Before::Turn(q)) => p != q,
            _ => true,
        }
    }
}
