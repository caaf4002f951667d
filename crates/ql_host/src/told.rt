//! What is told of a run that stopped.

ghost use Rattle.std.specs.Prelude.{◌≡◌};
ghost use Rattle.ql_host.specs.Host.{IsTold};

use ql_base::limits::Limits;
use ql_base::names::Names;
use ql_code::code::Code;
use ql_journal::journal::Journal;
use ql_world::event::Stop;
use std::marker::Model;
use std::sync::Arc;

/// What is told of a run: its output, its journal, and why it stopped. It is told along the schedule that its journal
/// spells.
#[derive(Drop)]
pub struct Told {
    pub(crate) code: Arc<Code>,
    pub(crate) names: Names,
    pub(crate) limits: Limits,
    pub(crate) output: Vec<u8>,
    pub(crate) journal: Journal,
    pub(crate) stop: Stop,
}

impl Model for Told {
    ghost use Rattle.ql_host.specs.Host.{Told, IsTold};
    ghost use Rattle.std.specs.Arc.{arc_value};

    ghost Value = { Told };

    ghost view = { λ t. record { code = arc_value t.code; names = t.names; limits = t.limits; story = record { output = t.output.items; journal = t.journal.journal; stop = t.stop } } };

    ghost invariant = { λ t. IsTold (record { code = arc_value t.code; names = t.names; limits = t.limits; story = record { output = t.output.items; journal = t.journal.journal; stop = t.stop } }) };
}

impl Told {
    /// The code that ran.
    pub fn code(&self) -> &Code
        ensures same { result.now ≡ self.now.code }
        ensures told { IsTold self.now }
    {
        &self.code
    }

    /// The names of its symbols.
    pub fn names(&self) -> &Names
        ensures { result.now ≡ self.now.names }
    {
        &self.names
    }

    /// The limits of the run.
    pub fn limits(&self) -> Limits
        ensures { result ≡ self.now.limits }
    {
        self.limits
    }

    /// What was printed.
    pub fn output(&self) -> &[u8]
        ensures { result.now ≡ self.now.story.output }
    {
        &self.output
    }

    /// The events of the run. The stop is the last.
    pub fn journal(&self) -> &Journal
        ensures { result.now.journal ≡ self.now.story.journal }
    {
        &self.journal
    }

    /// Why the run stopped.
    pub fn stop(&self) -> Stop
        ensures { result ≡ self.now.story.stop }
    {
        self.stop
    }
}
