//! The run that follows a book.

ghost use Rattle.std.specs.Prelude.{◌≡◌, ◌≤◌, ◌<◌, ◌^◌, ◌++◌, ◌∷◌, [], ℕ, List, Bool, true, None, drop, is_some, length, map, option_map, reverse, slice_get, IfOk, OnOk, OnErr};
ghost use Rattle.std.specs.Arc.{arc_value};
ghost use Rattle.ql_world.specs.declared.event.Event.{Event};
ghost use Rattle.ql_world.specs.World.{World};
ghost use Rattle.ql_code.specs.Machine.{Point, Entry, code_world};
ghost use Rattle.ql_host.specs.Host.{IsInRange, AreNames};
ghost use Rattle.ql_base.specs.declared.limits.Policy.TheVariants.{Turn};
ghost use Rattle.ql_replay.specs.Replay.{Host, is_quiet, goes_on, due, since_turn};
ghost use Rattle.ql_replay.specs.Law.{is_another};
ghost use Rattle.ql_replay.specs.Running.{host_in, line_in};

use crate::followed::Followed;
use crate::lines::put_line;
use crate::steps::take_some;
use ql_base::limits::Limits;
use ql_base::names::Names;
use ql_code::code::Code;
use ql_host::host::Host;
use ql_world::event::Event;
use std::alloc::{AllocError, Global};
use std::marker::Model;
use std::sync::Arc;

/// A run with all processes at home. Contracts see the run, and whether its lines have texts.
#[derive(Drop)]
pub struct Run {
    host: Host,
    code: Arc<Code>,
    texts: bool,
    /// How many events there are up to the newest turn.
    told: usize,
    alloc: Global,
}

impl Model for Run {
    ghost use Rattle.ql_replay.specs.Running.{Run, IsKept};
    ghost use Rattle.std.specs.Arc.{arc_value};

    ghost Value = { Run };

    ghost view = { λ r. record { host = r.host; texts = r.texts } };

    ghost invariant = { λ r. IsKept (arc_value r.code) r.host r.told };
}

impl Run {
    /// The run before its first tick.
    pub fn begin(
        alloc: Global,
        code: Code,
        names: Names,
        limits: Limits,
        texts: bool,
    ) -> Result<Run, AllocError>
        requires limits { IsInRange limits }
        requires names { AreNames names }
        requires policy { limits.policy ≡ Turn }
        ensures code { IfOk result (λ r. r.host.code ≡ code) }
        ensures names { IfOk result (λ r. r.host.names ≡ names) }
        ensures limits { IfOk result (λ r. r.host.limits ≡ limits) }
        ensures world { IfOk result (λ r. r.host.world ≡ code_world code) }
        ensures texts { IfOk result (λ r. r.texts ≡ texts) }
    {
        let code = Arc::new(alloc, code)?;
        let host = Host::begin(alloc, code.clone()?, names, limits)?;
        Ok(Run {
            host,
            code,
            texts,
            told: 0,
            alloc,
        })
    }
}

impl Followed for Run {
    ghost use Rattle.ql_replay.specs.Running.{host_in, line_in};

    ghost world = { λ r. r.host.world };

    ghost host = { λ r. host_in r };

    ghost line = { λ r. line_in r.texts };

    fn ticks(&mut self, p: u32, most: u64) -> Result<u64, AllocError> {
        if !self.host.can_step(p) {
            return Ok(0);
        }
        let taken = take_some(&mut self.host, &self.code, p, most)?;
        self.told = up_to_turn(self.host.journal().events());
        Ok(taken)
    }

    fn has_stopped(&self) -> bool {
        self.host.stopped().is_some()
    }

    fn is_quiet(&self) -> bool {
        ends_in_turn(self.host.journal().events())
    }

    fn goes_on(&self, p: u32) -> bool {
        ends_in_turn_of(self.host.journal().events(), p)
    }

    fn due_line(&self, seen: u64, to: &mut Vec<u8>) -> Result<bool, AllocError> {
        let due = from(self.host.journal().events(), self.told);
        if seen < due.len() as u64 {
            put_line(self.alloc, &due[seen as usize], self.texts, to)?;
            return Ok(true);
        }
        if seen > due.len() as u64 {
            return Ok(false);
        }
        let Some(stop) = self.host.stopped() else {
            return Ok(false);
        };
        put_line(self.alloc, &Event::Stopped { stop }, self.texts, to)?;
        Ok(true)
    }

    fn output(self) -> Result<Vec<u8>, AllocError> {
        let alloc = self.alloc;
        let told = self.host.finish();
        Vec::from_slice(alloc, told.output())
    }

    fn has_other(&mut self, p: u32) -> bool {
        let Some(first) = self.host.pick() else {
            return false;
        };
        if first != p {
            return true;
        }
        is_another(p, self.host.pick())
    }
}

/// Whether it is another process than this one.
fn is_another(p: u32, next: Option<u32>) -> bool
    ensures { result ≡ is_another p next }
{
    match next {
        Some(q) => q != p,
        None => false,
    }
}

/// The events from this place on.
fn from(events: &[Event], at: usize) -> &[Event]
    requires { at ≤ length events.now }
    ensures { result.now ≡ drop at events.now }
{
    &events[at..]
}

/// How many events there are up to the newest turn.
fn up_to_turn(events: &[Event]) -> usize
    ensures within { result ≤ length events.now }
    ensures since { drop result events.now ≡ reverse (since_turn (reverse events.now)) }
{
    let mut at = events.len();
    'events: while at > 0 {
        if let Event::Turn { .. } = &events[at - 1] {
            return at;
        }
        at -= 1;
    }
    0
}

/// Whether the newest event is a turn.
fn ends_in_turn(events: &[Event]) -> bool
    ensures { result ≡ is_quiet (reverse events.now) }
{
    match events.last() {
        Some(Event::Turn { .. }) => true,
        _ => false,
    }
}

/// Whether the newest event is a turn of this process.
fn ends_in_turn_of(events: &[Event], p: u32) -> bool
    ensures { result ≡ goes_on p (reverse events.now) }
{
    match events.last() {
        Some(Event::Turn { p: q, .. }) => p == *q,
        _ => false,
    }
}
