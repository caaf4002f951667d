//! A process closure, and the calls that were sent to it.

ghost use Rattle.std.specs.Prelude.{◌≡◌, ◌+◌, true, false, Some, None, IfOk, IfErr, OnOk, OnErr, is_some, ◌++◌, length, map, option_copied, slice_get};
ghost use Rattle.ql_calls.specs.Calls.{new_server};
ghost use Rattle.ql_calls.specs.Sending.{Explains, after_send, next_call, takes_at_once};
ghost use Rattle.ql_calls.specs.Taking.{after_take, oldest};
ghost use Rattle.ql_calls.specs.Unanswered.{future_at, reply_places};

use ql_world::word::Word;
use ql_world::world::Closure;
use std::alloc::{AllocError, Global};
use std::collections::VecDeque;
use std::marker::Model;
use thiserror::Error;

/// Why a call was not sent.
#[derive(Clone, Copy, Debug, PartialEq, Eq, Error)]
pub enum CallFault {
    /// The closure is dead, or was never made.
    #[error("the closure is dead")]
    Dead,
    /// There was no memory.
    #[error("out of memory")]
    Memory(AllocError),
}

/// A call that was sent. Contracts see it as the record `Call`.
#[derive(Drop)]
pub struct Call {
    number: u64,
    arguments: Vec<Word>,
    reply: Option<u32>,
}

impl Model for Call {
    ghost use Rattle.ql_world.specs.World as world;

    ghost Value = { world.Call };

    ghost view = { λ c. record { number = c.number; arguments = c.arguments.items; reply = c.reply } };
}

impl Call {
    /// Which of its closure's calls it is, from 1.
    pub fn number(&self) -> u64
        ensures { result ≡ self.now.number }
    {
        self.number
    }

    /// Its arguments.
    pub fn arguments(&self) -> &[Word]
        ensures { result.now ≡ self.now.arguments }
    {
        &self.arguments
    }

    /// The future that the reply goes to. An ignored call has none.
    pub fn reply(&self) -> Option<u32>
        ensures { result ≡ self.now.reply }
    {
        self.reply
    }
}

/// A process closure. Contracts see it as the record `ProcessClosure`.
#[derive(Drop)]
pub struct Server {
    process: u32,
    body: Closure,
    eager: bool,
    /// How many calls were sent.
    sent: u64,
    /// The calls that wait, the oldest first.
    queue: VecDeque<Call>,
    current: Option<Call>,
    turn: Vec<u32>,
    dead: bool,
}

impl Model for Server {
    ghost use Rattle.ql_world.specs.World as world;
    ghost use Rattle.ql_world.specs.declared.world.Closure.{Closure};

    ghost Value = { world.ProcessClosure Closure };

    ghost view = { λ s. record { process = s.process; body = s.body; eager = s.eager; sent = s.sent; queue = s.queue.items; current = s.current; turn = s.turn.items; dead = s.dead } };
}

impl Server {
    /// A process closure to which no call was sent.
    pub(crate) fn new(
        alloc: Global,
        process: u32,
        body: Closure,
        eager: bool,
        turn: Vec<u32>,
    ) -> Server
        ensures { result ≡ new_server process body eager turn.items }
    {
        Server {
            process,
            body,
            eager,
            sent: 0,
            queue: VecDeque::new(alloc),
            current: None,
            turn,
            dead: false,
        }
    }

    /// Its process.
    pub fn process(&self) -> u32
        ensures { result ≡ self.now.process }
    {
        self.process
    }

    /// What it does with a call.
    pub fn body(&self) -> &Closure
        ensures { result.now ≡ self.now.body }
    {
        &self.body
    }

    /// Whether its body begins before a call comes.
    pub fn is_eager(&self) -> bool
        ensures { result ≡ self.now.eager }
    {
        self.eager
    }

    /// How many calls were sent to it.
    pub fn sent(&self) -> u64
        ensures { result ≡ self.now.sent }
    {
        self.sent
    }

    /// How many calls wait.
    pub fn queued(&self) -> u64
        ensures { result ≡ length self.now.queue }
    {
        self.queue.len() as u64
    }

    /// The call that has waited longest.
    pub fn next(&self) -> Option<&Call>
        ensures { option_copied result ≡ slice_get self.now.queue 0 }
    {
        self.queue.front()
    }

    /// The call in progress.
    pub fn current(&self) -> Option<&Call>
        ensures { option_copied result ≡ self.now.current }
    {
        self.current.as_ref()
    }

    /// Whether a call is in progress.
    pub fn in_progress(&self) -> bool
        ensures { result ≡ is_some self.now.current }
    {
        self.current.is_some()
    }

    /// Where it is eager, the futures for the parameters of its turn.
    pub fn turn(&self) -> &[u32]
        ensures { result.now ≡ self.now.turn }
    {
        &self.turn
    }

    /// Whether no call can be sent to it any more.
    pub fn is_dead(&self) -> bool
        ensures { result ≡ self.now.dead }
    {
        self.dead
    }

    /// Whether its turn waits for a call.
    pub fn takes_at_once(&self) -> bool
        ensures { result ≡ takes_at_once self.now }
    {
        self.eager && self.current.is_none()
    }

    /// How many places `unanswered` has: one for the call in progress, if there is one, one for each call that waits,
    /// and one for each future of the turn.
    pub fn reply_places(&self) -> u64
        ensures { result ≡ length (reply_places self.now) }
    {
        u64::from(self.current.is_some()) + self.queue.len() as u64 + self.turn.len() as u64
    }

    /// The future at this place, from 0, which nobody will give a value any more once the closure is dead. An ignored
    /// call has none, and there is none past the last place.
    pub fn unanswered(&self, place: u64) -> Option<u32>
        ensures { result ≡ future_at (slice_get (reply_places self.now) place) }
    {
        match &self.current {
            None => later(&self.queue, &self.turn, place),
            Some(call) if place == 0 => call.reply,
            Some(_) => later(&self.queue, &self.turn, place - 1),
        }
    }

    /// Sends a call, and gives its number. A turn that waits takes it at once; otherwise it is put last in the queue.
    /// After an `Err` all is as it was.
    pub(crate) fn send(
        &mut self,
        arguments: Vec<Word>,
        reply: Option<u32>,
    ) -> Result<u64, CallFault>
        ensures number { IfOk result (λ n. n ≡ self.old.sent + 1) }
        ensures ok { OnOk result (self.new ≡ after_send self.old (next_call self.old arguments.items reply)) }
        ensures lives { OnOk result (self.old.dead ≡ false) }
        ensures err { OnErr result (self.new ≡ self.old) }
        ensures why { IfErr result (λ fault. Explains fault (Some self.old)) }
    {
        if self.dead {
            return Err(CallFault::Dead);
        }
        let Some(number) = self.sent.checked_add(1) else {
            return Err(CallFault::Memory(AllocError));
        };
        let call = Call {
            number,
            arguments,
            reply,
        };
        if self.takes_at_once() {
            self.current = Some(call);
        } else if let Err(fault) = self.queue.push_back(call) {
            return Err(CallFault::Memory(fault.into()));
        }
        self.sent = number;
        Ok(number)
    }

    /// Lets the oldest call that waits be in progress, and gives its number.
    pub(crate) fn take(&mut self) -> Option<u64>
        ensures number { result ≡ oldest self.old.queue }
        ensures taken { self.new ≡ after_take self.old }
    {
        let call = self.queue.pop_front()?;
        let number = call.number;
        self.current = Some(call);
        Some(number)
    }

    /// The call in progress has its reply.
    pub(crate) fn reply(&mut self)
        ensures { self.new ≡ record self.old { current = None } }
    {
        self.current = None;
    }

    /// Gives it the futures of its next turn.
    pub(crate) fn renew(&mut self, futures: Vec<u32>)
        ensures { self.new ≡ record self.old { turn = futures.items } }
    {
        self.turn = futures;
    }

    /// No call can be sent to it any more.
    pub(crate) fn bury(&mut self)
        ensures { self.new ≡ record self.old { dead = true } }
    {
        self.dead = true;
    }
}

/// The future at this place of the calls that wait and of the turn.
fn later(queue: &VecDeque<Call>, turn: &[u32], place: u64) -> Option<u32>
    ensures { result ≡ future_at (slice_get (map (λ c. c.reply) queue.now.items ++ map Some turn.now) place) }
{
    let at = place as usize;
    if at < queue.len() {
        let call = &queue[at];
        call.reply
    } else {
        turn.get(at - queue.len()).copied()
    }
}
