//! The process closures of a run.

ghost use Rattle.std.specs.Prelude.{◌≡◌, ◌+◌, ◌<◌, ◌≤◌, ◌++◌, ◌∷◌, [], true, false, None, Some, is_some, IfOk, IfErr, OnOk, OnErr, IsOk, length, option_copied};
ghost use Rattle.ql_world.specs.World.{ProcessClosure, numbered, change_numbered};
ghost use Rattle.ql_world.specs.declared.world.Closure.{Closure};
ghost use Rattle.ql_calls.specs.Calls.{new_server};
ghost use Rattle.ql_calls.specs.Sending.{Explains, after_send, is_dead_at, next_call};
ghost use Rattle.ql_calls.specs.Taking.{after_take, oldest_at};

use crate::room::{make_room, put, room};
use crate::server::{CallFault, Server};
use ql_world::word::Word;
use ql_world::world::Closure;
use std::alloc::{AllocError, Global};
use std::marker::Model;

/// The process closures of a run, numbered from 1 in the order in which they were made. Contracts see them as the
/// record `Calls`.
#[derive(Drop)]
pub struct Calls {
    alloc: Global,
    servers: Vec<Server>,
}

impl Model for Calls {
    ghost use Rattle.std.specs.Prelude.{◌<◌, ◌^◌, length, vec_capacity, vec_len};
    ghost use Rattle.ql_calls.specs.Calls as spec;
    ghost use Rattle.ql_calls.specs.Room.{room};

    ghost Value = { spec.Calls };

    ghost view = { λ c. record { servers = c.servers.items; spare = room (vec_capacity c.servers) (vec_len c.servers) } };

    ghost invariant = { λ c. length c.servers.items < 2 ^ 32 };
}

impl Calls {
    /// No process closures.
    pub fn new(alloc: Global) -> Calls
        ensures { result.servers ≡ [] }
    {
        Calls {
            alloc,
            servers: Vec::new(alloc),
        }
    }

    /// For how many more process closures there is room.
    pub fn spare(&self) -> u64
        ensures { result ≡ self.now.spare }
    {
        room(&self.servers)
    }

    /// Makes room for so many more process closures.
    pub fn reserve(&mut self, n: u64) -> Result<(), AllocError>
        ensures same { self.new ≡ record self.old { spare = self.new.spare } }
        ensures ok { OnOk result (n ≤ self.new.spare) }
        ensures room { n ≤ self.old.spare → IsOk result }
        ensures spare { self.old.spare ≤ self.new.spare }
    {
        make_room(&mut self.servers, n)
    }

    /// How many process closures were made.
    pub fn count(&self) -> u32
        ensures { result ≡ length self.now.servers }
    {
        self.servers.len() as u32
    }

    /// Makes a process closure, and gives its number.
    pub fn make(
        &mut self,
        process: u32,
        body: Closure,
        eager: bool,
        futures: Vec<u32>,
    ) -> Result<u32, AllocError>
        ensures number { IfOk result (λ k. k ≡ length self.old.servers + 1) }
        ensures ok { OnOk result (self.new ≡ record self.old { servers = self.old.servers ++ new_server process body eager futures.items ∷ []; spare = self.new.spare }) }
        ensures err { OnErr result (self.new ≡ record self.old { spare = self.new.spare }) }
        ensures room { 0 < self.old.spare → IsOk result }
        ensures spare { self.old.spare ≤ self.new.spare + 1 }
    {
        self.reserve(1)?;
        Ok(self.add(process, body, eager, futures))
    }

    /// The same where there is room.
    pub fn add(&mut self, process: u32, body: Closure, eager: bool, futures: Vec<u32>) -> u32
        requires { 0 < self.old.spare }
        ensures number { result ≡ length self.old.servers + 1 }
        ensures new { self.new ≡ record self.old { servers = self.old.servers ++ new_server process body eager futures.items ∷ []; spare = self.new.spare } }
        ensures spare { self.old.spare ≤ self.new.spare + 1 }
    {
        put(
            &mut self.servers,
            Server::new(self.alloc, process, body, eager, futures),
        );
        self.servers.len() as u32
    }

    /// The process closure with this number.
    pub fn server(&self, k: u32) -> Option<&Server>
        ensures { option_copied result ≡ numbered self.now.servers k }
    {
        if k == 0 {
            return None;
        }
        self.servers.get(k as usize - 1)
    }

    /// Sends a call to process closure k, and gives its number. A turn that waits takes it at once; otherwise it is put
    /// last in the queue. After an `Err` all is as it was.
    pub fn send(
        &mut self,
        k: u32,
        arguments: Vec<Word>,
        reply: Option<u32>,
    ) -> Result<u64, CallFault>
        ensures number { (s : ProcessClosure Closure) → numbered self.old.servers k ≡ Some s → IfOk result (λ n. n ≡ s.sent + 1) }
        ensures ok { (s : ProcessClosure Closure) → numbered self.old.servers k ≡ Some s
            → OnOk result (self.new ≡ record self.old { servers = change_numbered (λ t. after_send s (next_call s arguments.items reply)) self.old.servers k }) }
        ensures lives { OnOk result (is_dead_at (numbered self.old.servers k) ≡ false) }
        ensures err { OnErr result (self.new ≡ self.old) }
        ensures why { IfErr result (λ fault. Explains fault (numbered self.old.servers k)) }
    {
        send_at(&mut self.servers, k, arguments, reply)
    }

    /// Lets the oldest call that waits for process closure k be in progress, and gives its number. There is none where
    /// none waits.
    pub fn take(&mut self, k: u32) -> Option<u64>
        ensures number { result ≡ oldest_at (numbered self.old.servers k) }
        ensures taken { self.new ≡ record self.old { servers = change_numbered after_take self.old.servers k } }
    {
        take_at(&mut self.servers, k)
    }

    /// The call of process closure k that is in progress has its reply.
    pub fn reply(&mut self, k: u32)
        ensures { self.new ≡ record self.old { servers = change_numbered (λ s. record s { current = None }) self.old.servers k } }
    {
        reply_at(&mut self.servers, k);
    }

    /// Gives process closure k the futures of its next turn.
    pub fn renew(&mut self, k: u32, futures: Vec<u32>)
        ensures { self.new ≡ record self.old { servers = change_numbered (λ s. record s { turn = futures.items }) self.old.servers k } }
    {
        renew_at(&mut self.servers, k, futures);
    }

    /// No call can be sent to process closure k any more.
    pub fn bury(&mut self, k: u32)
        ensures { self.new ≡ record self.old { servers = change_numbered (λ s. record s { dead = true }) self.old.servers k } }
    {
        bury_at(&mut self.servers, k);
    }
}

/// Whether process closure k was made.
fn is_made(servers: &[Server], k: u32) -> bool
    ensures { result ≡ is_some (numbered servers.now k) }
{
    k > 0 && k as usize <= servers.len()
}

/// Sends a call to process closure k.
fn send_at(
    servers: &mut [Server],
    k: u32,
    arguments: Vec<Word>,
    reply: Option<u32>,
) -> Result<u64, CallFault>
    ensures number { (s : ProcessClosure Closure) → numbered servers.old k ≡ Some s → IfOk result (λ n. n ≡ s.sent + 1) }
    ensures ok { (s : ProcessClosure Closure) → numbered servers.old k ≡ Some s
        → OnOk result (servers.new ≡ change_numbered (λ t. after_send s (next_call s arguments.items reply)) servers.old k) }
    ensures lives { OnOk result (is_dead_at (numbered servers.old k) ≡ false) }
    ensures err { OnErr result (servers.new ≡ servers.old) }
    ensures why { IfErr result (λ fault. Explains fault (numbered servers.old k)) }
{
    if !is_made(servers, k) {
        return Err(CallFault::Dead);
    }
    let server = &mut servers[k as usize - 1];
    server.send(arguments, reply)
}

/// Lets the oldest call of process closure k be in progress.
fn take_at(servers: &mut [Server], k: u32) -> Option<u64>
    ensures number { result ≡ oldest_at (numbered servers.old k) }
    ensures taken { servers.new ≡ change_numbered after_take servers.old k }
{
    if !is_made(servers, k) {
        return None;
    }
    let server = &mut servers[k as usize - 1];
    server.take()
}

/// The call in progress of process closure k has its reply.
fn reply_at(servers: &mut [Server], k: u32)
    ensures { servers.new ≡ change_numbered (λ s. record s { current = None }) servers.old k }
{
    if is_made(servers, k) {
        let server = &mut servers[k as usize - 1];
        server.reply();
    }
}

/// Gives process closure k the futures of its next turn.
fn renew_at(servers: &mut [Server], k: u32, futures: Vec<u32>)
    ensures { servers.new ≡ change_numbered (λ s. record s { turn = futures.items }) servers.old k }
{
    if is_made(servers, k) {
        let server = &mut servers[k as usize - 1];
        server.renew(futures);
    }
}

/// No call can be sent to process closure k any more.
fn bury_at(servers: &mut [Server], k: u32)
    ensures { servers.new ≡ change_numbered (λ s. record s { dead = true }) servers.old k }
{
    if is_made(servers, k) {
        let server = &mut servers[k as usize - 1];
        server.bury();
    }
}
