//! Futures by number, from 1.

ghost use Rattle.std.specs.Prelude.{◌≡◌, ◌+◌, ◌<◌, ◌≤◌, ◌++◌, ◌∷◌, [], IfOk, IsOk, OnOk, OnErr, length, replicate, vec_capacity, vec_len};
ghost use Rattle.ql_world.specs.declared.world.FutState.TheVariants.{Pending as pending, Value as valued};
ghost use Rattle.ql_world.specs.World.{or_pending, numbered, change_numbered};
ghost use Rattle.ql_world.specs.Tick.{filled};
ghost use Rattle.ql_world.specs.Idle.{killed, all_killed};
ghost use Rattle.ql_future.specs.Futures.{most_futures, spare_of};

use ql_world::word::Word;
use ql_world::world::FutState;
use std::alloc::{AllocError, Global};
use std::marker::Model;

// How many futures there can be.
const MOST_FUTURES: usize = 4_294_967_295;

/// The futures of a run. Contracts see the list of their states, and for how many more there is room.
#[derive(Drop)]
pub struct Futures {
    states: Vec<FutState>,
}

impl Model for Futures {
    ghost use Rattle.std.specs.Prelude.{◌≤◌, vec_capacity, vec_len};
    ghost use Rattle.ql_future.specs.Futures as seen;

    ghost Value = { seen.Futures };

    ghost view = { λ f. record { states = f.states.items; spare = seen.spare_of (vec_capacity f.states) (vec_len f.states) } };

    ghost invariant = { λ f. vec_len f.states ≤ seen.most_futures };
}

impl Futures {
    /// No futures yet.
    pub fn new(alloc: Global) -> Futures
        ensures { result ≡ record { states = []; spare = 0 } }
    {
        Futures {
            states: Vec::new(alloc),
        }
    }

    /// Makes room for so many more. There can be 4,294,967,295 futures: beyond that there is no memory.
    pub fn reserve(&mut self, n: u64) -> Result<(), AllocError>
        ensures same { self.new.states ≡ self.old.states }
        ensures ok { OnOk result (n ≤ self.new.spare) }
        ensures room { n ≤ self.old.spare → IsOk result }
        ensures spare { self.old.spare ≤ self.new.spare }
    {
        if n > (MOST_FUTURES - self.states.len()) as u64 {
            return Err(AllocError);
        }
        self.states.reserve(n as usize)
    }

    /// For how many more there is room.
    pub fn spare(&self) -> u64
        ensures { result ≡ self.now.spare }
    {
        spare_of(&self.states)
    }

    /// How many there are.
    pub fn count(&self) -> u32
        ensures { result ≡ length self.now.states }
    {
        count(&self.states)
    }

    /// Makes a pending future, and gives its number. An `Err` changes nothing but the room.
    pub fn make(&mut self) -> Result<u32, AllocError>
        ensures number { IfOk result (λ f. f ≡ length self.old.states + 1) }
        ensures made { OnOk result (self.new.states ≡ self.old.states ++ pending ∷ []) }
        ensures err { OnErr result (self.new.states ≡ self.old.states) }
        ensures room { 0 < self.old.spare → IsOk result }
        ensures spare { self.old.spare ≤ self.new.spare + 1 }
    {
        if self.spare() == 0 {
            self.reserve(1)?;
        }
        Ok(self.add())
    }

    /// Makes a pending future where there is room, and gives its number.
    pub fn add(&mut self) -> u32
        requires { 0 < self.old.spare }
        ensures number { result ≡ length self.old.states + 1 }
        ensures made { self.new.states ≡ self.old.states ++ pending ∷ [] }
        ensures spare { self.old.spare ≤ self.new.spare + 1 }
    {
        self.add_all(1);
        self.count()
    }

    /// Makes so many pending futures where there is room.
    pub fn add_all(&mut self, n: u64)
        requires { n ≤ self.old.spare }
        ensures made { self.new.states ≡ self.old.states ++ replicate n pending }
        ensures spare { self.old.spare ≤ self.new.spare + n }
    {
        add_pending(&mut self.states, n as usize);
    }

    /// The state of a future. One that was never made counts as pending.
    pub fn state(&self, f: u32) -> FutState
        ensures { result ≡ or_pending (numbered self.now.states f) }
    {
        state_in(&self.states, f)
    }

    /// Gives a future its value, whatever its state was.
    pub fn resolve(&mut self, f: u32, w: Word)
        ensures { self.new ≡ record self.old { states = change_numbered (λ s. valued w) self.old.states f } }
    {
        put_state(&mut self.states, f, FutState::Value(w));
    }

    /// Gives these futures these values, in order. What is left over of either is ignored.
    pub fn fill(&mut self, fs: &[u32], ws: &[Word])
        ensures { self.new ≡ record self.old { states = filled fs.now ws.now self.old.states } }
    {
        let mut at = 0;
        'fills: while at < fs.len() && at < ws.len() {
            self.resolve(fs[at], ws[at]);
            at += 1;
        }
    }

    /// Kills a future: a pending one is dead from then on, and any other stays as it is.
    pub fn kill(&mut self, f: u32)
        ensures { self.new ≡ record self.old { states = change_numbered killed self.old.states f } }
    {
        if let FutState::Pending = self.state(f) {
            put_state(&mut self.states, f, FutState::Dead);
        }
    }

    /// Kills these futures.
    pub fn kill_all(&mut self, fs: &[u32])
        ensures { self.new ≡ record self.old { states = all_killed fs.now self.old.states } }
    {
        for f in fs {
            self.kill(*f);
        }
    }
}

// For how many more there is room.
fn spare_of(states: &Vec<FutState>) -> u64
    ensures { result ≡ spare_of (vec_capacity states.now) (vec_len states.now) }
{
    states
        .capacity()
        .min(MOST_FUTURES)
        .saturating_sub(states.len()) as u64
}

// How many there are.
fn count(states: &[FutState]) -> u32
    requires { length states.now ≤ most_futures }
    ensures { result ≡ length states.now }
{
    states.len() as u32
}

// Adds so many pending ones, in memory that is there already.
fn add_pending(states: &mut Vec<FutState>, n: usize)
    requires { n ≤ spare_of (vec_capacity states.old) (vec_len states.old) }
    ensures items { states.new.items ≡ states.old.items ++ replicate n pending }
    ensures len { vec_len states.new ≡ vec_len states.old + n }
    ensures capacity { vec_capacity states.old ≤ vec_capacity states.new }
{
    let length = states.len() + n;
    match states.resize(length, FutState::Pending) {
        Ok(()) => {}
        Err(_) => unreachable!(),
    }
}

// The state of a future.
fn state_in(states: &[FutState], f: u32) -> FutState
    ensures { result ≡ or_pending (numbered states.now f) }
{
    if f == 0 {
        return FutState::Pending;
    }
    match states.get(f as usize - 1) {
        Some(state) => *state,
        None => FutState::Pending,
    }
}

// Puts a state in place of another.
fn put_state(states: &mut Vec<FutState>, f: u32, state: FutState)
    ensures items { states.new.items ≡ change_numbered (λ s. state) states.old.items f }
    ensures len { vec_len states.new ≡ vec_len states.old }
    ensures capacity { vec_capacity states.new ≡ vec_capacity states.old }
{
    if f == 0 {
        return;
    }
    let at = f as usize - 1;
    if at < states.len() {
        states[at] = state;
    }
}
