//! The processes and the catches of a run.

ghost use Rattle.std.specs.Prelude.{◌≡◌, ◌+◌, ◌-◌, ◌==◌, ◌||◌, not, ◌<◌, ◌≤◌, ◌++◌, ◌∷◌, [], true, IfOk, IfErr, OnOk, OnErr, IsOk, length, nat_lt};
ghost use Rattle.std.specs.List.{list_all};
ghost use Rattle.ql_world.specs.World.{numbered, change_numbered, catch_at, closed, outermost};
ghost use Rattle.ql_world.specs.declared.world.Kind.TheVariants.{Main as main};
ghost use Rattle.ql_world.specs.Within.{all_from, is_over, tagged};
ghost use Rattle.ql_tree.specs.Tree.{new_person, new_catch, lives_within, is_done};
ghost use Rattle.ql_tree.specs.Kill.{after_kill, aimed_at, killed_numbers};
ghost use Rattle.ql_tree.specs.Spawning.{Explains};

use crate::person::Person;
use crate::room::{make_room, put, room};
use crate::{catches, persons};
use ql_world::word::Word;
use ql_world::world::{Aim, Catch, Kind};
use std::alloc::{AllocError, Global};
use std::marker::Model;
use thiserror::Error;

/// Why no process was made.
#[derive(Clone, Copy, Debug, PartialEq, Eq, Error)]
pub enum TreeFault {
    /// As many were made as may be.
    #[error("too many processes")]
    Full,
    /// There was no memory.
    #[error("out of memory")]
    Memory(AllocError),
}

/// The processes of a run, without their control, and its catches. Contracts see it as the record `Tree`.
#[derive(Drop)]
pub struct Tree {
    limit: u64,
    persons: Vec<Person>,
    /// The oldest first.
    catches: Vec<Catch>,
    /// How many processes haven't ended.
    running: u32,
}

impl Model for Tree {
    ghost use Rattle.std.specs.Prelude.{min, reverse, vec_capacity, vec_len};
    ghost use Rattle.ql_tree.specs.Tree as spec;
    ghost use Rattle.ql_tree.specs.Room.{room};
    ghost use Rattle.ql_tree.specs.Kept.{IsKept};

    ghost Value = { spec.Tree };

    ghost view = { λ t. record { limit = t.limit; persons = t.persons.items; catches = reverse t.catches.items; spare = min (room (vec_capacity t.persons) (vec_len t.persons)) (room (vec_capacity t.catches) (vec_len t.catches)) } };

    ghost invariant = { λ t. IsKept t.persons.items t.catches.items t.running };
}

impl Tree {
    /// Process 1, and catch 0, which is round the whole program. At most so many processes may be made.
    pub fn new(alloc: Global, limit: u64) -> Result<Tree, AllocError>
        requires { 1 ≤ limit }
        ensures { IfOk result (λ t. t ≡ record { limit = limit; persons = new_person 0 main ∷ []; catches = outermost ∷ []; spare = t.spare }) }
    {
        let mut persons = Vec::with_capacity(alloc, 1)?;
        let mut catches = Vec::with_capacity(alloc, 1)?;
        put(&mut persons, fresh(0, Kind::Main));
        put(
            &mut catches,
            Catch {
                owner: 1,
                tag: None,
                enclosing: 0,
                waits: true,
                open_still: true,
            },
        );
        Ok(Tree {
            limit,
            persons,
            catches,
            running: 1,
        })
    }

    /// For how many more processes there is memory, and for how many more catches.
    pub fn spare(&self) -> u64
        ensures { result ≡ self.now.spare }
    {
        room(&self.persons).min(room(&self.catches))
    }

    /// Makes room for so many more processes, and for so many more catches.
    pub fn reserve(&mut self, n: u64) -> Result<(), AllocError>
        ensures same { self.new ≡ record self.old { spare = self.new.spare } }
        ensures ok { OnOk result (n ≤ self.new.spare) }
        ensures room { n ≤ self.old.spare → IsOk result }
        ensures spare { self.old.spare ≤ self.new.spare }
    {
        make_room(&mut self.persons, n)?;
        make_room(&mut self.catches, n)
    }

    /// How many more processes may be made.
    pub fn room(&self) -> u64
        ensures { result ≡ self.now.limit - length self.now.persons }
    {
        self.limit.saturating_sub(self.persons.len() as u64)
    }

    /// How many processes were made.
    pub fn count(&self) -> u32
        ensures { result ≡ length self.now.persons }
    {
        self.persons.len() as u32
    }

    /// How many catches were made.
    pub fn catch_count(&self) -> u32
        ensures { result ≡ length self.now.catches }
    {
        self.catches.len() as u32
    }

    /// Makes a process, and gives its number.
    pub fn spawn(&mut self, home: u32, kind: Kind) -> Result<u32, TreeFault>
        ensures number { IfOk result (λ p. p ≡ length self.old.persons + 1) }
        ensures ok { OnOk result (self.new ≡ record self.old { persons = self.old.persons ++ new_person home kind ∷ []; spare = self.new.spare }) }
        ensures err { OnErr result (self.new ≡ record self.old { spare = self.new.spare }) }
        ensures why { IfErr result (λ fault. Explains fault self.old) }
        ensures full { OnOk result (length self.old.persons < self.old.limit) }
        ensures spare { self.old.spare ≤ self.new.spare + 1 }
    {
        if self.room() == 0 {
            return Err(TreeFault::Full);
        }
        if let Err(fault) = self.reserve(1) {
            return Err(TreeFault::Memory(fault));
        }
        Ok(self.add(home, kind))
    }

    /// The same where there is room.
    pub fn add(&mut self, home: u32, kind: Kind) -> u32
        requires spare { 0 < self.old.spare }
        requires room { length self.old.persons < self.old.limit }
        ensures number { result ≡ length self.old.persons + 1 }
        ensures new { self.new ≡ record self.old { persons = self.old.persons ++ new_person home kind ∷ []; spare = self.new.spare } }
        ensures spare { self.old.spare ≤ self.new.spare + 1 }
    {
        put(&mut self.persons, fresh(home, kind));
        self.running += 1;
        self.persons.len() as u32
    }

    /// Opens a catch, and gives its number.
    pub fn enter(
        &mut self,
        owner: u32,
        tag: Word,
        enclosing: u32,
        waits: bool,
    ) -> Result<u32, AllocError>
        ensures number { IfOk result (λ c. c ≡ length self.old.catches) }
        ensures ok { OnOk result (self.new ≡ record self.old { catches = new_catch owner tag enclosing waits ∷ self.old.catches; spare = self.new.spare }) }
        ensures err { OnErr result (self.new ≡ record self.old { spare = self.new.spare }) }
        ensures room { 0 < self.old.spare → IsOk result }
        ensures spare { self.old.spare ≤ self.new.spare + 1 }
    {
        self.reserve(1)?;
        Ok(self.open(owner, tag, enclosing, waits))
    }

    /// The same where there is room.
    pub fn open(&mut self, owner: u32, tag: Word, enclosing: u32, waits: bool) -> u32
        requires { 0 < self.old.spare }
        ensures number { result ≡ length self.old.catches }
        ensures new { self.new ≡ record self.old { catches = new_catch owner tag enclosing waits ∷ self.old.catches; spare = self.new.spare } }
        ensures spare { self.old.spare ≤ self.new.spare + 1 }
    {
        let c = self.catches.len() as u32;
        put(
            &mut self.catches,
            Catch {
                owner,
                tag: Some(tag),
                enclosing,
                waits,
                open_still: true,
            },
        );
        c
    }

    /// Closes catch c.
    pub fn leave(&mut self, c: u32)
        ensures { self.new ≡ record self.old { catches = closed self.old.catches c } }
    {
        catches::close(&mut self.catches, c);
    }

    /// The innermost open catch with this tag, from the given one outwards.
    pub fn find_catch(&self, from: u32, tag: Word) -> Option<u32>
        ensures { result ≡ tagged (λ c. true) self.now.catches tag from }
    {
        catches::find(&self.catches, from, tag, None)
    }

    /// The same of those with numbers above the floor.
    pub fn find_inner(&self, from: u32, tag: Word, floor: u32) -> Option<u32>
        ensures { result ≡ tagged (nat_lt floor) self.now.catches tag from }
    {
        catches::find(&self.catches, from, tag, Some(floor))
    }

    /// Whether catch c is catch d, or one that is around it.
    pub fn is_over(&self, c: u32, d: u32) -> bool
        ensures { result ≡ is_over self.now.catches c d }
    {
        catches::is_over(&self.catches, c, d)
    }

    /// Whether process q is live and within catch c.
    pub fn live_within(&self, c: u32, q: u32) -> bool
        ensures { result ≡ lives_within self.now.catches c (numbered self.now.persons q) }
    {
        persons::lives_within(&self.persons, &self.catches, c, q)
    }

    /// The process with this number.
    pub fn person(&self, q: u32) -> Option<Person>
        ensures { result ≡ numbered self.now.persons q }
    {
        persons::person_at(&self.persons, q)
    }

    /// The catch with this number.
    pub fn catch_at(&self, c: u32) -> Option<Catch>
        ensures { result ≡ catch_at self.now.catches c }
    {
        catches::catch_at(&self.catches, c)
    }

    /// Sets what process q is leaving for.
    pub fn aim_at(&mut self, q: u32, aim: Aim)
        ensures { self.new ≡ record self.old { persons = change_numbered (λ r. record r { aim = aim }) self.old.persons q } }
    {
        persons::aim_at(&mut self.persons, q, aim);
    }

    /// Lets process q end.
    pub fn set_ended(&mut self, q: u32)
        ensures { self.new ≡ record self.old { persons = change_numbered (λ r. record r { ended = true }) self.old.persons q } }
    {
        if persons::end(&mut self.persons, q) {
            self.running -= 1;
        }
    }

    /// Whether all processes have ended.
    pub fn all_ended(&self) -> bool
        ensures { result ≡ list_all (λ r. r.ended) self.now.persons }
    {
        self.running == 0
    }

    /// Whether each process within catch c has ended but process p.
    pub fn ended_only(&self, p: u32, c: u32) -> bool
        ensures { result ≡ all_from (λ i r. i == p || (not (is_over self.now.catches c r.home) || r.ended)) 1 self.now.persons }
    {
        persons::ended_only(&self.persons, &self.catches, p, c)
    }

    /// Kills each live process within catch c but the owner, and appends their numbers, rising. After an `Err` all is
    /// as it was.
    pub fn kill_within(
        &mut self,
        c: u32,
        owner: u32,
        killed: &mut Vec<u32>,
    ) -> Result<(), AllocError>
        ensures ok { OnOk result (self.new ≡ record self.old { persons = after_kill self.old.catches c owner self.old.persons }) }
        ensures killed { OnOk result (killed.new.items ≡ killed.old.items ++ killed_numbers self.old.catches c owner self.old.persons) }
        ensures err { OnErr result (self.new ≡ self.old) }
        ensures none { OnErr result (killed.new.items ≡ killed.old.items) }
    {
        persons::kill(&mut self.persons, &self.catches, c, owner, killed)
    }
}

/// A new process.
fn fresh(home: u32, kind: Kind) -> Person
    ensures { result ≡ new_person home kind }
{
    Person {
        home,
        kind,
        aim: Aim::Free,
        ended: false,
    }
}
