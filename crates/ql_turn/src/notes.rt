//! An example of a kept value: a list of numbers in memory, to which threads append in turns.

ghost use Rattle.std.specs.Prelude.{◌≡◌, [], ◌∷◌, ◌++◌, IsFalse, All, Contains, IfOk, OnOk, OnErr};
ghost use mathlib.Core.List.{IsPrefix};
ghost use Rattle.ql_turn.specs.Appending.{HasAppended};
ghost use Rattle.ql_turn.specs.Passes.{IsPassOf, program_of, journal_seen, has_turn, part_count};

use crate::kept::Kept;
use crate::pass::Pass;
use crate::turn::Turn;
use std::alloc::{AllocError, Global};
use std::sync::Wait;
use std::thread;
use std::thread::Threads;

/// A number that stands for a program, and a list of numbers that stands for a journal.
#[derive(Drop)]
pub struct Notes {
    pub program: u64,
    pub numbers: Vec<u64>,
}

impl Kept for Notes {
    type Program = u64;

    type Entry = u64;

    ghost program = { λ notes. notes.program };

    ghost journal = { λ notes. notes.numbers.items };
}

impl Notes {
    /// Notes of this program, with no number.
    pub fn new(alloc: Global, program: u64) -> Notes
        ensures { (result.program ≡ program) × (result.numbers.items ≡ []) }
    {
        Notes {
            program,
            numbers: Vec::new(alloc),
        }
    }

    /// Appends a number. An `Err` leaves the notes as they were.
    pub fn append(&mut self, number: u64) -> Result<(), AllocError>
        ensures program { self.new.program ≡ self.old.program }
        ensures ok { OnOk result (self.new.numbers.items ≡ self.old.numbers.items ++ number ∷ []) }
        ensures err { OnErr result (self.new.numbers.items ≡ self.old.numbers.items) }
    {
        self.numbers.push(number)?;
        Ok(())
    }
}

/// Takes one turn, and appends a number in it.
fn append_in_turn<R: Wait>(
    rt: &R,
    turn: &Turn<Notes>,
    pass: &mut Pass<Notes>,
    number: u64,
) -> Result<(), AllocError>
    requires { IsPassOf turn.now pass.old × IsFalse (has_turn pass.old) }
    ensures pass { IsPassOf turn.now pass.new × IsFalse (has_turn pass.new) }
    ensures parts { part_count pass.new ≡ part_count pass.old }
    ensures program { program_of pass.new ≡ program_of pass.old }
    ensures journal { IsPrefix (journal_seen pass.old) (journal_seen pass.new) }
    ensures ok { OnOk result (Contains (journal_seen pass.new) number) }
{
    let mut notes = turn.take(rt, pass);
    let appended = notes.append(number);
    turn.give(pass, notes);
    appended
}

/// Appends each number in a turn of its own, until memory is refused. Then the pass is lost.
pub fn append_all<R: Wait>(
    rt: &R,
    turn: &Turn<Notes>,
    mut pass: Pass<Notes>,
    numbers: &[u64],
) -> Result<Pass<Notes>, AllocError>
    requires { IsPassOf turn.now pass × IsFalse (has_turn pass) }
    ensures { IfOk result (HasAppended turn.now pass numbers.now) }
{
    for number in numbers {
        append_in_turn(rt, turn, &mut pass, *number)?;
    }
    Ok(pass)
}

/// Two threads append, one the low and one the high numbers. Where these meet is for the threads to settle.
pub fn append_by_two<R: Threads + Wait + Sync>(
    rt: &R,
    alloc: Global,
    notes: Notes,
    low: &[u64],
    high: &[u64],
) -> Result<Notes, AllocError>
    ensures program { IfOk result (λ left. left.program ≡ notes.program) }
    ensures journal { IfOk result (λ left. IsPrefix notes.numbers.items left.numbers.items) }
    ensures low { IfOk result (λ left. All (Contains left.numbers.items) low.now) }
    ensures high { IfOk result (λ left. All (Contains left.numbers.items) high.now) }
{
    let (turn, mut first) = match Turn::start(alloc, notes) {
        Ok(both) => both,
        Err((refused, _)) => return Err(refused),
    };
    let second = turn.seat(&mut first);
    let shared = &turn;
    let (first, second) = thread::join(
        rt,
        || -> Result<Pass<Notes>, AllocError>
            requires { IsPassOf shared.now first × IsFalse (has_turn first) }
            ensures { IfOk result (HasAppended shared.entry.now first low.entry.now) }
        { append_all(rt, shared, first, low) },
        || -> Result<Pass<Notes>, AllocError>
            requires { IsPassOf shared.now second × IsFalse (has_turn second) }
            ensures { IfOk result (HasAppended shared.entry.now second high.entry.now) }
        { append_all(rt, shared, second, high) },
    );
    let mut first = first?;
    let second = second?;
    turn.rejoin(&mut first, second);
    Ok(turn.close(first))
}
