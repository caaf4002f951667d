//! The turn: a lock with one value in it, and the calls by which threads take turns.

ghost use Rattle.std.specs.Prelude.{◌≡◌, [], ◌∷◌, Some, IfOk, IfErr};
ghost use Rattle.ql_turn.specs.Seats.{IsBoard};

use crate::kept::Kept;
use crate::pass::{Pass, PassOf};
use crate::plays::Cut;
use crate::steps;
use crate::view::{TurnRule, View};
use atomic_table::{Refused, Table};
use std::alloc::{AllocError, AllocFailed, Global};
use std::snapshot::Snapshot;
use std::sync::Wait;

/// A lock with one value in it. A thread that takes the turn gets the value, and nobody else can take the turn until it
/// gives the value back.
#[derive(Drop)]
pub struct Turn<H: Kept> {
    table: Table<Option<H>, View<H::Program, H::Entry>, Snapshot<H>, TurnRule<H>, Global>,
    ghost board: { IsBoard table.shared.table_id },
}

impl<H: Kept> Turn<H> {
    ghost use Rattle.std.specs.Prelude.{◌+◌, ◌<◌, IsTrue, IsFalse};
    ghost use mathlib.Core.List.{IsPrefix};
    ghost use Rattle.ql_turn.specs.Passes.{IsPassOf, program_of, journal_seen, has_turn, part_count};

    /// A turn with its first value. The pass has all 65,536 parts. Without memory the value comes back.
    pub fn start(alloc: Global, first: H) -> Result<(Turn<H>, Pass<H>), (AllocError, H)>
        ensures pass { IfOk result (λ t. IsPassOf t.0 t.1 × IsFalse (has_turn t.1)) }
        ensures program { IfOk result (λ t. program_of t.1 ≡ Some (H.program first)) }
        ensures journal { IfOk result (λ t. journal_seen t.1 ≡ H.journal first) }
        ensures parts { IfOk result (λ t. part_count t.1 ≡ 65536) }
        ensures refused { IfErr result (λ e. e.1 ≡ first) }
    {
        let opened_with = Snapshot::of(&first);
        let slots = match one_slot(alloc, first) {
            Ok(slots) => slots,
            Err(refused) => return Err(refused),
        };
        match Table::new(alloc, &[0], slots, &opened_with) {
            Ok((table, seat)) => Ok((Turn { table }, PassOf { seat })),
            Err(Refused { slots }) => Err((AllocError, only_value(slots))),
        }
    }

    /// Splits a pass: one part goes to a new pass, which has seen as much.
    pub fn seat(&self, from: &mut Pass<H>) -> Pass<H>
        requires pass { IsPassOf self.now from.old × IsFalse (has_turn from.old) }
        requires parts { 1 < part_count from.old }
        ensures pass { IsPassOf self.now from.new × IsFalse (has_turn from.new) }
        ensures new { IsPassOf self.now result × IsFalse (has_turn result) }
        ensures program { (program_of from.new ≡ program_of from.old) × (program_of result ≡ program_of from.old) }
        ensures journal { (journal_seen from.new ≡ journal_seen from.old) × (journal_seen result ≡ journal_seen from.old) }
        ensures parts { (part_count from.new + 1 ≡ part_count from.old) × (part_count result ≡ 1) }
    {
        let seat = self.table.shared.split_seat::<Cut<H>>(&mut from.seat);
        PassOf { seat }
    }

    /// Waits for the turn. The value is of the same program, and its journal begins with the one that the pass had seen.
    pub fn take<R: Wait>(&self, rt: &R, pass: &mut Pass<H>) -> H
        requires pass { IsPassOf self.now pass.old × IsFalse (has_turn pass.old) }
        ensures pass { IsPassOf self.now pass.new × IsTrue (has_turn pass.new) }
        ensures program { (program_of pass.old ≡ Some (H.program result)) × (program_of pass.new ≡ program_of pass.old) }
        ensures journal { IsPrefix (journal_seen pass.old) (H.journal result) × (journal_seen pass.new ≡ H.journal result) }
        ensures parts { part_count pass.new ≡ part_count pass.old }
    {
        steps::take(rt, &self.table.shared, &mut pass.seat)
    }

    /// Gives the turn back, with a value of the same program whose journal begins with that of the value taken.
    pub fn give(&self, pass: &mut Pass<H>, value: H)
        requires pass { IsPassOf self.now pass.old × IsTrue (has_turn pass.old) }
        requires program { program_of pass.old ≡ Some (H.program value) }
        requires journal { IsPrefix (journal_seen pass.old) (H.journal value) }
        ensures pass { IsPassOf self.now pass.new × IsFalse (has_turn pass.new) }
        ensures program { program_of pass.new ≡ program_of pass.old }
        ensures journal { journal_seen pass.new ≡ H.journal value }
        ensures parts { part_count pass.new ≡ part_count pass.old }
    {
        steps::give(&self.table.shared, &mut pass.seat, value);
    }

    /// Adds the parts of another pass. The journal seen then begins with those that the two had seen.
    pub fn rejoin(&self, into: &mut Pass<H>, other: Pass<H>)
        requires into { IsPassOf self.now into.old × IsFalse (has_turn into.old) }
        requires other { IsPassOf self.now other × IsFalse (has_turn other) }
        ensures pass { IsPassOf self.now into.new × IsFalse (has_turn into.new) }
        ensures program { program_of into.new ≡ program_of into.old }
        ensures journal { IsPrefix (journal_seen into.old) (journal_seen into.new) × IsPrefix (journal_seen other) (journal_seen into.new) }
        ensures parts { part_count into.new ≡ part_count into.old + part_count other }
    {
        let PassOf { seat } = other;
        steps::join(&self.table.shared, &mut into.seat, seat);
    }

    /// Ends the turn and takes the value out, once every other pass was rejoined.
    pub fn close(self, pass: Pass<H>) -> H
        requires pass { IsPassOf self pass × IsFalse (has_turn pass) }
        requires parts { part_count pass ≡ 65536 }
        ensures program { program_of pass ≡ Some (H.program result) }
        ensures journal { IsPrefix (journal_seen pass) (H.journal result) }
    {
        let Turn { table } = self;
        let PassOf { seat } = pass;
        let mut closed = table.close_with(seat);
        let slot = closed.take(0);
        closed.free();
        match slot {
            Some(value) => value,
            None => unreachable!(),
        }
    }
}

/// The one slot of a turn, with its value.
fn one_slot<H>(alloc: Global, first: H) -> Result<Vec<Option<H>>, (AllocError, H)>
    ensures ok { IfOk result (λ slots. slots.items ≡ Some first ∷ []) }
    ensures refused { IfErr result (λ e. e.1 ≡ first) }
{
    let mut slots = Vec::new(alloc);
    match slots.push(Some(first)) {
        Ok(()) => Ok(slots),
        Err(AllocFailed { value }) => {
            slots.destroy_empty();
            match value {
                Some(first) => Err((AllocError, first)),
                None => unreachable!(),
            }
        }
    }
}

/// The value out of the one slot.
fn only_value<H>(mut slots: Vec<Option<H>>) -> H
    requires { (value : _) × (slots.items ≡ Some value ∷ []) }
    ensures { slots.items ≡ Some result ∷ [] }
{
    let last = slots.pop();
    slots.destroy_empty();
    match last {
        Some(Some(value)) => value,
        _ => unreachable!(),
    }
}
