//! The steps of a turn, on its board and a seat.
//!
//! The word is 0 where the turn is free and 1 where it is held. The value lies in the slot while the turn is free; the
//! seat that holds the turn has the slot, emptied.

ghost use Rattle.std.specs.Prelude.{◌≡◌, [], ◌∷◌, Some, MatchOption};
ghost use Rattle.ql_turn.specs.Seats.{IsBoard, IsIdle, HasTaken, MayGive, HasGiven, HasJoined};

use crate::kept::Kept;
use crate::plays::{Gather, Give, Look, Take};
use crate::view::{TurnRule, View};
use atomic_table::{Seat, Shared};
use std::snapshot::Snapshot;
use std::sync::Wait;
use std::thread;

/// The word and the slot of a turn, as threads see them.
pub type Board<H: Kept> = Shared<Option<H>, View<H::Program, H::Entry>, Snapshot<H>, TurnRule<H>>;

/// What a pass steps with.
pub type Place<H: Kept> = Seat<Option<H>, View<H::Program, H::Entry>>;

/// Takes the turn where it is free.
fn try_take<H: Kept>(board: &Board<H>, seat: &mut Place<H>) -> Option<H>
    requires board { IsBoard board.now.table_id × (seat.old.table_id ≡ board.now.table_id) }
    requires idle { IsIdle seat.old.me }
    ensures same { seat.new.table_id ≡ seat.old.table_id }
    ensures taken { MatchOption result (seat.new.me ≡ seat.old.me) (λ h. HasTaken H.program H.journal h seat.old.me seat.new.me) }
{
    if board.compare_exchange::<Take<H>>(seat, 0, 0, 1) != 0 {
        return None;
    }
    match board.exchange(seat, 0, None) {
        Some(value) => Some(value),
        None => unreachable!(),
    }
}

/// Tries until the turn is taken.
pub fn take<H: Kept, R: Wait>(rt: &R, board: &Board<H>, seat: &mut Place<H>) -> H
    requires board { IsBoard board.now.table_id × (seat.old.table_id ≡ board.now.table_id) }
    requires idle { IsIdle seat.old.me }
    ensures same { seat.new.table_id ≡ seat.old.table_id }
    ensures taken { HasTaken H.program H.journal result seat.old.me seat.new.me }
{
    for _ in rt.forever() {
        match try_take(board, seat) {
            Some(value) => return value,
            None => thread::yield_now(),
        }
    }
    unreachable!()
}

/// Lays the value into the slot.
fn put<H: Kept>(board: &Board<H>, seat: &mut Place<H>, value: H)
    requires board { IsBoard board.now.table_id × (seat.old.table_id ≡ board.now.table_id) }
    requires may { MayGive H.program H.journal value seat.old.me }
    ensures same { seat.new.table_id ≡ seat.old.table_id }
    ensures put { seat.new.me ≡ (seat.old.me.0, (0, Some value) ∷ []) }
{
    match board.exchange(seat, 0, Some(value)) {
        None => {}
        Some(_) => unreachable!(),
    }
}

/// Lays the value into the slot and makes the turn free.
pub fn give<H: Kept>(board: &Board<H>, seat: &mut Place<H>, value: H)
    requires board { IsBoard board.now.table_id × (seat.old.table_id ≡ board.now.table_id) }
    requires may { MayGive H.program H.journal value seat.old.me }
    ensures same { seat.new.table_id ≡ seat.old.table_id }
    ensures given { HasGiven H.program H.journal value seat.old.me seat.new.me }
{
    put(board, seat, value);
    board.store::<Give<H>>(seat, 0, 0);
}

/// Takes in the parts of another seat, and looks at the word to see one journal that begins with what both had seen.
pub fn join<H: Kept>(board: &Board<H>, seat: &mut Place<H>, other: Place<H>)
    requires board { IsBoard board.now.table_id × (seat.old.table_id ≡ board.now.table_id) × (other.table_id ≡ board.now.table_id) }
    requires idle { IsIdle seat.old.me × IsIdle other.me }
    ensures same { seat.new.table_id ≡ seat.old.table_id }
    ensures joined { HasJoined seat.old.me other.me seat.new.me }
{
    board.join_seat::<Gather<H>>(seat, other);
    board.load::<Look<H>>(seat, 0);
}
