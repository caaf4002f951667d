//! The passes by which threads take turns.

ghost use Rattle.ql_turn.specs.Views.{IsAtRest};

use crate::kept::Kept;
use crate::view::View;
use atomic_table::Seat;

/// The right to take turns, to a turn with values of `H`. It has no bytes, and the parts of one that is dropped are
/// lost: its turn can't be closed any more.
pub type Pass<H: Kept> = PassOf<H, H::Program, H::Entry>;

/// What a pass is, by the types of what its value tells, so that it can go to a thread wherever these can.
#[derive(Drop)]
pub struct PassOf<H, P, E> {
    pub(crate) seat: Seat<Option<H>, View<P, E>>,
    ghost at_rest: { IsAtRest seat.me },
}
