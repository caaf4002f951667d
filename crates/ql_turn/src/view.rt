//! What each pass knows of its turn, and the rule that holds between any two steps.

use crate::kept::Kept;
use atomic_table::TableRule;
use sqlite_items::Items;
use std::marker::PhantomData;
use std::snapshot::Snapshot;

/// What a pass knows: the program, the journal that it has seen, and its number of parts. No value of it is made.
pub enum View<P, E> {
    /// Its parts went to another pass.
    Spent,
    /// It doesn't hold the turn.
    Idle(P, Items<E>, u64),
    /// It was just joined with another, and has seen the journals of both.
    Joined(P, Items<E>, Items<E>, u64),
    /// It holds the turn, and has seen the journal of the value that it took.
    Holding(P, Items<E>, u64),
}

/// The rule of a turn. Its key is the value that the turn was started with, so the first view can name the program and
/// the journal of that.
pub struct TurnRule<H> {
    value: PhantomData<H>,
}

impl<H: Kept> TableRule<Option<H>, View<H::Program, H::Entry>, Snapshot<H>> for TurnRule<H> {
    ghost use Rattle.ql_turn.specs.Rule.{IsRuled};
    ghost use Rattle.ql_turn.specs.declared.view.View.TheVariants.{Idle};

    ghost holds = { λ _. IsRuled H.program H.journal };

    ghost first = { λ key. Idle (H.program key.value) (H.journal key.value) 65536 };
}
