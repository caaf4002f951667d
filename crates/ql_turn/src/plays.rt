//! What each kind of step tells its pass.

use crate::kept::Kept;
use crate::view::View;
use atomic_table::{Join, Play, Split};
use std::marker::PhantomData;

/// The turn is taken where it is free.
pub struct Take<H> {
    value: PhantomData<H>,
}

impl<H: Kept> Play<Option<H>, View<H::Program, H::Entry>> for Take<H> {
    ghost use Rattle.ql_turn.specs.Told.{took};

    ghost then = { took H.program H.journal };
}

/// The turn is given back.
pub struct Give<H> {
    value: PhantomData<H>,
}

impl<H: Kept> Play<Option<H>, View<H::Program, H::Entry>> for Give<H> {
    ghost use Rattle.ql_turn.specs.Told.{gave};

    ghost then = { gave H.program H.journal };
}

/// A pass that was just joined sees one journal that begins with both that were seen.
pub struct Look<H> {
    value: PhantomData<H>,
}

impl<H: Kept> Play<Option<H>, View<H::Program, H::Entry>> for Look<H> {
    ghost use Rattle.ql_turn.specs.Told.{looked};

    ghost then = { looked };
}

/// A new pass gets one part.
pub struct Cut<H> {
    value: PhantomData<H>,
}

impl<H: Kept> Split<View<H::Program, H::Entry>> for Cut<H> {
    ghost use Rattle.ql_turn.specs.Told.{one_less, one_part};

    ghost left = { one_less };

    ghost right = { one_part };
}

/// One pass gets the parts of another.
pub struct Gather<H> {
    value: PhantomData<H>,
}

impl<H: Kept> Join<View<H::Program, H::Entry>> for Gather<H> {
    ghost use Rattle.ql_turn.specs.Told.{joined};
    ghost use Rattle.ql_turn.specs.declared.view.View.TheVariants.{Spent};

    ghost both = { joined };

    ghost spent = { Spent };
}
