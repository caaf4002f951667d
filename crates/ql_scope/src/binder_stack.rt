//! The binders above a place, of which the innermost of each name is found at once.

ghost use Rattle.std.specs.Prelude.{◌≡◌, ◌++◌, ◌∷◌, [], ◌-◌, ◌<◌, List, take, length, IfOk, OnOk};
ghost use Rattle.ql_expand.specs.Core as core;
ghost use Rattle.ql_expand.specs.View.{binder_of};
ghost use Rattle.ql_scope.specs.Scope.{is_among, names_at};
ghost use Rattle.ql_scope.specs.Stored.{inside};
ghost use Rattle.ql_scope.specs.CheckTables.{innermost_named, offset_named};

use crate::table::{reach, replace, value_at};
use ql_expand::core_form::{Binder, VarName};
use std::alloc::{AllocError, Global};
use std::marker::Model;

/// The innermost binder of a name.
#[derive(Clone, Copy)]
pub struct Innermost {
    /// How many binders are outside of it.
    pub place: usize,
    /// Its offset.
    pub at: u64,
}

/// A binder above a place.
#[derive(Clone, Copy)]
pub struct Above {
    pub binder: Binder,
    /// The binder of the same name outside of it, which it hides.
    pub hides: Option<Innermost>,
}

/// The binders above a place.
#[derive(Drop)]
pub struct BinderStack {
    /// From the outermost on.
    row: Vec<Above>,
    /// By number, the innermost binder of that name.
    innermost: Vec<Option<Innermost>>,
}

impl Model for BinderStack {
    ghost use Rattle.std.specs.Prelude.{List};
    ghost use Rattle.ql_expand.specs.Core.{Binder};
    ghost use Rattle.ql_scope.specs.CheckTables.{HasInnermost, binders_of_row};

    ghost Value = { List Binder };

    ghost view = { λ s. binders_of_row s.row.items };

    ghost invariant = { λ s. HasInnermost s.row.items s.innermost.items };
}

impl BinderStack {
    /// No binders, with room for so many names.
    pub fn new(alloc: Global, names: u32) -> Result<BinderStack, AllocError>
        ensures { IfOk result (λ s. s ≡ []) }
    {
        let innermost = vec![in alloc; None; names as usize]?;
        Ok(BinderStack {
            row: Vec::new(alloc),
            innermost,
        })
    }

    /// How many binders there are.
    pub fn len(&self) -> usize
        ensures { result ≡ length self.now }
    {
        self.row.len()
    }

    /// The offset of the innermost binder with the name of this number.
    pub fn innermost(&self, number: u32) -> Option<u64>
        ensures { result ≡ offset_named (inside self.now []) number }
    {
        match self.binder(number) {
            Some(binder) => Some(binder.at),
            None => None,
        }
    }

    /// Whether a binder inside so many others has the name of this number.
    pub fn is_named_inside(&self, outer: usize, number: u32) -> bool
        ensures { (before after : List core.Binder) → self.now ≡ before ++ after → outer ≡ length before → result ≡ is_among number (names_at after) }
    {
        match self.binder(number) {
            Some(binder) => outer <= binder.place,
            None => false,
        }
    }

    /// Whether a binder has the name of this number.
    pub fn is_named(&self, number: u32) -> bool
        ensures { result ≡ is_among number (names_at self.now) }
    {
        self.is_named_inside(0, number)
    }

    // The innermost binder with the name of this number.
    fn binder(&self, number: u32) -> Option<Innermost>
        ensures { result ≡ innermost_named (inside self.now []) number }
    {
        value_at(&self.innermost, number)
    }

    /// Adds a binder inside the others.
    pub fn push(&mut self, binder: Binder) -> Result<(), AllocError>
        ensures { OnOk result (self.new ≡ self.old ++ binder_of binder ∷ []) }
    {
        let VarName::Sym(number) = binder.name else {
            self.row.push(Above {
                binder,
                hides: None,
            })?;
            return Ok(());
        };
        let hides = value_at(&self.innermost, number);
        let here = Innermost {
            place: self.row.len(),
            at: binder.at.0,
        };
        reach(&mut self.innermost, number)?;
        self.row.push(Above { binder, hides })?;
        replace(&mut self.innermost, number, Some(here));
        Ok(())
    }

    /// Keeps so many binders from the outermost on.
    pub fn keep(&mut self, len: usize)
        ensures { self.new ≡ take len self.old }
    {
        while self.row.len() > len {
            self.pop();
        }
    }

    // Takes the innermost binder away.
    fn pop(&mut self)
        ensures shorter { 0 < length self.old → length self.new < length self.old }
        ensures taken { self.new ≡ take (length self.old - 1) self.old }
    {
        if let Some(last) = self.row.pop() {
            if let VarName::Sym(number) = last.binder.name {
                replace(&mut self.innermost, number, last.hides);
            }
        }
    }
}
