//! The slots of a frame, of which the last variable of each name is found at once.

ghost use Rattle.std.specs.Prelude.{◌≡◌, ◌<◌, ◌==◌, ◌++◌, ◌∷◌, [], ℕ, Bool, Option, Some, None, IfOk, OnOk, OnErr, if◌then◌else◌, is_some, length, option_map, true};
ghost use Rattle.ql_expand.specs.Core.{Name};
ghost use Rattle.ql_expand.specs.View.{name_of};
ghost use Rattle.ql_compile.specs.Compile.{Scope, find_in};
ghost use Rattle.ql_compile.specs.Slots.{key_of, place_at, variable_of};

use crate::number::number;
use indexmap::IndexMap;
use ql_expand::core_form::VarName;
use sqlite_items::at as item_at;
use std::alloc::{AllocError, Global};
use std::marker::Model;

/// Where a variable is.
#[derive(Clone, Copy, Debug, PartialEq, Eq)]
pub struct Place {
    /// Its slot, counted from the bottom of the frame.
    pub slot: u32,
    /// Whether the slot holds the box that it lives in.
    pub stored: bool,
}

/// A slot.
#[derive(Clone, Copy)]
pub struct Row {
    /// Its variable, and whether that is stored. An operand has none.
    pub variable: Option<(VarName, bool)>,
    /// The last variable of the same name below, which this one hides.
    pub hides: Option<Place>,
}

/// The slots of a frame: variables and operands.
#[derive(Drop)]
pub struct Frame {
    /// From the bottom on.
    rows: Vec<Row>,
    /// The last variable of each name.
    places: IndexMap<u64, Place>,
}

impl Model for Frame {
    ghost use Rattle.std.specs.Prelude.{[]};
    ghost use Rattle.ql_compile.specs.Compile.{Scope};
    ghost use Rattle.ql_compile.specs.Slots.{HasPlaces, stacked};

    ghost Value = { Scope };

    ghost view = { λ f. stacked f.rows.items [] };

    ghost invariant = { λ f. HasPlaces f.rows.items f.places.entries };
}

impl Frame {
    /// A frame without slots.
    pub fn new(alloc: Global) -> Frame
        ensures { result ≡ [] }
    {
        Frame {
            rows: Vec::new(alloc),
            places: IndexMap::new(alloc),
        }
    }

    /// How many slots there are.
    pub fn len(&self) -> usize
        ensures { result ≡ length self.now }
    {
        self.rows.as_slice().len()
    }

    /// The variable of the slot that is so many above the bottom.
    pub fn slot(&self, at: usize) -> Option<(VarName, bool)>
        ensures { (above below : Scope) (v : Option (Name × Bool)) → self.now ≡ above ++ v ∷ below → at ≡ length below → option_map (λ s. (name_of s.0, s.1)) result ≡ v }
    {
        match item_at(self.rows.as_slice(), at) {
            Some(row) => row.variable,
            None => None,
        }
    }

    /// An operand on top.
    pub fn push_operand(&mut self) -> Result<(), AllocError>
        ensures { OnOk result (self.new ≡ None ∷ self.old) }
    {
        self.rows.push(Row {
            variable: None,
            hides: None,
        })?;
        Ok(())
    }

    /// A variable on top, which may live in a box.
    pub fn push_variable(&mut self, name: VarName, stored: bool) -> Result<(), AllocError>
        ensures { OnOk result (self.new ≡ Some (name_of name, stored) ∷ self.old) }
    {
        let slot = number(self.len())?;
        let key = key_of(name);
        self.rows.push(Row {
            variable: Some((name, stored)),
            hides: place_at(&self.places, key),
        })?;
        match put(&mut self.places, key, Place { slot, stored }) {
            Ok(()) => Ok(()),
            Err(error) => {
                self.rows.pop();
                Err(error)
            }
        }
    }

    /// Keeps so many slots at the bottom.
    pub fn keep(&mut self, len: usize)
        ensures { (above below : Scope) → self.old ≡ above ++ below → len ≡ length below → self.new ≡ below }
    {
        while self.len() > len {
            self.pop();
        }
    }

    /// Where the last variable of this name is.
    pub fn find(&self, name: VarName) -> Option<Place>
        ensures { option_map (λ p. (p.slot, p.stored)) result ≡ find_in self.now (name_of name) }
    {
        place_at(&self.places, key_of(name))
    }

    // Takes the top slot away.
    fn pop(&mut self)
        ensures { (v : Option (Name × Bool)) (below : Scope) → self.old ≡ v ∷ below → self.new ≡ below }
    {
        if let Some(last) = self.rows.pop() {
            if let Some((name, _)) = last.variable {
                restore(&mut self.places, key_of(name), last.hides);
            }
        }
    }
}

// A name as a number.
fn key_of(name: VarName) -> u64
    ensures { result ≡ key_of (name_of name) }
{
    match name {
        VarName::Sym(number) => 2 * number as u64,
        VarName::Hidden(number) => 2 * number as u64 + 1,
    }
}

// What a map has for a key.
fn place_at(places: &IndexMap<u64, Place>, key: u64) -> Option<Place>
    ensures { result ≡ place_at places.now.entries key }
{
    places.get(&key).copied()
}

// Gives a key this place.
fn put(places: &mut IndexMap<u64, Place>, key: u64, place: Place) -> Result<(), AllocError>
    ensures put { OnOk result ((k : ℕ) → place_at places.new.entries k ≡ (if key == k then Some place else place_at places.old.entries k)) }
    ensures err { OnErr result (places.new.entries ≡ places.old.entries) }
    ensures absent { OnErr result (place_at places.old.entries key ≡ None) }
{
    match places.insert(key, place) {
        Ok(_) => Ok(()),
        Err(_) => Err(AllocError),
    }
}

// Gives a key that is there this place, or none.
fn restore(places: &mut IndexMap<u64, Place>, key: u64, place: Option<Place>)
    requires { is_some (place_at places.old.entries key) ≡ true }
    ensures { (k : ℕ) → place_at places.new.entries k ≡ (if key == k then place else place_at places.old.entries k) }
{
    match place {
        Some(place) => match put(places, key, place) {
            Ok(()) => (),
            Err(_) => unreachable!(),
        },
        None => {
            places.swap_remove(&key);
        }
    }
}
