//! Sets of names.

ghost use Rattle.std.specs.Prelude.{◌≡◌, ◌↔◌, [], length, take, IsTrue, OnOk};
ghost use Rattle.ql_expand.specs.Core.{Name};
ghost use Rattle.ql_expand.specs.View.{name_of};
ghost use Rattle.ql_compile.specs.Compile.{is_name_among, without};
ghost use Rattle.ql_compile.specs.Free.{named_by, with_name};

use indexmap::IndexSet;
use ql_expand::core_form::VarName;
use std::alloc::{AllocError, Global};
use std::marker::Model;

/// A name as a set keeps it.
#[derive(Clone, Copy, Debug, PartialEq, Eq, Hash)]
pub struct Key {
    pub hidden: bool,
    pub number: u32,
}

/// A set of names, in the order in which they came.
#[derive(Drop)]
pub struct Names {
    keys: IndexSet<Key>,
}

impl Model for Names {
    ghost use Rattle.std.specs.Prelude.{List, map};
    ghost use Rattle.ql_expand.specs.Core.{Name};
    ghost use Rattle.ql_compile.specs.Free.{named_by};

    ghost Value = { List Name };

    ghost view = { λ s. map named_by s.keys.keys };

    ghost invariant = { λ s. Unit {0} };
}

impl Names {
    /// No names.
    pub fn new(alloc: Global) -> Names
        ensures { result ≡ [] }
    {
        Names {
            keys: IndexSet::new(alloc),
        }
    }

    /// How many names there are.
    pub fn len(&self) -> usize
        ensures { result ≡ length self.now }
    {
        self.keys.len()
    }

    /// Whether there are none.
    pub fn is_empty(&self) -> bool
        ensures { IsTrue result ↔ (length self.now ≡ 0) }
    {
        self.len() == 0
    }

    /// Whether a name is among them.
    pub fn contains(&self, name: VarName) -> bool
        ensures { result ≡ is_name_among (name_of name) self.now }
    {
        self.keys.contains(&key_of(name))
    }

    /// Adds a name, last if it is new.
    pub fn insert(&mut self, name: VarName) -> Result<(), AllocError>
        ensures { OnOk result (self.new ≡ with_name self.old (name_of name)) }
    {
        self.keys.insert(key_of(name))?;
        Ok(())
    }

    /// Takes a name away, and answers whether it was among them.
    pub fn remove(&mut self, name: VarName) -> bool
        ensures found { result ≡ is_name_among (name_of name) self.old }
        ensures left { (x : Name) → is_name_among x self.new ≡ is_name_among x (without (name_of name) self.old) }
    {
        self.keys.swap_remove(&key_of(name))
    }

    /// Keeps so many names, those that came first.
    pub fn keep(&mut self, len: usize)
        ensures { self.new ≡ take len self.old }
    {
        self.keys.truncate(len);
    }
}

// The key of a name.
fn key_of(name: VarName) -> Key
    ensures { named_by result ≡ name_of name }
{
    match name {
        VarName::Sym(number) => Key {
            hidden: false,
            number,
        },
        VarName::Hidden(number) => Key {
            hidden: true,
            number,
        },
    }
}
