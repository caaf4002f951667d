//! Forms.

ghost use Rattle.std.specs.Prelude.{◌≡◌, MatchOption, None, Some};
ghost use Rattle.ql_forms.specs.Form.{is_atom, is_nil, items_of, operation_in, place_of, proper_items, symbol_in, atom, none, more};
ghost use Rattle.ql_forms.specs.View.{atom_of, form_of, forms_of};

use ql_base::numbers::Offset;
use sqlite_items::Items;

/// An integer, or the number of a symbol's name.
#[derive(Clone, Copy, Debug, PartialEq, Eq)]
pub enum Atom {
    Int(i64),
    Sym(u32),
}

/// A form, with the offset of its first byte.
///
/// Equal structure is one form: a list has at least one item, and its tail isn't nil. Nil is the
/// symbol `nil`, and a tail that is a list is joined to the items before it.
#[derive(Drop)]
pub enum Form {
    Atom {
        at: Offset,
        atom: Atom,
    },
    List {
        at: Offset,
        items: Items<Form>,
        tail: Option<Atom>,
    },
}

/// A symbol in a source, with its offset.
#[derive(Clone, Copy, Debug, PartialEq, Eq)]
pub struct Symbol {
    pub at: Offset,
    pub number: u32,
}

/// The number of nil, the first reserved word.
const NIL: u32 = 0;

impl Atom {
    /// Whether it is nil.
    pub fn is_nil(self) -> bool
        ensures { result ≡ is_nil (atom_of self) }
    {
        match self {
            Atom::Int(_) => false,
            Atom::Sym(number) => number == NIL,
        }
    }
}

impl Form {
    /// The offset of its first byte.
    pub fn offset(&self) -> Offset
        ensures { result.0 ≡ place_of (form_of self.now) }
    {
        match self {
            Form::Atom { at, .. } => *at,
            Form::List { at, .. } => *at,
        }
    }

    /// Whether it is no list.
    pub fn is_atom(&self) -> bool
        ensures { result ≡ is_atom (form_of self.now) }
    {
        match self {
            Form::Atom { .. } => true,
            Form::List { .. } => false,
        }
    }

    /// The symbol that it is.
    pub fn symbol(&self) -> Option<Symbol>
        ensures { MatchOption result (symbol_in (form_of self.now) ≡ None) (λ s. symbol_in (form_of self.now) ≡ Some (s.at.0, s.number)) }
    {
        match self {
            Form::Atom {
                at,
                atom: Atom::Sym(number),
            } => Some(Symbol {
                at: *at,
                number: *number,
            }),
            _ => None,
        }
    }

    /// The items of a proper list.
    pub fn proper_items(&self) -> Option<&[Form]>
        ensures { MatchOption result (proper_items (form_of self.now) ≡ None) (λ items. proper_items (form_of self.now) ≡ Some (forms_of items.now)) }
    {
        match self {
            Form::List {
                items,
                tail: None,
                ..
            } => Some(items.as_slice()),
            _ => None,
        }
    }

    /// The symbol at the head of a proper list, and the forms after it.
    pub fn operation(&self) -> Option<(Symbol, &[Form])>
        ensures { MatchOption result (operation_in (form_of self.now) ≡ None)
            (λ found. operation_in (form_of self.now) ≡ Some ((found.0.at.0, found.0.number), forms_of found.1.now)) }
    {
        let (head, parts) = first_of(self.proper_items()?)?;
        Some((head.symbol()?, parts))
    }

    /// The items of a proper list, which are none for nil.
    pub fn items(&self) -> Option<&[Form]>
        ensures { MatchOption result (items_of (form_of self.now) ≡ None) (λ items. items_of (form_of self.now) ≡ Some (forms_of items.now)) }
    {
        match self {
            Form::Atom { atom, .. } => { if atom.is_nil() { Some(&[]) } else { None } }
            Form::List { .. } => self.proper_items(),
        }
    }
}

/// The first of some forms, and the others.
pub fn first_of(forms: &[Form]) -> Option<(&Form, &[Form])>
    ensures { MatchOption result (forms_of forms.now ≡ none) (λ found. forms_of forms.now ≡ more (form_of found.0.now) (forms_of found.1.now)) }
{
    forms.split_first()
}
