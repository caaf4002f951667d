//! The forms that lists and quote marks make.
//!
//! Here `'x` becomes `(quote x)`, `()` becomes nil, and a tail that is a list is joined to the items
//! before it.

ghost use Rattle.std.specs.Prelude.{◌≡◌, ℕ, List, [], IfOk, slice_index_or};
ghost use Rattle.ql_base.specs.Names.{reserved};
ghost use Rattle.ql_forms.specs.Spelled.{tail_of, atom, symbol, plain, with_tail, list_form, quote_form};
ghost use Rattle.ql_forms.specs.Numbered.{spelled_atom, spelled_tail};
ghost use Rattle.ql_forms.specs.View.{spelling_of, spellings_of, atom_of, tail_of as tail_told};
ghost use Rattle.ql_read.specs.Numbering.{GoesOn};

use ql_base::numbers::Offset;
use ql_forms::form::{Atom, Form};
use sqlite_items::Items;
use std::alloc::{AllocError, Global};

/// The number of the reserved word `nil`.
const NIL: u32 = 0;

/// The number of the reserved word `quote`.
const QUOTE: u32 = 2;

/// These items in parentheses. No items are nil.
pub fn proper_list(at: u64, items: Vec<Form>) -> Form
    ensures { (names : List (List ℕ)) → GoesOn reserved names → spelling_of names result ≡ list_form at (spellings_of names items.items) plain }
{
    if items.is_empty() {
        return reserved_word(at, NIL);
    }
    Form::List {
        at: Offset(at),
        items: Items::from_vec(items),
        tail: None,
    }
}

/// These items and a last form after a dot.
pub fn dotted_list(at: u64, items: Vec<Form>, last: Form) -> Result<Form, AllocError>
    ensures { (names : List (List ℕ)) → GoesOn reserved names
        → IfOk result (λ f. spelling_of names f ≡ list_form at (spellings_of names items.items) (with_tail (spelling_of names last))) }
{
    if items.is_empty() {
        return Ok(reserved_word(at, NIL));
    }
    match last {
        Form::Atom { at: _, atom } => Ok(Form::List {
            at: Offset(at),
            items: Items::from_vec(items),
            tail: as_tail(atom),
        }),
        Form::List {
            at: _,
            items: others,
            tail,
        } => {
            let mut all = Items::from_vec(items);
            all.append(others)?;
            Ok(Form::List {
                at: Offset(at),
                items: all,
                tail,
            })
        }
    }
}

/// The form after a quote mark, quoted.
pub fn quoted(alloc: Global, at: u64, form: Form) -> Result<Form, AllocError>
    ensures { (names : List (List ℕ)) → GoesOn reserved names → IfOk result (λ f. spelling_of names f ≡ quote_form at (spelling_of names form)) }
{
    let mut items = Vec::with_capacity(alloc, 2)?;
    items.push(reserved_word(at, QUOTE))?;
    items.push(form)?;
    Ok(Form::List {
        at: Offset(at),
        items: Items::from_vec(items),
        tail: None,
    })
}

/// The symbol of this number.
fn reserved_word(at: u64, number: u32) -> Form
    ensures { (names : List (List ℕ)) → spelling_of names result ≡ atom at (symbol (slice_index_or names number [])) }
{
    Form::Atom {
        at: Offset(at),
        atom: Atom::Sym(number),
    }
}

/// An atom as a tail. Nil makes a proper list.
fn as_tail(atom: Atom) -> Option<Atom>
    ensures { (names : List (List ℕ)) → GoesOn reserved names → spelled_tail names (tail_told result) ≡ tail_of (spelled_atom names (atom_of atom)) }
{
    match atom {
        Atom::Int(_) => Some(atom),
        Atom::Sym(number) => { if number == NIL { None } else { Some(atom) } }
    }
}
