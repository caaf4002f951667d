//! The one text that spells a form.

ghost use Rattle.std.specs.Prelude.{◌≡◌, ◌++◌, OnOk, OnErr, length, take};
ghost use Rattle.ql_forms.specs.FormText.{form_text, items_text, others_text, tail_text, atom_text};
ghost use Rattle.ql_forms.specs.Numbered.{spelled_atom, spelled_tail};
ghost use Rattle.ql_forms.specs.View.{spelling_of, spellings_of, atom_of, tail_of};

use crate::form::{Atom, Form};
use itoa::Buffer;
use ql_base::names::Names;
use std::alloc::{AllocError, Global};

/// Appends the one spelling of `form` to `to`, which is as before after want of memory.
///
/// An integer is written in decimal, and a symbol by its name. One space stands between the items of
/// a list, and ` . ` before its tail. A quoted form is the list that it is: `(quote x)`.
pub fn write_form(
    alloc: Global,
    form: &Form,
    names: &Names,
    to: &mut Vec<u8>,
) -> Result<(), AllocError>
    ensures ok { OnOk result (to.new.items ≡ to.old.items ++ form_text (spelling_of names.now form.now)) }
    ensures err { OnErr result (to.new.items ≡ to.old.items) }
{
    // `to` grows in an allocator of its own.
    let _ = alloc;
    let before = to.len();
    let written = put_form(to, form, names);
    if written.is_err() {
        to.truncate(before);
    }
    written
}

#[cycle(put)]
fn put_form(to: &mut Vec<u8>, form: &Form, names: &Names) -> Result<(), AllocError>
    ensures ok { OnOk result (to.new.items ≡ to.old.items ++ form_text (spelling_of names.now form.now)) }
    ensures err { OnErr result (take (length to.old.items) to.new.items ≡ to.old.items) }
{
    match form {
        Form::Atom { atom, .. } => put_atom(to, *atom, names),
        Form::List { items, tail, .. } => {
            to.push(b'(')?;
            put_items(to, items.as_slice(), names)?;
            put_tail(to, *tail, names)?;
            to.push(b')')?;
            Ok(())
        }
    }
}

#[cycle(put)]
fn put_items(to: &mut Vec<u8>, items: &[Form], names: &Names) -> Result<(), AllocError>
    ensures ok { OnOk result (to.new.items ≡ to.old.items ++ items_text (spellings_of names.now items.now)) }
    ensures err { OnErr result (take (length to.old.items) to.new.items ≡ to.old.items) }
{
    let mut is_first = true;
    for item in items {
        if !is_first {
            to.push(b' ')?;
        }
        put_form(to, item, names)?;
        is_first = false;
    }
    Ok(())
}

fn put_tail(to: &mut Vec<u8>, tail: Option<Atom>, names: &Names) -> Result<(), AllocError>
    ensures ok { OnOk result (to.new.items ≡ to.old.items ++ tail_text (spelled_tail names.now (tail_of tail))) }
    ensures err { OnErr result (take (length to.old.items) to.new.items ≡ to.old.items) }
{
    match tail {
        None => Ok(()),
        Some(atom) => {
            to.extend_from_slice(b" . ")?;
            put_atom(to, atom, names)
        }
    }
}

fn put_atom(to: &mut Vec<u8>, atom: Atom, names: &Names) -> Result<(), AllocError>
    ensures ok { OnOk result (to.new.items ≡ to.old.items ++ atom_text (spelled_atom names.now (atom_of atom))) }
    ensures err { OnErr result (to.new.items ≡ to.old.items) }
{
    match atom {
        Atom::Int(n) => {
            let mut digits = Buffer::new();
            to.extend_from_slice(digits.format(n).as_bytes())
        }
        Atom::Sym(number) => to.extend_from_slice(names.letters(number)),
    }
}
