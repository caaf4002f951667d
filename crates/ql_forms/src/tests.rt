//! Texts from outside, for forms made by hand of reserved words, whose numbers are known.

use crate::form::{Atom, Form};
use crate::write::write_form;
use ql_base::names::Names;
use ql_base::numbers::Offset;
use sqlite_items::Items;
use std::alloc::{AllocError, Global};

fn atom(atom: Atom) -> Form {
    Form::Atom {
        at: Offset(0),
        atom,
    }
}

fn pair(alloc: Global, first: Form, second: Form, tail: Option<Atom>) -> Result<Form, AllocError> {
    let mut items = Items::new(alloc);
    items.push(first)?;
    items.push(second)?;
    Ok(Form::List {
        at: Offset(0),
        items,
        tail,
    })
}

#[test]
fn writes_the_one_spelling(rt: HostRuntime) -> Result<(), AllocError> {
    let alloc = rt.alloc();
    let names = Names::new(alloc)?;
    let mut to = Vec::new(alloc);
    write_form(alloc, &atom(Atom::Int(i64::MIN)), &names, &mut to)?;
    let inner = pair(
        alloc,
        atom(Atom::Sym(1)),
        atom(Atom::Sym(29)),
        Some(Atom::Int(4)),
    )?;
    let outer = pair(alloc, atom(Atom::Sym(2)), inner, None)?;
    write_form(alloc, &outer, &names, &mut to)?;
    assert_eq!(rt;
        to.as_slice(),
        b"-9223372036854775808(quote (t + . 4))".as_slice()
    );
    Ok(())
}
