//! Cells made with ample memory.

use crate::cells::{CellFault, Cells};
use crate::laws::reserved_words_are_printed;
use ql_base::names::Names;
use ql_world::word::Word;
use ql_world::world::Closure;
use sqlite_items::Items;
use std::alloc::AllocError;

#[test]
fn makes_three_cells_and_no_more(rt: HostRuntime) -> Result<(), CellFault> {
    let alloc = rt.alloc();
    let mut cells = Cells::new(alloc, 3, Vec::new(alloc));
    assert!(rt; cells.cons(Word::Int(7), Word::Sym(0))? == Word::Pair(0));
    assert!(rt; cells.new_box(Word::Int(8))? == 0);
    cells.reserve(1).map_err(CellFault::Memory)?;
    let made = Closure {
        place: 5,
        count: 1,
        mask: 0,
        captured: Items::new(alloc),
    };
    assert!(rt; cells.new_closure(made)? == Word::Fun(1));
    assert!(rt; cells.spare() >= 1);
    assert!(rt; matches!(&cells.new_box(Word::Int(9)), Err(CellFault::Full)));
    Ok(())
}

#[test]
fn prints_a_pair(rt: HostRuntime) -> Result<(), AllocError> {
    let alloc = rt.alloc();
    let names = Names::new(alloc)?;
    let cells = Cells::new(alloc, 1, vec![in alloc; (Word::Int(7), Word::Sym(0))]?);
    match cells.text(&names, Word::Pair(0), 3)? {
        Some(text) => assert_eq!(rt; text.as_slice(), b"(7)".as_slice()),
        None => assert!(rt; false),
    }
    assert!(rt; cells.text(&names, Word::Pair(0), 2)?.is_none());
    reserved_words_are_printed();
    let told = cells.short_text(&names, Word::Sym(1))?;
    assert_eq!(rt; told.bytes(), b"t".as_slice());
    Ok(())
}
