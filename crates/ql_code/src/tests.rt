//! Listings of codes made by hand.

use crate::code::{Code, Op};
use crate::listing::write_listing;
use ql_base::names::Names;
use ql_base::numbers::Offset;
use ql_world::word::Word;
use sqlite_items::Items;
use std::alloc::{AllocError, Global};

// The code of `(print (+ 1 2))`.
fn sum(alloc: Global) -> Result<Code, AllocError> {
    let ops = vec![in alloc;
        Op::Lit(Word::Int(1)),
        Op::Lit(Word::Int(2)),
        Op::Prim(29),
        Op::Print,
        Op::Drop,
        Op::End,
    ]?;
    let offsets = vec![in alloc;
        Offset(10),
        Offset(12),
        Offset(7),
        Offset(0),
        Offset(0),
        Offset(0),
    ]?;
    Ok(Code::new(ops, offsets, Vec::new(alloc), Vec::new(alloc), 0))
}

// The code of `(qlet t ((a 1)) a)`.
fn one_child(alloc: Global) -> Result<Code, AllocError> {
    let starts = vec![in alloc; 2]?;
    let ops = vec![in alloc;
        Op::Lit(Word::Sym(1)),
        Op::Qlet {
            starts: Items::from_vec(starts),
            touched: 5,
            bound: 6,
        },
        Op::Lit(Word::Int(1)),
        Op::Join,
        Op::Jump(6),
        Op::Touch(1),
        Op::Bind { count: 1, mask: 0, },
        Op::Local(0),
        Op::Slide(1),
        Op::Drop,
        Op::End,
    ]?;
    let offsets = vec![in alloc;
        Offset(6),
        Offset(0),
        Offset(12),
        Offset(12),
        Offset(0),
        Offset(0),
        Offset(0),
        Offset(16),
        Offset(0),
        Offset(0),
        Offset(0),
    ]?;
    Ok(Code::new(ops, offsets, Vec::new(alloc), Vec::new(alloc), 0))
}

#[test]
fn lists_a_line_for_each_instruction(rt: HostRuntime) -> Result<(), AllocError> {
    let alloc = rt.alloc();
    let names = Names::new(alloc)?;
    let mut text = Vec::new(alloc);
    write_listing(alloc, &sum(alloc)?, &names, &mut text)?;
    let wanted = b"0 lit 1 @10\n1 lit 2 @12\n2 prim + @7\n3 print @0\n4 drop @0\n5 end @0\n";
    assert_eq!(rt; text.as_slice(), wanted.as_slice());
    text.clear();
    write_listing(alloc, &one_child(alloc)?, &names, &mut text)?;
    let wanted =
        b"0 lit t @6\n1 qlet 1 2 5 6 @0\n2 lit 1 @12\n3 join @12\n4 jump 6 @0\n5 touch 1 @0\n6 bind 1 0 @0\n7 local 0 @16\n8 slide 1 @0\n9 drop @0\n10 end @0\n";
    assert_eq!(rt; text.as_slice(), wanted.as_slice());
    Ok(())
}
