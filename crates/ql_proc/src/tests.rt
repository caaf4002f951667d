//! A process that computes a sum, and processes that are made.

use crate::process::Proc;
use crate::stack::Stack;
use ql_base::numbers::Offset;
use ql_code::code::{Code, Op};
use ql_code::laws::walk_decides;
use ql_code::mark::{Mark, State};
use ql_world::word::{Slot, Word};
use ql_world::world::Closure;
use sqlite_items::Items;
use std::alloc::{AllocError, Global};

// The code of `(print (+ 1 2))`.
fn sum(alloc: Global) -> Result<Code, AllocError> {
    walk_decides();
    let ops = vec![in alloc;
        Op::Lit(Word::Int(1)),
        Op::Lit(Word::Int(2)),
        Op::Prim(29),
        Op::Print,
        Op::Drop,
        Op::End,
    ]?;
    let offsets = vec![in alloc;
        Offset(10),
        Offset(12),
        Offset(7),
        Offset(0),
        Offset(0),
        Offset(0),
    ]?;
    Ok(Code::new(ops, offsets, Vec::new(alloc), Vec::new(alloc), 0))
}

#[test]
fn computes_a_sum(rt: HostRuntime) -> Result<(), AllocError> {
    let code = sum(rt.alloc())?;
    let mut p = Proc::first(rt.alloc(), &code)?;
    p.stack.reserve(2)?;
    assert!(&rt; p.place == 0 && code.len() == 6 && p.next_is_local(&code));
    p.push_word(&code, Word::Int(1));
    assert!(&rt; p.place == 1);
    p.push_word(&code, Word::Int(2));
    assert!(&rt; p.place == 2 && p.has_words(2) && p.next_is_local(&code));
    let words = p.words(rt.alloc(), 2)?;
    assert!(&rt; words.as_slice() == [Word::Int(1), Word::Int(2)].as_slice());
    let captured = p.captured(rt.alloc(), &[1, 7])?;
    assert!(&rt;
        captured.as_slice() == [Slot::Val(Word::Int(2)), Slot::Val(Word::Sym(0))].as_slice()
    );
    p.replace_two(&code, Word::Int(3));
    assert!(&rt; p.place == 3 && p.top_word() == Some(Word::Int(3)));
    assert!(&rt; !p.next_is_local(&code));
    // The `drop` takes no tick.
    p.pass_on(&code);
    assert!(&rt; p.place == 5 && p.mark_on_top() == Some(Mark::Base(None)));
    Ok(())
}

#[test]
fn makes_processes(rt: HostRuntime) -> Result<(), AllocError> {
    let code = sum(rt.alloc())?;
    let captured = vec![in rt.alloc(); Slot::Val(Word::Sym(1))]?;
    let closure = Closure {
        place: 3,
        count: 2,
        mask: 2,
        captured: Items::from_vec(captured),
    };
    let p = Proc::at_rest(rt.alloc(), &closure)?;
    assert!(&rt; p.place == 3 && p.state == State::Resting);
    let p = Proc::started(
        rt.alloc(),
        &code,
        &closure,
        &[Word::Int(5), Word::Int(6)],
        7,
    )?;
    assert!(&rt; p.place == 3 && p.local(0) == Some(Slot::Val(Word::Int(5))));
    assert!(&rt; p.local(1) == Some(Slot::Cell(7)) && p.top_word() == Some(Word::Sym(1)));
    assert!(&rt; p.has_words(1));
    let child = Proc::child(rt.alloc(), &code, &p.stack, 1, 4, 2)?;
    assert!(&rt; child.place == 2 && child.top_mark() == Some(Mark::Base(Some(4))));
    assert!(&rt; child.local(1) == Some(Slot::Cell(7)));
    assert!(&rt; child.local(2) == Some(Slot::Val(Word::Sym(0))) && child.local(3) == None);
    Ok(())
}

#[test]
fn works_on_a_window(rt: HostRuntime) -> Result<(), AllocError> {
    let mut stack = Stack::new(rt.alloc());
    for n in 0..70 {
        stack.reserve(2)?;
        stack.push(Slot::Val(Word::Sym(n)));
        stack.push_mark(Mark::Returning(n));
    }
    let mut window = stack.window(rt.alloc(), 1)?;
    assert!(&rt; stack.has_window(&window));
    window.push(Slot::Cell(3));
    assert!(&rt; !stack.has_window(&window));
    stack.put_window(&window)?;
    assert!(&rt; stack.has_window(&window) && stack.local(0) == Some(Slot::Cell(3)));
    stack.drop_top();
    for n in 0..70 {
        assert!(&rt; stack.mark() == Some(Mark::Returning(69 - n)));
        stack.drop_two();
    }
    assert!(&rt; stack.mark() == None && stack.local(0) == None);
    Ok(())
}
