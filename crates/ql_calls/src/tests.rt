//! A process closure that is called, and an eager one that is killed.

use crate::calls::Calls;
use crate::server::CallFault;
use ql_world::word::Word;
use ql_world::world::Closure;
use sqlite_items::Items;
use std::alloc::{AllocError, Global};

/// A closure of one parameter.
fn body(alloc: Global) -> Closure {
    Closure {
        place: 5,
        count: 1,
        mask: 0,
        captured: Items::new(alloc),
    }
}

#[test]
fn takes_calls_in_order(rt: HostRuntime) -> Result<(), AllocError> {
    let mut calls = Calls::new(rt.alloc());
    calls.reserve(2)?;
    assert!(rt; calls.spare() >= 2);
    assert!(rt; calls.make(2, body(rt.alloc()), false, Vec::new(rt.alloc()))? == 1);
    for number in 1..100_001 {
        let arguments = vec![in rt.alloc(); Word::Int(3)]?;
        assert!(rt; calls.send(1, arguments, None) == Ok(number));
    }
    for number in 1..100_001 {
        assert!(rt; calls.take(1) == Some(number));
    }
    assert!(rt; calls.take(1) == None && calls.count() == 1);
    Ok(())
}

#[test]
fn buries_an_eager_closure(rt: HostRuntime) -> Result<(), AllocError> {
    let mut calls = Calls::new(rt.alloc());
    calls.reserve(1)?;
    let turn = vec![in rt.alloc(); 7]?;
    assert!(rt; calls.add(2, body(rt.alloc()), true, turn) == 1);
    for reply in [Some(8), None, Some(9)] {
        assert!(rt; calls.send(1, Vec::new(rt.alloc()), reply).is_ok());
    }
    let Some(server) = calls.server(1) else {
        return Err(AllocError);
    };
    let next = server.next().map_or(0, |call| call.number());
    assert!(rt; server.in_progress() && server.queued() == 2 && next == 2);
    assert!(rt; server.reply_places() == 4);
    for (place, future) in [
        (0, Some(8)),
        (1, None),
        (2, Some(9)),
        (3, Some(7)),
        (4, None),
    ] {
        assert!(rt; server.unanswered(place) == future);
    }
    calls.bury(1);
    let arguments = Vec::new(rt.alloc());
    assert!(rt; calls.send(1, arguments, None) == Err(CallFault::Dead));
    Ok(())
}
