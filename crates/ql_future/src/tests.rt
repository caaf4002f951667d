//! Futures made with ample memory.

use crate::futures::Futures;
use ql_world::word::Word;
use ql_world::world::FutState;
use std::alloc::AllocError;

#[test]
fn makes_resolves_and_kills(rt: HostRuntime) -> Result<(), AllocError> {
    let mut futures = Futures::new(rt.alloc());
    assert_eq!(rt; futures.make()?, 1);
    futures.reserve(3)?;
    assert!(rt; futures.spare() >= 3);
    assert_eq!(rt; futures.make()?, 2);
    futures.resolve(1, Word::Int(7));
    futures.kill_all(&[1, 2]);
    assert!(rt; futures.state(1) == FutState::Value(Word::Int(7)));
    assert!(rt; futures.state(2) == FutState::Dead);
    assert!(rt; futures.state(3) == FutState::Pending);
    assert_eq!(rt; futures.count(), 2);
    Ok(())
}
