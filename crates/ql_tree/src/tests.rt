//! A small tree: a catch within another, and processes within each.

use crate::tree::{Tree, TreeFault};
use ql_world::word::Word;
use ql_world::world::{Aim, Kind};
use std::alloc::AllocError;

#[test]
fn grows_up_to_its_limit(rt: HostRuntime) -> Result<(), AllocError> {
    let mut tree = Tree::new(rt.alloc(), 3)?;
    tree.reserve(2)?;
    assert!(rt; tree.spare() >= 2);
    assert!(rt; tree.spawn(0, Kind::Child(1)) == Ok(2));
    assert!(rt; tree.add(0, Kind::Child(2)) == 3);
    assert!(rt; tree.spawn(0, Kind::Child(3)) == Err(TreeFault::Full));
    assert!(rt; tree.room() == 0 && tree.count() == 3);
    for q in [1, 3, 2] {
        assert!(rt; !tree.all_ended());
        tree.set_ended(q);
    }
    assert!(rt; tree.all_ended());
    Ok(())
}

#[test]
fn kills_those_within(rt: HostRuntime) -> Result<(), AllocError> {
    let mut tree = Tree::new(rt.alloc(), 9)?;
    assert!(rt; tree.enter(1, Word::Sym(7), 0, true)? == 1);
    assert!(rt; tree.enter(1, Word::Sym(8), 1, true)? == 2);
    for home in [2, 0, 1] {
        assert!(rt; tree.spawn(home, Kind::Main).is_ok());
    }
    assert!(rt; tree.find_catch(2, Word::Sym(7)) == Some(1));
    assert!(rt; tree.find_inner(2, Word::Sym(7), 1) == None);
    let mut killed = Vec::new(rt.alloc());
    tree.kill_within(1, 4, &mut killed)?;
    assert!(rt; killed.as_slice() == [2].as_slice());
    assert!(rt; tree.live_within(1, 4) && !tree.live_within(1, 2));
    tree.leave(1);
    assert!(rt; tree.find_catch(2, Word::Sym(7)) == None);
    assert!(rt; tree.person(2).is_some_and(|person| person.aim == Aim::Die));
    Ok(())
}
