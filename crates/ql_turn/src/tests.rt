//! Two threads append to one kept value.

use crate::notes::{Notes, append_by_two};
use std::alloc::{AllocError, Global};

fn numbers(alloc: Global, from: u64, end: u64) -> Result<Vec<u64>, AllocError> {
    let mut all = Vec::new(alloc);
    for number in from..end {
        all.push(number)?;
    }
    Ok(all)
}

#[test]
fn two_threads_append(rt: HostRuntime) {
    let alloc: Global = rt.alloc();
    let low = numbers(alloc, 0, 1_000).expect(&rt, "memory");
    let high = numbers(alloc, 1_000, 2_000).expect(&rt, "memory");
    let both = numbers(alloc, 0, 2_000).expect(&rt, "memory");
    let empty = Notes::new(alloc, 7);
    let mut notes = append_by_two(&rt, alloc, empty, low.as_slice(), high.as_slice()).expect(
        &rt, "memory",
    );
    assert_eq!(&rt; notes.program, 7);
    notes.numbers.sort().expect(&rt, "memory");
    assert!(&rt; notes.numbers == both, "each number stands once");
}
