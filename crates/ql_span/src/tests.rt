//! Journals from outside, with spans that were found apart from this.

use crate::spans::span;
use crate::write::write_span;
use ql_journal::read::read_journal;

const ALONE: &[u8] = b"turn 1 5\nexit 1 0\nend 1 ok\nstop done\n";

/// Two processes side by side, of which the first waits for both.
const SIDE_BY_SIDE: &[u8] =
    b"turn 1 2\nspawn 1 2 0 let\nspawn 1 3 0 let\nturn 2 256\nturn 3 256\nturn 2 256\nturn 3 256\nturn 2 256\nturn 3 256\nturn 2 256\nturn 3 256\nturn 2 256\nturn 3 256\nturn 2 256\nturn 3 256\nturn 2 233\nend 2 ok\nturn 3 233\nend 3 ok\nturn 1 8\nexit 1 0\nend 1 ok\nstop done\n";

/// A throw that kills, in version 2.
const THROW: &[u8] =
    b"qlisp 2 2000000 1000000 65535 16777216\nturn 1 2\nopen 1 1 0\nturn 1 2\nspawn 1 2 1 let\nspawn 1 3 1 let\nspawn 1 4 1 let\nturn 2 256\nturn 3 3\nthrow 3 1\nkill 1 2\nkill 1 3\nkill 1 4\nturn 3 1\nend 3 killed\nturn 4 1\nend 4 killed\nturn 1 1\nland 1 1\nturn 1 1\nturn 2 1\nend 2 killed\nturn 1 1\nexit 1 0\nend 1 ok\nstop done\n";

/// A call of a process closure that has started at once, and its answer.
const CALL: &[u8] =
    b"qlisp 2 2000000 1000000 65535 16777216\nturn 1 2\nspawn 1 2 0 eager 1\nturn 1 4\nsend 1 1 1\ntake 2 1 1\nturn 2 6\nreply 2 1 1 7\nturn 1 2\nturn 2 3\nstop deadlock\n";

#[test]
fn tells_work_span_and_chain(rt: HostRuntime) {
    let table: [(&[u8], &[u8]); 5] = [
        (b"stop deadlock\n", b"work 0\nspan 0\nchain\n"),
        (ALONE, b"work 5\nspan 5\nchain 1\n"),
        (
            SIDE_BY_SIDE,
            b"work 3548\nspan 1779\nchain 1 4 6 8 10 12 14 16 20\n",
        ),
        (THROW, b"work 269\nspan 261\nchain 2 4 8 21\n"),
        (CALL, b"work 17\nspan 15\nchain 2 4 7 10\n"),
    ];
    for (text, want) in table {
        let journal = match read_journal(rt.alloc(), text) {
            Ok(journal) => journal,
            Err(_) => panic!(&rt; "not read"),
        };
        let found = span(rt.alloc(), &journal).expect(&rt, "memory");
        let mut lines = Vec::new(rt.alloc());
        write_span(rt.alloc(), &found, &mut lines).expect(&rt, "memory");
        assert!(&rt; lines.as_slice() == want, "another span");
    }
}
