//! Journals from outside, read and written again, and texts that are none.

use crate::journal::Journal;
use crate::read::{JournalRefusal, read_head, read_journal, read_turn};
use crate::write::{write_journal, write_line};
use ql_base::numbers::Pid;
use ql_world::event::{Event, Head, Stop};
use ql_world::short::Short;

/// A throw that kills, in version 1.
const THROW: &[u8] =
    b"turn 1 2\nopen 1 1 0\nturn 1 2\nspawn 1 2 1 let\nspawn 1 3 1 let\nspawn 1 4 1 let\nturn 2 256\nturn 3 3\nthrow 3 1\nkill 1 2\nkill 1 3\nkill 1 4\nturn 3 1\nend 3 killed\nturn 4 1\nend 4 killed\nturn 1 1\nland 1 1\nturn 1 1\nturn 2 1\nend 2 killed\nturn 1 1\nexit 1 0\nend 1 ok\nstop done\n";

/// A closure, a cleanup and values that are handed on, in version 2.
const HANDED: &[u8] =
    b"qlisp 2 2000000 1000000 65535 16777216\nturn 1 4\nspawn 1 2 0 eager 1\nspawn 1 3 0 call 2\nsend 1 1 1\ntake 2 1 1\nturn 2 5\nreply 2 1 1 (1 (2 . x))\nprotect 2 1\nbegin 2 1\nfinish 2 1\nend 3 ok #long\nend 1 ok\nstop error incleanup 1 18446744073709551615\n";

#[test]
fn reads_what_it_writes(rt: HostRuntime) {
    for (text, ticks) in [(THROW, 269), (HANDED, 9)] {
        let journal = match read_journal(rt.alloc(), text) {
            Ok(journal) => journal,
            Err(_) => panic!(&rt; "not read"),
        };
        let mut again = Vec::new(rt.alloc());
        write_journal(rt.alloc(), &journal, &mut again).expect(&rt, "memory");
        assert!(&rt; again.as_slice() == text, "another text");
        assert_eq!(&rt; journal.turns().take(1_000).count(), ticks);
    }
}

#[test]
fn tells_the_first_line_outside(rt: HostRuntime) {
    // 0 stands for a text without a stop line.
    let table: [(&[u8], u64); 16] = [
        (b"", 0),
        (b"turn 1 5\n", 0),
        (b"qlisp 2 5 6 7 8\n", 0),
        (b"turn 1 5\nturn 1 0\nstop done\n", 2),
        (b"turn 1 5\nturn 1 2\nstop done\n", 2),
        (b"turn 1 5\nstop done", 2),
        (b"stop done\nstop done\n", 2),
        (b"\n", 1),
        (b"turn 1 05\n", 1),
        (b"turn 1  5\n", 1),
        (b"turn 4294967296 5\n", 1),
        (b"qlisp 2 5 6 7 8 \nstop done\n", 1),
        (b"stop done\nqlisp 2 5 6 7 8\n", 2),
        (b"qlisp 2 5 6 7 8\nturn 3 1\nend 3 ok\nstop done\n", 3),
        (b"qlisp 2 5 6 7 8\nturn 1 1\nend 1 ok 5\nstop done\n", 3),
        (b"turn 3 1\nend 3 ok 5\nstop done\n", 2),
    ];
    for (text, want) in table {
        let found = match read_journal(rt.alloc(), text) {
            Err(JournalRefusal::BadLine { line }) => line,
            Err(JournalRefusal::NoStop) => 0,
            _ => u64::MAX,
        };
        assert_eq!(&rt; found, want);
    }
}

#[test]
fn grows(rt: HostRuntime) {
    let head = Head {
        budget: 2_000_000,
        cells: 1_000_000,
        procs: 65_535,
        output: 16_777_216,
    };
    let mut journal = Journal::new(rt.alloc(), Some(head));
    journal.reserve(3).expect(&rt, "memory");
    assert!(&rt; journal.spare() >= 3, "no room");
    journal
        .push(Event::Turn { p: 2, n: 2 })
        .expect(&rt, "memory");
    journal
        .push(Event::Turn { p: 2, n: 3 })
        .expect(&rt, "memory");
    journal
        .push(Event::EndOk {
            p: 2,
            text: Some(Short::new(b"x")),
        })
        .expect(&rt, "memory");
    journal
        .push(Event::Stopped { stop: Stop::Done })
        .expect(&rt, "memory");
    assert_eq!(&rt; journal.events().len(), 3);
    let mut text = Vec::new(rt.alloc());
    write_journal(rt.alloc(), &journal, &mut text).expect(&rt, "memory");
    let want = b"qlisp 2 2000000 1000000 65535 16777216\nturn 2 5\nend 2 ok x\nstop done\n";
    assert!(&rt; text.as_slice() == want.as_slice(), "another text");
}

#[test]
fn writes_line_by_line(rt: HostRuntime) {
    let journal = match read_journal(rt.alloc(), HANDED) {
        Ok(journal) => journal,
        Err(_) => panic!(&rt; "not read"),
    };
    let mut with = Vec::from_slice(rt.alloc(), b"qlisp 2 2000000 1000000 65535 16777216\n").expect(
        &rt, "memory",
    );
    let mut without = Vec::new(rt.alloc());
    for event in journal.events() {
        write_line(rt.alloc(), event, true, &mut with).expect(&rt, "memory");
        write_line(rt.alloc(), event, false, &mut without).expect(&rt, "memory");
    }
    assert!(&rt; with.as_slice() == HANDED, "another text");
    let plain =
        b"turn 1 4\nspawn 1 2 0 eager 1\nspawn 1 3 0 call 2\nsend 1 1 1\ntake 2 1 1\nturn 2 5\nreply 2 1 1\nprotect 2 1\nbegin 2 1\nfinish 2 1\nend 3 ok\nend 1 ok\nstop error incleanup 1 18446744073709551615\n";
    assert!(&rt; without.as_slice() == plain.as_slice(), "another text");
}

#[test]
fn reads_a_line_by_itself(rt: HostRuntime) {
    assert_eq!(&rt;
        read_turn(b"turn 7 18446744073709551615"),
        Some((Pid(7), u64::MAX))
    );
    let others: [&[u8]; 7] = [
        b"",
        b"turn 7 0",
        b"turn 7 18446744073709551616",
        b"turn 4294967296 1",
        b"turn 7 1\n",
        b"turn 07 1",
        b"take 7 1 1",
    ];
    for line in others {
        assert!(&rt; read_turn(line).is_none(), "no turn line");
    }
    let head = Head {
        budget: 1,
        cells: 0,
        procs: u64::MAX,
        output: 4,
    };
    assert_eq!(&rt;
        read_head(b"qlisp 2 1 0 18446744073709551615 4"),
        Some(head)
    );
    let others: [&[u8]; 3] = [b"qlisp 1 1 0 3 4", b"qlisp 2 1 0 3", b"qlisp 2 1 0 3 4 "];
    for line in others {
        assert!(&rt; read_head(line).is_none(), "no head line");
    }
}
