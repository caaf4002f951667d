//! Whole calls, compared with texts from outside.

ghost use Rattle.std.specs.Prelude.{◌≤◌, None};

use super::*;
use crate::status::code_of;
use ql_base::fault::RunFault;
use ql_base::memory::{MemSink, MemSource};
use ql_base::numbers::Pid;
use ql_base::sure::{SureSink, SureSource};
use ql_vectors::vector::vectors;
use std::process::Abort;

/// A call, and what must come of it.
struct Case {
    name: &'static str,
    words: &'static [&'static str],
    source: &'static [u8],
    status: Status,
    out: &'static [u8],
    journal: &'static [u8],
    err: &'static [u8],
}

const CASES: &[Case] = &[
    Case {
        name: "an unbound variable",
        words: &["run"],
        source: b"(print x)",
        status: Status::Refused { kind: 12, at: 7 },
        out: b"",
        journal: b"",
        err: b"ql: refused unbound at 7\n",
    },
    Case {
        name: "show of a dotted list",
        words: &["show"],
        source: b"(print '(a . (b . (c . 4)))) () +1 007",
        status: Status::Done,
        out: b"(print (quote (a b c . 4)))\nnil\n1\n7\n",
        journal: b"",
        err: b"",
    },
    Case {
        name: "check",
        words: &["check"],
        source: b"(print '(a . (b)))",
        status: Status::Done,
        out: b"ok\n",
        journal: b"",
        err: b"",
    },
    Case {
        name: "list of a call",
        words: &["list"],
        source: b"(defun twice (n) (+ n n)) (print (twice 3))",
        status: Status::Done,
        out: b"0 lit 3 @40\n1 call 5 1 0 @33\n2 print @26\n3 drop @26\n4 end @0\n5 local 0 @20\n6 local 0 @22\n7 prim + @17\n8 return @0\n",
        journal: b"",
        err: b"",
    },
    Case {
        name: "words too many",
        words: &["run", "show"],
        source: b"1",
        status: Status::Words,
        out: b"",
        journal: b"",
        err: b"ql: bad words\n",
    },
    Case {
        name: "a policy that there isn't",
        words: &["run", "--policy", "oldest"],
        source: b"1",
        status: Status::Words,
        out: b"",
        journal: b"",
        err: b"ql: bad words\n",
    },
    Case {
        name: "a size of nothing",
        words: &["gen", "1", "0"],
        source: b"1",
        status: Status::Words,
        out: b"",
        journal: b"",
        err: b"ql: bad words\n",
    },
    Case {
        name: "a generated source",
        words: &["gen", "0", "1"],
        source: b")",
        status: Status::Done,
        out: b"(defvar total 0)\n(defvar acc (qlambda t (n) (setq total (+ total n))))\n(defun fib (n) (if (< n 2) n (+ (fib (- n 1)) (fib (- n 2)))))\n(funcall acc (let ((a 1)) a))\n(print total)\n",
        journal: b"",
        err: b"",
    },
    Case {
        name: "show of a quote mark and a name of 64 bytes",
        words: &["show"],
        source: b"'aaaaaaaaaaaaaaaaaaaaaaaaaaaaaaaaaaaaaaaaaaaaaaaaaaaaaaaaaaaaaaaa",
        status: Status::Done,
        out: b"(quote aaaaaaaaaaaaaaaaaaaaaaaaaaaaaaaaaaaaaaaaaaaaaaaaaaaaaaaaaaaaaaaa)\n",
        journal: b"",
        err: b"",
    },
];

/// Whole runs.
const RUNS: &[Case] = &[
    Case {
        name: "sum",
        words: &["run"],
        source: b"(print (+ 1 2))",
        status: Status::Done,
        out: b"3\n",
        journal: b"qlisp 2 2000000 1000000 65535 16777216\nturn 1 5\nexit 1 0\nend 1 ok\nstop done\n",
        err: b"",
    },
    Case {
        name: "sum overflows",
        words: &["run"],
        source: b"(print (+ 9223372036854775807 1))",
        status: Status::Fault {
            kind: RunFault::Overflow,
            proc: Pid(1),
            at: 7,
        },
        out: b"",
        journal: b"qlisp 2 2000000 1000000 65535 16777216\nturn 1 3\nstop error overflow 1 7\n",
        err: b"ql: error overflow in 1 at 7\n",
    },
    Case {
        name: "a tick too few",
        words: &["run", "--budget", "4", "--cells", "9"],
        source: b"(print (+ 1 2))",
        status: Status::Budget,
        out: b"3\n",
        journal: b"qlisp 2 4 9 65535 16777216\nturn 1 4\nstop budget\n",
        err: b"ql: budget spent\n",
    },
    Case {
        name: "the newest first, two ticks each",
        words: &["run", "--quantum", "2", "--policy", "new", "--workers", "2"],
        source: b"(qlet 'eager ((x (throw 'no 1))) (print 2))",
        status: Status::Fault {
            kind: RunFault::NoCatch,
            proc: Pid(2),
            at: 17,
        },
        out: b"",
        journal: b"qlisp 2 2000000 1000000 65535 16777216\nturn 1 2\nspawn 1 2 0 let\nturn 2 3\nstop error nocatch 2 17\n",
        err: b"ql: error nocatch in 2 at 17\n",
    },
    Case {
        name: "a trial, which reads no source",
        words: &["trial", "0", "1"],
        source: b")",
        status: Status::Done,
        out: b"1\ntrial 0 1 done\n",
        journal: b"qlisp 2 2000000 1000000 65535 16777216\nturn 1 4\nspawn 1 2 0 call 1\nturn 1 6\nsend 1 1 1\nturn 2 1\ntake 2 1 1\nturn 2 5\nreply 2 1 1 1\nturn 1 4\nexit 1 0\nkill 0 2\nend 1 ok\nturn 2 1\nend 2 killed\nstop done\n",
        err: b"",
    },
];

/// Makes the call of a case with ends that give and take so many bytes a call.
fn check(
    rt: &(impl AllocGlobal + Abort),
    case: &Case,
    piece: usize,
    told: bool,
) -> Result<(), AllocError>
    requires { 1 ≤ piece }
{
    let alloc = rt.alloc();
    let bytes = Vec::from_slice(alloc, case.source)?;
    let mut source = MemSource::new(bytes, piece, Vec::new(alloc));
    let mut book = SureSource::new(Vec::new(alloc));
    let mut out = MemSink::new(alloc, 1000, piece, Vec::new(alloc))?;
    let mut journal = MemSink::new(alloc, 1000, piece, Vec::new(alloc))?;
    let mut err = MemSink::new(alloc, 1000, piece, Vec::new(alloc))?;
    let ended = one(
        alloc,
        case.words,
        &mut source,
        &mut book,
        &mut out,
        &mut journal,
        &mut err,
    );
    let name = case.name;
    assert_eq!(rt; ended.status, case.status, "{name}");
    assert_eq!(rt; ended.told.is_some(), told, "{name}");
    assert_eq!(rt; out.bytes(), case.out, "{name}");
    assert_eq!(rt; journal.bytes(), case.journal, "{name}");
    assert_eq!(rt; err.bytes(), case.err, "{name}");
    Ok(())
}

#[test]
fn calls_answer_as_told(rt: HostRuntime) -> Result<(), AllocError> {
    for case in CASES {
        check(&rt, case, 1000, false)?;
        check(&rt, case, 1, false)?;
    }
    Ok(())
}

#[test]
fn runs_answer_as_told(rt: HostRuntime) -> Result<(), AllocError> {
    for case in RUNS {
        check(&rt, case, 1000, true)?;
        check(&rt, case, 1, true)?;
    }
    Ok(())
}

#[test]
fn the_vectors_run_as_they_say(rt: HostRuntime) -> Result<(), AllocError> {
    let alloc = rt.alloc();
    for vector in vectors() {
        let bytes = Vec::from_slice(alloc, vector.source)?;
        let mut source = MemSource::new(bytes, 1000, Vec::new(alloc));
        let mut book = SureSource::new(Vec::new(alloc));
        let mut out = MemSink::new(alloc, 1000, 1000, Vec::new(alloc))?;
        let mut err = MemSink::new(alloc, 100, 100, Vec::new(alloc))?;
        let ended = one(
            alloc,
            &["run"],
            &mut source,
            &mut book,
            &mut out,
            &mut SureSink::new(),
            &mut err,
        );
        let name = vector.name;
        assert_eq!(&rt; code_of(&ended.status), vector.code, "{name}");
        assert_eq!(&rt; out.bytes(), vector.output, "{name}");
    }
    Ok(())
}

/// A call of `check` whose source and out fail at these calls.
fn fails(
    rt: &(impl AllocGlobal + Abort),
    source_fails: u64,
    out_fails: u64,
    status: Status,
) -> Result<(), AllocError> {
    let alloc = rt.alloc();
    let bytes = Vec::from_slice(alloc, b"(print (+ 1 2))")?;
    let mut source = MemSource::new(bytes, 1000, Vec::from_slice(alloc, &[source_fails])?);
    let mut book = SureSource::new(Vec::new(alloc));
    let mut out = MemSink::new(alloc, 1000, 1, Vec::from_slice(alloc, &[out_fails])?)?;
    let mut journal = MemSink::new(alloc, 1000, 1, Vec::new(alloc))?;
    let mut err = MemSink::new(alloc, 1000, 1000, Vec::new(alloc))?;
    let ended = one(
        alloc,
        &["check"],
        &mut source,
        &mut book,
        &mut out,
        &mut journal,
        &mut err,
    );
    assert_eq!(rt; ended.status, status);
    if source_fails > 0 {
        assert_eq!(rt; out.bytes(), b"".as_slice());
        assert_eq!(rt; err.bytes(), b"ql: read fault\n".as_slice());
    } else {
        assert_eq!(rt; out.bytes(), b"o".as_slice());
        assert_eq!(rt; err.bytes(), b"ql: write fault\n".as_slice());
    }
    Ok(())
}

#[test]
fn failing_ends_are_told(rt: HostRuntime) -> Result<(), AllocError> {
    fails(&rt, 1, 0, Status::ReadFault)?;
    fails(&rt, 2, 0, Status::ReadFault)?;
    fails(&rt, 0, 2, Status::WriteFault)
}

/// A call that reads a book, and what must come of it.
struct Reading {
    name: &'static str,
    words: &'static [&'static str],
    source: &'static [u8],
    book: &'static [u8],
    status: Status,
    out: &'static [u8],
    err: &'static [u8],
}

/// The journal of `(print (+ 1 2))`, in both versions.
const SUM: &[u8] =
    b"qlisp 2 2000000 1000000 65535 16777216\nturn 1 5\nexit 1 0\nend 1 ok\nstop done\n";

const PLAIN_SUM: &[u8] = b"turn 1 5\nexit 1 0\nend 1 ok\nstop done\n";

const BOOKS: &[Reading] = &[
    Reading {
        name: "its own journal",
        words: &["replay"],
        source: b"(print (+ 1 2))",
        book: SUM,
        status: Status::Done,
        out: b"3\n",
        err: b"",
    },
    Reading {
        name: "its own journal, of version 1",
        words: &["replay"],
        source: b"(print (+ 1 2))",
        book: PLAIN_SUM,
        status: Status::Done,
        out: b"3\n",
        err: b"",
    },
    Reading {
        name: "another stop",
        words: &["replay"],
        source: b"(print (+ 1 2))",
        book: b"turn 1 5\nexit 1 0\nend 1 ok\nstop budget\n",
        status: Status::Differs { line: 4 },
        out: b"",
        err: b"ql: differs at line 4\n",
    },
    Reading {
        name: "a shorter turn, where nobody else can step",
        words: &["replay"],
        source: b"(print (+ 1 2))",
        book: b"turn 1 4\nexit 1 0\nend 1 ok\nstop done\n",
        status: Status::Differs { line: 1 },
        out: b"",
        err: b"ql: differs at line 1\n",
    },
    Reading {
        name: "an empty book",
        words: &["replay"],
        source: b"(print (+ 1 2))",
        book: b"",
        status: Status::Differs { line: 1 },
        out: b"",
        err: b"ql: differs at line 1\n",
    },
    Reading {
        name: "a book without its stop line",
        words: &["replay"],
        source: b"(print (+ 1 2))",
        book: b"turn 1 5\nexit 1 0\nend 1 ok\n",
        status: Status::Differs { line: 4 },
        out: b"",
        err: b"ql: differs at line 4\n",
    },
    Reading {
        name: "a source that is refused, whose book isn't read",
        words: &["replay"],
        source: b"(print x)",
        book: PLAIN_SUM,
        status: Status::Refused { kind: 12, at: 7 },
        out: b"",
        err: b"ql: refused unbound at 7\n",
    },
    Reading {
        name: "the span of a sum",
        words: &["span"],
        source: b"",
        book: PLAIN_SUM,
        status: Status::Done,
        out: b"work 5\nspan 5\nchain 1\n",
        err: b"",
    },
    Reading {
        name: "the span of a stop",
        words: &["span"],
        source: b"",
        book: b"stop deadlock\n",
        status: Status::Done,
        out: b"work 0\nspan 0\nchain\n",
        err: b"",
    },
    Reading {
        name: "a turn of no ticks",
        words: &["span"],
        source: b"",
        book: b"turn 1 0\n",
        status: Status::Refused { kind: 20, at: 1 },
        out: b"",
        err: b"ql: refused badline at 1\n",
    },
    Reading {
        name: "no stop line",
        words: &["span"],
        source: b"",
        book: b"turn 1 5\nexit 1 0\n",
        status: Status::Refused { kind: 21, at: 2 },
        out: b"",
        err: b"ql: refused nostop at 2\n",
    },
];

/// Makes the call of a reading with ends that give and take so many bytes a call.
fn read(rt: &(impl AllocGlobal + Abort), case: &Reading, piece: usize) -> Result<(), AllocError>
    requires { 1 ≤ piece }
{
    let alloc = rt.alloc();
    let bytes = Vec::from_slice(alloc, case.source)?;
    let mut source = MemSource::new(bytes, piece, Vec::new(alloc));
    let lines = Vec::from_slice(alloc, case.book)?;
    let mut book = MemSource::new(lines, piece, Vec::new(alloc));
    let mut out = MemSink::new(alloc, 1000, piece, Vec::new(alloc))?;
    let mut journal = MemSink::new(alloc, 1000, piece, Vec::new(alloc))?;
    let mut err = MemSink::new(alloc, 1000, piece, Vec::new(alloc))?;
    let ended = one(
        alloc,
        case.words,
        &mut source,
        &mut book,
        &mut out,
        &mut journal,
        &mut err,
    );
    let name = case.name;
    assert_eq!(rt; ended.status, case.status, "{name}");
    assert_eq!(rt; out.bytes(), case.out, "{name}");
    assert_eq!(rt; journal.bytes(), b"".as_slice(), "{name}");
    assert_eq!(rt; err.bytes(), case.err, "{name}");
    Ok(())
}

#[test]
fn books_are_answered_as_told(rt: HostRuntime) -> Result<(), AllocError> {
    for case in BOOKS {
        read(&rt, case, 1000)?;
        read(&rt, case, 1)?;
    }
    Ok(())
}

/// Blanks without an end.
#[derive(Drop)]
struct Blanks;

impl Source for Blanks {
    ghost left = { λ s. None };

    ghost faults = { λ s. 0 };

    fn read(&mut self, buf: &mut [u8]) -> Result<usize, Failed> {
        buf.fill(b' ');
        Ok(buf.len())
    }
}

#[test]
fn an_endless_source_ends(rt: HostRuntime) -> Result<(), AllocError> {
    let alloc = rt.alloc();
    let mut book = SureSource::new(Vec::new(alloc));
    let mut out = MemSink::new(alloc, 10, 10, Vec::new(alloc))?;
    let mut journal = MemSink::new(alloc, 10, 10, Vec::new(alloc))?;
    let mut err = MemSink::new(alloc, 100, 100, Vec::new(alloc))?;
    let ended = one(
        alloc,
        &["run"],
        &mut Blanks,
        &mut book,
        &mut out,
        &mut journal,
        &mut err,
    );
    assert_eq!(rt;
        ended.status,
        Status::Refused {
            kind: 7,
            at: 1_048_576
        }
    );
    assert_eq!(rt; err.bytes(), b"ql: refused toolong at 1048576\n".as_slice());
    Ok(())
}
