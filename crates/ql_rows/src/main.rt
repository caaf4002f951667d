//! Answers each text of its input, a line of it, with the first fault of the text or the program that
//! it expands to. What it must write was made by a slow program that knows nothing of this one.
#![tactic(auto)]

ghost use Rattle.ql_expand.specs.ProgramView.{program_of};
ghost use Rattle.ql_scope.specs.Scoped.{IsExpanded};

mod dump;

use dump::Dump;
use ql_base::names::Names;
use ql_expand::expand::{ExpandRefusal, expand};
use ql_expand::program::Program;
use ql_forms::text::Text;
use ql_read::reader::{ReadRefusal, Reader};
use ql_scope::check::{ScopeRefusal, check};
use ql_scope::scoped::Scoped;
use std::alloc::{AllocError, Global};
use std::io::{self, Read, Write};

/// The names of the kinds of faults, from kind 1 on. No kind has the number 16.
const KINDS: [&str; 18] = [
    "badbyte",
    "strayclose",
    "baddot",
    "badnumber",
    "longname",
    "toodeep",
    "toolong",
    "unfinished",
    "badshape",
    "badtop",
    "reservedname",
    "unbound",
    "nofunction",
    "twice",
    "wrongcount",
    "none",
    "shadow",
    "toomany",
];

fn main(rt: HostRuntime) -> io::Result<()> {
    let alloc = rt.alloc();
    let mut input = Vec::new(alloc);
    rt.stdin().read_to_end(&mut input)?;
    let mut output = Vec::new(alloc);
    for line in input.as_slice().split(|byte| *byte == b'\n') {
        let text = text_of(alloc, line)?;
        let answer = answer(alloc, text.as_slice())?;
        output.extend_from_slice(answer.as_slice())?;
        output.push(b'\n')?;
    }
    // The last line is an empty one.
    output.pop();
    rt.stdout().write_all(output.as_slice())
}

/// How far a byte that is written by two digits has come.
#[derive(Clone, Copy)]
enum Escape {
    None,
    /// After the backslash.
    Begun,
    /// After the first digit, of this value.
    Half(u8),
}

/// The bytes of a line, in which a backslash and two hexadecimal digits are a byte.
fn text_of(alloc: Global, line: &[u8]) -> Result<Vec<u8>, AllocError> {
    let mut text = Vec::new(alloc);
    let mut escape = Escape::None;
    for byte in line {
        match escape {
            Escape::None if *byte == b'\\' => escape = Escape::Begun,
            Escape::None => text.push(*byte)?,
            Escape::Begun => escape = Escape::Half(digit(*byte)),
            Escape::Half(high) => {
                text.push(high.wrapping_mul(16).wrapping_add(digit(*byte)))?;
                escape = Escape::None;
            }
        }
    }
    Ok(text)
}

/// The value of a hexadecimal digit.
fn digit(byte: u8) -> u8 {
    match byte {
        b'0'..=b'9' => byte - b'0',
        b'a'..=b'f' => byte - b'a' + 10,
        _ => 0,
    }
}

fn refused(alloc: Global, kind: u8, at: u64) -> Result<Vec<u8>, AllocError> {
    let place = usize::from(kind).saturating_sub(1);
    let name = KINDS.get(place).copied().unwrap_or("nothing");
    let line = format!(in alloc; "refused {name} at {at}")?;
    Vec::from_slice(alloc, line.as_bytes())
}

/// What is said of a text.
fn answer(alloc: Global, bytes: &[u8]) -> Result<Vec<u8>, AllocError> {
    match read(alloc, bytes) {
        Ok(text) => answer_text(alloc, &text),
        Err(ReadRefusal::Bad { kind, at }) => refused(alloc, kind, at),
        Err(ReadRefusal::Memory(cause)) => Err(cause),
    }
}

/// The text of these bytes, which are given one at a time.
fn read(alloc: Global, bytes: &[u8]) -> Result<Text, ReadRefusal> {
    let mut reader = Reader::new(alloc).map_err(ReadRefusal::Memory)?;
    for piece in bytes.chunks(1) {
        if reader.feed(piece).is_err() {
            // A reader keeps its refusal.
            return reader.finish();
        }
    }
    reader.finish()
}

fn answer_text(alloc: Global, text: &Text) -> Result<Vec<u8>, AllocError> {
    match expand(alloc, text) {
        Ok(program) => answer_program(alloc, &text.names, program),
        Err(ExpandRefusal::Bad { kind, at }) => refused(alloc, kind, at),
        Err(ExpandRefusal::Memory(cause)) => Err(cause),
    }
}

fn answer_program(alloc: Global, names: &Names, program: Program) -> Result<Vec<u8>, AllocError>
    requires { IsExpanded (program_of program) program.names }
{
    let plain = dump_of(alloc, names, None, &program)?;
    match check(alloc, program) {
        Ok(scoped) => dump_of(alloc, names, Some(&scoped), scoped.program()),
        Err(ScopeRefusal::Bad { kind, at }) => {
            let mut line = refused(alloc, kind, at)?;
            line.extend_from_slice(b": ")?;
            line.extend_from_slice(plain.as_slice())?;
            Ok(line)
        }
        Err(ScopeRefusal::Memory(cause)) => Err(cause),
    }
}

fn dump_of(
    alloc: Global,
    names: &Names,
    scoped: Option<&Scoped>,
    program: &Program,
) -> Result<Vec<u8>, AllocError> {
    let mut dump = Dump {
        alloc,
        names,
        scoped,
        to: Vec::new(alloc),
    };
    dump.put_program(program)?;
    let Dump { to, .. } = dump;
    Ok(to)
}
