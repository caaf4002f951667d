//! The line that is written of a status.

ghost use Rattle.std.specs.Prelude.{◌≡◌, ◌++◌, OnOk, OnErr};
ghost use Rattle.ql_base.specs.Outside.{HasRisen, Appends, AppendsFront};
ghost use Rattle.ql_top.specs.ErrorLine.{error_line, joined};

use crate::status::Status;
use crate::texts::{fault_name, limit_name, refusal_name};
use crate::writing::write_text;
use itoa::Buffer;
use ql_base::outside::{Failed, Sink};

/// Writes the line of a status, and nothing where it is done. It takes no memory.
pub fn write_error_line<E: Sink>(err: &mut E, status: Status) -> Result<(), Failed>
    ensures whole { OnOk result (Appends (error_line status) (E.held err.old) (E.held err.new)) }
    ensures kept { OnOk result (E.faults err.new ≡ E.faults err.old) }
    ensures front { OnErr result (AppendsFront (error_line status) (E.held err.old) (E.held err.new)) }
    ensures failed { OnErr result (HasRisen (E.faults err.old) (E.faults err.new)) }
    ensures quiet { status ≡ Status.Done → (E.held err.new ≡ E.held err.old) × (E.faults err.new ≡ E.faults err.old) }
{
    let mut digits = Buffer::new();
    let mut more_digits = Buffer::new();
    match status {
        Status::Done => Ok(()),
        Status::Refused { kind, at } => {
            let at = digits.format(at).as_bytes();
            write_parts(
                err,
                &[b"ql: refused ", refusal_name(kind), b" at ", at, b"\n"],
            )
        }
        Status::Words => write_text(err, b"ql: bad words\n"),
        Status::Fault { kind, proc, at } => {
            let proc = digits.format(proc.0).as_bytes();
            let at = more_digits.format(at).as_bytes();
            write_parts(
                err,
                &[
                    b"ql: error ",
                    fault_name(kind),
                    b" in ",
                    proc,
                    b" at ",
                    at,
                    b"\n",
                ],
            )
        }
        Status::Budget => write_text(err, b"ql: budget spent\n"),
        Status::Deadlock => write_text(err, b"ql: deadlock\n"),
        Status::Limit { kind } => write_parts(err, &[b"ql: limit ", limit_name(kind), b"\n"]),
        Status::NoMemory => write_text(err, b"ql: no memory\n"),
        Status::ReadFault => write_text(err, b"ql: read fault\n"),
        Status::WriteFault => write_text(err, b"ql: write fault\n"),
        Status::Differs { line } => {
            let line = digits.format(line).as_bytes();
            write_parts(err, &[b"ql: differs at line ", line, b"\n"])
        }
    }
}

// Writes texts one after another, until a call fails.
fn write_parts<E: Sink>(err: &mut E, parts: &[&[u8]]) -> Result<(), Failed>
    ensures whole { OnOk result (Appends (joined parts.now) (E.held err.old) (E.held err.new)) }
    ensures kept { OnOk result (E.faults err.new ≡ E.faults err.old) }
    ensures front { OnErr result (AppendsFront (joined parts.now) (E.held err.old) (E.held err.new)) }
    ensures failed { OnErr result (HasRisen (E.faults err.old) (E.faults err.new)) }
{
    'parts: for part in parts {
        match write_text(err, part) {
            Ok(()) => {}
            Err(Failed) => return Err(Failed),
        }
    }
    Ok(())
}
