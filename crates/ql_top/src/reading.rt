//! A whole source is read.

ghost use Rattle.std.specs.Prelude.{◌≤◌, ◌<◌, ℕ, List, [], Option, length};
ghost use Rattle.ql_read.specs.TextFault.{NoFaultIn};
ghost use Rattle.ql_read.specs.Told.{HasTaken, taken_of};
ghost use Rattle.ql_top.specs.Reading.{HasRead, IsAtEnd, AfterPiece, AfterCount, AfterFaults, EndsReading, EndsFeeding, FaultsOfReading};

use crate::status::Status;
use ql_base::outside::{Failed, Source};
use ql_forms::text::Text;
use ql_read::reader::{ReadRefusal, Reader};
use std::alloc::Global;

// What one call of the source gave.
#[derive(Clone, Copy, Debug, PartialEq, Eq)]
enum Piece {
    More,
    End,
    Stops(Status),
}

/// Reads the source to its end by calls with a buffer of 4,096 bytes, each piece fed at once. The
/// first refusal ends it, and so does a failed call, which isn't tried again.
pub fn read_text<S: Source>(alloc: Global, source: &mut S) -> Result<Text, Status>
    ensures bytes { EndsReading result (S.left source.old) (S.left source.new) }
    ensures faults { FaultsOfReading result (S.faults source.old) (S.faults source.new) }
{
    let Ok(mut reader) = Reader::new(alloc) else {
        return Err(Status::NoMemory);
    };
    match feed_all(source, &mut reader) {
        Ok(()) => whole_text(reader),
        Err(status) => Err(status),
    }
}

// The text of all the bytes that the reader has taken.
fn whole_text(reader: Reader) -> Result<Text, Status>
    ensures bytes { (old new : Option (List ℕ)) → HasRead reader old new → IsAtEnd new → EndsReading result old new }
    ensures faults { (count : ℕ) → FaultsOfReading result count count }
{
    match reader.finish() {
        Ok(text) => Ok(text),
        Err(ReadRefusal::Bad { kind, at }) => Err(Status::Refused { kind, at }),
        Err(ReadRefusal::Memory(_)) => Err(Status::NoMemory),
    }
}

// Feeds the reader until the end of the source, if no refusal or fault comes before.
fn feed_all<S: Source>(source: &mut S, reader: &mut Reader) -> Result<(), Status>
    requires fresh { HasTaken reader.old [] }
    requires none_at_fault { NoFaultIn [] }
    requires few { taken_of reader.old ≤ 1048576 }
    ensures bytes { EndsFeeding result reader.new (S.left source.old) (S.left source.new) }
    ensures faults { FaultsOfReading result (S.faults source.old) (S.faults source.new) }
{
    let mut buf = [0; 4096];
    'pieces: loop {
        match take_piece(source, reader, &mut buf) {
            Piece::More => {}
            Piece::End => return Ok(()),
            Piece::Stops(status) => return Err(status),
        }
    }
}

// One call of the source, and what it gave is fed.
fn take_piece<S: Source>(source: &mut S, reader: &mut Reader, buf: &mut [u8]) -> Piece
    requires room { (0 < length buf.old) × (length buf.old ≤ 4096) }
    ensures bytes { (start : Option (List ℕ)) → HasRead reader.old start (S.left source.old) → AfterPiece result reader.new start (S.left source.new) }
    ensures count { AfterCount result (taken_of reader.old) (taken_of reader.new) }
    ensures faults { AfterFaults result (S.faults source.old) (S.faults source.new) }
{
    let n = match source.read(buf) {
        Ok(n) => n,
        Err(Failed) => return Piece::Stops(Status::ReadFault),
    };
    if n == 0 {
        return Piece::End;
    }
    match reader.feed(&buf[..n]) {
        Ok(()) => Piece::More,
        Err(ReadRefusal::Bad { kind, at }) => Piece::Stops(Status::Refused { kind, at }),
        Err(ReadRefusal::Memory(_)) => Piece::Stops(Status::NoMemory),
    }
}
