//! A whole book is read.

ghost use Rattle.std.specs.Prelude.{◌≡◌, ◌≤◌, ◌<◌, ℕ, List, Option, length, true, IfOk};
ghost use Rattle.ql_top.specs.Book.{most, AfterPart, EndsBook};
ghost use Rattle.ql_top.specs.Reading.{Takes, FaultsOfReading};

use crate::status::Status;
use ql_base::outside::{Failed, Source};
use std::alloc::Global;

/// The most bytes of a book that are held.
const MOST: usize = 67_108_864;

/// Reads the book to its end by calls with a buffer of 4,096 bytes, or until more than 64 MiB were taken, which is refused
/// by kind 22. A failed call ends it too, and isn't tried again.
pub fn read_book<B: Source>(alloc: Global, book: &mut B) -> Result<Vec<u8>, Status>
    ensures bytes { EndsBook result (B.left book.old) (B.left book.new) }
    ensures faults { FaultsOfReading result (B.faults book.old) (B.faults book.new) }
{
    let mut bytes = Vec::new(alloc);
    let mut buf = [0; 4096];
    'parts: loop {
        match take_part(book, &mut bytes, &mut buf) {
            Ok(true) => {}
            Ok(false) => return Ok(bytes),
            Err(status) => return Err(status),
        }
    }
}

// One call of the book, and what it gave is held. It tells whether that was something.
fn take_part<B: Source>(book: &mut B, bytes: &mut Vec<u8>, buf: &mut [u8]) -> Result<bool, Status>
    requires room { (0 < length buf.old) × (length buf.old ≤ 4096) }
    requires few { length bytes.old.items ≤ most }
    ensures bytes { (start : Option (List ℕ)) → Takes bytes.old.items start (B.left book.old) → AfterPart result bytes.new.items start (B.left book.new) }
    ensures grows { IfOk result (λ more. more ≡ true → length bytes.old.items < length bytes.new.items) }
    ensures faults { FaultsOfReading result (B.faults book.old) (B.faults book.new) }
{
    let n = match book.read(buf) {
        Ok(n) => n,
        Err(Failed) => return Err(Status::ReadFault),
    };
    if n == 0 {
        return Ok(false);
    }
    if bytes.extend_from_slice(&buf[..n]).is_err() {
        return Err(Status::NoMemory);
    }
    if bytes.len() > MOST {
        return Err(Status::Refused {
            kind: 22,
            at: 67_108_864,
        });
    }
    Ok(true)
}
