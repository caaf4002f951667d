//! The span of a journal, as a command.

ghost use Rattle.std.specs.Prelude.{◌≡◌, ◌≤◌, ℕ, [], Some, length, IfOk};
ghost use Rattle.ql_replay.specs.Following.{feeds};
ghost use Rattle.ql_top.specs.Acts.{SpansSome};
ghost use Rattle.ql_top.specs.Book.{most};
ghost use Rattle.ql_top.specs.Reading.{RisesBy};
ghost use Rattle.ql_top.specs.Span.{AnswersSpan, Finds, IsSpanText};
ghost use Rattle.ql_top.specs.Top.{IsSilent, WriteFaults};

use crate::book::read_book;
use crate::status::Status;
use crate::writing::write_output;
use ql_base::outside::{Sink, Source};
use ql_journal::journal::Journal;
use ql_journal::laws::one_verdict;
use ql_journal::read::{JournalRefusal, read_journal};
use ql_span::spans::span;
use ql_span::write::write_span;
use std::alloc::{AllocError, Global};

/// Reads a book, and writes the work, the span and a heaviest chain of the journal that it spells.
pub fn answer_span<B: Source, O: Sink>(alloc: Global, book: &mut B, out: &mut O) -> Status
    ensures answer { SpansSome result (B.left book.old) (B.left book.new) (O.held out.old) (O.held out.new) }
    ensures words { result ≡ Status.Words → ⊥ }
    ensures read_faults { RisesBy result (B.faults book.old) (B.faults book.new) }
    ensures write_faults { (count : ℕ) → WriteFaults result (O.faults out.old) (O.faults out.new) count count }
    ensures silent { IsSilent result → O.held out.new ≡ O.held out.old }
{
    match read_book(alloc, book) {
        Ok(bytes) => show_span(alloc, bytes.as_slice(), out),
        Err(status) => status,
    }
}

/// Writes the span of the journal that these bytes spell, which are a whole book.
fn show_span<O: Sink>(alloc: Global, bytes: &[u8], out: &mut O) -> Status
    requires few { length bytes.now ≤ most }
    ensures answer { AnswersSpan result bytes.now (Some []) (O.held out.old) (O.held out.new) }
    ensures write_faults { (count : ℕ) → WriteFaults result (O.faults out.old) (O.faults out.new) count count }
    ensures silent { IsSilent result → O.held out.new ≡ O.held out.old }
    ensures words { result ≡ Status.Words → ⊥ }
    ensures read { result ≡ Status.ReadFault → ⊥ }
{
    match lines_of(alloc, bytes) {
        Ok(lines) => write_output(out, lines.as_slice()),
        Err(status) => status,
    }
}

/// The lines that tell the span of the journal that these bytes spell, or what is wrong with them.
fn lines_of(alloc: Global, bytes: &[u8]) -> Result<Vec<u8>, Status>
    requires few { length bytes.now ≤ most }
    ensures { Finds result bytes.now }
{
    // A fact that the clause rests on; the call does nothing.
    one_verdict();
    match read_journal(alloc, bytes) {
        Ok(journal) => match span_lines(alloc, &journal) {
            Ok(lines) => Ok(lines),
            Err(_) => Err(Status::NoMemory),
        },
        Err(JournalRefusal::BadLine { line }) => Err(Status::Refused { kind: 20, at: line }),
        Err(JournalRefusal::NoStop) => Err(Status::Refused {
            kind: 21,
            at: count_feeds(bytes),
        }),
        Err(JournalRefusal::Memory(_)) => Err(Status::NoMemory),
    }
}

/// The lines that tell the span of a journal.
fn span_lines(alloc: Global, journal: &Journal) -> Result<Vec<u8>, AllocError>
    ensures { IfOk result (λ lines. IsSpanText journal.now.journal lines.items) }
{
    let span = span(alloc, journal)?;
    let mut lines = Vec::new(alloc);
    write_span(alloc, &span, &mut lines)?;
    Ok(lines)
}

/// How many of the bytes are line feeds.
fn count_feeds(bytes: &[u8]) -> u64
    ensures { result ≡ feeds bytes.now }
{
    let mut count = 0;
    'bytes: for b in bytes {
        if *b == b'\n' {
            count += 1;
        }
    }
    count
}
