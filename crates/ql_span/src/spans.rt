//! The span of a journal.

ghost use Rattle.std.specs.Prelude.{◌≡◌, ◌≤◌, IfOk};
ghost use Rattle.ql_span.specs.Chain.{IsSpan, IsSpanOf, first_line};

use crate::answer::Span;
use crate::keeper::{chain_of, walk};
use crate::marks::marks_of;
use ql_journal::journal::Journal;
use ql_world::event::Event;
use std::alloc::{AllocError, Global};

/// Work, span and the heaviest chain of a journal, whether or not a program wrote it.
pub fn span(alloc: Global, journal: &Journal) -> Result<Span, AllocError>
    ensures { IfOk result (λ s. IsSpanOf journal.now.journal s) }
{
    span_from(alloc, first_line(journal), journal.events())
}

/// The line of the first event.
fn first_line(journal: &Journal) -> u64
    ensures { result ≡ first_line journal.now.journal }
{
    match journal.head() {
        None => 1,
        Some(_) => 2,
    }
}

/// The same of events that stand from line `first` on.
fn span_from(alloc: Global, first: u64, events: &[Event]) -> Result<Span, AllocError>
    requires low { 1 ≤ first }
    requires high { first ≤ 2 }
    ensures { IfOk result (λ s. IsSpan first events.now s.work s.span s.chain) }
{
    let marks = marks_of(alloc, events)?;
    let keeper = walk(alloc, first, &marks)?;
    let chain = chain_of(alloc, &keeper.links, keeper.top.place)?;
    Ok(Span {
        work: keeper.work,
        span: keeper.top.weight,
        chain,
    })
}
