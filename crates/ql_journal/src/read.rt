//! The reader of journals.

ghost use Rattle.std.specs.Prelude.{◌≡◌, ◌⊎◌, ℕ, IfSome, None, Some};
ghost use Rattle.ql_world.specs.declared.event.Head.{Head as AnyHead};
ghost use Rattle.ql_journal.specs.Grammar.{Verdict, Judges, has_texts, head_lines};
ghost use Rattle.ql_journal.specs.Single.{IsTurnLine, IsHeadLine};
ghost use Rattle.ql_journal.specs.Verdicts.{verdict_of, JudgesEvents};

use crate::journal::Journal;
use crate::line::{head_in, head_of, id_and_count, next_event};
use crate::order::Before;
use ql_base::numbers::Pid;
use ql_world::event::Head;
use std::alloc::{AllocError, AllocFailed, Global};
use thiserror::Error;

/// Why a text was not read.
#[derive(Debug, Drop, Error)]
pub enum JournalRefusal {
    /// The first line outside the grammar, from 1.
    #[error("bad line {line}")]
    BadLine { line: u64 },
    /// All lines are in the grammar, and the last is no stop line.
    #[error("no stop line")]
    NoStop,
    #[error("out of memory")]
    Memory(AllocError),
}

impl<T: Drop> From<AllocFailed<T>> for JournalRefusal {
    ghost use Rattle.std.specs.Prelude.{◌≡◌, alloc_error};
    ghost use Rattle.ql_journal.specs.declared.read.JournalRefusal.TheVariants.{Memory};

    ghost from_gives = { λ _ e. e ≡ Memory alloc_error };

    fn from(_error: AllocFailed<T>) -> JournalRefusal {
        JournalRefusal::Memory(AllocError)
    }
}

/// The journal that the text spells, in either version. It is whole, that is, its last line, and no other, is a stop line.
pub fn read_journal(alloc: Global, bytes: &[u8]) -> Result<Journal, JournalRefusal>
    ensures judged { (v : Verdict) → verdict_of result ≡ Some v → Judges bytes.now v }
    ensures only { (v : Verdict) → Judges bytes.now v → (verdict_of result ≡ Some v) ⊎ (verdict_of result ≡ None) }
{
    match head_of(bytes) {
        Some((head, rest)) => read_events(alloc, Some(head), rest),
        None => read_events(alloc, None, bytes),
    }
}

/// The process and the ticks of a turn line, which is given without its line feed.
pub fn read_turn(line: &[u8]) -> Option<(Pid, u64)>
    ensures is { IfSome result (λ x. IsTurnLine line.now x.0.0 x.1) }
    ensures none { result ≡ None → (p n : ℕ) → ¬ IsTurnLine line.now p n }
{
    let (p, n) = id_and_count(line, b"turn")?;
    if n == 0 { None } else { Some((Pid(p), n)) }
}

/// The limits of a head line, which is given without its line feed.
pub fn read_head(line: &[u8]) -> Option<Head>
    ensures is { IfSome result (λ h. IsHeadLine line.now h) }
    ensures none { result ≡ None → (h : AnyHead) → ¬ IsHeadLine line.now h }
{
    head_in(line)
}

/// Whether a journal with this head has texts.
fn has_texts(head: Option<Head>) -> bool
    ensures { result ≡ has_texts head }
{
    match head {
        Some(_) => true,
        None => false,
    }
}

/// How many lines the head takes.
fn head_lines(head: Option<Head>) -> u64
    ensures { result ≡ head_lines head }
{
    match head {
        Some(_) => 1,
        None => 0,
    }
}

/// The events of the text behind the head.
fn read_events(alloc: Global, head: Option<Head>, text: &[u8]) -> Result<Journal, JournalRefusal>
    ensures { (v : Verdict) → verdict_of result ≡ Some v → JudgesEvents head text.now v }
{
    let texts = has_texts(head);
    let mut events = Vec::new(alloc);
    let mut before = Before::Other;
    let mut line = head_lines(head);
    let mut rest = text;
    'lines: while !rest.is_empty() {
        line += 1;
        let Some((event, others)) = next_event(texts, before, rest) else {
            return Err(JournalRefusal::BadLine { line });
        };
        before = Before::of(&event);
        events.push(event)?;
        rest = others;
    }
    if before == Before::Stop {
        Ok(Journal::with_events(head, events))
    } else {
        Err(JournalRefusal::NoStop)
    }
}
