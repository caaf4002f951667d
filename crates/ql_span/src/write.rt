//! A span as text.

ghost use Rattle.std.specs.Prelude.{◌≡◌, ◌++◌, OnOk, OnErr};
ghost use Rattle.ql_span.specs.Text.{number_line, chain_line, span_text};

use crate::answer::Span;
use itoa::Buffer;
use ql_journal::write::put_numbers;
use std::alloc::{AllocError, Global};

/// Appends the three lines that tell a span. An `Err` leaves `to` as it was.
pub fn write_span(alloc: Global, span: &Span, to: &mut Vec<u8>) -> Result<(), AllocError>
    ensures ok { OnOk result (to.new.items ≡ to.old.items ++ span_text span.now) }
    ensures err { OnErr result (to.new.items ≡ to.old.items) }
{
    let mut text = Vec::new(alloc);
    put_number(&mut text, b"work", span.work)?;
    put_number(&mut text, b"span", span.span)?;
    put_chain(&mut text, span.chain.as_slice())?;
    to.extend_from_slice(&text)
}

/// Appends a line with one number.
fn put_number(to: &mut Vec<u8>, word: &[u8], n: u128) -> Result<(), AllocError>
    ensures { OnOk result (to.new.items ≡ to.old.items ++ number_line word.now n) }
{
    let mut buffer = Buffer::new();
    to.extend_from_slice(word)?;
    to.extend_from_slice(b" ")?;
    to.extend_from_slice(buffer.format(n).as_bytes())?;
    to.extend_from_slice(b"\n")
}

/// Appends the line with the lines of a chain.
fn put_chain(to: &mut Vec<u8>, lines: &[u64]) -> Result<(), AllocError>
    ensures { OnOk result (to.new.items ≡ to.old.items ++ chain_line lines.now) }
{
    to.extend_from_slice(b"chain")?;
    put_numbers(to, lines)?;
    to.extend_from_slice(b"\n")
}
