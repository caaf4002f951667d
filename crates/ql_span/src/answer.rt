//! What is told of a journal.

use std::marker::Model;

/// Work, span and heaviest chain. Contracts see it as two numbers and a list.
#[derive(Drop)]
pub struct Span {
    /// All ticks of the journal.
    pub work: u128,
    /// The ticks of the chain.
    pub span: u128,
    /// The lines of the chain, from 1, a head line included.
    pub chain: Vec<u64>,
}

impl Model for Span {
    ghost use Rattle.ql_span.specs.Chain.{Span};

    ghost Value = { Span };

    ghost view = { λ s. record { work = s.work; span = s.span; chain = s.chain.items } };
}
