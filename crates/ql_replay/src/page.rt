//! The bytes of a book, one after another.

ghost use Rattle.std.specs.Prelude.{◌≡◌, ◌<◌, [], length, drop, OnOk, OnErr};
ghost use Rattle.ql_base.specs.Outside.{HasRisen};
ghost use Rattle.ql_replay.specs.Page.{Peeks, AfterPeek, Fills, first_of};

use ql_base::outside::{Failed, Source};
use std::marker::Model;

/// What comes next in a book.
#[derive(Clone, Copy, Debug, PartialEq, Eq)]
pub enum Next {
    Byte(u8),
    End,
    /// A call of the book failed.
    Fault,
}

/// Bytes that were read and not taken yet. Contracts see them as a list.
#[derive(Drop)]
pub struct Page {
    bytes: [u8; 4096],
    from: usize,
    to: usize,
}

impl Model for Page {
    ghost use Rattle.std.specs.Prelude.{ℕ, List, ◌≤◌, ◌-◌, drop, take};

    ghost Value = { List ℕ };

    ghost view = { λ p. take (p.to - p.from) (drop p.from p.bytes) };

    ghost invariant = { λ p. (p.from ≤ p.to) × (p.to ≤ 4096) };
}

impl Page {
    /// No bytes.
    pub fn new() -> Page
        ensures { result ≡ [] }
    {
        Page {
            bytes: [0; 4096],
            from: 0,
            to: 0,
        }
    }

    /// The byte that comes next. It reads where no byte is left.
    pub fn peek<B: Source>(&mut self, book: &mut B) -> Next
        ensures bytes { Peeks result self.old (B.left book.old) self.new (B.left book.new) }
        ensures faults { AfterPeek result (B.faults book.old) (B.faults book.new) }
    {
        if let Some(b) = self.first() {
            return Next::Byte(b);
        }
        if self.fill(book).is_err() {
            return Next::Fault;
        }
        match self.first() {
            Some(b) => Next::Byte(b),
            None => Next::End,
        }
    }

    /// Reads where no byte is left.
    fn fill<B: Source>(&mut self, book: &mut B) -> Result<(), Failed>
        requires { self.old ≡ [] }
        ensures bytes { OnOk result (Fills (B.left book.old) self.new (B.left book.new)) }
        ensures kept { OnOk result (B.faults book.new ≡ B.faults book.old) }
        ensures failed { OnErr result (HasRisen (B.faults book.old) (B.faults book.new)) }
        ensures left { OnErr result (B.left book.new ≡ B.left book.old) }
        ensures same { OnErr result (self.new ≡ []) }
    {
        let n = book.read(&mut self.bytes)?;
        self.from = 0;
        self.to = n;
        Ok(())
    }

    /// The byte that is left and comes next.
    pub fn first(&self) -> Option<u8>
        ensures { result ≡ first_of self.now }
    {
        if self.from < self.to {
            Some(self.bytes[self.from])
        } else {
            None
        }
    }

    /// Takes the byte that comes next.
    pub fn skip(&mut self)
        requires { 0 < length self.old }
        ensures { self.new ≡ drop 1 self.old }
    {
        self.from += 1;
    }
}
