//! The reader, which takes a text in pieces of any size.

ghost use Rattle.std.specs.Prelude.{◌≡◌, ◌≤◌, ◌<◌, ◌+◌, ℕ, List, [], ◌∷◌, ◌++◌, length, Some, IfOk, IfErr, OnOk};
ghost use Rattle.ql_forms.specs.View.{forms_of};
ghost use Rattle.ql_read.specs.TextFault.{IsRead, IsRefused, NoFaultIn, limit, unfinished};
ghost use Rattle.ql_read.specs.Taken.{IsAfterSome};

use crate::ending::whole_at_end;
use crate::nesting::Nesting;
use crate::scan::take_byte;
use crate::token::Token;
use ql_forms::laws::spelled_symbols_have_names;
use ql_forms::text::Text;
use std::alloc::{AllocError, Global};
use thiserror::Error;

/// Why a text isn't read.
#[derive(Clone, Copy, Debug, PartialEq, Eq, Error)]
pub enum ReadRefusal {
    /// The text is at fault. The kinds: 1 a byte that stands only in comments, 2 a closing
    /// parenthesis with no list open or where a quote mark awaits its form, 3 a dot where none may
    /// stand or after which something is missing or too much, 4 a number that goes on with a byte
    /// that is no digit or beyond 64 bits, 5 a name of more than 64 bytes, 6 more than 200 levels,
    /// 7 a text of more than 1,048,576 bytes, 8 a text that ends too early. `at` is the offset of
    /// the first byte at fault; for 7 it is 1,048,576, and for 8 the length of the text.
    #[error("the text is at fault at byte {at} (kind {kind})")]
    Bad { kind: u8, at: u64 },
    /// There was no memory.
    #[error("out of memory")]
    Memory(AllocError),
}

/// How many bytes a text has at most.
const LIMIT: u64 = 1_048_576;

/// The kind of a text of more bytes.
const TOO_LONG: u8 = 7;

/// The kind of a text that ends inside a form.
const UNFINISHED: u8 = 8;

/// It takes a text in pieces. What it answers doesn't depend on where they were cut.
///
/// After a refusal, also for want of memory, it answers that same refusal to each later call.
#[derive(Drop)]
pub struct Reader {
    taken: u64,
    token: Token,
    nesting: Nesting,
    refused: Option<ReadRefusal>,
    ghost taken_some: { ∥ IsAfterSome refused taken token nesting ∥₁ },
}

impl Reader {
    ghost use Rattle.ql_read.specs.Told.{HasTaken, HasFailed, taken_of};
    ghost use Rattle.ql_read.specs.declared.reader.ReadRefusal.TheVariants.{Bad};

    /// A reader that has taken nothing yet, with the reserved words for names.
    pub fn new(alloc: Global) -> Result<Reader, AllocError>
        ensures taken { IfOk result (λ r. HasTaken r []) }
        ensures counted { IfOk result (λ r. taken_of r ≡ 0) }
        ensures no_fault { NoFaultIn [] }
    {
        Ok(Reader {
            taken: 0,
            token: Token::Between,
            nesting: Nesting::new(alloc)?,
            refused: None,
        })
    }

    /// Takes the piece after all that came before. A fault is answered with the first byte from
    /// which on no text goes on well, and no byte after it is read.
    pub fn feed(&mut self, piece: &[u8]) -> Result<(), ReadRefusal>
        ensures ok { OnOk result ((b : List ℕ) → HasTaken self.old b → HasTaken self.new (b ++ piece.now)) }
        ensures bad { (kind at : ℕ) → result ≡ Err (Bad kind at) → (b : List ℕ) → HasTaken self.old b → IsRefused (b ++ piece.now) kind at }
        ensures near { (kind at : ℕ) → result ≡ Err (Bad kind at) → (b : List ℕ) → HasTaken self.old b → (length b ≤ at) × (kind < unfinished) }
        ensures no_fault { OnOk result ((b : List ℕ) → HasTaken self.old b → NoFaultIn (b ++ piece.now)) }
        ensures counted { OnOk result (taken_of self.new ≡ taken_of self.old + length piece.now) }
        ensures few { OnOk result (0 < length piece.now → taken_of self.new ≤ limit) }
        ensures failed { IfErr result (λ r. HasFailed self.new r) }
        ensures stays { (r : ReadRefusal) → HasFailed self.old r → result ≡ Err r }
    {
        if let Some(refusal) = self.refused {
            return Err(refusal);
        }
        for b in piece {
            if let Err(refusal) = self.take(*b) {
                return Err(refusal);
            }
        }
        Ok(())
    }

    /// The forms of all that came, and the names of their symbols after the reserved words. A text
    /// that ends inside a form is refused with the kind 8.
    pub fn finish(self) -> Result<Text, ReadRefusal>
        ensures ok { IfOk result (λ text. (b : List ℕ) → HasTaken self b → IsRead b (forms_of text.forms) text.names) }
        ensures bad { (kind at : ℕ) → result ≡ Err (Bad kind at) → (b : List ℕ) → HasTaken self b → (kind ≡ unfinished) × IsRefused b kind at }
        ensures stays { (r : ReadRefusal) → HasFailed self r → result ≡ Err r }
    {
        let Reader {
            taken,
            token,
            nesting,
            refused,
        } = self;
        if let Some(refusal) = refused {
            return Err(refusal);
        }
        // A law that the text's own fact rests on; the call does nothing.
        spelled_symbols_have_names();
        match whole_at_end(nesting, token) {
            Ok(Some(whole)) => Ok(Text {
                forms: whole.forms,
                names: whole.names,
            }),
            Ok(None) => Err(ReadRefusal::Bad {
                kind: UNFINISHED,
                at: taken,
            }),
            Err(error) => Err(ReadRefusal::Memory(error)),
        }
    }

    /// Takes one byte, unless something was refused before.
    fn take(&mut self, b: u8) -> Result<(), ReadRefusal>
        ensures ok { OnOk result ((p : List ℕ) → HasTaken self.old p → HasTaken self.new (p ++ b ∷ [])) }
        ensures bad { (kind at : ℕ) → result ≡ Err (Bad kind at) → (p : List ℕ) → HasTaken self.old p → IsRefused (p ++ b ∷ []) kind at }
        ensures counted { OnOk result (taken_of self.new ≡ taken_of self.old + 1) }
        ensures few { OnOk result (taken_of self.new ≤ limit) }
        ensures here { (kind at : ℕ) → result ≡ Err (Bad kind at) → (p : List ℕ) → HasTaken self.old p → (at ≡ length p) × (kind < unfinished) }
        ensures failed { IfErr result (λ r. HasFailed self.new r) }
    {
        if self.taken >= LIMIT {
            let refusal = ReadRefusal::Bad {
                kind: TOO_LONG,
                at: LIMIT,
            };
            self.refused = Some(refusal);
            return Err(refusal);
        }
        let token = std::mem::replace(&mut self.token, Token::Between);
        let next = match take_byte(&mut self.nesting, token, self.taken, b) {
            Ok(next) => next,
            Err(error) => {
                let refusal = ReadRefusal::Memory(error);
                self.refused = Some(refusal);
                return Err(refusal);
            }
        };
        match next.fault() {
            Some((at, fault)) => {
                let refusal = ReadRefusal::Bad {
                    kind: fault.number(),
                    at,
                };
                self.refused = Some(refusal);
                Err(refusal)
            }
            None => {
                self.token = next;
                self.taken += 1;
                Ok(())
            }
        }
    }
}
