//! What the next byte goes on with.

ghost use Rattle.std.specs.Prelude.{◌≡◌, ℕ};
ghost use Rattle.ql_read.specs.Scan.{Stack, fault_of};
ghost use Rattle.ql_read.specs.View.{state_of};

use crate::number::Number;
use ql_base::refusal::FaultKind;

/// The token that the bytes so far end in.
#[derive(Drop)]
pub enum Token {
    Between,
    InComment,
    InSymbol { at: u64, letters: Vec<u8> },
    /// A sign, which begins a symbol or a number.
    InSign { at: u64, negative: bool, byte: u8 },
    InNumber { at: u64, number: Number },
    /// Directly after a dot.
    AfterDot,
    /// No more is read.
    Bad { at: u64, fault: FaultKind },
}

impl Token {
    /// The fault that reading stopped at, with its offset.
    #[inline(always)]
    pub fn fault(&self) -> Option<(u64, FaultKind)>
        ensures { (o : ℕ) (k : Stack) → result ≡ fault_of (state_of self.now o k) }
    {
        match self {
            Token::Bad { at, fault } => Some((*at, *fault)),
            Token::Between => None,
            Token::InComment => None,
            Token::InSymbol { .. } => None,
            Token::InSign { .. } => None,
            Token::InNumber { .. } => None,
            Token::AfterDot => None,
        }
    }
}
