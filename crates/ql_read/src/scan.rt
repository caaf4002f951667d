//! One byte more.

ghost use Rattle.std.specs.Prelude.{◌≡◌, ◌+◌, ℕ, List, [], ◌∷◌, IfOk, OnOk};
ghost use Rattle.ql_base.specs.Names.{reserved, with_names};
ghost use Rattle.ql_forms.specs.Bytes.{Class, class};
ghost use Rattle.ql_read.specs.Scan.{Stack, in_atom, of_symbol, of_sign, of_number, next, atom_or_bad, form_in, step_between, step_atom, step_dot, step};
ghost use Rattle.ql_read.specs.ByteClass.{start_told};
ghost use Rattle.ql_read.specs.Numbering.{GoesOn, ended, ended_by};
ghost use Rattle.ql_read.specs.View.{nested, state_of, form_from};

use crate::byte_class::{ByteClass, FormStart, class_of};
use crate::nesting::{Frame, Nesting};
use crate::number::Number;
use crate::token::Token;
use ql_base::refusal::FaultKind;
use std::alloc::{AllocError, Global};

/// How many bytes a name has at most.
const LONGEST_NAME: usize = 64;

/// Takes the byte `b` at the offset `at`, which goes on with `token`.
#[inline(always)]
pub fn take_byte(nesting: &mut Nesting, token: Token, at: u64, b: u8) -> Result<Token, AllocError>
    ensures ok { (k : Stack) (later : List (List ℕ)) → GoesOn reserved later → GoesOn (with_names nesting.old.names (ended (state_of token at k) b)) later
        → IfOk result (λ t. state_of t (at + 1) (nested later nesting.new) ≡ step (state_of token at (nested later nesting.old)) b) }
    ensures names { (k : Stack) → OnOk result (nesting.new.names ≡ with_names nesting.old.names (ended (state_of token at k) b)) }
{
    match token {
        Token::Between => begin(nesting, at, b),
        Token::InComment => {
            if b == b'\n' {
                Ok(Token::Between)
            } else {
                Ok(Token::InComment)
            }
        }
        Token::InSymbol { at: from, letters } => after_symbol(nesting, at, from, letters, b),
        Token::InSign {
            at: from,
            negative,
            byte,
        } => after_sign(nesting, at, from, negative, byte, b),
        Token::InNumber { at: from, number } => after_number(nesting, at, from, number, b),
        Token::AfterDot => after_dot(nesting, at, b),
        Token::Bad { at: from, fault } => Ok(Token::Bad { at: from, fault }),
    }
}

/// A byte between tokens.
#[inline(always)]
fn begin(nesting: &mut Nesting, at: u64, b: u8) -> Result<Token, AllocError>
    ensures ok { (later : List (List ℕ)) → GoesOn reserved later
        → IfOk result (λ t. state_of t (at + 1) (nested later nesting.new) ≡ step_between at (nested later nesting.old) b (class b)) }
    ensures names { nesting.new.names ≡ nesting.old.names }
{
    match class_of(b) {
        ByteClass::Blank => Ok(Token::Between),
        ByteClass::Semicolon => Ok(Token::InComment),
        ByteClass::Other => Ok(Token::Bad {
            at,
            fault: FaultKind::BadByte,
        }),
        ByteClass::Dot => nesting.put_dot(at),
        ByteClass::Closing => nesting.close(at),
        ByteClass::Start(start) => form_or_bad(nesting, at, b, start),
    }
}

/// A form begins, unless the innermost list has its tail.
#[inline(always)]
fn form_or_bad(nesting: &mut Nesting, at: u64, b: u8, start: FormStart) -> Result<Token, AllocError>
    requires { start_told start ≡ class b }
    ensures ok { (later : List (List ℕ)) → IfOk result (λ t. state_of t (at + 1) (nested later nesting.new)
        ≡ form_in at (nested later nesting.old) (form_from at (nested later nesting.old) b (start_told start))) }
    ensures names { nesting.new.names ≡ nesting.old.names }
{
    if nesting.is_past_tail() {
        Ok(Token::Bad {
            at,
            fault: FaultKind::BadDot,
        })
    } else {
        start_form(nesting, at, b, start)
    }
}

/// A form begins.
#[inline(always)]
fn start_form(nesting: &mut Nesting, at: u64, b: u8, start: FormStart) -> Result<Token, AllocError>
    requires { start_told start ≡ class b }
    ensures ok { (later : List (List ℕ)) → IfOk result (λ t. state_of t (at + 1) (nested later nesting.new) ≡ form_from at (nested later nesting.old) b (start_told start)) }
    ensures names { nesting.new.names ≡ nesting.old.names }
{
    match start {
        FormStart::Letter => {
            let mut letters = Vec::new(nesting.alloc);
            letters.push(b)?;
            Ok(Token::InSymbol { at, letters })
        }
        FormStart::Digit => Ok(Token::InNumber {
            at,
            number: Number::of_digit(false, b),
        }),
        FormStart::Plus => Ok(Token::InSign {
            at,
            negative: false,
            byte: b,
        }),
        FormStart::Minus => Ok(Token::InSign {
            at,
            negative: true,
            byte: b,
        }),
        FormStart::Opening => {
            let items = Vec::with_capacity(nesting.alloc, 1)?;
            nesting.deeper(at, Frame::InList { at, items })
        }
        FormStart::Mark => nesting.deeper(at, Frame::InQuote { at }),
    }
}

/// A byte after the letters of a symbol.
fn after_symbol(
    nesting: &mut Nesting,
    at: u64,
    from: u64,
    letters: Vec<u8>,
    b: u8,
) -> Result<Token, AllocError>
    ensures ok { (later : List (List ℕ)) → GoesOn reserved later → GoesOn (with_names nesting.old.names (ended_by (class b) (letters.items ∷ []))) later
        → IfOk result (λ t. state_of t (at + 1) (nested later nesting.new) ≡ step_atom at from (of_symbol letters.items) (nested later nesting.old) b (class b)) }
    ensures names { OnOk result (nesting.new.names ≡ with_names nesting.old.names (ended_by (class b) (letters.items ∷ []))) }
{
    match class_of(b) {
        ByteClass::Start(FormStart::Letter) => longer(at, from, letters, b),
        ByteClass::Start(FormStart::Digit) => longer(at, from, letters, b),
        ByteClass::Start(FormStart::Plus) => longer(at, from, letters, b),
        ByteClass::Start(FormStart::Minus) => longer(at, from, letters, b),
        ByteClass::Dot => Ok(Token::Bad {
            at,
            fault: FaultKind::BadDot,
        }),
        _ => {
            nesting.put_symbol(from, &letters)?;
            begin(nesting, at, b)
        }
    }
}

/// A symbol has at most 64 bytes.
fn longer(at: u64, from: u64, letters: Vec<u8>, b: u8) -> Result<Token, AllocError>
    ensures { (k : Stack) (c : Class) → IfOk result (λ t. state_of t (at + 1) k ≡ atom_or_bad at from (of_symbol letters.items) k (next (of_symbol letters.items) b c)) }
{
    if letters.len() < LONGEST_NAME {
        let mut more = letters;
        more.push(b)?;
        Ok(Token::InSymbol {
            at: from,
            letters: more,
        })
    } else {
        Ok(Token::Bad {
            at,
            fault: FaultKind::LongName,
        })
    }
}

/// A byte after a sign: a digit makes a number of it, anything else a symbol.
fn after_sign(
    nesting: &mut Nesting,
    at: u64,
    from: u64,
    negative: bool,
    byte: u8,
    b: u8,
) -> Result<Token, AllocError>
    ensures ok { (later : List (List ℕ)) → GoesOn reserved later → GoesOn (with_names nesting.old.names (ended_by (class b) ((byte ∷ []) ∷ []))) later
        → IfOk result (λ t. state_of t (at + 1) (nested later nesting.new) ≡ step_atom at from (of_sign negative byte) (nested later nesting.old) b (class b)) }
    ensures names { OnOk result (nesting.new.names ≡ with_names nesting.old.names (ended_by (class b) ((byte ∷ []) ∷ []))) }
{
    match class_of(b) {
        ByteClass::Start(FormStart::Digit) => Ok(Token::InNumber {
            at: from,
            number: Number::of_digit(negative, b),
        }),
        ByteClass::Start(FormStart::Letter) => two_letters(nesting.alloc, from, byte, b),
        ByteClass::Start(FormStart::Plus) => two_letters(nesting.alloc, from, byte, b),
        ByteClass::Start(FormStart::Minus) => two_letters(nesting.alloc, from, byte, b),
        ByteClass::Dot => Ok(Token::Bad {
            at,
            fault: FaultKind::BadDot,
        }),
        _ => {
            nesting.put_symbol(from, &[byte])?;
            begin(nesting, at, b)
        }
    }
}

/// A symbol of a sign and one more byte.
fn two_letters(alloc: Global, from: u64, sign: u8, b: u8) -> Result<Token, AllocError>
    ensures { (o : ℕ) (k : Stack) → IfOk result (λ t. state_of t o k ≡ in_atom o from (of_symbol (sign ∷ b ∷ [])) k) }
{
    let mut letters = Vec::new(alloc);
    letters.push(sign)?;
    letters.push(b)?;
    Ok(Token::InSymbol { at: from, letters })
}

/// A byte after the digits of a number.
fn after_number(
    nesting: &mut Nesting,
    at: u64,
    from: u64,
    number: Number,
    b: u8,
) -> Result<Token, AllocError>
    ensures ok { (later : List (List ℕ)) → GoesOn reserved later
        → IfOk result (λ t. state_of t (at + 1) (nested later nesting.new) ≡ step_atom at from (of_number number.negative number.value) (nested later nesting.old) b (class b)) }
    ensures names { OnOk result (nesting.new.names ≡ nesting.old.names) }
{
    match class_of(b) {
        ByteClass::Start(FormStart::Digit) => match number.with_digit(b) {
            Some(number) => Ok(Token::InNumber { at: from, number }),
            None => Ok(Token::Bad {
                at,
                fault: FaultKind::BadNumber,
            }),
        },
        ByteClass::Start(FormStart::Letter | FormStart::Plus | FormStart::Minus) => Ok(
            Token::Bad {
                at,
                fault: FaultKind::BadNumber,
            },
        ),
        ByteClass::Dot => Ok(Token::Bad {
            at,
            fault: FaultKind::BadDot,
        }),
        _ => {
            nesting.put(number.form(from))?;
            begin(nesting, at, b)
        }
    }
}

/// A byte directly after a dot.
fn after_dot(nesting: &mut Nesting, at: u64, b: u8) -> Result<Token, AllocError>
    ensures ok { (later : List (List ℕ)) → GoesOn reserved later
        → IfOk result (λ t. state_of t (at + 1) (nested later nesting.new) ≡ step_dot at (nested later nesting.old) b (class b)) }
    ensures names { nesting.new.names ≡ nesting.old.names }
{
    match class_of(b) {
        ByteClass::Blank
        | ByteClass::Semicolon
        | ByteClass::Start(FormStart::Opening | FormStart::Mark) => begin(nesting, at, b),
        ByteClass::Other => Ok(Token::Bad {
            at,
            fault: FaultKind::BadByte,
        }),
        _ => Ok(Token::Bad {
            at,
            fault: FaultKind::BadDot,
        }),
    }
}
