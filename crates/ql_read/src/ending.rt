//! The end of a text.

ghost use Rattle.std.specs.Prelude.{◌≡◌, ℕ, List, IfOk, IfSome};
ghost use Rattle.ql_base.specs.Names.{reserved, with_names};
ghost use Rattle.ql_read.specs.Numbering.{GoesOn, pending};
ghost use Rattle.ql_read.specs.Scan.{Stack, finish, whole};
ghost use Rattle.ql_read.specs.View.{nested, state_of, text_told};

use crate::nesting::Nesting;
use crate::token::Token;
use ql_base::names::Names;
use ql_forms::form::Form;
use sqlite_items::Items;
use std::alloc::AllocError;

/// The forms outside all lists, and the names of their symbols.
#[derive(Drop)]
pub struct Whole {
    pub forms: Items<Form>,
    pub names: Names,
}

/// The forms of a text that ends here, or none where it may not end.
pub fn whole_at_end(nesting: Nesting, token: Token) -> Result<Option<Whole>, AllocError>
    ensures forms { (o : ℕ) (k : Stack) (later : List (List ℕ)) → GoesOn reserved later → GoesOn (with_names nesting.names (pending (state_of token o k))) later
        → IfOk result (λ r. text_told later r ≡ finish (state_of token o (nested later nesting))) }
    ensures names { (o : ℕ) (k : Stack) → IfOk result (λ r. IfSome r (λ text. text.names ≡ with_names nesting.names (pending (state_of token o k)))) }
{
    let mut nesting = nesting;
    match token {
        Token::Between => Ok(all_closed(nesting)),
        Token::InComment => Ok(all_closed(nesting)),
        Token::InSymbol { at, letters } => {
            nesting.put_symbol(at, &letters)?;
            Ok(all_closed(nesting))
        }
        Token::InSign {
            at,
            negative: _,
            byte,
        } => {
            nesting.put_symbol(at, &[byte])?;
            Ok(all_closed(nesting))
        }
        Token::InNumber { at, number } => {
            nesting.put(number.form(at))?;
            Ok(all_closed(nesting))
        }
        Token::AfterDot => Ok(None),
        Token::Bad { .. } => Ok(None),
    }
}

/// The forms outside all lists, where no list and no quote mark is open.
fn all_closed(nesting: Nesting) -> Option<Whole>
    ensures forms { (later : List (List ℕ)) → text_told later result ≡ whole (nested later nesting) }
    ensures names { IfSome result (λ text. text.names ≡ nesting.names) }
{
    let Nesting {
        alloc: _,
        frames,
        top,
        names,
    } = nesting;
    if frames.is_empty() {
        Some(Whole {
            forms: Items::from_vec(top),
            names,
        })
    } else {
        None
    }
}
