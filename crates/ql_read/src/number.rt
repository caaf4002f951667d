//! Integers, digit by digit.

ghost use Rattle.std.specs.Prelude.{◌≡◌, ◌≤◌, ◌+◌, ◌-◌, ◌*◌, leb, true, false, IfSome, IfNone, ℕ, List};
ghost use Rattle.ql_forms.specs.Spelled.{atom, integer};
ghost use Rattle.ql_forms.specs.Spells.{most, signed};
ghost use Rattle.ql_forms.specs.View.{spelling_of};

use ql_base::numbers::Offset;
use ql_forms::form::{Atom, Form};

/// A sign and a magnitude which together fit 64 bits.
#[derive(Clone, Copy, Debug, PartialEq, Eq)]
pub struct Number {
    negative: bool,
    value: u64,
    ghost in_range: { value ≤ most negative },
}

/// The value of a digit.
fn digit_of(b: u8) -> u64
    ensures { result ≡ b - 48 }
{
    if b >= b'0' { (b - b'0') as u64 } else { 0 }
}

impl Number {
    /// The number of one digit.
    pub fn of_digit(negative: bool, b: u8) -> Number
        ensures sign { result.negative ≡ negative }
        ensures value { result.value ≡ b - 48 }
    {
        Number {
            negative,
            value: digit_of(b),
        }
    }

    /// The number with one more digit, where it is in range.
    pub fn with_digit(self, b: u8) -> Option<Number>
        ensures sign { IfSome result (λ n. n.negative ≡ self.negative) }
        ensures value { IfSome result (λ n. n.value ≡ 10 * self.value + (b - 48)) }
        ensures within { IfSome result (λ n. leb n.value (most self.negative) ≡ true) }
        ensures none { IfNone result (leb (10 * self.value + (b - 48)) (most self.negative) ≡ false) }
    {
        let most: u64 = if self.negative {
            9_223_372_036_854_775_808
        } else {
            9_223_372_036_854_775_807
        };
        // A tenth of the greatest magnitude: beyond it one more digit is too many.
        if self.value > 922_337_203_685_477_580 {
            return None;
        }
        let value = 10 * self.value + digit_of(b);
        if value <= most {
            Some(Number {
                negative: self.negative,
                value,
            })
        } else {
            None
        }
    }

    /// The form of the number.
    pub fn form(self, at: u64) -> Form
        ensures { (names : List (List ℕ)) → spelling_of names result ≡ atom at (integer (signed self.negative self.value)) }
    {
        Form::Atom {
            at: Offset(at),
            atom: Atom::Int(self.to_i64()),
        }
    }

    /// The integer.
    fn to_i64(self) -> i64
        ensures { result ≡ signed self.negative self.value }
    {
        if !self.negative {
            self.value as i64
        } else if self.value == 9_223_372_036_854_775_808 {
            // It has no positive counterpart.
            i64::MIN
        } else {
            -(self.value as i64)
        }
    }
}
