//! The primitives.

ghost use Rattle.std.specs.Prelude.{◌≡◌, ◌+ℤ◌, ◌-ℤ◌, ◌*ℤ◌, int_div, int_rem, false, List};
ghost use Rattle.ql_world.specs.Operator.{operator_of, takes_one, takes_apart, checked, divided, of_integers, of_one, of_two};

use crate::word::Word;
use ql_base::fault::RunFault;

/// A primitive.
#[derive(Clone, Copy, Debug, PartialEq, Eq)]
pub enum Operator {
    Add,
    Subtract,
    Multiply,
    Truncate,
    Remainder,
    Equals,
    IsLess,
    IsGreater,
    Eq,
    Cons,
    Car,
    Cdr,
    Null,
    Atom,
    Consp,
    Numberp,
    Symbolp,
}

/// What a primitive gives.
#[derive(Clone, Copy, Debug, PartialEq, Eq)]
pub enum Computed {
    Gives(Word),
    Fails(RunFault),
    /// A new pair.
    Joins(Word, Word),
}

/// The primitive with this number among the reserved words.
pub fn of_symbol(symbol: u32) -> Option<Operator>
    ensures { result ≡ operator_of symbol }
{
    match symbol {
        19 => Some(Operator::Cons),
        20 => Some(Operator::Car),
        21 => Some(Operator::Cdr),
        22 => Some(Operator::Eq),
        23 => Some(Operator::Null),
        25 => Some(Operator::Atom),
        26 => Some(Operator::Consp),
        27 => Some(Operator::Numberp),
        28 => Some(Operator::Symbolp),
        29 => Some(Operator::Add),
        30 => Some(Operator::Subtract),
        31 => Some(Operator::Multiply),
        32 => Some(Operator::Truncate),
        33 => Some(Operator::Remainder),
        34 => Some(Operator::Equals),
        35 => Some(Operator::IsLess),
        36 => Some(Operator::IsGreater),
        _ => None,
    }
}

impl Operator {
    /// Whether it has one operand, and not two.
    pub fn takes_one(self) -> bool
        ensures { result ≡ takes_one self }
    {
        match self {
            Operator::Car
            | Operator::Cdr
            | Operator::Null
            | Operator::Atom
            | Operator::Consp
            | Operator::Numberp
            | Operator::Symbolp => true,
            _ => false,
        }
    }

    /// Of two operands, none of which is a future that it touches.
    pub fn of_two(self, a: Word, b: Word) -> Computed
        ensures { result ≡ of_two self a b }
    {
        match self {
            Operator::Eq => Computed::Gives(Word::of_bool(a.is_identical(b))),
            Operator::Cons => Computed::Joins(a, b),
            _ => match (a, b) {
                (Word::Int(y), Word::Int(z)) => self.of_integers(y, z),
                _ => Computed::Fails(RunFault::NotNumber),
            },
        }
    }

    /// Of one operand, which is no future. What takes a pair apart is left to whoever has the pairs.
    pub fn of_one(self, w: Word) -> Computed
        requires { takes_apart self ≡ false }
        ensures { (pairs : List (Word × Word)) → result ≡ of_one pairs self w }
    {
        match self {
            Operator::Null => Computed::Gives(Word::of_bool(w.is_nil())),
            Operator::Atom => Computed::Gives(Word::of_bool(!w.is_pair())),
            Operator::Consp => Computed::Gives(Word::of_bool(w.is_pair())),
            Operator::Numberp => Computed::Gives(Word::of_bool(w.is_number())),
            Operator::Symbolp => Computed::Gives(Word::of_bool(w.is_symbol())),
            _ => Computed::Fails(RunFault::NotNumber),
        }
    }

    /// Of two integers.
    fn of_integers(self, y: i64, z: i64) -> Computed
        ensures { result ≡ of_integers self y z }
    {
        match self {
            Operator::Add => added(y, z),
            Operator::Subtract => subtracted(y, z),
            Operator::Multiply => multiplied(y, z),
            Operator::Truncate => truncated(y, z),
            Operator::Remainder => remaining(y, z),
            Operator::Equals => Computed::Gives(Word::of_bool(y == z)),
            Operator::IsLess => Computed::Gives(Word::of_bool(y < z)),
            Operator::IsGreater => Computed::Gives(Word::of_bool(z < y)),
            _ => Computed::Fails(RunFault::NotNumber),
        }
    }
}

fn added(y: i64, z: i64) -> Computed
    ensures { result ≡ checked (y +ℤ z) }
{
    match y.checked_add(z) {
        Some(n) => Computed::Gives(Word::Int(n)),
        None => Computed::Fails(RunFault::Overflow),
    }
}

fn subtracted(y: i64, z: i64) -> Computed
    ensures { result ≡ checked (y -ℤ z) }
{
    match y.checked_sub(z) {
        Some(n) => Computed::Gives(Word::Int(n)),
        None => Computed::Fails(RunFault::Overflow),
    }
}

fn multiplied(y: i64, z: i64) -> Computed
    ensures { result ≡ checked (y *ℤ z) }
{
    match y.checked_mul(z) {
        Some(n) => Computed::Gives(Word::Int(n)),
        None => Computed::Fails(RunFault::Overflow),
    }
}

fn truncated(y: i64, z: i64) -> Computed
    ensures { result ≡ divided int_div y z }
{
    if z == 0 {
        return Computed::Fails(RunFault::DivZero);
    }
    match y.checked_div(z) {
        Some(n) => Computed::Gives(Word::Int(n)),
        None => Computed::Fails(RunFault::Overflow),
    }
}

fn remaining(y: i64, z: i64) -> Computed
    ensures { result ≡ divided int_rem y z }
{
    if z == 0 {
        return Computed::Fails(RunFault::DivZero);
    }
    if z == -1 {
        return Computed::Gives(Word::Int(0));
    }
    match y.checked_rem(z) {
        Some(n) => Computed::Gives(Word::Int(n)),
        None => Computed::Fails(RunFault::Overflow),
    }
}
