//! What a source can be refused for, and which of several faults is named.

ghost use Rattle.std.specs.Prelude.{◌≡◌};
ghost use Rattle.ql_base.specs.Refusal.{number_of, fault, sooner, first_of, where_true};

use crate::numbers::Offset;

/// What is wrong with a source. The kinds stand in the order of their numbers: first those of its
/// text, then those of its forms, then those of the names in its program, then that of its code. No
/// kind has the number 16.
#[derive(Clone, Copy, Debug, PartialEq, Eq)]
pub enum FaultKind {
    /// A byte that stands only in comments.
    BadByte,
    /// A closing parenthesis with no list open, or where a quote mark awaits its form.
    StrayClose,
    /// A dot where none may stand, or after which something is missing or too much.
    BadDot,
    /// A number that goes on with a byte that is no digit, or beyond 64 bits.
    BadNumber,
    /// A name of more than 64 bytes.
    LongName,
    /// A level inside 200 others.
    TooDeep,
    /// More than 1,048,576 bytes.
    TooLong,
    /// A text that ends inside a form.
    Unfinished,
    /// A form that fits no shape, or stands deeper than 400 levels.
    BadShape,
    /// A `defun` or `defvar` that is no top form.
    BadTop,
    /// A reserved word as a name that it can't be.
    ReservedName,
    /// A variable that nothing binds.
    Unbound,
    /// A call of a function that isn't there.
    NoFunction,
    /// A name that is given twice.
    Twice,
    /// A call with a wrong number of arguments.
    WrongCount,
    /// A binder with the name of a global.
    Shadow,
    /// One more than a list can have.
    TooMany,
    /// More than 65,535 instructions.
    CodeTooLong,
}

impl FaultKind {
    /// The number of the kind in refusals.
    pub fn number(self) -> u8
        ensures { result ≡ number_of self }
    {
        match self {
            FaultKind::BadByte => 1,
            FaultKind::StrayClose => 2,
            FaultKind::BadDot => 3,
            FaultKind::BadNumber => 4,
            FaultKind::LongName => 5,
            FaultKind::TooDeep => 6,
            FaultKind::TooLong => 7,
            FaultKind::Unfinished => 8,
            FaultKind::BadShape => 9,
            FaultKind::BadTop => 10,
            FaultKind::ReservedName => 11,
            FaultKind::Unbound => 12,
            FaultKind::NoFunction => 13,
            FaultKind::Twice => 14,
            FaultKind::WrongCount => 15,
            FaultKind::Shadow => 17,
            FaultKind::TooMany => 18,
            FaultKind::CodeTooLong => 19,
        }
    }
}

/// A fault at a place of a source.
#[derive(Clone, Copy, Debug, PartialEq, Eq)]
pub struct Fault {
    pub at: Offset,
    pub kind: FaultKind,
}

/// The one with the lesser offset, and at one offset the one of the lower kind.
pub fn sooner(first: Option<Fault>, second: Option<Fault>) -> Option<Fault>
    ensures { result ≡ sooner first second }
{
    let (Some(a), Some(b)) = (first, second) else {
        return first.or(second);
    };
    if b.at.0 < a.at.0 || (b.at.0 == a.at.0 && b.kind.number() < a.kind.number()) {
        second
    } else {
        first
    }
}

/// Finds a fault of this kind at this offset.
pub fn find(first: &mut Option<Fault>, kind: FaultKind, at: Offset)
    ensures { first.new ≡ first_of first.old (fault kind at.0) }
{
    *first = sooner(*first, Some(Fault { at, kind }));
}

/// Finds a fault of this kind at this offset where the test holds.
pub fn find_if(first: &mut Option<Fault>, holds: bool, kind: FaultKind, at: Offset)
    ensures { first.new ≡ first_of first.old (where_true holds (fault kind at.0)) }
{
    if holds {
        find(first, kind, at);
    }
}
