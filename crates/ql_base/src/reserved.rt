//! The reserved words of the language.

ghost use Rattle.std.specs.Prelude.{◌≡◌, slice_get};
ghost use Rattle.ql_base.specs.Reserved.{all, number, letters};

/// A reserved word. Every table of names begins with these, in this order, so that a reserved word is
/// known by its number alone.
#[derive(Clone, Copy, Debug, PartialEq, Eq)]
pub enum Reserved {
    Nil,
    True,
    Quote,
    Eager,
    Defun,
    Defvar,
    Lambda,
    Qlambda,
    Setq,
    If,
    Progn,
    Let,
    Qlet,
    Catch,
    Qcatch,
    Throw,
    UnwindProtect,
    Funcall,
    Print,
    Cons,
    Car,
    Cdr,
    Eq,
    Null,
    Not,
    Atom,
    Consp,
    Numberp,
    Symbolp,
    Plus,
    Minus,
    Times,
    Truncate,
    Rem,
    Equal,
    Less,
    Greater,
    AtMost,
    AtLeast,
    Cond,
    And,
    Or,
    When,
    Unless,
    LetStar,
    List,
}

/// All of them, in the order of their numbers.
pub const ALL: [Reserved; 46] = [
    Reserved::Nil,
    Reserved::True,
    Reserved::Quote,
    Reserved::Eager,
    Reserved::Defun,
    Reserved::Defvar,
    Reserved::Lambda,
    Reserved::Qlambda,
    Reserved::Setq,
    Reserved::If,
    Reserved::Progn,
    Reserved::Let,
    Reserved::Qlet,
    Reserved::Catch,
    Reserved::Qcatch,
    Reserved::Throw,
    Reserved::UnwindProtect,
    Reserved::Funcall,
    Reserved::Print,
    Reserved::Cons,
    Reserved::Car,
    Reserved::Cdr,
    Reserved::Eq,
    Reserved::Null,
    Reserved::Not,
    Reserved::Atom,
    Reserved::Consp,
    Reserved::Numberp,
    Reserved::Symbolp,
    Reserved::Plus,
    Reserved::Minus,
    Reserved::Times,
    Reserved::Truncate,
    Reserved::Rem,
    Reserved::Equal,
    Reserved::Less,
    Reserved::Greater,
    Reserved::AtMost,
    Reserved::AtLeast,
    Reserved::Cond,
    Reserved::And,
    Reserved::Or,
    Reserved::When,
    Reserved::Unless,
    Reserved::LetStar,
    Reserved::List,
];

impl Reserved {
    /// Its number in every table of names.
    pub fn number(self) -> u32
        ensures { result ≡ number self }
    {
        self as u32
    }

    /// The word with this number, where it is that of one.
    pub fn of_number(number: u32) -> Option<Reserved>
        ensures { result ≡ slice_get all number }
    {
        word_at(&ALL, number as usize)
    }

    /// How it is spelled.
    pub fn letters(self) -> &'static [u8]
        ensures { result.now ≡ letters self }
    {
        match self {
            Reserved::Nil => b"nil",
            Reserved::True => b"t",
            Reserved::Quote => b"quote",
            Reserved::Eager => b"eager",
            Reserved::Defun => b"defun",
            Reserved::Defvar => b"defvar",
            Reserved::Lambda => b"lambda",
            Reserved::Qlambda => b"qlambda",
            Reserved::Setq => b"setq",
            Reserved::If => b"if",
            Reserved::Progn => b"progn",
            Reserved::Let => b"let",
            Reserved::Qlet => b"qlet",
            Reserved::Catch => b"catch",
            Reserved::Qcatch => b"qcatch",
            Reserved::Throw => b"throw",
            Reserved::UnwindProtect => b"unwind-protect",
            Reserved::Funcall => b"funcall",
            Reserved::Print => b"print",
            Reserved::Cons => b"cons",
            Reserved::Car => b"car",
            Reserved::Cdr => b"cdr",
            Reserved::Eq => b"eq",
            Reserved::Null => b"null",
            Reserved::Not => b"not",
            Reserved::Atom => b"atom",
            Reserved::Consp => b"consp",
            Reserved::Numberp => b"numberp",
            Reserved::Symbolp => b"symbolp",
            Reserved::Plus => b"+",
            Reserved::Minus => b"-",
            Reserved::Times => b"*",
            Reserved::Truncate => b"truncate",
            Reserved::Rem => b"rem",
            Reserved::Equal => b"=",
            Reserved::Less => b"<",
            Reserved::Greater => b">",
            Reserved::AtMost => b"<=",
            Reserved::AtLeast => b">=",
            Reserved::Cond => b"cond",
            Reserved::And => b"and",
            Reserved::Or => b"or",
            Reserved::When => b"when",
            Reserved::Unless => b"unless",
            Reserved::LetStar => b"let*",
            Reserved::List => b"list",
        }
    }
}

fn word_at(words: &[Reserved], place: usize) -> Option<Reserved>
    ensures { result ≡ slice_get words.now place }
{
    words.get(place).copied()
}
