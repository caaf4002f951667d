//! What the words at the head of a list are, and what parts they want.

ghost use Rattle.std.specs.Prelude.{◌≡◌};
ghost use Rattle.ql_expand.specs.Operator.{operator_of, reading_of};

use ql_base::reserved::Reserved;

/// What a word at the head of a list is.
#[derive(Clone, Copy, Debug, PartialEq, Eq)]
pub enum Operator {
    /// `nil` and `t`, which are constants and no operators.
    Constant,
    Quote,
    Defun,
    Defvar,
    Lambda,
    Qlambda,
    Setq,
    If,
    Progn,
    Let,
    Qlet,
    Catch,
    Qcatch,
    Throw,
    Protect,
    Funcall,
    Print,
    /// A primitive of one operand.
    Unary,
    /// A primitive of two operands, and no other number of them in a source.
    Binary,
    /// `+`: in core a primitive of two operands, as are the next two.
    Sum,
    /// `-`
    Difference,
    /// `*`
    Product,
    Not,
    /// `<=`
    AtMost,
    /// `>=`
    AtLeast,
    Cond,
    And,
    Or,
    When,
    Unless,
    /// `let*`
    LetStar,
    List,
    /// `eager` and each word that isn't reserved: a function.
    Call,
}

/// How the parts after an operator are read.
#[derive(Clone, Copy, Debug, PartialEq, Eq)]
pub enum Reading {
    /// There is no such form.
    Nothing,
    /// One datum.
    Datum,
    /// Forms of a core form: at least so many, and at most so many.
    Forms(usize, Option<usize>),
    /// Forms of a sugar form.
    SugarForms(usize, Option<usize>),
    /// Operands: two are those of a core form, any other number those of a sugar form.
    Operands(usize),
    /// A variable and its value.
    Assignment,
    /// The name of a global and its value.
    Global,
    /// Bindings and a body.
    Bindings,
    /// Bindings and a body, of a sugar form.
    SugarBindings,
    /// A form, bindings and a body.
    FormAndBindings,
    /// Parameters and a body.
    Parameters,
    /// A form, parameters and a body.
    FormAndParameters,
    /// A name, parameters and a body.
    Definition,
    /// Clauses.
    Clauses,
}

/// What the word with this number is. One that isn't reserved is a function.
#[tactic(auto, unfolding(crate::specs::Operator::operator_of))]
pub fn operator_of(number: u32) -> Operator
    ensures { result ≡ operator_of number }
{
    match Reserved::of_number(number) {
        None => Operator::Call,
        Some(word) => match word {
            Reserved::Nil | Reserved::True => Operator::Constant,
            Reserved::Quote => Operator::Quote,
            Reserved::Eager => Operator::Call,
            Reserved::Defun => Operator::Defun,
            Reserved::Defvar => Operator::Defvar,
            Reserved::Lambda => Operator::Lambda,
            Reserved::Qlambda => Operator::Qlambda,
            Reserved::Setq => Operator::Setq,
            Reserved::If => Operator::If,
            Reserved::Progn => Operator::Progn,
            Reserved::Let => Operator::Let,
            Reserved::Qlet => Operator::Qlet,
            Reserved::Catch => Operator::Catch,
            Reserved::Qcatch => Operator::Qcatch,
            Reserved::Throw => Operator::Throw,
            Reserved::UnwindProtect => Operator::Protect,
            Reserved::Funcall => Operator::Funcall,
            Reserved::Print => Operator::Print,
            Reserved::Cons
            | Reserved::Eq
            | Reserved::Truncate
            | Reserved::Rem
            | Reserved::Equal
            | Reserved::Less
            | Reserved::Greater => Operator::Binary,
            Reserved::Car
            | Reserved::Cdr
            | Reserved::Null
            | Reserved::Atom
            | Reserved::Consp
            | Reserved::Numberp
            | Reserved::Symbolp => Operator::Unary,
            Reserved::Not => Operator::Not,
            Reserved::Plus => Operator::Sum,
            Reserved::Minus => Operator::Difference,
            Reserved::Times => Operator::Product,
            Reserved::AtMost => Operator::AtMost,
            Reserved::AtLeast => Operator::AtLeast,
            Reserved::Cond => Operator::Cond,
            Reserved::And => Operator::And,
            Reserved::Or => Operator::Or,
            Reserved::When => Operator::When,
            Reserved::Unless => Operator::Unless,
            Reserved::LetStar => Operator::LetStar,
            Reserved::List => Operator::List,
        }
    }
}

impl Operator {
    /// How the parts after this operator are read.
    pub fn reading(self) -> Reading
        ensures { result ≡ reading_of self }
    {
        match self {
            Operator::Constant => Reading::Nothing,
            Operator::Quote => Reading::Datum,
            Operator::Defun => Reading::Definition,
            Operator::Defvar => Reading::Global,
            Operator::Lambda => Reading::Parameters,
            Operator::Qlambda => Reading::FormAndParameters,
            Operator::Setq => Reading::Assignment,
            Operator::Let => Reading::Bindings,
            Operator::Qlet => Reading::FormAndBindings,
            Operator::Cond => Reading::Clauses,
            Operator::LetStar => Reading::SugarBindings,
            Operator::Sum | Operator::Product => Reading::Operands(0),
            Operator::Difference => Reading::Operands(1),
            Operator::Progn | Operator::Call => Reading::Forms(0, None),
            Operator::If => Reading::Forms(2, Some(3)),
            Operator::Catch | Operator::Qcatch | Operator::Funcall => Reading::Forms(1, None),
            Operator::Throw | Operator::Binary => Reading::Forms(2, Some(2)),
            Operator::Protect => Reading::Forms(2, None),
            Operator::Print | Operator::Unary => Reading::Forms(1, Some(1)),
            Operator::Not => Reading::SugarForms(1, Some(1)),
            Operator::AtMost | Operator::AtLeast => Reading::SugarForms(2, Some(2)),
            Operator::And | Operator::Or | Operator::List => Reading::SugarForms(0, None),
            Operator::When | Operator::Unless => Reading::SugarForms(1, None),
        }
    }
}
