//! Core: what a form means once its sugar is expanded.

use ql_base::numbers::Offset;
use ql_forms::form::{Atom, Form};
use sqlite_items::{Boxed, Items};

/// The name of a variable.
#[derive(Clone, Copy, Debug, PartialEq, Eq)]
pub enum VarName {
    /// The number of a symbol.
    Sym(u32),
    /// A variable that sugar adds, which no source can name. Each use stands in the `if` directly
    /// under its own binder, so all have the number 0.
    Hidden(u32),
}

/// A parameter, or the variable of a binding, with the offset of its symbol. A hidden one has the
/// offset of the form that adds it.
#[derive(Clone, Copy, Debug, PartialEq, Eq)]
pub struct Binder {
    pub at: Offset,
    pub name: VarName,
}

/// A constant.
#[derive(Clone, Copy)]
pub enum Constant<'a> {
    /// A datum of the source, which is shared with it.
    Spelled(&'a Form),
    /// An atom with an offset, that of a form of the source or of the node that sugar adds.
    Atom { at: Offset, atom: Atom },
}

/// A core form, with the offset of the form that it is made of.
#[cycle(core)]
#[derive(Drop)]
pub struct Core<'a> {
    pub at: Offset,
    pub node: Node<'a>,
}

/// A variable and the form of its first value.
#[cycle(core)]
#[derive(Drop)]
pub struct Bound<'a> {
    pub binder: Binder,
    pub value: Core<'a>,
}

/// The kinds of core forms. `named` is the offset of the symbol that the form names.
#[cycle(core)]
#[derive(Drop)]
pub enum Node<'a> {
    Const(Constant<'a>),
    Var(VarName),
    Setq {
        name: VarName,
        named: Offset,
        value: Boxed<Core<'a>>,
    },
    If {
        test: Boxed<Core<'a>>,
        then: Boxed<Core<'a>>,
        other: Boxed<Core<'a>>,
    },
    /// At least two forms.
    Progn(Items<Core<'a>>),
    Let {
        binds: Items<Bound<'a>>,
        body: Boxed<Core<'a>>,
    },
    /// A primitive, by the number of its symbol.
    Prim {
        op: u32,
        args: Items<Core<'a>>,
    },
    Print(Boxed<Core<'a>>),
    Call {
        name: u32,
        named: Offset,
        args: Items<Core<'a>>,
    },
    /// It is ignored where its own form stands in a progn or a body and isn't the last form there.
    Funcall {
        ignored: bool,
        fun: Boxed<Core<'a>>,
        args: Items<Core<'a>>,
    },
    Lambda {
        params: Items<Binder>,
        body: Boxed<Core<'a>>,
    },
    Qlet {
        prop: Boxed<Core<'a>>,
        binds: Items<Bound<'a>>,
        body: Boxed<Core<'a>>,
    },
    Qlambda {
        prop: Boxed<Core<'a>>,
        params: Items<Binder>,
        body: Boxed<Core<'a>>,
    },
    Catch {
        tag: Boxed<Core<'a>>,
        body: Boxed<Core<'a>>,
    },
    Qcatch {
        tag: Boxed<Core<'a>>,
        body: Boxed<Core<'a>>,
    },
    Throw {
        tag: Boxed<Core<'a>>,
        value: Boxed<Core<'a>>,
    },
    Protect {
        value: Boxed<Core<'a>>,
        cleanup: Boxed<Core<'a>>,
    },
    /// A top form alone.
    Defvar {
        name: u32,
        named: Offset,
        value: Boxed<Core<'a>>,
    },
}

/// A function, with the offset of its `defun` form.
#[derive(Drop)]
pub struct Function<'a> {
    pub name: u32,
    pub at: Offset,
    pub named: Offset,
    pub params: Items<Binder>,
    pub body: Core<'a>,
}
