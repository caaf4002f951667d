//! A program as a text, in which each node, variable and name has its offset behind an `@`.
//!
//! Each function, global and top form ends with a semicolon. A node is its kind and then, in
//! parentheses, its parts: `if@0(var a@4 1@6 nil@0)`. A constant that stands at the offset of its
//! node is written plainly, and any other as `quote@0 x@1`. Bindings and parameters stand in
//! brackets: `let@0([a@7 1@9] var a@12)`. A hidden variable is `?`, and the binder of a variable that
//! some `setq` names has a `!` behind it.

use ql_base::names::Names;
use ql_base::numbers::Offset;
use ql_expand::core_form::{Binder, Bound, Constant, Core, Function, Node, VarName};
use ql_expand::program::Program;
use ql_forms::form::{Atom, Form};
use ql_scope::scoped::Scoped;
use std::alloc::{AllocError, Global};

/// A text that is being made of a program.
#[derive(Drop)]
pub struct Dump<'a, 'b> {
    pub alloc: Global,
    pub names: &'a Names,
    /// The program in scope, where it is known which variables some `setq` names.
    pub scoped: Option<&'a Scoped<'b>>,
    pub to: Vec<u8>,
}

impl<'a, 'b> Dump<'a, 'b> {
    /// Appends a program.
    pub fn put_program(&mut self, program: &Program) -> Result<(), AllocError> {
        for function in program.functions.as_slice() {
            self.put_function(function)?;
            self.to.push(b';')?;
        }
        for global in program.globals.as_slice() {
            self.to.extend_from_slice(b"global ")?;
            self.to.extend_from_slice(self.names.letters(*global))?;
            self.to.push(b';')?;
        }
        for core in program.body.as_slice() {
            self.put_core(core)?;
            self.to.push(b';')?;
        }
        Ok(())
    }

    fn put_at(&mut self, at: Offset) -> Result<(), AllocError> {
        let digits = format!(in self.alloc; "@{}", at.0)?;
        self.to.extend_from_slice(digits.as_bytes())
    }

    fn put_symbol(&mut self, number: u32, at: Offset) -> Result<(), AllocError> {
        self.to.extend_from_slice(self.names.letters(number))?;
        self.put_at(at)
    }

    fn put_variable(&mut self, name: VarName, at: Offset) -> Result<(), AllocError> {
        match name {
            VarName::Sym(number) => self.put_symbol(number, at),
            VarName::Hidden(_) => {
                self.to.push(b'?')?;
                self.put_at(at)
            }
        }
    }

    // A variable that some `setq` names has a mark, where that is known.
    fn put_binder(&mut self, binder: &Binder) -> Result<(), AllocError> {
        self.put_variable(binder.name, binder.at)?;
        match self.scoped {
            Some(scoped) if scoped.is_stored(binder.at, &binder.name) => {
                self.to.push(b'!')?;
                Ok(())
            }
            _ => Ok(()),
        }
    }

    fn put_integer(&mut self, value: i64) -> Result<(), AllocError> {
        let digits = format!(in self.alloc; "{}", value)?;
        self.to.extend_from_slice(digits.as_bytes())
    }

    fn put_atom(&mut self, atom: Atom) -> Result<(), AllocError> {
        match atom {
            Atom::Int(value) => self.put_integer(value),
            Atom::Sym(number) => self.to.extend_from_slice(self.names.letters(number)),
        }
    }

    #[cycle(form)]
    fn put_form(&mut self, form: &Form) -> Result<(), AllocError> {
        match form {
            Form::Atom { at, atom } => {
                self.put_atom(*atom)?;
                self.put_at(*at)
            }
            Form::List { at, items, tail } => {
                self.to.push(b'(')?;
                self.put_items(items.as_slice())?;
                if let Some(atom) = tail {
                    self.to.extend_from_slice(b" . ")?;
                    self.put_atom(*atom)?;
                }
                self.to.push(b')')?;
                self.put_at(*at)
            }
        }
    }

    #[cycle(form)]
    fn put_items(&mut self, items: &[Form]) -> Result<(), AllocError> {
        let mut is_first = true;
        for item in items {
            if !is_first {
                self.to.push(b' ')?;
            }
            self.put_form(item)?;
            is_first = false;
        }
        Ok(())
    }

    fn put_constant(&mut self, at: Offset, constant: Constant) -> Result<(), AllocError> {
        match constant {
            Constant::Atom { at: own, atom } => {
                self.put_unless_plain(at, own == at)?;
                self.put_atom(atom)?;
                self.put_at(own)
            }
            Constant::Spelled(form) => {
                let is_plain = match form {
                    Form::Atom { at: own, .. } => *own == at,
                    Form::List { .. } => false,
                };
                self.put_unless_plain(at, is_plain)?;
                self.put_form(form)
            }
        }
    }

    // A constant that stands elsewhere than its node is a quoted one.
    fn put_unless_plain(&mut self, at: Offset, is_plain: bool) -> Result<(), AllocError> {
        if is_plain {
            return Ok(());
        }
        self.put_head(b"quote", at)?;
        self.to.push(b' ')?;
        Ok(())
    }

    fn put_head(&mut self, kind: &[u8], at: Offset) -> Result<(), AllocError> {
        self.to.extend_from_slice(kind)?;
        self.put_at(at)
    }

    fn put_parameters(&mut self, parameters: &[Binder]) -> Result<(), AllocError> {
        let mut before = b'[';
        for binder in parameters {
            self.to.push(before)?;
            self.put_binder(binder)?;
            before = b' ';
        }
        if parameters.is_empty() {
            self.to.push(b'[')?;
        }
        self.to.push(b']')?;
        Ok(())
    }

    fn put_function(&mut self, function: &Function) -> Result<(), AllocError> {
        self.put_head(b"defun", function.at)?;
        self.to.push(b'(')?;
        self.put_symbol(function.name, function.named)?;
        self.to.push(b' ')?;
        self.put_parameters(function.params.as_slice())?;
        self.to.push(b' ')?;
        self.put_core(&function.body)?;
        self.to.push(b')')?;
        Ok(())
    }

    // A blank and the core.
    #[cycle(core)]
    fn put_next(&mut self, core: &Core) -> Result<(), AllocError> {
        self.to.push(b' ')?;
        self.put_core(core)
    }

    // Cores, with a blank between them.
    #[cycle(core)]
    fn put_cores(&mut self, cores: &[Core]) -> Result<(), AllocError> {
        let mut is_first = true;
        for core in cores {
            if !is_first {
                self.to.push(b' ')?;
            }
            self.put_core(core)?;
            is_first = false;
        }
        Ok(())
    }

    // A blank before each core.
    #[cycle(core)]
    fn put_others(&mut self, cores: &[Core]) -> Result<(), AllocError> {
        for core in cores {
            self.put_next(core)?;
        }
        Ok(())
    }

    // A blank after each binding.
    #[cycle(core)]
    fn put_bindings(&mut self, bindings: &[Bound]) -> Result<(), AllocError> {
        for bound in bindings {
            self.to.push(b'[')?;
            self.put_binder(&bound.binder)?;
            self.put_next(&bound.value)?;
            self.to.extend_from_slice(b"] ")?;
        }
        Ok(())
    }

    #[cycle(core)]
    fn put_core(&mut self, core: &Core) -> Result<(), AllocError> {
        match &core.node {
            Node::Const(constant) => self.put_constant(core.at, *constant),
            Node::Var(name) => {
                self.to.extend_from_slice(b"var ")?;
                self.put_variable(*name, core.at)
            }
            node => {
                self.put_head(kind_of(node), core.at)?;
                self.to.push(b'(')?;
                self.put_parts(node)?;
                self.to.push(b')')?;
                Ok(())
            }
        }
    }

    // What stands in the parentheses of a node.
    #[cycle(core)]
    fn put_parts(&mut self, node: &Node) -> Result<(), AllocError> {
        match node {
            Node::Const(_) | Node::Var(_) => Ok(()),
            Node::Setq { name, named, value } => {
                self.put_variable(*name, *named)?;
                self.put_next(value.get())
            }
            Node::If { test, then, other } => {
                self.put_core(test.get())?;
                self.put_next(then.get())?;
                self.put_next(other.get())
            }
            Node::Progn(forms) => self.put_cores(forms.as_slice()),
            Node::Let { binds, body } => {
                self.put_bindings(binds.as_slice())?;
                self.put_core(body.get())
            }
            Node::Prim { op, args } => {
                self.to.extend_from_slice(self.names.letters(*op))?;
                self.put_others(args.as_slice())
            }
            Node::Call { name, named, args } => {
                self.put_symbol(*name, *named)?;
                self.put_others(args.as_slice())
            }
            node => self.put_more_parts(node),
        }
    }

    #[cycle(core)]
    fn put_more_parts(&mut self, node: &Node) -> Result<(), AllocError> {
        match node {
            Node::Print(value) => self.put_core(value.get()),
            Node::Funcall { fun, args, .. } => {
                self.put_core(fun.get())?;
                self.put_others(args.as_slice())
            }
            Node::Lambda { params, body } => {
                self.put_parameters(params.as_slice())?;
                self.put_next(body.get())
            }
            Node::Qlet { prop, binds, body } => {
                self.put_core(prop.get())?;
                self.to.push(b' ')?;
                self.put_bindings(binds.as_slice())?;
                self.put_core(body.get())
            }
            Node::Qlambda { prop, params, body } => {
                self.put_core(prop.get())?;
                self.to.push(b' ')?;
                self.put_parameters(params.as_slice())?;
                self.put_next(body.get())
            }
            Node::Defvar { name, named, value } => {
                self.put_symbol(*name, *named)?;
                self.put_next(value.get())
            }
            node => self.put_pair(node),
        }
    }

    // The parts of a node that has two.
    #[cycle(core)]
    fn put_pair(&mut self, node: &Node) -> Result<(), AllocError> {
        match node {
            Node::Catch {
                tag: first,
                body: second,
            }
            | Node::Qcatch {
                tag: first,
                body: second,
            }
            | Node::Throw {
                tag: first,
                value: second,
            }
            | Node::Protect {
                value: first,
                cleanup: second,
            } => {
                self.put_core(first.get())?;
                self.put_next(second.get())
            }
            _ => Ok(()),
        }
    }
}

fn kind_of(node: &Node) -> &'static [u8] {
    match node {
        Node::Const(_) => b"constant",
        Node::Var(_) => b"var",
        Node::Setq { .. } => b"setq",
        Node::If { .. } => b"if",
        Node::Progn(_) => b"progn",
        Node::Let { .. } => b"let",
        Node::Prim { .. } => b"prim",
        Node::Print(_) => b"print",
        Node::Call { .. } => b"call",
        Node::Funcall { ignored: false, .. } => b"funcall",
        Node::Funcall { ignored: true, .. } => b"ignored funcall",
        Node::Lambda { .. } => b"lambda",
        Node::Qlet { .. } => b"qlet",
        Node::Qlambda { .. } => b"qlambda",
        Node::Catch { .. } => b"catch",
        Node::Qcatch { .. } => b"qcatch",
        Node::Throw { .. } => b"throw",
        Node::Protect { .. } => b"protect",
        Node::Defvar { .. } => b"defvar",
    }
}
