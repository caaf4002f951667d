//! Core of core that is made already.

ghost use Rattle.std.specs.Prelude.{◌≡◌, IfOk, [], ◌∷◌, reverse};
ghost use Rattle.ql_base.specs.Reserved.{number};
ghost use Rattle.ql_forms.specs.View.{atom_of};
ghost use Rattle.ql_forms.specs.Form.{atom};
ghost use Rattle.ql_expand.specs.Assembly.{nil_core, atom_core, with_one, with_two, either, linked, chain, all_linked, folded, operands, nested, let_core, before_body, of_each, has_body};
ghost use Rattle.ql_expand.specs.Core.{binder, binding, call, core, constant, conditional, funcall, named, primitive, print, progn, qlambda, variable};
ghost use Rattle.ql_expand.specs.View.{binders_of, bound_of, bounds_of, core_of, cores_of, name_of, node_of};

use crate::core_form::{Binder, Bound, Constant, Core, Node, VarName};
use crate::operator::{Operator, operator_of};
use ql_base::numbers::Offset;
use ql_base::reserved::Reserved;
use ql_forms::form::{Atom, Form, Symbol};
use sqlite_items::{Boxed, Items};
use std::alloc::{AllocError, Global};

/// Core that is made where there is memory.
pub type Made<'a> = Result<Core<'a>, AllocError>;

/// Core inside other core, which is boxed.
///
/// Core that is held where memory may be wanting is boxed or stands in a vector. To let go of bare
/// core is to look at each kind of it, at every call that may fail, and the proof would look there too.
pub type Child<'a> = Boxed<Core<'a>>;

/// Whether a form and a body stand after this operator.
pub fn has_body(operator: Operator) -> bool
    ensures { result ≡ has_body operator }
{
    matches!(
        operator,
        Operator::Catch
            | Operator::Qcatch
            | Operator::Throw
            | Operator::Protect
            | Operator::When
            | Operator::Unless
    )
}

/// A variable and its first value.
pub fn bound_to<'a>(at: Offset, name: VarName, value: Core<'a>) -> Bound<'a>
    ensures { bound_of result ≡ (binder at.0 (name_of name), core_of value.entry) }
{
    let binder = Binder { at, name };
    Bound { binder, value }
}

// This item alone.
fn one_item<T: Drop>(alloc: Global, item: T) -> Result<Items<T>, AllocError>
    ensures { IfOk result (λ items. items ≡ item ∷ []) }
{
    let mut items = Vec::with_capacity(alloc, 1)?;
    items.push(item)?;
    Ok(Items::from_vec(items))
}

/// Makes core at the offset of a form.
#[derive(Clone, Copy)]
pub struct Maker {
    pub alloc: Global,
    pub at: Offset,
}

impl Maker {
    /// Core of this kind.
    pub fn core<'a>(self, node: Node<'a>) -> Core<'a>
        ensures { core_of result ≡ core self.at.0 (node_of node.entry) }
    {
        Core { at: self.at, node }
    }

    fn constant<'a>(self, value: Atom) -> Core<'a>
        ensures { core_of result ≡ core self.at.0 (constant (atom self.at.0 (atom_of value))) }
    {
        self.core(Node::Const(Constant::Atom {
            at: self.at,
            atom: value,
        }))
    }

    /// An atom that stands alone.
    pub fn atom<'a>(self, value: Atom) -> Core<'a>
        ensures { core_of result ≡ atom_core self.at.0 (atom_of value) }
    {
        match value {
            Atom::Int(_) => self.constant(value),
            Atom::Sym(number) => match operator_of(number) {
                Operator::Constant => self.constant(value),
                _ => self.core(Node::Var(VarName::Sym(number))),
            },
        }
    }

    /// The constant nil.
    pub fn nil<'a>(self) -> Core<'a>
        ensures { core_of result ≡ nil_core self.at.0 }
    {
        self.constant(Atom::Sym(Reserved::Nil.number()))
    }

    /// The constant nil, boxed.
    pub fn boxed_nil<'a>(self) -> Result<Child<'a>, AllocError>
        ensures { IfOk result (λ c. core_of c ≡ nil_core self.at.0) }
    {
        self.boxed(self.nil())
    }

    fn boxed<'a>(self, value: Core<'a>) -> Result<Child<'a>, AllocError>
        ensures { IfOk result (λ c. core_of c ≡ core_of value.entry) }
    {
        Boxed::new(self.alloc, value)
    }

    fn primitive<'a>(self, op: u32, args: Items<Core<'a>>) -> Core<'a>
        ensures { core_of result ≡ core self.at.0 (primitive op (cores_of args.entry)) }
    {
        self.core(Node::Prim { op, args })
    }

    // Whether a primitive that sugar adds has the value nil.
    fn negated<'a>(self, op: Reserved, args: Vec<Core<'a>>) -> Made<'a>
        ensures { IfOk result (λ c. core_of c ≡ with_one self.at.0 (number Reserved.Null) (core self.at.0 (primitive (number op) (cores_of args.entry.items)))) }
    {
        let value = self.primitive(op.number(), Items::from_vec(args));
        let value = vec![in self.alloc; value]?;
        Ok(self.primitive(Reserved::Null.number(), Items::from_vec(value)))
    }

    fn with_two<'a>(self, op: u32, first: Core<'a>, second: Core<'a>) -> Made<'a>
        ensures { IfOk result (λ c. core_of c ≡ with_two self.at.0 op (core_of first.entry) (core_of second.entry)) }
    {
        let args = vec![in self.alloc; first, second]?;
        Ok(self.primitive(op, Items::from_vec(args)))
    }

    /// A conditional.
    pub fn conditional<'a>(self, test: Child<'a>, then: Child<'a>, other: Child<'a>) -> Core<'a>
        ensures { core_of result ≡ core self.at.0 (conditional (core_of test.entry) (core_of then.entry) (core_of other.entry)) }
    {
        self.core(Node::If { test, then, other })
    }

    /// The first core, or else the second.
    pub fn either<'a>(self, first: Core<'a>, second: Child<'a>) -> Made<'a>
        ensures { IfOk result (λ c. core_of c ≡ either self.at.0 (core_of first.entry) (core_of second.entry)) }
    {
        let binds = one_item(self.alloc, bound_to(self.at, VarName::Hidden(0), first))?;
        let test = Boxed::new(self.alloc, self.core(Node::Var(VarName::Hidden(0))))?;
        let then = Boxed::new(self.alloc, self.core(Node::Var(VarName::Hidden(0))))?;
        let body = Boxed::new(self.alloc, self.conditional(test, then, second))?;
        Ok(self.binding(binds, body))
    }

    // A form before the rest of `and`, `or` or `list`.
    fn linked<'a>(
        self,
        operator: Operator,
        first: Core<'a>,
        rest: Child<'a>,
    ) -> Result<Child<'a>, AllocError>
        ensures { IfOk result (λ c. core_of c ≡ linked operator self.at.0 (core_of first.entry) (core_of rest.entry)) }
    {
        let core = match operator {
            Operator::And => {
                let first = self.boxed(first)?;
                let nil = self.boxed_nil()?;
                self.conditional(first, rest, nil)
            }
            Operator::Or => self.either(first, rest)?,
            _ => self.with_two(Reserved::Cons.number(), first, rest.into_inner())?,
        };
        self.boxed(core)
    }

    // Forms before the rest, from the last one.
    #[tactic(auto, using(crate::proofs::Assembles::chain_last))]
    fn chain<'a>(self, operator: Operator, cores: Vec<Core<'a>>, mut rest: Child<'a>) -> Made<'a>
        ensures { IfOk result (λ c. core_of c ≡ chain operator self.at.0 (cores_of cores.entry.items) (core_of rest.entry)) }
    {
        let mut before = cores;
        while let Some(core) = before.pop() {
            rest = self.linked(operator, core, rest)?;
        }
        Ok(rest.into_inner())
    }

    // Forms of `and` or `or`, of which the last is the rest.
    #[tactic(auto, using(crate::proofs::Assembles::all_linked_last))]
    fn all_linked<'a>(self, operator: Operator, mut cores: Vec<Core<'a>>) -> Made<'a>
        ensures { IfOk result (λ c. core_of c ≡ all_linked operator self.at.0 (cores_of cores.entry.items)) }
    {
        match cores.pop() {
            None => match operator {
                Operator::And => Ok(self.constant(Atom::Sym(Reserved::True.number()))),
                _ => Ok(self.nil()),
            },
            Some(last) => {
                let last = self.boxed(last)?;
                self.chain(operator, cores, last)
            }
        }
    }

    // Operands of an operator of two, the last one first.
    #[tactic(auto, using(crate::proofs::Assembles::folded_last))]
    fn folded<'a>(self, op: u32, mut sum: Child<'a>, mut reversed: Vec<Core<'a>>) -> Made<'a>
        ensures { IfOk result (λ c. core_of c ≡ folded self.at.0 op (core_of sum.entry) (cores_of (reverse reversed.entry.items))) }
    {
        while let Some(core) = reversed.pop() {
            let both = self.with_two(op, sum.into_inner(), core)?;
            sum = Boxed::new(self.alloc, both)?;
        }
        Ok(sum.into_inner())
    }

    // Operands of an operator of two, with the number that stands before a single one.
    #[tactic(auto, using(crate::proofs::Assembles::operands_few, crate::proofs::Assembles::operands_more))]
    fn operands<'a>(self, op: u32, unit: u8, mut cores: Vec<Core<'a>>) -> Made<'a>
        ensures { IfOk result (λ c. core_of c ≡ operands self.at.0 op unit (cores_of cores.entry.items)) }
    {
        cores.reverse();
        if cores.len() < 2 {
            let unit = Boxed::new(self.alloc, self.constant(Atom::Int(i64::from(unit))))?;
            return self.folded(op, unit, cores);
        }
        match cores.pop() {
            None => unreachable!(),
            Some(first) => {
                let first = self.boxed(first)?;
                self.folded(op, first, cores)
            }
        }
    }

    fn binding<'a>(self, binds: Items<Bound<'a>>, body: Child<'a>) -> Core<'a>
        ensures { core_of result ≡ core self.at.0 (binding (bounds_of binds.entry) (core_of body.entry)) }
    {
        self.core(Node::Let { binds, body })
    }

    // A body under bindings of which each sees those before it, from the last one.
    #[tactic(auto, using(crate::proofs::Assembles::under_last, crate::proofs::Assembles::nested_under))]
    fn nested<'a>(self, mut binds: Items<Bound<'a>>, mut body: Child<'a>) -> Made<'a>
        ensures { IfOk result (λ c. core_of c ≡ nested self.at.0 (bounds_of binds.entry) (core_of body.entry)) }
    {
        if binds.is_empty() {
            return Ok(self.binding(binds, body));
        }
        while let Some(bind) = binds.pop() {
            let alone = one_item(self.alloc, bind)?;
            body = Boxed::new(self.alloc, self.binding(alone, body))?;
        }
        Ok(body.into_inner())
    }

    /// Bindings round a body, of `let` or `let*`.
    pub fn bound<'a>(self, operator: Operator, binds: Items<Bound<'a>>, body: Child<'a>) -> Made<'a>
        ensures { IfOk result (λ c. core_of c ≡ let_core operator self.at.0 (bounds_of binds.entry) (core_of body.entry)) }
    {
        match operator {
            Operator::LetStar => self.nested(binds, body),
            _ => Ok(self.binding(binds, body)),
        }
    }

    /// A form and a body. An operator that is none of these is `when`.
    pub fn before_body<'a>(self, operator: Operator, first: Child<'a>, body: Child<'a>) -> Made<'a>
        ensures { IfOk result (λ c. core_of c ≡ before_body operator self.at.0 (core_of first.entry) (core_of body.entry)) }
    {
        let node = match operator {
            Operator::Catch => Node::Catch { tag: first, body },
            Operator::Qcatch => Node::Qcatch { tag: first, body },
            Operator::Throw => Node::Throw {
                tag: first,
                value: body,
            },
            Operator::Protect => Node::Protect {
                value: first,
                cleanup: body,
            },
            Operator::Unless => Node::If {
                test: first,
                then: self.boxed_nil()?,
                other: body,
            },
            _ => Node::If {
                test: first,
                then: body,
                other: self.boxed_nil()?,
            },
        };
        Ok(self.core(node))
    }

    /// Forms by themselves. An operator that is none of these is a primitive.
    pub fn of_each<'a>(self, operator: Operator, head: Symbol, cores: Vec<Core<'a>>) -> Made<'a>
        ensures { IfOk result (λ c. core_of c ≡ of_each operator self.at.0 head.at.0 head.number (cores_of cores.entry.items)) }
    {
        match operator {
            Operator::Sum | Operator::Difference => self.operands(head.number, 0, cores),
            Operator::Product => self.operands(head.number, 1, cores),
            Operator::Not => Ok(self.primitive(Reserved::Null.number(), Items::from_vec(cores))),
            Operator::AtMost => self.negated(Reserved::Greater, cores),
            Operator::AtLeast => self.negated(Reserved::Less, cores),
            Operator::And | Operator::Or => self.all_linked(operator, cores),
            Operator::List => self.chain(operator, cores, self.boxed_nil()?),
            Operator::Call => Ok(self.core(Node::Call {
                name: head.number,
                named: head.at,
                args: Items::from_vec(cores),
            })),
            _ => Ok(self.primitive(head.number, Items::from_vec(cores))),
        }
    }

    /// Forms in turn.
    pub fn progn<'a>(self, forms: Vec<Core<'a>>) -> Core<'a>
        ensures { core_of result ≡ core self.at.0 (progn (cores_of forms.entry.items)) }
    {
        self.core(Node::Progn(Items::from_vec(forms)))
    }

    /// A print.
    pub fn print<'a>(self, value: Child<'a>) -> Core<'a>
        ensures { core_of result ≡ core self.at.0 (print (core_of value.entry)) }
    {
        self.core(Node::Print(value))
    }

    /// A call of a closure.
    pub fn funcall<'a>(self, ignored: bool, fun: Child<'a>, args: Vec<Core<'a>>) -> Core<'a>
        ensures { core_of result ≡ core self.at.0 (funcall ignored (core_of fun.entry) (cores_of args.entry.items)) }
    {
        self.core(Node::Funcall {
            ignored,
            fun,
            args: Items::from_vec(args),
        })
    }

    /// A closure that may be a process.
    pub fn qlambda<'a>(self, prop: Child<'a>, params: Items<Binder>, body: Child<'a>) -> Core<'a>
        ensures { core_of result ≡ core self.at.0 (qlambda (core_of prop.entry) (binders_of params) (core_of body.entry)) }
    {
        self.core(Node::Qlambda { prop, params, body })
    }
}
