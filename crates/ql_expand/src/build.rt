//! The core of forms that have no fault.

ghost use Rattle.std.specs.Prelude.{◌≡◌, ◌≤◌, ◌+◌, IfOk, MatchOption, Some, false, true};
ghost use Rattle.ql_forms.specs.Form.{Forms as Data, atom, more, count, place_of};
ghost use Rattle.ql_forms.specs.View.{atom_of, form_of, forms_of};
ghost use Rattle.ql_expand.specs.Building.{IsList, IsFine, AreFine, IsFineBind, AreFineBinds, IsFineClause, AreFineClauses, HasParameters, HasBinders, IsFineSplit, Gives, allows, passes, Clauses, EachOf, weight, weights};
ghost use Rattle.ql_expand.specs.Core.{named};
ghost use Rattle.ql_expand.specs.Expands.{applied, parameters_in, binders_in, Expands, Body, Bind, Binds};
ghost use Rattle.ql_expand.specs.Operator.{operator_of, reading_of};
ghost use Rattle.ql_expand.specs.Parts.{split_of};
ghost use Rattle.ql_expand.specs.View.{binders_of, bound_of, bounds_of, core_of, cores_of};

use crate::assemble::{Child, Made, Maker, bound_to, has_body};
use crate::core_form::{Binder, Bound, Constant, Core, Node, VarName};
use crate::operator::{Operator, operator_of};
use crate::parts::{Parts, bind_of, clause_of, read};
use ql_base::numbers::Offset;
use ql_forms::form::{Atom, Form, Symbol, first_of};
use sqlite_items::{Boxed, Items};
use std::alloc::{AllocError, Global};

/// The core of a form.
#[cycle(build)]
#[tactic(auto, using(crate::proofs::Making::atom_seen, crate::proofs::Fine::operation_found))]
pub fn expanded<'a>(alloc: Global, dropped: bool, form: &'a Form) -> Made<'a>
    requires { IsFine (form_of form.now) }
    ensures { IfOk result (λ c. Expands dropped (form_of form.now) (core_of c)) }
{
    let at = form.offset();
    let make = Maker { alloc, at };
    if let Some(atom) = atom_in(form) {
        return Ok(make.atom(atom));
    }
    match form.operation() {
        None => unreachable!(),
        Some((head, parts)) => applied(make, dropped, head, parts),
    }
}

// The atom that a form is.
fn atom_in(form: &Form) -> Option<Atom>
    ensures { MatchOption result (IsList (form_of form.now)) (λ found. form_of form.now ≡ atom (place_of (form_of form.now)) (atom_of found)) }
{
    match form {
        Form::Atom { atom, .. } => Some(*atom),
        Form::List { .. } => None,
    }
}

/// The core of a form whose value is used, boxed.
#[cycle(build)]
pub fn boxed<'a>(alloc: Global, form: &'a Form) -> Result<Child<'a>, AllocError>
    requires { IsFine (form_of form.now) }
    ensures { IfOk result (λ c. Expands false (form_of form.now) (core_of c)) }
{
    let core = expanded(alloc, false, form)?;
    Boxed::new(alloc, core)
}

// The parts of a list that has no fault.
fn fitting<'a>(at: Offset, head: Symbol, parts: &'a [Form]) -> Parts<'a>
    requires { IsFine (applied at.0 head.at.0 head.number (forms_of parts.now)) }
    ensures fine { IsFineSplit (split_of result) }
    ensures gives { Gives at.0 head.at.0 head.number (forms_of parts.now) (split_of result) }
{
    match read(operator_of(head.number).reading(), parts) {
        None => unreachable!(),
        Some(split) => split,
    }
}

// A list with this operator.
#[cycle(build)]
fn applied<'a>(make: Maker, dropped: bool, head: Symbol, parts: &'a [Form]) -> Made<'a>
    requires { IsFine (applied make.at.0 head.at.0 head.number (forms_of parts.now)) }
    ensures { IfOk result (λ c. Expands dropped (applied make.at.0 head.at.0 head.number (forms_of parts.now)) (core_of c)) }
{
    match fitting(make.at, head, parts) {
        Parts::Definition { .. } => unreachable!(),
        Parts::Datum(datum) => Ok(make.core(Node::Const(Constant::Spelled(datum)))),
        Parts::Forms(_) => of_forms(make, dropped, operator_of(head.number), head, parts),
        Parts::Assignment { variable, value } => {
            let value = boxed(make.alloc, value)?;
            Ok(make.core(Node::Setq {
                name: VarName::Sym(variable.number),
                named: variable.at,
                value,
            }))
        }
        Parts::Bindings { binds, body } => {
            let binds = all_bound(make.alloc, binds)?;
            let body = boxed_body(make, body)?;
            make.bound(operator_of(head.number), binds, body)
        }
        Parts::FormAndBindings { form, binds, body } => {
            let prop = boxed(make.alloc, form)?;
            let binds = all_bound(make.alloc, binds)?;
            let body = boxed_body(make, body)?;
            Ok(make.core(Node::Qlet { prop, binds, body }))
        }
        Parts::Parameters { params, body } => {
            let params = parameters(make.alloc, params)?;
            let body = boxed_body(make, body)?;
            Ok(make.core(Node::Lambda { params, body }))
        }
        Parts::FormAndParameters { form, params, body } => {
            let prop = boxed(make.alloc, form)?;
            let params = parameters(make.alloc, params)?;
            let body = boxed_body(make, body)?;
            Ok(make.qlambda(prop, params, body))
        }
        Parts::Clauses(clauses) => {
            let core = cond(make, clauses)?;
            Ok(core.into_inner())
        }
    }
}

// The body of a form.
#[cycle(build)]
#[tactic(auto, using(crate::proofs::Gathering::of_bodies))]
pub fn body<'a>(make: Maker, forms: &'a [Form]) -> Made<'a>
    requires { AreFine (forms_of forms.now) }
    ensures { IfOk result (λ c. Body make.at.0 (forms_of forms.now) (core_of c)) }
{
    let Some((last, before)) = forms.split_last() else {
        return Ok(make.nil());
    };
    if before.is_empty() {
        return expanded(make.alloc, false, last);
    }
    let mut cores = each(make.alloc, true, before)?;
    let core = expanded(make.alloc, false, last)?;
    cores.push(core)?;
    Ok(make.progn(cores))
}

// The same, boxed.
#[cycle(build)]
fn boxed_body<'a>(make: Maker, forms: &'a [Form]) -> Result<Child<'a>, AllocError>
    requires { AreFine (forms_of forms.now) }
    ensures { IfOk result (λ c. Body make.at.0 (forms_of forms.now) (core_of c)) }
{
    let core = body(make, forms)?;
    Boxed::new(make.alloc, core)
}

// Forms whose values are all dropped, or all used.
#[cycle(build)]
#[tactic(auto, using(crate::proofs::Fine::weight_at, crate::proofs::Fine::fine_at))]
fn each<'a>(alloc: Global, dropped: bool, forms: &'a [Form]) -> Result<Vec<Core<'a>>, AllocError>
    requires { AreFine (forms_of forms.now) }
    ensures { IfOk result (λ cores. EachOf dropped (forms_of forms.now) (cores_of cores.items)) }
{
    let mut cores = Vec::with_capacity(alloc, forms.len())?;
    for form in forms {
        let core = expanded(alloc, dropped, form)?;
        cores.push(core)?;
    }
    Ok(cores)
}

// Bindings.
#[cycle(build)]
#[tactic(auto, using(crate::proofs::Fine::weight_at, crate::proofs::Fine::fine_bind_at))]
fn all_bound<'a>(alloc: Global, forms: &'a [Form]) -> Result<Items<Bound<'a>>, AllocError>
    requires { AreFineBinds (forms_of forms.now) }
    ensures { IfOk result (λ bounds. Binds (forms_of forms.now) (bounds_of bounds)) }
{
    let mut bounds = Vec::with_capacity(alloc, forms.len())?;
    for form in forms {
        let bound = bind(alloc, form)?;
        bounds.push(bound)?;
    }
    Ok(Items::from_vec(bounds))
}

// A variable and its first value.
#[cycle(build)]
#[tactic(auto, using(crate::proofs::Fine::bind_found))]
fn bind<'a>(alloc: Global, form: &'a Form) -> Result<Bound<'a>, AllocError>
    requires { IsFineBind (form_of form.now) }
    ensures { IfOk result (λ b. Bind (form_of form.now) (bound_of b).0 (bound_of b).1) }
{
    let Some((variable, value)) = bind_of(form) else {
        unreachable!()
    };
    let name = VarName::Sym(variable.number);
    match value {
        None => {
            let at = variable.at;
            Ok(bound_to(at, name, Maker { alloc, at }.nil()))
        }
        Some(value) => {
            let value = expanded(alloc, false, value)?;
            Ok(bound_to(variable.at, name, value))
        }
    }
}

// Clauses.
#[cycle(build)]
#[tactic(auto, using(crate::proofs::Fine::clauses_parts, crate::proofs::Making::no_clause_made))]
fn cond<'a>(make: Maker, clauses: &'a [Form]) -> Result<Child<'a>, AllocError>
    requires { AreFineClauses (forms_of clauses.now) }
    ensures { IfOk result (λ c. Clauses make.at.0 (forms_of clauses.now) (core_of c)) }
{
    match first_of(clauses) {
        None => make.boxed_nil(),
        Some((form, others)) => {
            let rest = cond(make, others)?;
            let core = clause(make, form, rest)?;
            Boxed::new(make.alloc, core)
        }
    }
}

// A clause, and what is built of those after it.
#[cycle(build)]
#[tactic(auto, using(crate::proofs::Fine::clause_found, crate::proofs::Fine::clause_parts, crate::proofs::Making::clause_alone_made))]
fn clause<'a>(make: Maker, form: &'a Form, rest: Child<'a>) -> Made<'a>
    requires { IsFineClause (form_of form.now) }
    ensures { (others : Data) → Clauses make.at.0 others (core_of rest.entry)
        → IfOk result (λ c. Clauses make.at.0 (more (form_of form.now) others) (core_of c)) }
{
    match clause_of(form) {
        None => unreachable!(),
        Some((test, forms)) => match first_of(forms) {
            None => {
                let test = expanded(make.alloc, false, test)?;
                make.either(test, rest)
            }
            Some(_) => {
                let test = boxed(make.alloc, test)?;
                let body = boxed_body(make, forms)?;
                Ok(make.conditional(test, body, rest))
            }
        },
    }
}

// The values of some forms of `and` and `or` are dropped: of a single one, where that of the whole is.
#[tactic(auto, using(crate::proofs::Counts::as_many))]
fn passes(operator: Operator, dropped: bool, forms: &[Form]) -> bool
    ensures { result ≡ passes operator dropped (count (forms_of forms.now)) }
{
    match operator {
        Operator::And | Operator::Or => forms.len() == 1 && dropped,
        _ => false,
    }
}

// The first of some forms that have no fault, and the others.
fn split_first(forms: &[Form]) -> (&Form, &[Form])
    requires fine { AreFine (forms_of forms.now) }
    requires some { 1 ≤ count (forms_of forms.now) }
    ensures shape { forms_of forms.now ≡ more (form_of result.0.now) (forms_of result.1.now) }
    ensures first { IsFine (form_of result.0.now) }
    ensures others { AreFine (forms_of result.1.now) }
    ensures size { weights (forms_of forms.now) ≡ weight (form_of result.0.now) + 1 + weights (forms_of result.1.now) }
{
    match first_of(forms) {
        None => unreachable!(),
        Some(found) => found,
    }
}

// As many forms as the operator wants.
#[cycle(build)]
#[tactic(auto, using(crate::proofs::Making::of_ways))]
fn of_forms<'a>(
    make: Maker,
    dropped: bool,
    operator: Operator,
    head: Symbol,
    forms: &'a [Form],
) -> Made<'a>
    requires operator { operator ≡ operator_of head.number }
    requires fits { allows (reading_of operator) (count (forms_of forms.now)) ≡ true }
    requires fine { AreFine (forms_of forms.now) }
    ensures { IfOk result (λ c. Expands dropped (applied make.at.0 head.at.0 head.number (forms_of forms.now)) (core_of c)) }
{
    match operator {
        Operator::Progn => body(make, forms),
        Operator::Print => {
            let value = boxed_body(make, forms)?;
            Ok(make.print(value))
        }
        Operator::If => {
            let (test, branches) = split_first(forms);
            let (then, others) = split_first(branches);
            let test = boxed(make.alloc, test)?;
            let then = boxed(make.alloc, then)?;
            let other = boxed_body(make, others)?;
            Ok(make.conditional(test, then, other))
        }
        Operator::Funcall => {
            let (function, others) = split_first(forms);
            let fun = boxed(make.alloc, function)?;
            let args = each(make.alloc, false, others)?;
            Ok(make.funcall(dropped, fun, args))
        }
        _ if has_body(operator) => {
            let (form, others) = split_first(forms);
            let first = boxed(make.alloc, form)?;
            let body = boxed_body(make, others)?;
            make.before_body(operator, first, body)
        }
        _ => {
            let cores = each(make.alloc, passes(operator, dropped, forms), forms)?;
            make.of_each(operator, head, cores)
        }
    }
}

/// The parameters in a parameter list.
pub fn parameters(alloc: Global, form: &Form) -> Result<Items<Binder>, AllocError>
    requires { HasParameters (form_of form.now) }
    ensures { IfOk result (λ binders. parameters_in (form_of form.now) ≡ Some (binders_of binders)) }
{
    match form.items() {
        None => unreachable!(),
        Some(items) => all_binders(alloc, items),
    }
}

// Symbols as binders.
fn all_binders(alloc: Global, forms: &[Form]) -> Result<Items<Binder>, AllocError>
    requires { HasBinders (forms_of forms.now) }
    ensures { IfOk result (λ binders. binders_in (forms_of forms.now) ≡ Some (binders_of binders)) }
{
    let mut binders = Vec::with_capacity(alloc, forms.len())?;
    for form in forms {
        match form.symbol() {
            None => unreachable!(),
            Some(symbol) => binders.push(Binder {
                at: symbol.at,
                name: VarName::Sym(symbol.number),
            })?,
        }
    }
    Ok(Items::from_vec(binders))
}
