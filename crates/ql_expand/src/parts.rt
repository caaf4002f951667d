//! The parts of a list after its operator.

ghost use Rattle.std.specs.Prelude.{◌≡◌, MatchOption, Some, None, option_map};
ghost use Rattle.ql_forms.specs.View.{form_of, forms_of};
ghost use Rattle.ql_expand.specs.Parts.{fits, split_in, parts_by, bind_in, with_value, clause_in, only_in, forms_by, assignment_by, bindings_by, form_and_bindings_by, parameters_by, form_and_parameters_by, definition_by};

use crate::operator::Reading;
use ql_forms::form::{Form, Symbol, first_of};

/// The parts of a list after its operator, as they fit the shape that the operator wants.
#[derive(Clone, Copy)]
pub enum Parts<'a> {
    /// What is quoted.
    Datum(&'a Form),
    /// As many forms as are wanted.
    Forms(&'a [Form]),
    /// A variable or a global, and its value.
    Assignment {
        variable: Symbol,
        value: &'a Form,
    },
    Bindings {
        binds: &'a [Form],
        body: &'a [Form],
    },
    FormAndBindings {
        form: &'a Form,
        binds: &'a [Form],
        body: &'a [Form],
    },
    Parameters {
        params: &'a Form,
        body: &'a [Form],
    },
    FormAndParameters {
        form: &'a Form,
        params: &'a Form,
        body: &'a [Form],
    },
    /// The name, the parameters and the body of a function.
    Definition {
        name: Symbol,
        params: &'a Form,
        body: &'a [Form],
    },
    Clauses(&'a [Form]),
}

/// The parts that are read like this, where they fit its shape.
pub fn read<'a>(reading: Reading, parts: &'a [Form]) -> Option<Parts<'a>>
    ensures { split_in result ≡ parts_by reading (forms_of parts.now) }
{
    match reading {
        Reading::Nothing => None,
        Reading::Datum => Some(Parts::Datum(only(parts)?)),
        Reading::Forms(least, most) => forms(least, most, parts),
        Reading::SugarForms(least, most) => forms(least, most, parts),
        Reading::Operands(least) => forms(least, None, parts),
        Reading::Assignment | Reading::Global => assignment(parts),
        Reading::Bindings | Reading::SugarBindings => bindings(parts),
        Reading::FormAndBindings => form_and_bindings(parts),
        Reading::Parameters => parameters(parts),
        Reading::FormAndParameters => form_and_parameters(parts),
        Reading::Definition => definition(parts),
        Reading::Clauses => Some(Parts::Clauses(parts)),
    }
}

// The form that stands alone.
fn only(forms: &[Form]) -> Option<&Form>
    ensures { MatchOption result (only_in (forms_of forms.now) ≡ None) (λ form. only_in (forms_of forms.now) ≡ Some (form_of form.now)) }
{
    let (form, others) = first_of(forms)?;
    match first_of(others) {
        None => Some(form),
        Some(_) => None,
    }
}

// So many forms, as are wanted.
#[tactic(auto, using(crate::proofs::Counts::as_many))]
fn forms<'a>(least: usize, most: Option<usize>, parts: &'a [Form]) -> Option<Parts<'a>>
    ensures { split_in result ≡ forms_by least most (forms_of parts.now) }
{
    fits(least, most, parts.len()).then_some(Parts::Forms(parts))
}

// Whether so many parts are wanted.
fn fits(least: usize, most: Option<usize>, parts: usize) -> bool
    ensures { result ≡ fits least most parts }
{
    match most {
        None => least <= parts,
        Some(most) => least <= parts && parts <= most,
    }
}

fn assignment<'a>(parts: &'a [Form]) -> Option<Parts<'a>>
    ensures { split_in result ≡ assignment_by (forms_of parts.now) }
{
    let (variable, others) = first_of(parts)?;
    let variable = variable.symbol()?;
    let value = only(others)?;
    Some(Parts::Assignment { variable, value })
}

fn bindings<'a>(parts: &'a [Form]) -> Option<Parts<'a>>
    ensures { split_in result ≡ bindings_by (forms_of parts.now) }
{
    let (binds, body) = first_of(parts)?;
    let binds = binds.items()?;
    Some(Parts::Bindings { binds, body })
}

fn form_and_bindings<'a>(parts: &'a [Form]) -> Option<Parts<'a>>
    ensures { split_in result ≡ form_and_bindings_by (forms_of parts.now) }
{
    let (form, others) = first_of(parts)?;
    let (binds, body) = first_of(others)?;
    let binds = binds.items()?;
    Some(Parts::FormAndBindings { form, binds, body })
}

fn parameters<'a>(parts: &'a [Form]) -> Option<Parts<'a>>
    ensures { split_in result ≡ parameters_by (forms_of parts.now) }
{
    let (params, body) = first_of(parts)?;
    Some(Parts::Parameters { params, body })
}

fn form_and_parameters<'a>(parts: &'a [Form]) -> Option<Parts<'a>>
    ensures { split_in result ≡ form_and_parameters_by (forms_of parts.now) }
{
    let (form, others) = first_of(parts)?;
    let (params, body) = first_of(others)?;
    Some(Parts::FormAndParameters { form, params, body })
}

fn definition<'a>(parts: &'a [Form]) -> Option<Parts<'a>>
    ensures { split_in result ≡ definition_by (forms_of parts.now) }
{
    let (name, others) = first_of(parts)?;
    let (params, body) = first_of(others)?;
    let name = name.symbol()?;
    Some(Parts::Definition { name, params, body })
}

/// The variable that a form binds, as `(v e)`, `(v)` or `v`, and the form of its value.
pub fn bind_of(form: &Form) -> Option<(Symbol, Option<&Form>)>
    ensures { MatchOption result (bind_in (form_of form.now) ≡ None)
        (λ b. bind_in (form_of form.now) ≡ Some ((b.0.at.0, b.0.number), option_map (λ e. form_of e.now) b.1)) }
{
    if let Form::Atom { .. } = form {
        return Some((form.symbol()?, None));
    }
    let (variable, others) = form.operation()?;
    with_value(variable, others)
}

// A variable, and its value where it has one.
fn with_value<'a>(variable: Symbol, others: &'a [Form]) -> Option<(Symbol, Option<&'a Form>)>
    ensures { MatchOption result (with_value (variable.at.0, variable.number) (forms_of others.now) ≡ None)
        (λ b. with_value (variable.at.0, variable.number) (forms_of others.now)
        ≡ Some ((b.0.at.0, b.0.number), option_map (λ e. form_of e.now) b.1)) }
{
    let Some((value, rest)) = first_of(others) else {
        return Some((variable, None));
    };
    match first_of(rest) {
        Some(_) => None,
        None => Some((variable, Some(value))),
    }
}

/// The test of a clause, and its other forms.
pub fn clause_of(form: &Form) -> Option<(&Form, &[Form])>
    ensures { MatchOption result (clause_in (form_of form.now) ≡ None)
        (λ c. clause_in (form_of form.now) ≡ Some (form_of c.0.now, forms_of c.1.now)) }
{
    first_of(form.proper_items()?)
}
