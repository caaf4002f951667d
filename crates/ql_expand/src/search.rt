//! The first fault of the forms of a source.

ghost use Rattle.std.specs.Prelude.{◌≡◌, ◌≤◌, ◌+◌, Some, is_some};
ghost use Rattle.ql_base.specs.Refusal.{least};
ghost use Rattle.ql_forms.specs.View.{form_of, forms_of};
ghost use Rattle.ql_expand.specs.ExpandFault.{misshapen, variable_faults, function_faults, is_marked, top_faults, all_faults, parameter_faults, symbols_faults, parameters_faults, split_faults, faults, source_faults};
ghost use Rattle.ql_expand.specs.Expands.{binders_in};
ghost use Rattle.ql_expand.specs.Parts.{split_in};
ghost use Rattle.ql_expand.specs.Searching.{Past, inside};

use crate::level::{DEEPEST, level_below};
use crate::operator::{Operator, Reading, operator_of};
use crate::parts::{Parts, bind_of, clause_of, read};
use ql_base::names::Names;
use ql_base::numbers::Offset;
use ql_base::refusal::{Fault, FaultKind, find, find_if};
use ql_forms::form::{Form, Symbol};
use ql_forms::text::Text;

/// The first fault of the forms of a source.
pub fn find_fault(text: &Text) -> Option<Fault>
    ensures { result ≡ least (source_faults text.now.names (forms_of text.now.forms)) }
{
    let mut search = Search {
        names: &text.names,
        first: None,
    };
    search.all(1, Role::Top, text.forms.as_slice());
    search.first
}

// Whether `&` comes first.
fn is_marked(letters: &[u8]) -> bool
    ensures { result ≡ is_marked letters.now }
{
    match letters {
        [] => false,
        [first, ..] => *first == b'&',
    }
}

// Whether each of these is a symbol.
fn are_symbols(forms: &[Form]) -> bool
    ensures { result ≡ is_some (binders_in (forms_of forms.now)) }
{
    for form in forms {
        if form.symbol().is_none() {
            return false;
        }
    }
    true
}

/// What a form stands as: a top form, another form, a binding or a clause.
#[derive(Clone, Copy)]
pub enum Role {
    Top,
    Inner,
    Bind,
    Clause,
}

// How far the search has come.
#[derive(Drop)]
struct Search<'a> {
    names: &'a Names,
    first: Option<Fault>,
}

impl<'a> Search<'a> {
    fn bad_shape(&mut self, at: Offset)
        ensures { Past self.old self.new (misshapen at.0) }
    {
        find(&mut self.first, FaultKind::BadShape, at);
    }

    // The name of a variable.
    fn variable(&mut self, symbol: Symbol)
        ensures { Past self.old self.new (variable_faults symbol.at.0 symbol.number) }
    {
        let wrong = matches!(operator_of(symbol.number), Operator::Constant);
        find_if(&mut self.first, wrong, FaultKind::ReservedName, symbol.at);
    }

    // The name of a function.
    fn function(&mut self, symbol: Symbol)
        ensures { Past self.old self.new (function_faults symbol.at.0 symbol.number) }
    {
        let wrong = !matches!(operator_of(symbol.number), Operator::Call);
        find_if(&mut self.first, wrong, FaultKind::ReservedName, symbol.at);
    }

    fn parameter(&mut self, symbol: Symbol)
        ensures { Past self.old self.new (parameter_faults self.old.names.now (Some (symbol.at.0, symbol.number))) }
    {
        if is_marked(self.names.letters(symbol.number)) {
            self.bad_shape(symbol.at);
        } else {
            self.variable(symbol);
        }
    }

    // A parameter list.
    fn parameters(&mut self, params: &Form)
        ensures { Past self.old self.new (parameters_faults self.old.names.now (form_of params.now)) }
    {
        match params.items() {
            Some(items) if are_symbols(items) => self.symbols(items),
            _ => self.bad_shape(params.offset()),
        }
    }

    // The symbols among these as parameters.
    fn symbols(&mut self, forms: &[Form])
        ensures { Past self.old self.new (symbols_faults self.old.names.now (forms_of forms.now)) }
    {
        for form in forms {
            if let Some(symbol) = form.symbol() {
                self.parameter(symbol);
            }
        }
    }

    // A definition that is no top form.
    fn definition(&mut self, role: Role, at: Offset, reading: Reading)
        ensures { Past self.old self.new (top_faults role at.0 reading) }
    {
        let top = matches!(role, Role::Top);
        if let Reading::Global | Reading::Definition = reading {
            find_if(&mut self.first, !top, FaultKind::BadTop, at);
        }
    }

    // Forms in this role at this level.
    #[cycle(search)]
    #[tactic(auto, using(ql_base::specs::Refusal::first_appended, crate::proofs::Counts::rest))]
    fn all(&mut self, level: u128, role: Role, forms: &[Form])
        ensures { Past self.old self.new (all_faults (faults self.old.names.now level role) (forms_of forms.now)) }
    {
        for form in forms {
            self.form(level, role, form);
        }
    }

    #[cycle(search)]
    #[tactic(auto, using(ql_base::specs::Refusal::first_appended, crate::proofs::Levels::too_deep, crate::proofs::Levels::shallow))]
    fn form(&mut self, level: u128, role: Role, form: &Form)
        ensures { Past self.old self.new (faults self.old.names.now level role (form_of form.now)) }
    {
        if level > DEEPEST {
            self.bad_shape(form.offset());
        } else {
            self.inside(level, role, form);
        }
    }

    // A form that isn't too deep. The value of a binding and the forms of a clause are one level further.
    #[cycle(search)]
    #[tactic(auto, using(ql_base::specs::Refusal::first_appended))]
    fn inside(&mut self, level: u128, role: Role, form: &Form)
        requires { level ≤ 400 }
        ensures { Past self.old self.new (inside self.old.names.now level role (form_of form.now)) }
    {
        let at = form.offset();
        match role {
            Role::Bind => match bind_of(form) {
                None => self.bad_shape(at),
                Some((variable, None)) => self.variable(variable),
                Some((variable, Some(value))) => {
                    self.variable(variable);
                    self.form(level + 1, Role::Inner, value);
                }
            },
            Role::Clause => match clause_of(form) {
                None => self.bad_shape(at),
                Some((test, others)) => {
                    self.form(level + 1, Role::Inner, test);
                    self.all(level + 1, Role::Inner, others);
                }
            },
            Role::Top | Role::Inner if form.is_atom() => {}
            Role::Top | Role::Inner => match form.operation() {
                None => self.bad_shape(at),
                Some((head, parts)) => {
                    let reading = operator_of(head.number).reading();
                    let parts = read(reading, parts);
                    self.definition(role, at, reading);
                    self.parts(level_below(reading, level, parts), at, parts);
                }
            },
        }
    }

    #[cycle(search)]
    #[tactic(auto, using(ql_base::specs::Refusal::first_appended))]
    fn parts(&mut self, level: u128, at: Offset, parts: Option<Parts>)
        ensures { Past self.old self.new (split_faults self.old.names.now (faults self.old.names.now level) at.0 (split_in parts.entry)) }
    {
        let Some(parts) = parts else {
            self.bad_shape(at);
            return;
        };
        match parts {
            Parts::Datum(_) => {}
            Parts::Forms(forms) => self.all(level, Role::Inner, forms),
            Parts::Assignment { variable, value } => {
                self.variable(variable);
                self.form(level, Role::Inner, value);
            }
            Parts::Bindings { binds, body } => {
                self.all(level, Role::Bind, binds);
                self.all(level, Role::Inner, body);
            }
            Parts::FormAndBindings { form, binds, body } => {
                self.form(level, Role::Inner, form);
                self.all(level, Role::Bind, binds);
                self.all(level, Role::Inner, body);
            }
            Parts::Parameters { params, body } => {
                self.parameters(params);
                self.all(level, Role::Inner, body);
            }
            Parts::FormAndParameters { form, params, body } => {
                self.form(level, Role::Inner, form);
                self.parameters(params);
                self.all(level, Role::Inner, body);
            }
            Parts::Definition { name, params, body } => {
                self.function(name);
                self.parameters(params);
                self.all(level, Role::Inner, body);
            }
            Parts::Clauses(clauses) => self.all(level, Role::Clause, clauses),
        }
    }
}
