//! Top forms, and the program that they make.

ghost use Rattle.std.specs.Prelude.{◌≡◌, [], IfOk, OnOk, length, map};
ghost use Rattle.ql_forms.specs.View.{form_of, forms_of};
ghost use Rattle.ql_expand.specs.ExpandFault.{source_faults};
ghost use Rattle.ql_expand.specs.Expands.{ExpandsTo, TopForms};
ghost use Rattle.ql_expand.specs.Parts.{split_in};
ghost use Rattle.ql_expand.specs.ProgramView.{program_of};
ghost use Rattle.ql_expand.specs.Tops.{Adds, IsFineTop, defined_in};
ghost use Rattle.ql_expand.specs.View.{cores_of, function_of};

use crate::assemble::Maker;
use crate::build::{self, boxed, expanded, parameters};
use crate::core_form::{Core, Function, Node};
use crate::laws::expanded_numbers;
use crate::operator::{Operator, Reading, operator_of};
use crate::parts::{Parts, read};
use crate::program::Program;
use ql_forms::form::Form;
use ql_forms::text::Text;
use sqlite_items::Items;
use std::alloc::{AllocError, Global};

/// What the top forms so far make.
#[derive(Drop)]
pub struct Tops<'a> {
    pub functions: Items<Function<'a>>,
    pub globals: Items<u32>,
    pub body: Items<Core<'a>>,
}

/// The program of forms that have no fault.
pub fn program_of_text<'a>(alloc: Global, text: &'a Text) -> Result<Program<'a>, AllocError>
    requires { source_faults text.now.names (forms_of text.now.forms) ≡ [] }
    ensures expands { IfOk result (λ p. ExpandsTo (forms_of text.now.forms) (program_of p)) }
    ensures names { IfOk result (λ p. p.names ≡ length text.now.names) }
{
    // A law that the program's own fact rests on; the call does nothing.
    expanded_numbers();
    let names = text.names.len();
    let tops = tops_of(alloc, text)?;
    Ok(Program {
        functions: tops.functions,
        globals: tops.globals,
        body: tops.body,
        names,
    })
}

// What the top forms of a source make.
#[tactic(auto, using(crate::proofs::TopForms::fine_top_at, crate::proofs::TopForms::made_next, crate::proofs::TopForms::made_all))]
fn tops_of<'a>(alloc: Global, text: &'a Text) -> Result<Tops<'a>, AllocError>
    requires { source_faults text.now.names (forms_of text.now.forms) ≡ [] }
    ensures { IfOk result (λ t. TopForms (forms_of text.now.forms) (map function_of t.functions) t.globals (cores_of t.body)) }
{
    let mut tops = Tops {
        functions: Items::new(alloc),
        globals: Items::new(alloc),
        body: Items::new(alloc),
    };
    let forms = text.forms.as_slice();
    for form in forms {
        tops.add(alloc, form)?;
    }
    Ok(tops)
}

// The parts of a definition, which no other form has.
fn defined_in(form: &Form) -> Option<Parts<'_>>
    ensures { split_in result ≡ defined_in (form_of form.now) }
{
    let (head, parts) = form.operation()?;
    match operator_of(head.number) {
        Operator::Defun => read(Reading::Definition, parts),
        Operator::Defvar => read(Reading::Global, parts),
        _ => None,
    }
}

impl<'a> Tops<'a> {
    // Adds what a top form makes, last.
    #[tactic(auto, using(crate::proofs::TopForms::form_added, crate::proofs::TopForms::function_added, crate::proofs::TopForms::global_added))]
    fn add(&mut self, alloc: Global, form: &'a Form) -> Result<(), AllocError>
        requires { IsFineTop (form_of form.now) }
        ensures { OnOk result (Adds (form_of form.now) self.old self.new) }
    {
        let at = form.offset();
        match defined_in(form) {
            Some(Parts::Definition { name, params, body }) => {
                let params = parameters(alloc, params)?;
                let body = build::body(Maker { alloc, at }, body)?;
                self.functions.push(Function {
                    name: name.number,
                    at,
                    named: name.at,
                    params,
                    body,
                })
            }
            Some(Parts::Assignment { variable, value }) => {
                let value = boxed(alloc, value)?;
                self.globals.push(variable.number)?;
                self.body.push(Core {
                    at,
                    node: Node::Defvar {
                        name: variable.number,
                        named: variable.at,
                        value,
                    },
                })
            }
            Some(_) => unreachable!(),
            None => {
                let core = expanded(alloc, false, form)?;
                self.body.push(core)
            }
        }
    }
}
