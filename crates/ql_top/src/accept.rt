//! The code of the program that the forms of a source make.

ghost use Rattle.std.specs.Prelude.{◌≡◌, ℕ, List, None};
ghost use Rattle.ql_forms.specs.Form.{Forms};
ghost use Rattle.ql_forms.specs.View.{forms_of};
ghost use Rattle.ql_expand.specs.ExpandFault.{expand_fault};
ghost use Rattle.ql_expand.specs.Expands.{ExpandsTo};
ghost use Rattle.ql_expand.specs.ProgramView.{program_of};
ghost use Rattle.ql_scope.specs.Scope.{InScope};
ghost use Rattle.ql_top.specs.Acts.{Accepts};

use crate::status::Status;
use ql_base::refusal::FaultKind;
use ql_code::code::Code;
use ql_compile::compile::{CompileRefusal, compile};
use ql_expand::expand::{ExpandRefusal, expand};
use ql_forms::text::Text;
use ql_scope::check::{ScopeRefusal, check};
use ql_scope::scoped::Scoped;
use std::alloc::Global;

/// The code of the program that the forms of a source expand to, if its names are in scope and it isn't
/// too long. A fault of the forms is answered before any fault of the names, and that before the length
/// of the code.
pub fn accept(alloc: Global, text: &Text) -> Result<Code, Status>
    ensures { Accepts result text.now.names (forms_of text.now.forms) }
{
    match expand(alloc, text) {
        Ok(program) => match check(alloc, program) {
            Ok(scoped) => code_of(alloc, &scoped),
            Err(ScopeRefusal::Bad { kind, at }) => Err(Status::Refused { kind, at }),
            Err(ScopeRefusal::Memory(_)) => Err(Status::NoMemory),
        },
        Err(ExpandRefusal::Bad { kind, at }) => Err(Status::Refused { kind, at }),
        Err(ExpandRefusal::Memory(_)) => Err(Status::NoMemory),
    }
}

/// The code of a program in scope, if that isn't too long.
fn code_of(alloc: Global, scoped: &Scoped) -> Result<Code, Status>
    ensures { (names : List (List ℕ)) (forms : Forms) → expand_fault names forms ≡ None → ExpandsTo forms (program_of scoped.now.program) → InScope (program_of scoped.now.program) → Accepts result names forms }
{
    match compile(alloc, scoped) {
        Ok(code) => Ok(code),
        Err(CompileRefusal::TooLong { at }) => Err(Status::Refused {
            kind: FaultKind::CodeTooLong.number(),
            at,
        }),
        Err(CompileRefusal::Memory(_)) => Err(Status::NoMemory),
    }
}
