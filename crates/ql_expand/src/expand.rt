//! The expander.

ghost use Rattle.std.specs.Prelude.{◌≡◌, ℕ, Some, None, Err, IfOk, length};
ghost use Rattle.ql_forms.specs.View.{forms_of};
ghost use Rattle.ql_expand.specs.ExpandFault.{expand_fault};
ghost use Rattle.ql_expand.specs.Expands.{ExpandsTo};
ghost use Rattle.ql_expand.specs.ProgramView.{program_of};
ghost use Rattle.ql_expand.specs.declared.expand.ExpandRefusal.TheVariants.{Bad, Memory};
ghost use Rattle.std.specs.declared.alloc.AllocError.{AllocError};

use crate::program::Program;
use crate::search::find_fault;
use crate::top::program_of_text;
use ql_forms::text::Text;
use std::alloc::{AllocError, Global};
use thiserror::Error;

/// Why the forms of a source expand to no program.
#[derive(Clone, Copy, Debug, PartialEq, Eq, Error)]
pub enum ExpandRefusal {
    /// A form is at fault. The kinds: 9 a form that fits no shape or stands deeper than 400 levels,
    /// 10 a `defun` or `defvar` that is no top form, 11 `nil` or `t` as the name of a variable, or a
    /// reserved word but `eager` as that of a function. `at` is the least offset of a fault, and
    /// `kind` the lowest one there.
    #[error("a form is at fault at byte {at} (kind {kind})")]
    Bad { kind: u8, at: u64 },
    /// There was no memory.
    #[error("out of memory")]
    Memory(AllocError),
}

/// Looks at all forms, and refuses them where one is at fault. It takes no memory, and goes down as
/// many levels as a form may have, which are 400.
pub fn check_forms(text: &Text) -> Result<(), ExpandRefusal>
    ensures ok { IfOk result (λ done. expand_fault text.now.names (forms_of text.now.forms) ≡ None) }
    ensures bad { (kind at : ℕ) → result ≡ Err (Bad kind at) → expand_fault text.now.names (forms_of text.now.forms) ≡ Some (at, kind) }
    ensures needs_no_memory { (cause : AllocError) → result ≡ Err (Memory cause) → ⊥ }
{
    match find_fault(text) {
        None => Ok(()),
        Some(fault) => Err(ExpandRefusal::Bad {
            kind: fault.kind.number(),
            at: fault.at.0,
        }),
    }
}

/// The program that the forms of a source expand to. It shares its constants with the source.
#[tactic(auto, using(ql_base::specs::Refusal::none_found))]
pub fn expand<'a>(alloc: Global, text: &'a Text) -> Result<Program<'a>, ExpandRefusal>
    // The forms expand to it, and none of them is at fault.
    ensures ok { IfOk result (λ program. ExpandsTo (forms_of text.now.forms) (program_of program)) }
    ensures no_fault { IfOk result (λ program. expand_fault text.now.names (forms_of text.now.forms) ≡ None) }
    ensures names { IfOk result (λ program. program.names ≡ length text.now.names) }

    // The first fault is the answer.
    ensures bad { (kind at : ℕ) → result ≡ Err (Bad kind at) → expand_fault text.now.names (forms_of text.now.forms) ≡ Some (at, kind) }
{
    check_forms(text)?;
    program_of_text(alloc, text).map_err(ExpandRefusal::Memory)
}
