//! The check of a program.

ghost use Rattle.std.specs.Prelude.{◌≡◌, ℕ, IfOk, Some, Err};
ghost use Rattle.ql_base.specs.Refusal.{least};
ghost use Rattle.ql_expand.specs.ProgramView.{program_of};
ghost use Rattle.ql_scope.specs.Scope.{InScope, program_faults, scope_fault};
ghost use Rattle.ql_scope.specs.Scoped.{HasStored, IsExpanded};
ghost use Rattle.ql_scope.specs.declared.check.ScopeRefusal.TheVariants.{Bad};

use crate::repeats::{check_functions, check_globals};
use crate::scoped::Scoped;
use crate::walk::{Found, Walk};
use ql_expand::program::Program;
use std::alloc::{AllocError, Global};
use thiserror::Error;

/// Why a program isn't in scope.
#[derive(Clone, Copy, Debug, PartialEq, Eq, Error)]
pub enum ScopeRefusal {
    /// The program is at fault. The kinds: 12 a variable that nothing binds, 13 a call of a function
    /// that isn't there, 14 a name that is given twice, 15 a call with a wrong number of arguments,
    /// 17 a parameter or binding with the name of a global, 18 a 17th parameter, binding or argument
    /// of `funcall`. No kind has the number 16. `at` is the least offset of a fault, and `kind` the
    /// lowest one there.
    #[error("the program is at fault at byte {at} (kind {kind})")]
    Bad { kind: u8, at: u64 },
    /// There was no memory.
    #[error("out of memory")]
    Memory(AllocError),
}

/// Checks a program that forms expand to. Of its faults the first one is answered.
pub fn check<'a>(alloc: Global, program: Program<'a>) -> Result<Scoped<'a>, ScopeRefusal>
    requires expanded { IsExpanded (program_of program) program.names }
    ensures ok { IfOk result (λ scoped. scoped.program ≡ program.entry) }
    ensures in_scope { IfOk result (λ scoped. InScope (program_of program.entry)) }
    ensures bad { (kind at : ℕ) → result ≡ Err (Bad kind at) → scope_fault (program_of program.entry) ≡ Some (at, kind) }
{
    match found_in(alloc, &program) {
        Err(error) => Err(ScopeRefusal::Memory(error)),
        Ok(Found { first, stored }) => match first {
            Some(fault) => Err(ScopeRefusal::Bad {
                kind: fault.kind.number(),
                at: fault.at.0,
            }),
            None => Ok(Scoped { program, stored }),
        },
    }
}

// The first fault of a program, and the variables that some `setq` names.
fn found_in<'a>(alloc: Global, program: &Program<'a>) -> Result<Found, AllocError>
    ensures first { IfOk result (λ found. found.first ≡ least (program_faults (program_of program.now))) }
    ensures stored { IfOk result (λ found. HasStored (program_of program.now) found.stored.keys) }
{
    let functions = program.functions.as_slice();
    let body = program.body.as_slice();
    let mut first = None;
    check_functions(alloc, program.names, &mut first, functions)?;
    check_globals(alloc, program.names, &mut first, body)?;
    let mut walk = Walk::new(alloc, program, first)?;
    walk.functions(functions)?;
    walk.cores(body)?;
    Ok(walk.finish())
}
