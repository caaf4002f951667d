//! The compiler.

ghost use Rattle.std.specs.Prelude.{◌≡◌, ◌≤◌, ℕ, List, Err, IfOk, length, map};
ghost use Rattle.ql_base.specs.declared.limits.Limits.{Limits};
ghost use Rattle.ql_expand.specs.ProgramView.{program_of};
ghost use Rattle.ql_expand.specs.View.{function_of};
ghost use Rattle.ql_meaning.specs.Context.{context_of};
ghost use Rattle.ql_compile.specs.Compile.{compiled, entry_of, places_of};
ghost use Rattle.ql_compile.specs.Laws.{IsTooLong, Simulates};
ghost use Rattle.ql_compile.specs.declared.compile.CompileRefusal.TheVariants.{TooLong};

use crate::captured::mask;
use crate::emit::{Emitted, emit};
use crate::laws::{code_follows_program, compiled_code_is_valid};
use crate::measure::measure;
use crate::number::number;
use crate::quotes::Quotes;
use ql_code::code::{Code, FunEntry};
use ql_expand::core_form::Function;
use ql_scope::laws::scoped_is_compilable;
use ql_scope::scoped::Scoped;
use std::alloc::{AllocError, Global};
use thiserror::Error;

/// Why a program has no code.
#[derive(Clone, Copy, Debug, PartialEq, Eq, Error)]
pub enum CompileRefusal {
    /// It would have more than 65,535 instructions. `at` is the offset of the 65,536th.
    #[error("the code is too long from byte {at} on")]
    TooLong { at: u64 },
    /// There was no memory.
    #[error("out of memory")]
    Memory(AllocError),
}

/// The code of a program. What it tells along every schedule, under all limits, is what the program tells.
pub fn compile(alloc: Global, scoped: &Scoped) -> Result<Code, CompileRefusal>
    ensures ok { IfOk result (λ code. code ≡ compiled (program_of scoped.now.program)) }
    ensures too_long { (at : ℕ) → result ≡ Err (TooLong at) → IsTooLong (compiled (program_of scoped.now.program)) at }
    ensures short { IfOk result (λ code. length code.instructions ≤ 65535) }
    ensures simulation { (names : List (List ℕ)) (limits : Limits) → IfOk result (λ code. Simulates names (program_of scoped.now.program) limits code) }
{
    // Facts that the clauses rest on; the calls do nothing.
    scoped_is_compilable();
    code_follows_program();
    let places = measure(alloc, scoped.program())?;
    match code_of(alloc, scoped, places.as_slice()) {
        Ok(code) => Ok(code),
        Err(error) => Err(CompileRefusal::Memory(error)),
    }
}

// The code of a program whose functions begin at these places.
fn code_of(alloc: Global, scoped: &Scoped, places: &[u32]) -> Result<Code, AllocError>
    requires places { places.now ≡ map (λ f. f.1) (places_of (program_of scoped.now.program)) }
    requires short { length (compiled (program_of scoped.now.program)).instructions ≤ 65535 }
    ensures { IfOk result (λ code. code ≡ compiled (program_of scoped.now.program)) }
{
    // Facts that the condition of new code rests on; the calls do nothing.
    scoped_is_compilable();
    compiled_code_is_valid();
    let entries = entries_of(alloc, scoped, places)?;
    let quotes = Quotes::new(alloc, scoped.program())?;
    let Emitted { ops, offsets } = emit(alloc, scoped, entries.as_slice(), &quotes)?;
    let globals = number(scoped.program().globals.len())?;
    let Quotes { pairs, .. } = quotes;
    Ok(Code::new(ops, offsets, pairs, entries, globals))
}

// The entries of functions that begin at these places.
fn entries_of(alloc: Global, scoped: &Scoped, places: &[u32]) -> Result<Vec<FunEntry>, AllocError>
    requires places { places.now ≡ map (λ f. f.1) (places_of (program_of scoped.now.program)) }
    ensures { IfOk result (λ entries. entries.items ≡ map (entry_of (context_of (program_of scoped.now.program))) (places_of (program_of scoped.now.program))) }
{
    let mut entries = Vec::with_capacity(alloc, places.len())?;
    for (i, function) in scoped.program().functions.as_slice().iter().enumerate() {
        let entry = entry_of(scoped, function, places[i])?;
        entries.push(entry)?;
    }
    Ok(entries)
}

// The entry of a function that begins at this place. A function in scope has at most 16 parameters.
fn entry_of(scoped: &Scoped, function: &Function, place: u32) -> Result<FunEntry, AllocError>
    ensures { IfOk result (λ entry. entry ≡ entry_of (context_of (program_of scoped.now.program)) (function_of function.now, place)) }
{
    let params = function.params.as_slice();
    let count = number(params.len())?;
    let mask = mask(scoped, params)?;
    Ok(FunEntry {
        place,
        params: count,
        mask,
    })
}
