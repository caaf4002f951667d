//! What a program's numbers stand for: its functions and globals by the numbers of their names.

ghost use Rattle.std.specs.Prelude.{◌≡◌, IfOk, map};
ghost use Rattle.ql_expand.specs.View.{function_of};
ghost use Rattle.ql_meaning.specs.Context.{Context};
ghost use Rattle.ql_compile.specs.Compile.{Places, entry_of};
ghost use Rattle.ql_compile.specs.Emission.{HasFunctions, HasGlobals};

use crate::number::number;
use ql_code::code::FunEntry;
use ql_expand::core_form::Function;
use ql_scope::table::put;
use std::alloc::{AllocError, Global};

/// By number, the first function of that name. The entries are those of the functions, in their order.
pub fn functions_by_name(
    alloc: Global,
    names: u32,
    functions: &[Function],
    entries: &[FunEntry],
) -> Result<Vec<Option<FunEntry>>, AllocError>
    ensures { (x : Context) (places : Places) → map (λ f. f.0) places ≡ map function_of functions.now → map (entry_of x) places ≡ entries.now → IfOk result (λ table. HasFunctions x places table.items) }
{
    let mut table = Vec::with_capacity(alloc, names as usize)?;
    let mut rest = functions.len().min(entries.len());
    // From the last on, so that the first of a name stays.
    while rest > 0 {
        rest -= 1;
        put(&mut table, functions[rest].name, entries[rest])?;
    }
    Ok(table)
}

/// By number, the place of the first global of that name. A place that is no `u32` is answered as want of memory.
pub fn globals_by_name(
    alloc: Global,
    names: u32,
    globals: &[u32],
) -> Result<Vec<Option<u32>>, AllocError>
    ensures { IfOk result (λ table. HasGlobals globals.now table.items) }
{
    let mut table = Vec::with_capacity(alloc, names as usize)?;
    let mut rest = globals.len();
    while rest > 0 {
        rest -= 1;
        let place = number(rest)?;
        put(&mut table, globals[rest], place)?;
    }
    Ok(table)
}
