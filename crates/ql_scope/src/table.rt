//! Tables with a value for some numbers, none for the others.

ghost use Rattle.std.specs.Prelude.{◌≡◌, ℕ, ◌<◌, ◌==◌, Some, None, if◌then◌else◌, is_some, length, slice_index_or, IfOk, OnOk, map};
ghost use Rattle.ql_expand.specs.View.{function_of};
ghost use Rattle.ql_scope.specs.Scope.{head_of, is_among, parameter_count};

use ql_expand::core_form::Function;
use std::alloc::{AllocError, Global};

/// The value for this number, of which there is none beyond the table's end.
pub fn value_at<T: Copy>(table: &[Option<T>], number: u32) -> Option<T>
    ensures { result ≡ slice_index_or table.now number None }
{
    match table.get(number as usize) {
        Some(value) => *value,
        None => None,
    }
}

/// Makes a table reach as far as this number, with no value where it is new.
pub fn reach<T: Copy>(table: &mut Vec<Option<T>>, number: u32) -> Result<(), AllocError>
    ensures reached { OnOk result (number < length table.new.items) }
    ensures same { (n : ℕ) → slice_index_or table.new.items n None ≡ slice_index_or table.old.items n None }
{
    while table.len() <= number as usize {
        table.push(None)?;
    }
    Ok(())
}

/// Gives a number that the table reaches this value, or none.
pub fn replace<T: Copy>(table: &mut Vec<Option<T>>, number: u32, value: Option<T>)
    ensures { number < length table.old.items → (n : ℕ) → slice_index_or table.new.items n None ≡ (if number == n then value else slice_index_or table.old.items n None) }
{
    let place = number as usize;
    if place < table.len() {
        table[place] = value;
    }
}

/// Gives this number a value. A table that doesn't reach so far grows.
pub fn put<T: Copy>(table: &mut Vec<Option<T>>, number: u32, value: T) -> Result<(), AllocError>
    ensures { OnOk result ((n : ℕ) → slice_index_or table.new.items n None ≡ (if number == n then Some value else slice_index_or table.old.items n None)) }
{
    reach(table, number)?;
    replace(table, number, Some(value));
    Ok(())
}

/// By number, how many parameters the first function of that name has.
pub fn parameter_counts(
    alloc: Global,
    names: u32,
    functions: &[Function],
) -> Result<Vec<Option<usize>>, AllocError>
    ensures { IfOk result (λ table. (n : ℕ) → slice_index_or table.items n None ≡ parameter_count (map head_of (map function_of functions.now)) n) }
{
    let mut table = vec![in alloc; None; names as usize]?;
    let mut rest = functions.len();
    // From the last on, so that the first of a name stays.
    while rest > 0 {
        rest -= 1;
        let function = &functions[rest];
        let count = function.params.as_slice().len();
        put(&mut table, function.name, count)?;
    }
    Ok(table)
}

/// By number, whether it is among these.
pub fn numbers_among(
    alloc: Global,
    names: u32,
    numbers: &[u32],
) -> Result<Vec<Option<()>>, AllocError>
    ensures { IfOk result (λ table. (n : ℕ) → is_some (slice_index_or table.items n None) ≡ is_among n numbers.now) }
{
    let mut table = vec![in alloc; None; names as usize]?;
    let mut rest = numbers.len();
    while rest > 0 {
        rest -= 1;
        put(&mut table, numbers[rest], ())?;
    }
    Ok(table)
}
