//! Functions and globals with the names of earlier ones.

ghost use Rattle.std.specs.Prelude.{◌≡◌, ◌++◌, ◌∷◌, [], OnOk, map};
ghost use Rattle.ql_base.specs.Refusal.{first_of};
ghost use Rattle.ql_expand.specs.View.{core_of, cores_of, function_of};
ghost use Rattle.ql_scope.specs.Scope.{global_at, names_at, repeated_functions, repeated_global, repeated_globals, twice_faults};

use crate::binder_stack::BinderStack;
use ql_base::numbers::Offset;
use ql_base::refusal::{Fault, FaultKind, find_if};
use ql_expand::core_form::{Binder, Core, Function, Node, VarName};
use std::alloc::{AllocError, Global};

/// Finds the functions with the names of earlier ones.
pub fn check_functions(
    alloc: Global,
    names: u32,
    first: &mut Option<Fault>,
    functions: &[Function],
) -> Result<(), AllocError>
    ensures { OnOk result (first.new ≡ first_of first.old (repeated_functions [] (map function_of functions.now))) }
{
    let mut before = BinderStack::new(alloc, names)?;
    for function in functions {
        check_name(&mut before, first, function.name, function.named)?;
    }
    Ok(())
}

/// Finds the top forms that make globals with the names of earlier ones.
pub fn check_globals(
    alloc: Global,
    names: u32,
    first: &mut Option<Fault>,
    body: &[Core],
) -> Result<(), AllocError>
    ensures { OnOk result (first.new ≡ first_of first.old (repeated_globals [] (cores_of body.now))) }
{
    let mut before = BinderStack::new(alloc, names)?;
    for core in body {
        check_global(&mut before, first, core)?;
    }
    Ok(())
}

// A top form, which makes a global if it is a `defvar` form.
fn check_global(
    before: &mut BinderStack,
    first: &mut Option<Fault>,
    core: &Core,
) -> Result<(), AllocError>
    ensures first { OnOk result (first.new ≡ first_of first.old (repeated_global (names_at before.old) (core_of core.now))) }
    ensures before { OnOk result (names_at before.new ≡ names_at before.old ++ global_at (core_of core.now)) }
{
    match &core.node {
        Node::Defvar { name, named, .. } => check_name(before, first, *name, *named),
        _ => Ok(()),
    }
}

// A name with these before it, which it joins.
#[tactic(auto, using(crate::proofs::Above::names_append))]
fn check_name(
    before: &mut BinderStack,
    first: &mut Option<Fault>,
    name: u32,
    named: Offset,
) -> Result<(), AllocError>
    ensures first { OnOk result (first.new ≡ first_of first.old (twice_faults (names_at before.old) named.0 name)) }
    ensures before { OnOk result (names_at before.new ≡ names_at before.old ++ name ∷ []) }
{
    let is_known = before.is_named(name);
    find_if(first, is_known, FaultKind::Twice, named);
    before.push(Binder {
        at: named,
        name: VarName::Sym(name),
    })
}
