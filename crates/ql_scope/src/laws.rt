//! What is true of programs and the scope of their names, whoever checks them.

ghost use Rattle.std.specs.Prelude.{◌≡◌, ◌≤◌, ℕ, Some, true};
ghost use Rattle.ql_forms.specs.Form.{Forms};
ghost use Rattle.ql_expand.specs.Core.{Program};
ghost use Rattle.ql_expand.specs.Expands.{ExpandsTo};
ghost use Rattle.ql_scope.specs.Compilable.{is_compilable};
ghost use Rattle.ql_scope.specs.Scope.{InScope, scope_fault};

/// What forms expand to can be compiled where nothing is wrong with its names.
pub fn scoped_is_compilable()
    ensures { (forms : Forms) (p : Program) → ExpandsTo forms p → InScope p → is_compilable p ≡ true }
{}

/// What is wrong with the names of a program has kinds of its own.
pub fn names_have_kinds_of_their_own()
    ensures { (p : Program) (at kind : ℕ) → scope_fault p ≡ Some (at, kind) → (12 ≤ kind) × (kind ≤ 18) }
{}
