//! What holds of the code of a program that the checks let through.

ghost use Rattle.std.specs.Prelude.{◌≡◌, ℕ, true, List};
ghost use Rattle.ql_base.specs.declared.limits.Limits.{Limits};
ghost use Rattle.ql_forms.specs.Form.{Forms};
ghost use Rattle.ql_expand.specs.Core.{Program};
ghost use Rattle.ql_expand.specs.Expands.{ExpandsTo};
ghost use Rattle.ql_scope.specs.Scope.{InScope};
ghost use Rattle.ql_scope.specs.Compilable.{is_compilable};
ghost use Rattle.ql_code.specs.Sound.{IsValid};
ghost use Rattle.ql_compile.specs.Compile.{compiled};
ghost use Rattle.ql_compile.specs.Laws.{CodeFollows, CodeIsPlanned, CodeJournalsAreLegal, CodeJournalsSpellTheirSchedules};

use ql_meaning::laws::{journals_are_legal, journals_spell_their_schedules};
use ql_world::laws::{followers_are_planned_alike, followers_are_told_alike};
use std::marker::Brand;

/// Compiled code is told as its program is, along every schedule.
pub fn code_follows_program()
    ensures { (p : Program) → is_compilable p ≡ true → (names : List (List ℕ)) (limits : Limits) → CodeFollows names p limits }
{
    followers_are_told_alike::<Brand>();
}

/// One worker takes the same schedules of compiled code as of its program.
pub fn code_is_planned_as_program()
    ensures { (p : Program) → is_compilable p ≡ true → (names : List (List ℕ)) (limits : Limits) → CodeIsPlanned names p limits }
{
    followers_are_planned_alike::<Brand>();
}

/// The journal of each run of compiled code is legal.
pub fn code_journals_are_legal()
    ensures { (p : Program) → is_compilable p ≡ true → (names : List (List ℕ)) (limits : Limits) → CodeJournalsAreLegal names p limits }
{
    code_follows_program();
    journals_are_legal();
}

/// The turns of a journal of compiled code are the schedule of its run.
pub fn code_journals_spell_their_schedules()
    ensures { (p : Program) → is_compilable p ≡ true → (names : List (List ℕ)) (limits : Limits) → CodeJournalsSpellTheirSchedules names p limits }
{
    code_follows_program();
    journals_spell_their_schedules();
}

/// The code of what forms expand to, with nothing wrong with its names, is sound, and strict besides.
pub fn compiled_code_is_valid()
    ensures { (forms : Forms) (p : Program) → ExpandsTo forms p → InScope p → is_compilable p ≡ true → IsValid (compiled p) }
{}
