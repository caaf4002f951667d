//! What holds of every run of a program.

ghost use Rattle.std.specs.Prelude.{ℕ, List};
ghost use Rattle.ql_base.specs.declared.limits.Limits.{Limits};
ghost use Rattle.ql_expand.specs.Core.{Program};
ghost use Rattle.ql_meaning.specs.Laws.{SaneAlong, LinesTellAlong, JournalsAreLegal, JournalsSpellTheirSchedules, KilledOnlyCleanUp};

/// Each world along a run is sane.
pub fn sane_is_kept()
    ensures { (names : List (List ℕ)) (p : Program) (limits : Limits) → SaneAlong names p limits }
{}

/// What the lines so far tell is what the world holds.
pub fn lines_tell_the_world()
    ensures { (names : List (List ℕ)) (p : Program) (limits : Limits) → LinesTellAlong names p limits }
{}

/// The journal of each run is legal: kills, what a killed process does, cleanups and calls.
pub fn journals_are_legal()
    ensures { (names : List (List ℕ)) (p : Program) (limits : Limits) → JournalsAreLegal names p limits }
{}

/// A process that was killed only cleans up.
pub fn killed_only_clean_up()
    ensures { (names : List (List ℕ)) (p : Program) (limits : Limits) → KilledOnlyCleanUp names p limits }
{}

/// The turns of a journal are the schedule of its run.
pub fn journals_spell_their_schedules()
    ensures { (names : List (List ℕ)) (p : Program) (limits : Limits) → JournalsSpellTheirSchedules names p limits }
{}
