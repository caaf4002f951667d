//! What runs of sound code rest on, and optimistic work on a window.

ghost use Rattle.std.specs.Prelude.{◌≡◌, ◌↔◌, ℕ, true, List, is_some, Option, Some};
ghost use Rattle.ql_base.specs.declared.limits.Limits.{Limits};
ghost use Rattle.ql_world.specs.World.{World, numbered};
ghost use Rattle.ql_world.specs.declared.world.Process.{Process};
ghost use Rattle.ql_world.specs.Run.{run};
ghost use Rattle.ql_world.specs.Tick.{can_step, tick};
ghost use Rattle.ql_code.specs.Code.{Code};
ghost use Rattle.ql_code.specs.Machine.{Point, Entry, code_machine, code_world};
ghost use Rattle.ql_code.specs.Sound.{Sound, IsValid};
ghost use Rattle.ql_code.specs.Standing.{IsAsked};
ghost use Rattle.ql_code.specs.SoundWorld.{made_of, IsSoundWorld};
ghost use Rattle.ql_code.specs.Operands.{IsReachedOn, HasOperands};
ghost use Rattle.ql_code.specs.Walk.{is_valid};
ghost use Rattle.ql_code.specs.LocalLaws.{PathsFrame, CommitsAreTicks, TicksAreTurns, NextIsLocal, GreatestIsFarthest, KillsShow, ThrowsShow, StaleWorkShows, PairsStay};

/// In each world that a run of sound code comes to, each process that hasn't ended stands in its place's shape.
pub fn worlds_are_sound()
    ensures { (code : Code) (so : Sound code) (names : List (List ℕ)) (limits : Limits) (schedule : List ℕ) (w : World Point Entry)
        → run (code_machine code.instructions) names limits (code_world code) schedule ≡ Some w → IsSoundWorld code so w }
{}

/// There each process that can step has a tick.
pub fn ticks_go_on()
    ensures { (code : Code) (so : Sound code) (names : List (List ℕ)) (limits : Limits) (w : World Point Entry) (i : ℕ) (q : Process Point)
        → IsSoundWorld code so w → numbered w.procs i ≡ Some q
        → can_step (code_machine code.instructions) names limits i q w ≡ true
        → is_some (tick (code_machine code.instructions) names limits w i) ≡ true }
{}

/// Along a run of code that is known to be sound, each process that can step has a tick; it asks for what there is, and
/// where it is at an instruction the operands of that are there.
pub fn runs_are_sound()
    ensures ticks { (code : Code) (names : List (List ℕ)) (limits : Limits) (schedule : List ℕ) (w : World Point Entry) (p : ℕ) (q : Process Point)
        → IsReachedOn code names limits schedule w p q → is_some (tick (code_machine code.instructions) names limits w p) ≡ true }
    ensures asked { (code : Code) (names : List (List ℕ)) (limits : Limits) (schedule : List ℕ) (w : World Point Entry) (p : ℕ) (q : Process Point)
        → IsReachedOn code names limits schedule w p q → IsAsked (made_of w) q.kind ((code_machine code.instructions).want q.thread) }
    ensures operands { (code : Code) (names : List (List ℕ)) (limits : Limits) (schedule : List ℕ) (w : World Point Entry) (p : ℕ) (q : Process Point)
        → IsReachedOn code names limits schedule w p q → HasOperands code q.thread }
{}

/// The walk over places and starts decides which code is valid.
pub fn walk_decides()
    ensures { (code : Code) → (is_valid code ≡ true) ↔ IsValid code }
{}

/// A local path is the same over every rest of the stack, and a path of the machine itself.
pub fn paths_frame()
    ensures { PathsFrame }
{}

/// Work that is committed is so many ticks of its process, and goes on with the run.
pub fn commits_are_ticks()
    ensures ticks { CommitsAreTicks }
    ensures turns { TicksAreTurns }
{}

/// A process whose next tick is local can take it.
pub fn next_is_local()
    ensures { NextIsLocal }
{}

/// There is one answer to how far local ticks lead.
pub fn greatest_is_farthest()
    ensures { GreatestIsFarthest }
{}

/// Work for a process that was killed, or that something was thrown to, is seen to be stale.
pub fn stale_work_shows()
    ensures kills { KillsShow }
    ensures throws { ThrowsShow }
    ensures all { StaleWorkShows }
{}

/// Pairs are only added to.
pub fn pairs_stay()
    ensures { PairsStay }
{}
