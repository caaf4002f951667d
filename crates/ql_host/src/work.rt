//! Work that is given out for a process, and taken in again.

ghost use Rattle.std.specs.Prelude.{None, ◌≡◌, ◌↔◌, ◌<◌, ◌≤◌, ◌+◌, ◌++◌, ◌^◌, ℕ, suc, true, List, length, map, Some, is_some, option_map, slice_get, IfOk, OnOk, OnErr};
ghost use Rattle.ql_world.specs.World.{numbered};
ghost use Rattle.ql_code.specs.LocalPath.{window_of, beneath, is_next_local};
ghost use Rattle.ql_code.specs.LocalLaws.{with_ticks};
ghost use Rattle.ql_code.specs.Machine.{point};
ghost use Rattle.ql_proc.specs.declared.process.Proc.{Proc};
ghost use Rattle.ql_proc.specs.Points.{point_of};
ghost use Rattle.ql_proc.specs.Windows.{window_in, window_on};
ghost use Rattle.ql_host.specs.Acts.{IsLeft};
ghost use Rattle.ql_host.specs.Working.{process_in, is_local, IsFound, IsGiven, IsTakable, Ends};

use crate::pick::stopped;
use crate::setting::Setting;
use crate::shared::Shared;
use ql_proc::process::Proc;
use ql_proc::window::{Done, Job, Window};
use ql_tree::person::Person;
use std::alloc::{AllocError, Global};

/// What became of work that was brought back.
#[derive(Clone, Copy, Debug, PartialEq, Eq)]
pub enum Commit {
    /// It was taken in: so many ticks.
    Applied(u64),
    /// It was dropped.
    Dropped,
}

/// A job for process p, which is there, of at most so many ticks.
pub fn give_out(
    s: Setting,
    shared: &Shared,
    procs: &[Proc],
    p: u32,
    most: u64,
) -> Result<Job, AllocError>
    requires { is_some (process_in shared.now procs.now p) ≡ true }
    ensures { IfOk result (λ j. IsGiven shared.now procs.now p most j) }
{
    match found(shared, procs, p) {
        Some((i, person)) => job_of(s.alloc, thread_at(procs, i), person, p, most),
        // No: it is there.
        None => unreachable!(),
    }
}

/// Where process p is among the threads, and what the tree keeps of it.
fn found(shared: &Shared, procs: &[Proc], p: u32) -> Option<(usize, Person)>
    ensures { IsFound result shared.now procs.now p }
{
    let Some(person) = shared.tree.person(p) else {
        return None;
    };
    if p == 0 {
        return None;
    }
    let i = p as usize - 1;
    if i >= procs.len() {
        return None;
    }
    Some((i, person))
}

/// A job for a process of this person.
fn job_of(alloc: Global, proc: &Proc, person: Person, p: u32, most: u64) -> Result<Job, AllocError>
    ensures process { IfOk result (λ j. j.proc ≡ p) }
    ensures start { IfOk result (λ j. window_in j.start ≡ window_on proc.now person.aim person.ended) }
    ensures copy { IfOk result (λ j. window_in j.window ≡ window_on proc.now person.aim person.ended) }
    ensures most { IfOk result (λ j. j.most ≡ most) }
    ensures room { IfOk result (λ j. most ≤ j.window.top.stack.room) }
{
    Ok(Job {
        proc: p,
        start: proc.window(alloc, person.aim, person.ended, 0)?,
        window: proc.window(alloc, person.aim, person.ended, most)?,
        most,
    })
}

/// The thread at this index.
fn thread_at(procs: &[Proc], i: usize) -> &Proc
    requires { i < length procs.now }
    ensures { slice_get procs.now i ≡ Some result.now }
{
    &procs[i]
}

/// Takes work in, or drops it.
pub fn take_in(
    s: Setting,
    shared: &mut Shared,
    procs: &mut Vec<Proc>,
    last: u32,
    done: &Done,
) -> Result<Commit, AllocError>
    requires long { length procs.old.items ≡ length shared.old.tree.persons }
    requires ticks { shared.old.history.ticks ≤ s.limits.budget }
    requires budget { s.limits.budget < 2 ^ 63 }
    ensures ends { IfOk result (λ c. Ends c s.entry done.now shared.old procs.old.items shared.new procs.new.items) }
    ensures left { OnErr result (IsLeft shared.old procs.old.items shared.new procs.new.items) }
{
    let Some((i, person)) = found(shared, procs, done.proc) else {
        return Ok(Commit::Dropped);
    };
    if !is_takable(s, shared, procs, last, done, i, person) {
        return Ok(Commit::Dropped);
    }
    match apply(shared, &mut procs[i], done.proc, &done.window, done.steps) {
        Ok(()) => Ok(Commit::Applied(done.steps)),
        Err(e) => Err(e),
    }
}

/// Whether work can be taken in, where this is its process, at this index.
fn is_takable(
    s: Setting,
    shared: &Shared,
    procs: &[Proc],
    last: u32,
    done: &Done,
    i: usize,
    person: Person,
) -> bool
    requires long { length procs.now ≡ length shared.now.tree.persons }
    requires ticks { shared.now.history.ticks ≤ s.limits.budget }
    requires person { numbered shared.now.tree.persons done.now.proc ≡ Some person }
    requires number { done.now.proc ≡ suc i }
    requires within { i < length procs.now }
    ensures { (result ≡ true) ↔ IsTakable s.entry shared.now procs.now done.now }
{
    if !thread_at(procs, i).has_window(person.aim, person.ended, &done.start) {
        return false;
    }
    if done.steps > s.limits.budget - shared.history.ticks() {
        return false;
    }
    stopped(s, shared, procs, last).is_none()
}

/// Takes in that a process took so many ticks, which led to this window. After want of memory nothing has changed but room.
fn apply(
    shared: &mut Shared,
    proc: &mut Proc,
    p: u32,
    window: &Window,
    n: u64,
) -> Result<(), AllocError>
    requires { shared.old.history.ticks + n < 2 ^ 63 }
    ensures shared { OnOk result (shared.new ≡ record shared.old { history = record shared.old.history { events = with_ticks p n shared.old.history.events; ticks = shared.old.history.ticks + n; spare = shared.new.history.spare } }) }
    ensures room { OnOk result (1 ≤ shared.new.history.spare) }
    ensures point { OnOk result (point_of proc.new ≡ point window.now.top.place ((window_in window.now).items ++ beneath 64 proc.old.stack.items) proc.old.state) }
    ensures same { OnErr result (shared.new ≡ record shared.old { history = record shared.old.history { spare = shared.new.history.spare } }) }
    ensures spare { OnErr result (shared.old.history.spare ≤ shared.new.history.spare) }
    ensures stays { OnErr result (point_of proc.new ≡ point_of proc.old) }
{
    shared.history.reserve(2)?;
    proc.put_window(window)?;
    shared.history.tick_often(p, n);
    Ok(())
}

/// Whether the next tick of a process touches its window alone.
pub fn next_is_local(s: Setting, shared: &Shared, procs: &[Proc], p: u32) -> bool
    ensures { result ≡ is_local s.entry (option_map window_of (process_in shared.now procs.now p)) }
{
    match found(shared, procs, p) {
        Some((i, person)) => goes_locally(s, thread_at(procs, i), person),
        None => false,
    }
}

/// The same of a process of this person.
fn goes_locally(s: Setting, proc: &Proc, person: Person) -> bool
    ensures { result ≡ is_next_local s.entry.code.now.instructions None (window_on proc.now person.aim person.ended) }
{
    if person.ended {
        return false;
    }
    proc.next_is_local(s.code)
}
