//! Which process is picked, and why a run stops.

ghost use Rattle.std.specs.Prelude.{◌≡◌, true, length, IfSome};
ghost use Rattle.ql_world.specs.Run as runs;
ghost use Rattle.ql_world.specs.Run.{least, least_above, greatest, first_of};
ghost use Rattle.ql_world.specs.Run.{is_in};
ghost use Rattle.ql_world.specs.World.{numbered};
ghost use Rattle.ql_host.specs.Ready.{machine, world, those_free, free_in, stop};

use crate::ready::can_step;
use crate::setting::Setting;
use crate::shared::Shared;
use ql_base::limits::Policy;
use ql_proc::process::Proc;
use ql_world::event::Stop;

/// Of the processes at home that can step, the one that the policy picks. The last one picked is 0 where there is none.
pub fn pick(s: Setting, shared: &Shared, procs: &[Proc], away: &[u32], last: u32) -> Option<u32>
    ensures picked { result ≡ runs.pick s.entry.limits.policy last (those_free s.entry shared.now procs.now away.now) }
    ensures free { IfSome result (λ p. free_in s.entry (world s.entry shared.now procs.now) away.now p (numbered (world s.entry shared.now procs.now).procs p) ≡ true) }
{
    match s.limits.policy {
        Policy::Old => first_above(s, shared, procs, away, 0),
        Policy::New => last_free(s, shared, procs, away),
        Policy::Turn => next_after(s, shared, procs, away, last),
    }
}

/// The least process above this one at home that can step, or else the least one.
fn next_after(s: Setting, shared: &Shared, procs: &[Proc], away: &[u32], last: u32) -> Option<u32>
    ensures picked { result ≡ first_of (least_above last (those_free s.entry shared.now procs.now away.now)) (least (those_free s.entry shared.now procs.now away.now)) }
    ensures free { IfSome result (λ p. free_in s.entry (world s.entry shared.now procs.now) away.now p (numbered (world s.entry shared.now procs.now).procs p) ≡ true) }
{
    match first_above(s, shared, procs, away, last) {
        Some(p) => Some(p),
        None => first_above(s, shared, procs, away, 0),
    }
}

/// The least process above this one that is at home and can step.
fn first_above(s: Setting, shared: &Shared, procs: &[Proc], away: &[u32], last: u32) -> Option<u32>
    ensures picked { result ≡ least_above last (those_free s.entry shared.now procs.now away.now) }
    ensures free { IfSome result (λ p. free_in s.entry (world s.entry shared.now procs.now) away.now p (numbered (world s.entry shared.now procs.now).procs p) ≡ true) }
{
    let count = shared.tree.count();
    let mut at = last;
    'scan: while at < count {
        if is_free(s, shared, procs, away, at + 1) {
            return Some(at + 1);
        }
        at += 1;
    }
    None
}

/// The greatest process that is at home and can step.
fn last_free(s: Setting, shared: &Shared, procs: &[Proc], away: &[u32]) -> Option<u32>
    ensures picked { result ≡ greatest (those_free s.entry shared.now procs.now away.now) }
    ensures free { IfSome result (λ p. free_in s.entry (world s.entry shared.now procs.now) away.now p (numbered (world s.entry shared.now procs.now).procs p) ≡ true) }
{
    let mut at = shared.tree.count();
    'scan: while at > 0 {
        if is_free(s, shared, procs, away, at) {
            return Some(at);
        }
        at -= 1;
    }
    None
}

/// Why the run stops, if it does. The answer doesn't depend on the process picked last, which is looked at first.
pub fn stopped(s: Setting, shared: &Shared, procs: &[Proc], last: u32) -> Option<Stop>
    requires { length procs.now ≡ length shared.now.tree.persons }
    ensures { result ≡ stop s.entry shared.now procs.now }
{
    if shared.tree.all_ended() {
        return Some(Stop::Done);
    }
    if let Some(stop) = shared.mark {
        return Some(stop);
    }
    if is_stuck(s, shared, procs, last) {
        return Some(Stop::Deadlock);
    }
    if shared.history.ticks() == s.limits.budget {
        return Some(Stop::Budget);
    }
    None
}

/// Whether no process can step.
fn is_stuck(s: Setting, shared: &Shared, procs: &[Proc], last: u32) -> bool
    ensures { result ≡ runs.is_stuck (machine s.entry) s.entry.names.now s.entry.limits (world s.entry shared.now procs.now) }
{
    match next_after(s, shared, procs, &[], last.saturating_sub(1)) {
        Some(_) => false,
        None => true,
    }
}

/// Whether a process is at home and can step.
fn is_free(s: Setting, shared: &Shared, procs: &[Proc], away: &[u32], p: u32) -> bool
    ensures { result ≡ free_in s.entry (world s.entry shared.now procs.now) away.now p (numbered (world s.entry shared.now procs.now).procs p) }
{
    !is_among(away, p) && can_step(s, shared, procs, p)
}

/// Whether a number is among these.
pub fn is_among(numbers: &[u32], n: u32) -> bool
    ensures { result ≡ is_in n numbers.now }
{
    for m in numbers {
        if n == *m {
            return true;
        }
    }
    false
}
