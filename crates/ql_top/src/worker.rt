//! One worker, that runs code by a host until the run stops.

ghost use Rattle.std.specs.Prelude.{◌≡◌, ◌⊎◌, ◌≤◌, ◌+◌, [], ◌&&◌, IfOk, OnOk, true, false, Some, None, nat_lt};
ghost use Rattle.std.specs.Arc.{arc_value};
ghost use Rattle.ql_world.specs.Event.{turns};
ghost use Rattle.ql_world.specs.Run.{is_in, next_picked};
ghost use Rattle.ql_code.specs.Machine.{code_planned};
ghost use Rattle.ql_host.specs.Host.{IsInRange, AreNames, IsTold, can_step, next_is_local, stop, ready, worked};
ghost use Rattle.ql_top.specs.Worker.{picked_of};

use ql_base::limits::Limits;
use ql_base::names::Names;
use ql_code::code::Code;
use ql_host::host::Host;
use ql_host::told::Told;
use ql_host::work::Commit;
use ql_proc::local::run_local;
use std::alloc::{AllocError, Global};
use std::sync::Arc;

#[cfg(test)]
mod tests;

/// The process that was picked last, and how many ticks it took since.
#[derive(Clone, Copy, Debug, PartialEq, Eq)]
struct Picked {
    process: u32,
    ticks: u64,
}

/// Runs code from its beginning until the run stops, and tells of it. The process that was picked last
/// takes up to a quantum of ticks, as long as it can step, and then the next one is picked.
pub fn run(alloc: Global, code: Code, names: Names, limits: Limits) -> Result<Told, AllocError>
    requires limits { IsInRange limits }
    requires names { AreNames names }
    ensures code { IfOk result (λ told. told.code ≡ code) }
    ensures names { IfOk result (λ told. told.names ≡ names) }
    ensures limits { IfOk result (λ told. told.limits ≡ limits) }
    ensures told { IfOk result IsTold }
    ensures planned { IfOk result (λ told. code_planned names code limits (turns told.story.journal.events) ≡ true) }
{
    let kept = Arc::new(alloc, code)?;
    let mut host = Host::begin(alloc, kept.clone()?, names, limits)?;
    let mut last = Picked {
        process: 0,
        ticks: 0,
    };
    'rounds: loop {
        if host.stopped().is_some() {
            return Ok(host.finish());
        }
        let next = next(&mut host, last, limits.quantum);
        let taken = round(
            &mut host,
            &kept,
            next.process,
            ticks_left(limits.quantum, next),
        )?;
        last = Picked {
            process: next.process,
            ticks: next.ticks + (taken - 1),
        };
    }
}

/// How many ticks of a quantum are left for the process that was picked, with the one that is counted already.
fn ticks_left(quantum: u64, picked: Picked) -> u64
    ensures some { 1 ≤ result }
    ensures few { (result ≡ 1) ⊎ (picked.ticks + result ≤ quantum + 1) }
{
    if picked.ticks < quantum {
        (quantum - picked.ticks).saturating_add(1)
    } else {
        1
    }
}

/// Takes ticks of a process that can step: as many as touch its window alone, but at most so many, or else one.
fn round(host: &mut Host, code: &Code, p: u32, most: u64) -> Result<u64, AllocError>
    requires code { code.now ≡ host.old.code }
    requires goes_on { stop host.old ≡ None }
    requires home { is_in p host.old.away ≡ false }
    requires can { can_step host.old p ≡ true }
    requires some { 1 ≤ most }
    ensures some { IfOk result (λ n. 1 ≤ n) }
    ensures few { IfOk result (λ n. n ≤ most) }
    ensures worked { IfOk result (λ n. worked host.old p n ≡ Some host.new.world) }
    ensures rest { OnOk result (host.new ≡ record host.old { world = host.new.world }) }
{
    if host.next_is_local(p) {
        let left = host.left();
        work(host, code, p, most.min(left))
    } else {
        host.tick(p)?;
        Ok(1)
    }
}

/// Takes as many ticks as touch the window of a process alone, but at most so many. The next one does.
fn work(host: &mut Host, code: &Code, p: u32, most: u64) -> Result<u64, AllocError>
    requires code { code.now ≡ host.old.code }
    requires goes_on { stop host.old ≡ None }
    requires home { is_in p host.old.away ≡ false }
    requires can { can_step host.old p ≡ true }
    requires local { next_is_local host.old p ≡ true }
    requires some { 1 ≤ most }
    requires left { host.old.world.ticks + most ≤ host.old.limits.budget }
    ensures some { IfOk result (λ n. 1 ≤ n) }
    ensures few { IfOk result (λ n. n ≤ most) }
    ensures worked { IfOk result (λ n. worked host.old p n ≡ Some host.new.world) }
    ensures rest { OnOk result (host.new ≡ record host.old { world = host.new.world }) }
{
    let job = host.resume(p, most)?;
    match host.commit(run_local(code, job))? {
        Commit::Applied(n) => Ok(n),
        // No: nothing came between.
        Commit::Dropped => unreachable!(),
    }
}

/// Who takes the next tick, after who was picked last.
fn next(host: &mut Host, last: Picked, quantum: u64) -> Picked
    requires goes_on { stop host.old ≡ None }
    requires last { last.process ≡ host.old.last }
    requires quantum { quantum ≡ host.old.limits.quantum }
    requires home { host.old.away ≡ [] }
    ensures next { next_picked host.old.limits (picked_of last) (ready host.old) ≡ Some (picked_of result) }
    ensures can { can_step host.new result.process ≡ true }
    ensures host { host.new ≡ record host.old { last = result.process } }
{
    if goes_on(host, last, quantum) {
        return Picked {
            process: last.process,
            ticks: last.ticks + 1,
        };
    }
    match host.pick() {
        Some(process) => Picked { process, ticks: 1 },
        None => unreachable!(),
    }
}

/// Whether who was picked last takes the next tick too.
fn goes_on(host: &Host, last: Picked, quantum: u64) -> bool
    ensures { result ≡ (can_step host.now last.process && nat_lt last.ticks quantum) }
{
    last.ticks < quantum && host.can_step(last.process)
}
