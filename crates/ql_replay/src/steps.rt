//! Ticks of one process.

ghost use Rattle.std.specs.Prelude.{◌≡◌, ◌≤◌, ◌+◌, [], true, None, Some, IfOk, OnOk, OnErr};
ghost use Rattle.ql_host.specs.Host.{can_step, next_is_local, stop, worked};
ghost use Rattle.ql_replay.specs.Running.{IsQuietUpTo};

use ql_code::code::Code;
use ql_code::laws::commits_are_ticks;
use ql_host::host::Host;
use ql_host::work::Commit;
use ql_proc::local::run_local;
use std::alloc::AllocError;

/// Takes ticks of a process that can step: as many as touch its window alone, but at most so many, or else one.
pub fn take_some(host: &mut Host, code: &Code, p: u32, most: u64) -> Result<u64, AllocError>
    requires code { code.now ≡ host.old.code }
    requires goes_on { stop host.old ≡ None }
    requires home { host.old.away ≡ [] }
    requires can { can_step host.old p ≡ true }
    requires some { 1 ≤ most }
    ensures some { IfOk result (λ n. 1 ≤ n) }
    ensures few { IfOk result (λ n. n ≤ most) }
    ensures worked { IfOk result (λ n. worked host.old p n ≡ Some host.new.world) }
    ensures quiet { IfOk result (λ n. IsQuietUpTo host.old p n) }
    ensures rest { OnOk result (host.new ≡ record host.old { world = host.new.world }) }
    ensures same { OnErr result (host.new ≡ host.old) }
{
    if host.next_is_local(p) {
        let left = host.left();
        work(host, code, p, most.min(left))
    } else {
        host.tick(p)?;
        Ok(1)
    }
}

/// Takes as many ticks as touch the window of a process alone, but at most so many. The next one does.
fn work(host: &mut Host, code: &Code, p: u32, most: u64) -> Result<u64, AllocError>
    requires code { code.now ≡ host.old.code }
    requires goes_on { stop host.old ≡ None }
    requires home { host.old.away ≡ [] }
    requires can { can_step host.old p ≡ true }
    requires local { next_is_local host.old p ≡ true }
    requires some { 1 ≤ most }
    requires left { host.old.world.ticks + most ≤ host.old.limits.budget }
    ensures some { IfOk result (λ n. 1 ≤ n) }
    ensures few { IfOk result (λ n. n ≤ most) }
    ensures worked { IfOk result (λ n. worked host.old p n ≡ Some host.new.world) }
    ensures quiet { IfOk result (λ n. IsQuietUpTo host.old p n) }
    ensures rest { OnOk result (host.new ≡ record host.old { world = host.new.world }) }
    ensures same { OnErr result (host.new ≡ host.old) }
{
    commits_are_ticks();
    // for what its type keeps: it is a state of the run
    let _ = host.stopped();
    let job = host.resume(p, most)?;
    match host.commit(run_local(code, job))? {
        Commit::Applied(n) => Ok(n),
        // No: nothing came between.
        Commit::Dropped => unreachable!(),
    }
}
