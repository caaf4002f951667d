//! Work that comes home late.

ghost use Rattle.std.specs.Prelude.{◌≡◌, [], IfSome, OnOk};
ghost use Rattle.std.specs.Arc.{arc_value};

use super::*;
use crate::accept::accept;
use crate::laws::names_can_be_printed;
use crate::reading::read_text;
use ql_base::sure::SureSource;
use ql_world::event::Event;
use std::process::Abort;

/// Process 2 counts without end, and process 3 throws past it.
const THROWN_PAST: &[u8] =
    b"(defun count (n) (count (+ n 1))) (print (catch 'out (qlet t ((x (count 0)) (y (throw 'out 7))) x)))";

/// The code of a source, and a host at its beginning with so many ticks to take, but at most the usual ones.
fn begun(alloc: Global, bytes: &[u8], budget: u64) -> Option<(Arc<Code>, Host)>
    ensures { IfSome result (λ p. (p.1.code ≡ arc_value p.0) × (p.1.away ≡ [])) }
{
    // A fact that the condition on the names rests on; the call does nothing.
    names_can_be_printed();
    let bytes = Vec::from_slice(alloc, bytes).ok()?;
    let Ok(text) = read_text(alloc, &mut SureSource::new(bytes)) else {
        return None;
    };
    let Ok(code) = accept(alloc, &text) else {
        return None;
    };
    let Ok(kept) = Arc::new(alloc, code) else {
        return None;
    };
    let Ok(shared) = kept.clone() else {
        return None;
    };
    let limits = Limits {
        budget: budget.min(2_000_000),
        ..Limits::usual()
    };
    let Ok(host) = Host::begin(alloc, shared, text.names, limits) else {
        return None;
    };
    Some((kept, host))
}

/// One round of whoever is picked, if anyone can step.
fn go_on(host: &mut Host, code: &Code) -> Result<(), AllocError>
    requires { code.now ≡ host.old.code }
    ensures code { OnOk result (host.new.code ≡ host.old.code) }
    ensures away { OnOk result (host.new.away ≡ host.old.away) }
{
    if host.stopped().is_some() {
        return Ok(());
    }
    if let Some(p) = host.pick() {
        round(host, code, p, 256)?;
    }
    Ok(())
}

/// So many rounds.
fn go_on_for(host: &mut Host, code: &Code, rounds: u64) -> Result<(), AllocError>
    requires { code.now ≡ host.old.code }
    ensures code { OnOk result (host.new.code ≡ host.old.code) }
    ensures away { OnOk result (host.new.away ≡ host.old.away) }
{
    for _ in 0..rounds {
        go_on(host, code)?;
    }
    Ok(())
}

/// How many ticks of process 2 stand in the journal.
fn ticks_of_two(host: &Host) -> u64 {
    let mut ticks: u64 = 0;
    for event in host.journal().events() {
        if let Event::Turn { p: 2, n } = event {
            ticks = ticks.saturating_add(*n);
        }
    }
    ticks
}

/// What came of work that was brought home late.
#[derive(Clone, Copy, Debug, PartialEq, Eq)]
struct Homecoming {
    /// How many ticks were taken before the work was given out.
    before: u64,
    commit: Commit,
    /// By how many ticks of process 2 the journal grew when the work came home.
    grown: u64,
}

/// Gives out work of 100 ticks for process 2 as soon as it can step, lets the others go on for so many rounds, and brings the
/// work home.
fn late(alloc: Global, budget: u64, rounds: u64) -> Option<Homecoming> {
    let (code, mut host) = begun(alloc, THROWN_PAST, budget)?;
    for _ in 0..20 {
        if host.can_step(2) {
            break;
        }
        go_on(&mut host, &code).ok()?;
    }
    if host.stopped().is_some() || !host.can_step(2) || host.left() < 100 {
        return None;
    }
    let before = budget.saturating_sub(host.left());
    let Ok(job) = host.resume(2, 100) else {
        return None;
    };
    let done = run_local(&code, job);
    let Ok(()) = go_on_for(&mut host, &code, rounds) else {
        return None;
    };
    let ticks = ticks_of_two(&host);
    let commit = host.commit(done).ok()?;
    Some(Homecoming {
        before,
        commit,
        grown: ticks_of_two(&host).saturating_sub(ticks),
    })
}

#[test]
fn late_work_is_taken_in_or_leaves_no_trace(rt: HostRuntime) {
    let alloc = rt.alloc();
    let at_once = late(alloc, 2_000_000, 0).expect(&rt, "work");
    assert_eq!(&rt; at_once.commit, Commit::Applied(100));
    assert_eq!(&rt; at_once.grown, 100);
    // Process 3 has begun, but not thrown.
    let soon = late(alloc, 2_000_000, 1).expect(&rt, "work");
    assert_eq!(&rt; soon.commit, Commit::Applied(100));
    assert_eq!(&rt; soon.grown, 100);
    // It has thrown, and so killed process 2.
    let killed = late(alloc, 2_000_000, 10).expect(&rt, "work");
    assert_eq!(&rt; killed.commit, Commit::Dropped);
    assert_eq!(&rt; killed.grown, 0);
}

#[test]
fn work_beyond_the_budget_is_dropped(rt: HostRuntime) {
    let alloc = rt.alloc();
    let before = late(alloc, 2_000_000, 0).expect(&rt, "work").before;
    let budget = before.saturating_add(100);
    let enough = late(alloc, budget, 0).expect(&rt, "work");
    assert_eq!(&rt; enough.commit, Commit::Applied(100));
    // A tick of process 3 leaves 99.
    let spent = late(alloc, budget, 1).expect(&rt, "work");
    assert_eq!(&rt; spent.commit, Commit::Dropped);
    assert_eq!(&rt; spent.grown, 0);
}
