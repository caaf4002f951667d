//! Which processes can step.

ghost use Rattle.std.specs.Prelude.{◌≡◌, List, map, option_copied};
ghost use Rattle.ql_world.specs.World.{catch_at, numbered, or_pending};
ghost use Rattle.ql_world.specs.Idle as idle;
ghost use Rattle.ql_world.specs.Tick as ticks;
ghost use Rattle.ql_tree.specs.Persons.{process_of_person, joined};
ghost use Rattle.ql_code.specs.Machine.{Point, cleanups_on, code_machine};
ghost use Rattle.ql_proc.specs.Points.{point_of};
ghost use Rattle.ql_host.specs.World.{world_of};
ghost use Rattle.ql_host.specs.Ready.{machine, world, steps};
ghost use Rattle.ql_host.specs.Waiting.{is_there, has_call, has_current, served, waits_for_call, is_harmless, is_away, holds_at};

use crate::setting::Setting;
use crate::shared::Shared;
use crate::waits::{Waits, waiting};
use ql_code::code::Code;
use ql_proc::process::Proc;
use ql_tree::person::Person;
use ql_world::word::Word;
use ql_world::world::{Aim, FutState, Kind};

/// Whether process p can step. One that was never made can't.
pub fn can_step(s: Setting, shared: &Shared, procs: &[Proc], p: u32) -> bool
    ensures { result ≡ steps s.entry shared.now procs.now p }
{
    let Some(person) = shared.tree.person(p) else {
        return false;
    };
    let Some(proc) = proc_at(procs, p) else {
        return false;
    };
    if person.ended {
        return false;
    }
    is_there(s, shared, procs, p, person, proc, waiting(s.code, proc))
}

/// The process with this number.
pub fn proc_at(procs: &[Proc], p: u32) -> Option<&Proc>
    ensures { option_copied result ≡ numbered procs.now p }
{
    if p == 0 {
        return None;
    }
    procs.get(p as usize - 1)
}

/// Whether what process p waits for is there.
fn is_there(
    s: Setting,
    shared: &Shared,
    procs: &[Proc],
    p: u32,
    person: Person,
    proc: &Proc,
    waits: Waits,
) -> bool
    ensures { result ≡ is_there (machine s.entry) s.entry.names.now s.entry.limits p (process_of_person person (point_of proc.now)) (world s.entry shared.now procs.now) waits }
{
    match waits {
        Waits::Never => false,
        Waits::Nothing => true,
        Waits::Future(f) => !is_pending(shared, f),
        Waits::Call => has_queued(shared, person.kind),
        Waits::Reply => may_reply(shared, person.kind),
        Waits::Exit(c) => lets_go(s, shared, procs, true, p, c),
        Waits::Leave(c) => may_leave(s, shared, procs, p, c, landing(acting(person, proc), c)),
        Waits::Last => is_clear(s, shared, procs, true, p, 0),
    }
}

/// Whether a future is pending. One that was never made is.
fn is_pending(shared: &Shared, f: u32) -> bool
    ensures { result ≡ idle.is_pending (or_pending (numbered shared.now.futures.states f)) }
{
    match shared.futures.state(f) {
        FutState::Pending => true,
        _ => false,
    }
}

/// Whether a call waits for the closure that a process of this kind serves.
fn has_queued(shared: &Shared, kind: Kind) -> bool
    ensures { result ≡ served shared.now.calls.servers has_call kind }
{
    match kind {
        Kind::Closure(k) => match shared.calls.server(k) {
            Some(server) => server.next().is_some(),
            None => false,
        },
        _ => false,
    }
}

/// Whether a call of the closure that a process of this kind serves is in progress.
fn may_reply(shared: &Shared, kind: Kind) -> bool
    ensures { result ≡ served shared.now.calls.servers has_current kind }
{
    match kind {
        Kind::Closure(k) => match shared.calls.server(k) {
            Some(server) => server.in_progress(),
            None => false,
        },
        _ => false,
    }
}

/// The aim that a process acts by.
pub fn acting(person: Person, proc: &Proc) -> Aim
    ensures { result ≡ idle.acting (cleanups_on proc.now.stack.items) person.aim }
{
    match proc.cleanup() {
        Some(cleanup) => cleanup.aim,
        None => person.aim,
    }
}

/// The word that is thrown to this catch, if one is.
pub fn landing(aim: Aim, c: u32) -> Option<Word>
    ensures { result ≡ ticks.landing aim c }
{
    match aim {
        Aim::To(d, w) if d == c => Some(w),
        _ => None,
    }
}

/// Whether a process that unwinds may leave catch c, given the word that is thrown to it.
fn may_leave(
    s: Setting,
    shared: &Shared,
    procs: &[Proc],
    p: u32,
    c: u32,
    thrown: Option<Word>,
) -> bool
    ensures { (person : Person) (t : Point) → result ≡ ticks.may_leave (machine s.entry) s.entry.names.now s.entry.limits p (process_of_person person t) (world s.entry shared.now procs.now) c thrown }
{
    match thrown {
        None => true,
        Some(_) => lets_go(s, shared, procs, false, p, c),
    }
}

/// Whether process p may leave catch c: nobody within a catch that waits is at work.
fn lets_go(s: Setting, shared: &Shared, procs: &[Proc], enough: bool, p: u32, c: u32) -> bool
    ensures { (person : Person) (t : Point) → result ≡ ticks.lets_go (machine s.entry) s.entry.names.now s.entry.limits p (process_of_person person t) (world s.entry shared.now procs.now) enough c (catch_at shared.now.tree.catches c) }
{
    match shared.tree.catch_at(c) {
        None => false,
        Some(catch) => !catch.waits || is_clear(s, shared, procs, enough, p, c),
    }
}

/// Whether each process within catch c but process p has ended, or is idle where that is enough.
fn is_clear(s: Setting, shared: &Shared, procs: &[Proc], enough: bool, p: u32, c: u32) -> bool
    ensures { result ≡ idle.is_clear (machine s.entry) (world s.entry shared.now procs.now) enough p c }
{
    let count = shared.tree.count();
    let mut seen = 0;
    'scan: while seen < count {
        if !is_away(s, shared, procs, enough, p, c, seen + 1) {
            return false;
        }
        seen += 1;
    }
    true
}

/// Whether the process with this number needn't be waited for at catch c.
fn is_away(
    s: Setting,
    shared: &Shared,
    procs: &[Proc],
    enough: bool,
    p: u32,
    c: u32,
    number: u32,
) -> bool
    ensures { result ≡ holds_at (is_away (machine s.entry) (world s.entry shared.now procs.now) enough p c) number (numbered (joined shared.now.tree.persons (map point_of procs.now)) number) }
{
    let Some(person) = shared.tree.person(number) else {
        return true;
    };
    let Some(proc) = proc_at(procs, number) else {
        return true;
    };
    if number == p {
        return true;
    }
    is_harmless(s.code, shared, enough, c, person, proc)
}

/// Whether a process has ended, or isn't within catch c, or is idle where that is enough.
fn is_harmless(
    code: &Code,
    shared: &Shared,
    enough: bool,
    c: u32,
    person: Person,
    proc: &Proc,
) -> bool
    ensures { (threads : List Point) → result ≡ is_harmless (code_machine code.now.instructions) (world_of shared.now threads) enough c (process_of_person person (point_of proc.now)) }
{
    if person.ended {
        return true;
    }
    if !shared.tree.is_over(c, person.home) {
        return true;
    }
    if !enough {
        return false;
    }
    is_idle(code, shared, person, proc)
}

/// Whether a live process serves a closure and has nothing to do until a call comes.
fn is_idle(code: &Code, shared: &Shared, person: Person, proc: &Proc) -> bool
    ensures { (threads : List Point) → result ≡ idle.is_idle (code_machine code.now.instructions) (world_of shared.now threads) (process_of_person person (point_of proc.now)) }
{
    if person.ended {
        return false;
    }
    match person.aim {
        Aim::Die => false,
        _ => match person.kind {
            Kind::Closure(k) => is_idle_server(code, shared, k, proc),
            _ => false,
        },
    }
}

/// Whether a process of process closure k has nothing to do until a call comes.
fn is_idle_server(code: &Code, shared: &Shared, k: u32, proc: &Proc) -> bool
    ensures { result ≡ idle.is_idle_server (code_machine code.now.instructions) shared.now.futures.states ((code_machine code.now.instructions).want (point_of proc.now)) (numbered shared.now.calls.servers k) }
{
    let Some(server) = shared.calls.server(k) else {
        return false;
    };
    if server.in_progress() {
        return false;
    }
    if server.queued() > 0 {
        return false;
    }
    waits_for_call(
        shared,
        server.is_eager(),
        server.turn(),
        waiting(code, proc),
    )
}

/// Whether the process of a closure, to which no call was sent, waits for one.
fn waits_for_call(shared: &Shared, eager: bool, turn: &[u32], waits: Waits) -> bool
    ensures { result ≡ waits_for_call shared.now.futures.states eager turn.now waits }
{
    match waits {
        Waits::Call => !eager,
        Waits::Reply => eager,
        Waits::Future(f) => eager && is_among(f, turn) && is_pending(shared, f),
        _ => false,
    }
}

/// Whether a future is among these.
fn is_among(f: u32, turn: &[u32]) -> bool
    ensures { result ≡ idle.is_number_among f turn.now }
{
    for g in turn {
        if f == *g {
            return true;
        }
    }
    false
}
