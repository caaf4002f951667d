//! Ticks that kill: an exit from a catch, a throw, and the end of the program.

ghost use Rattle.std.specs.Prelude.{◌≡◌, ◌<◌, ◌≤◌, ◌+◌, ◌^◌, ◌==◌, ◌∷◌, [], false, OnOk, OnErr, MatchOption, List, Some, None, map, length, drop as without_first};
ghost use Rattle.ql_base.specs.declared.fault.RunFault.TheVariants.{NoCatch};
ghost use Rattle.ql_world.specs.World.{numbered, change_numbered, counted, marked, with_thread};
ghost use Rattle.ql_world.specs.Within.{tagged};
ghost use Rattle.ql_world.specs.Idle.{in_cleanup, killed_within};
ghost use Rattle.ql_world.specs.Tick.{is_seen, or_home};
ghost use Rattle.ql_world.specs.Machine.{rests, exits};
ghost use Rattle.ql_world.specs.declared.event.Stop.TheVariants.{Fault as fault};
ghost use Rattle.ql_world.specs.declared.world.Aim.TheVariants.{To as to};
ghost use Rattle.ql_world.specs.declared.word.Slot.{Slot};
ghost use Rattle.ql_code.specs.declared.mark.Mark as marks;
ghost use Rattle.ql_code.specs.declared.code.Op.TheVariants as ops;
ghost use Rattle.ql_code.specs.Code.{Instruction};
ghost use Rattle.ql_code.specs.Machine.{Item, Point, slot, mark, words, settled, ended, unwind_point, aim_cleanup, cleanups_on, innermost_on, exit_want, code_machine};
ghost use Rattle.ql_proc.specs.declared.process.Proc.{Proc};
ghost use Rattle.ql_proc.specs.Points.{point_of};
ghost use Rattle.ql_host.specs.World.{world_of, Keeps};
ghost use Rattle.ql_host.specs.Awaited.{awaited};
ghost use Rattle.ql_host.specs.Acting.{TakesAll};
ghost use Rattle.ql_host.specs.Among.{StandsAmong, AreKept};
ghost use Rattle.ql_host.specs.Room.{with_room};
ghost use Rattle.ql_host.specs.Killing.{killed_count, with_killed, owner_aimed};

use crate::kill::{count_killed, kill_within, unwind_at};
use crate::ready::proc_at;
use crate::setting::Setting;
use crate::shared::Shared;
use crate::ticks::values::stop;
use ql_base::fault::RunFault;
use ql_code::code::Code;
use ql_code::mark::Mark;
use ql_proc::process::Proc;
use ql_tree::person::Person;
use ql_tree::tree::Tree;
use ql_world::event::{Event, Stop};
use ql_world::word::Word;
use ql_world::world::Aim;
use std::alloc::AllocError;

/// Takes room for the events of a kill by way of catch c, and for so many more.
fn take_events(shared: &mut Shared, c: u32, owner: u32, more: u64) -> Result<(), AllocError>
    requires { more ≤ 4 }
    ensures same { shared.new ≡ with_room shared.old shared.new }
    ensures tables { shared.new ≡ record shared.old { history = record shared.old.history { spare = shared.new.history.spare } } }
    ensures room { OnOk result (killed_count shared.old c owner + more ≤ shared.new.history.spare) }
    ensures events { shared.old.history.spare ≤ shared.new.history.spare }
{
    let killed = count_killed(&shared.tree, c, owner);
    shared.history.reserve(killed + more)
}

/// Ends the program.
#[tactic(auto, using(crate::proofs::Counts::no_fewer))]
pub fn last(
    s: Setting,
    shared: &mut Shared,
    procs: &mut [Proc],
    p: u32,
    person: Person,
    at: u64,
) -> Result<(), AllocError>
    requires { StandsAmong s p person shared.old procs.old ops.End at }
    ensures takes { OnOk result (TakesAll s.entry p person shared.old procs.old shared.new procs.new) }
    ensures long { OnOk result (length procs.new ≡ length shared.new.tree.persons) }
    ensures keeps { OnOk result (Keeps shared.old shared.new) }
    ensures kept { OnErr result (AreKept shared.old procs.old shared.new procs.new) }
{
    take_events(shared, 0, p, 4)?;
    shared.history.tick(p);
    shared.history.tell(Event::Exit { p, c: 0 });
    kill_within(shared, procs, 0, p, p);
    shared.tree.leave(0);
    shared.history.tell(Event::EndOk { p, text: None });
    shared.tree.set_ended(p);
    end_at(procs, p);
    Ok(())
}

/// Process p ends.
fn end_at(procs: &mut [Proc], p: u32)
    ensures points { (t : Proc) → numbered procs.old p ≡ Some t → map point_of procs.new ≡ change_numbered (λ v. ended t.place) (map point_of procs.old) p }
    ensures count { length procs.new ≡ length procs.old }
{
    if p > 0 && p as usize <= procs.len() {
        let proc = &mut procs[p as usize - 1];
        proc.end();
    }
}

/// Leaves a catch.
pub fn exit(
    s: Setting,
    shared: &mut Shared,
    procs: &mut [Proc],
    p: u32,
    person: Person,
    at: u64,
) -> Result<(), AllocError>
    requires { StandsAmong s p person shared.old procs.old ops.Exit at }
    ensures takes { OnOk result (TakesAll s.entry p person shared.old procs.old shared.new procs.new) }
    ensures long { OnOk result (length procs.new ≡ length shared.new.tree.persons) }
    ensures keeps { OnOk result (Keeps shared.old shared.new) }
    ensures kept { OnErr result (AreKept shared.old procs.old shared.new procs.new) }
{
    let Some(c) = catch_left(procs, p) else {
        return Ok(());
    };
    let Some(catch) = shared.tree.catch_at(c) else {
        return Ok(());
    };
    take_events(shared, c, catch.owner, 3)?;
    shared.history.tick(p);
    shared.history.tell(Event::Exit { p, c });
    kill_within(shared, procs, c, catch.owner, p);
    shared.tree.leave(c);
    exit_at(s.code, procs, p);
    Ok(())
}

/// The catch under the topmost slot of process p.
fn catch_left(procs: &[Proc], p: u32) -> Option<u32>
    ensures { (t : Proc) → numbered procs.now p ≡ Some t → MatchOption result (exit_want t.stack.items ≡ rests) (λ c. exit_want t.stack.items ≡ exits c) }
{
    let proc = proc_at(procs, p)?;
    match proc.mark_under_slot() {
        Some(Mark::Catching(c, _)) => Some(c),
        _ => None,
    }
}

/// Process p leaves a catch with the slot over it, and goes on.
fn exit_at(code: &Code, procs: &mut [Proc], p: u32)
    requires { (t : Proc) → numbered procs.old p ≡ Some t → t.place < length code.now.instructions }
    ensures points { (t : Proc) (x : Slot) (k : marks.Mark) (rest : List Item) → numbered procs.old p ≡ Some t → t.stack.items ≡ slot x ∷ (mark k ∷ rest)
        → map point_of procs.new ≡ change_numbered (λ v. settled code.now.instructions (t.place + 1) (slot x ∷ rest)) (map point_of procs.old) p }
    ensures count { length procs.new ≡ length procs.old }
{
    if p > 0 && p as usize <= procs.len() {
        let proc = &mut procs[p as usize - 1];
        proc.exit(code);
    }
}

/// Throws a word to the innermost catch with a tag.
pub fn throw(
    s: Setting,
    shared: &mut Shared,
    procs: &mut [Proc],
    p: u32,
    person: Person,
    at: u64,
) -> Result<(), AllocError>
    requires stands { StandsAmong s p person shared.old procs.old ops.Throw at }
    requires calm { (t : Proc) → numbered procs.old p ≡ Some t → awaited ops.Throw t.stack.items ≡ None }
    ensures takes { OnOk result (TakesAll s.entry p person shared.old procs.old shared.new procs.new) }
    ensures long { OnOk result (length procs.new ≡ length shared.new.tree.persons) }
    ensures keeps { OnOk result (Keeps shared.old shared.new) }
    ensures kept { OnErr result (AreKept shared.old procs.old shared.new procs.new) }
{
    let Some((tag, w)) = thrown(procs, p) else {
        return Ok(());
    };
    let Some(c) = seen_catch(&shared.tree, procs, p, person.home, tag) else {
        return throw_nowhere(shared, p, at);
    };
    let Some(catch) = shared.tree.catch_at(c) else {
        return Ok(());
    };
    take_events(shared, c, catch.owner, 3)?;
    shared.history.tick(p);
    shared.history.tell(Event::Throw { p, c });
    if runs_cleanup(procs, p) {
        throw_within(shared, procs, p, c, catch.owner, w);
        return Ok(());
    }
    throw_to(shared, procs, c, catch.owner, w);
    Ok(())
}

/// The tag and the word that process p throws.
fn thrown(procs: &[Proc], p: u32) -> Option<(Word, Word)>
    ensures { (t : Proc) → numbered procs.now p ≡ Some t → MatchOption result ((length (words 2 t.stack.items) == 2) ≡ false) (λ w. words 2 t.stack.items ≡ w.0 ∷ (w.1 ∷ [])) }
{
    let proc = proc_at(procs, p)?;
    proc.top_two()
}

/// The innermost open catch with this tag round process p. A running cleanup sees those opened since it began.
fn seen_catch(tree: &Tree, procs: &[Proc], p: u32, home: u32, tag: Word) -> Option<u32>
    ensures { (t : Proc) → numbered procs.now p ≡ Some t
        → result ≡ tagged (is_seen (cleanups_on t.stack.items)) tree.now.catches tag (or_home (innermost_on t.stack.items) home) }
{
    let proc = proc_at(procs, p)?;
    let from = around(proc, home);
    match proc.cleanup() {
        Some(cleanup) => tree.find_inner(from, tag, cleanup.floor),
        None => tree.find_catch(from, tag),
    }
}

/// The innermost catch round a process with this home.
fn around(proc: &Proc, home: u32) -> u32
    ensures { result ≡ or_home (innermost_on proc.now.stack.items) home }
{
    match proc.innermost() {
        Some(c) => c,
        None => home,
    }
}

/// Whether process p runs a cleanup.
fn runs_cleanup(procs: &[Proc], p: u32) -> bool
    ensures { (t : Proc) → numbered procs.now p ≡ Some t → result ≡ in_cleanup (cleanups_on t.stack.items) }
{
    match proc_at(procs, p) {
        Some(proc) => proc.is_in_cleanup(),
        None => false,
    }
}

/// A throw for which there is no catch errs.
fn throw_nowhere(shared: &mut Shared, p: u32, at: u64) -> Result<(), AllocError>
    requires { shared.old.history.ticks < 2 ^ 63 }
    ensures world { OnOk result ((threads : List Point) → world_of shared.new threads ≡ marked (counted (world_of shared.old threads) p) (fault NoCatch p at)) }
    ensures keeps { OnOk result (Keeps shared.old shared.new) }
    ensures persons { OnOk result (shared.new.tree ≡ shared.old.tree) }
    ensures kept { OnErr result (shared.new ≡ with_room shared.old shared.new) }
    ensures events { OnErr result (shared.old.history.spare ≤ shared.new.history.spare) }
{
    shared.history.reserve(2)?;
    stop(
        shared,
        p,
        Stop::Fault {
            kind: RunFault::NoCatch,
            proc: p,
            at,
        },
    );
    Ok(())
}

/// Process p, which runs a cleanup, throws a word to catch c.
fn throw_within(shared: &mut Shared, procs: &mut [Proc], p: u32, c: u32, owner: u32, w: Word)
    requires threads { length procs.old ≡ length shared.old.tree.persons }
    requires room { killed_count shared.old c owner ≤ shared.old.history.spare }
    ensures world { (code : List Instruction) (t : Proc) → numbered procs.old p ≡ Some t
        → world_of shared.new (map point_of procs.new) ≡ with_thread (killed_within (code_machine code) (world_of shared.old (map point_of procs.old)) c owner) p (unwind_point t.place (aim_cleanup (to c w) (without_first 2 t.stack.items))) }
    ensures same { shared.new ≡ with_killed shared.old shared.new }
    ensures persons { length shared.new.tree.persons ≡ length shared.old.tree.persons }
    ensures count { length procs.new ≡ length procs.old }
    ensures spare { shared.old.history.spare ≤ shared.new.history.spare + killed_count shared.old c owner }
{
    kill_within(shared, procs, c, owner, p);
    throw_at(procs, p, Aim::To(c, w));
}

/// Process p takes a tag and a word, gives its innermost running cleanup this aim, and unwinds.
fn throw_at(procs: &mut [Proc], p: u32, aim: Aim)
    ensures points { (t : Proc) → numbered procs.old p ≡ Some t → map point_of procs.new ≡ change_numbered (λ v. unwind_point t.place (aim_cleanup aim (without_first 2 t.stack.items))) (map point_of procs.old) p }
    ensures count { length procs.new ≡ length procs.old }
{
    if p > 0 && p as usize <= procs.len() {
        let proc = &mut procs[p as usize - 1];
        proc.throw_in_cleanup(aim);
    }
}

/// A word is thrown to catch c, whose owner leaves for it.
fn throw_to(shared: &mut Shared, procs: &mut [Proc], c: u32, owner: u32, w: Word)
    requires threads { length procs.old ≡ length shared.old.tree.persons }
    requires room { killed_count shared.old c owner ≤ shared.old.history.spare }
    ensures world { (code : List Instruction) → world_of shared.new (map point_of procs.new) ≡ owner_aimed (code_machine code) (killed_within (code_machine code) (world_of shared.old (map point_of procs.old)) c owner) owner (to c w) }
    ensures same { shared.new ≡ with_killed shared.old shared.new }
    ensures persons { length shared.new.tree.persons ≡ length shared.old.tree.persons }
    ensures count { length procs.new ≡ length procs.old }
    ensures spare { shared.old.history.spare ≤ shared.new.history.spare + killed_count shared.old c owner }
{
    kill_within(shared, procs, c, owner, 0);
    shared.tree.aim_at(owner, Aim::To(c, w));
    unwind_at(procs, owner);
}
