//! Kills.

ghost use Rattle.std.specs.Prelude.{◌≡◌, ◌≢◌, ◌≤◌, ◌<◌, ◌+◌, ℕ, true, false, if◌then◌else◌, List, map, length};
ghost use Rattle.ql_world.specs.World.{numbered, change_numbered};
ghost use Rattle.ql_world.specs.Idle.{unwinds_at, all_killed, unanswered, abandoned, abandoned_server, killed_at, killed_within};
ghost use Rattle.ql_world.specs.declared.world.Aim.TheVariants.{Die as die};
ghost use Rattle.ql_tree.specs.Kill.{killed_numbers, aimed_at};
ghost use Rattle.ql_code.specs.Code.{Instruction};
ghost use Rattle.ql_code.specs.Machine.{Point, code_machine};
ghost use Rattle.ql_proc.specs.Points.{point_of};
ghost use Rattle.ql_host.specs.World.{world_of};
ghost use Rattle.ql_host.specs.Killing.{is_killed_at, killed_count, IsSameBut, with_killed, killed_by};

use crate::shared::Shared;
use ql_calls::server::Server;
use ql_future::futures::Futures;
use ql_proc::process::Proc;
use ql_tree::tree::Tree;
use ql_world::event::Event;
use ql_world::world::{Aim, Kind};

/// How many processes are killed by way of catch c, where its owner is spared.
pub fn count_killed(tree: &Tree, c: u32, owner: u32) -> u64
    ensures count { result ≡ length (killed_numbers tree.now.catches c owner tree.now.persons) }
    ensures few { result < 4294967296 }
{
    let count = tree.count();
    let mut at = 0;
    let mut killed = 0;
    'count: while at < count {
        if is_killed(tree, c, owner, at + 1) {
            killed += 1;
        }
        at += 1;
    }
    killed
}

/// Whether a process is killed by way of catch c.
fn is_killed(tree: &Tree, c: u32, owner: u32, n: u32) -> bool
    ensures { result ≡ is_killed_at tree.now.catches c owner n (numbered tree.now.persons n) }
{
    if n == owner {
        return false;
    }
    tree.live_within(c, n)
}

/// Lets a process unwind, unless it runs a cleanup.
fn unwind(proc: &mut Proc)
    ensures { (code : List Instruction) → point_of proc.new ≡ unwinds_at (code_machine code) (point_of proc.old) }
{
    if !proc.is_in_cleanup() {
        proc.unwind();
    }
}

/// The same of the process with this number.
pub fn unwind_at(procs: &mut [Proc], n: u32)
    ensures points { (code : List Instruction) → map point_of procs.new ≡ change_numbered (unwinds_at (code_machine code)) (map point_of procs.old) n }
    ensures others { (m : ℕ) → m ≢ n → numbered procs.new m ≡ numbered procs.old m }
    ensures count { length procs.new ≡ length procs.old }
{
    if n > 0 && n as usize <= procs.len() {
        let proc = &mut procs[n as usize - 1];
        unwind(proc);
    }
}

/// The futures that nobody will give a value any more die.
fn kill_unanswered(futures: &mut Futures, server: &Server)
    ensures { futures.new ≡ record futures.old { states = all_killed (unanswered server.now) futures.old.states } }
{
    let places = server.reply_places();
    let mut at = 0;
    'places: while at < places {
        if let Some(f) = server.unanswered(at) {
            futures.kill(f);
        }
        at += 1;
    }
}

/// What waits for a killed process of this kind is dead.
fn abandon(shared: &mut Shared, kind: Kind)
    ensures world { (code : List Instruction) (threads : List Point) → world_of shared.new threads ≡ abandoned (code_machine code) (world_of shared.old threads) kind }
    ensures same { shared.new ≡ record shared.old { futures = shared.new.futures; calls = shared.new.calls } }
{
    match kind {
        Kind::Main => {}
        Kind::Child(f) => shared.futures.kill(f),
        Kind::Closure(k) => abandon_calls(shared, k),
    }
}

/// Process closure k is dead, and so are the futures that nobody will give a value any more.
fn abandon_calls(shared: &mut Shared, k: u32)
    ensures world { (code : List Instruction) (threads : List Point) → world_of shared.new threads ≡ abandoned_server (code_machine code) (world_of shared.old threads) k (numbered shared.old.calls.servers k) }
    ensures same { shared.new ≡ record shared.old { futures = shared.new.futures; calls = shared.new.calls } }
{
    let Some(server) = shared.calls.server(k) else {
        return;
    };
    kill_unanswered(&mut shared.futures, server);
    shared.calls.bury(k);
}

/// Kills a process by way of catch c. It unwinds, unless it runs a cleanup or is the one that is spared.
fn kill(shared: &mut Shared, procs: &mut [Proc], c: u32, n: u32, kind: Kind, spared: u32)
    requires room { 0 < shared.old.history.spare }
    ensures world { (code : List Instruction) → IsSameBut spared (world_of shared.new (map point_of procs.new)) (killed_by (code_machine code) (world_of shared.old (map point_of procs.old)) c n kind) }
    ensures same { shared.new ≡ with_killed shared.old shared.new }
    ensures persons { shared.new.tree.persons ≡ change_numbered (aimed_at die) shared.old.tree.persons n }
    ensures spared { numbered procs.new spared ≡ numbered procs.old spared }
    ensures count { length procs.new ≡ length procs.old }
    ensures spare { shared.old.history.spare ≤ shared.new.history.spare + 1 }
{
    shared.tree.aim_at(n, Aim::Die);
    if n != spared {
        unwind_at(procs, n);
    }
    shared.history.tell(Event::Kill { c, q: n });
    abandon(shared, kind);
}

/// Kills a process by way of catch c, where it is live and within that, and not the owner.
fn kill_if_within(shared: &mut Shared, procs: &mut [Proc], c: u32, owner: u32, n: u32, spared: u32)
    requires threads { length procs.old ≡ length shared.old.tree.persons }
    requires room { (if is_killed_at shared.old.tree.catches c owner n (numbered shared.old.tree.persons n) then 1 else 0) ≤ shared.old.history.spare }
    ensures world { (code : List Instruction) → IsSameBut spared (world_of shared.new (map point_of procs.new)) (killed_at (code_machine code) (world_of shared.old (map point_of procs.old)) c owner n) }
    ensures same { shared.new ≡ with_killed shared.old shared.new }
    ensures persons { shared.new.tree.persons ≡ (if is_killed_at shared.old.tree.catches c owner n (numbered shared.old.tree.persons n) then change_numbered (aimed_at die) shared.old.tree.persons n else shared.old.tree.persons) }
    ensures spared { numbered procs.new spared ≡ numbered procs.old spared }
    ensures count { length procs.new ≡ length procs.old }
    ensures spare { shared.old.history.spare ≤ shared.new.history.spare + (if is_killed_at shared.old.tree.catches c owner n (numbered shared.old.tree.persons n) then 1 else 0) }
{
    if !is_killed(&shared.tree, c, owner, n) {
        return;
    }
    let Some(person) = shared.tree.person(n) else {
        return;
    };
    kill(shared, procs, c, n, person.kind, spared);
}

/// Kills each live process within catch c but the owner, in rising order. The thread of the one that is spared stays.
pub fn kill_within(shared: &mut Shared, procs: &mut [Proc], c: u32, owner: u32, spared: u32)
    requires threads { length procs.old ≡ length shared.old.tree.persons }
    requires room { killed_count shared.old c owner ≤ shared.old.history.spare }
    ensures world { (code : List Instruction) → IsSameBut spared (world_of shared.new (map point_of procs.new)) (killed_within (code_machine code) (world_of shared.old (map point_of procs.old)) c owner) }
    ensures same { shared.new ≡ with_killed shared.old shared.new }
    ensures persons { length shared.new.tree.persons ≡ length shared.old.tree.persons }
    ensures spared { numbered procs.new spared ≡ numbered procs.old spared }
    ensures count { length procs.new ≡ length procs.old }
    ensures spare { shared.old.history.spare ≤ shared.new.history.spare + killed_count shared.old c owner }
{
    let count = shared.tree.count();
    let mut at = 0;
    'kills: while at < count {
        kill_if_within(shared, procs, c, owner, at + 1, spared);
        at += 1;
    }
}
