//! The tick in which a process closure's call is answered.

ghost use Rattle.std.specs.Prelude.{◌≡◌, ℕ, Option, ◌<◌, ◌≤◌, ◌+◌, ◌++◌, ◌∷◌, [], true, None, Some, List, OnOk, OnErr, length};
ghost use Rattle.ql_world.specs.World.{ProcessClosure, numbered};
ghost use Rattle.ql_world.specs.Tick.{words_boxed, slots_of, with_next_call};
ghost use Rattle.ql_code.specs.Code.{unmasked};
ghost use Rattle.ql_code.specs.declared.mark.Mark.TheVariants.{Base as base};
ghost use Rattle.ql_code.specs.declared.code.Op.TheVariants as ops;
ghost use Rattle.ql_code.specs.Machine.{Point, Entry, mark, top_mark, settled, push_slots};
ghost use Rattle.ql_proc.specs.Points.{point_of};
ghost use Rattle.ql_host.specs.Awaited.{awaited};
ghost use Rattle.ql_host.specs.Resting.{IsAnswering};
ghost use Rattle.ql_host.specs.Turns.{turned_world};
ghost use Rattle.ql_host.specs.World.{world_of, Keeps};
ghost use Rattle.ql_host.specs.Acting.{Takes, StandsAt, IsKept};

use crate::room::{Room, take_room};
use crate::setting::Setting;
use crate::shared::Shared;
use crate::ticks::calls::{answer, reply_plain, take_now};
use crate::ticks::values::stop;
use crate::turns::{Turn, next_turn, put_turn};
use ql_base::limits::LimitKind;
use ql_proc::process::Proc;
use ql_tree::person::Person;
use ql_world::event::Stop;
use ql_world::world::{Closure, Kind};
use std::alloc::AllocError;

/// Answers the call in progress with the topmost word, which is no future. An eager closure begins its next turn, and any
/// other comes to rest.
pub fn reply(
    s: Setting,
    shared: &mut Shared,
    proc: &mut Proc,
    p: u32,
    person: Person,
    at: u64,
) -> Result<(), AllocError>
    requires here { StandsAt s p person shared.old proc.old ops.Return at }
    requires calm { awaited ops.Return proc.old.stack.items ≡ None }
    requires bottom { (j : Option ℕ) × (top_mark proc.old.stack.items ≡ Some (base j)) }
    requires answers { IsAnswering shared.old person }
    ensures takes { OnOk result (Takes s.entry p person shared.old proc.old shared.new proc.new) }
    ensures keeps { OnOk result (Keeps shared.old shared.new) }
    ensures kept { OnErr result (IsKept shared.old proc.old shared.new proc.new) }
{
    let Kind::Closure(k) = person.kind else {
        // No: it serves a process closure.
        return Ok(());
    };
    let Some(server) = shared.calls.server(k) else {
        // No: that was made.
        return Ok(());
    };
    if server.is_eager() {
        return reply_eager(s, shared, proc, p, person, at);
    }
    reply_plain(s, shared, proc, p, person, at)
}

/// The same of an eager closure.
fn reply_eager(
    s: Setting,
    shared: &mut Shared,
    proc: &mut Proc,
    p: u32,
    person: Person,
    at: u64,
) -> Result<(), AllocError>
    requires stands { StandsAt s p person shared.old proc.old ops.Return at }
    requires calm { awaited ops.Return proc.old.stack.items ≡ None }
    requires bottom { (j : Option ℕ) × (top_mark proc.old.stack.items ≡ Some (base j)) }
    requires answers { (a : IsAnswering shared.old person) × (a.server.eager ≡ true) }
    ensures takes { OnOk result (Takes s.entry p person shared.old proc.old shared.new proc.new) }
    ensures keeps { OnOk result (Keeps shared.old shared.new) }
    ensures kept { OnErr result (IsKept shared.old proc.old shared.new proc.new) }
{
    let Kind::Closure(k) = person.kind else {
        // No: it serves a process closure.
        return Ok(());
    };
    let Some(server) = shared.calls.server(k) else {
        // No: that was made.
        return Ok(());
    };
    let Some(call) = server.current() else {
        // No: a call is in progress.
        return Ok(());
    };
    let Some(w) = proc.top_word() else {
        // No: the operand of an instruction is there.
        return Ok(());
    };
    let number = call.number();
    let reply = call.reply();
    let body = server.body();
    let text = shared.cells.short_text(s.names, w)?;
    let turn = next_turn(s.alloc, &shared.futures, body.count, body.mask)?;
    let stored = turn.stored.len() as u64;
    let room = turn_room(&turn, body);
    take_room(shared, proc, room)?;
    if stored > shared.cells.room() {
        let kind = LimitKind::Cells;
        stop(shared, p, Stop::Limit { kind });
        return Ok(());
    }
    let first = shared.cells.box_count();
    start_turn(s, shared, proc, k, &turn, first);
    answer(shared, p, k, number, reply, w, text);
    begin_turn(shared, k, turn);
    Ok(())
}

/// Room for a turn of a closure with this body, and for the events of a reply and of the call that is taken.
fn turn_room(turn: &Turn, body: &Closure) -> Room
    ensures cells { result.cells ≡ length turn.now.stored.items + 1 }
    ensures futures { result.futures ≡ length turn.now.futures.items }
    ensures events { result.events ≡ 4 }
    ensures stack { result.stack ≡ length turn.now.words.items + length body.now.captured + 1 }
{
    let more = turn.words.len() + body.captured.as_slice().len() + 1;
    Room {
        cells: turn.stored.len() as u64 + 1,
        futures: turn.futures.len() as u64,
        tree: 0,
        events: 4,
        stack: more as u64,
    }
}

/// Begins the body of process closure k at a turn. Parameters that are stored get boxes, numbered from this one.
fn start_turn(s: Setting, shared: &Shared, proc: &mut Proc, k: u32, turn: &Turn, first: u32)
    requires count { (t : ProcessClosure Entry) → numbered shared.now.calls.servers k ≡ Some t → length turn.now.words.items ≡ t.body.count }
    requires room { (t : ProcessClosure Entry) → numbered shared.now.calls.servers k ≡ Some t → length turn.now.words.items + length t.body.captured < proc.old.stack.room }
    requires boxes { (t : ProcessClosure Entry) → numbered shared.now.calls.servers k ≡ Some t
        → first + length (words_boxed (unmasked t.body.count t.body.mask) turn.now.words.items) ≤ 4294967295 }
    ensures point { (t : ProcessClosure Entry) → numbered shared.now.calls.servers k ≡ Some t
        → point_of proc.new ≡ settled s.entry.code.now.instructions t.body.place (push_slots (slots_of (unmasked t.body.count t.body.mask) turn.now.words.items first ++ t.body.captured) (mark (base None) ∷ [])) }
{
    if let Some(server) = shared.calls.server(k) {
        proc.start(s.code, server.body(), &turn.words, first);
    }
}

/// Process closure k, of which no call is in progress, begins a turn, which takes a call that waits.
fn begin_turn(shared: &mut Shared, k: u32, turn: Turn)
    requires events { 0 < shared.old.history.spare }
    requires futures { length turn.futures.items ≤ shared.old.futures.spare }
    requires some_room { 0 < shared.old.cells.spare }
    requires room { length turn.stored.items ≤ shared.old.cells.spare }
    requires allowed { shared.old.cells.made + length turn.stored.items ≤ shared.old.cells.limit }
    ensures world { (threads : List Point) (s : ProcessClosure Entry) → numbered shared.old.calls.servers k ≡ Some s
        → world_of shared.new threads ≡ turned_world k s turn.futures.items turn.stored.items (world_of shared.old threads) }
    ensures limit { shared.new.cells.limit ≡ shared.old.cells.limit }
    ensures same { shared.new ≡ record shared.old { cells = shared.new.cells; futures = shared.new.futures; calls = shared.new.calls; history = shared.new.history } }
    ensures head { shared.new.history.head ≡ shared.old.history.head }
    ensures ticks { shared.new.history.ticks ≡ shared.old.history.ticks }
    ensures spare { shared.old.history.spare ≤ shared.new.history.spare + 1 }
{
    put_turn(shared, &turn);
    shared.calls.renew(k, turn.futures);
    serve(shared, k);
}

/// The turn of process closure k takes the call that has waited longest, if one waits.
fn serve(shared: &mut Shared, k: u32)
    requires { 0 < shared.old.history.spare }
    ensures world { (threads : List Point) (s : ProcessClosure Entry) → numbered shared.old.calls.servers k ≡ Some s
        → world_of shared.new threads ≡ with_next_call (world_of shared.old threads) k s s.queue }
    ensures same { shared.new ≡ record shared.old { futures = shared.new.futures; calls = shared.new.calls; history = shared.new.history } }
    ensures head { shared.new.history.head ≡ shared.old.history.head }
    ensures ticks { shared.new.history.ticks ≡ shared.old.history.ticks }
    ensures spare { shared.old.history.spare ≤ shared.new.history.spare + 1 }
{
    if shared.calls.take(k).is_some() {
        take_now(shared, k);
    }
}
