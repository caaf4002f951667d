//! Ticks on calls of process closures: they are sent, taken and answered.

ghost use Rattle.std.specs.Prelude.{◌≡◌, ℕ, Option, ◌<◌, ◌≤◌, ◌+◌, ◌^◌, ◌++◌, ◌∷◌, [], suc, true, false, None, Some, List, IfOk, OnOk, OnErr, length};
ghost use Rattle.ql_world.specs.declared.word.Word.TheVariants.{Proc as process_closure};
ghost use Rattle.ql_world.specs.declared.event.Event.TheVariants.{Take as take};
ghost use Rattle.ql_world.specs.World.{Call, ProcessClosure, numbered, change_numbered, counted, with_event, with_server};
ghost use Rattle.ql_world.specs.Tick.{words_boxed, slots_of, answered};
ghost use Rattle.ql_world.specs.Idle.{in_cleanup};
ghost use Rattle.ql_calls.specs.Sending.{next_call};
ghost use Rattle.ql_code.specs.declared.mark.Mark.TheVariants.{Base as base};
ghost use Rattle.ql_code.specs.Code.{unmasked};
ghost use Rattle.ql_code.specs.declared.code.Op.TheVariants as ops;
ghost use Rattle.ql_code.specs.declared.mark.State.TheVariants.{Resting as resting};
ghost use Rattle.ql_code.specs.Machine.{Point, Entry, point, top_mark, mark, words, cleanups_on, settled, push_slots};
ghost use Rattle.ql_proc.specs.Points.{point_of};
ghost use Rattle.ql_host.specs.Awaited.{awaited};
ghost use Rattle.ql_host.specs.Called.{call_op};
ghost use Rattle.ql_host.specs.Resting.{RestsAt, IsAnswering, answered_world};
ghost use Rattle.ql_host.specs.Sending.{reply_for, value_for, with_reply_future, sent_world, taken_world};
ghost use Rattle.ql_host.specs.World.{world_of, Keeps};
ghost use Rattle.ql_host.specs.Acting.{Takes, StandsAt, IsKept};

use crate::room::{Room, take_room};
use crate::setting::Setting;
use crate::shared::Shared;
use crate::ticks::boxes::{put_boxes, stored_words};
use crate::ticks::frames::refuse;
use crate::ticks::values::stop;
use ql_base::fault::RunFault;
use ql_base::limits::LimitKind;
use ql_future::futures::Futures;
use ql_proc::process::Proc;
use ql_tree::person::Person;
use ql_world::event::{Event, Stop};
use ql_world::short::Short;
use ql_world::word::Word;
use ql_world::world::Kind;
use std::alloc::AllocError;

/// Sends a call of process closure k, which stands under so many arguments, where no cleanup runs. Its value is used or
/// not.
pub fn send(
    s: Setting,
    shared: &mut Shared,
    proc: &mut Proc,
    p: u32,
    person: Person,
    count: u32,
    used: bool,
    k: u32,
    at: u64,
) -> Result<(), AllocError>
    requires here { StandsAt s p person shared.old proc.old (call_op used count) at }
    requires calm { awaited (call_op used count) proc.old.stack.items ≡ None }
    requires function { words (suc count) proc.old.stack.items ≡ process_closure k ∷ words count proc.old.stack.items }
    requires at_work { in_cleanup (cleanups_on proc.old.stack.items) ≡ false }
    ensures takes { OnOk result (Takes s.entry p person shared.old proc.old shared.new proc.new) }
    ensures keeps { OnOk result (Keeps shared.old shared.new) }
    ensures kept { OnErr result (IsKept shared.old proc.old shared.new proc.new) }
{
    let Some(server) = shared.calls.server(k) else {
        // No: a word names only what was made.
        return Ok(());
    };
    if server.body().count != count {
        return refuse(shared, proc, p, RunFault::WrongCount, at);
    }
    if server.is_dead() {
        return refuse(shared, proc, p, RunFault::DeadClosure, at);
    }
    let arguments = proc.words(s.alloc, count)?;
    let reply = future_for(&shared.futures, used)?;
    let room = Room {
        cells: 0,
        futures: 1,
        tree: 0,
        events: 4,
        stack: 0,
    };
    take_room(shared, proc, room)?;
    deliver(shared, p, k, arguments, reply)?;
    proc.replace_call(s.code, count, value_of(reply));
    Ok(())
}

/// The number of the future for a reply, where there is to be one.
fn future_for(futures: &Futures, used: bool) -> Result<Option<u32>, AllocError>
    ensures { IfOk result (λ f. f ≡ reply_for used (length futures.now.states + 1)) }
{
    if !used {
        return Ok(None);
    }
    match futures.count().checked_add(1) {
        Some(f) => Ok(Some(f)),
        None => Err(AllocError),
    }
}

/// The value of a call.
fn value_of(reply: Option<u32>) -> Word
    ensures { result ≡ value_for reply }
{
    match reply {
        Some(f) => Word::Fut(f),
        None => Word::Sym(0),
    }
}

/// Process p sends a call to process closure k.
fn deliver(
    shared: &mut Shared,
    p: u32,
    k: u32,
    arguments: Vec<Word>,
    reply: Option<u32>,
) -> Result<(), AllocError>
    requires events { 4 ≤ shared.old.history.spare }
    requires futures { 0 < shared.old.futures.spare }
    requires small { shared.old.history.ticks < 2 ^ 63 }
    ensures world { OnOk result ((threads : List Point) (s : ProcessClosure Entry) → numbered shared.old.calls.servers k ≡ Some s
        → world_of shared.new threads
        ≡ sent_world p k (record (counted (world_of shared.old threads) p) { futures = with_reply_future reply shared.old.futures.states }) s (next_call s arguments.items reply)) }
    ensures keeps { OnOk result (Keeps shared.old shared.new) }
    ensures kept { OnErr result (shared.new ≡ shared.old) }
{
    let Some(server) = shared.calls.server(k) else {
        return Err(AllocError);
    };
    let at_once = server.takes_at_once();
    let Ok(number) = shared.calls.send(k, arguments, reply) else {
        return Err(AllocError);
    };
    shared.history.tick(p);
    add_reply(&mut shared.futures, reply);
    shared.history.tell(Event::Send { p, k, n: number });
    take_if(shared, k, at_once);
    Ok(())
}

/// Makes the future of a reply, where there is to be one.
fn add_reply(futures: &mut Futures, reply: Option<u32>)
    requires { 0 < futures.old.spare }
    ensures { futures.new.states ≡ with_reply_future reply futures.old.states }
{
    if reply.is_some() {
        futures.add();
    }
}

/// Where that is so, an eager turn takes the call that is in progress now.
fn take_if(shared: &mut Shared, k: u32, at_once: bool)
    requires { 0 < shared.old.history.spare }
    ensures taken { at_once ≡ true → (threads : List Point) (s : ProcessClosure Entry) (c : Call) → numbered shared.old.calls.servers k ≡ Some s → s.current ≡ Some c
        → world_of shared.new threads ≡ taken_world k (world_of shared.old threads) s c }
    ensures still { at_once ≡ false → shared.new ≡ shared.old }
    ensures same { shared.new ≡ record shared.old { futures = shared.new.futures; history = shared.new.history } }
    ensures head { shared.new.history.head ≡ shared.old.history.head }
    ensures ticks { shared.new.history.ticks ≡ shared.old.history.ticks }
    ensures spare { shared.old.history.spare ≤ shared.new.history.spare + 1 }
{
    if at_once {
        take_now(shared, k);
    }
}

/// An eager turn takes the call that is in progress now.
pub fn take_now(shared: &mut Shared, k: u32)
    requires { 0 < shared.old.history.spare }
    ensures taken { (threads : List Point) (s : ProcessClosure Entry) (c : Call) → numbered shared.old.calls.servers k ≡ Some s → s.current ≡ Some c
        → world_of shared.new threads ≡ taken_world k (world_of shared.old threads) s c }
    ensures same { shared.new ≡ record shared.old { futures = shared.new.futures; history = shared.new.history } }
    ensures head { shared.new.history.head ≡ shared.old.history.head }
    ensures ticks { shared.new.history.ticks ≡ shared.old.history.ticks }
    ensures spare { shared.old.history.spare ≤ shared.new.history.spare + 1 }
{
    let Some(server) = shared.calls.server(k) else {
        return;
    };
    let Some(call) = server.current() else {
        return;
    };
    shared.futures.fill(server.turn(), call.arguments());
    shared.history.tell(Event::Take {
        q: server.process(),
        k,
        n: call.number(),
    });
}

/// Takes the call that has waited longest, at rest.
pub fn take(
    s: Setting,
    shared: &mut Shared,
    proc: &mut Proc,
    p: u32,
    person: Person,
) -> Result<(), AllocError>
    requires { RestsAt s person shared.old proc.old }
    ensures takes { OnOk result (Takes s.entry p person shared.old proc.old shared.new proc.new) }
    ensures keeps { OnOk result (Keeps shared.old shared.new) }
    ensures kept { OnErr result (IsKept shared.old proc.old shared.new proc.new) }
{
    let Kind::Closure(k) = person.kind else {
        // No: it serves a process closure.
        return Ok(());
    };
    let Some(server) = shared.calls.server(k) else {
        // No: that was made.
        return Ok(());
    };
    let Some(call) = server.next() else {
        // No: a call waits.
        return Ok(());
    };
    let body = server.body();
    let stored = stored_words(s.alloc, call.arguments(), body.mask)?;
    let boxes = many(&stored);
    let more = call.arguments().len() + body.captured.as_slice().len() + 1;
    let room = Room {
        cells: boxes + 1,
        futures: 0,
        tree: 0,
        events: 3,
        stack: more as u64,
    };
    take_room(shared, proc, room)?;
    if boxes > shared.cells.room() {
        stop(
            shared,
            p,
            Stop::Limit {
                kind: LimitKind::Cells,
            },
        );
        return Ok(());
    }
    let first = put_boxes(&mut shared.cells, &stored);
    take_next(shared, p, k);
    start_call(s, shared, proc, k, first);
    Ok(())
}

/// Process p takes the call that has waited longest for process closure k.
fn take_next(shared: &mut Shared, p: u32, k: u32)
    requires room { 3 ≤ shared.old.history.spare }
    requires small { shared.old.history.ticks < 2 ^ 63 }
    ensures world { (threads : List Point) (s : ProcessClosure Entry) (c : Call) (cs : List Call) → numbered shared.old.calls.servers k ≡ Some s → s.queue ≡ c ∷ cs
        → world_of shared.new threads ≡ with_event (with_server (counted (world_of shared.old threads) p) k (record s { queue = cs; current = Some c })) (take p k c.number) }
    ensures server { (s : ProcessClosure Entry) (c : Call) (cs : List Call) → numbered shared.old.calls.servers k ≡ Some s → s.queue ≡ c ∷ cs
        → numbered shared.new.calls.servers k ≡ Some (record s { queue = cs; current = Some c }) }
    ensures keeps { Keeps shared.old shared.new }
{
    shared.history.tick(p);
    if let Some(n) = shared.calls.take(k) {
        shared.history.tell(Event::Take { q: p, k, n });
    }
}

/// Begins the body of process closure k with the arguments of the call in progress. Parameters that are stored get boxes,
/// numbered from this one.
fn start_call(s: Setting, shared: &Shared, proc: &mut Proc, k: u32, first: u32)
    requires count { (t : ProcessClosure Entry) (c : Call) → numbered shared.now.calls.servers k ≡ Some t → t.current ≡ Some c → length c.arguments ≡ t.body.count }
    requires room { (t : ProcessClosure Entry) (c : Call) → numbered shared.now.calls.servers k ≡ Some t → t.current ≡ Some c → length c.arguments + length t.body.captured < proc.old.stack.room }
    requires boxes { (t : ProcessClosure Entry) (c : Call) → numbered shared.now.calls.servers k ≡ Some t → t.current ≡ Some c
        → first + length (words_boxed (unmasked t.body.count t.body.mask) c.arguments) ≤ 4294967295 }
    ensures point { (t : ProcessClosure Entry) (c : Call) → numbered shared.now.calls.servers k ≡ Some t → t.current ≡ Some c
        → point_of proc.new ≡ settled s.entry.code.now.instructions t.body.place (push_slots (slots_of (unmasked t.body.count t.body.mask) c.arguments first ++ t.body.captured) (mark (base None) ∷ [])) }
{
    let Some(server) = shared.calls.server(k) else {
        return;
    };
    let Some(call) = server.current() else {
        return;
    };
    proc.start(s.code, server.body(), call.arguments(), first);
}

/// How many words these are.
fn many(words: &[Word]) -> u64
    ensures { result ≡ length words.now }
{
    words.len() as u64
}

/// Answers the call in progress with the topmost word, which is no future, and comes to rest. The closure isn't eager.
pub fn reply_plain(
    s: Setting,
    shared: &mut Shared,
    proc: &mut Proc,
    p: u32,
    person: Person,
    at: u64,
) -> Result<(), AllocError>
    requires stands { StandsAt s p person shared.old proc.old ops.Return at }
    requires calm { awaited ops.Return proc.old.stack.items ≡ None }
    requires bottom { (j : Option ℕ) × (top_mark proc.old.stack.items ≡ Some (base j)) }
    requires answers { (a : IsAnswering shared.old person) × (a.server.eager ≡ false) }
    ensures takes { OnOk result (Takes s.entry p person shared.old proc.old shared.new proc.new) }
    ensures keeps { OnOk result (Keeps shared.old shared.new) }
    ensures kept { OnErr result (IsKept shared.old proc.old shared.new proc.new) }
{
    let Kind::Closure(k) = person.kind else {
        // No: it serves a process closure.
        return Ok(());
    };
    let Some(server) = shared.calls.server(k) else {
        // No: that was made.
        return Ok(());
    };
    let Some(call) = server.current() else {
        // No: a call is in progress.
        return Ok(());
    };
    let Some(w) = proc.top_word() else {
        // No: the operand of an instruction is there.
        return Ok(());
    };
    let number = call.number();
    let reply = call.reply();
    let text = shared.cells.short_text(s.names, w)?;
    let room = Room {
        cells: 0,
        futures: 0,
        tree: 0,
        events: 3,
        stack: 1,
    };
    take_room(shared, proc, room)?;
    rest(shared, proc, k);
    answer(shared, p, k, number, reply, w, text);
    Ok(())
}

/// Process p answers a call of process closure k with a word. The call has this number, its reply this future, and the
/// word this text.
pub fn answer(
    shared: &mut Shared,
    p: u32,
    k: u32,
    number: u64,
    reply: Option<u32>,
    w: Word,
    text: Short,
)
    requires room { 3 ≤ shared.old.history.spare }
    requires small { shared.old.history.ticks < 2 ^ 63 }
    ensures world { (threads : List Point) → world_of shared.new threads ≡ answered_world p k number reply w text (counted (world_of shared.old threads) p) }
    ensures keeps { Keeps shared.old shared.new }
    ensures same { shared.new ≡ record shared.old { futures = record shared.old.futures { states = shared.new.futures.states }; calls = record shared.old.calls { servers = change_numbered (λ s. record s { current = None }) shared.old.calls.servers k }; history = shared.new.history } }
    ensures spare { shared.old.history.spare ≤ shared.new.history.spare + 2 }
{
    shared.history.tick(p);
    resolve_reply(&mut shared.futures, reply, w);
    shared.calls.reply(k);
    shared.history.tell(Event::Reply {
        q: p,
        k,
        n: number,
        text: Some(text),
    });
}

/// Gives the future of a reply its value, where there is one.
fn resolve_reply(futures: &mut Futures, reply: Option<u32>, w: Word)
    ensures { futures.new ≡ record futures.old { states = answered reply w futures.old.states } }
{
    if let Some(f) = reply {
        futures.resolve(f, w);
    }
}

/// Waits for a call of process closure k, in place of all that was.
fn rest(shared: &Shared, proc: &mut Proc, k: u32)
    requires { 0 < proc.old.stack.room }
    ensures { (t : ProcessClosure Entry) → numbered shared.now.calls.servers k ≡ Some t → point_of proc.new ≡ point t.body.place (mark (base None) ∷ []) resting }
{
    if let Some(server) = shared.calls.server(k) {
        proc.reset(server.body());
    }
}
