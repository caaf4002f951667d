//! Ticks that make processes and process closures, and the end of a child.

ghost use Rattle.std.specs.Prelude.{◌≡◌, ◌<◌, ◌≤◌, ◌+◌, ◌^◌, ◌++◌, ◌∷◌, [], ◌||◌, suc, true, false, if◌then◌else◌, map, length, IfOk, OnOk, OnErr, None, Some, List, slice_get, drop as without_first};
ghost use Rattle.ql_world.specs.Word.{is_nil, is_eager};
ghost use Rattle.ql_world.specs.declared.word.Word.{Word};
ghost use Rattle.ql_world.specs.declared.world.FutState.TheVariants.{Value as valued};
ghost use Rattle.ql_world.specs.declared.event.Event.TheVariants.{EndOk as end_ok};
ghost use Rattle.ql_world.specs.World.{counted, with_event, with_future, with_end};
ghost use Rattle.ql_world.specs.Tick.{or_home, with_child, with_children};
ghost use Rattle.ql_world.specs.Idle.{in_cleanup};
ghost use Rattle.ql_code.specs.declared.code.Op.TheVariants as ops;
ghost use Rattle.ql_code.specs.Machine.{Point, words, frame_of, children_from, cleanups_on, innermost_on};
ghost use Rattle.ql_proc.specs.Points.{point_of};
ghost use Rattle.ql_proc.specs.Slots.{HasWords};
ghost use Rattle.ql_proc.specs.declared.process.Proc.{Proc};
ghost use Rattle.ql_host.specs.Awaited.{awaited};
ghost use Rattle.ql_host.specs.World.{world_of, Keeps};
ghost use Rattle.ql_host.specs.Acting.{Takes, TakesAll, StandsAt, IsKept};
ghost use Rattle.ql_host.specs.Making.{Makes, StandsAmong, AreKept, Grows, join_before};

use crate::room::{Room, take_room};
use crate::setting::Setting;
use crate::shared::Shared;
use crate::ticks::making::take_in;
use crate::ticks::values::stop;
use ql_base::limits::LimitKind;
use ql_future::futures::Futures;
use ql_proc::process::Proc;
use ql_proc::stack::Stack;
use ql_tree::person::Person;
use ql_world::event::{Event, Mode, Stop};
use ql_world::short::Short;
use ql_world::word::Word;
use ql_world::world::Kind;
use std::alloc::AllocError;

/// Ends a child, whose value is no future.
pub fn child_ends(
    s: Setting,
    shared: &mut Shared,
    proc: &mut Proc,
    p: u32,
    person: Person,
    at: u64,
) -> Result<(), AllocError>
    requires stands { StandsAt s p person shared.old proc.old ops.Join at }
    requires calm { awaited ops.Join proc.old.stack.items ≡ None }
    ensures takes { OnOk result (Takes s.entry p person shared.old proc.old shared.new proc.new) }
    ensures keeps { OnOk result (Keeps shared.old shared.new) }
    ensures kept { OnErr result (IsKept shared.old proc.old shared.new proc.new) }
{
    let room = Room {
        cells: 0,
        futures: 0,
        tree: 0,
        events: 3,
        stack: 0,
    };
    take_room(shared, proc, room)?;
    let Kind::Child(f) = person.kind else {
        // No: a child is at its join.
        return Ok(());
    };
    let Some(w) = proc.top_word() else {
        // No: the operand of an instruction is there.
        return Ok(());
    };
    let text = shared.cells.short_text(s.names, w)?;
    end_child(shared, p, f, w, text);
    proc.end();
    Ok(())
}

/// Process p ends as a child with a word, which future f gets. This is the word's text.
#[tactic(auto, using(crate::proofs::Counts::no_fewer))]
fn end_child(shared: &mut Shared, p: u32, f: u32, w: Word, text: Short)
    requires room { 3 ≤ shared.old.history.spare }
    requires small { shared.old.history.ticks < 2 ^ 63 }
    ensures world { (threads : List Point) → world_of shared.new threads
        ≡ with_end (with_event (with_future (counted (world_of shared.old threads) p) f (valued w)) (end_ok p (Some text))) p }
    ensures keeps { Keeps shared.old shared.new }
{
    shared.history.tick(p);
    shared.futures.resolve(f, w);
    shared.history.tell(Event::EndOk {
        p,
        text: Some(text),
    });
    shared.tree.set_ended(p);
}

/// Gets the values of a `qlet`, which are got in order where the proposition is nil or a cleanup runs, and else by
/// children.
pub fn qlet(
    s: Setting,
    shared: &mut Shared,
    procs: &mut Vec<Proc>,
    i: usize,
    p: u32,
    person: Person,
    starts: &[u32],
    touched: u32,
    bound: u32,
    at: u64,
) -> Result<(), AllocError>
    requires number { p ≡ suc i }
    requires there { i < length procs.old.items }
    requires stands { StandsAmong s p person shared.old procs.old.items (ops.Qlet starts.now touched bound) at }
    requires calm { (t : Proc) → slice_get procs.old.items i ≡ Some t → awaited (ops.Qlet starts.now touched bound) t.stack.items ≡ None }
    ensures takes { OnOk result (TakesAll s.entry p person shared.old procs.old.items shared.new procs.new.items) }
    ensures long { OnOk result (length procs.old.items ≡ length shared.old.tree.persons → length procs.new.items ≡ length shared.new.tree.persons) }
    ensures keeps { OnOk result (Keeps shared.old shared.new) }
    ensures kept { OnErr result (AreKept shared.old procs.old.items shared.new procs.new.items) }
{
    procs.reserve(starts.len())?;
    let made = qlet_of(
        s,
        shared,
        &mut procs[i],
        p,
        person,
        starts,
        touched,
        bound,
        at,
    )?;
    take_in(procs, made);
    Ok(())
}

/// The same of one process. What is given is the children.
fn qlet_of(
    s: Setting,
    shared: &mut Shared,
    proc: &mut Proc,
    p: u32,
    person: Person,
    starts: &[u32],
    touched: u32,
    bound: u32,
    at: u64,
) -> Result<Vec<Proc>, AllocError>
    requires stands { StandsAt s p person shared.old proc.old (ops.Qlet starts.now touched bound) at }
    requires calm { awaited (ops.Qlet starts.now touched bound) proc.old.stack.items ≡ None }
    ensures makes { IfOk result (λ made. Makes s.entry p person shared.old proc.old shared.new proc.new made.items) }
    ensures long { IfOk result (λ made. length shared.new.tree.persons ≡ length shared.old.tree.persons + length made.items) }
    ensures few { IfOk result (λ made. length made.items ≤ length starts.now) }
    ensures keeps { OnOk result (Keeps shared.old shared.new) }
    ensures kept { OnErr result (IsKept shared.old proc.old shared.new proc.new) }
{
    let Some(x) = proc.top_word() else {
        // No: the operand of an instruction is there.
        return Ok(Vec::new(s.alloc));
    };
    if x.is_nil() || proc.is_in_cleanup() {
        in_line(s, shared, proc, p, person, x, starts, touched, bound, at)?;
        return Ok(Vec::new(s.alloc));
    }
    if shared.tree.count() as u64 + starts.len() as u64 > s.limits.procs {
        too_many(s, shared, proc, p, person, x, starts, touched, bound, at)?;
        return Ok(Vec::new(s.alloc));
    }
    by_children(s, shared, proc, p, person, x, starts, touched, bound, at)
}

/// The values are got in order.
fn in_line(
    s: Setting,
    shared: &mut Shared,
    proc: &mut Proc,
    p: u32,
    person: Person,
    x: Word,
    starts: &[u32],
    touched: u32,
    bound: u32,
    at: u64,
) -> Result<(), AllocError>
    requires stands { StandsAt s p person shared.old proc.old (ops.Qlet starts.now touched bound) at }
    requires calm { awaited (ops.Qlet starts.now touched bound) proc.old.stack.items ≡ None }
    requires top { words 1 proc.old.stack.items ≡ x ∷ [] }
    requires in_line { (is_nil x || in_cleanup (cleanups_on proc.old.stack.items)) ≡ true }
    ensures makes { OnOk result (Makes s.entry p person shared.old proc.old shared.new proc.new []) }
    ensures tree { OnOk result (length shared.new.tree.persons ≡ length shared.old.tree.persons) }
    ensures keeps { OnOk result (Keeps shared.old shared.new) }
    ensures kept { OnErr result (IsKept shared.old proc.old shared.new proc.new) }
{
    let room = Room {
        cells: 0,
        futures: 0,
        tree: 0,
        events: 2,
        stack: 0,
    };
    take_room(shared, proc, room)?;
    shared.history.tick(p);
    proc.stack.drop_top();
    proc.pass_on(s.code);
    Ok(())
}

/// There would be too many processes.
fn too_many(
    s: Setting,
    shared: &mut Shared,
    proc: &mut Proc,
    p: u32,
    person: Person,
    x: Word,
    starts: &[u32],
    touched: u32,
    bound: u32,
    at: u64,
) -> Result<(), AllocError>
    requires stands { StandsAt s p person shared.old proc.old (ops.Qlet starts.now touched bound) at }
    requires calm { awaited (ops.Qlet starts.now touched bound) proc.old.stack.items ≡ None }
    requires top { words 1 proc.old.stack.items ≡ x ∷ [] }
    requires spawns { (is_nil x || in_cleanup (cleanups_on proc.old.stack.items)) ≡ false }
    requires many { shared.old.tree.limit < length shared.old.tree.persons + length starts.now }
    ensures makes { OnOk result (Makes s.entry p person shared.old proc.old shared.new proc.new []) }
    ensures tree { OnOk result (length shared.new.tree.persons ≡ length shared.old.tree.persons) }
    ensures keeps { OnOk result (Keeps shared.old shared.new) }
    ensures kept { OnErr result (IsKept shared.old proc.old shared.new proc.new) }
{
    let room = Room {
        cells: 0,
        futures: 0,
        tree: 0,
        events: 2,
        stack: 0,
    };
    take_room(shared, proc, room)?;
    stop(
        shared,
        p,
        Stop::Limit {
            kind: LimitKind::Procs,
        },
    );
    Ok(())
}

/// Each value is got by a child.
fn by_children(
    s: Setting,
    shared: &mut Shared,
    proc: &mut Proc,
    p: u32,
    person: Person,
    x: Word,
    starts: &[u32],
    touched: u32,
    bound: u32,
    at: u64,
) -> Result<Vec<Proc>, AllocError>
    requires stands { StandsAt s p person shared.old proc.old (ops.Qlet starts.now touched bound) at }
    requires calm { awaited (ops.Qlet starts.now touched bound) proc.old.stack.items ≡ None }
    requires top { words 1 proc.old.stack.items ≡ x ∷ [] }
    requires spawns { (is_nil x || in_cleanup (cleanups_on proc.old.stack.items)) ≡ false }
    requires few { length shared.old.tree.persons + length starts.now ≤ shared.old.tree.limit }
    ensures makes { IfOk result (λ made. Makes s.entry p person shared.old proc.old shared.new proc.new made.items) }
    ensures long { IfOk result (λ made. length shared.new.tree.persons ≡ length shared.old.tree.persons + length made.items) }
    ensures few { IfOk result (λ made. length made.items ≤ length starts.now) }
    ensures keeps { OnOk result (Keeps shared.old shared.new) }
    ensures kept { OnErr result (IsKept shared.old proc.old shared.new proc.new) }
{
    let made = children(s, &proc.stack, starts, touched)?;
    let first = next_future(&shared.futures)?;
    let count = numbered_after(first, &made)?;
    let room = Room {
        cells: 0,
        futures: count as u64,
        tree: count as u64,
        events: count as u64 + 2,
        stack: count as u64,
    };
    take_room(shared, proc, room)?;
    let home = around(proc, person);
    shared.history.tick(p);
    add_children(shared, p, home, &made);
    let place = place_after(x, touched, bound);
    proc.push_futures(s.code, place, first, count);
    Ok(made)
}

/// Where a `qlet` with children goes on.
fn place_after(x: Word, touched: u32, bound: u32) -> u32
    ensures { result ≡ if is_eager x then bound else touched }
{
    if is_eager(x) { bound } else { touched }
}

/// Whether a word is that of an eager start.
pub fn is_eager(x: Word) -> bool
    ensures { result ≡ is_eager x }
{
    match x {
        Word::Sym(n) => n == 3,
        _ => false,
    }
}

/// The innermost catch round a process.
pub fn around(proc: &Proc, person: Person) -> u32
    ensures { result ≡ or_home (innermost_on proc.now.stack.items) person.home }
{
    match proc.innermost() {
        Some(c) => c,
        None => person.home,
    }
}

/// The number of the next future.
pub fn next_future(futures: &Futures) -> Result<u32, AllocError>
    ensures { IfOk result (λ f. f ≡ length futures.now.states + 1) }
{
    match futures.count().checked_add(1) {
        Some(f) => Ok(f),
        None => Err(AllocError),
    }
}

/// How many these are, where so many numbers from the first on have 32 bits.
fn numbered_after(first: u32, made: &[Proc]) -> Result<u32, AllocError>
    ensures count { IfOk result (λ n. n ≡ length made.now) }
    ensures numbers { IfOk result (λ n. first + n ≤ 4294967295) }
{
    let left = u32::MAX - first;
    if made.len() > left as usize {
        return Err(AllocError);
    }
    Ok(made.len() as u32)
}

/// The children of a `qlet`, before their first ticks. The first value of each begins at its start.
fn children(
    s: Setting,
    parent: &Stack,
    starts: &[u32],
    touched: u32,
) -> Result<Vec<Proc>, AllocError>
    requires { HasWords 1 parent.now.items }
    ensures made { IfOk result (λ made. map point_of made.items ≡ children_from s.entry.code.now.instructions 0 starts.now touched (frame_of (without_first 1 parent.now.items))) }
    ensures count { IfOk result (λ made. length made.items ≡ length starts.now) }
{
    if starts.len() > u32::MAX as usize {
        return Err(AllocError);
    }
    let count = starts.len() as u32;
    let mut made = Vec::new(s.alloc);
    'starts: for n in 0..count {
        let child = child_at(s, parent, starts, n, touched)?;
        made.push(child)?;
    }
    Ok(made)
}

/// One of them.
fn child_at(
    s: Setting,
    parent: &Stack,
    starts: &[u32],
    n: u32,
    touched: u32,
) -> Result<Proc, AllocError>
    requires words { HasWords 1 parent.now.items }
    requires within { n < length starts.now }
    ensures { IfOk result (λ child. children_from s.entry.code.now.instructions n (without_first n starts.now) touched (frame_of (without_first 1 parent.now.items))
        ≡ point_of child ∷ children_from s.entry.code.now.instructions (n + 1) (without_first (n + 1) starts.now) touched (frame_of (without_first 1 parent.now.items))) }
{
    let join = join_after(starts, n as usize + 1, touched);
    let child = Proc::child(s.alloc, s.code, parent, n, join, starts[n as usize])?;
    Ok(child)
}

/// The place of the `join` of a child, where the next one's start is there or not.
fn join_after(starts: &[u32], next: usize, touched: u32) -> u32
    ensures { result ≡ join_before (slice_get starts.now next) touched }
{
    match starts.get(next) {
        Some(start) => start.saturating_sub(1),
        None => touched.saturating_sub(2),
    }
}

/// Makes a child of process p, whose thread is kept elsewhere.
fn add_child(shared: &mut Shared, p: u32, home: u32)
    requires futures { 0 < shared.old.futures.spare }
    requires tree { 0 < shared.old.tree.spare }
    requires events { 0 < shared.old.history.spare }
    requires allowed { length shared.old.tree.persons < shared.old.tree.limit }
    ensures same { shared.new ≡ record shared.old { futures = shared.new.futures; tree = shared.new.tree; history = shared.new.history } }
    ensures world { (threads : List Point) (t : Point) → length threads ≡ length shared.old.tree.persons
        → world_of shared.new (threads ++ t ∷ []) ≡ with_child (world_of shared.old threads) p home t }
    ensures persons { length shared.new.tree.persons ≡ length shared.old.tree.persons + 1 }
    ensures grows { Grows shared.old shared.new }
    ensures futures { shared.old.futures.spare ≤ shared.new.futures.spare + 1 }
    ensures tree { shared.old.tree.spare ≤ shared.new.tree.spare + 1 }
    ensures events { shared.old.history.spare ≤ shared.new.history.spare + 1 }
{
    let f = shared.futures.add();
    let q = shared.tree.add(home, Kind::Child(f));
    shared.history.tell(Event::Spawn {
        p,
        q,
        c: home,
        mode: Mode::Let,
    });
}

/// Makes these children of process p. Their threads are kept elsewhere.
fn add_children(shared: &mut Shared, p: u32, home: u32, made: &[Proc])
    requires futures { length made.now ≤ shared.old.futures.spare }
    requires tree { length made.now ≤ shared.old.tree.spare }
    requires events { length made.now < shared.old.history.spare }
    requires allowed { length shared.old.tree.persons + length made.now ≤ shared.old.tree.limit }
    ensures world { (threads : List Point) → length threads ≡ length shared.old.tree.persons
        → world_of shared.new (threads ++ map point_of made.now) ≡ with_children (world_of shared.old threads) p home (map point_of made.now) }
    ensures persons { length shared.new.tree.persons ≡ length shared.old.tree.persons + length made.now }
    ensures grows { Grows shared.old shared.new }
    ensures events { 1 ≤ shared.new.history.spare }
{
    'children: for n in 0..made.len() {
        add_child(shared, p, home);
    }
}
