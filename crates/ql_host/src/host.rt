//! A run of code, as far as it has come.

ghost use Rattle.std.specs.Prelude.{◌≡◌, ◌<◌, ◌≤◌, ◌+◌, ◌++◌, [], ◌∷◌, false, IfOk, IfSome, OnOk, OnErr, true, Some, None, MatchOption, reverse, length};
ghost use Rattle.std.specs.Arc.{arc_value};
ghost use Rattle.ql_world.specs.Run as runs;
ghost use Rattle.ql_code.specs.Machine.{code_world};
ghost use Rattle.ql_world.specs.World.{without_values};
ghost use Rattle.ql_world.specs.declared.event.Event.TheVariants.{Stopped};
ghost use Rattle.ql_host.specs.Hosted.{IsOpening};
ghost use Rattle.ql_code.specs.LocalPath.{LocalPath};
ghost use Rattle.ql_proc.specs.Windows.{window_in};
ghost use Rattle.ql_world.specs.Run.{is_in};
ghost use Rattle.ql_host.specs.Host.{IsInRange, AreNames, IsRun, IsJob, IsCheckedOut, Comes, without, can_step, next_is_local, stop, story, ready_home, ticked, IsTold};

use crate::history::History;
use crate::output::Output;
use crate::setting::Setting;
use crate::shared::Shared;
use crate::step::act;
use crate::told::Told;
use crate::work::Commit;
use crate::{pick, ready, work};
use ql_base::limits::Limits;
use ql_base::names::Names;
use ql_calls::calls::Calls;
use ql_cells::cells::Cells;
use ql_code::code::Code;
use ql_code::laws::{commits_are_ticks, runs_are_sound, worlds_are_sound};
use ql_future::futures::Futures;
use ql_journal::journal::Journal;
use ql_proc::process::Proc;
use ql_proc::window::{Done, Job};
use ql_tree::tree::Tree;
use ql_world::event::{Event, Head, Stop};
use ql_world::word::Word;
use std::alloc::{AllocError, Global};
use std::marker::Model;
use std::sync::Arc;

/// A run of code. Its type keeps that its state is that after the schedule which its events spell.
#[derive(Drop)]
pub struct Host {
    code: Arc<Code>,
    names: Names,
    limits: Limits,
    shared: Shared,
    procs: Vec<Proc>,
    /// The process that was picked last; 0 where none was.
    last: u32,
    /// The processes that are away: work was given out for them, and not brought back.
    away: Vec<u32>,
    alloc: Global,
}

impl Model for Host {
    ghost use Rattle.ql_host.specs.Host.{Host};
    ghost use Rattle.ql_host.specs.Acts.{world_in};
    ghost use Rattle.ql_host.specs.Hosted.{IsHosted};
    ghost use Rattle.std.specs.Arc.{arc_value};

    ghost Value = { Host };

    ghost view = { λ h. record { code = arc_value h.code; names = h.names; limits = h.limits; world = world_in h.shared h.procs.items; last = h.last; away = h.away.items } };

    ghost invariant = { λ h. IsHosted (arc_value h.code) h.names h.limits h.shared h.procs.items };
}

impl Host {
    /// The run before its first tick.
    pub fn begin(
        alloc: Global,
        code: Arc<Code>,
        names: Names,
        limits: Limits,
    ) -> Result<Host, AllocError>
        requires limits { IsInRange limits }
        requires names { AreNames names }
        ensures code { IfOk result (λ h. h.code ≡ arc_value code) }
        ensures names { IfOk result (λ h. h.names ≡ names) }
        ensures limits { IfOk result (λ h. h.limits ≡ limits) }
        ensures world { IfOk result (λ h. h.world ≡ code_world (arc_value code)) }
        ensures last { IfOk result (λ h. h.last ≡ 0) }
        ensures home { IfOk result (λ h. h.away ≡ []) }
    {
        let shared = opening(alloc, &code, limits)?;
        let mut procs = Vec::new(alloc);
        procs.push(Proc::first(alloc, &code)?)?;
        Ok(Host {
            code,
            names,
            limits,
            shared,
            procs,
            last: 0,
            away: Vec::new(alloc),
            alloc,
        })
    }

    /// Whether a process can step.
    pub fn can_step(&self, p: u32) -> bool
        ensures { result ≡ can_step self.now p }
    {
        ready::can_step(self.setting(), &self.shared, &self.procs, p)
    }

    /// Whether the next tick of a process touches its window alone.
    pub fn next_is_local(&self, p: u32) -> bool
        ensures { result ≡ next_is_local self.now p }
    {
        work::next_is_local(self.setting(), &self.shared, &self.procs, p)
    }

    /// How many ticks are left in the budget.
    pub fn left(&self) -> u64
        ensures left { self.now.world.ticks + result ≡ self.now.limits.budget }
    {
        self.limits.budget - self.shared.history.ticks()
    }

    /// Picks a process at home that can step by the policy of the limits. None comes exactly where there is none.
    pub fn pick(&mut self) -> Option<u32>
        ensures picked { result ≡ runs.pick self.old.limits.policy self.old.last (ready_home self.old) }
        ensures last { MatchOption result (self.new ≡ self.old) (λ p. self.new ≡ record self.old { last = p }) }
        ensures can { IfSome result (λ p. can_step self.old p ≡ true) }
        ensures home { IfSome result (λ p. is_in p self.old.away ≡ false) }
    {
        let picked = self.next_picked();
        if let Some(p) = picked {
            self.last = p;
        }
        picked
    }

    /// The process that is picked next.
    fn next_picked(&self) -> Option<u32>
        ensures picked { result ≡ runs.pick self.now.limits.policy self.now.last (ready_home self.now) }
        ensures can { IfSome result (λ p. can_step self.now p ≡ true) }
        ensures home { IfSome result (λ p. is_in p self.now.away ≡ false) }
    {
        pick::pick(
            self.setting(),
            &self.shared,
            &self.procs,
            &self.away,
            self.last,
        )
    }

    /// Picks a process, and gives work out for it: up to a quantum of ticks, as far as the budget goes. It is away then.
    /// None comes exactly where `pick` gives none. After want of memory the run is as before.
    pub fn checkout(&mut self) -> Result<Option<Job>, AllocError>
        ensures job { IfOk result (λ o. IsCheckedOut o (runs.pick self.old.limits.policy self.old.last (ready_home self.old)) self.old self.new) }
        ensures same { OnErr result (self.new ≡ self.old) }
    {
        let Some(p) = self.next_picked() else {
            return Ok(None);
        };
        let most = self.limits.quantum.min(self.left());
        let job = self.send_out(p, most)?;
        self.last = p;
        Ok(Some(job))
    }

    /// Gives work out for a process that can step: so many ticks. It is away then. After want of memory the run is as before.
    pub fn resume(&mut self, p: u32, most: u64) -> Result<Job, AllocError>
        requires goes_on { stop self.old ≡ None }
        requires home { is_in p self.old.away ≡ false }
        requires can { can_step self.old p ≡ true }
        requires some { 1 ≤ most }
        requires few { self.old.world.ticks + most ≤ self.old.limits.budget }
        ensures job { IfOk result (λ j. IsJob self.old p most j) }
        ensures away { OnOk result (self.new ≡ record self.old { away = self.old.away ++ p ∷ [] }) }
        ensures same { OnErr result (self.new ≡ self.old) }
    {
        self.send_out(p, most)
    }

    /// Gives work out for a process that can step.
    fn send_out(&mut self, p: u32, most: u64) -> Result<Job, AllocError>
        requires { can_step self.old p ≡ true }
        ensures job { IfOk result (λ j. IsJob self.old p most j) }
        ensures away { OnOk result (self.new ≡ record self.old { away = self.old.away ++ p ∷ [] }) }
        ensures same { OnErr result (self.new ≡ self.old) }
    {
        self.away.reserve(1)?;
        let job = work::give_out(self.setting(), &self.shared, &self.procs, p, most)?;
        self.away.push_reserved(p);
        Ok(job)
    }

    /// Brings a process home, and takes in what was done for it. The work is dropped exactly where the process doesn't have the
    /// window any more with which that began, where more ticks were taken than are left in the budget, and where the run
    /// has stopped. After want of memory the work is dropped too.
    pub fn commit(&mut self, done: Done) -> Result<Commit, AllocError>
        requires { LocalPath self.old.code.instructions (window_in done.start) done.steps (window_in done.window) }
        ensures comes { IfOk result (λ c. Comes c self.old self.new done.proc (window_in done.start) done.steps) }
        ensures same { OnErr result (self.new.world ≡ self.old.world) }
        ensures rest { self.new ≡ record self.old { world = self.new.world; away = without done.proc self.old.away } }
    {
        commits_are_ticks();
        remove(&mut self.away, done.proc);
        let s = Setting {
            code: &self.code,
            names: &self.names,
            limits: self.limits,
            alloc: self.alloc,
        };
        work::take_in(s, &mut self.shared, &mut self.procs, self.last, &done)
    }

    /// Why the run stops, if it does.
    pub fn stopped(&self) -> Option<Stop>
        ensures stop { result ≡ stop self.now }
        ensures run { IsRun self.now }
    {
        pick::stopped(self.setting(), &self.shared, &self.procs, self.last)
    }

    /// What it is a run of.
    fn setting(&self) -> Setting
        ensures code { result.code.now ≡ self.now.code }
        ensures names { result.names.now ≡ self.now.names }
        ensures limits { result.limits ≡ self.now.limits }
    {
        Setting {
            code: &self.code,
            names: &self.names,
            limits: self.limits,
            alloc: self.alloc,
        }
    }

    /// Takes a tick of a process that is at home, which doesn't touch its window alone. After want of memory the run is as
    /// before.
    pub fn tick(&mut self, p: u32) -> Result<(), AllocError>
        requires goes_on { stop self.old ≡ None }
        requires home { is_in p self.old.away ≡ false }
        requires can { can_step self.old p ≡ true }
        requires shared { next_is_local self.old p ≡ false }
        ensures ticked { OnOk result (ticked self.old p ≡ Some self.new.world) }
        ensures same { OnErr result (self.new ≡ self.old) }
        ensures rest { self.new ≡ record self.old { world = self.new.world } }
    {
        runs_are_sound();
        worlds_are_sound();
        // for what its type keeps: it is sound
        let _ = self.code.len();
        let s = Setting {
            code: &self.code,
            names: &self.names,
            limits: self.limits,
            alloc: self.alloc,
        };
        act(s, &mut self.shared, &mut self.procs, p)
    }

    /// The journal so far.
    pub fn journal(&self) -> &Journal
        ensures events { reverse result.now.journal.events ≡ self.now.world.events }
    {
        self.shared.history.journal()
    }

    /// What is told of the run, which has stopped.
    pub fn finish(self) -> Told
        requires { (s : Stop) × (stop self ≡ Some s) }
        ensures code { result.code ≡ self.code }
        ensures names { result.names ≡ self.names }
        ensures limits { result.limits ≡ self.limits }
        ensures story { (s : Stop) → stop self ≡ Some s → result.story ≡ story self s }
        ensures told { IsTold result }
    {
        let Some(stop) = self.stopped() else {
            return self.told(Stop::Done);
        };
        self.told(stop)
    }

    /// What is told of the run, which stopped for this.
    fn told(self, why: Stop) -> Told
        requires { stop self ≡ Some why }
        ensures code { result.code ≡ self.code }
        ensures names { result.names ≡ self.names }
        ensures limits { result.limits ≡ self.limits }
        ensures story { result.story ≡ story self why }
        ensures told { IsTold result }
    {
        Told {
            code: self.code,
            names: self.names,
            limits: self.limits,
            output: self.shared.output.into_bytes(),
            journal: ended(self.shared.history, why),
            stop: why,
        }
    }
}

/// Takes a number out of these.
fn remove(numbers: &mut Vec<u32>, n: u32)
    ensures { numbers.new.items ≡ without n numbers.old.items }
{
    numbers.retain(|m| n != *m);
}

/// The journal of a run that stopped.
fn ended(history: History, why: Stop) -> Journal
    requires { 0 < history.spare }
    ensures head { result.journal.head ≡ history.head }
    ensures events { reverse result.journal.events ≡ Stopped why ∷ history.events }
{
    let mut history = history;
    history.tell(Event::Stopped { stop: why });
    history.into_journal()
}

/// What the processes of a run share before the first tick.
fn opening(alloc: Global, code: &Code, limits: Limits) -> Result<Shared, AllocError>
    requires { 1 ≤ limits.procs }
    ensures { IfOk result (λ h. IsOpening code.now limits h) }
{
    let mut history = History::new(alloc, head_of(limits));
    history.reserve(1)?;
    Ok(Shared {
        cells: Cells::new(alloc, limits.cells, Vec::from_slice(alloc, code.quoted())?),
        futures: Futures::new(alloc),
        tree: Tree::new(alloc, limits.procs)?,
        calls: Calls::new(alloc),
        globals: without_values(alloc, code.globals())?,
        output: Output::new(alloc),
        history,
        protects: 0,
        mark: None,
    })
}

/// The limits that a journal tells.
fn head_of(limits: Limits) -> Head
    ensures { result ≡ runs.head_of limits }
{
    Head {
        budget: limits.budget,
        cells: limits.cells,
        procs: limits.procs,
        output: limits.output,
    }
}

/// So many globals without a word.
fn without_values(alloc: Global, count: u32) -> Result<Vec<Option<Word>>, AllocError>
    ensures { IfOk result (λ globals. globals.items ≡ without_values count) }
{
    let mut globals = Vec::new(alloc);
    let mut left = count;
    'globals: while left > 0 {
        globals.push(None)?;
        left -= 1;
    }
    Ok(globals)
}
