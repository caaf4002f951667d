//! Windows: what work on a process may look at, and the jobs that are such work.

ghost use Rattle.std.specs.Prelude.{◌≡◌, ◌↔◌, ◌≤◌, ◌++◌, true, IfOk, OnOk, OnErr};
ghost use Rattle.ql_code.specs.Machine.{point};
ghost use Rattle.ql_code.specs.LocalPath.{beneath};
ghost use Rattle.ql_proc.specs.Points.{point_of};
ghost use Rattle.ql_proc.specs.Windows.{window_in, window_on, state_of};

use crate::process::Proc;
use ql_code::mark::State;
use ql_world::world::Aim;
use std::alloc::{AllocError, Global};

/// What is seen of a process: its aim, its place, how it stands to its code, and its stack from the 64th mark from the top
/// upward, or all of its stack where that has fewer. One that has ended is `Over`.
#[derive(Drop)]
pub struct Window {
    pub aim: Aim,
    pub top: Proc,
}

/// Work that is to be done for a process, on its window.
#[derive(Drop)]
pub struct Job {
    /// The process.
    pub proc: u32,
    /// Its window when the work was given out.
    pub start: Window,
    /// The same again, to be worked on.
    pub window: Window,
    /// How many ticks may be taken.
    pub most: u64,
}

/// Work that was done for a process.
#[derive(Drop)]
pub struct Done {
    /// The process.
    pub proc: u32,
    /// Its window when the work was given out.
    pub start: Window,
    /// Its window after the work.
    pub window: Window,
    /// How many ticks were taken.
    pub steps: u64,
}

impl Proc {
    /// How it stands to its code.
    fn state_now(&self, ended: bool) -> State
        ensures { result ≡ state_of self.now ended }
    {
        if ended { State::Over } else { self.state }
    }

    /// The window of a process with this aim, with room for so many more slots and so many more marks.
    pub fn window(
        &self,
        alloc: Global,
        aim: Aim,
        ended: bool,
        more: u64,
    ) -> Result<Window, AllocError>
        ensures window { IfOk result (λ w. window_in w ≡ window_on self.now aim ended) }
        ensures room { IfOk result (λ w. more ≤ w.top.stack.room) }
    {
        Ok(Window {
            aim,
            top: Proc {
                place: self.place,
                stack: self.stack.window(alloc, more)?,
                state: self.state_now(ended),
            },
        })
    }

    /// Whether this is the window of a process with this aim.
    pub fn has_window(&self, aim: Aim, ended: bool, window: &Window) -> bool
        ensures { (result ≡ true) ↔ (window_in window.now ≡ window_on self.now aim ended) }
    {
        window.aim == aim
            && window.top.place == self.place
            && window.top.state == self.state_now(ended)
            && self.stack.has_window(&window.top.stack)
    }

    /// Goes on as work on its window has brought that. After want of memory it is as before.
    pub fn put_window(&mut self, window: &Window) -> Result<(), AllocError>
        ensures point { OnOk result (point_of self.new ≡ point window.now.top.place (window.now.top.stack.items ++ beneath 64 self.old.stack.items) self.old.state) }
        ensures same { OnErr result (point_of self.new ≡ point_of self.old) }
    {
        self.stack.put_window(&window.top.stack)?;
        self.place = window.top.place;
        Ok(())
    }
}
