//! What following a book needs of a run.

ghost use Rattle.std.specs.Prelude.{◌≡◌, ◌≤◌, ◌<◌, ◌^◌, ℕ, List, IfOk, OnOk, None, is_some, slice_get, true};
ghost use Rattle.ql_world.specs.declared.event.Event.{Event};
ghost use Rattle.ql_world.specs.World.{World};
ghost use Rattle.ql_code.specs.Machine.{Point, Entry};
ghost use Rattle.ql_replay.specs.Replay.{Host, is_quiet, goes_on, due};
ghost use Rattle.ql_replay.specs.Following.{TakesTicks, Finds};
ghost use Rattle.ql_replay.specs.Book.{turn_in};

use std::alloc::AllocError;

/// A run that is followed.
pub trait Followed {
    ghost world: { Self → World Point Entry };

    ghost host: { Self → Host (World Point Entry) };

    /// The line of an event.
    ghost line: { Self → Event → List ℕ };

    /// Takes ticks of the process, at least one and at most so many, of which only the last may have events. It is 0 where
    /// the process takes none.
    fn ticks(&mut self, p: u32, most: u64) -> Result<u64, AllocError>
        requires goes_on { (host self.old).stop (world self.old) ≡ None }
        requires some { 1 ≤ most }
        ensures same { OnOk result ((host self.new ≡ host self.old) × (line self.new ≡ line self.old)) }
        ensures few { IfOk result (λ n. n ≤ most) }
        ensures took { IfOk result (λ n. TakesTicks (host self.old) p n (world self.old) (world self.new)) };

    /// Whether the run has stopped.
    fn has_stopped(&self) -> bool
        ensures { result ≡ is_some ((host self.now).stop (world self.now)) };

    /// Whether the last tick had no events.
    fn is_quiet(&self) -> bool
        ensures { result ≡ is_quiet ((host self.now).events (world self.now)) };

    /// Whether a tick of the process would be joined to the newest turn.
    fn goes_on(&self, p: u32) -> bool
        ensures { result ≡ goes_on p ((host self.now).events (world self.now)) };

    /// Puts in the line that is due next where so many were seen, if there is one.
    fn due_line(&self, seen: u64, to: &mut Vec<u8>) -> Result<bool, AllocError>
        ensures found { IfOk result (λ found. Finds found (slice_get (due (host self.now) (line self.now) turn_in (world self.now)) seen) to.new.items) }
        ensures few { IfOk result (λ found. found ≡ true → seen < 2 ^ 63) };

    /// What was printed in the run, which has stopped.
    fn output(self) -> Result<Vec<u8>, AllocError>
        requires { is_some ((host self).stop (world self)) ≡ true }
        ensures { IfOk result (λ bytes. bytes.items ≡ (host self).output (world self)) };

    /// Whether another process than this one can step.
    fn has_other(&mut self, p: u32) -> bool
        ensures same { (host self.new ≡ host self.old) × ((line self.new ≡ line self.old) × (world self.new ≡ world self.old)) }
        ensures other { result ≡ (host self.old).has_other (world self.old) p };
}
