//! The outside: where bytes come from, and where they go.
//!
//! An end tells its bytes or it doesn't: one in memory does, a file or a terminal can't. What no end
//! hides is how often it has failed. So an answer of the layers above that blames an end is tied to
//! its count of faults.

ghost use Rattle.std.specs.Prelude.{◌≡◌, ◌≤◌, ◌<◌, ◌-◌, ◌^◌, ℕ, List, Option, length, take, IfOk, OnOk, OnErr};
ghost use Rattle.ql_base.specs.Outside.{HasRisen, Reads, Appends};

use crate::numbers::Pid;

/// A call of an end failed.
#[derive(Clone, Copy, Debug, PartialEq, Eq)]
pub struct Failed;

/// A source of bytes.
pub trait Source {
    /// The bytes that it has left, where it tells them.
    ghost left: { Self → Option (List ℕ) };

    /// How often it has failed. The count stands still at its greatest value.
    ghost faults: { Self → ℕ };

    /// Puts the next bytes at the front of `buf` and answers their number. An answer of 0 into a
    /// buffer that isn't empty is the end of input. After a fault the bytes left are as before.
    fn read(&mut self, buf: &mut [u8]) -> Result<usize, Failed>
        ensures within { IfOk result (λ n. n ≤ length buf.old) }
        ensures bytes { IfOk result (λ n. Reads (length buf.old) (take n buf.new) (left self.old) (left self.new)) }
        ensures kept { OnOk result (faults self.new ≡ faults self.old) }
        ensures failed { OnErr result (HasRisen (faults self.old) (faults self.new)) }
        ensures same { OnErr result (left self.new ≡ left self.old) };
}

/// A sink of bytes.
pub trait Sink {
    /// The bytes that it holds, where it tells them.
    ghost held: { Self → Option (List ℕ) };

    /// How often it has failed. The count stands still at its greatest value.
    ghost faults: { Self → ℕ };

    /// Appends a front of `piece` and answers its length, which is at least 1 where the piece isn't
    /// empty. After a fault the bytes held are as before.
    fn write(&mut self, piece: &[u8]) -> Result<usize, Failed>
        ensures within { IfOk result (λ n. n ≤ length piece.now) }
        ensures some { IfOk result (λ n. 0 < length piece.now → 0 < n) }
        ensures bytes { IfOk result (λ n. Appends (take n piece.now) (held self.old) (held self.new)) }
        ensures kept { OnOk result (faults self.new ≡ faults self.old) }
        ensures failed { OnErr result (HasRisen (faults self.old) (faults self.new)) }
        ensures same { OnErr result (held self.new ≡ held self.old) };
}

/// What a worker passes between taking a job and running it. It can hold a worker up, and does
/// nothing else.
pub trait Gate {
    /// A worker with a job of process `p`, of at most `n` ticks, passes.
    fn pass(&self, p: Pid, n: u64);
}

/// A gate that holds nobody up.
#[derive(Clone, Copy, Debug, PartialEq, Eq, Drop)]
pub struct OpenGate;

impl Gate for OpenGate {
    fn pass(&self, _p: Pid, _n: u64) {}
}
