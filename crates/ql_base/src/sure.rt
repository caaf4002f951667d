//! Ends that never fail.

ghost use Rattle.std.specs.Prelude.{◌≡◌, ◌≤◌, ◌<◌, length, take, min, IsOk, IfOk, OnOk, OnErr, None, Some};
ghost use Rattle.ql_base.specs.Outside.{HasRisen, Reads, Appends};

use crate::memory::copy_front;
use crate::outside::{Failed, Sink, Source};
use std::marker::Model;

/// A source of bytes in memory that never fails.
#[derive(Drop)]
pub struct SureSource {
    bytes: Vec<u8>,
    at: usize,
}

impl Model for SureSource {
    ghost use Rattle.std.specs.Prelude.{List, ℕ, ◌≤◌, length, drop};

    ghost Value = { List ℕ };

    ghost view = { λ s. drop s.at s.bytes.items };

    ghost invariant = { λ s. s.at ≤ length s.bytes.items };
}

impl SureSource {
    /// A source of `bytes`.
    pub fn new(bytes: Vec<u8>) -> SureSource
        ensures { result ≡ bytes.items }
    {
        SureSource { bytes, at: 0 }
    }
}

impl Source for SureSource {
    ghost left = { λ s. Some s };

    ghost faults = { λ _. 0 };

    /// Gives as many bytes as there are and `buf` has room for.
    fn read(&mut self, buf: &mut [u8]) -> Result<usize, Failed>
        ensures sure { IsOk result }
        ensures within { IfOk result (λ n. n ≤ length buf.old) }
        ensures bytes { IfOk result (λ n. Reads (length buf.old) (take n buf.new) (Some self.old) (Some self.new)) }
        ensures count { IfOk result (λ n. n ≡ min (length self.old) (length buf.old)) }
    {
        let n = copy_front(buf, &self.bytes, self.at, usize::MAX);
        self.at += n;
        Ok(n)
    }
}

/// A sink that takes every piece whole and keeps nothing of it. It never fails.
#[derive(Clone, Copy, Debug, Drop)]
pub struct SureSink;

impl SureSink {
    /// A sink that never fails.
    pub fn new() -> SureSink {
        SureSink
    }
}

impl Sink for SureSink {
    ghost held = { λ _. None };

    ghost faults = { λ _. 0 };

    /// Takes the whole piece.
    fn write(&mut self, piece: &[u8]) -> Result<usize, Failed>
        ensures whole { result ≡ Ok (length piece.now) }
    {
        Ok(piece.len())
    }
}

#[cfg(test)]
mod tests {
    use super::*;
    use std::alloc::AllocError;

    #[test]
    fn sure_ends_answer_every_call(rt: HostRuntime) -> Result<(), AllocError> {
        let mut source = SureSource::new(Vec::from_slice(rt.alloc(), b"abc")?);
        let mut buf = [0; 2];
        for answer in [2, 1, 0] {
            assert!(rt; source.read(&mut buf) == Ok(answer));
        }
        let mut sink = SureSink::new();
        assert!(rt; sink.write(b"abc") == Ok(3));
        Ok(())
    }
}
