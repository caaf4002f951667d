//! Ends in memory, which can be told to give or take little at a time and to fail.

ghost use Rattle.std.specs.Prelude.{◌≡◌, ◌≤◌, ◌<◌, ◌+◌, ◌++◌, [], length, take, drop, min, vec_len, vec_capacity, is_err, IfOk, OnOk, OnErr, Some};
ghost use Rattle.ql_base.specs.Outside.{HasRisen, Reads, Appends};
ghost use Rattle.ql_base.specs.Memory.{
  read_fails,
  read_count,
  has_given,
  read_failed,
  write_fails,
  write_count,
  has_taken,
  write_failed,
};

use crate::outside::{Failed, Sink, Source};
use std::alloc::{AllocError, Global};
use std::marker::Model;

/// A source of bytes in memory. It gives them in pieces, and fails at chosen calls.
#[derive(Drop)]
pub struct MemSource {
    bytes: Vec<u8>,
    at: usize,
    piece: usize,
    fails: Vec<u64>,
    calls: u64,
    faults: u64,
}

impl Model for MemSource {
    ghost use Rattle.std.specs.Prelude.{length, drop};
    ghost use Rattle.ql_base.specs.Memory.{MemSourceState, IsWithinBytes};

    ghost Value = { MemSourceState };

    ghost view = { λ s. record {
      rest = drop s.at s.bytes.items;
      piece = s.piece;
      fails = s.fails.items;
      calls = s.calls;
      faults = s.faults;
    } };

    ghost invariant = { λ s. IsWithinBytes s.at (length s.bytes.items) s.piece };
}

impl MemSource {
    /// A source of `bytes`, at most `piece` of them a call. The calls are numbered from 1, and those
    /// whose numbers are in `fails` fail.
    pub fn new(bytes: Vec<u8>, piece: usize, fails: Vec<u64>) -> MemSource
        requires { 1 ≤ piece }
        ensures { result ≡ record { rest = bytes.items; piece = piece; fails = fails.items; calls = 0; faults = 0 } }
    {
        MemSource {
            bytes,
            at: 0,
            piece,
            fails,
            calls: 0,
            faults: 0,
        }
    }
}

impl Source for MemSource {
    ghost left = { λ s. Some s.rest };

    ghost faults = { λ s. s.faults };

    /// Gives the least of the bytes left, the piece and the room of `buf`, unless the number of this
    /// call is among those that fail.
    fn read(&mut self, buf: &mut [u8]) -> Result<usize, Failed>
        ensures within { IfOk result (λ n. n ≤ length buf.old) }
        ensures bytes { IfOk result (λ n. Reads (length buf.old) (take n buf.new) (Some self.old.rest) (Some self.new.rest)) }
        ensures kept { OnOk result (self.new.faults ≡ self.old.faults) }
        ensures failed { OnErr result (HasRisen self.old.faults self.new.faults) }
        ensures same { OnErr result (Some self.new.rest ≡ Some self.old.rest) }
        ensures fails { is_err result ≡ read_fails self.old }
        ensures count { IfOk result (λ n. n ≡ read_count (length buf.old) self.old) }
        ensures given { IfOk result (λ n. self.new ≡ has_given n self.old) }
        ensures fault { OnErr result (self.new ≡ read_failed self.old) }
    {
        self.calls = self.calls.saturating_add(1);
        if self.fails.contains(&self.calls) {
            self.faults = self.faults.saturating_add(1);
            return Err(Failed);
        }
        let n = copy_front(buf, &self.bytes, self.at, self.piece);
        self.at += n;
        Ok(n)
    }
}

// Copies bytes from place `at` on to the front of `buf`, at most `most` of them.
pub(crate) fn copy_front(buf: &mut [u8], bytes: &[u8], at: usize, most: usize) -> usize
    requires { at ≤ length bytes.now }
    ensures count { result ≡ min (min (length (drop at bytes.now)) most) (length buf.old) }
    ensures bytes { take result buf.new ≡ take result (drop at bytes.now) }
{
    let n = (bytes.len() - at).min(most).min(buf.len());
    buf[..n].copy_from_slice(&bytes[at..at + n]);
    n
}

/// A sink of bytes in memory. Its memory is taken when it is made, it takes bytes in pieces, and
/// fails at chosen calls and where it is full.
#[derive(Drop)]
pub struct MemSink {
    bytes: Vec<u8>,
    room: usize,
    piece: usize,
    fails: Vec<u64>,
    calls: u64,
    faults: u64,
}

impl Model for MemSink {
    ghost use Rattle.std.specs.Prelude.{length, vec_capacity};
    ghost use Rattle.ql_base.specs.Memory.{MemSinkState, IsWithinRoom};

    ghost Value = { MemSinkState };

    ghost view = { λ s. record {
      held = s.bytes.items;
      room = s.room;
      piece = s.piece;
      fails = s.fails.items;
      calls = s.calls;
      faults = s.faults;
    } };

    ghost invariant = { λ s. IsWithinRoom (length s.bytes.items) s.room (vec_capacity s.bytes) s.piece };
}

impl MemSink {
    /// An empty sink for `room` bytes, which takes at most `piece` of them a call. The calls are
    /// numbered from 1, and those whose numbers are in `fails` fail.
    pub fn new(
        alloc: Global,
        room: usize,
        piece: usize,
        fails: Vec<u64>,
    ) -> Result<MemSink, AllocError>
        requires { 1 ≤ piece }
        ensures { IfOk result (λ s. s ≡ record { held = []; room = room; piece = piece; fails = fails.items; calls = 0; faults = 0 }) }
    {
        let bytes = Vec::with_capacity(alloc, room)?;
        Ok(MemSink {
            bytes,
            room,
            piece,
            fails,
            calls: 0,
            faults: 0,
        })
    }

    /// The bytes that it holds.
    pub fn bytes(&self) -> &[u8]
        ensures held { result.now ≡ self.now.held }
        ensures within { length self.now.held ≤ self.now.room }
    {
        self.bytes.as_slice()
    }
}

impl Sink for MemSink {
    ghost held = { λ s. Some s.held };

    ghost faults = { λ s. s.faults };

    /// Takes the least of the piece's length, the most bytes of a call and the room left, unless the
    /// number of this call is among those that fail, or no room is left for a piece that isn't empty.
    fn write(&mut self, piece: &[u8]) -> Result<usize, Failed>
        ensures within { IfOk result (λ n. n ≤ length piece.now) }
        ensures some { IfOk result (λ n. 0 < length piece.now → 0 < n) }
        ensures bytes { IfOk result (λ n. Appends (take n piece.now) (Some self.old.held) (Some self.new.held)) }
        ensures kept { OnOk result (self.new.faults ≡ self.old.faults) }
        ensures failed { OnErr result (HasRisen self.old.faults self.new.faults) }
        ensures same { OnErr result (Some self.new.held ≡ Some self.old.held) }
        ensures fails { is_err result ≡ write_fails piece.now self.old }
        ensures count { IfOk result (λ n. n ≡ write_count piece.now self.old) }
        ensures taken { IfOk result (λ n. self.new ≡ has_taken (take n piece.now) self.old) }
        ensures fault { OnErr result (self.new ≡ write_failed self.old) }
    {
        self.calls = self.calls.saturating_add(1);
        let room = self.room - self.bytes.len();
        if self.fails.contains(&self.calls) || (room == 0 && !piece.is_empty()) {
            self.faults = self.faults.saturating_add(1);
            return Err(Failed);
        }
        let n = piece.len().min(self.piece).min(room);
        append_front(&mut self.bytes, piece, n);
        Ok(n)
    }
}

// Appends the first `n` bytes of `piece` in memory that is there already.
fn append_front(bytes: &mut Vec<u8>, piece: &[u8], n: usize)
    requires within { n ≤ length piece.now }
    requires room { vec_len bytes.old + n ≤ vec_capacity bytes.old }
    ensures items { bytes.new.items ≡ bytes.old.items ++ take n piece.now }
    ensures capacity { vec_capacity bytes.old ≤ vec_capacity bytes.new }
{
    match bytes.extend_from_slice(&piece[..n]) {
        Ok(()) => {}
        Err(_) => unreachable!(),
    }
}

#[cfg(test)]
mod tests {
    use super::*;

    #[test]
    fn source_gives_pieces_and_fails_as_told(rt: HostRuntime) -> Result<(), AllocError> {
        let bytes = Vec::from_slice(rt.alloc(), b"abc")?;
        let fails = Vec::from_slice(rt.alloc(), &[2, 5])?;
        let mut source = MemSource::new(bytes, 1, fails);
        let answers = [
            (Ok(1), b'a'),
            (Err(Failed), 0),
            (Ok(1), b'b'),
            (Ok(1), b'c'),
            (Err(Failed), 0),
            (Ok(0), 0),
        ];
        for (answer, first) in answers {
            let mut buf = [0; 2];
            assert!(rt; source.read(&mut buf) == answer);
            assert_eq!(rt; buf, [first, 0]);
        }
        Ok(())
    }

    #[test]
    fn sink_takes_pieces_and_fails_as_told(rt: HostRuntime) -> Result<(), AllocError> {
        let fails = Vec::from_slice(rt.alloc(), &[2])?;
        let mut sink = MemSink::new(rt.alloc(), 3, 2, fails)?;
        let calls: [(&[u8], Result<usize, Failed>, &[u8]); 6] = [
            (b"abc", Ok(2), b"ab"),
            (b"c", Err(Failed), b"ab"),
            (b"cd", Ok(1), b"abc"),
            (b"d", Err(Failed), b"abc"),
            (b"", Ok(0), b"abc"),
            (b"d", Err(Failed), b"abc"),
        ];
        for (piece, answer, held) in calls {
            assert!(rt; sink.write(piece) == answer);
            assert!(rt; sink.bytes() == held);
        }
        Ok(())
    }
}
