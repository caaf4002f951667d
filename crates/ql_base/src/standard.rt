//! Ends over the readers and writers of the standard library.

ghost use Rattle.std.specs.Prelude.{◌≡◌, ◌≤◌, ◌<◌, length, IfOk, OnOk, OnErr, None};
ghost use Rattle.ql_base.specs.Memory.{one_more};
ghost use Rattle.ql_base.specs.Outside.{HasRisen};
ghost use Rattle.std.specs.Io.KnownBytes.{ReadConsumes, WriteAppends};

use crate::outside::{Failed, Sink, Source};
use std::io::{ErrorKind, Read, Write};
use std::marker::Model;

/// How often in a row an interrupted call is tried again.
const MOST_RETRIES: u32 = 1_000;

/// A reader of the standard library as a source. It doesn't tell its bytes: contracts see how often it
/// has failed, and what the reader tells of itself.
#[derive(Drop)]
pub struct StdSource<R: Read + Drop> {
    inner: R,
    faults: u64,
}

impl<R: Read + Drop> Model for StdSource<R> {
    ghost use Rattle.ql_base.specs.Standard.{StdState};

    ghost Value = { StdState };

    ghost view = { λ s. record { inner = R.remaining s.inner; faults = s.faults } };
}

impl<R: Read + Drop> StdSource<R> {
    /// A source over `inner` that has not failed yet.
    pub fn new(inner: R) -> StdSource<R>
        ensures { result ≡ record { inner = R.remaining inner; faults = 0 } }
    {
        StdSource { inner, faults: 0 }
    }
}

impl<R: Read + Drop> Source for StdSource<R> {
    ghost left = { λ _. None };

    ghost faults = { λ s. s.faults };

    /// Reads from the inner reader. An interrupted call is tried again at most 1,000 times in a row.
    fn read(&mut self, buf: &mut [u8]) -> Result<usize, Failed>
        ensures within { IfOk result (λ n. n ≤ length buf.old) }
        ensures kept { OnOk result (self.new.faults ≡ self.old.faults) }
        ensures failed { OnErr result (HasRisen self.old.faults self.new.faults) }
        ensures counted { OnErr result (self.new.faults ≡ one_more self.old.faults) }
        ensures passed { ReadConsumes self.old.inner self.new.inner result buf.new }
    {
        match read_through(&mut self.inner, buf) {
            Ok(n) => Ok(n),
            Err(Failed) => {
                self.faults = self.faults.saturating_add(1);
                Err(Failed)
            }
        }
    }
}

// Reads past interruptions.
fn read_through<R: Read>(inner: &mut R, buf: &mut [u8]) -> Result<usize, Failed>
    ensures within { IfOk result (λ n. n ≤ length buf.old) }
    ensures passed { ReadConsumes (R.remaining inner.old) (R.remaining inner.new) result buf.new }
{
    for _ in 0..=MOST_RETRIES {
        match inner.read(buf) {
            Ok(n) => return Ok(n),
            Err(e) if e.kind() == ErrorKind::Interrupted => {}
            Err(_) => return Err(Failed),
        }
    }
    Err(Failed)
}

/// A writer of the standard library as a sink. It doesn't tell its bytes: contracts see how often it
/// has failed, and what the writer tells of itself.
#[derive(Drop)]
pub struct StdSink<W: Write + Drop> {
    inner: W,
    faults: u64,
}

impl<W: Write + Drop> Model for StdSink<W> {
    ghost use Rattle.ql_base.specs.Standard.{StdState};

    ghost Value = { StdState };

    ghost view = { λ s. record { inner = W.contents s.inner; faults = s.faults } };
}

impl<W: Write + Drop> StdSink<W> {
    /// A sink over `inner` that has not failed yet.
    pub fn new(inner: W) -> StdSink<W>
        ensures { result ≡ record { inner = W.contents inner; faults = 0 } }
    {
        StdSink { inner, faults: 0 }
    }
}

impl<W: Write + Drop> Sink for StdSink<W> {
    ghost held = { λ _. None };

    ghost faults = { λ s. s.faults };

    /// Writes to the inner writer. An interrupted call is tried again at most 1,000 times in a row. A
    /// writer that takes nothing of a piece that isn't empty is at fault.
    fn write(&mut self, piece: &[u8]) -> Result<usize, Failed>
        ensures within { IfOk result (λ n. n ≤ length piece.now) }
        ensures some { IfOk result (λ n. 0 < length piece.now → 0 < n) }
        ensures kept { OnOk result (self.new.faults ≡ self.old.faults) }
        ensures failed { OnErr result (HasRisen self.old.faults self.new.faults) }
        ensures counted { OnErr result (self.new.faults ≡ one_more self.old.faults) }
        ensures passed { WriteAppends self.old.inner self.new.inner result piece.now }
    {
        match write_through(&mut self.inner, piece) {
            Ok(n) => Ok(n),
            Err(Failed) => {
                self.faults = self.faults.saturating_add(1);
                Err(Failed)
            }
        }
    }
}

// Writes past interruptions. Nothing taken of a piece that isn't empty is a failure.
fn write_through<W: Write>(inner: &mut W, piece: &[u8]) -> Result<usize, Failed>
    ensures within { IfOk result (λ n. n ≤ length piece.now) }
    ensures some { IfOk result (λ n. 0 < length piece.now → 0 < n) }
    ensures passed { WriteAppends (W.contents inner.old) (W.contents inner.new) result piece.now }
{
    for _ in 0..=MOST_RETRIES {
        match inner.write(piece) {
            Ok(0) if !piece.is_empty() => return Err(Failed),
            Ok(n) => return Ok(n),
            Err(e) if e.kind() == ErrorKind::Interrupted => {}
            Err(_) => return Err(Failed),
        }
    }
    Err(Failed)
}

#[cfg(test)]
mod tests {
    use super::*;
    use std::io;

    // An end that is interrupted so many times before each byte that it gives or takes.
    #[derive(Drop)]
    struct Interrupted {
        times: u32,
        left: u32,
    }

    impl Interrupted {
        fn one_call(&mut self, room: usize) -> io::Result<usize>
            ensures { IfOk result (λ n. n ≤ room) }
        {
            if self.left > 0 {
                self.left -= 1;
                return Err(io::Error::from(ErrorKind::Interrupted));
            }
            self.left = self.times;
            Ok(room.min(1))
        }
    }

    impl Read for Interrupted {
        fn read(&mut self, buf: &mut [u8]) -> io::Result<usize> {
            self.one_call(buf.len())
        }
    }

    impl Write for Interrupted {
        fn write(&mut self, buf: &[u8]) -> io::Result<usize> {
            self.one_call(buf.len())
        }

        fn flush(&mut self) -> io::Result<()> {
            Ok(())
        }
    }

    // A writer that takes nothing.
    #[derive(Drop)]
    struct Full;

    impl Write for Full {
        fn write(&mut self, _buf: &[u8]) -> io::Result<usize> {
            Ok(0)
        }

        fn flush(&mut self) -> io::Result<()> {
            Ok(())
        }
    }

    // A call through the bound alone.
    fn read_one<S: Source>(source: &mut S) -> Result<usize, Failed> {
        let mut buf = [0];
        source.read(&mut buf)
    }

    // A call through the bound alone.
    fn write_piece<S: Sink>(sink: &mut S, piece: &[u8]) -> Result<usize, Failed> {
        sink.write(piece)
    }

    #[test]
    fn retries_interrupted_calls(rt: HostRuntime) {
        let calls = [(0, Ok(1)), (1_000, Ok(1)), (1_001, Err(Failed))];
        for (times, answer) in calls {
            let mut source = StdSource::new(Interrupted { times, left: times });
            assert!(rt; read_one(&mut source) == answer);
            let mut sink = StdSink::new(Interrupted { times, left: times });
            assert!(rt; write_piece(&mut sink, b"ab") == answer);
        }
    }

    #[test]
    fn a_writer_that_takes_nothing_is_at_fault(rt: HostRuntime) {
        let mut sink = StdSink::new(Full);
        assert!(rt; write_piece(&mut sink, b"a") == Err(Failed));
        assert!(rt; write_piece(&mut sink, b"") == Ok(0));
    }
}
