ghost use Rattle.std.specs.Prelude.{◌≡◌, ◌≤◌, length, IfOk, IfSome, Option};
ghost use Rattle.std.specs.Io.KnownBytes.{ReadConsumes};
ghost use Rattle.base_core.specs.Faults.{IsCounted};
ghost use Rattle.script_io.specs.Streams.{IsTaken};
ghost use Rattle.script_io.specs.StdStreams.{WritesThrough};

use crate::sink::Sink;
use crate::source::Source;
use base_core::Fault;
use std::io::{Read, Write};

/// A source over a reader of std, such as standard input. What it has left is not told. Whatever
/// error the reader answers is a fault.
#[derive(Drop)]
pub struct StdSource<R: Read> {
    inner: R,
    faults: u64,
}

impl<R: Read> StdSource<R> {
    /// A source over this reader, which has not failed yet.
    pub fn new(inner: R) -> StdSource<R>
        ensures { result ≡ record { inner = inner; faults = 0 } }
    {
        StdSource { inner, faults: 0 }
    }
}

impl<R: Read> Source for StdSource<R> {
    ghost use Rattle.std.specs.Prelude.{None};

    ghost left = { λ _. None };

    ghost faults = { λ source. source.faults };

    fn read(&mut self, into: &mut [u8]) -> Result<usize, Fault>
        ensures fits { IfOk result (λ n. n ≤ length into.old) }
        ensures counted { IsCounted self.old.faults self.new.faults result }
        ensures inner { ReadConsumes (R.remaining self.old.inner) (R.remaining self.new.inner) result into.new }
    {
        match self.inner.read(into) {
            Ok(n) => Ok(n),
            Err(_) => {
                self.faults = self.faults.saturating_add(1);
                Err(Fault)
            }
        }
    }
}

/// A sink over a writer of std, such as standard output, flushed at each write. What was written is
/// not told. An error of the writer, of its flush too, is a fault, and so is a piece of which it takes
/// nothing.
#[derive(Drop)]
pub struct StdSink<W: Write> {
    inner: W,
    faults: u64,
}

impl<W: Write> StdSink<W> {
    /// A sink over this writer, which has not failed yet.
    pub fn new(inner: W) -> StdSink<W>
        ensures { result ≡ record { inner = inner; faults = 0 } }
    {
        StdSink { inner, faults: 0 }
    }
}

impl<W: Write> Sink for StdSink<W> {
    ghost use Rattle.std.specs.Prelude.{None};

    ghost written = { λ _. None };

    ghost faults = { λ sink. sink.faults };

    fn write(&mut self, piece: &[u8]) -> Result<usize, Fault>
        ensures taken { IfOk result (IsTaken piece.now) }
        ensures counted { IsCounted self.old.faults self.new.faults result }
        ensures inner { WritesThrough (W.contents self.old.inner) (W.contents self.new.inner) piece.now result }
    {
        match write_and_flush(&mut self.inner, piece) {
            Ok(n) => Ok(n),
            Err(Fault) => {
                self.faults = self.faults.saturating_add(1);
                Err(Fault)
            }
        }
    }
}

// Writes from the start of a piece, and flushes what was written.
fn write_and_flush<W: Write>(writer: &mut W, piece: &[u8]) -> Result<usize, Fault>
    ensures taken { IfOk result (IsTaken piece.now) }
    ensures through { WritesThrough (W.contents writer.old) (W.contents writer.new) piece.now result }
{
    let Ok(n) = writer.write(piece) else {
        return Err(Fault);
    };
    if n == 0 && !piece.is_empty() {
        return Err(Fault);
    }
    match writer.flush() {
        Ok(()) => Ok(n),
        Err(_) => Err(Fault),
    }
}
