ghost use Rattle.std.specs.Prelude.{◌≡◌, ◌≤◌, [], IfOk, IsErr, IsTrue, ◌↔◌, Some};
ghost use Rattle.base_core.specs.Faults.{IsCounted};
ghost use Rattle.script_io.specs.Streams.{IsTaken, Writes};
ghost use Rattle.script_io.specs.StreamStates.{SinkState, refuses, taken, after_write};

use crate::sink::Sink;
use base_core::{Failures, Fault};
use std::alloc::{AllocError, Global};
use std::marker::Model;

/// A sink in memory, which takes bytes in pieces of a chosen length up to a chosen number, and fails
/// at chosen calls.
#[derive(Debug, Drop)]
pub struct MemSink {
    bytes: Vec<u8>,
    most: u64,
    piece: u64,
    failures: Failures,
}

impl Model for MemSink {
    ghost use Rattle.std.specs.Prelude.{length, vec_capacity};
    ghost use Rattle.script_io.specs.StreamStates.{SinkState};
    ghost use Rattle.script_io.specs.SinkRoom.{HasRoom};

    ghost Value = { SinkState };

    ghost view = { λ sink. record {
      bytes = sink.bytes.items;
      most = sink.most;
      piece = sink.piece;
      failing = sink.failures;
    } };

    ghost invariant = { λ sink. HasRoom (length sink.bytes.items) (vec_capacity sink.bytes) sink.most sink.piece };
}

impl MemSink {
    /// An empty sink with room for `most` bytes, whose memory is taken now. It takes no more than
    /// `piece` of them at a write. A write into a full sink fails, and so do those whose numbers are in
    /// `fails`, the first write being 1.
    pub fn new(alloc: Global, most: u64, piece: u64, fails: &[u64]) -> Result<MemSink, AllocError>
        requires { 1 ≤ piece }
        ensures { IfOk result (λ sink. sink ≡ record { bytes = []; most = most; piece = piece; failing = record { fails = fails.now; calls = 0; faults = 0 } }) }
    {
        Ok(MemSink {
            bytes: Vec::with_capacity(alloc, most as usize)?,
            most,
            piece,
            failures: Failures::new(alloc, fails)?,
        })
    }

    /// What was written. It takes no memory.
    pub fn bytes(&self) -> &[u8]
        ensures { result.now ≡ self.now.bytes }
    {
        self.bytes.as_slice()
    }
}

impl Sink for MemSink {
    ghost use Rattle.std.specs.Prelude.{Some};

    ghost written = { λ sink. Some sink.bytes };

    ghost faults = { λ sink. sink.failing.faults };

    fn write(&mut self, piece: &[u8]) -> Result<usize, Fault>
        ensures taken { IfOk result (IsTaken piece.now) }
        ensures bytes { Writes self.old.bytes (Some self.new.bytes) piece.now result }
        ensures counted { IsCounted self.old.failing.faults self.new.failing.faults result }
        ensures fails { IsErr result ↔ IsTrue (refuses self.old piece.now) }
        ensures takes { IfOk result (λ n. n ≡ taken self.old piece.now) }
        ensures after { self.new ≡ after_write self.old piece.now }
    {
        self.failures.call()?;
        let room = self.most - self.bytes.len() as u64;
        let n = (piece.len() as u64).min(room).min(self.piece) as usize;
        if n == 0 && !piece.is_empty() {
            self.failures.count();
            return Err(Fault);
        }
        let _ = self.bytes.extend_from_slice(&piece[..n]);
        Ok(n)
    }
}
