ghost use Rattle.std.specs.Prelude.{◌≡◌, ◌≤◌, IfOk, IsErr, IsTrue, ◌↔◌, length};
ghost use Rattle.base_core.specs.Faults.{IsCounted};
ghost use Rattle.base_core.specs.Failing.{fails_next};
ghost use Rattle.script_io.specs.Streams.{Reads};
ghost use Rattle.script_io.specs.StreamStates.{SourceState, given, after_read};

use crate::source::Source;
use base_core::{Failures, Fault};
use std::alloc::{AllocError, Global};
use std::marker::Model;

/// A source over bytes in memory, which gives them in pieces of a chosen length and fails at chosen
/// calls.
#[derive(Debug, Drop)]
pub struct MemSource {
    bytes: Vec<u8>,
    offset: usize,
    piece: u64,
    failures: Failures,
}

impl Model for MemSource {
    ghost use Rattle.std.specs.Prelude.{◌≤◌, drop, length};
    ghost use Rattle.script_io.specs.StreamStates.{SourceState};

    ghost Value = { SourceState };

    ghost view = { λ source. record {
      left = drop source.offset source.bytes.items;
      piece = source.piece;
      failing = source.failures;
    } };

    ghost invariant = { λ source. (source.offset ≤ length source.bytes.items) × (1 ≤ source.piece) };
}

impl MemSource {
    /// A source of these bytes, no more than `piece` of them at a read. `fails` has the numbers of the
    /// reads that will fail, the first read being 1.
    pub fn new(
        alloc: Global,
        bytes: &[u8],
        piece: u64,
        fails: &[u64],
    ) -> Result<MemSource, AllocError>
        requires { 1 ≤ piece }
        ensures { IfOk result (λ source. source ≡ record { left = bytes.now; piece = piece; failing = record { fails = fails.now; calls = 0; faults = 0 } }) }
    {
        Ok(MemSource {
            bytes: Vec::from_slice(alloc, bytes)?,
            offset: 0,
            piece,
            failures: Failures::new(alloc, fails)?,
        })
    }
}

impl Source for MemSource {
    ghost use Rattle.std.specs.Prelude.{Some};

    ghost left = { λ source. Some source.left };

    ghost faults = { λ source. source.failing.faults };

    fn read(&mut self, into: &mut [u8]) -> Result<usize, Fault>
        ensures fits { IfOk result (λ n. n ≤ length into.old) }
        ensures bytes { Reads self.old.left (Some self.new.left) (length into.old) into.new result }
        ensures counted { IsCounted self.old.failing.faults self.new.failing.faults result }
        ensures fails { IsErr result ↔ IsTrue (fails_next self.old.failing) }
        ensures gives { IfOk result (λ n. n ≡ given self.old (length into.old)) }
        ensures after { self.new ≡ after_read self.old (length into.old) }
    {
        self.failures.call()?;
        let left = &self.bytes[self.offset..];
        let n = (into.len() as u64).min(self.piece).min(left.len() as u64) as usize;
        into[..n].copy_from_slice(&left[..n]);
        self.offset += n;
        Ok(n)
    }
}
