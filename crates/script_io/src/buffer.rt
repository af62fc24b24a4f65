ghost use Rattle.std.specs.Prelude.{◌≡◌, []};

use crate::sink::Sink;
use base_core::{Fault, Text};
use std::alloc::Global;
use std::marker::Model;

/// A sink that keeps what it is given in memory, so that a reply is put together before it is written.
/// Its only fault is want of memory.
#[derive(Debug, Drop)]
pub struct Buffer {
    bytes: Vec<u8>,
    faults: u64,
}

impl Model for Buffer {
    ghost use Rattle.script_io.specs.StreamStates.{Kept};

    ghost Value = { Kept };

    ghost view = { λ buffer. record { bytes = buffer.bytes.items; faults = buffer.faults } };
}

impl Buffer {
    /// An empty one. It takes no memory.
    pub fn new(alloc: Global) -> Buffer
        ensures bytes { result.bytes ≡ [] }
        ensures faults { result.faults ≡ 0 }
    {
        Buffer {
            bytes: Vec::new(alloc),
            faults: 0,
        }
    }

    /// What was written.
    pub fn bytes(&self) -> &[u8]
        ensures { result.now ≡ self.now.bytes }
    {
        self.bytes.as_slice()
    }

    /// What was written, as a text. It takes no memory.
    pub fn into_text(self) -> Text
        ensures { result ≡ self.bytes }
    {
        Text::from_bytes(self.bytes)
    }
}

impl Sink for Buffer {
    ghost use Rattle.std.specs.Prelude.{Some};

    ghost written = { λ buffer. Some buffer.bytes };

    ghost faults = { λ buffer. buffer.faults };

    fn write(&mut self, piece: &[u8]) -> Result<usize, Fault> {
        match self.bytes.extend_from_slice(piece) {
            Ok(()) => Ok(piece.len()),
            Err(_) => {
                self.faults = self.faults.saturating_add(1);
                Err(Fault)
            }
        }
    }
}
