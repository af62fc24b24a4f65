ghost use Rattle.std.specs.Prelude.{◌≡◌, ◌+◌, ◌^◌, ◌<◌, ◌++◌, [], length, IfOk, OnOk, OnErr};
ghost use Rattle.byte_model.specs.Borsh.{borsh_u8, borsh_u16, borsh_u32, borsh_u64, borsh_bytes};

use crate::text::Text;
use std::alloc::{AllocError, Global};
use std::marker::Model;

/// Writes a record field by field, as Borsh 1.0 spells it. Where a call finds no memory, nothing
/// was written by it.
#[derive(Debug, Drop)]
pub struct Writer {
    bytes: Vec<u8>,
}

impl Model for Writer {
    ghost use Rattle.std.specs.Prelude.{ℕ, List};

    ghost Value = { List ℕ };

    ghost view = { λ writer. writer.bytes.items };
}

impl Writer {
    /// Nothing is written yet. It takes no memory.
    pub fn new(alloc: Global) -> Writer
        ensures { result ≡ [] }
    {
        Writer {
            bytes: Vec::new(alloc),
        }
    }

    /// Nothing is written yet, and there is room for so many bytes.
    pub fn with_capacity(alloc: Global, bytes: usize) -> Result<Writer, AllocError>
        ensures { IfOk result (λ writer. writer ≡ []) }
    {
        Ok(Writer {
            bytes: Vec::with_capacity(alloc, bytes)?,
        })
    }

    pub fn put_u8(&mut self, v: u8) -> Result<(), AllocError>
        ensures ok { OnOk result (self.new ≡ self.old ++ borsh_u8 v) }
        ensures err { OnErr result (self.new ≡ self.old) }
    {
        self.bytes.push(v)?;
        Ok(())
    }

    #[tactic(auto, unfolding(byte_model::specs::Borsh::borsh_u16))]
    pub fn put_u16(&mut self, v: u16) -> Result<(), AllocError>
        ensures ok { OnOk result (self.new ≡ self.old ++ borsh_u16 v) }
        ensures err { OnErr result (self.new ≡ self.old) }
    {
        self.put_raw(&v.to_le_bytes())
    }

    #[tactic(auto, unfolding(byte_model::specs::Borsh::borsh_u32))]
    pub fn put_u32(&mut self, v: u32) -> Result<(), AllocError>
        ensures ok { OnOk result (self.new ≡ self.old ++ borsh_u32 v) }
        ensures err { OnErr result (self.new ≡ self.old) }
    {
        self.put_raw(&v.to_le_bytes())
    }

    #[tactic(auto, unfolding(byte_model::specs::Borsh::borsh_u64))]
    pub fn put_u64(&mut self, v: u64) -> Result<(), AllocError>
        ensures ok { OnOk result (self.new ≡ self.old ++ borsh_u64 v) }
        ensures err { OnErr result (self.new ≡ self.old) }
    {
        self.put_raw(&v.to_le_bytes())
    }

    /// A vector of bytes: four bytes of length, and the bytes.
    #[tactic(auto, unfolding(byte_model::specs::Borsh::borsh_u32))]
    pub fn put_bytes(&mut self, b: &[u8]) -> Result<(), AllocError>
        requires { length b.now < 2 ^ 32 }
        ensures ok { OnOk result (self.new ≡ self.old ++ borsh_bytes b.now) }
        ensures err { OnErr result (self.new ≡ self.old) }
    {
        let length = (b.len() as u32).to_le_bytes();
        self.bytes.reserve(4 + b.len())?;
        self.bytes.extend_from_slice(&length)?;
        self.bytes.extend_from_slice(b)
    }

    /// The bytes themselves, with no length before them.
    pub fn put_raw(&mut self, b: &[u8]) -> Result<(), AllocError>
        ensures ok { OnOk result (self.new ≡ self.old ++ b.now) }
        ensures err { OnErr result (self.new ≡ self.old) }
    {
        self.bytes.extend_from_slice(b)
    }

    /// What was written.
    pub fn into_text(self) -> Text
        ensures { result ≡ self }
    {
        Text::from_bytes(self.bytes)
    }
}
