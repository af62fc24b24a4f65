ghost use Rattle.std.specs.Prelude.{◌≡◌, ◌+◌, ◌^◌, ◌<◌, length, IfOk};
ghost use Rattle.std.specs.Int.{w8, w16, w32, w64};
ghost use Rattle.record_model.specs.Fields.{start_of, bytes_at, number_at, vector_at, end_of};
ghost use Rattle.base_core.specs.Reading.{Reads, Answers};

use crate::borsh_error::BorshError;
use crate::hash::{DIGEST_BYTES, Digest};
use std::marker::Model;

/// Reads a record field by field, as Borsh 1.0 spells it. It borrows the record, copies nothing but
/// integers and digests, and takes no memory. A refused call leaves it where it was.
#[derive(Debug, Drop)]
pub struct Reader<'a> {
    left: &'a [u8],
    place: u64,
}

impl<'a> Model for Reader<'a> {
    ghost use Rattle.std.specs.Prelude.{◌+◌, ◌^◌, ◌<◌, length};
    ghost use Rattle.record_model.specs.Fields.{Cursor};
    ghost use Rattle.base_core.specs.Reading.{cursor_code};

    ghost Value = { Cursor };

    ghost coded = { cursor_code };

    ghost view = { λ r. record { at = r.place; left = r.left.now } };

    ghost invariant = { λ r. r.place + length r.left.now < 2 ^ 63 };
}

impl<'a> Reader<'a> {
    /// At the first byte.
    pub fn new(bytes: &'a [u8]) -> Reader<'a>
        ensures { result ≡ start_of bytes.now }
    {
        Reader {
            left: bytes,
            place: 0,
        }
    }

    /// A second reader at the same place. It takes no memory.
    pub fn fork(&self) -> Reader<'a>
        ensures { result ≡ self.now }
    {
        Reader {
            left: self.left,
            place: self.place,
        }
    }

    /// How many bytes were read.
    pub fn place(&self) -> u64
        ensures { result ≡ self.now.at }
    {
        self.place
    }

    /// How many bytes are left.
    pub fn left(&self) -> u64
        ensures left { result ≡ length self.now.left }
        ensures within { self.now.at + result < 2 ^ 63 }
    {
        self.left.len() as u64
    }

    /// An integer of one byte.
    #[tactic(auto, unfolding(record_model::specs::Fields::number_at))]
    pub fn u8(&mut self) -> Result<u8, BorshError>
        ensures { Reads (λ n. n) result self.old self.new (number_at w8) }
    {
        let bytes = self.take(1)?;
        Ok(bytes[0])
    }

    /// An integer of two bytes, the lowest first.
    #[tactic(auto, unfolding(record_model::specs::Fields::number_at))]
    pub fn u16(&mut self) -> Result<u16, BorshError>
        ensures { Reads (λ n. n) result self.old self.new (number_at w16) }
    {
        let bytes = self.take(2)?;
        Ok(u16::from_le_bytes([bytes[0], bytes[1]]))
    }

    /// An integer of four bytes, the lowest first.
    #[tactic(auto, unfolding(record_model::specs::Fields::number_at))]
    pub fn u32(&mut self) -> Result<u32, BorshError>
        ensures { Reads (λ n. n) result self.old self.new (number_at w32) }
    {
        let bytes = self.take(4)?;
        Ok(u32::from_le_bytes([bytes[0], bytes[1], bytes[2], bytes[3]]))
    }

    /// An integer of eight bytes, the lowest first.
    #[tactic(auto, unfolding(record_model::specs::Fields::number_at))]
    pub fn u64(&mut self) -> Result<u64, BorshError>
        ensures { Reads (λ n. n) result self.old self.new (number_at w64) }
    {
        let bytes = self.take(8)?;
        Ok(u64::from_le_bytes([
            bytes[0], bytes[1], bytes[2], bytes[3], bytes[4], bytes[5], bytes[6], bytes[7],
        ]))
    }

    /// A digest of 32 bytes.
    pub fn digest(&mut self) -> Result<Digest, BorshError>
        ensures { Reads (λ digest. digest.0) result self.old self.new (bytes_at 32) }
    {
        Ok(Digest::from_slice(self.take(DIGEST_BYTES as u64)?))
    }

    /// The next `n` bytes.
    #[tactic(auto, unfolding(record_model::specs::Fields::bytes_at))]
    pub fn take(&mut self, n: u64) -> Result<&'a [u8], BorshError>
        ensures read { Reads (λ bytes. bytes.now) result self.old self.new (bytes_at n) }
        ensures length { IfOk result (λ bytes. length bytes.now ≡ n) }
    {
        if (self.left.len() as u64) < n {
            return Err(BorshError::Short { at: self.place });
        }
        let (bytes, left) = self.left.split_at(n as usize);
        self.left = left;
        self.place += n;
        Ok(bytes)
    }

    /// A vector of bytes: four bytes of length, and the bytes.
    #[tactic(auto, unfolding(record_model::specs::Fields::vector_at))]
    pub fn bytes(&mut self) -> Result<&'a [u8], BorshError>
        ensures { Reads (λ bytes. bytes.now) result self.old self.new vector_at }
    {
        let left = self.left;
        let place = self.place;
        let count = self.u32()?;
        match self.take(count as u64) {
            Ok(bytes) => Ok(bytes),
            Err(error) => {
                self.left = left;
                self.place = place;
                Err(error)
            }
        }
    }

    /// Nothing is left.
    #[tactic(auto, unfolding(record_model::specs::Fields::end_of))]
    pub fn end(&self) -> Result<(), BorshError>
        ensures { Answers (λ x. x) result (end_of tt self.now) }
    {
        if self.left.is_empty() {
            Ok(())
        } else {
            Err(BorshError::Rest { at: self.place })
        }
    }
}
