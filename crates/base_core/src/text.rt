ghost use Rattle.std.specs.Prelude.{◌≡◌, IfOk};
ghost use Rattle.byte_model.specs.Nibbles.{AreBytes};

use std::alloc::{AllocError, Global};
use std::marker::Model;

/// A list of bytes: a key, a value, or the record of a node.
#[derive(Debug, Drop)]
pub struct Text {
    bytes: Vec<u8>,
}

impl Model for Text {
    ghost use Rattle.std.specs.Prelude.{ℕ, List};

    ghost Value = { List ℕ };

    ghost view = { λ text. text.bytes.items };
}

impl Text {
    /// A copy of some bytes.
    pub fn copy(alloc: Global, bytes: &[u8]) -> Result<Text, AllocError>
        ensures copy { IfOk result (λ text. text ≡ bytes.now) }
        ensures bytes { AreBytes bytes.now }
    {
        Ok(Text::from_bytes(Vec::from_slice(alloc, bytes)?))
    }

    /// A text of these bytes. It takes no memory.
    pub fn from_bytes(bytes: Vec<u8>) -> Text
        ensures { result ≡ bytes.items }
    {
        Text { bytes }
    }

    /// Its bytes, given up to the caller. It takes no memory.
    pub fn into_bytes(self) -> Vec<u8>
        ensures { result.items ≡ self }
    {
        self.bytes
    }

    /// The bytes, as they are. It takes no memory.
    pub fn as_slice(&self) -> &[u8]
        ensures { result.now ≡ self.now }
    {
        self.bytes.as_slice()
    }
}
