ghost use Rattle.std.specs.Prelude.{◌≡◌, ◌<◌, ◌≤◌, Bool, List, ℕ, Ok, length, slice_index, IfOk};
ghost use Rattle.byte_model.specs.Nibbles.{AreNibbles};
ghost use Rattle.byte_model.specs.PackedPath.{packed};
ghost use Rattle.record_model.specs.Paths.{path_in};
ghost use Rattle.nibble_keys.specs.Unpacking.{Answers};

use crate::flags::{LEAF_FLAG, ODD_FLAG};
use crate::nibbles::Nibbles;
use crate::pack_error::PackError;
use std::marker::Model;

/// The lower one of the two bits of a first byte that are no flags.
const LOWEST_OTHER_BIT: u8 = 0x40;

/// A path of nibbles, read where it is packed. It takes no memory.
#[derive(Debug, Drop)]
pub struct Packed<'a> {
    path: Nibbles<'a>,
}

impl<'a> Model for Packed<'a> {
    ghost use Rattle.std.specs.Prelude.{ℕ, List};

    ghost Value = { List ℕ };

    ghost view = { λ p. p.path };
}

impl<'a> Packed<'a> {
    /// Reads a packed path, and whether it ends at a leaf.
    #[tactic(auto, unfolding(record_model::specs::Paths::path_in))]
    pub fn read(bytes: &'a [u8]) -> Result<(Packed<'a>, bool), PackError>
        ensures { Answers (λ p. (p.0, p.1)) result (path_in bytes.now) }
    {
        let Some(&first) = bytes.first() else {
            return Err(PackError::Empty);
        };
        if first / LOWEST_OTHER_BIT != 0 {
            return Err(PackError::Flag);
        }
        let is_odd = first / ODD_FLAG % 2 == 1;
        if !is_odd && first % ODD_FLAG != 0 {
            return Err(PackError::Pad);
        }
        let path = Nibbles::new(bytes).rest(if is_odd { 1 } else { 2 });
        Ok((Packed { path }, first / LEAF_FLAG % 2 == 1))
    }

    /// How many nibbles there are.
    pub fn len(&self) -> u64
        ensures { result ≡ length self.now }
    {
        self.path.len()
    }

    /// The nibble at an index, counted from 0.
    pub fn at(&self, i: u64) -> u8
        requires { i < length self.now }
        ensures value { result ≡ slice_index self.now i }
        ensures nibble { result < 16 }
    {
        self.path.at(i)
    }

    /// The path, to be compared with the nibbles of a key.
    pub fn nibbles(&self) -> &Nibbles<'a>
        ensures { result.now ≡ self.now }
    {
        &self.path
    }
}
