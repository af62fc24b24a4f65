ghost use Rattle.std.specs.Prelude.{◌≡◌, ◌<◌, ◌≤◌, length, drop, slice_index};
ghost use Rattle.byte_model.specs.Nibbles.{nibbles};
ghost use Rattle.nibble_keys.specs.CommonLength.{IsCommonLength};

use base_core::LONGEST_KEY;
use std::marker::Model;

/// The most nibbles that a path may have: those of the longest key.
pub const LONGEST_PATH: u64 = 2 * LONGEST_KEY;

/// A key as nibbles, two for each byte and the high one first, from some nibble on. It takes no
/// memory, and all of its lengths and indexes are in nibbles.
#[derive(Debug, Drop)]
pub struct Nibbles<'a> {
    key: &'a [u8],
    start: u64,
}

impl<'a> Model for Nibbles<'a> {
    ghost use Rattle.std.specs.Prelude.{ℕ, ◌*◌, ◌≤◌, List, length, drop};
    ghost use Rattle.byte_model.specs.Nibbles.{nibbles};

    ghost Value = { List ℕ };

    ghost view = { λ path. drop path.start (nibbles path.key.now) };

    ghost invariant = { λ path. path.start ≤ 2 * length path.key.now };
}

impl<'a> Nibbles<'a> {
    /// All nibbles of a key.
    pub fn new(key: &'a [u8]) -> Nibbles<'a>
        ensures { result ≡ nibbles key.now }
    {
        Nibbles { key, start: 0 }
    }

    pub fn len(&self) -> u64
        ensures { result ≡ length self.now }
    {
        2 * self.key.len() as u64 - self.start
    }

    pub fn at(&self, i: u64) -> u8
        requires { i < length self.now }
        ensures value { result ≡ slice_index self.now i }
        ensures nibble { result < 16 }
    {
        let index = self.start + i;
        let byte = self.key[(index / 2) as usize];
        if index % 2 == 0 { byte / 16 } else { byte % 16 }
    }

    /// The nibbles from an index on.
    pub fn rest(&self, from: u64) -> Nibbles<'a>
        requires { from ≤ length self.now }
        ensures { result ≡ drop from self.now }
    {
        Nibbles {
            key: self.key,
            start: self.start + from,
        }
    }

    /// The length of the longest common prefix. It compares bytes where both begin at the same half
    /// of a byte.
    #[inline(always)]
    pub fn common(&self, other: &Nibbles<'_>) -> u64
        ensures { IsCommonLength self.now other.now result }
    {
        let low = self.start % 2;
        if low != other.start % 2 {
            return self.common_by_nibble(other);
        }
        let left = &self.key[self.start.div_ceil(2) as usize..];
        let right = &other.key[other.start.div_ceil(2) as usize..];
        if low == 0 {
            common_of_keys(left, right)
        } else if self.at(0) == other.at(0) {
            1 + common_of_keys(left, right)
        } else {
            0
        }
    }

    fn common_by_nibble(&self, other: &Nibbles<'_>) -> u64
        ensures { IsCommonLength self.now other.now result }
    {
        let mut same = 0;
        while same < self.len() && same < other.len() && self.at(same) == other.at(same) {
            same += 1;
        }
        same
    }
}

/// How many nibbles two keys share from the start on.
fn common_of_keys(left: &[u8], right: &[u8]) -> u64
    ensures { IsCommonLength (nibbles left.now) (nibbles right.now) result }
{
    let same = common_of_bytes(left, right);
    if same < left.len() && same < right.len() && left[same] / 16 == right[same] / 16 {
        2 * same as u64 + 1
    } else {
        2 * same as u64
    }
}

fn common_of_bytes(left: &[u8], right: &[u8]) -> usize
    ensures { IsCommonLength left.now right.now result }
{
    let mut same = 0;
    while same < left.len() && same < right.len() && left[same] == right[same] {
        same += 1;
    }
    same
}
