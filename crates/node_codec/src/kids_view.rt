ghost use Rattle.std.specs.Prelude.{◌≡◌, ◌+◌, ◌*◌, ◌<◌, ◌≤◌, ◌==◌, length, take, drop};
ghost use Rattle.std.specs.Option.{option_map};
ghost use Rattle.byte_model.specs.Node.{child_count, digest_width};
ghost use Rattle.record_model.specs.Records.{bit, bits_below};
ghost use Rattle.node_codec.specs.Children.{children_viewed};

use base_core::{DIGEST_BYTES, Digest};
use std::marker::Model;

/// The children of a branch, read where they stand in its record: a bit for each of the sixteen
/// nibbles, and the digests of those that are there.
#[derive(Debug, Drop)]
pub struct KidsView<'a> {
    bitmap: u16,
    digests: &'a [u8],
}

impl<'a> Model for KidsView<'a> {
    ghost use Rattle.std.specs.Prelude.{◌≡◌, ◌*◌, length};
    ghost use Rattle.byte_model.specs.Node.{digest_width};
    ghost use Rattle.record_model.specs.Records.{bits_below};
    ghost use Rattle.node_codec.specs.Children.{Children, children_code};

    ghost Value = { Children };

    ghost coded = { children_code };

    ghost view = { λ kids. record { bitmap = kids.bitmap; digests = kids.digests.now } };

    ghost invariant = { λ kids. length kids.digests.now ≡ digest_width * bits_below kids.bitmap 16 };
}

impl<'a> KidsView<'a> {
    /// Children by their bitmap and the digests of those that are there.
    pub(crate) fn new(bitmap: u16, digests: &'a [u8]) -> KidsView<'a>
        requires { length digests.now ≡ digest_width * bits_below bitmap 16 }
        ensures { result ≡ record { bitmap = bitmap; digests = digests.now } }
    {
        KidsView { bitmap, digests }
    }

    /// The child at a nibble.
    pub fn get(&self, i: u8) -> Option<Digest>
        requires { i < 16 }
        ensures { option_map (λ digest. digest.0) result ≡ children_viewed self.now i }
    {
        if !has_bit(self.bitmap, i) {
            return None;
        }
        let before = bits_below(self.bitmap, i);
        Some(digest_at(self.digests, before))
    }

    /// How many children there are.
    pub fn count(&self) -> u64
        ensures value { result ≡ child_count (children_viewed self.now) }
        ensures few { result ≤ 16 }
    {
        bit_count(self.bitmap)
    }
}

/// How many bits are set.
pub(crate) fn bit_count(bitmap: u16) -> u64
    ensures value { result ≡ bits_below bitmap 16 }
    ensures few { result ≤ 16 }
{
    bitmap.count_ones() as u64
}

/// Bit i, where bit 0 is the lowest.
fn has_bit(bitmap: u16, i: u8) -> bool
    requires { i < 16 }
    ensures { result ≡ (bit bitmap i == 1) }
{
    bitmap >> i & 1 == 1
}

/// How many bits below bit i are set.
fn bits_below(bitmap: u16, i: u8) -> usize
    requires { i < 16 }
    ensures { result ≡ bits_below bitmap i }
{
    let lower = bitmap & ((1 << i) - 1);
    lower.count_ones() as usize
}

/// The digest that so many others stand before.
fn digest_at(digests: &[u8], before: usize) -> Digest
    requires { digest_width * before + digest_width ≤ length digests.now }
    ensures { result.0 ≡ take digest_width (drop (digest_width * before) digests.now) }
{
    let start = DIGEST_BYTES * before;
    Digest::from_slice(&digests[start..start + DIGEST_BYTES])
}
