ghost use Rattle.std.specs.Prelude.{◌≡◌, ◌∷◌, [], length};
ghost use Rattle.std.proofs.Common.{ap, rules};
ghost use Rattle.std.specs.Cmp.{partial_order_from_own_ties};
ghost use Rattle.std.specs.Cmp.Lexicographic.{bytes_decides, slice_cmp};
ghost use Rattle.std.specs.Cmp.Rules.{comparing};
ghost use Rattle.std.specs.Ordering.{nat_cmp, on, as_partial_cmp};
ghost use Rattle.hex.specs.Hex.{encode_lower};

use std::cmp::Ordering;
use std::hash::{Hash, Hasher};

/// How many bytes a digest has.
pub const DIGEST_BYTES: usize = 32;

/// The SHA-256 (FIPS 180-4) of a text, by which the text is named. Digests are ordered as bytes.
#[derive(Clone, Copy, Debug, PartialEq, Eq)]
pub struct Digest(pub [u8; DIGEST_BYTES]);

impl Digest {
    /// The root of the empty state. No text is named by it.
    pub const ZERO: Digest = Digest([0; DIGEST_BYTES]);

    /// The digest that has these bytes.
    pub fn from_slice(bytes: &[u8]) -> Digest
        requires { length bytes.now ≡ DIGEST_BYTES }
        ensures { result.0 ≡ bytes.now }
    {
        let mut digest = Digest::ZERO;
        digest.0.copy_from_slice(bytes);
        digest
    }

    /// Writes the 64 lower case hexadecimal digits.
    pub fn to_hex_into(&self, out: &mut [u8; 64])
        ensures { out.new ≡ encode_lower self.now.0 }
    {
        let _ = hex::encode_to_slice(&self.0, out);
    }
}

impl Ord for Digest {
    ghost cmp = { on (λ d. d.0) (slice_cmp nat_cmp) };

    ghost total = { Prim.search (comparing, rules) };

    ghost matches_partial_cmp = { Prim.search (comparing, rules) };

    ghost matches_eq = { Prim.search (comparing, rules) };

    fn cmp(&self, other: &Digest) -> Ordering {
        self.0.cmp(&other.0)
    }
}

impl PartialOrd for Digest {
    ghost partial_cmp = { as_partial_cmp (on (λ d. d.0) (slice_cmp nat_cmp)) };

    ghost laws = { partial_order_from_own_ties (Prim.search (comparing, rules)) (Prim.search (comparing, rules)) };

    fn partial_cmp(&self, other: &Digest) -> Option<Ordering> {
        Some(self.cmp(other))
    }
}

impl Hash for Digest {
    ghost hash_input = { λ d. d.0 ∷ [] };

    ghost respects_eq = { λ a b same. ap (λ bytes. bytes ∷ []) ((bytes_decides a.0 b.0).0 same) };

    /// All bytes in one write, which is a tenth of the work of a write for each.
    fn hash<H: Hasher>(&self, state: &mut H) {
        state.write(&self.0);
    }
}
