//! Laws: what the constants and the order of digests mean. A law is proved where its function is: there is nothing to run.

ghost use Rattle.std.specs.Prelude.{◌≡◌, ◌↔◌, true, length};
ghost use Rattle.std.specs.Ordering.{nat_cmp};
ghost use Rattle.std.specs.Cmp.Lexicographic.{slice_cmp};
ghost use Rattle.byte_model.specs.Node.{longest_value};
ghost use Rattle.trie_model.specs.State.{longest_key};
ghost use Rattle.trie_model.specs.Root.{zero_digest};
ghost use Rattle.base_core.specs.Bounds.{most_pairs, most_blocks, most_changes};

use crate::hash::{DIGEST_BYTES, Digest};
use crate::limits::{LONGEST_KEY, LONGEST_VALUE, Limits};

/// The constants are the numbers of the definitions.
pub fn constants_are_those_of_the_definitions()
    ensures key { LONGEST_KEY ≡ longest_key }
    ensures value { LONGEST_VALUE ≡ longest_value }
    ensures limits { Limits.FULL ≡ record { pairs = most_pairs; blocks = most_blocks; changes = most_changes } }
    ensures digest { DIGEST_BYTES ≡ length zero_digest }
    ensures zero { Digest.ZERO.0 ≡ zero_digest }
{}

/// Digests are equal where their bytes are, and stand in the lexicographic order of their bytes, each read as a number from 0 to 255.
pub fn digests_are_ordered_as_bytes()
    ensures equal { (a b : Digest) → (⟦<Digest as PartialEq>⟧.eq a b ≡ true) ↔ (a ≡ b) }
    ensures order { (a b : Digest) → ⟦<Digest as Ord>⟧.cmp a b ≡ slice_cmp nat_cmp a.0 b.0 }
{}
