ghost use Rattle.std.specs.Prelude.{◌≡◌, IsTrue};
ghost use Rattle.std.specs.Ordering.{nat_cmp};
ghost use Rattle.std.specs.Cmp.Lexicographic.{slice_cmp};
ghost use Rattle.std.specs.FinMap.Entries.{is_sorted};
ghost use Rattle.byte_model.specs.Nibbles.{AreBytes};
ghost use Rattle.base_core.specs.KeptMaps.{refusal_of, shown_entries, shown_map};

use crate::limits::{LONGEST_KEY, LONGEST_VALUE};
use crate::put_error::PutError;
use std::collections::BTreeMap;

/// Why a key with a value is not taken into a map that may have so many keys, if it is not.
pub(crate) fn refusal<V>(
    held: &BTreeMap<Vec<u8>, V>,
    most: u64,
    key: &[u8],
    value: &[u8],
) -> Option<PutError>
    requires { IsTrue (is_sorted (slice_cmp nat_cmp) (shown_entries held.now.entries)) }
    ensures refusal { result ≡ refusal_of (shown_map held.now.entries) most key.now value.now }
    ensures key { AreBytes key.now }
    ensures value { AreBytes value.now }
{
    let key_len = key.len() as u64;
    let value_len = value.len() as u64;
    if key_len > LONGEST_KEY {
        Some(PutError::KeyLong { len: key_len })
    } else if value_len > LONGEST_VALUE {
        Some(PutError::ValueLong { len: value_len })
    } else if held.len() as u64 >= most && !held.contains_key(key) {
        Some(PutError::Full)
    } else {
        None
    }
}
