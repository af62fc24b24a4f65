ghost use Rattle.std.specs.Prelude.{◌≡◌, ◌≤◌, ◌<◌, map, length, Some, OnOk, OnErr, IfOk, IfSome, IfNone, IsOkUnless};
ghost use Rattle.std.specs.Option.{option_copied};
ghost use Rattle.std.specs.List.{slice_get};
ghost use Rattle.std.specs.FinMap.{entries, get, empty};
ghost use Rattle.byte_model.specs.Node.{longest_value};
ghost use Rattle.trie_model.specs.State.{longest_key};
ghost use Rattle.base_core.specs.declared.put_error.PutError.TheVariants.{NoMemory};
ghost use Rattle.base_core.specs.Bounds.{most_pairs};
ghost use Rattle.base_core.specs.KeptMaps.{shown_entries};
ghost use Rattle.base_core.specs.PairMaps.{IsPairMap, laid, refusal};

use crate::put_error::PutError;
use crate::refusal::refusal;
use crate::text::Text;
use std::alloc::{AllocError, Global};
use std::collections::BTreeMap;
use std::marker::Model;

/// The pairs of a state: a map from keys to values, in the order of the keys' bytes. Each key and
/// value is within the limits of a state.
#[derive(Debug, Drop)]
pub struct Pairs {
    pairs: BTreeMap<Vec<u8>, Text>,
    most: u64,
}

impl Model for Pairs {
    ghost use Rattle.trie_model.specs.State.{IsPair};
    ghost use Rattle.base_core.specs.Bounds.{most_pairs};
    ghost use Rattle.base_core.specs.KeptMaps.{IsKeptSorted, shown_map};
    ghost use Rattle.base_core.specs.PairMaps.{PairMap, pair_map_code};

    ghost Value = { PairMap };

    ghost coded = { pair_map_code };

    ghost view = { λ p. record { state = shown_map p.pairs.entries; most = p.most } };

    ghost invariant = { λ p. IsKeptSorted IsPair most_pairs p.pairs.entries p.most };
}

impl Pairs {
    /// No pairs yet, and room for `most`. It takes no memory.
    pub fn new(alloc: Global, most: u64) -> Pairs
        requires { most ≤ most_pairs }
        ensures state { result.state ≡ empty }
        ensures most { result.most ≡ most }
    {
        Pairs {
            pairs: BTreeMap::new(alloc),
            most,
        }
    }

    /// Lays a pair over: a key that is held gets the new value.
    pub fn put(&mut self, key: Text, value: Text) -> Result<(), PutError>
        ensures refused { IfSome (refusal self.old key value) (λ error. result ≡ Err error) }
        ensures taken { IfNone (refusal self.old key value) (IsOkUnless result NoMemory) }
        ensures fits { length key ≤ longest_key → length value ≤ longest_value → length (entries self.old.state) < self.old.most → IsOkUnless result NoMemory }
        ensures ok { OnOk result (self.new ≡ laid self.old key value) }
        ensures err { OnErr result (self.new ≡ self.old) }
    {
        if let Some(error) = refusal(&self.pairs, self.most, key.as_slice(), value.as_slice()) {
            return Err(error);
        }
        match self.pairs.insert(key.into_bytes(), value) {
            Ok(_) => Ok(()),
            Err(_) => Err(PutError::NoMemory),
        }
    }

    /// How many pairs there are. It takes no memory.
    pub fn len(&self) -> u64
        ensures len { result ≡ length (entries self.now.state) }
        ensures held { IsPairMap self.now }
    {
        self.pairs.len() as u64
    }

    /// The value of a key. It takes no memory.
    pub fn get(&self, key: &[u8]) -> Option<&[u8]>
        ensures { option_copied result ≡ get self.now.state key.now }
    {
        match self.pairs.get(key) {
            Some(value) => Some(value.as_slice()),
            None => None,
        }
    }

    /// The pair at a place in the order of the keys, as key and value. Its time grows with the
    /// place: `rows` has all pairs at once. It takes no memory.
    pub fn at(&self, place: u64) -> (&[u8], &[u8])
        requires { place < length (entries self.now.state) }
        ensures { slice_get (entries self.now.state) place ≡ Some (result.0.now, result.1.now) }
    {
        pair_at(&self.pairs, place as usize)
    }

    /// All pairs, as key and value, in the order of the keys.
    pub fn rows(&self, alloc: Global) -> Result<Vec<(&[u8], &[u8])>, AllocError>
        ensures rows { IfOk result (λ rows. map (λ row. (row.0.now, row.1.now)) rows.items ≡ entries self.now.state) }
        ensures held { IsPairMap self.now }
    {
        rows_of(alloc, &self.pairs)
    }
}

fn pair_at(pairs: &BTreeMap<Vec<u8>, Text>, place: usize) -> (&[u8], &[u8])
    requires { place < length pairs.now.entries }
    ensures { slice_get (shown_entries pairs.now.entries) place ≡ Some (result.0.now, result.1.now) }
{
    match pairs.iter().nth(place) {
        Some((key, value)) => (key.as_slice(), value.as_slice()),
        None => unreachable!(),
    }
}

fn rows_of(
    alloc: Global,
    pairs: &BTreeMap<Vec<u8>, Text>,
) -> Result<Vec<(&[u8], &[u8])>, AllocError>
    ensures { IfOk result (λ rows. map (λ row. (row.0.now, row.1.now)) rows.items ≡ shown_entries pairs.now.entries) }
{
    let mut rows = Vec::with_capacity(alloc, pairs.len())?;
    for (key, value) in pairs {
        rows.push((key.as_slice(), value.as_slice()))?;
    }
    Ok(rows)
}
