ghost use Rattle.std.specs.Prelude.{◌≡◌, ◌≤◌, ◌<◌, map, length, [], Some, None, OnOk, OnErr, IfOk, IfSome, IfNone, IsOkUnless};
ghost use Rattle.std.specs.Option.{option_copied, option_map, unwrap_or};
ghost use Rattle.std.specs.List.{cons_option, slice_get};
ghost use Rattle.std.specs.FinMap.{entries, empty, get};
ghost use Rattle.byte_model.specs.Node.{longest_value};
ghost use Rattle.trie_model.specs.State.{longest_key};
ghost use Rattle.batch_model.specs.Changes.{IsChange, most_changes};
ghost use Rattle.base_core.specs.declared.put_error.PutError.TheVariants.{NoMemory};
ghost use Rattle.base_core.specs.KeptMaps.{shown_entries};
ghost use Rattle.base_core.specs.ChangeMaps.{IsChangeMap, change_refusal, changed};

use crate::put_error::PutError;
use crate::refusal::refusal;
use crate::text::Text;
use std::alloc::{AllocError, Global};
use std::collections::BTreeMap;
use std::marker::Model;

/// A batch of changes: a map from keys to what they become, a value or none, in the order of the
/// keys' bytes. Each key and value is within the limits of a state.
#[derive(Debug, Drop)]
pub struct Changes {
    changes: BTreeMap<Vec<u8>, Option<Text>>,
    most: u64,
}

impl Model for Changes {
    ghost use Rattle.batch_model.specs.Changes.{IsChange, most_changes};
    ghost use Rattle.base_core.specs.KeptMaps.{IsKeptSorted, shown_map};
    ghost use Rattle.base_core.specs.ChangeMaps.{ChangeMap, change_map_code};

    ghost Value = { ChangeMap };

    ghost coded = { change_map_code };

    ghost view = { λ c. record { changes = shown_map c.changes.entries; most = c.most } };

    ghost invariant = { λ c. IsKeptSorted IsChange most_changes c.changes.entries c.most };
}

impl Changes {
    /// No changes yet, and room for those of `most` keys. It takes no memory.
    pub fn new(alloc: Global, most: u64) -> Changes
        requires { most ≤ most_changes }
        ensures changes { result.changes ≡ empty }
        ensures most { result.most ≡ most }
    {
        Changes {
            changes: BTreeMap::new(alloc),
            most,
        }
    }

    /// The key becomes the value, whatever was said of it before.
    pub fn put(&mut self, key: Text, value: Text) -> Result<(), PutError>
        ensures refused { IfSome (change_refusal self.old key (Some value)) (λ error. result ≡ Err error) }
        ensures taken { IfNone (change_refusal self.old key (Some value)) (IsOkUnless result NoMemory) }
        ensures fits { length key ≤ longest_key → length value ≤ longest_value → length (entries self.old.changes) < self.old.most → IsOkUnless result NoMemory }
        ensures ok { OnOk result (self.new ≡ changed self.old key (Some value)) }
        ensures err { OnErr result (self.new ≡ self.old) }
    {
        self.change(key, Some(value))
    }

    /// The key is deleted, whatever was said of it before.
    pub fn remove(&mut self, key: Text) -> Result<(), PutError>
        ensures refused { IfSome (change_refusal self.old key None) (λ error. result ≡ Err error) }
        ensures taken { IfNone (change_refusal self.old key None) (IsOkUnless result NoMemory) }
        ensures fits { length key ≤ longest_key → length (entries self.old.changes) < self.old.most → IsOkUnless result NoMemory }
        ensures ok { OnOk result (self.new ≡ changed self.old key None) }
        ensures err { OnErr result (self.new ≡ self.old) }
    {
        self.change(key, None)
    }

    fn change(&mut self, key: Text, value: Option<Text>) -> Result<(), PutError>
        ensures refused { IfSome (change_refusal self.old key value) (λ error. result ≡ Err error) }
        ensures taken { IfNone (change_refusal self.old key value) (IsOkUnless result NoMemory) }
        ensures ok { OnOk result (self.new ≡ changed self.old key value) }
        ensures err { OnErr result (self.new ≡ self.old) }
    {
        let bytes = bytes_of(&value);
        if let Some(error) = refusal(&self.changes, self.most, key.as_slice(), bytes) {
            return Err(error);
        }
        match self.changes.insert(key.into_bytes(), value) {
            Ok(_) => Ok(()),
            Err(_) => Err(PutError::NoMemory),
        }
    }

    /// How many keys are changed. It takes no memory.
    pub fn len(&self) -> u64
        ensures len { result ≡ length (entries self.now.changes) }
        ensures held { IsChangeMap self.now }
    {
        self.changes.len() as u64
    }

    /// What a key becomes, if it is changed: a value, or none where it is deleted. It takes no
    /// memory.
    pub fn get(&self, key: &[u8]) -> Option<Option<&[u8]>>
        ensures { option_map option_copied result ≡ get self.now.changes key.now }
    {
        match self.changes.get(key) {
            Some(value) => Some(value_of(value)),
            None => None,
        }
    }

    /// Takes the first change out, as key and what it becomes. None is taken where none is left. It
    /// takes no memory.
    pub fn take_first(&mut self) -> Option<(Text, Option<Text>)>
        ensures changes { entries self.old.changes ≡ cons_option result (entries self.new.changes) }
        ensures none { IfNone result (entries self.new.changes ≡ []) }
        ensures held { IfSome result (λ change. IsChange change) }
        ensures most { self.new.most ≡ self.old.most }
    {
        let Some((key, value)) = self.changes.pop_first() else {
            return None;
        };
        Some((Text::from_bytes(key), value))
    }

    /// The change at a place in the order of the keys, as key and what it becomes. Its time grows
    /// with the place: `rows` has all changes at once. It takes no memory.
    pub fn at(&self, place: u64) -> (&[u8], Option<&[u8]>)
        requires { place < length (entries self.now.changes) }
        ensures { slice_get (entries self.now.changes) place ≡ Some (result.0.now, option_copied result.1) }
    {
        change_at(&self.changes, place as usize)
    }

    /// All changes, as key and what it becomes, in the order of the keys.
    pub fn rows(&self, alloc: Global) -> Result<Vec<(&[u8], Option<&[u8]>)>, AllocError>
        ensures rows { IfOk result (λ rows. map (λ row. (row.0.now, option_copied row.1)) rows.items ≡ entries self.now.changes) }
        ensures held { IsChangeMap self.now }
    {
        rows_of(alloc, &self.changes)
    }
}

fn change_at(changes: &BTreeMap<Vec<u8>, Option<Text>>, place: usize) -> (&[u8], Option<&[u8]>)
    requires { place < length changes.now.entries }
    ensures { slice_get (shown_entries changes.now.entries) place ≡ Some (result.0.now, option_copied result.1) }
{
    match changes.iter().nth(place) {
        Some((key, value)) => (key.as_slice(), value_of(value)),
        None => unreachable!(),
    }
}

fn rows_of(
    alloc: Global,
    changes: &BTreeMap<Vec<u8>, Option<Text>>,
) -> Result<Vec<(&[u8], Option<&[u8]>)>, AllocError>
    ensures { IfOk result (λ rows. map (λ row. (row.0.now, option_copied row.1)) rows.items ≡ shown_entries changes.now.entries) }
{
    let mut rows = Vec::with_capacity(alloc, changes.len())?;
    for (key, value) in changes {
        rows.push((key.as_slice(), value_of(value)))?;
    }
    Ok(rows)
}

fn value_of(value: &Option<Text>) -> Option<&[u8]>
    ensures { option_copied result ≡ value.now }
{
    match value {
        Some(value) => Some(value.as_slice()),
        None => None,
    }
}

/// The bytes of a value; of no value there are none.
fn bytes_of(value: &Option<Text>) -> &[u8]
    ensures { result.now ≡ unwrap_or value.now [] }
{
    match value {
        Some(value) => value.as_slice(),
        None => &[],
    }
}
