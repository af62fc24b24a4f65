ghost use Rattle.std.specs.Prelude.{◌≡◌, ◌≤◌, ◌<◌, ℕ, List, length, map, if◌then◌else◌, Some, None, IfOk, OnOk, OnErr, Err, IsSome, true, ◌≢◌};
ghost use Rattle.std.specs.Option.{option_copied, option_or};
ghost use Rattle.std.specs.List.{AllByRecursion};
ghost use Rattle.std.specs.Ordering.{nat_cmp};
ghost use Rattle.std.specs.Cmp.Lexicographic.{slice_cmp};
ghost use Rattle.std.specs.Str.{bytes_eq};
ghost use Rattle.std.specs.FinMap.{empty, entries, find, get, insert};
ghost use Rattle.trie_model.specs.State.{IsPair, State};
ghost use Rattle.batch_model.specs.Changes.{IsChange, after};
ghost use Rattle.fork_model.specs.Trees.{IsTree, is_live, passed};
ghost use Rattle.base_core.specs.Bounds.{most_pairs};
ghost use Rattle.base_core.specs.PairMaps.{laid};
ghost use Rattle.flat_store.specs.Flats.{delta_of, laid_over};
ghost use Rattle.flat_store.specs.Kept.{changes_of, deltas_of, head_of, held, unchanged};

use crate::errors::PairsOverError;
use base_core::{Changes, Digest, Pairs, PutError, Text};
use fork_tree::Forks;
use std::alloc::{AllocError, Global};
use std::collections::HashMap;

/// Notes the changes of all blocks from the head to a live one, of each key the newest, where none
/// is noted that is newer still.
pub(crate) fn note_way(
    alloc: Global,
    newest: &mut HashMap<Vec<u8>, Option<Text>>,
    forks: &Forks,
    deltas: &HashMap<Digest, Changes>,
    id: &Digest,
) -> Result<(), AllocError>
    requires tree { IsTree forks.now.tree }
    requires live { is_live forks.now.tree id.now.0 ≡ true }
    requires changes { AllByRecursion IsChange (entries (changes_of newest.old.entries)) }
    ensures ok { OnOk result ((head : State) → after head (changes_of newest.new.entries) ≡ after (laid_over (deltas_of deltas.now.entries) (passed forks.now.tree id.now.0) head) (changes_of newest.old.entries)) }
    ensures changes { OnOk result (AllByRecursion IsChange (entries (changes_of newest.new.entries))) }
{
    let mut at = *id;
    while let Some(prev) = forks.prev_of(&at) {
        note_block(alloc, newest, deltas, &at)?;
        at = prev;
    }
    Ok(())
}

/// Notes the delta of a block, if the block has one.
fn note_block(
    alloc: Global,
    newest: &mut HashMap<Vec<u8>, Option<Text>>,
    deltas: &HashMap<Digest, Changes>,
    id: &Digest,
) -> Result<(), AllocError>
    requires changes { AllByRecursion IsChange (entries (changes_of newest.old.entries)) }
    ensures ok { OnOk result ((state : State) → after state (changes_of newest.new.entries) ≡ after (after state (delta_of (deltas_of deltas.now.entries) id.now.0)) (changes_of newest.old.entries)) }
    ensures changes { OnOk result (AllByRecursion IsChange (entries (changes_of newest.new.entries))) }
{
    match deltas.get(id) {
        Some(changes) => note(alloc, newest, changes),
        None => Ok(()),
    }
}

/// Notes changes that are older than those noted.
pub(crate) fn note(
    alloc: Global,
    newest: &mut HashMap<Vec<u8>, Option<Text>>,
    changes: &Changes,
) -> Result<(), AllocError>
    requires changes { AllByRecursion IsChange (entries (changes_of newest.old.entries)) }
    ensures ok { OnOk result ((state : State) → after state (changes_of newest.new.entries) ≡ after (after state changes.now.changes) (changes_of newest.old.entries)) }
    ensures changes { OnOk result (AllByRecursion IsChange (entries (changes_of newest.new.entries))) }
{
    let rows = changes.rows(alloc)?;
    note_rows(alloc, newest, rows.as_slice())
}

fn note_rows(
    alloc: Global,
    newest: &mut HashMap<Vec<u8>, Option<Text>>,
    rows: &[(&[u8], Option<&[u8]>)],
) -> Result<(), AllocError>
    ensures { OnOk result ((key : List ℕ) → get (changes_of newest.new.entries) key ≡ option_or (get (changes_of newest.old.entries) key) (find (slice_cmp nat_cmp) key (map (λ row. (row.0.now, option_copied row.1)) rows.now))) }
{
    for row in rows {
        let (key, value) = *row;
        note_row(alloc, newest, key, value)?;
    }
    Ok(())
}

/// Notes what a key becomes, if nothing is noted of it.
fn note_row(
    alloc: Global,
    newest: &mut HashMap<Vec<u8>, Option<Text>>,
    key: &[u8],
    value: Option<&[u8]>,
) -> Result<(), AllocError>
    ensures { OnOk result ((other : List ℕ) → get (changes_of newest.new.entries) other ≡ option_or (get (changes_of newest.old.entries) other) (if bytes_eq other key.now then Some (option_copied value.entry) else None)) }
{
    if newest.contains_key(key) {
        return Ok(());
    }
    put_copy(alloc, newest, key, value)
}

fn put_copy(
    alloc: Global,
    newest: &mut HashMap<Vec<u8>, Option<Text>>,
    key: &[u8],
    value: Option<&[u8]>,
) -> Result<(), AllocError>
    ensures ok { OnOk result (changes_of newest.new.entries ≡ insert (changes_of newest.old.entries) key.now (option_copied value.entry)) }
    ensures err { OnErr result (changes_of newest.new.entries ≡ changes_of newest.old.entries) }
{
    let value = copy_of(alloc, value)?;
    match newest.insert(Vec::from_slice(alloc, key)?, value) {
        Ok(_) => Ok(()),
        Err(_) => Err(AllocError),
    }
}

fn copy_of(alloc: Global, value: Option<&[u8]>) -> Result<Option<Text>, AllocError>
    ensures { IfOk result (λ copy. copy ≡ option_copied value.entry) }
{
    match value {
        Some(value) => Ok(Some(Text::copy(alloc, value)?)),
        None => Ok(None),
    }
}

/// The head's map with changes laid over, if it has at most so many pairs.
pub(crate) fn pairs_of(
    alloc: Global,
    head: &HashMap<Vec<u8>, Text>,
    newest: HashMap<Vec<u8>, Option<Text>>,
    most: u64,
) -> Result<Pairs, PairsOverError>
    requires most { most ≤ most_pairs }
    requires pairs { AllByRecursion IsPair (entries (head_of head.now.entries)) }
    requires changes { AllByRecursion IsChange (entries (changes_of newest.entries)) }
    ensures pairs { IfOk result (λ pairs. pairs.state ≡ after (head_of head.now.entries) (changes_of newest.entries)) }
    ensures fits { IfOk result (λ pairs. length (entries pairs.state) ≤ most) }
    ensures full { (result ≡ Err PairsOverError.Full) → most < length (entries (after (head_of head.now.entries) (changes_of newest.entries))) }
    ensures live { result ≢ Err PairsOverError.NotLive }
{
    let mut pairs = Pairs::new(alloc, most);
    put_unchanged(alloc, &mut pairs, head, &newest)?;
    put_changed(&mut pairs, newest)?;
    let _ = pairs.len();
    Ok(pairs)
}

/// Puts copies of the pairs in whose keys are not changed.
fn put_unchanged(
    alloc: Global,
    pairs: &mut Pairs,
    head: &HashMap<Vec<u8>, Text>,
    newest: &HashMap<Vec<u8>, Option<Text>>,
) -> Result<(), PairsOverError>
    requires pairs { AllByRecursion IsPair (entries (head_of head.now.entries)) }
    requires none { pairs.old.state ≡ empty }
    ensures ok { OnOk result (pairs.new.state ≡ unchanged head.now.entries newest.now.entries) }
    ensures full { (result ≡ Err PairsOverError.Full) → pairs.old.most < length (entries (unchanged head.now.entries newest.now.entries)) }
    ensures live { result ≢ Err PairsOverError.NotLive }
    ensures most { pairs.new.most ≡ pairs.old.most }
{
    for (key, value) in head {
        if newest.contains_key(key) {
            continue;
        }
        let key = Text::copy(alloc, key.as_slice())?;
        let value = Text::copy(alloc, value.as_slice())?;
        put(pairs, key, value)?;
    }
    Ok(())
}

/// Puts what changed keys become, where none of them is there.
fn put_changed(
    pairs: &mut Pairs,
    newest: HashMap<Vec<u8>, Option<Text>>,
) -> Result<(), PairsOverError>
    requires changes { AllByRecursion IsChange (entries (changes_of newest.entries)) }
    requires new { (key : List ℕ) → IsSome (held newest.entries key) → get pairs.old.state key ≡ None }
    ensures ok { OnOk result (pairs.new.state ≡ after pairs.old.state (changes_of newest.entries)) }
    ensures full { (result ≡ Err PairsOverError.Full) → pairs.old.most < length (entries (after pairs.old.state (changes_of newest.entries))) }
    ensures live { result ≢ Err PairsOverError.NotLive }
    ensures most { pairs.new.most ≡ pairs.old.most }
{
    for (key, value) in newest {
        let Some(value) = value else { continue };
        put(pairs, Text::from_bytes(key), value)?;
    }
    Ok(())
}

/// Puts a pair that is within the limits.
fn put(pairs: &mut Pairs, key: Text, value: Text) -> Result<(), PairsOverError>
    requires pair { IsPair (key, value) }
    ensures ok { OnOk result (pairs.new ≡ laid pairs.old key value) }
    ensures full { (result ≡ Err PairsOverError.Full) → (pairs.old.most ≤ length (entries pairs.old.state)) × (get pairs.old.state key ≡ None) }
    ensures live { result ≢ Err PairsOverError.NotLive }
    ensures err { OnErr result (pairs.new ≡ pairs.old) }
{
    match pairs.put(key, value) {
        Ok(()) => Ok(()),
        Err(PutError::Full) => Err(PairsOverError::Full),
        Err(PutError::NoMemory) => Err(PairsOverError::NoMemory),
        // The pair is within the limits.
        Err(PutError::KeyLong { .. }) => unreachable!(),
        Err(PutError::ValueLong { .. }) => unreachable!(),
    }
}
