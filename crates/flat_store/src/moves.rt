ghost use Rattle.std.specs.Prelude.{◌≡◌, ◌+◌, ◌≤◌, ℕ, List, length};
ghost use Rattle.std.specs.List.{AllByRecursion, IsDistinct};
ghost use Rattle.std.specs.Str.{bytes_eq};
ghost use Rattle.std.specs.FinMap.{entries, get, insert, remove};
ghost use Rattle.std.specs.HashMap.{spare};
ghost use Rattle.trie_model.specs.State.{IsPair};
ghost use Rattle.batch_model.specs.Changes.{IsChange, after, after_change, most_changes};
ghost use Rattle.base_core.specs.Bounds.{most_blocks};
ghost use Rattle.flat_store.specs.Flats.{delta_of, laid_over, left_of};
ghost use Rattle.flat_store.specs.Kept.{deltas_of, head_of, keys_along};

use base_core::{Changes, Digest, Text};
use fork_tree::Ids;
use std::collections::HashMap;

/// How many keys the deltas of some blocks change, each delta by itself.
pub(crate) fn keys_in(deltas: &HashMap<Digest, Changes>, ids: &Ids) -> usize
    requires { length ids.now ≤ most_blocks }
    ensures { result ≡ keys_along (deltas_of deltas.now.entries) ids.now }
{
    let mut keys = 0;
    for place in 0..ids.len() {
        keys += keys_under(deltas, &ids.at(place));
    }
    keys
}

/// How many keys the delta of a block changes, if the block has one.
fn keys_under(deltas: &HashMap<Digest, Changes>, id: &Digest) -> usize
    ensures keys { result ≡ length (entries (delta_of (deltas_of deltas.now.entries) id.now.0)) }
    ensures bound { result ≤ most_changes }
{
    match deltas.get(id) {
        Some(changes) => changes.len() as usize,
        None => 0,
    }
}

/// Takes the deltas of some blocks out and lays them over the head's map, one after the other.
pub(crate) fn lay_passed(
    head: &mut HashMap<Vec<u8>, Text>,
    deltas: &mut HashMap<Digest, Changes>,
    passed: &Ids,
)
    requires apart { IsDistinct bytes_eq passed.now }
    requires room { keys_along (deltas_of deltas.old.entries) passed.now ≤ spare head.old }
    requires pairs { AllByRecursion IsPair (entries (head_of head.old.entries)) }
    ensures head { head_of head.new.entries ≡ laid_over (deltas_of deltas.old.entries) passed.now (head_of head.old.entries) }
    ensures deltas { (id : List ℕ) → get (deltas_of deltas.new.entries) id ≡ left_of passed.now id (get (deltas_of deltas.old.entries) id) }
    ensures pairs { AllByRecursion IsPair (entries (head_of head.new.entries)) }
    ensures few { length deltas.new.entries ≤ length deltas.old.entries }
    ensures room { spare deltas.old ≤ spare deltas.new }
{
    for place in 0..passed.len() {
        lay_block(head, deltas, &passed.at(place));
    }
}

/// Takes the delta of a block out, if the block has one, and lays it over the head's map.
fn lay_block(head: &mut HashMap<Vec<u8>, Text>, deltas: &mut HashMap<Digest, Changes>, id: &Digest)
    requires room { length (entries (delta_of (deltas_of deltas.old.entries) id.now.0)) ≤ spare head.old }
    requires pairs { AllByRecursion IsPair (entries (head_of head.old.entries)) }
    ensures head { head_of head.new.entries ≡ after (head_of head.old.entries) (delta_of (deltas_of deltas.old.entries) id.now.0) }
    ensures deltas { deltas_of deltas.new.entries ≡ remove (deltas_of deltas.old.entries) id.now.0 }
    ensures pairs { AllByRecursion IsPair (entries (head_of head.new.entries)) }
    ensures few { length deltas.new.entries ≤ length deltas.old.entries }
    ensures places { spare head.old ≤ spare head.new + length (entries (delta_of (deltas_of deltas.old.entries) id.now.0)) }
    ensures room { spare deltas.old ≤ spare deltas.new }
{
    if let Some(changes) = deltas.remove(id) {
        lay_over(head, changes);
    }
}

/// Lays changes over the head's map. Each key takes one place of the table at most.
fn lay_over(head: &mut HashMap<Vec<u8>, Text>, changes: Changes)
    requires room { length (entries changes.changes) ≤ spare head.old }
    requires pairs { AllByRecursion IsPair (entries (head_of head.old.entries)) }
    ensures head { head_of head.new.entries ≡ after (head_of head.old.entries) changes.changes }
    ensures pairs { AllByRecursion IsPair (entries (head_of head.new.entries)) }
    ensures room { spare head.old ≤ spare head.new + length (entries changes.changes) }
{
    let mut changes = changes;
    while let Some((key, value)) = changes.take_first() {
        lay(head, key, value);
    }
}

fn lay(head: &mut HashMap<Vec<u8>, Text>, key: Text, value: Option<Text>)
    requires room { 1 ≤ spare head.old }
    requires change { IsChange (key, value) }
    requires pairs { AllByRecursion IsPair (entries (head_of head.old.entries)) }
    ensures head { head_of head.new.entries ≡ after_change (head_of head.old.entries) (key, value) }
    ensures pairs { AllByRecursion IsPair (entries (head_of head.new.entries)) }
    ensures room { spare head.old ≤ spare head.new + 1 }
{
    match value {
        Some(value) => put(head, key, value),
        None => {
            head.remove(key.as_slice());
        }
    }
}

fn put(head: &mut HashMap<Vec<u8>, Text>, key: Text, value: Text)
    requires room { 1 ≤ spare head.old }
    ensures head { head_of head.new.entries ≡ insert (head_of head.old.entries) key value }
    ensures room { spare head.old ≤ spare head.new + 1 }
{
    match head.insert(key.into_bytes(), value) {
        Ok(_) => {}
        // There is room.
        Err(_) => unreachable!(),
    }
}

/// Gives up the deltas of some blocks.
pub(crate) fn forget(deltas: &mut HashMap<Digest, Changes>, ids: &Ids)
    ensures deltas { (id : List ℕ) → get (deltas_of deltas.new.entries) id ≡ left_of ids.now id (get (deltas_of deltas.old.entries) id) }
    ensures few { length deltas.new.entries ≤ length deltas.old.entries }
    ensures room { spare deltas.old ≤ spare deltas.new }
{
    for place in 0..ids.len() {
        deltas.remove(&ids.at(place));
    }
}
