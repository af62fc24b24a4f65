ghost use Rattle.std.specs.Prelude.{◌≡◌, ◌||◌, ℕ, List, map, true, false, is_some, None, OnOk};
ghost use Rattle.std.specs.Option.{option_copied};
ghost use Rattle.std.specs.List.{AllByRecursion, list_any};
ghost use Rattle.std.specs.Ordering.{nat_cmp};
ghost use Rattle.std.specs.Cmp.Lexicographic.{slice_cmp};
ghost use Rattle.std.specs.FinMap.{find, get};
ghost use Rattle.fork_model.specs.Trees.{IsTree, is_among, is_live, passed};
ghost use Rattle.flat_store.specs.Kept.{AreListed, IsClear, StayListed, change_at, deltas_of, ids_in, is_newest, listed_at};

use base_core::{Changes, Digest};
use fork_tree::Forks;
use std::alloc::{AllocError, Global};
use std::collections::HashMap;

/// The blocks that are listed under a key.
pub(crate) fn listed<'l>(lists: &'l HashMap<Vec<u8>, Vec<Digest>>, key: &[u8]) -> &'l [Digest]
    ensures { ids_in result.now ≡ listed_at lists.now.entries key.now }
{
    match lists.get(key) {
        Some(ids) => ids.as_slice(),
        None => &[],
    }
}

/// Whether the newest block changes a key.
fn waits(newest: Option<Digest>, deltas: &HashMap<Digest, Changes>, key: &[u8]) -> bool
    ensures { result ≡ false → (id : List ℕ) → is_newest newest id ≡ true → is_some (change_at (deltas_of deltas.now.entries) id key.now) ≡ false }
{
    let Some(newest) = newest else {
        return false;
    };
    match deltas.get(&newest) {
        Some(changes) => changes.get(key).is_some(),
        None => false,
    }
}

/// Whether the newest block changes a key and is on the way from a live one to the head.
pub(crate) fn waits_on_way(
    forks: &Forks,
    newest: Option<Digest>,
    deltas: &HashMap<Digest, Changes>,
    id: &Digest,
    key: &[u8],
) -> bool
    requires tree { IsTree forks.now.tree }
    requires live { is_live forks.now.tree id.now.0 ≡ true }
    ensures { result ≡ false → AllByRecursion (IsClear newest (deltas_of deltas.now.entries) key.now) (passed forks.now.tree id.now.0) }
{
    if !waits(newest, deltas, key) {
        return false;
    }
    match newest {
        Some(newest) => forks.nearest(id, &[newest]) == newest,
        None => false,
    }
}

/// Lists the newest block, if it is not listed yet.
pub(crate) fn settle(
    alloc: Global,
    lists: &mut HashMap<Vec<u8>, Vec<Digest>>,
    deltas: &HashMap<Digest, Changes>,
    newest: Option<Digest>,
) -> Result<(), AllocError>
    ensures stay { AreListed newest (deltas_of deltas.now.entries) lists.old.entries → AreListed newest (deltas_of deltas.now.entries) lists.new.entries }
    ensures ok { OnOk result (AreListed newest (deltas_of deltas.now.entries) lists.old.entries → AreListed None (deltas_of deltas.now.entries) lists.new.entries) }
{
    match newest {
        Some(newest) => list(alloc, lists, deltas, &newest),
        None => Ok(()),
    }
}

/// Lists a block under each key that its delta changes.
fn list(
    alloc: Global,
    lists: &mut HashMap<Vec<u8>, Vec<Digest>>,
    deltas: &HashMap<Digest, Changes>,
    id: &Digest,
) -> Result<(), AllocError>
    ensures stay { StayListed (deltas_of deltas.now.entries) lists.old.entries lists.new.entries }
    ensures ok { OnOk result ((key : List ℕ) → is_some (change_at (deltas_of deltas.now.entries) id.now.0 key) ≡ true → is_among id.now.0 (listed_at lists.new.entries key) ≡ true) }
{
    let Some(changes) = deltas.get(id) else {
        return Ok(());
    };
    let rows = changes.rows(alloc)?;
    list_rows(alloc, lists, deltas, id, rows.as_slice())
}

fn list_rows(
    alloc: Global,
    lists: &mut HashMap<Vec<u8>, Vec<Digest>>,
    deltas: &HashMap<Digest, Changes>,
    id: &Digest,
    rows: &[(&[u8], Option<&[u8]>)],
) -> Result<(), AllocError>
    requires { is_some (get (deltas_of deltas.now.entries) id.now.0) ≡ true }
    ensures stay { StayListed (deltas_of deltas.now.entries) lists.old.entries lists.new.entries }
    ensures ok { OnOk result ((key : List ℕ) → is_some (find (slice_cmp nat_cmp) key (map (λ row. (row.0.now, option_copied row.1)) rows.now)) ≡ true → is_among id.now.0 (listed_at lists.new.entries key) ≡ true) }
{
    for row in rows {
        let (key, _) = *row;
        list_key(alloc, lists, deltas, id, key)?;
    }
    Ok(())
}

fn list_key(
    alloc: Global,
    lists: &mut HashMap<Vec<u8>, Vec<Digest>>,
    deltas: &HashMap<Digest, Changes>,
    id: &Digest,
    key: &[u8],
) -> Result<(), AllocError>
    ensures stay { StayListed (deltas_of deltas.now.entries) lists.old.entries lists.new.entries }
    ensures ok { OnOk result (is_among id.now.0 (listed_at lists.new.entries key.now) ≡ true) }
{
    if let Some(ids) = lists.get_mut(key) {
        return push(ids, deltas, id);
    }
    let mut ids = Vec::with_capacity(alloc, 1)?;
    ids.push(*id)?;
    match lists.insert(Vec::from_slice(alloc, key)?, ids) {
        Ok(_) => Ok(()),
        Err(_) => Err(AllocError),
    }
}

/// Puts an id behind others.
fn push(
    ids: &mut Vec<Digest>,
    deltas: &HashMap<Digest, Changes>,
    id: &Digest,
) -> Result<(), AllocError>
    ensures stay { (q : List ℕ) → is_some (get (deltas_of deltas.now.entries) q) ≡ true → is_among q (ids_in ids.old.items) ≡ true → is_among q (ids_in ids.new.items) ≡ true }
    ensures ok { OnOk result (is_among id.now.0 (ids_in ids.new.items) ≡ true) }
{
    make_room(ids, deltas)?;
    ids.push(*id)?;
    Ok(())
}

/// Where there is no room for one more, takes ids without a delta out, and makes room for as many as
/// are left, so that this is not done again soon.
fn make_room(ids: &mut Vec<Digest>, deltas: &HashMap<Digest, Changes>) -> Result<(), AllocError>
    ensures { (q : List ℕ) → is_some (get (deltas_of deltas.now.entries) q) ≡ true → is_among q (ids_in ids.old.items) ≡ true → is_among q (ids_in ids.new.items) ≡ true }
{
    if ids.len() < ids.capacity() {
        return Ok(());
    }
    ids.retain(|id| deltas.contains_key(id));
    ids.reserve(ids.len())
}

/// Takes the keys out under which no block with a delta is listed, once there are twice as many
/// lists as the last time, and answers how many lists there were then.
pub(crate) fn sweep(
    lists: &mut HashMap<Vec<u8>, Vec<Digest>>,
    deltas: &HashMap<Digest, Changes>,
    swept: usize,
) -> usize
    ensures { StayListed (deltas_of deltas.now.entries) lists.old.entries lists.new.entries }
{
    if lists.len() / 2 < swept {
        return swept;
    }
    lists.retain(|_, ids| any_held(ids.as_slice(), deltas));
    lists.len()
}

/// Whether one of some blocks has a delta.
fn any_held(ids: &[Digest], deltas: &HashMap<Digest, Changes>) -> bool
    ensures { result ≡ list_any (λ id. is_some (get (deltas_of deltas.now.entries) id)) (ids_in ids.now) }
{
    for id in ids {
        if deltas.contains_key(id) {
            return true;
        }
    }
    false
}
