ghost use Rattle.std.specs.Prelude.{◌≡◌, ◌≤◌, ℕ, List, None, Some, map, EachIndex, vec_capacity, vec_len, is_some, if◌then◌else◌, ◌&&◌};
ghost use Rattle.std.specs.Option.{option_or};
ghost use Rattle.std.specs.Str.{bytes_eq};
ghost use Rattle.std.specs.List.{filter};
ghost use Rattle.std.specs.HashMap.{spare};
ghost use Rattle.fork_model.specs.Trees.{is_among};
ghost use Rattle.fork_tree.specs.Kept.{headers, id_at, left, place_of, placed};

use crate::block::Block;
use base_core::Digest;
use std::collections::HashMap;

/// Takes the old head, the blocks before the new one and those that are dropped from the table.
pub(crate) fn forget_all(
    places: &mut HashMap<Digest, usize>,
    head: &Digest,
    before: &[Digest],
    dropped: &[Digest],
)
    ensures places { (q : List ℕ) → placed places.new.entries q ≡ left head.now.0 (map (λ id. id.0) before.now) (map (λ id. id.0) dropped.now) q (placed places.old.entries q) }
    ensures room { spare places.old ≤ spare places.new }
{
    places.remove(head);
    forget(places, before);
    forget(places, dropped);
}

/// Takes ids from the table.
fn forget(places: &mut HashMap<Digest, usize>, ids: &[Digest])
    ensures places { (q : List ℕ) → placed places.new.entries q ≡ (if is_among q (map (λ id. id.0) ids.now) then None else placed places.old.entries q) }
    ensures room { spare places.old ≤ spare places.new }
{
    for id in ids {
        places.remove(id);
    }
}

/// Keeps the blocks whose ids are in the table.
pub(crate) fn keep_placed(blocks: &mut Vec<Block>, places: &HashMap<Digest, usize>)
    ensures items { blocks.new.items ≡ filter (λ block. is_some (placed places.now.entries block.id.0)) blocks.old.items }
    ensures capacity { vec_capacity blocks.new ≡ vec_capacity blocks.old }
    ensures bound { vec_len blocks.new ≤ vec_len blocks.old }
{
    blocks.retain(|block| places.contains_key(&block.id));
}

/// Writes the place of each block over the one that the table has.
pub(crate) fn put_places(places: &mut HashMap<Digest, usize>, blocks: &[Block])
    requires apart { EachIndex blocks.now (λ i. place_of (headers blocks.now) (id_at blocks.now i) ≡ Some i) }
    ensures places { (q : List ℕ) → placed places.new.entries q ≡ (if is_some (placed places.old.entries q) then option_or (place_of (headers blocks.now) q) (placed places.old.entries q) else None) }
    ensures room { spare places.old ≤ spare places.new }
{
    for (place, block) in blocks.iter().enumerate() {
        put_place(places, &block.id, place);
    }
}

/// Writes a place over the one that the table has under an id, if it has one.
fn put_place(places: &mut HashMap<Digest, usize>, id: &Digest, place: usize)
    ensures places { (q : List ℕ) → placed places.new.entries q ≡ (if is_some (placed places.old.entries q) && bytes_eq id.now.0 q then Some place else placed places.old.entries q) }
    ensures room { spare places.old ≤ spare places.new }
{
    if let Some(held) = places.get_mut(id) {
        *held = place;
    }
}
