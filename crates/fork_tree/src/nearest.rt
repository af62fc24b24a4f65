ghost use Rattle.std.specs.Prelude.{◌≡◌, ◌≤◌, ◌<◌, ◌∷◌, ℕ, List, length, map};
ghost use Rattle.fork_model.specs.Trees.{IsTree};
ghost use Rattle.fork_tree.specs.Kept.{AreLinked, IsCut, IsKept, id_at, tree_of};
ghost use Rattle.fork_tree.specs.Nearest.{IsNearest, IsSearch};

use crate::block::Block;
use base_core::Digest;
use std::collections::HashMap;

/// How far the way from a block to the head was gone, in search of the nearest of some blocks.
#[derive(Clone, Copy)]
pub(crate) struct Search {
    /// The place where the way stands.
    at: usize,
    /// No block between that place and this one is on the way.
    reach: usize,
    /// The place of the nearest that was met, and that of the head before one is.
    nearest: usize,
}

/// The place of the nearest of some blocks on the way from the block at a place to the head, and
/// that of the head where none is on the way. Ids in the order in which their blocks were added let
/// the way be gone once.
pub(crate) fn nearest_to(
    blocks: &[Block],
    places: &HashMap<Digest, usize>,
    start: usize,
    ids: &[Digest],
) -> usize
    requires kept { IsKept blocks.now places.now.entries }
    requires within { start < length blocks.now }
    ensures within { result < length blocks.now }
    ensures nearest { IsNearest (tree_of blocks.now) (map (λ id. id.0) ids.now) (id_at blocks.now start) (id_at blocks.now result) }
{
    let mut search = Search {
        at: start,
        reach: start,
        nearest: 0,
    };
    let mut left = ids.len();
    while left > 0 {
        left -= 1;
        search = meet(blocks, places, start, search, &ids[left]);
    }
    search.nearest
}

/// Seeks one block more.
fn meet(
    blocks: &[Block],
    places: &HashMap<Digest, usize>,
    start: usize,
    search: Search,
    id: &Digest,
) -> Search
    requires kept { IsKept blocks.now places.now.entries }
    requires within { start < length blocks.now }
    requires at { search.at < length blocks.now }
    ensures { (met : List (List ℕ)) → IsSearch blocks.now start met search → IsSearch blocks.now start (id.now.0 ∷ met) result }
{
    let Some(place) = places.get(id) else {
        return search;
    };
    let place = *place;
    if place <= search.nearest {
        return search;
    }
    let from = resume(blocks, start, search, place);
    let at = way_back(blocks, from, place);
    if at == place {
        return Search {
            at,
            reach: place,
            nearest: place,
        };
    }
    Search {
        at,
        reach: place,
        nearest: search.nearest,
    }
}

/// The place from which the way goes on to another place: from its start, if it went further.
fn resume(blocks: &[Block], start: usize, search: Search, place: usize) -> usize
    requires within { start < length blocks.now }
    requires at { search.at < length blocks.now }
    ensures within { result < length blocks.now }
    ensures cut { IsCut blocks.now start search.at search.reach → IsCut blocks.now start result place }
{
    let _ = blocks.len();
    if place > search.reach {
        start
    } else {
        search.at
    }
}

/// The place of the first block on the way from one to the head that is not behind another place.
fn way_back(blocks: &[Block], from: usize, place: usize) -> usize
    requires tree { IsTree (tree_of blocks.now) }
    requires linked { AreLinked blocks.now (length blocks.now) }
    requires within { from < length blocks.now }
    ensures within { result < length blocks.now }
    ensures reached { result ≤ place }
    ensures cut { (start : ℕ) → IsCut blocks.now start from place → IsCut blocks.now start result place }
{
    let mut at = from;
    while at > place {
        at = step_back(blocks, at, place);
    }
    at
}

/// One step back on the way: over the jump of a block, if that does not pass the other place, and
/// else to its prev.
fn step_back(blocks: &[Block], at: usize, place: usize) -> usize
    requires tree { IsTree (tree_of blocks.now) }
    requires linked { AreLinked blocks.now (length blocks.now) }
    requires within { at < length blocks.now }
    requires behind { place < at }
    ensures earlier { result < at }
    ensures cut { (start : ℕ) → IsCut blocks.now start at place → IsCut blocks.now start result place }
{
    let links = blocks[at].links;
    if links.jump >= place {
        links.jump
    } else {
        links.before
    }
}
