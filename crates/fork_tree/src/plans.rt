ghost use Rattle.std.specs.Prelude.{◌≡◌, ◌<◌, ◌↔◌, length, map, IfOk, IsTrue, Some};
ghost use Rattle.std.specs.List.{slice_get};
ghost use Rattle.fork_model.specs.Trees.{IsTree, dropped, is_live, line};
ghost use Rattle.fork_tree.specs.Kept.{AreLinked, id_at, prev_at, tree_of};

use crate::block::Block;
use base_core::Digest;
use std::alloc::{AllocError, Global};

/// The blocks from the head to the one at a place, in order.
pub(crate) fn line_to(
    alloc: Global,
    blocks: &[Block],
    place: usize,
) -> Result<Vec<Digest>, AllocError>
    requires tree { IsTree (tree_of blocks.now) }
    requires linked { AreLinked blocks.now (length blocks.now) }
    requires within { place < length blocks.now }
    ensures { IfOk result (λ ids. map (λ id. id.0) ids.items ≡ line (tree_of blocks.now) (id_at blocks.now place)) }
{
    let mut ids = Vec::new(alloc);
    let mut at = place;
    while at > 0 {
        ids.push(blocks[at].id)?;
        at = place_before(blocks, at);
    }
    ids.push(blocks[0].id)?;
    ids.reverse();
    Ok(ids)
}

/// The place of the block on which one stands that is not the head.
pub(crate) fn place_before(blocks: &[Block], place: usize) -> usize
    requires linked { AreLinked blocks.now (length blocks.now) }
    requires within { place < length blocks.now }
    requires behind { 0 < place }
    ensures earlier { result < place }
    ensures prev { id_at blocks.now result ≡ prev_at blocks.now place }
{
    blocks[place].links.before
}

/// The live blocks that are neither on the line to a block nor descend from it, in their order.
/// The blocks of the line are met in its order, and each block after the one on which it stands.
pub(crate) fn dropped_by(
    alloc: Global,
    blocks: &[Block],
    id: &Digest,
    through: &[Digest],
) -> Result<Vec<Digest>, AllocError>
    requires tree { IsTree (tree_of blocks.now) }
    requires linked { AreLinked blocks.now (length blocks.now) }
    requires live { IsTrue (is_live (tree_of blocks.now) id.now.0) }
    requires through { map (λ id. id.0) through.now ≡ line (tree_of blocks.now) id.now.0 }
    ensures { IfOk result (λ ids. map (λ id. id.0) ids.items ≡ dropped (tree_of blocks.now) id.now.0) }
{
    let mut descends = Vec::with_capacity(alloc, blocks.len())?;
    let mut dropped = Vec::new(alloc);
    let mut met = 0;
    for (place, block) in blocks.iter().enumerate() {
        if is_next(through, met, &block.id) {
            met += 1;
            descends.push(block.id == *id)?;
        } else if descends[place_before(blocks, place)] {
            descends.push(true)?;
        } else {
            descends.push(false)?;
            dropped.push(block.id)?;
        }
    }
    Ok(dropped)
}

/// Whether an id stands at a place of a list.
fn is_next(ids: &[Digest], place: usize, id: &Digest) -> bool
    ensures { IsTrue result ↔ (slice_get (map (λ id. id.0) ids.now) place ≡ Some id.now.0) }
{
    match ids.get(place) {
        Some(next) => next == id,
        None => false,
    }
}
