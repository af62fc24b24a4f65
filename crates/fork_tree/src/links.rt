ghost use Rattle.std.specs.Prelude.{◌≡◌, ◌≤◌, ◌<◌, ◌+◌, length, vec_capacity};
ghost use Rattle.fork_model.specs.Trees.{IsTree};
ghost use Rattle.fork_tree.specs.Kept.{AreLinked, IsCut, IsLinked, IsPlaced, headers, tree_of};

use crate::block::Block;
use base_core::Digest;
use std::collections::HashMap;

/// Where the way from a block back to the head goes on. All fields are 0 for the head.
#[derive(Clone, Copy, Debug)]
pub(crate) struct Links {
    /// The place of the prev.
    pub(crate) before: usize,
    /// The place of a block on the way: the prev, or one further back. From any block to any other
    /// on its way lead as many steps over prevs and jumps as the logarithm of the way's length, or
    /// a few times as many.
    pub(crate) jump: usize,
    /// How many blocks are on the way behind the head. It decides how long jumps are.
    pub(crate) depth: usize,
}

/// The links of a block that stands on the one at a place.
pub(crate) fn links_over(blocks: &[Block], before: usize) -> Links
    requires linked { AreLinked blocks.now (before + 1) }
    requires within { before < length blocks.now }
    ensures before { result.before ≡ before }
    ensures back { result.jump ≤ before }
    ensures cut { IsCut blocks.now before result.jump result.jump }
{
    Links {
        before,
        jump: jump_over(blocks, before),
        depth: blocks[before].links.depth.wrapping_add(1),
    }
}

/// The place to which a block jumps that stands on the one at a place: over that one and two jumps
/// behind it, if these are of one length, and else to that one.
fn jump_over(blocks: &[Block], before: usize) -> usize
    requires linked { AreLinked blocks.now (before + 1) }
    requires within { before < length blocks.now }
    ensures back { result ≤ before }
    ensures cut { IsCut blocks.now before result result }
{
    let first = blocks[before].links;
    let second = blocks[first.jump].links;
    let third = blocks[second.jump].links;
    if first.depth.wrapping_sub(second.depth) == second.depth.wrapping_sub(third.depth) {
        second.jump
    } else {
        before
    }
}

/// Writes the links of all blocks, with their prevs where the table has them.
pub(crate) fn link_all(blocks: &mut Vec<Block>, places: &HashMap<Digest, usize>)
    requires tree { IsTree (tree_of blocks.old.items) }
    requires placed { IsPlaced blocks.old.items places.now.entries }
    ensures headers { headers blocks.new.items ≡ headers blocks.old.items }
    ensures linked { AreLinked blocks.new.items (length blocks.new.items) }
    ensures capacity { vec_capacity blocks.new ≡ vec_capacity blocks.old }
{
    for place in 0..blocks.len() {
        let links = links_at(blocks, places, place);
        blocks[place].links = links;
    }
}

/// The links of the block at a place, if those before it are linked.
fn links_at(blocks: &[Block], places: &HashMap<Digest, usize>, place: usize) -> Links
    requires tree { IsTree (tree_of blocks.now) }
    requires placed { IsPlaced blocks.now places.now.entries }
    requires linked { AreLinked blocks.now place }
    requires within { place < length blocks.now }
    ensures { IsLinked blocks.now place result }
{
    if place == 0 {
        return Links {
            before: 0,
            jump: 0,
            depth: 0,
        };
    }
    let Some(before) = places.get(&blocks[place].prev) else {
        // The prev is live.
        unreachable!()
    };
    links_over(blocks, *before)
}
