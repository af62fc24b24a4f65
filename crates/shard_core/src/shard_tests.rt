ghost use Rattle.base_core.specs.Bounds.{AreLimits};

use super::*;
use crate::history::{NOTHING, Row, changes};
use base_core::{Changes, Digest, Limits, digest};
use std::alloc::{AllocError, Global};
use std::process::Abort;
use std::test::Fail;
use text_store::{MemNodes, Nodes, Texts};

pub(crate) fn id(n: u8) -> Digest {
    Digest([n; 32])
}

/// A shard over an empty store that fails at chosen calls.
pub(crate) fn start(
    alloc: Global,
    fails: &[u64],
    limits: Limits,
) -> Result<Shard<MemNodes>, AllocError>
    requires { AreLimits limits }
{
    match Shard::new(alloc, MemNodes::new(alloc, fails)?, limits) {
        Ok(shard) => Ok(shard),
        Err(_) => Err(AllocError),
    }
}

/// Offers a block at a height.
pub(crate) fn offer(
    shard: &mut Shard<MemNodes>,
    n: u8,
    prev: u8,
    height: u8,
    changes: Changes,
) -> Result<Applied, ApplyError> {
    shard.apply(Block {
        id: id(n),
        prev: id(prev),
        height: height as u64,
        changes,
    })
}

/// How often a text is counted, by its digest.
pub(crate) fn count_of(shard: &Shard<MemNodes>, name: &Digest) -> u64 {
    shard.tries.nodes.count(name)
}

pub(crate) fn counted(shard: &Shard<MemNodes>, text: &[u8]) -> u64 {
    count_of(shard, &digest(text))
}

/// What is kept, as live blocks, the head's pairs, changed keys and different texts.
pub(crate) fn kept(shard: &Shard<MemNodes>) -> (u64, u64, u64, u64) {
    match shard.stats() {
        Ok(stats) => (stats.live, stats.pairs, stats.deltas, stats.distinct),
        Err(Stopped) => (0, 0, 0, 0),
    }
}

/// Moves the head.
pub(crate) fn move_to(shard: &mut Shard<MemNodes>, n: u8) -> Result<(u64, u64), HeadError> {
    match shard.move_head(&id(n)) {
        Ok(moved) => Ok((moved.passed, moved.dropped)),
        Err(error) => Err(error),
    }
}

pub(crate) fn same(shard: &Shard<MemNodes>, a: u8, b: u8) -> Result<bool, FlatError> {
    shard.same(&id(a), &id(b))
}

/// A batch that sets or deletes the keys 10 and 11.
pub(crate) fn pair(first: u8, second: u8) -> Row {
    [NOTHING, NOTHING, NOTHING, first, second, NOTHING]
}

/// What flat storage has of the key 11.
fn expect_flat(
    rt: &impl Abort,
    shard: &Shard<MemNodes>,
    n: u8,
    value: Result<Option<&[u8]>, FlatError>,
) {
    assert!(rt; shard.flat(&id(n), &[0x11]) == value);
}

/// What a trie has of it.
fn expect_trie(
    rt: &impl Abort,
    shard: &mut Shard<MemNodes>,
    n: u8,
    value: Result<Option<&[u8]>, TrieError>,
) {
    assert!(rt; shard.trie(&id(n), &[0x11]) == value);
}

fn expect_usage(
    rt: &impl Abort,
    shard: &mut Shard<MemNodes>,
    n: u8,
    usage: Result<u64, TrieError>,
) {
    assert!(rt; shard.usage(&id(n)) == usage);
}

/// How many texts were loaded.
fn expect_loads(rt: &impl Abort, shard: &Shard<MemNodes>, loads: u64) {
    assert!(rt; shard.tries.nodes.loads() == loads);
}

/// How many pairs the map of a block has.
fn expect_pairs(
    rt: &impl Abort,
    alloc: Global,
    shard: &Shard<MemNodes>,
    n: u8,
    wanted: Result<u64, ShardPairsError>,
) {
    let pairs = match shard.pairs(alloc, &id(n)) {
        Ok(pairs) => Ok(pairs.len()),
        Err(error) => Err(error),
    };
    assert_eq!(rt; pairs, wanted);
}

/// A block that is offered is refused so, or accepted.
fn expect_offer(
    rt: &impl Abort,
    alloc: Global,
    shard: &mut Shard<MemNodes>,
    (n, prev, height): (u8, u8, u8),
    batch: Row,
    refusal: Option<ApplyError>,
) -> Result<(), AllocError> {
    let answer = offer(shard, n, prev, height, changes(alloc, &batch)?);
    assert_eq!(rt; answer.err(), refusal);
    Ok(())
}

/// Each refusal leaves what is kept.
#[test]
fn refused_blocks(rt: HostRuntime) -> Result<(), Fail> {
    let alloc = rt.alloc();
    let limits = Limits {
        pairs: 1,
        blocks: 2,
        changes: 6,
    };
    let mut shard = start(alloc, &[], limits)?;
    for (block, batch, refusal) in [
        ((0, 0, 1), pair(0, 1), Some(ApplyError::Known)),
        ((1, 3, 1), pair(0, 1), Some(ApplyError::NoPrev)),
        ((1, 0, 0), pair(0, 1), Some(ApplyError::Height)),
        ((1, 0, 1), pair(2, 3), Some(ApplyError::FullPairs)),
        ((1, 0, 1), pair(0, 1), None),
        ((2, 0, 1), pair(0, 1), Some(ApplyError::FullBlocks)),
    ] {
        expect_offer(&rt, alloc, &mut shard, block, batch, refusal)?;
    }
    assert!(rt; move_to(&mut shard, 2) == Err(HeadError::NotLive));
    assert!(rt; kept(&shard) == (2, 0, 1, 0));
    Ok(())
}

/// A shard that is stopped answers nothing.
fn expect_stopped(
    rt: &impl Abort,
    alloc: Global,
    shard: &mut Shard<MemNodes>,
) -> Result<(), AllocError> {
    let stopped = Some(ApplyError::Stopped);
    expect_offer(rt, alloc, shard, (1, 0, 1), pair(0, 1), stopped)?;
    assert!(rt; move_to(shard, 0) == Err(HeadError::Stopped));
    assert!(rt; shard.root_of(&id(0)) == Err(FlatError::Stopped));
    assert!(rt; same(shard, 0, 0) == Err(FlatError::Stopped));
    expect_flat(rt, shard, 0, Err(FlatError::Stopped));
    expect_trie(rt, shard, 0, Err(TrieError::Stopped));
    expect_usage(rt, shard, 0, Err(TrieError::Stopped));
    expect_pairs(rt, alloc, shard, 0, Err(ShardPairsError::Stopped));
    assert!(rt; shard.stats() == Err(Stopped));
    Ok(())
}

/// The store fails at a call: that which takes room, or one of those that add the six texts. Those
/// before it are in the store that is handed back.
fn expect_fault(rt: &impl Abort, alloc: Global, call: u64) -> Result<(), AllocError> {
    let mut shard = start(alloc, &[call], Limits::FULL)?;
    let fault = Some(ApplyError::StoreFault);
    expect_offer(rt, alloc, &mut shard, (1, 0, 1), pair(2, 3), fault)?;
    expect_stopped(rt, alloc, &mut shard)?;
    assert!(rt; shard.into_nodes().distinct() == call.saturating_sub(2));
    Ok(())
}

#[test]
fn stopped_shards(rt: HostRuntime) -> Result<(), Fail> {
    for call in 1..8 {
        expect_fault(&rt, rt.alloc(), call)?;
    }
    Ok(())
}

/// Both ways to read a live block tell the same, and the trie is loaded for one of them alone.
#[test]
fn reads(rt: HostRuntime) -> Result<(), Fail> {
    let alloc = rt.alloc();
    let mut shard = start(alloc, &[], Limits::FULL)?;
    expect_offer(&rt, alloc, &mut shard, (1, 0, 1), pair(2, 3), None)?;
    expect_flat(&rt, &shard, 1, Ok(Some(&[3])));
    expect_flat(&rt, &shard, 0, Ok(None));
    expect_loads(&rt, &shard, 0);
    expect_trie(&rt, &mut shard, 1, Ok(Some(&[3])));
    expect_loads(&rt, &shard, 4);
    expect_trie(&rt, &mut shard, 0, Ok(None));
    expect_trie(&rt, &mut shard, 2, Err(TrieError::NotLive));
    expect_usage(&rt, &mut shard, 0, Ok(0));
    expect_loads(&rt, &shard, 4);
    expect_usage(&rt, &mut shard, 1, Ok(308));
    expect_loads(&rt, &shard, 5);
    expect_pairs(&rt, alloc, &shard, 1, Ok(2));
    Ok(())
}
