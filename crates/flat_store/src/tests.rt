ghost use Rattle.std.specs.Prelude.{◌≡◌, ◌≤◌, IfOk};
ghost use Rattle.base_core.specs.Bounds.{most_blocks};
ghost use Rattle.flat_store.specs.Flats.{AreOfOne};

use super::*;
use base_core::{Changes, Digest, PutError, Text};
use fork_tree::{Forks, MoveError, NotLive};
use std::alloc::{AllocError, Global};
use std::process::Abort;
use std::test::Fail;

fn id(n: u8) -> Digest {
    Digest([n; 32])
}

fn start(alloc: Global) -> Result<(Forks, Flat), AllocError>
    ensures one { IfOk result (λ both. AreOfOne both.0.tree both.1) }
    ensures most { IfOk result (λ both. both.0.most ≤ most_blocks) }
{
    let forks = Forks::new(alloc, 4096)?;
    let flat = Flat::new(alloc)?;
    Ok((forks, flat))
}

/// Changes that set each of some keys of one byte to that byte, and delete others.
fn batch(alloc: Global, sets: &[u8], deletes: &[u8]) -> Result<Changes, PutError> {
    let mut changes = Changes::new(alloc, 16);
    for key in sets {
        changes.put(text(alloc, *key)?, text(alloc, *key)?)?;
    }
    for key in deletes {
        changes.remove(text(alloc, *key)?)?;
    }
    Ok(changes)
}

fn text(alloc: Global, byte: u8) -> Result<Text, PutError> {
    match Text::copy(alloc, &[byte]) {
        Ok(text) => Ok(text),
        Err(_) => Err(PutError::NoMemory),
    }
}

/// Offers a block with changes, and says whether it was added.
fn offer(
    forks: &mut Forks,
    flat: &mut Flat,
    n: u8,
    prev: u8,
    changes: Changes,
) -> Result<bool, AllocError>
    requires one { AreOfOne forks.old.tree flat.old }
    requires most { forks.old.most ≤ most_blocks }
    ensures one { AreOfOne forks.new.tree flat.new }
    ensures most { forks.new.most ≡ forks.old.most }
{
    let (block, prev) = (id(n), id(prev));
    let height = n as u64;
    match forks.check(&block, &prev, height) {
        Ok(()) => {}
        Err(_) => return Ok(false),
    }
    forks.reserve()?;
    flat.reserve()?;
    forks.add(block, prev, height);
    flat.add(block, changes);
    Ok(true)
}

fn move_to(alloc: Global, forks: &mut Forks, flat: &mut Flat, n: u8) -> Result<(), MoveError>
    requires one { AreOfOne forks.old.tree flat.old }
    ensures one { AreOfOne forks.new.tree flat.new }
{
    let plan = forks.plan_move(alloc, &id(n))?;
    flat.move_head(&plan)?;
    forks.commit_move(&plan);
    Ok(())
}

/// What a key of one byte has at a block.
fn expect(rt: &impl Abort, forks: &Forks, flat: &Flat, n: u8, key: u8, want: Result<bool, NotLive>)
    requires { AreOfOne forks.now.tree flat.now }
{
    match flat.get(forks, &id(n), &[key]) {
        Ok(found) => {
            assert_eq!(rt; Ok(found.is_some()), want);
            if let Some(value) = found {
                assert_eq!(rt; value, [key].as_slice());
            }
        }
        Err(error) => assert_eq!(rt; Err(error), want),
    }
}

/// How many pairs a block has with changes laid over, if there are at most so many.
fn count_over(
    alloc: Global,
    forks: &Forks,
    flat: &Flat,
    n: u8,
    changes: &Changes,
    most: u64,
) -> Result<u64, PairsOverError>
    requires one { AreOfOne forks.now.tree flat.now }
    requires most { most ≤ 16 }
{
    Ok(flat.pairs_over(alloc, forks, &id(n), changes, most)?.len())
}

/// How many pairs the head has at the start.
fn count_at_start(alloc: Global) -> Result<u64, PairsError> {
    let forks = Forks::new(alloc, 4096)?;
    let flat = Flat::new(alloc)?;
    Ok(flat.pairs_at(alloc, &forks, &Digest::ZERO)?.len())
}

#[test]
fn maps_on_two_forks(rt: HostRuntime) -> Result<(), Fail> {
    let alloc = rt.alloc();
    let (mut forks, mut flat) = start(alloc)?;
    assert!(rt; offer(&mut forks, &mut flat, 1, 0, batch(alloc, &[61], &[])?)?);
    assert!(rt; offer(&mut forks, &mut flat, 2, 1, batch(alloc, &[], &[])?)?);
    assert!(rt; offer(&mut forks, &mut flat, 3, 1, batch(alloc, &[62], &[61])?)?);
    assert!(rt; !offer(&mut forks, &mut flat, 3, 2, batch(alloc, &[], &[])?)?);
    expect(&rt, &forks, &flat, 2, 61, Ok(true));
    expect(&rt, &forks, &flat, 2, 62, Ok(false));
    expect(&rt, &forks, &flat, 3, 61, Ok(false));
    expect(&rt, &forks, &flat, 3, 62, Ok(true));
    expect(&rt, &forks, &flat, 0, 61, Ok(false));
    expect(&rt, &forks, &flat, 9, 61, Err(NotLive));
    assert_eq!(rt; flat.entries(), 3);
    Ok(())
}

#[test]
fn the_head_moves_over_a_fork(rt: HostRuntime) -> Result<(), Fail> {
    let alloc = rt.alloc();
    let (mut forks, mut flat) = start(alloc)?;
    assert!(rt; offer(&mut forks, &mut flat, 1, 0, batch(alloc, &[61], &[])?)?);
    assert!(rt; offer(&mut forks, &mut flat, 2, 1, batch(alloc, &[62], &[])?)?);
    assert!(rt; offer(&mut forks, &mut flat, 3, 1, batch(alloc, &[63], &[61])?)?);
    assert_eq!(rt; flat.entries(), 4);
    move_to(alloc, &mut forks, &mut flat, 3)?;
    assert_eq!(rt; flat.entries(), 0);
    expect(&rt, &forks, &flat, 3, 61, Ok(false));
    expect(&rt, &forks, &flat, 3, 63, Ok(true));
    expect(&rt, &forks, &flat, 2, 62, Err(NotLive));
    assert_eq!(rt; count_at_start(alloc), Ok(0));
    let more = batch(alloc, &[61, 62], &[])?;
    assert_eq!(rt; count_over(alloc, &forks, &flat, 3, &more, 3), Ok(3));
    assert_eq!(rt;
        count_over(alloc, &forks, &flat, 3, &more, 2),
        Err(PairsOverError::Full)
    );
    assert_eq!(rt;
        count_over(alloc, &forks, &flat, 1, &more, 3),
        Err(PairsOverError::NotLive)
    );
    Ok(())
}
