use super::*;
use base_core::Digest;
use std::alloc::{AllocError, Global};
use std::process::Abort;
use std::test::Fail;

fn id(n: u8) -> Digest {
    Digest([n; 32])
}

/// Offers a block, and adds it where it is not refused.
fn offer(forks: &mut Forks, n: u8, prev: u8, height: u64) -> Result<Option<ForkError>, AllocError> {
    let (block, prev) = (id(n), id(prev));
    match forks.check(&block, &prev, height) {
        Ok(()) => {}
        Err(error) => return Ok(Some(error)),
    }
    forks.reserve()?;
    forks.add(block, prev, height);
    Ok(None)
}

/// Moves the head: the ids that were passed, and those that were dropped.
fn move_head(forks: &mut Forks, alloc: Global, n: u8) -> Result<Move, MoveError> {
    let plan = forks.plan_move(alloc, &id(n))?;
    forks.commit_move(&plan);
    Ok(plan)
}

fn expect_ids(rt: &impl Abort, ids: &Ids, expected: &[u8]) {
    assert_eq!(rt; ids.len(), expected.len() as u64);
    for (place, n) in expected.iter().enumerate() {
        assert_eq!(rt; ids.at(place as u64), id(*n));
    }
}

#[test]
fn blocks_on_forks(rt: HostRuntime) -> Result<(), Fail> {
    let mut forks = Forks::new(rt.alloc(), 5)?;
    assert_eq!(rt; forks.head(), Digest::ZERO);
    assert_eq!(rt; forks.len(), 1);
    let rows = [
        (1, 0, 1, None),
        (2, 1, 2, None),
        (3, 1, 3, None),
        (4, 2, 5, None),
        (4, 4, 6, Some(ForkError::Known)),
        (5, 9, 6, Some(ForkError::NoPrev)),
        (5, 4, 5, Some(ForkError::Height)),
        (5, 4, 6, Some(ForkError::Full)),
    ];
    for (n, prev, height, refused) in rows {
        assert_eq!(rt; offer(&mut forks, n, prev, height)?, refused);
    }
    assert_eq!(rt; forks.len(), 5);
    assert_eq!(rt; forks.prev_of(&id(0)), None);
    assert_eq!(rt; forks.prev_of(&id(4)), Some(id(2)));
    assert_eq!(rt; forks.prev_of(&id(9)), None);
    assert!(rt; forks.is_live(&id(3)));
    Ok(())
}

#[test]
fn the_head_moves(rt: HostRuntime) -> Result<(), Fail> {
    let mut forks = Forks::new(rt.alloc(), 4096)?;
    for (n, prev, height) in [(1, 0, 1), (2, 1, 2), (3, 1, 3), (4, 2, 5)] {
        assert_eq!(rt; offer(&mut forks, n, prev, height)?, None);
    }
    let stays = move_head(&mut forks, rt.alloc(), 0)?;
    expect_ids(&rt, &stays.passed, &[]);
    expect_ids(&rt, &stays.dropped, &[]);
    assert_eq!(rt; forks.len(), 5);
    let moved = move_head(&mut forks, rt.alloc(), 2)?;
    expect_ids(&rt, &moved.passed, &[1, 2]);
    expect_ids(&rt, &moved.dropped, &[3]);
    assert_eq!(rt; forks.head(), id(2));
    assert_eq!(rt; forks.len(), 2);
    assert_eq!(rt; forks.prev_of(&id(2)), None);
    assert_eq!(rt; forks.prev_of(&id(4)), Some(id(2)));
    assert!(rt; !forks.is_live(&id(3)));
    let rows = [
        (3, 4, 5, Some(ForkError::Height)),
        (3, 9, 6, Some(ForkError::NoPrev)),
        (3, 1, 6, Some(ForkError::NoPrev)),
        (3, 4, 6, None),
        (0, 2, 7, None),
        (4, 3, 7, Some(ForkError::Known)),
    ];
    for (n, prev, height, refused) in rows {
        assert_eq!(rt; offer(&mut forks, n, prev, height)?, refused);
    }
    match forks.plan_move(rt.alloc(), &id(1)) {
        Err(error) => assert_eq!(rt; error, MoveError::NotLive),
        Ok(_) => assert!(rt; false),
    }
    let again = move_head(&mut forks, rt.alloc(), 3)?;
    expect_ids(&rt, &again.passed, &[4, 3]);
    expect_ids(&rt, &again.dropped, &[0]);
    assert_eq!(rt; forks.len(), 1);
    Ok(())
}

/// What steps from block to prev come to: one of some blocks, or the head.
fn walked(forks: &Forks, block: Digest, ids: &[Digest]) -> Digest {
    let mut at = block;
    for _ in 0..forks.len() {
        if ids.contains(&at) {
            return at;
        }
        match forks.prev_of(&at) {
            Some(prev) => at = prev,
            None => return at,
        }
    }
    at
}

/// Compares the nearest of some blocks with the walk, for each live block.
fn expect_walked(rt: &impl Abort, forks: &Forks, ids: &[Digest]) {
    for n in 0..120 {
        let block = id(n);
        if forks.is_live(&block) {
            assert!(rt; forks.nearest(&block, ids) == walked(forks, block, ids));
        }
    }
}

#[test]
fn nearest_blocks(rt: HostRuntime) -> Result<(), Fail> {
    let mut forks = Forks::new(rt.alloc(), 4096)?;
    let mut ids = Vec::new(rt.alloc());
    for n in 1..120u8 {
        let prev = if n % 16 == 9 {
            n / 2
        } else {
            n.saturating_sub(1)
        };
        assert_eq!(rt; offer(&mut forks, n, prev, n as u64)?, None);
        if n % 11 == 5 {
            ids.push(id(n))?;
        }
    }
    expect_walked(&rt, &forks, &ids);
    for (head, again) in [(3, 2), (11, 10), (20, 19)] {
        move_head(&mut forks, rt.alloc(), head)?;
        assert_eq!(rt; offer(&mut forks, again, 119, 120)?, None);
        expect_walked(&rt, &forks, &ids);
    }
    assert_eq!(rt; forks.len(), 55);
    Ok(())
}
