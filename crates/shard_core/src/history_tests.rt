use super::*;
use crate::history::{
    BLOCKS, DELETED, HELD, History, LEAF, NOTHING, Offer, PAIRS, Row, changes, entries, to, value,
};
use crate::shard_tests;
use crate::shard_tests::{count_of, counted, id, kept, move_to, pair, same, start};
use base_core::{Digest, Limits, digest};
use std::alloc::Global;
use std::process::Abort;
use std::test::Fail;
use text_store::MemNodes;

/// A shard with few blocks and pairs, and the history that it is to have.
#[derive(Drop)]
struct Course {
    shard: Shard<MemNodes>,
    history: History,
}

/// Each text that a block was to have is counted as the maps of the live blocks have it. How many of
/// them no older live block has.
fn expect_counts(rt: &impl Abort, shard: &Shard<MemNodes>, history: &History, block: u8) -> u64 {
    let mut new = 0u64;
    let Some(told) = history.told(block) else {
        return 0;
    };
    for place in 0..told.whole.made.len() {
        let name = told.whole.made.at(place).digest;
        assert!(rt; count_of(shard, &name) == history.count(&name));
        new = new.saturating_add(!history.is_older(block, &name) as u64);
    }
    new
}

/// The root of a block's state.
fn expect_root(rt: &impl Abort, shard: &Shard<MemNodes>, history: &History, block: u8) {
    if let Some(told) = history.told(block) {
        assert!(rt; shard.root_of(&id(block)) == Ok(told.whole.root));
    }
}

/// A block is the same as another exactly where both have one state. Whether they have.
fn expect_same(rt: &impl Abort, shard: &Shard<MemNodes>, history: &History, a: u8, b: u8) -> bool {
    let alike = history.row(a) == history.row(b);
    assert!(rt; same(shard, a, b) == Ok(alike));
    alike
}

impl Course {
    fn new(alloc: Global) -> Result<Course, Fail> {
        let limits = Limits {
            pairs: PAIRS,
            blocks: BLOCKS,
            changes: 6,
        };
        Ok(Course {
            shard: start(alloc, &[], limits)?,
            history: History::new(alloc)?,
        })
    }

    /// Offers a block, which is accepted or refused as the history has it. Whether it is refused.
    fn offer(&mut self, rt: &impl Abort, alloc: Global, offer: &Offer) -> Result<bool, Fail> {
        let changes = changes(alloc, &offer.batch)?;
        let answer = shard_tests::offer(
            &mut self.shard,
            offer.block,
            offer.prev,
            offer.height,
            changes,
        );
        if let Some(error) = self.history.refusal(offer) {
            assert_eq!(rt; answer, Err(error));
            return Ok(true);
        }
        let root = self.history.take(alloc, offer)?;
        assert_eq!(rt; answer, Ok(Applied { root }));
        Ok(false)
    }

    /// Moves the head to a live block.
    fn move_head(&mut self, rt: &impl Abort, head: u8) {
        assert_eq!(rt; move_to(&mut self.shard, head).err(), None);
        self.history.head = head;
    }

    /// The shard has the live blocks of the history, and the store has exactly their texts.
    fn expect(&self, rt: &impl Abort) {
        let (mut distinct, mut changed) = (0u64, 0u64);
        for block in 0..self.history.next {
            let new = expect_counts(rt, &self.shard, &self.history, block);
            if self.history.is_live(block) {
                expect_root(rt, &self.shard, &self.history, block);
                distinct = distinct.saturating_add(new);
            }
            changed = changed.saturating_add(self.history.changed(block));
        }
        let pairs = entries(&self.history.row(self.history.head));
        let wanted = (self.history.live(), pairs, changed, distinct);
        assert!(rt; kept(&self.shard) == wanted);
    }

    /// Offers a block over a live one, at the height of its number, or moves the head to it where
    /// it is the same. Then this is kept, and so often are the values 2 and 3 counted.
    fn step(
        &mut self,
        rt: &impl Abort,
        alloc: Global,
        block: u8,
        prev: u8,
        batch: Row,
        wanted: (u64, u64, u64, u64),
        counts: (u64, u64),
    ) -> Result<(), Fail> {
        if block == prev {
            self.move_head(rt, block);
        } else {
            let offer = Offer {
                block,
                prev,
                height: block,
                batch,
            };
            self.offer(rt, alloc, &offer)?;
        }
        self.expect(rt);
        assert!(rt; kept(&self.shard) == wanted);
        assert!(rt; (counted(&self.shard, &[2]), counted(&self.shard, &[3])) == counts);
        Ok(())
    }
}

/// Two keys are set, and one of them is deleted over that. The head passes both blocks.
#[test]
fn one_of_two_deleted(rt: HostRuntime) -> Result<(), Fail> {
    let alloc = rt.alloc();
    let mut course = Course::new(alloc)?;
    course.step(&rt, alloc, 1, 0, pair(2, 3), (2, 0, 2, 6), (1, 1))?;
    course.step(&rt, alloc, 2, 1, pair(0, 1), (3, 0, 3, 7), (1, 1))?;
    course.step(&rt, alloc, 2, 2, pair(0, 0), (1, 1, 0, 2), (1, 0))
}

/// The same where both keys have one value.
#[test]
fn one_of_two_alike_deleted(rt: HostRuntime) -> Result<(), Fail> {
    let alloc = rt.alloc();
    let mut course = Course::new(alloc)?;
    course.step(&rt, alloc, 1, 0, pair(2, 2), (2, 0, 2, 4), (2, 0))?;
    course.step(&rt, alloc, 2, 1, pair(0, 1), (3, 0, 3, 5), (2, 0))?;
    course.step(&rt, alloc, 2, 2, pair(0, 0), (1, 1, 0, 2), (1, 0))
}

/// Two forks with one state, and the head moves to one of them.
#[test]
fn two_forks_alike(rt: HostRuntime) -> Result<(), Fail> {
    let alloc = rt.alloc();
    let mut course = Course::new(alloc)?;
    course.step(&rt, alloc, 1, 0, pair(2, 3), (2, 0, 2, 6), (1, 1))?;
    course.step(&rt, alloc, 2, 0, pair(2, 3), (3, 0, 4, 6), (2, 2))?;
    course.step(&rt, alloc, 1, 1, pair(0, 0), (1, 2, 0, 6), (1, 1))
}

// ---- seeded histories

/// How often a case came.
#[derive(Clone, Copy)]
struct Seen {
    refused: u64,
    moved: u64,
    alike: u64,
    leaves: u64,
}

/// The next draw of a generator.
fn draw(seed: &mut u64) -> u8 {
    *seed = seed
        .wrapping_mul(6364136223846793005)
        .wrapping_add(1442695040888963407);
    seed.to_be_bytes()[0]
}

/// A block that was accepted, be it live or not, now and then none, and often the head.
fn drawn_block(history: &History, seed: &mut u64) -> u8 {
    let block = draw(seed) % 16;
    if block < history.next || block == 15 {
        block
    } else {
        history.head
    }
}

/// A batch that leaves half of the keys.
fn drawn_batch(seed: &mut u64) -> Row {
    let mut batch = [NOTHING; 6];
    for i in 0..6 {
        batch[i] = match draw(seed) % 16 {
            0 | 1 => DELETED,
            2 | 3 | 4 => HELD,
            5 => 3,
            6 | 7 => LEAF,
            _ => NOTHING,
        };
    }
    batch
}

/// A drawn batch, or one that makes the state of a drawn block.
fn drawn(history: &History, seed: &mut u64) -> Row {
    if draw(seed) % 4 == 0 {
        to(&history.row(drawn_block(history, seed)))
    } else {
        drawn_batch(seed)
    }
}

/// The next block over a drawn one. Now and then its number is the head's, or it is no higher than
/// its prev.
fn drawn_offer(history: &History, seed: &mut u64) -> Offer {
    let prev = drawn_block(history, seed);
    let higher = (draw(seed) % 8 > 0) as u8;
    let block = if draw(seed) % 8 > 0 {
        history.next
    } else {
        history.head
    };
    Offer {
        block,
        prev,
        height: history.height(prev).saturating_add(higher),
        batch: drawn(history, seed),
    }
}

/// Compares a live block with the earlier ones, and notes what it is a case of.
fn expect_forks(rt: &impl Abort, course: &Course, block: u8, seen: &mut Seen, leaf: &Digest) {
    let (shard, history) = (&course.shard, &course.history);
    for other in 0..block {
        if history.is_live(other) {
            let alike = expect_same(rt, shard, history, other, block);
            let forks = !history.descends(other, block);
            seen.alike = seen.alike.saturating_add((alike && forks) as u64);
        }
    }
    let is_case = history.has_leaf_as_value(block, leaf);
    seen.leaves = seen.leaves.saturating_add(is_case as u64);
}

/// What is kept is as the history has it, and so is each live block.
fn expect_all(rt: &impl Abort, course: &Course, seen: &mut Seen, leaf: &Digest) {
    course.expect(rt);
    for block in 0..course.history.next {
        if course.history.is_live(block) {
            expect_forks(rt, course, block, seen, leaf);
        }
    }
}

/// Offers some drawn blocks, and moves the head now and then.
fn expect_history(
    rt: &impl Abort,
    alloc: Global,
    seed: &mut u64,
    seen: &mut Seen,
) -> Result<(), Fail> {
    let leaf = digest(value(alloc, LEAF)?.as_slice());
    let mut course = Course::new(alloc)?;
    for _ in 0..14 {
        let offer = drawn_offer(&course.history, seed);
        let refused = course.offer(rt, alloc, &offer)?;
        seen.refused = seen.refused.saturating_add(refused as u64);
        expect_all(rt, &course, seen, &leaf);
        let head = drawn_block(&course.history, seed);
        if draw(seed) % 4 == 0 && course.history.is_live(head) {
            course.move_head(rt, head);
            seen.moved = seen.moved.saturating_add(1);
            expect_all(rt, &course, seen, &leaf);
        }
    }
    Ok(())
}

#[test]
fn seeded_histories(rt: HostRuntime) -> Result<(), Fail> {
    let alloc = rt.alloc();
    let mut seed = 7;
    let mut seen = Seen {
        refused: 0,
        moved: 0,
        alike: 0,
        leaves: 0,
    };
    for _ in 0..20 {
        expect_history(&rt, alloc, &mut seed, &mut seen)?;
    }
    assert!(rt; seen.refused > 20 && seen.moved > 20);
    assert!(rt; seen.alike > 20 && seen.leaves > 20);
    Ok(())
}
