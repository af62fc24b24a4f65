use super::*;
use crate::tests::{Kept, delete, set};
use base_core::{Changes, Pairs, Text};
use std::alloc::{AllocError, Global};
use std::process::Abort;
use std::test::Fail;
use text_store::{MemNodes, Nodes};
use trie_shape::build;

/// What each of 21 keys has, or becomes: `HELD` and above is a value of one byte.
type Row = [u8; 21];

/// In a state: the key is not there. In a batch: it is not changed.
const NOTHING: u8 = 0;
/// In a batch: the key is deleted.
const DELETED: u8 = 1;

/// A byte of which both nibbles are 0 or 1.
fn byte(number: usize) -> u8 {
    match number % 4 {
        0 => 0x00,
        1 => 0x01,
        2 => 0x10,
        _ => 0x11,
    }
}

/// The keys of up to two such bytes.
fn key(alloc: Global, number: usize) -> Result<Text, AllocError> {
    if number == 0 {
        return Text::copy(alloc, &[]);
    }
    if number < 5 {
        return Text::copy(alloc, &[byte(number - 1)]);
    }
    Text::copy(alloc, &[byte((number - 5) / 4), byte(number - 5)])
}

/// The state of a row.
fn pairs(alloc: Global, state: &Row) -> Result<Pairs, AllocError> {
    let mut pairs = Pairs::new(alloc, 21);
    for i in 0..21 {
        if state[i] > DELETED
            && pairs
                .put(key(alloc, i)?, Text::copy(alloc, &[state[i]])?)
                .is_err()
        {
            return Err(AllocError);
        }
    }
    Ok(pairs)
}

/// The batch of a row.
fn changes(alloc: Global, batch: &Row) -> Result<Changes, AllocError> {
    let mut changes = Changes::new(alloc, 21);
    for i in 0..21 {
        let key = key(alloc, i)?;
        match batch[i] {
            NOTHING => {}
            DELETED => delete(alloc, &mut changes, key.as_slice())?,
            value => set(alloc, &mut changes, key.as_slice(), &[value])?,
        }
    }
    Ok(changes)
}

/// The next draw of a generator.
fn draw(seed: &mut u64) -> u64 {
    *seed = seed
        .wrapping_mul(6364136223846793005)
        .wrapping_add(1442695040888963407);
    *seed >> 33
}

/// A batch that leaves half of the keys, and deletes half of the others.
fn drawn(seed: &mut u64) -> Row {
    let mut batch = [NOTHING; 21];
    for i in 0..21 {
        batch[i] = match draw(seed) % 12 {
            0 | 1 | 2 => DELETED,
            3 => 2,
            4 => 3,
            5 => 4,
            _ => NOTHING,
        };
    }
    batch
}

/// Lays a batch over a state, and counts the keys that appear and disappear.
fn lay(state: &mut Row, batch: &Row) -> (u64, u64) {
    let (mut fresh, mut gone) = (0u64, 0u64);
    for i in 0..21 {
        if batch[i] == DELETED {
            gone = gone.saturating_add((state[i] != NOTHING) as u64);
            state[i] = NOTHING;
        } else if batch[i] != NOTHING {
            fresh = fresh.saturating_add((state[i] == NOTHING) as u64);
            state[i] = batch[i];
        }
    }
    (fresh, gone)
}

/// Whether the store has these texts as often as they are made, and no further text.
fn holds(store: &MemNodes, made: &Made) -> bool {
    let mut exact = store.distinct() == made.len();
    for place in 0..made.len() {
        let text = made.at(place);
        exact = exact && store.count(&text.digest) == text.times;
    }
    exact
}

/// The trie is that of the state, and the store has each of its texts as often as a batch makes it
/// that sets all pairs at once, and no further text.
fn expect_exact(rt: &impl Abort, alloc: Global, kept: &Kept, state: &Row) -> Result<(), Fail> {
    let built = build(alloc, &pairs(alloc, state)?)?;
    assert_eq!(rt; kept.root, built.root);
    let whole = Kept::new(alloc)?.carry(rt, alloc, &changes(alloc, state)?)?;
    assert_eq!(rt;
        (whole.root, whole.usage.unwrap_or(0)),
        (built.root, built.usage)
    );
    assert_eq!(rt; whole.lost.len(), 0);
    assert!(rt; holds(&kept.store, &whole.made));
    Ok(())
}

/// Carries some drawn batches out, one after the other, from no keys on.
fn expect_history(rt: &impl Abort, alloc: Global, seed: &mut u64) -> Result<(), Fail> {
    let mut kept = Kept::new(alloc)?;
    let mut state = [NOTHING; 21];
    for _ in 0..8 {
        let batch = drawn(seed);
        let counts = lay(&mut state, &batch);
        let change = kept.carry(rt, alloc, &changes(alloc, &batch)?)?;
        assert_eq!(rt; (change.fresh, change.gone), counts);
        expect_exact(rt, alloc, &kept, &state)?;
    }
    Ok(())
}

#[test]
fn seeded_batches(rt: HostRuntime) -> Result<(), Fail> {
    let alloc = rt.alloc();
    let mut seed = 7;
    for _ in 0..40 {
        expect_history(&rt, alloc, &mut seed)?;
    }
    Ok(())
}
