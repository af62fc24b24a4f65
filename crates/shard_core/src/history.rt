use super::*;
use base_core::{Changes, Digest, Text, digest};
use std::alloc::{AllocError, Global};
use std::test::Fail;
use text_store::MemNodes;
use trie_update::{Change, Made, update};

/// What each of six keys has, or becomes: `HELD` and above is a value.
pub(crate) type Row = [u8; 6];

/// In a state: the key is not there. In a batch: it is not changed.
pub(crate) const NOTHING: u8 = 0;
/// In a batch: the key is deleted.
pub(crate) const DELETED: u8 = 1;
/// The least value, of one byte.
pub(crate) const HELD: u8 = 2;
/// The value that is the text of a leaf: of the last nibble of a key that has the value `HELD`.
pub(crate) const LEAF: u8 = 4;

/// How many pairs a state may have, and how many blocks may be live.
pub(crate) const PAIRS: u64 = 5;

pub(crate) const BLOCKS: u64 = 6;

/// The key of a number: the empty one, four of one byte, and one of two bytes.
fn key(alloc: Global, number: usize) -> Result<Text, AllocError> {
    match number {
        0 => Text::copy(alloc, &[]),
        1 => Text::copy(alloc, &[0x00]),
        2 => Text::copy(alloc, &[0x01]),
        3 => Text::copy(alloc, &[0x10]),
        4 => Text::copy(alloc, &[0x11]),
        _ => Text::copy(alloc, &[0x00, 0x00]),
    }
}

/// The text of the leaf that `LEAF` stands for.
pub(crate) fn leaf(alloc: Global) -> Result<Text, AllocError> {
    let mut bytes = Vec::new(alloc);
    bytes.extend_from_slice(&[0, 1, 0, 0, 0, 0x20, 1, 0, 0, 0])?;
    bytes.extend_from_slice(&digest(&[HELD]).0)?;
    bytes.extend_from_slice(&[103, 0, 0, 0, 0, 0, 0, 0])?;
    Text::copy(alloc, bytes.as_slice())
}

/// A value by its number.
pub(crate) fn value(alloc: Global, number: u8) -> Result<Text, AllocError> {
    match number {
        LEAF => leaf(alloc),
        number => Text::copy(alloc, &[number]),
    }
}

/// Takes what a key becomes into a batch.
fn put(alloc: Global, changes: &mut Changes, i: usize, becomes: u8) -> Result<(), AllocError> {
    let answer = match becomes {
        NOTHING => Ok(()),
        DELETED => changes.remove(key(alloc, i)?),
        number => changes.put(key(alloc, i)?, value(alloc, number)?),
    };
    match answer {
        Ok(()) => Ok(()),
        Err(_) => Err(AllocError),
    }
}

/// The batch of a row.
pub(crate) fn changes(alloc: Global, batch: &Row) -> Result<Changes, AllocError> {
    let mut changes = Changes::new(alloc, 6);
    for i in 0..6 {
        put(alloc, &mut changes, i, batch[i])?;
    }
    Ok(changes)
}

/// Lays a batch over a state.
fn laid(state: &Row, batch: &Row) -> Row {
    let mut state = *state;
    for i in 0..6 {
        if batch[i] == DELETED {
            state[i] = NOTHING;
        } else if batch[i] != NOTHING {
            state[i] = batch[i];
        }
    }
    state
}

/// The batch that makes a state of any other.
pub(crate) fn to(state: &Row) -> Row {
    let mut batch = *state;
    for i in 0..6 {
        if state[i] == NOTHING {
            batch[i] = DELETED;
        }
    }
    batch
}

/// How many keys a row speaks of.
pub(crate) fn entries(row: &Row) -> u64 {
    let mut entries = 0u64;
    for i in 0..6 {
        entries = entries.saturating_add((row[i] != NOTHING) as u64);
    }
    entries
}

/// All texts of a state, and its root: what a batch makes that sets all of its pairs at once.
fn whole(alloc: Global, state: &Row) -> Result<Change, Fail> {
    let mut store = MemNodes::new(alloc, &[])?;
    Ok(update(alloc, &mut store, &Digest::ZERO, &changes(alloc, state)?)?)
}

/// How often a text occurs among those of a state.
fn times(made: &Made, digest: &Digest) -> u64 {
    let mut times = 0;
    for place in 0..made.len() {
        let text = made.at(place);
        if text.digest == *digest {
            times = text.times;
        }
    }
    times
}

/// A block that is offered, by its number. The number of the block that it stands on may be none.
#[derive(Clone, Copy)]
pub(crate) struct Offer {
    pub(crate) block: u8,
    pub(crate) prev: u8,
    pub(crate) height: u8,
    pub(crate) batch: Row,
}

/// A block that was accepted: on which it stands, what it has, how many keys it changed, and all
/// texts of what it has.
#[derive(Drop)]
pub(crate) struct Told {
    prev: u8,
    height: u8,
    pub(crate) row: Row,
    changed: u64,
    pub(crate) whole: Change,
}

/// The blocks that were accepted, by their numbers. Those are live that descend from the head.
#[derive(Drop)]
pub(crate) struct History {
    pub(crate) head: u8,
    /// The number of the next block.
    pub(crate) next: u8,
    blocks: Vec<Told>,
}

impl History {
    pub(crate) fn new(alloc: Global) -> Result<History, Fail> {
        let mut blocks = Vec::new(alloc);
        blocks.push(Told {
            prev: 0,
            height: 0,
            row: [NOTHING; 6],
            changed: 0,
            whole: whole(alloc, &[NOTHING; 6])?,
        })?;
        Ok(History {
            head: 0,
            next: 1,
            blocks,
        })
    }

    pub(crate) fn told(&self, block: u8) -> Option<&Told> {
        self.blocks.get(block as usize)
    }

    fn prev(&self, block: u8) -> u8 {
        match self.told(block) {
            Some(told) => told.prev,
            None => block,
        }
    }

    pub(crate) fn height(&self, block: u8) -> u8 {
        match self.told(block) {
            Some(told) => told.height,
            None => 0,
        }
    }

    pub(crate) fn row(&self, block: u8) -> Row {
        match self.told(block) {
            Some(told) => told.row,
            None => [NOTHING; 6],
        }
    }

    /// Whether a block is another or descends from it.
    pub(crate) fn descends(&self, from: u8, block: u8) -> bool {
        let mut at = block;
        for _ in 0..self.next {
            if at != from {
                at = self.prev(at);
            }
        }
        at == from
    }

    pub(crate) fn is_live(&self, block: u8) -> bool {
        self.descends(self.head, block)
    }

    /// Whether a block's state has the text of a leaf as the value of another key.
    pub(crate) fn has_leaf_as_value(&self, block: u8, leaf: &Digest) -> bool {
        let row = self.row(block);
        let mut values = 0u64;
        for i in 0..6 {
            values = values.saturating_add((row[i] == LEAF) as u64);
        }
        values > 0 && self.occurs(block, leaf) > values
    }

    /// How many blocks are live.
    pub(crate) fn live(&self) -> u64 {
        let mut live = 0u64;
        for block in 0..self.next {
            live = live.saturating_add(self.is_live(block) as u64);
        }
        live
    }

    /// How many keys a block changed that is live, and not the head.
    pub(crate) fn changed(&self, block: u8) -> u64 {
        match self.told(block) {
            Some(told) if block != self.head && self.is_live(block) => told.changed,
            _ => 0,
        }
    }

    /// How often a text occurs in the state of a block.
    fn occurs(&self, block: u8, digest: &Digest) -> u64 {
        match self.told(block) {
            Some(told) => times(&told.whole.made, digest),
            None => 0,
        }
    }

    /// By how much more often it occurs than in the state of the block's prev.
    fn gain(&self, block: u8, digest: &Digest) -> u64 {
        let former = self.occurs(self.prev(block), digest);
        self.occurs(block, digest).saturating_sub(former)
    }

    /// How often it is to be counted: as often as it occurs in the head's state, and the gains of
    /// the other live blocks.
    pub(crate) fn count(&self, digest: &Digest) -> u64 {
        let mut count = self.occurs(self.head, digest);
        for block in 0..self.next {
            if block != self.head && self.is_live(block) {
                count = count.saturating_add(self.gain(block, digest));
            }
        }
        count
    }

    /// Whether an earlier live block has the text.
    pub(crate) fn is_older(&self, block: u8, digest: &Digest) -> bool {
        let mut older = false;
        for other in 0..block {
            older = older || self.is_live(other) && self.occurs(other, digest) > 0;
        }
        older
    }

    /// What a block has that is offered.
    pub(crate) fn offered(&self, offer: &Offer) -> Row {
        laid(&self.row(offer.prev), &offer.batch)
    }

    /// Why it is refused, if it is.
    pub(crate) fn refusal(&self, offer: &Offer) -> Option<ApplyError> {
        if self.is_live(offer.block) {
            Some(ApplyError::Known)
        } else if !self.is_live(offer.prev) {
            Some(ApplyError::NoPrev)
        } else if offer.height <= self.height(offer.prev) {
            Some(ApplyError::Height)
        } else if self.live() >= BLOCKS {
            Some(ApplyError::FullBlocks)
        } else if entries(&self.offered(offer)) > PAIRS {
            Some(ApplyError::FullPairs)
        } else {
            None
        }
    }

    /// Takes the next block, and answers the root of its state.
    pub(crate) fn take(&mut self, alloc: Global, offer: &Offer) -> Result<Digest, Fail> {
        let row = self.offered(offer);
        let whole = whole(alloc, &row)?;
        let root = whole.root;
        self.blocks.push(Told {
            prev: offer.prev,
            height: offer.height,
            row,
            changed: entries(&offer.batch),
            whole,
        })?;
        self.next = self.next.saturating_add(1);
        Ok(root)
    }
}
