ghost use Rattle.std.specs.Prelude.{◌≡◌, ◌+◌, ◌≤◌, ◌<◌, ◌↔◌, ℕ, List, true, false, length, Some, None, IfOk, OnOk, OnErr, Err, IsErr};
ghost use Rattle.std.specs.Option.{option_and_then, option_copied, option_map, IsSomeAnd};
ghost use Rattle.std.specs.FinMap.{empty, entries, get, insert};
ghost use Rattle.batch_model.specs.Changes.{after};
ghost use Rattle.fork_model.specs.Trees.{BlockTree, Header, IsTree, block_fault, is_live};
ghost use Rattle.fork_model.specs.States.{ForkState, IsForkState, first_fork, head_moved, kept_changes, state_at, state_over, tree_of_blocks, with_block};
ghost use Rattle.base_core.specs.Bounds.{most_blocks, most_pairs};
ghost use Rattle.fork_tree.specs.Answers.{IsPlan};
ghost use Rattle.flat_store.specs.Flats.{HasSameBlocks, IsFlatOf, IsOnWay, keys_changed, laid_over, left_of, map_of};

use crate::errors::{PairsError, PairsOverError};
use crate::lists::{listed, settle, sweep, waits_on_way};
use crate::maps::{note, note_way, pairs_of};
use crate::moves::{forget, keys_in, lay_passed};
use base_core::{Changes, Digest, Limits, Pairs, Text};
use fork_tree::{Forks, Move, NotLive};
use std::alloc::{AllocError, Global};
use std::collections::HashMap;
use std::marker::Model;

/// The map of the head, and the changes of each other live block, which here is a block's delta.
/// The blocks themselves are kept in a tree, and calls that take one ask that its live blocks but
/// the head are those with deltas.
#[derive(Debug, Drop)]
pub struct Flat {
    head: HashMap<Vec<u8>, Text>,
    deltas: HashMap<Digest, Changes>,
    /// Of each key the blocks whose deltas change it, in the order in which they were added. Blocks
    /// without a delta may stand among them.
    lists: HashMap<Vec<u8>, Vec<Digest>>,
    /// The block that was added last, while it is not listed.
    newest: Option<Digest>,
    /// How many keys had a list after the last sweep.
    swept: usize,
    alloc: Global,
}

impl Model for Flat {
    ghost use Rattle.std.specs.HashMap.{spare};
    ghost use Rattle.flat_store.specs.Flats.{FlatState, flat_state_code};
    ghost use Rattle.flat_store.specs.Kept.{IsKept, deltas_of, head_of, room};

    ghost Value = { FlatState };

    ghost coded = { flat_state_code };

    ghost view = { λ s. record {
      head = head_of s.head.entries;
      deltas = deltas_of s.deltas.entries;
      spare = room s.newest (spare s.deltas);
    } };

    ghost invariant = { λ s. IsKept s.newest s.head.entries s.deltas.entries s.lists.entries };
}

impl Flat {
    /// The head alone, with the empty map.
    pub fn new(alloc: Global) -> Result<Flat, AllocError>
        ensures head { IfOk result (λ flat. flat.head ≡ empty) }
        ensures deltas { IfOk result (λ flat. flat.deltas ≡ empty) }
        ensures state { IfOk result (IsFlatOf first_fork) }
    {
        Ok(Flat {
            head: HashMap::new(alloc),
            deltas: HashMap::new(alloc),
            lists: HashMap::new(alloc),
            newest: None,
            swept: 0,
            alloc,
        })
    }

    /// What a key has in the map of a live block. It takes no memory, and time by the changes of
    /// that key, with few steps for each block on the way to the head.
    pub fn get(&self, forks: &Forks, id: &Digest, key: &[u8]) -> Result<Option<&[u8]>, NotLive>
        requires { HasSameBlocks forks.now.tree self.now.deltas }
        ensures not_live { IsErr result ↔ (is_live forks.now.tree id.now.0 ≡ false) }
        ensures value { IfOk result (λ found. option_copied found ≡ get (map_of self.now forks.now.tree id.now.0) key.now) }
        ensures state { (blocks : ForkState) → IsForkState blocks → tree_of_blocks blocks ≡ forks.now.tree → IsFlatOf blocks self.now → IfOk result (λ found. IsSomeAnd (state_at blocks id.now.0) (λ state. option_copied found ≡ get state key.now)) }
    {
        if !forks.is_live(id) {
            return Err(NotLive);
        }
        // The nearest block that changes the key, but for blocks that stay listed for a while.
        let mut at = self.nearest(forks, id, key);
        while let Some(prev) = forks.prev_of(&at) {
            if let Some(value) = self.change(&at, key) {
                return Ok(value);
            }
            at = prev;
        }
        match self.head.get(key) {
            Some(value) => Ok(Some(value.as_slice())),
            None => Ok(None),
        }
    }

    /// A block on the way from a live one to the head, before which no delta on the way changes the
    /// key.
    fn nearest(&self, forks: &Forks, id: &Digest, key: &[u8]) -> Digest
        requires tree { IsTree forks.now.tree }
        requires live { is_live forks.now.tree id.now.0 ≡ true }
        ensures { IsOnWay forks.now.tree self.now key.now id.now.0 result.0 }
    {
        // The newest block is not listed yet. Where it is on the way, it comes first there.
        if waits_on_way(forks, self.newest, &self.deltas, id, key) {
            return *id;
        }
        forks.nearest(id, listed(&self.lists, key))
    }

    /// What a key becomes by the delta of a block, if it has one that changes the key.
    fn change(&self, id: &Digest, key: &[u8]) -> Option<Option<&[u8]>>
        ensures { option_map option_copied result ≡ option_and_then (λ changes. get changes key.now) (get self.now.deltas id.now.0) }
    {
        match self.deltas.get(id) {
            Some(changes) => changes.get(key),
            None => None,
        }
    }

    /// Makes room for the delta of one more block. The one that was added last is laid into the
    /// index before.
    pub fn reserve(&mut self) -> Result<(), AllocError>
        ensures room { OnOk result (1 ≤ self.new.spare) }
        ensures least_room { self.old.spare ≤ self.new.spare }
        ensures head { self.new.head ≡ self.old.head }
        ensures deltas { self.new.deltas ≡ self.old.deltas }
        ensures state { (blocks : ForkState) → IsFlatOf blocks self.old → IsFlatOf blocks self.new }
    {
        settle(self.alloc, &mut self.lists, &self.deltas, self.newest)?;
        self.newest = None;
        self.deltas.reserve(1)
    }

    /// Adds the delta of a block that is new among the live ones. It takes no memory.
    pub fn add(&mut self, id: Digest, changes: Changes)
        requires room { 1 ≤ self.old.spare }
        requires few { length (entries self.old.deltas) < most_blocks }
        requires new { get self.old.deltas id.0 ≡ None }
        ensures head { self.new.head ≡ self.old.head }
        ensures deltas { self.new.deltas ≡ insert self.old.deltas id.0 changes.changes }
        ensures room { self.old.spare ≤ self.new.spare + 1 }
        ensures state { (most : ℕ) (blocks : ForkState) (header : Header) → header.id ≡ id.0 → block_fault most (tree_of_blocks blocks) header ≡ None → IsFlatOf blocks self.old → IsFlatOf (with_block blocks header changes.changes) self.new }
    {
        self.newest = Some(id);
        match self.deltas.insert(id, changes) {
            Ok(_) => {}
            // There is room.
            Err(_) => unreachable!(),
        }
    }

    /// Moves the head as planned: the deltas of the blocks that are passed are laid over its map in
    /// their order, and those of the blocks that are dropped are given up. All memory is taken
    /// before anything is changed.
    pub fn move_head(&mut self, m: &Move) -> Result<(), AllocError>
        requires { (tree : BlockTree) × (id : List ℕ) × IsTree tree × IsPlan tree id m.now × HasSameBlocks tree self.old.deltas }
        ensures head { OnOk result (self.new.head ≡ laid_over self.old.deltas m.now.passed self.old.head) }
        ensures deltas { OnOk result ((id : List ℕ) → get self.new.deltas id ≡ left_of m.now.dropped id (left_of m.now.passed id (get self.old.deltas id))) }
        ensures err { OnErr result (self.new ≡ self.old) }
        ensures room { self.old.spare ≤ self.new.spare }
        ensures state { OnOk result ((blocks : ForkState) (id : List ℕ) → IsForkState blocks → IsPlan (tree_of_blocks blocks) id m.now → IsFlatOf blocks self.old → IsFlatOf (head_moved blocks id) self.new) }
    {
        // A key takes one place of the head's table at most.
        self.head.reserve(keys_in(&self.deltas, &m.passed))?;
        lay_passed(&mut self.head, &mut self.deltas, &m.passed);
        forget(&mut self.deltas, &m.dropped);
        self.swept = sweep(&mut self.lists, &self.deltas, self.swept);
        Ok(())
    }

    /// The map of a live block, which has no more pairs than a state may have.
    pub fn pairs_at(&self, alloc: Global, forks: &Forks, id: &Digest) -> Result<Pairs, PairsError>
        requires blocks { HasSameBlocks forks.now.tree self.now.deltas }
        requires few { is_live forks.now.tree id.now.0 ≡ true → length (entries (map_of self.now forks.now.tree id.now.0)) ≤ most_pairs }
        ensures not_live { (result ≡ Err PairsError.NotLive) ↔ (is_live forks.now.tree id.now.0 ≡ false) }
        ensures pairs { IfOk result (λ pairs. pairs.state ≡ map_of self.now forks.now.tree id.now.0) }
        ensures state { (blocks : ForkState) → IsForkState blocks → tree_of_blocks blocks ≡ forks.now.tree → IsFlatOf blocks self.now → IfOk result (λ pairs. state_at blocks id.now.0 ≡ Some pairs.state) }
    {
        if !forks.is_live(id) {
            return Err(PairsError::NotLive);
        }
        let mut newest = HashMap::new(alloc);
        note_way(alloc, &mut newest, forks, &self.deltas, id)?;
        match pairs_of(alloc, &self.head, newest, Limits::FULL.pairs) {
            Ok(pairs) => Ok(pairs),
            Err(PairsOverError::NoMemory) => Err(PairsError::NoMemory),
            // The map is not too large, and the block is live.
            Err(PairsOverError::Full) => unreachable!(),
            Err(PairsOverError::NotLive) => unreachable!(),
        }
    }

    /// The map of a live block with changes laid over, if it has at most so many pairs.
    pub fn pairs_over(
        &self,
        alloc: Global,
        forks: &Forks,
        prev: &Digest,
        changes: &Changes,
        most: u64,
    ) -> Result<Pairs, PairsOverError>
        requires blocks { HasSameBlocks forks.now.tree self.now.deltas }
        requires most { most ≤ most_pairs }
        ensures not_live { (result ≡ Err PairsOverError.NotLive) ↔ (is_live forks.now.tree prev.now.0 ≡ false) }
        ensures full { (result ≡ Err PairsOverError.Full) → most < length (entries (after (map_of self.now forks.now.tree prev.now.0) changes.now.changes)) }
        ensures fits { IfOk result (λ pairs. length (entries pairs.state) ≤ most) }
        ensures pairs { IfOk result (λ pairs. pairs.state ≡ after (map_of self.now forks.now.tree prev.now.0) changes.now.changes) }
        ensures state { (blocks : ForkState) → IsForkState blocks → tree_of_blocks blocks ≡ forks.now.tree → IsFlatOf blocks self.now → IfOk result (λ pairs. state_over blocks prev.now.0 changes.now.changes ≡ Some pairs.state) }
        ensures full_state { (blocks : ForkState) → IsForkState blocks → tree_of_blocks blocks ≡ forks.now.tree → IsFlatOf blocks self.now → (result ≡ Err PairsOverError.Full) → IsSomeAnd (state_over blocks prev.now.0 changes.now.changes) (λ state. most < length (entries state)) }
    {
        if !forks.is_live(prev) {
            return Err(PairsOverError::NotLive);
        }
        let mut newest = HashMap::new(alloc);
        note(alloc, &mut newest, changes)?;
        note_way(alloc, &mut newest, forks, &self.deltas, prev)?;
        pairs_of(alloc, &self.head, newest, most)
    }

    /// How many keys all deltas change, each delta by itself. It takes no memory.
    pub fn entries(&self) -> u64
        ensures entries { result ≡ keys_changed self.now.deltas }
        ensures state { (blocks : ForkState) → IsForkState blocks → IsFlatOf blocks self.now → result ≡ kept_changes blocks }
    {
        let mut keys = 0;
        for changes in self.deltas.values() {
            keys += changes.len();
        }
        keys
    }
}
