ghost use Rattle.std.specs.Prelude.{◌≡◌, ◌+◌, ◌≤◌, ℕ, List, true, false, length, map, IfOk, OnOk, Err, ◌↔◌, None};
ghost use Rattle.std.specs.Option.{option_map};
ghost use Rattle.fork_model.specs.Trees.{IsTree, block_fault, grown, is_live, moved, prev_of, start};
ghost use Rattle.fork_tree.specs.Answers.{IsPlan, checked};
ghost use Rattle.fork_tree.specs.Nearest.{IsNearest};

use crate::block::Block;
use crate::commits::{forget_all, keep_placed, put_places};
use crate::errors::{ForkError, MoveError};
use crate::ids::{Ids, Move};
use crate::links::{Links, link_all, links_over};
use crate::nearest::nearest_to;
use crate::plans::{dropped_by, line_to};
use base_core::Digest;
use std::alloc::{AllocError, Global};
use std::collections::HashMap;
use std::marker::Model;

/// The live blocks, on which each stands, and how many may be live at most. A block is offered to
/// `check`, and then added where there is room. A move of the head is planned and then committed.
#[derive(Debug, Drop)]
pub struct Forks {
    /// In the order in which they were added, the head first.
    live: Vec<Block>,
    /// The place of each, by its id.
    places: HashMap<Digest, usize>,
    most: u64,
}

impl Model for Forks {
    ghost use Rattle.std.specs.Prelude.{◌-◌, min, vec_len, vec_capacity};
    ghost use Rattle.std.specs.HashMap.{spare};
    ghost use Rattle.fork_tree.specs.Kept.{ForkTree, fork_tree_code, tree_of, IsBounded};

    ghost Value = { ForkTree };

    ghost coded = { fork_tree_code };

    ghost view = { λ s. record {
      tree = tree_of s.live.items;
      most = s.most;
      spare = min (vec_capacity s.live - vec_len s.live) (spare s.places);
    } };

    ghost invariant = { λ s. IsBounded s.live.items s.places.entries s.most };
}

impl Forks {
    /// The head alone, under the zero id, at height 0. At most so many blocks will be live.
    pub fn new(alloc: Global, most: u64) -> Result<Forks, AllocError>
        requires { 1 ≤ most }
        ensures tree { IfOk result (λ forks. forks.tree ≡ start) }
        ensures most { IfOk result (λ forks. forks.most ≡ most) }
    {
        let head = Block {
            id: Digest::ZERO,
            prev: Digest::ZERO,
            height: 0,
            links: Links {
                before: 0,
                jump: 0,
                depth: 0,
            },
        };
        let mut live = Vec::new(alloc);
        live.push(head)?;
        let mut places = HashMap::new(alloc);
        places.insert(head.id, 0)?;
        Ok(Forks { live, places, most })
    }

    /// Whether a block may be added, and if not, why. It takes no memory.
    pub fn check(&self, id: &Digest, prev: &Digest, height: u64) -> Result<(), ForkError>
        ensures answer { result ≡ checked (block_fault self.now.most self.now.tree (record { id = id.now.0; prev = prev.now.0; height = height })) }
        ensures accepted { OnOk result (block_fault self.now.most self.now.tree (record { id = id.now.0; prev = prev.now.0; height = height }) ≡ None) }
    {
        if self.places.contains_key(id) {
            return Err(ForkError::Known);
        }
        let Some(place) = self.places.get(prev) else {
            return Err(ForkError::NoPrev);
        };
        if height <= self.live[*place].height {
            return Err(ForkError::Height);
        }
        if self.live.len() as u64 >= self.most {
            return Err(ForkError::Full);
        }
        Ok(())
    }

    /// Makes room for one more block.
    pub fn reserve(&mut self) -> Result<(), AllocError>
        ensures room { OnOk result (1 ≤ self.new.spare) }
        ensures least_room { self.old.spare ≤ self.new.spare }
        ensures tree { self.new.tree ≡ self.old.tree }
        ensures most { self.new.most ≡ self.old.most }
    {
        self.live.reserve(1)?;
        self.places.reserve(1)
    }

    /// Adds a block behind those that are live. It takes no memory.
    pub fn add(&mut self, id: Digest, prev: Digest, height: u64)
        requires accepted { block_fault self.old.most self.old.tree (record { id = id.0; prev = prev.0; height = height }) ≡ None }
        requires room { 1 ≤ self.old.spare }
        ensures tree { self.new.tree ≡ grown self.old.tree (record { id = id.0; prev = prev.0; height = height }) }
        ensures most { self.new.most ≡ self.old.most }
        ensures room { self.old.spare ≤ self.new.spare + 1 }
    {
        let place = self.live.len();
        let Some(before) = self.places.get(&prev) else {
            // The prev is live.
            unreachable!()
        };
        let links = links_over(&self.live, *before);
        match self.live.push(Block {
            id,
            prev,
            height,
            links,
        }) {
            Ok(()) => {}
            // There is room.
            Err(_) => unreachable!(),
        }
        match self.places.insert(id, place) {
            Ok(_) => {}
            // There is room.
            Err(_) => unreachable!(),
        }
    }

    /// The id of the head. It takes no memory.
    pub fn head(&self) -> Digest
        ensures { result.0 ≡ self.now.tree.head }
    {
        self.live[0].id
    }

    /// Whether a block with the id is live. It takes no memory.
    pub fn is_live(&self, id: &Digest) -> bool
        ensures live { result ≡ is_live self.now.tree id.now.0 }
        ensures tree { IsTree self.now.tree }
    {
        self.places.contains_key(id)
    }

    /// The id of the block on which a live one stands, and none for the head and for an id that is
    /// not live. It takes no memory.
    pub fn prev_of(&self, id: &Digest) -> Option<Digest>
        ensures { option_map (λ prev. prev.0) result ≡ prev_of self.now.tree id.now.0 }
    {
        if *id == self.live[0].id {
            return None;
        }
        match self.places.get(id) {
            Some(place) => Some(self.live[*place].prev),
            None => None,
        }
    }

    /// The nearest of some blocks on the way from a live block to the head, that block among them,
    /// and the head where none of them is on the way. It takes no memory, and for each id a time by
    /// the logarithm of the blocks on the way.
    pub fn nearest(&self, id: &Digest, ids: &[Digest]) -> Digest
        requires { is_live self.now.tree id.now.0 ≡ true }
        ensures { IsNearest self.now.tree (map (λ id. id.0) ids.now) id.now.0 result.0 }
    {
        let Some(start) = self.places.get(id) else {
            // The block is live.
            unreachable!()
        };
        let place = nearest_to(&self.live, &self.places, *start, ids);
        self.live[place].id
    }

    /// How many blocks are live, the head among them. It takes no memory.
    pub fn len(&self) -> u64
        ensures len { result ≡ length self.now.tree.blocks }
        ensures bound { result ≤ self.now.most }
    {
        self.live.len() as u64
    }

    /// What a move of the head to a live block passes and drops. It takes time by the number of
    /// live blocks.
    pub fn plan_move(&self, alloc: Global, id: &Digest) -> Result<Move, MoveError>
        ensures not_live { (result ≡ Err MoveError.NotLive) ↔ (is_live self.now.tree id.now.0 ≡ false) }
        ensures plan { IfOk result (IsPlan self.now.tree id.now.0) }
    {
        let Some(place) = self.places.get(id) else {
            return Err(MoveError::NotLive);
        };
        let mut line = line_to(alloc, &self.live, *place)?;
        let dropped = dropped_by(alloc, &self.live, id, &line)?;
        // The head is on the line, and is not passed.
        line.remove(0);
        Ok(Move {
            passed: Ids::new(line),
            dropped: Ids::new(dropped),
        })
    }

    /// Moves the head as planned: of the live blocks that to which it moves and its descendants
    /// stay. It takes no memory, and time by the number of live blocks.
    pub fn commit_move(&mut self, m: &Move)
        requires { (id : List ℕ) × IsPlan self.old.tree id m.now }
        ensures tree { (id : List ℕ) → IsPlan self.old.tree id m.now → self.new.tree ≡ moved self.old.tree id }
        ensures most { self.new.most ≡ self.old.most }
        ensures room { self.old.spare ≤ self.new.spare }
    {
        let head = self.live[0].id;
        let Some((_, before)) = m.passed.as_slice().split_last() else {
            // The head stays, and all blocks with it.
            return;
        };
        // What does not stay is taken from the table, and then from the list. What stays closes up
        // in its order, and each place is written over the former one, in the table and then in the
        // links of blocks, so no memory is taken.
        forget_all(&mut self.places, &head, before, m.dropped.as_slice());
        keep_placed(&mut self.live, &self.places);
        put_places(&mut self.places, &self.live);
        link_all(&mut self.live, &self.places);
    }
}
