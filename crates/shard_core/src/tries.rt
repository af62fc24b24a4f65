ghost use Rattle.std.specs.Prelude.{◌≡◌, ℕ, List, None, IfErr, IfOk, OnOk, OnErr, Err, true, false};
ghost use Rattle.std.specs.Option.{option_map};
ghost use Rattle.std.specs.FinMap.{empty, get};
ghost use Rattle.trie_model.specs.State.{State};
ghost use Rattle.trie_model.specs.Root as trie;
ghost use Rattle.change_model.specs.Visits.{batch_visits};
ghost use Rattle.fork_model.specs.Trees.{Header, is_live};
ghost use Rattle.batch_model.specs.Changes.{AreChanges, Changes as Batch};
ghost use Rattle.fork_model.specs.States.{ForkState, first_fork, head_moved, tree_of_blocks, with_block};
ghost use Rattle.fork_tree.specs.Answers.{IsPlan};
ghost use Rattle.base_core.specs.Faults.{IsCounted, faults_after};
ghost use Rattle.text_store.specs.Leaves.{Leaves};
ghost use Rattle.text_store.specs.Loading.{StaysKept};
ghost use Rattle.shard_core.specs.Answers.{AnswersCarry, AnswersTake, IsOffered, IsPrev, apply_ended};
ghost use Rattle.shard_core.specs.KeptTries.{AreTriesOf, IsAmidBlock, IsAmidMove};
ghost use Rattle.shard_core.specs.Ledgers.{ledgers_of};
ghost use Rattle.shard_core.specs.declared.errors.ApplyError.TheVariants.{NoMemory};

use crate::adding::add_all;
use crate::errors::ApplyError;
use crate::ledger::Ledger;
use crate::occurrences::{gains, losses};
use crate::releasing::{release_gains, release_losses};
use base_core::{Changes, Digest, Fault};
use fork_tree::{Forks, Move};
use std::alloc::Global;
use std::collections::HashMap;
use text_store::Nodes;
use trie_update::{Change, UpdateError, update};

/// The tries of the live blocks: the store that has their texts, and a ledger of each block.
#[derive(Debug, Drop)]
pub(crate) struct Tries<N: Nodes> {
    pub(crate) nodes: N,
    pub(crate) ledgers: HashMap<Digest, Ledger>,
}

/// What a batch makes of a live block's trie, and how many pairs the new state has.
#[derive(Debug, Drop)]
pub(crate) struct Carried {
    pub(crate) change: Change,
    pub(crate) pairs: u64,
}

impl<N: Nodes> Tries<N> {
    /// That of the head alone, with the empty state, over an empty store.
    pub(crate) fn new(alloc: Global, nodes: N) -> Result<Tries<N>, N>
        requires { N.store.texts nodes ≡ empty }
        ensures nodes { IfOk result (λ tries. tries.nodes ≡ nodes) }
        ensures back { IfErr result (λ back. back ≡ nodes) }
        ensures blocks { IfOk result (λ tries. AreTriesOf (N.store.texts tries.nodes) (N.count_of tries.nodes) (ledgers_of tries.ledgers.entries) first_fork) }
    {
        let head = Ledger {
            root: Digest::ZERO,
            pairs: 0,
            gains: Vec::new(alloc),
            losses: Vec::new(alloc),
        };
        // The store tells that it counts nothing.
        let _ = nodes.distinct();
        let mut ledgers = HashMap::new(alloc);
        match ledgers.insert(Digest::ZERO, head) {
            Ok(_) => Ok(Tries { nodes, ledgers }),
            Err(_) => Err(nodes),
        }
    }

    /// The root of a block, if it has a ledger. It takes no memory.
    pub(crate) fn root(&self, id: &Digest) -> Option<Digest>
        ensures { option_map (λ root. root.0) result ≡ option_map (λ ledger. ledger.root) (get (ledgers_of self.now.ledgers.entries) id.now.0) }
    {
        match self.ledgers.get(id) {
            Some(ledger) => Some(ledger.root),
            None => None,
        }
    }

    /// How many pairs the state of a block has, if it has a ledger. It takes no memory.
    pub(crate) fn pairs(&self, id: &Digest) -> Option<u64>
        ensures { result ≡ option_map (λ ledger. ledger.pairs) (get (ledgers_of self.now.ledgers.entries) id.now.0) }
    {
        match self.ledgers.get(id) {
            Some(ledger) => Some(ledger.pairs),
            None => None,
        }
    }

    /// Carries a batch out over the trie of a live block. The store is not changed.
    pub(crate) fn carry_out(
        &mut self,
        alloc: Global,
        prev: &Digest,
        changes: &Changes,
    ) -> Result<Carried, ApplyError>
        requires { (forks : ForkState) × (state : State) × IsPrev (N.store.texts self.old.nodes) (N.count_of self.old.nodes) (ledgers_of self.old.ledgers.entries) forks prev.now.0 state }
        ensures answer { (forks : ForkState) (state : State) → IsPrev (N.store.texts self.old.nodes) (N.count_of self.old.nodes) (ledgers_of self.old.ledgers.entries) forks prev.now.0 state → AnswersCarry state changes.now.changes result }
        ensures left { (forks : ForkState) (state : State) → IsPrev (N.store.texts self.old.nodes) (N.count_of self.old.nodes) (ledgers_of self.old.ledgers.entries) forks prev.now.0 state → Leaves N.store self.old.nodes self.new.nodes (batch_visits (N.store.texts self.old.nodes) (trie.root state) changes.now.changes).digests (apply_ended result) }
        ensures ledgers { self.new.ledgers ≡ self.old.ledgers }
        ensures within { AreChanges changes.now.changes }
    {
        // They are within the limits of a batch.
        let _ = changes.len();
        let Some(ledger) = self.ledgers.get(prev) else {
            // The block is live.
            unreachable!()
        };
        let pairs = ledger.pairs;
        match update(alloc, &mut self.nodes, &ledger.root, changes) {
            Ok(change) => {
                let pairs = pairs + change.fresh - change.gone;
                Ok(Carried { change, pairs })
            }
            Err(UpdateError::Clash { digest, .. }) => Err(ApplyError::Clash { digest }),
            Err(UpdateError::Fault) => Err(ApplyError::StoreFault),
            Err(UpdateError::NoMemory) => Err(ApplyError::NoMemory),
            // The store has all texts of the block's state.
            Err(UpdateError::Missing { .. }) => unreachable!(),
            Err(UpdateError::Bad { .. }) => unreachable!(),
            Err(UpdateError::Usage { .. }) => unreachable!(),
        }
    }

    /// Adds the texts that a block's batch makes, and the ledger of the block, and answers the root.
    /// All memory is taken before the first text is added.
    pub(crate) fn take_in(
        &mut self,
        alloc: Global,
        id: &Digest,
        carried: Carried,
    ) -> Result<Digest, ApplyError>
        requires { (forks : ForkState) × (most : ℕ) × (header : Header) × (state : State) × (changes : Batch) × (id.now.0 ≡ header.id) × AreTriesOf (N.store.texts self.old.nodes) (N.count_of self.old.nodes) (ledgers_of self.old.ledgers.entries) forks × IsOffered forks most header state changes carried }
        ensures ok { (forks : ForkState) (most : ℕ) (header : Header) (state : State) (changes : Batch) → id.now.0 ≡ header.id → AreTriesOf (N.store.texts self.old.nodes) (N.count_of self.old.nodes) (ledgers_of self.old.ledgers.entries) forks → IsOffered forks most header state changes carried → OnOk result (AreTriesOf (N.store.texts self.new.nodes) (N.count_of self.new.nodes) (ledgers_of self.new.ledgers.entries) (with_block forks header changes)) }
        ensures root { IfOk result (λ root. root ≡ carried.change.root) }
        ensures answer { (forks : ForkState) (most : ℕ) (header : Header) (state : State) (changes : Batch) → AreTriesOf (N.store.texts self.old.nodes) (N.count_of self.old.nodes) (ledgers_of self.old.ledgers.entries) forks → IsOffered forks most header state changes carried → AnswersTake forks state changes result }
        ensures memory { (forks : ForkState) → AreTriesOf (N.store.texts self.old.nodes) (N.count_of self.old.nodes) (ledgers_of self.old.ledgers.entries) forks → (result ≡ Err NoMemory) → AreTriesOf (N.store.texts self.new.nodes) (N.count_of self.new.nodes) (ledgers_of self.new.ledgers.entries) forks }
        ensures amid { (forks : ForkState) (most : ℕ) (header : Header) (state : State) (changes : Batch) → AreTriesOf (N.store.texts self.old.nodes) (N.count_of self.old.nodes) (ledgers_of self.old.ledgers.entries) forks → IsOffered forks most header state changes carried → OnErr result (IsAmidBlock (N.store.texts self.new.nodes) (N.count_of self.new.nodes) forks state changes) }
        ensures loads { N.store.loads self.new.nodes ≡ N.store.loads self.old.nodes }
        ensures kept { StaysKept (N.store.kept self.old.nodes) (N.store.kept self.new.nodes) }
        ensures counted { N.store.faults self.new.nodes ≡ faults_after (apply_ended result) (N.store.faults self.old.nodes) }
    {
        let Change {
            root,
            made,
            lost,
            ..
        } = carried.change;
        let ledger = Ledger {
            root,
            pairs: carried.pairs,
            gains: gains(alloc, &made)?,
            losses: losses(alloc, &lost)?,
        };
        self.ledgers.reserve(1)?;
        self.nodes.reserve(made.len())?;
        add_all(&mut self.nodes, made)?;
        match self.ledgers.insert(*id, ledger) {
            Ok(_) => Ok(root),
            // There is room.
            Err(_) => unreachable!(),
        }
    }

    /// Releases what a move of the head takes away: the losses of the blocks that it passes, and
    /// the gains of those that it drops. It takes no memory.
    pub(crate) fn release(&mut self, plan: &Move) -> Result<(), Fault>
        requires { (forks : ForkState) × (id : List ℕ) × AreTriesOf (N.store.texts self.old.nodes) (N.count_of self.old.nodes) (ledgers_of self.old.ledgers.entries) forks × IsPlan (tree_of_blocks forks) id plan.now }
        ensures ok { (forks : ForkState) (id : List ℕ) → AreTriesOf (N.store.texts self.old.nodes) (N.count_of self.old.nodes) (ledgers_of self.old.ledgers.entries) forks → IsPlan (tree_of_blocks forks) id plan.now → OnOk result (AreTriesOf (N.store.texts self.new.nodes) (N.count_of self.new.nodes) (ledgers_of self.new.ledgers.entries) (head_moved forks id)) }
        ensures amid { (forks : ForkState) (id : List ℕ) → AreTriesOf (N.store.texts self.old.nodes) (N.count_of self.old.nodes) (ledgers_of self.old.ledgers.entries) forks → IsPlan (tree_of_blocks forks) id plan.now → OnErr result (IsAmidMove (N.store.texts self.new.nodes) (N.count_of self.new.nodes) forks id) }
        ensures loads { N.store.loads self.new.nodes ≡ N.store.loads self.old.nodes }
        ensures kept { StaysKept (N.store.kept self.old.nodes) (N.store.kept self.new.nodes) }
        ensures counted { IsCounted (N.store.faults self.old.nodes) (N.store.faults self.new.nodes) result }
    {
        release_losses(&mut self.nodes, &self.ledgers, &plan.passed)?;
        release_gains(&mut self.nodes, &self.ledgers, &plan.dropped)
    }

    /// Gives the ledgers up of blocks that are not live.
    pub(crate) fn keep_live(&mut self, forks: &Forks)
        ensures nodes { self.new.nodes ≡ self.old.nodes }
        ensures ledgers { (id : List ℕ) → is_live forks.now.tree id ≡ true → get (ledgers_of self.new.ledgers.entries) id ≡ get (ledgers_of self.old.ledgers.entries) id }
        ensures gone { (id : List ℕ) → is_live forks.now.tree id ≡ false → get (ledgers_of self.new.ledgers.entries) id ≡ None }
    {
        self.ledgers.retain(|id, _| forks.is_live(id));
    }
}
