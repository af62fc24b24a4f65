ghost use Rattle.std.specs.Prelude.{◌≡◌, ◌↔◌, ◌≤◌, ◌&&◌, ◌||◌, ℕ, length, IfOk, IfErr, IsErr, Err, Some, true, false, ⊤};
ghost use Rattle.std.specs.Borrow.{sem, follows_so};
ghost use Rattle.std.specs.Option.{IsSomeAnd, option_copied};
ghost use Rattle.std.specs.FinMap.{empty, get, len};
ghost use Rattle.trie_model.specs.State.{State, longest_key};
ghost use Rattle.trie_model.specs.Root as trie;
ghost use Rattle.trie_model.specs.Root.{total};
ghost use Rattle.base_core.specs.Bounds.{AreLimits};
ghost use Rattle.base_core.specs.Faults.{faults_after};
ghost use Rattle.fork_model.specs.States.{ForkState, first_fork, kept_changes, state_at};
ghost use Rattle.fork_model.specs.Trees.{is_live};
ghost use Rattle.count_model.specs.BlockEnds.{block_end};
ghost use Rattle.count_model.specs.Loads.{carry_out, loads, look_up, tell_usage};
ghost use Rattle.count_model.specs.Tables.{distinct_texts};
ghost use Rattle.text_store.specs.Leaves.{CountsLoads};
ghost use Rattle.text_store.specs.Loading.{NO_NAME};
ghost use Rattle.shard_core.specs.Answers.{apply_ended};
ghost use Rattle.shard_core.specs.Shards.{IsShardOf};
ghost use Rattle.shard_core.specs.contracts.shard.Shard.{the_row};
ghost use Rattle.shard_core.specs.ShardAnswers.{AnswersApply, AnswersMove, LeavesApply, LeavesMove, LeavesReading, cuts_move_short, cuts_short, head_ended, header_of};

use crate::accepting::{accept, cuts_short};
use crate::block::{Applied, Block, HeadMoved, Stats};
use crate::errors::{ApplyError, FlatError, HeadError, ShardPairsError, Stopped, TrieError};
use crate::tries::Tries;
use base_core::{Digest, Fault, Limits, Pairs};
use flat_store::{Flat, PairsError};
use fork_tree::Forks;
use std::alloc::Global;
use std::marker::Model;
use text_store::Nodes;
use trie_read::{ReadError, usage_of};

/// The state of one shard: the live blocks, with the trie of each in one store of nodes, and the
/// map of each in flat storage. A fault of the store or a clash in the middle of a change stops it:
/// from then on it answers nothing, and the store can be taken out.
#[derive(Debug, Drop)]
pub struct Shard<N: Nodes> {
    alloc: Global,
    pub(crate) tries: Tries<N>,
    forks: Forks,
    flat: Flat,
    limits: Limits,
    stopped: bool,
}

impl<N: Nodes> Model for Shard<N> {
    ghost use Rattle.shard_core.specs.Ledgers.{ledgers_of};
    ghost use Rattle.shard_core.specs.Shards.{IsShard, ShardState, shard_state_code};

    ghost Value = { ShardState N };

    ghost coded = { shard_state_code N.code };

    ghost view = { λ s. record {
      nodes = s.tries.nodes;
      ledgers = ledgers_of s.tries.ledgers.entries;
      forks = s.forks;
      flat = s.flat;
      limits = s.limits;
      stopped = s.stopped;
    } };

    ghost invariant = { λ s. IsShard N.store N.count_of (record {
      nodes = s.tries.nodes;
      ledgers = ledgers_of s.tries.ledgers.entries;
      forks = s.forks;
      flat = s.flat;
      limits = s.limits;
      stopped = s.stopped;
    }) };
}

impl<N: Nodes> Shard<N> {
    /// The start over an empty store: one block, the head, with the empty state.
    pub fn new(alloc: Global, nodes: N, limits: Limits) -> Result<Shard<N>, N>
        requires limits { AreLimits limits }
        requires empty { N.store.texts nodes ≡ empty }
        ensures blocks { IfOk result (IsShardOf N.store N.count_of first_fork) }
        ensures going { IfOk result (λ shard. shard.stopped ≡ false) }
        ensures limits { IfOk result (λ shard. shard.limits ≡ limits) }
        ensures nodes { IfOk result (λ shard. shard.nodes ≡ nodes) }
        ensures back { IfErr result (λ back. back ≡ nodes) }
    {
        let Ok(forks) = Forks::new(alloc, limits.blocks) else {
            return Err(nodes);
        };
        let Ok(flat) = Flat::new(alloc) else {
            return Err(nodes);
        };
        let tries = Tries::new(alloc, nodes)?;
        Ok(Shard {
            alloc,
            tries,
            forks,
            flat,
            limits,
            stopped: false,
        })
    }

    /// Applies a block: its changes are carried out over the trie of its prev, and it is live. All
    /// memory is taken before the first change.
    pub fn apply(&mut self, block: Block) -> Result<Applied, ApplyError>
        ensures stopped { (result ≡ Err ApplyError.Stopped) ↔ (self.old.stopped ≡ true) }
        ensures answer { (blocks : ForkState) → self.old.stopped ≡ false → IsShardOf N.store N.count_of blocks self.old → AnswersApply (block_end self.old.limits.pairs self.old.limits.blocks blocks (header_of block) block.changes.changes) result }
        ensures state { (blocks : ForkState) → self.old.stopped ≡ false → IsShardOf N.store N.count_of blocks self.old → LeavesApply N.store N.count_of blocks (header_of block) block.changes.changes result self.new }
        ensures stops { self.new.stopped ≡ (self.old.stopped || cuts_short result) }
        ensures limits { self.new.limits ≡ self.old.limits }
        ensures loads { (blocks : ForkState) → self.old.stopped ≡ false → IsShardOf N.store N.count_of blocks self.old → CountsLoads (apply_ended result) (N.store.loads self.old.nodes) (N.store.loads self.new.nodes) (loads self.old.limits.blocks blocks (carry_out (header_of block) block.changes.changes)) }
        ensures faults { N.store.faults self.new.nodes ≡ faults_after (apply_ended result) (N.store.faults self.old.nodes) }
        ensures asleep { self.old.stopped ≡ true → self.new ≡ self.old }
    {
        if self.stopped {
            return Err(ApplyError::Stopped);
        }
        self.forks.check(&block.id, &block.prev, block.height)?;
        let answer = accept(
            self.alloc,
            &mut self.tries,
            &mut self.forks,
            &mut self.flat,
            &self.limits,
            block,
        );
        self.stopped = cuts_short(&answer);
        answer
    }

    /// Moves the head to a live block, which stays live with its descendants. All memory is taken
    /// before the first change.
    pub fn move_head(&mut self, id: &Digest) -> Result<HeadMoved, HeadError>
        ensures stopped { (result ≡ Err HeadError.Stopped) ↔ (self.old.stopped ≡ true) }
        ensures answer { (blocks : ForkState) → self.old.stopped ≡ false → IsShardOf N.store N.count_of blocks self.old → AnswersMove blocks id.now.0 result }
        ensures state { (blocks : ForkState) → self.old.stopped ≡ false → IsShardOf N.store N.count_of blocks self.old → LeavesMove N.store N.count_of blocks id.now.0 result self.new }
        ensures stops { self.new.stopped ≡ (self.old.stopped || cuts_move_short result) }
        ensures limits { self.new.limits ≡ self.old.limits }
        ensures loads { N.store.loads self.new.nodes ≡ N.store.loads self.old.nodes }
        ensures faults { N.store.faults self.new.nodes ≡ faults_after (head_ended result) (N.store.faults self.old.nodes) }
        ensures asleep { self.old.stopped ≡ true → self.new ≡ self.old }
    {
        if self.stopped {
            return Err(HeadError::Stopped);
        }
        let plan = self.forks.plan_move(self.alloc, id)?;
        self.flat.move_head(&plan)?;
        if let Err(Fault) = self.tries.release(&plan) {
            self.stopped = true;
            return Err(HeadError::StoreFault);
        }
        self.forks.commit_move(&plan);
        self.tries.keep_live(&self.forks);
        Ok(HeadMoved {
            passed: plan.passed.len(),
            dropped: plan.dropped.len(),
        })
    }

    /// What a key has in the map of a live block, from flat storage. It takes no memory.
    pub fn flat(&self, id: &Digest, key: &[u8]) -> Result<Option<&[u8]>, FlatError>
        ensures stopped { (result ≡ Err FlatError.Stopped) ↔ (self.now.stopped ≡ true) }
        ensures not_live { self.now.stopped ≡ false → (result ≡ Err FlatError.NotLive) ↔ (is_live self.now.forks.tree id.now.0 ≡ false) }
        ensures value { (blocks : ForkState) → IsShardOf N.store N.count_of blocks self.now → IfOk result (λ found. IsSomeAnd (state_at blocks id.now.0) (λ state. option_copied found ≡ get state key.now)) }
    {
        if self.stopped {
            return Err(FlatError::Stopped);
        }
        match self.flat.get(&self.forks, id, key) {
            Ok(value) => Ok(value),
            Err(_) => Err(FlatError::NotLive),
        }
    }

    /// What a key has in the map of a live block, from its trie: a load for each node on the key's
    /// path, and one for the value. It takes no memory.
    pub fn trie(&mut self, id: &Digest, key: &[u8]) -> Result<Option<&[u8]>, TrieError>
        requires { length key.now ≤ longest_key }
        ensures* after { sem 𝓛 (follows_so (the_row N.row (record { count_of = N.count_of; spare = N.spare }) (record { store = N.store; load_leaves = N.load_leaves })) (the_row N.row (record { count_of = N.count_of; spare = N.spare }) (record { store = N.store; load_leaves = N.load_leaves })) self.entry.ghost_name NO_NAME (λ _ _. ⊤)
            (λ new. LeavesReading N.store N.count_of (look_up id.now.0 key.now) self.old new result)) }
        ensures stopped { (result ≡ Err TrieError.Stopped) ↔ (self.old.stopped ≡ true) }
        ensures not_live { self.old.stopped ≡ false → (result ≡ Err TrieError.NotLive) ↔ (is_live self.old.forks.tree id.now.0 ≡ false) }
        ensures value { (blocks : ForkState) → IsShardOf N.store N.count_of blocks self.old → IfOk result (λ found. IsSomeAnd (state_at blocks id.now.0) (λ state. option_copied found ≡ get state key.now)) }
    {
        if self.stopped {
            return Err(TrieError::Stopped);
        }
        if !self.forks.is_live(id) {
            return Err(TrieError::NotLive);
        }
        let Some(root) = self.tries.root(id) else {
            // A live block has a ledger.
            unreachable!()
        };
        match trie_read::get(&mut self.tries.nodes, &root, key) {
            Ok(found) => Ok(found),
            Err(ReadError::Fault) => Err(TrieError::StoreFault),
            // The store has all texts of the block's state.
            Err(ReadError::Missing { .. }) => unreachable!(),
            Err(ReadError::Bad { .. }) => unreachable!(),
        }
    }

    /// The usage of a live block's state, with one load where the state has a pair. It takes no
    /// memory.
    pub fn usage(&mut self, id: &Digest) -> Result<u64, TrieError>
        ensures stopped { (result ≡ Err TrieError.Stopped) ↔ (self.old.stopped ≡ true) }
        ensures not_live { self.old.stopped ≡ false → (result ≡ Err TrieError.NotLive) ↔ (is_live self.old.forks.tree id.now.0 ≡ false) }
        ensures value { (blocks : ForkState) → IsShardOf N.store N.count_of blocks self.old → IfOk result (λ usage. IsSomeAnd (state_at blocks id.now.0) (λ state. usage ≡ total state)) }
        ensures left { LeavesReading N.store N.count_of (tell_usage id.now.0) self.old self.new result }
    {
        if self.stopped {
            return Err(TrieError::Stopped);
        }
        if !self.forks.is_live(id) {
            return Err(TrieError::NotLive);
        }
        let Some(root) = self.tries.root(id) else {
            // A live block has a ledger.
            unreachable!()
        };
        match usage_of(&mut self.tries.nodes, &root) {
            Ok(usage) => Ok(usage),
            Err(ReadError::Fault) => Err(TrieError::StoreFault),
            // The store has all texts of the block's state.
            Err(ReadError::Missing { .. }) => unreachable!(),
            Err(ReadError::Bad { .. }) => unreachable!(),
        }
    }

    /// The map of a live block, from flat storage.
    pub fn pairs(&self, alloc: Global, id: &Digest) -> Result<Pairs, ShardPairsError>
        ensures stopped { (result ≡ Err ShardPairsError.Stopped) ↔ (self.now.stopped ≡ true) }
        ensures not_live { self.now.stopped ≡ false → (result ≡ Err ShardPairsError.NotLive) ↔ (is_live self.now.forks.tree id.now.0 ≡ false) }
        ensures value { (blocks : ForkState) → IsShardOf N.store N.count_of blocks self.now → IfOk result (λ pairs. state_at blocks id.now.0 ≡ Some pairs.state) }
    {
        if self.stopped {
            return Err(ShardPairsError::Stopped);
        }
        match self.flat.pairs_at(alloc, &self.forks, id) {
            Ok(pairs) => Ok(pairs),
            Err(PairsError::NotLive) => Err(ShardPairsError::NotLive),
            Err(PairsError::NoMemory) => Err(ShardPairsError::NoMemory),
        }
    }

    /// Whether two live blocks have one root, and so one state. It takes no memory.
    pub fn same(&self, a: &Digest, b: &Digest) -> Result<bool, FlatError>
        ensures stopped { (result ≡ Err FlatError.Stopped) ↔ (self.now.stopped ≡ true) }
        ensures not_live { self.now.stopped ≡ false → (result ≡ Err FlatError.NotLive) ↔ ((is_live self.now.forks.tree a.now.0 && is_live self.now.forks.tree b.now.0) ≡ false) }
        ensures roots { (blocks : ForkState) (first second : State) → IsShardOf N.store N.count_of blocks self.now → state_at blocks a.now.0 ≡ Some first → state_at blocks b.now.0 ≡ Some second → IfOk result (λ same. (same ≡ true) ↔ (trie.root first ≡ trie.root second)) }
        ensures states { (blocks : ForkState) (first second : State) → IsShardOf N.store N.count_of blocks self.now → state_at blocks a.now.0 ≡ Some first → state_at blocks b.now.0 ≡ Some second → IfOk result (λ same. (same ≡ true) ↔ (first ≡ second)) }
    {
        let first = self.root_of(a)?;
        let second = self.root_of(b)?;
        Ok(first == second)
    }

    /// The root of a live block's state. It takes no memory.
    pub fn root_of(&self, id: &Digest) -> Result<Digest, FlatError>
        ensures stopped { (result ≡ Err FlatError.Stopped) ↔ (self.now.stopped ≡ true) }
        ensures not_live { self.now.stopped ≡ false → (result ≡ Err FlatError.NotLive) ↔ (is_live self.now.forks.tree id.now.0 ≡ false) }
        ensures value { (blocks : ForkState) → IsShardOf N.store N.count_of blocks self.now → IfOk result (λ root. IsSomeAnd (state_at blocks id.now.0) (λ state. root.0 ≡ trie.root state)) }
    {
        if self.stopped {
            return Err(FlatError::Stopped);
        }
        if !self.forks.is_live(id) {
            return Err(FlatError::NotLive);
        }
        match self.tries.root(id) {
            Some(root) => Ok(root),
            // A live block has a ledger.
            None => unreachable!(),
        }
    }

    /// How much is kept. It takes no memory.
    pub fn stats(&self) -> Result<Stats, Stopped>
        ensures stopped { IsErr result ↔ (self.now.stopped ≡ true) }
        ensures live { (blocks : ForkState) → IsShardOf N.store N.count_of blocks self.now → IfOk result (λ stats. stats.live ≡ length blocks.blocks) }
        ensures pairs { (blocks : ForkState) → IsShardOf N.store N.count_of blocks self.now → IfOk result (λ stats. IsSomeAnd (state_at blocks blocks.head) (λ state. stats.pairs ≡ len state)) }
        ensures deltas { (blocks : ForkState) → IsShardOf N.store N.count_of blocks self.now → IfOk result (λ stats. stats.deltas ≡ kept_changes blocks) }
        ensures distinct { (blocks : ForkState) → IsShardOf N.store N.count_of blocks self.now → IfOk result (λ stats. stats.distinct ≡ distinct_texts blocks) }
    {
        if self.stopped {
            return Err(Stopped);
        }
        let Some(pairs) = self.tries.pairs(&self.forks.head()) else {
            // The head is live.
            unreachable!()
        };
        Ok(Stats {
            live: self.forks.len(),
            pairs,
            deltas: self.flat.entries(),
            distinct: self.tries.nodes.distinct(),
        })
    }

    /// The store, also of a shard that is stopped. It takes no memory.
    pub fn into_nodes(self) -> N
        ensures { result ≡ self.nodes }
    {
        self.tries.nodes
    }
}
