ghost use Rattle.std.specs.Prelude.{◌≡◌, ℕ, None, false};
ghost use Rattle.base_core.specs.Bounds.{AreLimits};
ghost use Rattle.base_core.specs.Faults.{faults_after};
ghost use Rattle.fork_model.specs.Trees.{block_fault};
ghost use Rattle.fork_model.specs.States.{ForkState};
ghost use Rattle.count_model.specs.BlockEnds.{block_end};
ghost use Rattle.count_model.specs.Loads.{carry_out, loads};
ghost use Rattle.text_store.specs.Leaves.{CountsLoads};
ghost use Rattle.shard_core.specs.Answers.{apply_ended};
ghost use Rattle.shard_core.specs.Shards.{IsShardOf, shard_of};
ghost use Rattle.shard_core.specs.ShardAnswers.{AnswersApply, LeavesApply, header_of};
ghost use Rattle.shard_core.specs.ShardAnswers as answers;

use crate::block::{Applied, Block};
use crate::errors::ApplyError;
use crate::tries::Tries;
use base_core::Limits;
use flat_store::Flat;
use fork_tree::Forks;
use std::alloc::Global;
use text_store::Nodes;

/// Takes a block in that has no fault: its batch is carried out, its texts are added, and it is live.
pub(crate) fn accept<N: Nodes>(
    alloc: Global,
    tries: &mut Tries<N>,
    forks: &mut Forks,
    flat: &mut Flat,
    limits: &Limits,
    block: Block,
) -> Result<Applied, ApplyError>
    requires limits { AreLimits limits.now }
    requires most { forks.old.most ≡ limits.now.blocks }
    requires blocks { (blocks : ForkState) × IsShardOf N.store N.count_of blocks (shard_of tries.old forks.old flat.old limits.now) }
    requires faultless { block_fault limits.now.blocks forks.old.tree (header_of block) ≡ None }
    ensures answer { (blocks : ForkState) → IsShardOf N.store N.count_of blocks (shard_of tries.old forks.old flat.old limits.now) → AnswersApply (block_end limits.now.pairs limits.now.blocks blocks (header_of block) block.changes.changes) result }
    ensures state { (blocks : ForkState) → IsShardOf N.store N.count_of blocks (shard_of tries.old forks.old flat.old limits.now) → LeavesApply N.store N.count_of blocks (header_of block) block.changes.changes result (shard_of tries.new forks.new flat.new limits.now) }
    ensures most { forks.new.most ≡ forks.old.most }
    ensures loads { (blocks : ForkState) → IsShardOf N.store N.count_of blocks (shard_of tries.old forks.old flat.old limits.now) → CountsLoads (apply_ended result) (N.store.loads tries.old.nodes) (N.store.loads tries.new.nodes) (loads limits.now.blocks blocks (carry_out (header_of block) block.changes.changes)) }
    ensures faults { N.store.faults tries.new.nodes ≡ faults_after (apply_ended result) (N.store.faults tries.old.nodes) }
{
    let Block {
        id,
        prev,
        height,
        changes,
    } = block;
    let carried = tries.carry_out(alloc, &prev, &changes)?;
    if carried.pairs > limits.pairs {
        return Err(ApplyError::FullPairs);
    }
    forks.reserve()?;
    flat.reserve()?;
    let root = tries.take_in(alloc, &id, carried)?;
    forks.add(id, prev, height);
    flat.add(id, changes);
    Ok(Applied { root })
}

/// Whether a block was cut short, so that the shard is to be stopped.
pub(crate) fn cuts_short(answer: &Result<Applied, ApplyError>) -> bool
    ensures { result ≡ answers.cuts_short answer.now }
{
    match answer {
        Err(ApplyError::Clash { .. }) => true,
        Err(ApplyError::StoreFault) => true,
        _ => false,
    }
}
