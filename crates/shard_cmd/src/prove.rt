//! The command `prove`.

ghost use Rattle.std.specs.Prelude.{◌≡◌, ◌≢◌, ◌≤◌, true, [], length, map, Some, IfErr, IfOk, IfSome, OnOk};
ghost use Rattle.std.specs.FinMap.{empty};
ghost use Rattle.std.specs.List.{AllByRecursion};
ghost use Rattle.base_core.specs.Bounds.{AreLimits};
ghost use Rattle.base_core.specs.Faults.{faults_after};
ghost use Rattle.trie_model.specs.State.{State};
ghost use Rattle.batch_model.specs.Changes.{most_changes};
ghost use Rattle.fork_model.specs.States.{ForkState};
ghost use Rattle.count_model.specs.Loads.{record_texts};
ghost use Rattle.output_model.specs.Ends.{RunLimits};
ghost use Rattle.output_model.specs.Output.{prove_outcome};
ghost use Rattle.output_model.specs.Prove.{changes_too_many, prove_request};
ghost use Rattle.partial_model.specs.Recording.{spelled_recording};
ghost use Rattle.partial_state.specs.Recordings.{recording_of};
ghost use Rattle.script_model.specs.Bounds.{IsOp};
ghost use Rattle.script_model.specs.Words.{most_operations};
ghost use Rattle.script_io.specs.Meanings.{op as meant};
ghost use Rattle.shard_cmd.specs.Ends.{run_limits, SourceCounts, StoreCounts, sink_ended};
ghost use Rattle.shard_cmd.specs.HandedBack.{EndsRun};
ghost use Rattle.shard_cmd.specs.Histories.{IsGoing};
ghost use Rattle.shard_cmd.specs.Requests.{Answered};
ghost use Rattle.shard_cmd.specs.Proving.{AddsOp, Holding, IsGathered, PutsUnless, Records};

use crate::reply_lines::put_clash;
use crate::request::{Request, run_request};
use crate::status::{Outcome, Status};
use crate::writing::finish;
use base_core::{Digest, Fault, Limits, PutError, Text};
use partial_state::{Ops, Proof, ProveError, prove};
use script_io::{Buffer, Op, OpList, Sink, Source, put};
use shard_core::{FlatError, Shard};
use std::alloc::{AllocError, Global};
use text_store::Nodes;

/// The command `prove`, of operations at a block.
pub fn run_prove<S: Source, K: Sink, N: Nodes>(
    alloc: Global,
    source: &mut S,
    sink: &mut K,
    nodes: N,
    limits: &Limits,
    id: &Digest,
    list: &OpList,
) -> Outcome<N>
    requires limits { AreLimits limits.now }
    requires empty { N.store.texts nodes ≡ empty }
    requires each { AllByRecursion IsOp (map meant list.now) }
    requires few { length list.now ≤ most_operations }
    ensures ends { IfSome (S.left source.old) (λ input.
        EndsRun N.store N.count_of (prove_outcome (run_limits limits.now) id.now.0 (map meant list.now) input) nodes result.nodes (K.written sink.old) (K.written sink.new) result.status) }
    ensures nothing_left { result.status ≡ Status.Done → IfSome (S.left source.old) (λ _. S.left source.new ≡ Some []) }
    ensures unread { changes_too_many (run_limits limits.now) (map meant list.now) ≡ true → (source.new ≡ source.old) × (result.nodes ≡ nodes) }
    ensures no_usage { result.status ≢ Status.Usage }
    ensures source_faults { SourceCounts result.status (S.faults source.old) (S.faults source.new) }
    ensures sink_faults { K.faults sink.new ≡ faults_after (sink_ended result.status) (K.faults sink.old) }
    ensures store_faults { StoreCounts result.status (N.store.faults nodes) (N.store.faults result.nodes) }
{
    match gather(alloc, list, limits.changes) {
        Ok(ops) => {
            let request = Request::Prove { id: *id, ops };
            run_request(alloc, source, sink, nodes, limits, request)
        }
        Err(PutError::Full) => {
            // By its contract this call tells that a store without texts counts none.
            let _none = nodes.distinct();
            Outcome {
                status: finish(sink, b"refused full-changes\n", Status::Refused),
                nodes,
            }
        }
        Err(PutError::NoMemory) => Outcome {
            status: Status::NoMemory,
            nodes,
        },
        // The keys and values of a command are within their limits.
        Err(PutError::KeyLong { .. }) => unreachable!(),
        Err(PutError::ValueLong { .. }) => unreachable!(),
    }
}

/// What operations read and change, where they change at most so many keys.
fn gather(alloc: Global, list: &OpList, most: u64) -> Result<Ops, PutError>
    requires most { most ≤ most_changes }
    requires each { AllByRecursion IsOp (map meant list.now) }
    requires few { length list.now ≤ most_operations }
    ensures { IsGathered (map meant list.now) most result }
{
    let mut ops = Ops::new(alloc, most);
    for place in 0..list.len() {
        add(alloc, &mut ops, list.at(place))?;
    }
    Ok(ops)
}

/// An operation more. Its key and value are copied.
fn add(alloc: Global, ops: &mut Ops, op: &Op) -> Result<(), PutError>
    ensures { AddsOp ops.old ops.new (meant op.now) result }
{
    match op {
        Op::Read(key) => ops.read(copy_of(alloc, key)?),
        Op::Set(key, value) => ops.put(copy_of(alloc, key)?, copy_of(alloc, value)?),
        Op::Delete(key) => ops.remove(copy_of(alloc, key)?),
    }
}

fn copy_of(alloc: Global, text: &Text) -> Result<Text, PutError>
    ensures ok { IfOk result (λ copy. copy ≡ text.now) }
    ensures err { IfErr result (λ error. error ≡ PutError.NoMemory) }
{
    match Text::copy(alloc, text.as_slice()) {
        Ok(copy) => Ok(copy),
        Err(AllocError) => Err(PutError::NoMemory),
    }
}

/// How a run ends once the recording at the block is written.
pub fn answer_prove<N: Nodes>(
    alloc: Global,
    shard: &mut Shard<N>,
    id: &Digest,
    ops: Ops,
    replies: &mut Buffer,
) -> Status
    requires going { (limits : RunLimits) × (forks : ForkState) × IsGoing N.store N.count_of limits shard.old forks }
    ensures { (limits : RunLimits) (forks : ForkState) → IsGoing N.store N.count_of limits shard.old forks
        → Answered N.store N.count_of limits forks (prove_request id.now.0 ops.reads ops.batch.changes forks) (record_texts id.now.0 ops.reads ops.batch.changes) shard.old shard.new replies.old.bytes replies.new.bytes result }
{
    match shard.root_of(id) {
        Ok(root) => record(alloc, shard, &root, ops, replies),
        Err(FlatError::NotLive) => {
            unless_short(put(replies, b"refused not-live\n"), Status::Refused)
        }
        // No call was cut short.
        Err(FlatError::Stopped) => unreachable!(),
    }
}

/// How a run ends once the recording at this root, of a state whose texts are all there, is written.
fn record<N: Nodes>(
    alloc: Global,
    shard: &mut Shard<N>,
    root: &Digest,
    ops: Ops,
    replies: &mut Buffer,
) -> Status
    requires held { (state : State) × Holding (N.store.texts shard.old.nodes) root.now.0 state }
    ensures { (state : State) → Holding (N.store.texts shard.old.nodes) root.now.0 state
        → Records N.store state ops.reads ops.batch.changes shard.old shard.new replies.old.bytes replies.new.bytes result }
{
    match prove(alloc, shard, root, ops) {
        Ok(proof) => put_proof(alloc, &proof, replies),
        Err(ProveError::Clash { digest, .. }) => {
            unless_short(put_clash(replies, &digest), Status::Clash)
        }
        Err(ProveError::Fault) => Status::StoreFault,
        Err(ProveError::NoMemory) => Status::NoMemory,
        // All texts of the state are held.
        Err(ProveError::Missing { .. }) => unreachable!(),
        Err(ProveError::Bad { .. }) => unreachable!(),
        Err(ProveError::Usage { .. }) => unreachable!(),
    }
}

/// How a run ends once this recording is written.
fn put_proof(alloc: Global, proof: &Proof, replies: &mut Buffer) -> Status
    ensures { PutsUnless replies.old.bytes replies.new.bytes (spelled_recording (recording_of proof.now)) Status.Done result }
{
    match proof.write(alloc) {
        Ok(bytes) => unless_short(put(replies, bytes.as_slice()), Status::Done),
        Err(AllocError) => Status::NoMemory,
    }
}

/// How a run ends that has put its last bytes behind its replies. A buffer fails for want of memory
/// alone.
fn unless_short(put: Result<(), Fault>, status: Status) -> Status
    ensures ok { OnOk put (result ≡ status) }
    ensures err { IfErr put (λ _. result ≡ Status.NoMemory) }
{
    match put {
        Ok(()) => status,
        Err(Fault) => Status::NoMemory,
    }
}
