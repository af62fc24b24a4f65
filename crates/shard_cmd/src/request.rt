//! What is asked behind a history of blocks.

ghost use Rattle.std.specs.Prelude.{◌≡◌, ◌≢◌, [], Some, IfSome};
ghost use Rattle.std.specs.FinMap.{empty};
ghost use Rattle.base_core.specs.Bounds.{AreLimits};
ghost use Rattle.base_core.specs.Faults.{faults_after};
ghost use Rattle.fork_model.specs.States.{ForkState};
ghost use Rattle.output_model.specs.Ends.{RunLimits};
ghost use Rattle.output_model.specs.Scripts.{script_outcome};
ghost use Rattle.output_model.specs.Output.{live_behind};
ghost use Rattle.shard_cmd.specs.Ends.{run_limits, SourceCounts, StoreCounts, sink_ended};
ghost use Rattle.shard_cmd.specs.HandedBack.{EndsRun};
ghost use Rattle.shard_cmd.specs.Histories.{IsGoing};
ghost use Rattle.shard_cmd.specs.Requests.{AnswersRequest, IsRequest, request_script};

use crate::get::answer_get;
use crate::prove::answer_prove;
use crate::script::read_history;
use crate::status::{Outcome, Status};
use crate::writing::finish_history;
use base_core::{Digest, Limits, Text};
use partial_state::Ops;
use script_io::{Buffer, Sink, Source};
use shard_core::Shard;
use std::alloc::Global;
use text_store::Nodes;

/// What is asked of live blocks, where their history has been told.
#[derive(Drop)]
pub enum Request {
    /// What a key has at a block.
    Get { id: Digest, key: Text },
    /// The recording of reads and changes at a block.
    Prove { id: Digest, ops: Ops },
}

/// A command that reads a script quietly and then asks something of the live blocks.
pub fn run_request<S: Source, K: Sink, N: Nodes>(
    alloc: Global,
    source: &mut S,
    sink: &mut K,
    nodes: N,
    limits: &Limits,
    request: Request,
) -> Outcome<N>
    requires limits { AreLimits limits.now }
    requires empty { N.store.texts nodes ≡ empty }
    requires request { IsRequest request }
    ensures ends { IfSome (S.left source.old) (λ input.
        EndsRun N.store N.count_of (live_behind (script_outcome (request_script (run_limits limits.now) request) input)) nodes result.nodes (K.written sink.old) (K.written sink.new) result.status) }
    ensures nothing_left { result.status ≡ Status.Done → IfSome (S.left source.old) (λ _. S.left source.new ≡ Some []) }
    ensures no_usage { result.status ≢ Status.Usage }
    ensures source_faults { SourceCounts result.status (S.faults source.old) (S.faults source.new) }
    ensures sink_faults { K.faults sink.new ≡ faults_after (sink_ended result.status) (K.faults sink.old) }
    ensures store_faults { StoreCounts result.status (N.store.faults nodes) (N.store.faults result.nodes) }
{
    let mut shard = match Shard::new(alloc, nodes, *limits) {
        Ok(shard) => shard,
        Err(nodes) => {
            return Outcome {
                status: Status::NoMemory,
                nodes,
            };
        }
    };
    let mut replies = Buffer::new(alloc);
    let read = read_history(alloc, source, sink, &mut shard, limits, true, &mut replies);
    let ended = answer_behind(alloc, &mut shard, read, request, &mut replies);
    let status = finish_history(sink, replies.bytes(), ended);
    Outcome {
        status,
        nodes: shard.into_nodes(),
    }
}

/// How a run ends whose script has ended so. The answer is put behind a whole one.
fn answer_behind<N: Nodes>(
    alloc: Global,
    shard: &mut Shard<N>,
    read: Status,
    request: Request,
    replies: &mut Buffer,
) -> Status
    requires request { IsRequest request }
    requires going { read ≡ Status.Done → (limits : RunLimits) × (forks : ForkState) × IsGoing N.store N.count_of limits shard.old forks }
    ensures answered { read ≡ Status.Done → (limits : RunLimits) (forks : ForkState) → IsGoing N.store N.count_of limits shard.old forks
        → AnswersRequest N.store N.count_of limits forks request shard.old shard.new replies.old.bytes replies.new.bytes result }
    ensures others { read ≢ Status.Done → (result ≡ read) × (shard.new ≡ shard.old) × (replies.new.bytes ≡ replies.old.bytes) }
{
    match read {
        Status::Done => answer(alloc, shard, request, replies),
        read => read,
    }
}

/// How a run ends once its request is answered.
fn answer<N: Nodes>(
    alloc: Global,
    shard: &mut Shard<N>,
    request: Request,
    replies: &mut Buffer,
) -> Status
    requires request { IsRequest request }
    requires going { (limits : RunLimits) × (forks : ForkState) × IsGoing N.store N.count_of limits shard.old forks }
    ensures { (limits : RunLimits) (forks : ForkState) → IsGoing N.store N.count_of limits shard.old forks
        → AnswersRequest N.store N.count_of limits forks request shard.old shard.new replies.old.bytes replies.new.bytes result }
{
    match request {
        Request::Get { id, key } => answer_get(shard, &id, key.as_slice(), replies),
        Request::Prove { id, ops } => answer_prove(alloc, shard, &id, ops, replies),
    }
}
