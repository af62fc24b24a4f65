ghost use Rattle.std.specs.Prelude.{◌≡◌, ◌≢◌, [], Some, IfSome};
ghost use Rattle.std.specs.FinMap.{empty};
ghost use Rattle.base_core.specs.Bounds.{AreLimits};
ghost use Rattle.base_core.specs.Faults.{faults_after};
ghost use Rattle.output_model.specs.Scripts.{script_outcome};
ghost use Rattle.output_model.specs.Output.{live_behind};
ghost use Rattle.output_model.specs.Apply.{apply_script};
ghost use Rattle.shard_cmd.specs.Ends.{run_limits, SourceCounts, StoreCounts, sink_ended};
ghost use Rattle.shard_cmd.specs.HandedBack.{EndsRun};

use crate::script::read_history;
use crate::status::{Outcome, Status};
use crate::writing::finish_history;
use base_core::Limits;
use script_io::{Buffer, Sink, Source};
use shard_core::Shard;
use std::alloc::Global;
use text_store::Nodes;

/// The command `apply`.
pub fn run_apply<S: Source, K: Sink, N: Nodes>(
    alloc: Global,
    source: &mut S,
    sink: &mut K,
    nodes: N,
    limits: &Limits,
) -> Outcome<N>
    requires limits { AreLimits limits.now }
    requires empty { N.store.texts nodes ≡ empty }
    ensures ends { IfSome (S.left source.old) (λ input.
        EndsRun N.store N.count_of (live_behind (script_outcome (apply_script (run_limits limits.now)) input)) nodes result.nodes (K.written sink.old) (K.written sink.new) result.status) }
    ensures nothing_left { result.status ≡ Status.Done → IfSome (S.left source.old) (λ _. S.left source.new ≡ Some []) }
    ensures no_usage { result.status ≢ Status.Usage }
    ensures source_faults { SourceCounts result.status (S.faults source.old) (S.faults source.new) }
    ensures sink_faults { K.faults sink.new ≡ faults_after (sink_ended result.status) (K.faults sink.old) }
    ensures store_faults { StoreCounts result.status (N.store.faults nodes) (N.store.faults result.nodes) }
{
    let mut shard = match Shard::new(alloc, nodes, *limits) {
        Ok(shard) => shard,
        Err(nodes) => {
            return Outcome {
                status: Status::NoMemory,
                nodes,
            };
        }
    };
    let mut replies = Buffer::new(alloc);
    let ended = read_history(alloc, source, sink, &mut shard, limits, false, &mut replies);
    let status = finish_history(sink, replies.bytes(), ended);
    Outcome {
        status,
        nodes: shard.into_nodes(),
    }
}
