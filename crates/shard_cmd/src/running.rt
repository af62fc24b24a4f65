ghost use Rattle.std.specs.Prelude.{◌≡◌, ◌≢◌, ◌≤◌, ℕ, true, List, [], Some, None, IfSome};
ghost use Rattle.std.specs.FinMap.{empty};
ghost use Rattle.base_core.specs.Bounds.{AreLimits};
ghost use Rattle.base_core.specs.Faults.{Rose, faults_after};
ghost use Rattle.script_model.specs.Words.{Op, command_of, root, prove, replay};
ghost use Rattle.text_store.specs.Leaves.{CountsLoads};
ghost use Rattle.output_model.specs.Ends.{bad_command};
ghost use Rattle.output_model.specs.Root.{root_output};
ghost use Rattle.output_model.specs.Output.{IsOutputOf, outcome_of};
ghost use Rattle.output_model.specs.Prove.{changes_too_many};
ghost use Rattle.shard_cmd.specs.Ends.{run_limits, ending_of, EndsAs, EndsAsOne, HasEnding, HasOneEnding, IsUsageUnlessFailed, SourceCounts, StoreCounts, source_ended, sink_ended, run_ended};
ghost use Rattle.shard_cmd.specs.HandedBack.{IfSettled, HoldsBlocks};

use crate::apply::run_apply;
use crate::prove::run_prove;
use crate::replay::run_replay;
use crate::request::{Request, run_request};
use crate::root::answer_root;
use crate::status::{Outcome, Status};
use crate::writing::finish;
use base_core::{Limits, Text};
use script_io::{Command, CommandError, Sink, Source, read_command};
use std::alloc::Global;
use text_store::Nodes;

/// Carries out the command that the words are, which don't contain the program's name, on the input
/// of the source, and writes to the sink what the command gives. The store comes in empty. It is handed
/// back with what the command has left in it.
pub fn run<S: Source, K: Sink, N: Nodes>(
    alloc: Global,
    words: &[Text],
    source: &mut S,
    sink: &mut K,
    nodes: N,
    limits: &Limits,
) -> Outcome<N>
    requires limits { AreLimits limits.now }
    requires empty { N.store.texts nodes ≡ empty }

    // The bytes that come in and those that go out, and the status with them.
    ensures output { IfSome (S.left source.old) (λ input. IfSome (K.written sink.old) (λ before.
        EndsAsOne (IsOutputOf (run_limits limits.now) words.now input) (ending_of result.status) before (K.written sink.new))) }
    ensures nothing_left { result.status ≡ Status.Done → IfSome (S.left source.old) (λ _. S.left source.new ≡ Some []) }

    // Where the sink tells nothing, the status; and where the source tells nothing, the bytes of the
    // one output that no input changes.
    ensures status { IfSome (S.left source.old) (λ input. HasOneEnding (IsOutputOf (run_limits limits.now) words.now input) (ending_of result.status)) }
    ensures bad_command { command_of words.now ≡ None → IfSome (K.written sink.old) (λ before. EndsAs bad_command (ending_of result.status) before (K.written sink.new)) }

    // What the store holds in the end, and how many texts were loaded.
    ensures counts { command_of words.now ≢ Some root → command_of words.now ≢ Some replay → IfSome (S.left source.old) (λ input.
        IfSettled result.status (HoldsBlocks (N.store.texts result.nodes) (N.count_of result.nodes) (outcome_of (run_limits limits.now) words.now input).left)) }
    ensures loads { IfSome (S.left source.old) (λ input.
        CountsLoads (run_ended result.status) (N.store.loads nodes) (N.store.loads result.nodes) (outcome_of (run_limits limits.now) words.now input).loaded) }

    // Words that are no command, also where the source and the sink tell nothing.
    ensures usage { result.status ≡ Status.Usage → command_of words.now ≡ None }
    ensures no_command { command_of words.now ≡ None → IsUsageUnlessFailed result.status }
    ensures unread { command_of words.now ≡ None → source.new ≡ source.old }
    ensures untouched { command_of words.now ≡ None → result.nodes ≡ nodes }

    // The command `root` makes no call on the store.
    ensures root_untouched { command_of words.now ≡ Some root → result.nodes ≡ nodes }
    ensures root_no_store_fault { command_of words.now ≡ Some root → result.status ≢ Status.StoreFault }

    // Nor does `replay`.
    ensures replay_untouched { command_of words.now ≡ Some replay → result.nodes ≡ nodes }
    ensures replay_no_store_fault { command_of words.now ≡ Some replay → result.status ≢ Status.StoreFault }

    // Where `prove` changes too many keys nothing is read, and the store is as it came.
    ensures full_changes { (id : List ℕ) (ops : List Op) → command_of words.now ≡ Some (prove id ops) → changes_too_many (run_limits limits.now) ops ≡ true
        → (source.new ≡ source.old) × (result.nodes ≡ nodes) }

    // A fault of the outside has a cause, and is told where it came.
    ensures source_faults { SourceCounts result.status (S.faults source.old) (S.faults source.new) }
    ensures root_source_faults { command_of words.now ≡ Some root → S.faults source.new ≡ faults_after (source_ended result.status) (S.faults source.old) }
    ensures replay_source_faults { command_of words.now ≡ Some replay → S.faults source.new ≡ faults_after (source_ended result.status) (S.faults source.old) }
    ensures sink_faults { K.faults sink.new ≡ faults_after (sink_ended result.status) (K.faults sink.old) }
    ensures store_faults { StoreCounts result.status (N.store.faults nodes) (N.store.faults result.nodes) }
    ensures source_counts { S.faults source.old ≤ S.faults source.new }
    ensures sink_counts { K.faults sink.old ≤ K.faults sink.new }
    ensures store_counts { N.store.faults nodes ≤ N.store.faults result.nodes }
    ensures read_fault { result.status ≡ Status.ReadFault → Rose (S.faults source.old) (S.faults source.new) }
    ensures write_fault { result.status ≡ Status.WriteFault → Rose (K.faults sink.old) (K.faults sink.new) }
    ensures store_fault { result.status ≡ Status.StoreFault → Rose (N.store.faults nodes) (N.store.faults result.nodes) }
{
    match read_command(alloc, words) {
        Ok(Command::Root) => Outcome {
            status: run_root(alloc, source, sink, limits),
            nodes,
        },
        Ok(Command::Apply) => run_apply(alloc, source, sink, nodes, limits),
        Ok(Command::Get { id, key }) => {
            let request = Request::Get { id, key };
            run_request(alloc, source, sink, nodes, limits, request)
        }
        Ok(Command::Prove { id, ops }) => {
            run_prove(alloc, source, sink, nodes, limits, &id, &ops)
        }
        Ok(Command::Replay) => Outcome {
            status: run_replay(alloc, source, sink),
            nodes,
        },
        Err(CommandError::Bad) => Outcome {
            status: finish(sink, b"bad command\n", Status::Usage),
            nodes,
        },
        Err(CommandError::NoMemory) => Outcome {
            status: Status::NoMemory,
            nodes,
        },
    }
}

/// The command `root`.
fn run_root<S: Source, K: Sink>(
    alloc: Global,
    source: &mut S,
    sink: &mut K,
    limits: &Limits,
) -> Status
    requires { AreLimits limits.now }
    ensures output { IfSome (S.left source.old) (λ input. IfSome (K.written sink.old) (λ before.
        EndsAs (root_output (run_limits limits.now) input) (ending_of result) before (K.written sink.new))) }
    ensures status { IfSome (S.left source.old) (λ input. HasEnding (root_output (run_limits limits.now) input) (ending_of result)) }
    ensures nothing_left { result ≡ Status.Done → IfSome (S.left source.old) (λ _. S.left source.new ≡ Some []) }
    ensures no_usage { result ≢ Status.Usage }
    ensures no_store_fault { result ≢ Status.StoreFault }
    ensures no_clash { result ≢ Status.Clash }
    ensures source_faults { S.faults source.new ≡ faults_after (source_ended result) (S.faults source.old) }
    ensures sink_faults { K.faults sink.new ≡ faults_after (sink_ended result) (K.faults sink.old) }
{
    match answer_root(alloc, source, limits) {
        Ok(reply) => finish(sink, reply.bytes.as_slice(), reply.status),
        Err(status) => status,
    }
}
