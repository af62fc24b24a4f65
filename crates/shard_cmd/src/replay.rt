ghost use Rattle.std.specs.Prelude.{◌≡◌, ◌≢◌, [], Some, IfOk, IfErr, IfSome};
ghost use Rattle.std.specs.FinSet.{empty};
ghost use Rattle.std.specs.Option.{IsSomeAnd};
ghost use Rattle.base_core.specs.Faults.{faults_after};
ghost use Rattle.partial_model.specs.Recording.{recording_in};
ghost use Rattle.partial_state.specs.Recordings.{recording_of};
ghost use Rattle.output_model.specs.Replay.{IsReplay, IsReplayOutput, IsByReading, no_recording};
ghost use Rattle.shard_cmd.specs.Ends.{ending_of, EndsAsOne, HasOneEnding, IsFailure, IsReplayAnswer, reading_ended, source_ended, sink_ended};
ghost use Rattle.shard_cmd.specs.Replies.{IsReply, IsOneReply};
ghost use Rattle.shard_cmd.specs.Recordings.{fault_told, status_of};

use crate::recording_replies::{clash_reply, digest_reply, place_reply, replayed_reply};
use crate::reply::{Reply, syntax_reply};
use crate::status::Status;
use crate::writing::finish;
use base_core::BorshError;
use partial_state::{Proof, ProofError, ReplayError, replay};
use script_io::{Feed, FeedError, Sink, Source};
use std::alloc::{AllocError, Global};

/// The command `replay`.
pub fn run_replay<S: Source, K: Sink>(alloc: Global, source: &mut S, sink: &mut K) -> Status
    ensures output { IfSome (S.left source.old) (λ input. IfSome (K.written sink.old) (λ before.
        EndsAsOne (IsReplayOutput input) (ending_of result) before (K.written sink.new))) }
    ensures status { IfSome (S.left source.old) (λ input. HasOneEnding (IsReplayOutput input) (ending_of result)) }
    ensures nothing_left { result ≡ Status.Done → IfSome (S.left source.old) (λ _. S.left source.new ≡ Some []) }
    ensures no_usage { result ≢ Status.Usage }
    ensures no_store_fault { result ≢ Status.StoreFault }
    ensures source_faults { S.faults source.new ≡ faults_after (source_ended result) (S.faults source.old) }
    ensures sink_faults { K.faults sink.new ≡ faults_after (sink_ended result) (K.faults sink.old) }
{
    match answer_replay(alloc, source) {
        Ok(reply) => finish(sink, reply.bytes.as_slice(), reply.status),
        Err(status) => status,
    }
}

/// What `replay` answers to the input of a source, or why it has no answer.
fn answer_replay<S: Source>(alloc: Global, source: &mut S) -> Result<Reply, Status>
    ensures reply { IfSome (S.left source.old) (λ input. IfOk result (IsOneReply (IsReplayOutput input))) }
    ensures nothing_left { IfOk result (λ reply. reply.status ≡ Status.Done → IfSome (S.left source.old) (λ _. S.left source.new ≡ Some [])) }
    ensures known { IfOk result (λ reply. IsReplayAnswer reply.status) }
    ensures failed { IfErr result IsFailure }
    ensures counted { S.faults source.new ≡ faults_after (reading_ended result) (S.faults source.old) }
{
    let mut feed = Feed::new(alloc);
    match feed.all(source) {
        Ok(bytes) => answered(recording_reply(alloc, bytes.as_slice())),
        Err(FeedError::Short { at }) => answered(syntax_reply(alloc, at)),
        Err(FeedError::ReadFault) => Err(Status::ReadFault),
        Err(FeedError::NoMemory) => Err(Status::NoMemory),
    }
}

/// A reply fails for want of memory alone.
fn answered(reply: Result<Reply, AllocError>) -> Result<Reply, Status>
    ensures { result ≡ status_of reply }
{
    match reply {
        Ok(reply) => Ok(reply),
        Err(AllocError) => Err(Status::NoMemory),
    }
}

/// The reply to the bytes of a whole input.
fn recording_reply(alloc: Global, bytes: &[u8]) -> Result<Reply, AllocError>
    ensures reply { IfOk result (IsOneReply (IsByReading (recording_in bytes.now))) }
    ensures known { IfOk result (λ reply. IsReplayAnswer reply.status) }
{
    match Proof::read(alloc, bytes) {
        Ok(mut proof) => replay_reply(alloc, &mut proof),
        Err(error) => unread_reply(alloc, error),
    }
}

/// The reply to bytes that are no recording.
fn unread_reply(alloc: Global, error: ProofError) -> Result<Reply, AllocError>
    ensures reply { IfOk result (λ reply. IsSomeAnd (fault_told error) (λ fault. IsReply (no_recording fault) reply)) }
    ensures known { IfOk result (λ reply. IsReplayAnswer reply.status) }
{
    match error {
        ProofError::Frame(BorshError::Short { at }) => syntax_reply(alloc, at),
        ProofError::Frame(BorshError::Rest { at }) => syntax_reply(alloc, at),
        ProofError::Frame(BorshError::Ordinal { at }) => syntax_reply(alloc, at),
        ProofError::Head { at } => syntax_reply(alloc, at),
        ProofError::Order { place } => place_reply(alloc, b"order", place),
        ProofError::Clash { digest } => clash_reply(alloc, &digest),
        ProofError::NoMemory => Err(AllocError),
    }
}

/// The reply to a recording.
fn replay_reply(alloc: Global, proof: &mut Proof) -> Result<Reply, AllocError>
    requires { proof.old.state.kept ≡ empty }
    ensures reply { IfOk result (IsOneReply (IsReplay (recording_of proof.old))) }
    ensures known { IfOk result (λ reply. IsReplayAnswer reply.status) }
{
    match replay(alloc, proof) {
        Ok(replayed) => replayed_reply(alloc, &replayed),
        Err(ReplayError::Missing { digest }) => digest_reply(alloc, b"missing", &digest),
        Err(ReplayError::Bad { digest }) => digest_reply(alloc, b"bad", &digest),
        Err(ReplayError::Usage { digest }) => digest_reply(alloc, b"usage", &digest),
        Err(ReplayError::Clash { digest, .. }) => clash_reply(alloc, &digest),
        Err(ReplayError::Spare { place }) => place_reply(alloc, b"spare", place),
        Err(ReplayError::NoMemory) => Err(AllocError),
    }
}
