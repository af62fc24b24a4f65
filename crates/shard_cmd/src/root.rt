ghost use Rattle.std.specs.Prelude.{◌≡◌, [], Some, Ok, IfOk, IfErr, IfSome, OnErr};
ghost use Rattle.std.specs.FinMap.{empty};
ghost use Rattle.base_core.specs.Bounds.{AreLimits};
ghost use Rattle.base_core.specs.Faults.{faults_after};
ghost use Rattle.output_model.specs.Ends.{RunLimits};
ghost use Rattle.output_model.specs.Root.{root_output};
ghost use Rattle.shard_cmd.specs.Ends.{run_limits, IsAnswer, IsFailure, reading_ended};
ghost use Rattle.shard_cmd.specs.Events.{end_output, stopped_at, ends_at, Lays};
ghost use Rattle.script_model.specs.Bounds.{IsAsked};
ghost use Rattle.script_io.specs.Meanings.{event};
ghost use Rattle.shard_cmd.specs.Replies.{IsReply};

use crate::events::{Stop, next_event};
use crate::reply::{Reply, full_reply, root_reply, syntax_reply};
use crate::status::Status;
use base_core::{Limits, Pairs, PutError};
use script_io::{Event, Lines, Source};
use std::alloc::{AllocError, Global};
use trie_shape::build;

/// How a script of `set` lines ended.
#[derive(Clone, Copy, Debug, PartialEq, Eq)]
pub enum End {
    /// With the end of the input.
    Whole,
    /// At the line with this number, which is none of a script, or one of blocks.
    Syntax(u64),
    /// At a pair for which there is no room.
    Full,
}

/// What `root` answers to the input of a source, or why it has no answer.
pub fn answer_root<S: Source>(
    alloc: Global,
    source: &mut S,
    limits: &Limits,
) -> Result<Reply, Status>
    requires { AreLimits limits.now }
    ensures reply { IfSome (S.left source.old) (λ input. IfOk result (IsReply (root_output (run_limits limits.now) input))) }
    ensures nothing_left { IfOk result (λ reply. reply.status ≡ Status.Done → IfSome (S.left source.old) (λ _. S.left source.new ≡ Some [])) }
    ensures known { IfOk result (λ reply. IsAnswer reply.status) }
    ensures failed { IfErr result IsFailure }
    ensures counted { S.faults source.new ≡ faults_after (reading_ended result) (S.faults source.old) }
{
    let mut pairs = Pairs::new(alloc, limits.pairs);
    match read_pairs(alloc, source, &mut pairs) {
        Ok(end) => match end_reply(alloc, end, &pairs) {
            Ok(reply) => Ok(reply),
            Err(_) => Err(Status::NoMemory),
        },
        Err(status) => Err(status),
    }
}

/// The reply at the end of a script that left these pairs.
fn end_reply(alloc: Global, end: End, pairs: &Pairs) -> Result<Reply, AllocError>
    ensures reply { IfOk result (IsReply (end_output end pairs.now.state)) }
    ensures done { IfOk result (λ reply. reply.status ≡ Status.Done → end ≡ End.Whole) }
    ensures known { IfOk result (λ reply. IsAnswer reply.status) }
{
    match end {
        End::Whole => root_reply(alloc, &build(alloc, pairs)?),
        End::Syntax(number) => syntax_reply(alloc, number),
        End::Full => full_reply(alloc),
    }
}

/// Lays the pairs of a script over one another.
pub fn read_pairs<S: Source>(
    alloc: Global,
    source: &mut S,
    pairs: &mut Pairs,
) -> Result<End, Status>
    requires { pairs.old.state ≡ empty }
    ensures end { (limits : RunLimits) → limits.pairs ≡ pairs.old.most →
        IfSome (S.left source.old) (λ input. IfOk result (λ end. root_output limits input ≡ end_output end pairs.new.state)) }
    ensures nothing_left { IfOk result (λ end. end ≡ End.Whole → IfSome (S.left source.old) (λ _. S.left source.new ≡ Some [])) }
    ensures failed { IfErr result IsFailure }
    ensures counted { S.faults source.new ≡ faults_after (reading_ended result) (S.faults source.old) }
{
    let mut lines = Lines::new(alloc);
    loop {
        match next_event(alloc, &mut lines, source) {
            Ok(None) => return Ok(End::Whole),
            Ok(Some(event)) => match lay(pairs, event, lines.number()) {
                Ok(None) => {}
                Ok(Some(end)) => return Ok(end),
                Err(_) => return Err(Status::NoMemory),
            },
            Err(stop) => return stopped(stop, lines.number()),
        }
    }
}

/// How a script ends that stops at the line with this number.
fn stopped(stop: Stop, number: u64) -> Result<End, Status>
    ensures { result ≡ stopped_at stop number }
{
    match stop {
        Stop::Syntax => Ok(End::Syntax(number)),
        Stop::ReadFault => Err(Status::ReadFault),
        Stop::NoMemory => Err(Status::NoMemory),
    }
}

/// Does what the line with this number asks for, and answers how the script ends there, if it does: at
/// a pair without room, or at a line of blocks.
fn lay(pairs: &mut Pairs, asked: Event, number: u64) -> Result<Option<End>, AllocError>
    requires { IsAsked (event asked) }
    ensures lays { IfOk result (Lays number pairs.old pairs.new (event asked)) }
    ensures refused { IfSome (ends_at number pairs.old (event asked)) (λ end. result ≡ Ok (Some end)) }
    ensures err { OnErr result (pairs.new ≡ pairs.old) }
    ensures most { pairs.new.most ≡ pairs.old.most }
{
    match asked {
        Event::Nothing => Ok(None),
        Event::Set { key, value } => match pairs.put(key, value) {
            Ok(()) => Ok(None),
            Err(PutError::Full) => Ok(Some(End::Full)),
            Err(PutError::NoMemory) => Err(AllocError),
            Err(PutError::KeyLong { .. }) => unreachable!(),
            Err(PutError::ValueLong { .. }) => unreachable!(),
        },
        _ => Ok(Some(End::Syntax(number))),
    }
}
