ghost use Rattle.std.specs.Prelude.{◌≡◌, ◌≢◌, ℕ, ◌++◌, Bool, false, true, [], Some, None, IfSome, IfOk, OnErr};
ghost use Rattle.base_core.specs.Bounds.{AreLimits};
ghost use Rattle.base_core.specs.Faults.{IsCounted, faults_after};
ghost use Rattle.fork_model.specs.States.{ForkState, first_fork};
ghost use Rattle.count_model.specs.Loads.{Access};
ghost use Rattle.output_model.specs.Ends.{Output};
ghost use Rattle.output_model.specs.Scripts.{script_outcome};
ghost use Rattle.output_model.specs.Histories.{history_script};
ghost use Rattle.script_model.specs.Bounds.{IsAsked};
ghost use Rattle.script_io.specs.Meanings.{event};
ghost use Rattle.script_io.specs.Streams.{AppendsPrefix};
ghost use Rattle.shard_cmd.specs.Ends.{run_limits, source_ended, sink_ended, store_ended};
ghost use Rattle.shard_cmd.specs.Histories.{IsGoing, IsOpened, Steps};
ghost use Rattle.shard_cmd.specs.Sending.{Sends, EndsHistory, IsPut, clash_end, halted_end, stopped_end, syntax_end, whole_end};

use crate::events::{Stop, next_event};
use crate::history::{Halt, Opened, step, step_quietly};
use crate::reply::put_syntax;
use crate::reply_lines::put_clash;
use crate::status::Status;
use base_core::{Digest, Fault, Limits};
use script_io::{Buffer, Event, Lines, Sink, Source, put};
use shard_core::Shard;
use std::alloc::Global;
use text_store::Nodes;

/// How many bytes of replies are gathered before they are written.
const MANY: usize = 65536;

/// Does what the lines of a script ask for, one after the other, with a reply to each or quietly, and
/// answers how the run ends once the replies are written that are gathered then. With `Done` the
/// script has come to its end, and a last request can be answered.
pub fn read_history<S: Source, K: Sink, N: Nodes>(
    alloc: Global,
    source: &mut S,
    sink: &mut K,
    shard: &mut Shard<N>,
    limits: &Limits,
    quiet: bool,
    replies: &mut Buffer,
) -> Status
    requires limits { AreLimits limits.now }
    requires going { IsGoing N.store N.count_of (run_limits limits.now) shard.old first_fork }
    requires empty { replies.old.bytes ≡ [] }
    ensures end { (request : ForkState → Output) (access : Access) → IfSome (S.left source.old) (λ input.
        EndsHistory (run_limits limits.now) request access (script_outcome (history_script quiet (run_limits limits.now) request access) input) (IsGoing N.store N.count_of (run_limits limits.now) shard.new)
        (K.written sink.old) (K.written sink.new) replies.new.bytes (record { before = N.store.loads shard.old.nodes; now = N.store.loads shard.new.nodes }) result) }
    ensures no_usage { result ≢ Status.Usage }
    ensures going { result ≡ Status.Done → (forks : ForkState) × IsGoing N.store N.count_of (run_limits limits.now) shard.new forks }
    ensures nothing_left { result ≡ Status.Done → IfSome (S.left source.old) (λ _. S.left source.new ≡ Some []) }
    ensures read { S.faults source.new ≡ faults_after (source_ended result) (S.faults source.old) }
    ensures sent { K.faults sink.new ≡ faults_after (sink_ended result) (K.faults sink.old) }
    ensures stored { N.store.faults shard.new.nodes ≡ faults_after (store_ended result) (N.store.faults shard.old.nodes) }
{
    let mut opened = None;
    let mut lines = Lines::new(alloc);
    loop {
        match next_event(alloc, &mut lines, source) {
            Ok(Some(event)) => {
                match tell(alloc, shard, opened, event, replies, limits, quiet) {
                    Ok(next) => opened = next,
                    Err(halt) => return halted(halt, lines.number(), replies),
                }
            }
            Ok(None) => return whole(&opened, lines.number(), replies),
            Err(stop) => return stopped(stop, lines.number(), replies),
        }
        match send_many(alloc, sink, replies) {
            Ok(()) => {}
            Err(Fault) => return Status::WriteFault,
        }
    }
}

fn tell<N: Nodes>(
    alloc: Global,
    shard: &mut Shard<N>,
    opened: Option<Opened>,
    asked: Event,
    replies: &mut Buffer,
    limits: &Limits,
    quiet: bool,
) -> Result<Option<Opened>, Halt>
    requires limits { AreLimits limits.now }
    requires going { shard.old.stopped ≡ false }
    requires within { IsAsked (event asked) }
    ensures { (forks : ForkState) → IsGoing N.store N.count_of (run_limits limits.now) shard.old forks → IsOpened (run_limits limits.now) opened
        → Steps N.store N.count_of quiet (run_limits limits.now) forks opened (event asked) shard.old shard.new replies.old.bytes replies.new.bytes result }
{
    if quiet {
        step_quietly(alloc, shard, opened, asked, limits)
    } else {
        step(alloc, shard, opened, asked, replies, limits)
    }
}

/// Writes the replies once they are many.
fn send_many<K: Sink>(alloc: Global, sink: &mut K, replies: &mut Buffer) -> Result<(), Fault>
    ensures sent { IfOk result (λ _. Sends (K.written sink.old) (K.written sink.new) replies.old.bytes replies.new.bytes) }
    ensures failed { OnErr result (IfSome (K.written sink.old) (λ before. AppendsPrefix before (K.written sink.new) replies.old.bytes)) }
    ensures counted { IsCounted (K.faults sink.old) (K.faults sink.new) result }
{
    if replies.bytes().len() < MANY {
        return Ok(());
    }
    match put(sink, replies.bytes()) {
        Ok(()) => {
            *replies = Buffer::new(alloc);
            Ok(())
        }
        Err(fault) => Err(fault),
    }
}

/// How a script ends behind the last line, if a block is being told or not.
fn whole(opened: &Option<Opened>, number: u64, replies: &mut Buffer) -> Status
    ensures { IsPut (whole_end opened.now number) replies.old.bytes replies.new.bytes result }
{
    match opened {
        None => Status::Done,
        Some(_) => bad_line(number, replies),
    }
}

/// How a script ends that stops at the line with this number.
fn stopped(stop: Stop, number: u64, replies: &mut Buffer) -> Status
    ensures { IsPut (stopped_end stop number) replies.old.bytes replies.new.bytes result }
{
    match stop {
        Stop::Syntax => bad_line(number, replies),
        Stop::ReadFault => Status::ReadFault,
        Stop::NoMemory => Status::NoMemory,
    }
}

/// How a script ends at what the line with this number asks for.
fn halted(halt: Halt, number: u64, replies: &mut Buffer) -> Status
    ensures { IsPut (halted_end halt number) replies.old.bytes replies.new.bytes result }
{
    match halt {
        Halt::Syntax => bad_line(number, replies),
        Halt::Clash { digest } => clash(&digest, replies),
        Halt::StoreFault => Status::StoreFault,
        Halt::NoMemory => Status::NoMemory,
    }
}

/// How a script ends whose line with this number is refused.
fn bad_line(number: u64, replies: &mut Buffer) -> Status
    ensures { IsPut (syntax_end number) replies.old.bytes replies.new.bytes result }
{
    match put_syntax(replies, number) {
        Ok(()) => Status::Syntax,
        Err(Fault) => Status::NoMemory,
    }
}

/// How a script ends where texts of a block clash.
fn clash(digest: &Digest, replies: &mut Buffer) -> Status
    ensures { IsPut (clash_end digest.now) replies.old.bytes replies.new.bytes result }
{
    match put_clash(replies, digest) {
        Ok(()) => Status::Clash,
        Err(Fault) => Status::NoMemory,
    }
}
