//! The command `get`.

ghost use Rattle.std.specs.Prelude.{◌≡◌, ◌≤◌, false, length};
ghost use Rattle.trie_model.specs.State.{longest_key};
ghost use Rattle.fork_model.specs.States.{ForkState};
ghost use Rattle.output_model.specs.Ends.{RunLimits};
ghost use Rattle.shard_cmd.specs.Histories.{IsGoing};
ghost use Rattle.shard_cmd.specs.Requests.{Gets, ReadsBoth, answered_status};

use crate::history::Halt;
use crate::readings::{gathered, read_flat, read_trie};
use crate::status::Status;
use base_core::Digest;
use script_io::{Buffer, put};
use shard_core::{FlatError, Shard};
use text_store::Nodes;

/// How a run ends once what the key has at the block is written.
pub fn answer_get<N: Nodes>(
    shard: &mut Shard<N>,
    id: &Digest,
    key: &[u8],
    replies: &mut Buffer,
) -> Status
    requires key { length key.now ≤ longest_key }
    requires going { shard.old.stopped ≡ false }
    ensures { (limits : RunLimits) (forks : ForkState) → IsGoing N.store N.count_of limits shard.old forks
        → Gets N.store N.count_of limits forks id.now.0 key.now shard.old shard.new replies.old.bytes replies.new.bytes result }
{
    match shard.root_of(id) {
        Ok(_) => by_halt(read_both(shard, id, key, replies), Status::Done),
        Err(FlatError::NotLive) => by_halt(
            gathered(put(replies, b"refused not-live\n")),
            Status::Refused,
        ),
        // No call was cut short.
        Err(FlatError::Stopped) => unreachable!(),
    }
}

/// Reads a key at a block, in flat storage and in its trie.
fn read_both<N: Nodes>(
    shard: &mut Shard<N>,
    id: &Digest,
    key: &[u8],
    replies: &mut Buffer,
) -> Result<(), Halt>
    requires key { length key.now ≤ longest_key }
    requires going { shard.old.stopped ≡ false }
    ensures { (limits : RunLimits) (forks : ForkState) → IsGoing N.store N.count_of limits shard.old forks
        → ReadsBoth N.store N.count_of limits forks id.now.0 key.now shard.old shard.new replies.old.bytes replies.new.bytes result }
{
    match read_flat(shard, id, key, replies) {
        Ok(()) => read_trie(shard, id, key, replies),
        Err(halt) => Err(halt),
    }
}

/// How a run ends that was answered, unless it halted.
fn by_halt(answered: Result<(), Halt>, status: Status) -> Status
    ensures { result ≡ answered_status answered status }
{
    match answered {
        Ok(()) => status,
        Err(Halt::StoreFault) => Status::StoreFault,
        Err(Halt::NoMemory) => Status::NoMemory,
        // No line is read here, and no block ends.
        Err(Halt::Syntax) => Status::NoMemory,
        Err(Halt::Clash { .. }) => Status::NoMemory,
    }
}
