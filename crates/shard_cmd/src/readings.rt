ghost use Rattle.std.specs.Prelude.{◌≡◌, ◌≢◌, ◌≤◌, false, length, IfErr, Err};
ghost use Rattle.trie_model.specs.State.{longest_key};
ghost use Rattle.fork_model.specs.States.{ForkState};
ghost use Rattle.count_model.specs.Loads.{look_up, tell_usage};
ghost use Rattle.output_model.specs.Ends.{RunLimits};
ghost use Rattle.output_model.specs.Readings.{flat_line, trie_line, same_line, usage_line, stats_line};
ghost use Rattle.shard_cmd.specs.Histories.{Answers, IsGoing, Reads, gathered_as};

use crate::history::Halt;
use crate::reply_lines::{put_stats, put_usage, put_value};
use base_core::{Digest, Fault};
use script_io::{Buffer, put};
use shard_core::{FlatError, Shard, TrieError};
use text_store::Nodes;

/// Reads a key at a block, in flat storage.
pub fn read_flat<N: Nodes>(
    shard: &Shard<N>,
    id: &Digest,
    key: &[u8],
    replies: &mut Buffer,
) -> Result<(), Halt>
    requires { shard.now.stopped ≡ false }
    ensures reply { (limits : RunLimits) (forks : ForkState) → IsGoing N.store N.count_of limits shard.now forks → Answers replies.old.bytes replies.new.bytes (flat_line forks id.now.0 key.now) result }
    ensures no_fault { result ≢ Err Halt.StoreFault }
{
    match shard.flat(id, key) {
        Ok(Some(value)) => gathered(put_value(replies, b"flat ", value)),
        Ok(None) => gathered(put(replies, b"flat none\n")),
        Err(FlatError::NotLive) => gathered(put(replies, b"flat refused not-live\n")),
        // No call was cut short.
        Err(FlatError::Stopped) => unreachable!(),
    }
}

/// Reads a key at a block, in its trie.
pub fn read_trie<N: Nodes>(
    shard: &mut Shard<N>,
    id: &Digest,
    key: &[u8],
    replies: &mut Buffer,
) -> Result<(), Halt>
    requires key { length key.now ≤ longest_key }
    requires going { shard.old.stopped ≡ false }
    ensures { (limits : RunLimits) (forks : ForkState) → IsGoing N.store N.count_of limits shard.old forks → Reads N.store N.count_of limits forks (look_up id.now.0 key.now) shard.old shard.new replies.old.bytes replies.new.bytes (trie_line forks id.now.0 key.now) result }
{
    match shard.trie(id, key) {
        Ok(Some(value)) => gathered(put_value(replies, b"trie ", value)),
        Ok(None) => gathered(put(replies, b"trie none\n")),
        Err(TrieError::NotLive) => gathered(put(replies, b"trie refused not-live\n")),
        Err(TrieError::StoreFault) => Err(Halt::StoreFault),
        // No call was cut short.
        Err(TrieError::Stopped) => unreachable!(),
    }
}

/// Tells whether two blocks have one state.
pub fn read_same<N: Nodes>(
    shard: &Shard<N>,
    a: &Digest,
    b: &Digest,
    replies: &mut Buffer,
) -> Result<(), Halt>
    requires { shard.now.stopped ≡ false }
    ensures reply { (limits : RunLimits) (forks : ForkState) → IsGoing N.store N.count_of limits shard.now forks → Answers replies.old.bytes replies.new.bytes (same_line forks a.now.0 b.now.0) result }
    ensures no_fault { result ≢ Err Halt.StoreFault }
{
    match shard.same(a, b) {
        Ok(true) => gathered(put(replies, b"same yes\n")),
        Ok(false) => gathered(put(replies, b"same no\n")),
        Err(FlatError::NotLive) => gathered(put(replies, b"same refused not-live\n")),
        // No call was cut short.
        Err(FlatError::Stopped) => unreachable!(),
    }
}

/// Tells the usage of a block's state.
pub fn read_usage<N: Nodes>(
    shard: &mut Shard<N>,
    id: &Digest,
    replies: &mut Buffer,
) -> Result<(), Halt>
    requires { shard.old.stopped ≡ false }
    ensures { (limits : RunLimits) (forks : ForkState) → IsGoing N.store N.count_of limits shard.old forks → Reads N.store N.count_of limits forks (tell_usage id.now.0) shard.old shard.new replies.old.bytes replies.new.bytes (usage_line forks id.now.0) result }
{
    match shard.usage(id) {
        Ok(usage) => gathered(put_usage(replies, usage)),
        Err(TrieError::NotLive) => gathered(put(replies, b"usage refused not-live\n")),
        Err(TrieError::StoreFault) => Err(Halt::StoreFault),
        // No call was cut short.
        Err(TrieError::Stopped) => unreachable!(),
    }
}

/// Tells how much is kept.
pub fn read_stats<N: Nodes>(shard: &Shard<N>, replies: &mut Buffer) -> Result<(), Halt>
    requires { shard.now.stopped ≡ false }
    ensures reply { (limits : RunLimits) (forks : ForkState) → IsGoing N.store N.count_of limits shard.now forks → Answers replies.old.bytes replies.new.bytes (stats_line forks) result }
    ensures no_fault { result ≢ Err Halt.StoreFault }
{
    match shard.stats() {
        Ok(stats) => gathered(put_stats(replies, &stats)),
        // No call was cut short.
        Err(_) => unreachable!(),
    }
}

/// A buffer fails for want of memory alone.
pub fn gathered(put: Result<(), Fault>) -> Result<(), Halt>
    ensures { result ≡ gathered_as put }
{
    match put {
        Ok(()) => Ok(()),
        Err(Fault) => Err(Halt::NoMemory),
    }
}
