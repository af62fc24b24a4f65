ghost use Rattle.std.specs.Prelude.{◌≡◌, ◌≢◌, ℕ, List, true, false, Some, None, Err};
ghost use Rattle.base_core.specs.Bounds.{AreLimits};
ghost use Rattle.trie_model.specs.State.{IsPair};
ghost use Rattle.fork_model.specs.States.{ForkState};
ghost use Rattle.output_model.specs.Ends.{RunLimits};
ghost use Rattle.script_io.specs.Meanings.{event};
ghost use Rattle.script_model.specs.Lines as lines;
ghost use Rattle.script_model.specs.Bounds.{IsAsked, IsKey};
ghost use Rattle.shard_cmd.specs.Ends.{run_limits};
ghost use Rattle.shard_cmd.specs.Histories.{Does, IsGoing, IsOpened, Steps, named, outside_as, refusal_of, skipped};

use crate::readings::{gathered, read_flat, read_same, read_stats, read_trie, read_usage};
use crate::reply_lines::{put_accepted, put_moved, put_not_moved, put_refused};
use base_core::{Changes, Digest, Limits, PutError, Text};
use script_io::{Buffer, Event};
use shard_core::{ApplyError, Block, HeadError, Shard};
use std::alloc::Global;
use text_store::Nodes;

/// A block that is being told.
#[derive(Debug, Drop)]
pub struct Opened {
    pub id: Digest,
    pub prev: Digest,
    pub height: u64,
    pub changes: Changes,
}

/// Why a script does not go on behind a line.
#[derive(Clone, Copy, Debug, PartialEq, Eq)]
pub enum Halt {
    /// The line stands where it may not.
    Syntax,
    /// Texts of a block clash, with this digest.
    Clash { digest: Digest },
    /// The store failed.
    StoreFault,
    /// There was no memory.
    NoMemory,
}

/// Does what a line asks for, and puts its reply behind the others. It answers the block that is
/// being told from then on, if there is one.
pub fn step<N: Nodes>(
    alloc: Global,
    shard: &mut Shard<N>,
    opened: Option<Opened>,
    asked: Event,
    replies: &mut Buffer,
    limits: &Limits,
) -> Result<Option<Opened>, Halt>
    requires limits { AreLimits limits.now }
    requires going { shard.old.stopped ≡ false }
    requires within { IsAsked (event asked) }
    ensures { (forks : ForkState) → IsGoing N.store N.count_of (run_limits limits.now) shard.old forks → IsOpened (run_limits limits.now) opened
        → Steps N.store N.count_of false (run_limits limits.now) forks opened (event asked) shard.old shard.new replies.old.bytes replies.new.bytes result }
{
    match opened {
        None => step_outside(alloc, shard, asked, replies, limits),
        Some(block) => step_inside(shard, block, asked, replies),
    }
}

/// The same without replies, and without the readings.
pub fn step_quietly<N: Nodes>(
    alloc: Global,
    shard: &mut Shard<N>,
    opened: Option<Opened>,
    asked: Event,
    limits: &Limits,
) -> Result<Option<Opened>, Halt>
    requires limits { AreLimits limits.now }
    requires going { shard.old.stopped ≡ false }
    requires within { IsAsked (event asked) }
    ensures { (forks : ForkState) (before : List ℕ) → IsGoing N.store N.count_of (run_limits limits.now) shard.old forks → IsOpened (run_limits limits.now) opened
        → Steps N.store N.count_of true (run_limits limits.now) forks opened (event asked) shard.old shard.new before before result }
{
    let mut unheard = Buffer::new(alloc);
    match opened {
        None => step_outside(alloc, shard, unread(asked), &mut unheard, limits),
        Some(block) => step_inside(shard, block, asked, &mut unheard),
    }
}

/// What is left to do between two blocks where readings are skipped.
fn unread(asked: Event) -> Event
    requires { IsAsked (event asked) }
    ensures skips { event result ≡ skipped (event asked) }
    ensures within { IsAsked (event result) }
{
    match asked {
        Event::Flat { .. } => Event::Nothing,
        Event::Trie { .. } => Event::Nothing,
        Event::Same { .. } => Event::Nothing,
        Event::Usage { .. } => Event::Nothing,
        Event::Stats => Event::Nothing,
        asked => asked,
    }
}

/// Between two blocks.
fn step_outside<N: Nodes>(
    alloc: Global,
    shard: &mut Shard<N>,
    asked: Event,
    replies: &mut Buffer,
    limits: &Limits,
) -> Result<Option<Opened>, Halt>
    requires limits { AreLimits limits.now }
    requires going { shard.old.stopped ≡ false }
    requires within { IsAsked (event asked) }
    ensures { (forks : ForkState) → IsGoing N.store N.count_of (run_limits limits.now) shard.old forks
        → Steps N.store N.count_of false (run_limits limits.now) forks None (event asked) shard.old shard.new replies.old.bytes replies.new.bytes result }
{
    match asked {
        Event::Nothing => Ok(None),
        Event::Open { id, prev, height } => Ok(Some(Opened {
            id,
            prev,
            height,
            changes: Changes::new(alloc, limits.changes),
        })),
        Event::Head { id } => outside(move_head(shard, &id, replies)),
        Event::Flat { id, key } => outside(read_flat(shard, &id, key.as_slice(), replies)),
        Event::Trie { id, key } => outside(read_trie(shard, &id, key.as_slice(), replies)),
        Event::Same { a, b } => outside(read_same(shard, &a, &b, replies)),
        Event::Usage { id } => outside(read_usage(shard, &id, replies)),
        Event::Stats => outside(read_stats(shard, replies)),
        Event::Set { .. } => Err(Halt::Syntax),
        Event::Del { .. } => Err(Halt::Syntax),
        Event::End => Err(Halt::Syntax),
    }
}

/// In a block.
fn step_inside<N: Nodes>(
    shard: &mut Shard<N>,
    block: Opened,
    asked: Event,
    replies: &mut Buffer,
) -> Result<Option<Opened>, Halt>
    requires going { shard.old.stopped ≡ false }
    requires within { IsAsked (event asked) }
    ensures { (limits : RunLimits) (forks : ForkState) → IsGoing N.store N.count_of limits shard.old forks → IsOpened limits (Some block)
        → Steps N.store N.count_of false limits forks (Some block) (event asked) shard.old shard.new replies.old.bytes replies.new.bytes result }
{
    match asked {
        Event::Nothing => Ok(Some(block)),
        Event::Set { key, value } => set(block, key, value),
        Event::Del { key } => delete(block, key),
        Event::End => outside(end(shard, block, replies)),
        Event::Open { .. } => Err(Halt::Syntax),
        Event::Head { .. } => Err(Halt::Syntax),
        Event::Flat { .. } => Err(Halt::Syntax),
        Event::Trie { .. } => Err(Halt::Syntax),
        Event::Same { .. } => Err(Halt::Syntax),
        Event::Usage { .. } => Err(Halt::Syntax),
        Event::Stats => Err(Halt::Syntax),
    }
}

/// The block with one more key set.
fn set(block: Opened, key: Text, value: Text) -> Result<Option<Opened>, Halt>
    requires { IsPair (key, value) }
    ensures does { (limits : RunLimits) (forks : ForkState) (before : List ℕ) → IsOpened limits (Some block)
        → Does false limits forks (Some block) (lines.set key value) (λ f. f ≡ forks) before before result }
    ensures no_fault { result ≢ Err Halt.StoreFault }
{
    let mut block = block;
    match block.changes.put(key, value) {
        Ok(()) => Ok(Some(block)),
        Err(PutError::Full) => Err(Halt::Syntax),
        Err(PutError::NoMemory) => Err(Halt::NoMemory),
        Err(PutError::KeyLong { .. }) => unreachable!(),
        Err(PutError::ValueLong { .. }) => unreachable!(),
    }
}

/// The block with one more key deleted.
fn delete(block: Opened, key: Text) -> Result<Option<Opened>, Halt>
    requires { IsKey key }
    ensures does { (limits : RunLimits) (forks : ForkState) (before : List ℕ) → IsOpened limits (Some block)
        → Does false limits forks (Some block) (lines.delete key) (λ f. f ≡ forks) before before result }
    ensures no_fault { result ≢ Err Halt.StoreFault }
{
    let mut block = block;
    match block.changes.remove(key) {
        Ok(()) => Ok(Some(block)),
        Err(PutError::Full) => Err(Halt::Syntax),
        Err(PutError::NoMemory) => Err(Halt::NoMemory),
        Err(PutError::KeyLong { .. }) => unreachable!(),
        Err(PutError::ValueLong { .. }) => unreachable!(),
    }
}

/// Offers the block.
fn end<N: Nodes>(shard: &mut Shard<N>, block: Opened, replies: &mut Buffer) -> Result<(), Halt>
    requires { shard.old.stopped ≡ false }
    ensures { (limits : RunLimits) (forks : ForkState) → IsGoing N.store N.count_of limits shard.old forks
        → Steps N.store N.count_of false limits forks (Some block) lines.block_end shard.old shard.new replies.old.bytes replies.new.bytes (outside_as result) }
{
    let Opened {
        id,
        prev,
        height,
        changes,
    } = block;
    match shard.apply(Block {
        id,
        prev,
        height,
        changes,
    }) {
        Ok(applied) => gathered(put_accepted(replies, &id, &applied.root)),
        Err(error) => match refusal(error) {
            Ok(name) => gathered(put_refused(replies, &id, name)),
            Err(halt) => Err(halt),
        },
    }
}

/// The name by which a block is refused, or why the script does not go on.
fn refusal(error: ApplyError) -> Result<&'static [u8], Halt>
    requires { error ≢ ApplyError.Stopped }
    ensures { named result ≡ refusal_of error }
{
    match error {
        ApplyError::Known => Ok(b"known"),
        ApplyError::NoPrev => Ok(b"no-prev"),
        ApplyError::Height => Ok(b"height"),
        ApplyError::FullBlocks => Ok(b"full-blocks"),
        ApplyError::FullPairs => Ok(b"full-pairs"),
        ApplyError::Clash { digest } => Err(Halt::Clash { digest }),
        ApplyError::StoreFault => Err(Halt::StoreFault),
        ApplyError::NoMemory => Err(Halt::NoMemory),
        // No call was cut short.
        ApplyError::Stopped => unreachable!(),
    }
}

/// Moves the head to a block.
fn move_head<N: Nodes>(shard: &mut Shard<N>, id: &Digest, replies: &mut Buffer) -> Result<(), Halt>
    requires { shard.old.stopped ≡ false }
    ensures { (limits : RunLimits) (forks : ForkState) → IsGoing N.store N.count_of limits shard.old forks
        → Steps N.store N.count_of false limits forks None (lines.head id.now.0) shard.old shard.new replies.old.bytes replies.new.bytes (outside_as result) }
{
    match shard.move_head(id) {
        Ok(moved) => gathered(put_moved(replies, id, &moved)),
        Err(HeadError::NotLive) => gathered(put_not_moved(replies, id)),
        Err(HeadError::StoreFault) => Err(Halt::StoreFault),
        Err(HeadError::NoMemory) => Err(Halt::NoMemory),
        // No call was cut short.
        Err(HeadError::Stopped) => unreachable!(),
    }
}

/// No block is being told behind what was replied to.
fn outside(replied: Result<(), Halt>) -> Result<Option<Opened>, Halt>
    ensures { result ≡ outside_as replied }
{
    match replied {
        Ok(()) => Ok(None),
        Err(halt) => Err(halt),
    }
}
