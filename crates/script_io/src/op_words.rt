ghost use Rattle.std.specs.Prelude.{◌≡◌, ◌++◌, ◌∷◌, [], map};
ghost use Rattle.std.specs.Option.{option_map};
ghost use Rattle.script_model.specs.Spellings.{key_of};
ghost use Rattle.script_model.specs.Words.{read, delete, set_of, op_of, few_ops_of};
ghost use Rattle.script_io.specs.Meanings.{IsRead, op};

use crate::event::EventError;
use crate::event_words::{read_key, read_pair};
use crate::op_list::{Op, OpList};
use crate::words::cut_pair;
use base_core::Text;
use std::alloc::Global;

/// The most operations of a command.
const MOST_OPERATIONS: u64 = 65536;

/// The operations that words are, in their order. A word that is none is bad also where another
/// one found no memory.
pub(crate) fn read_ops(alloc: Global, words: &[Text]) -> Result<OpList, EventError>
    ensures { IsRead (λ ops. map op ops) (few_ops_of words.now) result }
{
    if words.len() as u64 > MOST_OPERATIONS {
        return Err(EventError::Bad);
    }
    let mut ops = Vec::new(alloc);
    let mut lacking = false;
    for word in words {
        match put_op(alloc, word.as_slice(), &mut ops) {
            Ok(()) => {}
            Err(EventError::NoMemory) => lacking = true,
            Err(EventError::Bad) => return Err(EventError::Bad),
        }
    }
    if lacking {
        Err(EventError::NoMemory)
    } else {
        Ok(OpList::new(ops))
    }
}

/// Puts the operation that a word is behind others.
fn put_op(alloc: Global, word: &[u8], ops: &mut Vec<Op>) -> Result<(), EventError>
    ensures { IsRead (λ _. map op ops.new.items) (option_map (λ found. map op ops.old.items ++ found ∷ []) (op_of word.now)) result }
{
    let op = read_op(alloc, word)?;
    match ops.push(op) {
        Ok(()) => Ok(()),
        Err(_) => Err(EventError::NoMemory),
    }
}

/// The operation that a word is.
fn read_op(alloc: Global, word: &[u8]) -> Result<Op, EventError>
    ensures { IsRead op (op_of word.now) result }
{
    match word.split_first() {
        Some((sign, text)) => read_signed(alloc, *sign, text),
        None => Err(EventError::Bad),
    }
}

/// `?K` reads, `+K=V` sets, `-K` deletes.
fn read_signed(alloc: Global, sign: u8, text: &[u8]) -> Result<Op, EventError>
    ensures { IsRead op (op_of (sign ∷ text.now)) result }
{
    match sign {
        b'?' => read_reading(alloc, text),
        b'+' => read_setting(alloc, text),
        b'-' => read_deletion(alloc, text),
        _ => Err(EventError::Bad),
    }
}

fn read_reading(alloc: Global, key: &[u8]) -> Result<Op, EventError>
    ensures { IsRead op (option_map read (key_of key.now)) result }
{
    Ok(Op::Read(read_key(alloc, key)?))
}

/// A key stands before the first `=`, and its value behind it.
fn read_setting(alloc: Global, pair: &[u8]) -> Result<Op, EventError>
    ensures { IsRead op (set_of pair.now) result }
{
    let Some((key, value)) = cut_pair(pair) else {
        return Err(EventError::Bad);
    };
    let (key, value) = read_pair(alloc, key, value)?;
    Ok(Op::Set(key, value))
}

fn read_deletion(alloc: Global, key: &[u8]) -> Result<Op, EventError>
    ensures { IsRead op (option_map delete (key_of key.now)) result }
{
    Ok(Op::Delete(read_key(alloc, key)?))
}
