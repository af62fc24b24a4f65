ghost use Rattle.std.specs.Prelude.{◌≡◌};
ghost use Rattle.std.specs.Option.{option_map};
ghost use Rattle.script_model.specs.Lines.{set, delete, flat, trie, same, both, event_of_one, event_of_two, event_of_three, event_of_four};
ghost use Rattle.script_model.specs.Spellings.{id_of, key_of, value_of};
ghost use Rattle.script_io.specs.Meanings.{IsRead, event, pair_of};

use crate::event::{Event, EventError};
use crate::hex_bytes::read_hex;
use crate::ids::read_id;
use crate::number::read_number;
use base_core::{Digest, LONGEST_KEY, LONGEST_VALUE, Text};
use std::alloc::Global;

/// What a word alone asks for. It takes no memory.
pub(crate) fn read_one(word: &[u8]) -> Option<Event>
    ensures { option_map event result ≡ event_of_one word.now }
{
    if word == b"end".as_slice() {
        Some(Event::End)
    } else if word == b"stats".as_slice() {
        Some(Event::Stats)
    } else {
        None
    }
}

/// What a word asks for with another one behind it.
pub(crate) fn read_two(alloc: Global, word: &[u8], a: &[u8]) -> Result<Event, EventError>
    ensures { IsRead event (event_of_two word.now a.now) result }
{
    if word == b"del".as_slice() {
        read_del(alloc, a)
    } else if word == b"head".as_slice() {
        match read_id(a) {
            Some(id) => Ok(Event::Head { id }),
            None => Err(EventError::Bad),
        }
    } else if word == b"usage".as_slice() {
        match read_id(a) {
            Some(id) => Ok(Event::Usage { id }),
            None => Err(EventError::Bad),
        }
    } else {
        Err(EventError::Bad)
    }
}

/// What a word asks for with two behind it.
pub(crate) fn read_three(
    alloc: Global,
    word: &[u8],
    a: &[u8],
    b: &[u8],
) -> Result<Event, EventError>
    ensures { IsRead event (event_of_three word.now a.now b.now) result }
{
    if word == b"set".as_slice() {
        read_set(alloc, a, b)
    } else if word == b"flat".as_slice() {
        match read_id(a) {
            Some(id) => read_flat(alloc, id, b),
            None => Err(EventError::Bad),
        }
    } else if word == b"trie".as_slice() {
        match read_id(a) {
            Some(id) => read_trie(alloc, id, b),
            None => Err(EventError::Bad),
        }
    } else if word == b"same".as_slice() {
        read_same(a, b).ok_or(EventError::Bad)
    } else {
        Err(EventError::Bad)
    }
}

/// What a word asks for with three behind it. It takes no memory.
pub(crate) fn read_four(word: &[u8], a: &[u8], b: &[u8], c: &[u8]) -> Option<Event>
    ensures { option_map event result ≡ event_of_four word.now a.now b.now c.now }
{
    if word != b"block".as_slice() {
        return None;
    }
    Some(Event::Open {
        id: read_id(a)?,
        prev: read_id(b)?,
        height: read_number(c)?,
    })
}

fn read_del(alloc: Global, key: &[u8]) -> Result<Event, EventError>
    ensures { IsRead event (option_map delete (key_of key.now)) result }
{
    Ok(Event::Del {
        key: read_key(alloc, key)?,
    })
}

fn read_flat(alloc: Global, id: Digest, key: &[u8]) -> Result<Event, EventError>
    ensures { IsRead event (option_map (flat id.0) (key_of key.now)) result }
{
    Ok(Event::Flat {
        id,
        key: read_key(alloc, key)?,
    })
}

fn read_trie(alloc: Global, id: Digest, key: &[u8]) -> Result<Event, EventError>
    ensures { IsRead event (option_map (trie id.0) (key_of key.now)) result }
{
    Ok(Event::Trie {
        id,
        key: read_key(alloc, key)?,
    })
}

fn read_same(a: &[u8], b: &[u8]) -> Option<Event>
    ensures { option_map event result ≡ both same (id_of a.now) (id_of b.now) }
{
    Some(Event::Same {
        a: read_id(a)?,
        b: read_id(b)?,
    })
}

fn read_set(alloc: Global, key: &[u8], value: &[u8]) -> Result<Event, EventError>
    ensures { IsRead event (both set (key_of key.now) (value_of value.now)) result }
{
    let (key, value) = read_pair(alloc, key, value)?;
    Ok(Event::Set { key, value })
}

/// The key and the value that two texts write. A value that is none is bad also where the key found
/// no memory.
pub(crate) fn read_pair(alloc: Global, key: &[u8], value: &[u8]) -> Result<(Text, Text), EventError>
    ensures { IsRead (λ pair. pair) (pair_of key.now value.now) result }
{
    let key = match read_key(alloc, key) {
        Ok(key) => Some(key),
        Err(EventError::NoMemory) => None,
        Err(EventError::Bad) => return Err(EventError::Bad),
    };
    let value = read_value(alloc, value)?;
    match key {
        Some(key) => Ok((key, value)),
        None => Err(EventError::NoMemory),
    }
}

pub(crate) fn read_key(alloc: Global, text: &[u8]) -> Result<Text, EventError>
    ensures { IsRead (λ key. key) (key_of text.now) result }
{
    read_hex(alloc, text, LONGEST_KEY)
}

fn read_value(alloc: Global, text: &[u8]) -> Result<Text, EventError>
    ensures { IsRead (λ value. value) (value_of text.now) result }
{
    read_hex(alloc, text, LONGEST_VALUE)
}
