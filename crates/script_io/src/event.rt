ghost use Rattle.std.specs.Prelude.{◌≡◌, Some, None, Ok, Err, IsSome, IfOk, if◌then◌else◌};
ghost use Rattle.std.specs.List.{slice_split, list_any};
ghost use Rattle.script_model.specs.Lines.{event_of, event_of_words, is_space, is_carriage_return};
ghost use Rattle.script_io.specs.Meanings.{IsRead, event};

use crate::event_words::{read_four, read_one, read_three, read_two};
use crate::words::cut_word;
use base_core::{Digest, Text};
use std::alloc::Global;
use thiserror::Error;

/// What a line of a script asks for.
#[derive(Debug, Drop)]
pub enum Event {
    /// Nothing: the line is empty or a comment.
    Nothing,
    /// Begins a block over another one, with a height.
    Open {
        id: Digest,
        prev: Digest,
        height: u64,
    },
    /// Sets the value of a key.
    Set {
        key: Text,
        value: Text,
    },
    /// Deletes a key.
    Del {
        key: Text,
    },
    /// Ends the block.
    End,
    /// Moves the head to a block.
    Head {
        id: Digest,
    },
    /// Reads a key at a block, in flat storage.
    Flat {
        id: Digest,
        key: Text,
    },
    /// Reads a key at a block, in its trie.
    Trie {
        id: Digest,
        key: Text,
    },
    /// Asks whether two blocks have one state.
    Same {
        a: Digest,
        b: Digest,
    },
    /// Asks for the usage of a block's state.
    Usage {
        id: Digest,
    },
    /// Asks how much is kept.
    Stats,
}

#[derive(Debug, Drop, Error)]
pub enum EventError {
    #[error("the line is none of a script")]
    Bad,
    #[error("out of memory")]
    NoMemory,
}

/// What a line asks for: nothing where it is empty or begins with `#`, else what its words say. Its
/// line feed is no part of it, and a carriage return is part of no line. A line that is none of a
/// script is bad also where there is no memory.
pub fn read_event(alloc: Global, line: &[u8]) -> Result<Event, EventError>
    ensures ok { IfOk result (λ found. event_of line.now ≡ Some (event found)) }
    ensures bad { result ≡ Err EventError.Bad → event_of line.now ≡ None }
    ensures no_memory { result ≡ Err EventError.NoMemory → IsSome (event_of line.now) }
{
    match line.first() {
        None => Ok(Event::Nothing),
        Some(first) => {
            if *first == b'#' {
                read_comment(line)
            } else {
                read_words(alloc, line)
            }
        }
    }
}

fn read_comment(line: &[u8]) -> Result<Event, EventError>
    ensures { result ≡ (if list_any is_carriage_return line.now then Err EventError.Bad else Ok Event.Nothing) }
{
    if line.contains(&b'\r') {
        Err(EventError::Bad)
    } else {
        Ok(Event::Nothing)
    }
}

/// What the words of a line ask for.
fn read_words(alloc: Global, line: &[u8]) -> Result<Event, EventError>
    ensures { IsRead event (event_of_words (slice_split is_space line.now)) result }
{
    let Some((word, rest)) = cut_word(line) else {
        return read_one(line).ok_or(EventError::Bad);
    };
    let Some((a, rest)) = cut_word(rest) else {
        return read_two(alloc, word, rest);
    };
    let Some((b, rest)) = cut_word(rest) else {
        return read_three(alloc, word, a, rest);
    };
    match cut_word(rest) {
        None => read_four(word, a, b, rest).ok_or(EventError::Bad),
        Some(_) => Err(EventError::Bad),
    }
}
