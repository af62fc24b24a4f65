ghost use Rattle.std.specs.Prelude.{◌≡◌, Some, None, IsSome, IfOk};
ghost use Rattle.script_model.specs.Bounds.{IsCommanded};
ghost use Rattle.script_model.specs.Lines.{both};
ghost use Rattle.script_model.specs.Spellings.{id_of, key_of};
ghost use Rattle.script_model.specs.Words.{command_of, few_ops_of, get, prove};
ghost use Rattle.script_io.specs.Meanings.{command};

use crate::event::EventError;
use crate::event_words::read_key;
use crate::ids::read_id;
use crate::op_list::OpList;
use crate::op_words::read_ops;
use base_core::{Digest, Text};
use std::alloc::Global;
use thiserror::Error;

/// What the program is asked to do.
#[derive(Debug, Drop)]
pub enum Command {
    /// The root and the memory usage of a state.
    Root,
    /// What becomes of a history of blocks, with a reply to each block, head move and reading.
    Apply,
    /// What a key has at a block, behind a history of blocks.
    Get { id: Digest, key: Text },
    /// A recording of reads and changes at a block, behind a history of blocks.
    Prove { id: Digest, ops: OpList },
    /// What the reads of a recording answer, and the root behind its changes.
    Replay,
}

#[derive(Debug, Drop, Error)]
pub enum CommandError {
    #[error("the words are no command")]
    Bad,
    #[error("out of memory")]
    NoMemory,
}

/// The command that the words are. They don't contain the program's name.
pub fn read_command(alloc: Global, words: &[Text]) -> Result<Command, CommandError>
    ensures ok { IfOk result (λ found. command_of words.now ≡ Some (command found)) }
    ensures bad { result ≡ Err CommandError.Bad → command_of words.now ≡ None }
    ensures no_memory { result ≡ Err CommandError.NoMemory → IsSome (command_of words.now) }
    ensures within { IfOk result (λ found. IsCommanded (command found)) }
{
    match words {
        [word] if word.as_slice() == b"root".as_slice() => Ok(Command::Root),
        [word] if word.as_slice() == b"apply".as_slice() => Ok(Command::Apply),
        [word] if word.as_slice() == b"replay".as_slice() => Ok(Command::Replay),
        [word, id, key] if word.as_slice() == b"get".as_slice() => {
            read_get(alloc, id.as_slice(), key.as_slice())
        }
        [word, id, ops @ ..] if word.as_slice() == b"prove".as_slice() && !ops.is_empty() => {
            read_prove(alloc, id.as_slice(), ops)
        }
        _ => Err(CommandError::Bad),
    }
}

/// The command that asks for a key at a block.
fn read_get(alloc: Global, id: &[u8], key: &[u8]) -> Result<Command, CommandError>
    ensures ok { IfOk result (λ found. both get (id_of id.now) (key_of key.now) ≡ Some (command found)) }
    ensures bad { result ≡ Err CommandError.Bad → both get (id_of id.now) (key_of key.now) ≡ None }
    ensures no_memory { result ≡ Err CommandError.NoMemory → IsSome (both get (id_of id.now) (key_of key.now)) }
{
    let Some(id) = read_id(id) else {
        return Err(CommandError::Bad);
    };
    match read_key(alloc, key) {
        Ok(key) => Ok(Command::Get { id, key }),
        Err(EventError::Bad) => Err(CommandError::Bad),
        Err(EventError::NoMemory) => Err(CommandError::NoMemory),
    }
}

/// The command that asks for a recording at a block.
fn read_prove(alloc: Global, id: &[u8], ops: &[Text]) -> Result<Command, CommandError>
    ensures ok { IfOk result (λ found. both prove (id_of id.now) (few_ops_of ops.now) ≡ Some (command found)) }
    ensures bad { result ≡ Err CommandError.Bad → both prove (id_of id.now) (few_ops_of ops.now) ≡ None }
    ensures no_memory { result ≡ Err CommandError.NoMemory → IsSome (both prove (id_of id.now) (few_ops_of ops.now)) }
{
    let Some(id) = read_id(id) else {
        return Err(CommandError::Bad);
    };
    match read_ops(alloc, ops) {
        Ok(ops) => Ok(Command::Prove { id, ops }),
        Err(EventError::Bad) => Err(CommandError::Bad),
        Err(EventError::NoMemory) => Err(CommandError::NoMemory),
    }
}
