use crate::bench_error::BenchError;
use base_core::{DIGEST_BYTES, Digest};
use std::alloc::Global;

/// What a line asks for.
#[derive(Debug, Drop)]
pub enum Asked {
    /// Holds a text under its digest.
    Text(Vec<u8>),
    /// Works below this root from now on.
    Root(Digest),
    /// Looks a key up.
    Get(Vec<u8>),
    /// Reads a key, and does no more with it: what reading the input costs.
    Key(Vec<u8>),
    /// Takes the set of a key into the batch.
    Set(Vec<u8>, Vec<u8>),
    /// Takes the deletion of a key into the batch.
    Del(Vec<u8>),
    /// Carries the batch out.
    Update,
    /// Drops the batch: what reading it costs.
    Skip,
    /// Hashes each text that the last batch made once more.
    Hash,
}

/// What a line asks for: a word, and behind a space each an even number of hexadecimal digits.
pub fn read_line(alloc: Global, line: &[u8]) -> Result<Asked, BenchError> {
    let Some(space) = line.iter().position(|byte| *byte == b' ') else {
        return read_word(line);
    };
    let word = &line[..space];
    let rest = &line[space + 1..];
    if word == b"set".as_slice() {
        return read_set(alloc, rest);
    }
    let bytes = hex::decode(alloc, rest)?;
    match word {
        b"text" => Ok(Asked::Text(bytes)),
        b"root" => read_root(bytes.as_slice()),
        b"get" => Ok(Asked::Get(bytes)),
        b"key" => Ok(Asked::Key(bytes)),
        b"del" => Ok(Asked::Del(bytes)),
        _ => Err(BenchError::Line),
    }
}

fn read_word(line: &[u8]) -> Result<Asked, BenchError> {
    match line {
        b"update" => Ok(Asked::Update),
        b"skip" => Ok(Asked::Skip),
        b"hash" => Ok(Asked::Hash),
        _ => Err(BenchError::Line),
    }
}

fn read_set(alloc: Global, rest: &[u8]) -> Result<Asked, BenchError> {
    let Some(space) = rest.iter().position(|byte| *byte == b' ') else {
        return Err(BenchError::Line);
    };
    let key = hex::decode(alloc, &rest[..space])?;
    Ok(Asked::Set(key, hex::decode(alloc, &rest[space + 1..])?))
}

fn read_root(bytes: &[u8]) -> Result<Asked, BenchError> {
    if bytes.len() != DIGEST_BYTES {
        return Err(BenchError::Line);
    }
    Ok(Asked::Root(Digest::from_slice(bytes)))
}
