use base_core::Text;
use std::alloc::{AllocError, Global};
use std::env::{Env, FillError};

/// The words of the command line after the program's name, as bytes.
pub fn words(alloc: Global, env: &impl Env) -> Result<Vec<Text>, AllocError> {
    let mut words = Vec::new(alloc);
    for i in 1..usize::MAX {
        match word(alloc, env, i)? {
            Some(word) => words.push(word)?,
            None => break,
        }
    }
    Ok(words)
}

/// Word number i, if there is one. The room for it is doubled until it fits.
fn word(alloc: Global, env: &impl Env, i: usize) -> Result<Option<Text>, AllocError> {
    let mut size = 256usize;
    for _ in 0..usize::BITS {
        let mut room = zeros(alloc, size)?;
        match env.arg(i, &mut room) {
            Ok(length) => return Ok(Some(Text::copy(alloc, &room[..length])?)),
            Err(FillError::NotPresent) => return Ok(None),
            Err(FillError::TooLong) => size = size.saturating_add(size),
        }
    }
    Err(AllocError)
}

fn zeros(alloc: Global, size: usize) -> Result<Vec<u8>, AllocError> {
    vec![in alloc; 0; size]
}
