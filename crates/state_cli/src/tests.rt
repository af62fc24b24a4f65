use crate::words::words;
use std::alloc::{AllocError, Global};
use std::env::{Env, FillError};
use std::process::Abort;
use std::test::Fail;

/// A command line in memory, the program's name first.
#[derive(Drop)]
struct CommandLine<'a> {
    words: &'a [&'a [u8]],
}

impl<'a> Env for CommandLine<'a> {
    fn arg(&self, i: usize, buf: &mut [u8]) -> Result<usize, FillError> {
        let Some(word) = self.words.get(i) else {
            return Err(FillError::NotPresent);
        };
        let length = word.len();
        if length > buf.len() {
            return Err(FillError::TooLong);
        }
        buf[..length].copy_from_slice(word);
        Ok(length)
    }

    fn var(&self, _name: &str, _buf: &mut [u8]) -> Result<usize, FillError> {
        Err(FillError::NotPresent)
    }

    fn var_at(&self, _i: usize, _buf: &mut [u8]) -> Result<usize, FillError> {
        Err(FillError::NotPresent)
    }
}

/// A word of so many bytes, no two of them alike that stand less than 251 apart.
fn long_word(alloc: Global, length: usize) -> Result<Vec<u8>, AllocError> {
    let mut word = Vec::new(alloc);
    for i in 0..length {
        word.push((i % 251) as u8)?;
    }
    Ok(word)
}

/// A word of so many bytes between two others is read whole, and so are these.
fn expect(rt: &impl Abort, alloc: Global, length: usize) -> Result<(), Fail> {
    let long = long_word(alloc, length)?;
    let long = long.as_slice();
    let line = CommandLine {
        words: &[b"state_cli", b"root", long, b"end"],
    };
    let words = words(alloc, &line)?;
    assert_eq!(rt; words.len(), 3);
    assert_eq!(rt; words[0].as_slice(), b"root".as_slice());
    assert_eq!(rt; words[1].as_slice(), long, "{length} bytes");
    assert_eq!(rt; words[2].as_slice(), b"end".as_slice());
    Ok(())
}

#[test]
fn words_are_read_whole(rt: HostRuntime) -> Result<(), Fail> {
    for length in [0, 1, 255, 256, 257, 512, 513, 1024, 1025, 5000] {
        expect(&rt, rt.alloc(), length)?;
    }
    Ok(())
}
