use super::*;
use base_core::{Fault, Text};
use std::alloc::{AllocError, Global};
use std::process::Abort;
use std::test::Fail;

const ID: &[u8; 64] = b"0123456789abcdef0123456789abcdef0123456789abcdef0123456789abcdef";

/// A sign with a key in small digits behind it.
fn put_key(line: &mut Buffer, sign: &[u8], key: &Text) -> Result<(), Fault> {
    put(line, sign)?;
    put_hex(line, key.as_slice())
}

/// The words of an operation, with small digits.
fn put_op(line: &mut Buffer, op: &Op) -> Result<(), Fault> {
    match op {
        Op::Read(key) => put_key(line, b" ?", key),
        Op::Delete(key) => put_key(line, b" -", key),
        Op::Set(key, value) => {
            put_key(line, b" +", key)?;
            put_key(line, b"=", value)
        }
    }
}

/// The words of operations, each behind a space.
fn written(alloc: Global, ops: &OpList) -> Result<Buffer, Fault> {
    let mut line = Buffer::new(alloc);
    for place in 0..ops.len() {
        put_op(&mut line, ops.at(place))?;
    }
    Ok(line)
}

/// The command of `prove`, an id and the words of operations.
fn read_prove(
    alloc: Global,
    id: &[u8],
    ops: &[&[u8]],
) -> Result<Result<Command, CommandError>, AllocError> {
    let mut words = tests::texts(alloc, &[b"prove", id])?;
    for op in ops {
        words.push(Text::copy(alloc, op)?)?;
    }
    Ok(read_command(alloc, words.as_slice()))
}

/// The operations of a command.
fn ops_of(command: &Command) -> Option<&OpList> {
    match command {
        Command::Prove { ops, .. } => Some(ops),
        _ => None,
    }
}

fn expect_ops(rt: &impl Abort, alloc: Global, ops: &[&[u8]], want: &[u8]) -> Result<(), Fail> {
    let command = read_prove(alloc, ID, ops)??;
    let found = ops_of(&command).ok_or("another command")?;
    let line = written(alloc, found)?;
    assert!(rt; line.bytes() == want, "{ops:?}");
    Ok(())
}

fn expect_bad(rt: &impl Abort, alloc: Global, id: &[u8], ops: &[&[u8]]) -> Result<(), Fail> {
    let found = read_prove(alloc, id, ops)?;
    assert!(rt; matches!(found, Err(CommandError::Bad)), "{ops:?}");
    Ok(())
}

#[test]
fn operations(rt: HostRuntime) -> Result<(), Fail> {
    let alloc = rt.alloc();
    let table: [(&[&[u8]], &[u8]); 9] = [
        (&[b"?61"], b" ?61"),
        (&[b"+61=6869"], b" +61=6869"),
        (&[b"-61"], b" -61"),
        (&[b"?-"], b" ?-"),
        (&[b"+-=-"], b" +-=-"),
        (&[b"--"], b" --"),
        (&[b"+aB=fFFf"], b" +ab=ffff"),
        (&[b"?4F", b"-4f"], b" ?4f -4f"),
        (&[b"-61", b"?62", b"+61=-", b"?62"], b" -61 ?62 +61=- ?62"),
    ];
    for (ops, want) in table {
        expect_ops(&rt, alloc, ops, want)?;
    }
    Ok(())
}

#[test]
fn no_operations(rt: HostRuntime) -> Result<(), Fail> {
    let alloc = rt.alloc();
    let table: [&[&[u8]]; 19] = [
        &[],
        &[b""],
        &[b"61"],
        &[b"?"],
        &[b"+"],
        &[b"-"],
        &[b"?6"],
        &[b"?6g"],
        &[b"-61 "],
        &[b" ?61"],
        &[b"?61=62"],
        &[b"+61"],
        &[b"+61="],
        &[b"+=61"],
        &[b"+61=62=63"],
        &[b"+61==62"],
        &[b"+61=6"],
        &[b"?61", b"/61"],
        &[b"", b"?61"],
    ];
    for ops in table {
        expect_bad(&rt, alloc, ID, ops)?;
    }
    Ok(())
}

#[test]
fn bad_ids_of_recordings(rt: HostRuntime) -> Result<(), Fail> {
    let alloc = rt.alloc();
    for id in [b"".as_slice(), b"-", &ID[..63], &ID[..62], b"?61"] {
        expect_bad(&rt, alloc, id, &[b"?61"])?;
    }
    Ok(())
}

/// A sign and a key of so many digits.
fn signed(alloc: Global, sign: u8, digits: usize) -> Result<Vec<u8>, AllocError> {
    let mut word = vec![in alloc; b'7'; digits]?;
    word.insert(0, sign)?;
    Ok(word)
}

fn expect_longest(rt: &impl Abort, alloc: Global, sign: u8) -> Result<(), Fail> {
    let longest = signed(alloc, sign, 4228)?;
    assert!(rt; read_prove(alloc, ID, &[longest.as_slice()])?.is_ok());
    let longer = signed(alloc, sign, 4230)?;
    expect_bad(rt, alloc, ID, &[longer.as_slice()])
}

/// The key of an operation is as long as any, and no longer.
#[test]
fn longest_keys_of_operations(rt: HostRuntime) -> Result<(), Fail> {
    let alloc = rt.alloc();
    for sign in *b"?-" {
        expect_longest(&rt, alloc, sign)?;
    }
    Ok(())
}
