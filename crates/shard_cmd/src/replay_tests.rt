use super::*;
use base_core::{Limits, Text, Writer, digest};
use script_io::{MemSink, MemSource};
use std::alloc::{AllocError, Global};
use std::process::Abort;
use std::test::Fail;
use text_store::{MemNodes, TextSet, write_partial};

// ---- the keys 61 and 62, each with a value that is its own byte

/// The key 62 is deleted.
pub const DELETION: &[u8] = &[0, 0, 0, 0, 1, 0, 0, 0, 1, 0, 0, 0, 0x62, 0];

/// And before that the keys 62 and 63 are read.
pub const READS: &[u8] = &[
    2, 0, 0, 0, 1, 0, 0, 0, 0x62, 1, 0, 0, 0, 0x63, 1, 0, 0, 0, 1, 0, 0, 0, 0x62, 0,
];

/// The root behind the deletion, which another program computed.
pub const BEHIND: &[u8] =
    b"root cfbcdb2eb8dbb0eb842f2bcde9119be3c52b1c917c6df883427205cec06387cc\n";

const READ_BEHIND: &[u8] =
    b"read 62\nread none\nroot cfbcdb2eb8dbb0eb842f2bcde9119be3c52b1c917c6df883427205cec06387cc\n";

/// The leaf of 62 is missing.
const MISSING: &[u8] =
    b"refused missing 9388c9352af4897c794d825e2357e48f8b6fae568882e518464b9eed2d698d5f\n";

/// A leaf with a value of one byte.
fn leaf(alloc: Global, value: &[u8]) -> Result<Text, AllocError> {
    let mut writer = Writer::new(alloc);
    writer.put_raw(&[0, 1, 0, 0, 0, 0x20, 1, 0, 0, 0])?;
    writer.put_raw(&digest(value).0)?;
    writer.put_u64(103)?;
    Ok(writer.into_text())
}

fn branch(alloc: Global) -> Result<Text, AllocError> {
    let mut writer = Writer::new(alloc);
    writer.put_raw(&[1, 6, 0])?;
    writer.put_raw(&digest(leaf(alloc, b"a")?.as_slice()).0)?;
    writer.put_raw(&digest(leaf(alloc, b"b")?.as_slice()).0)?;
    writer.put_u64(256)?;
    Ok(writer.into_text())
}

fn extension(alloc: Global) -> Result<Text, AllocError> {
    let mut writer = Writer::new(alloc);
    writer.put_raw(&[3, 1, 0, 0, 0, 0x16])?;
    writer.put_raw(&digest(branch(alloc)?.as_slice()).0)?;
    writer.put_u64(308)?;
    Ok(writer.into_text())
}

/// The nodes, and the leaf of 62 and the two values among them or not.
pub fn texts(
    alloc: Global,
    leaf_too: bool,
    a_too: bool,
    b_too: bool,
) -> Result<TextSet, AllocError> {
    let mut set = TextSet::new(alloc);
    set.put(leaf(alloc, b"a")?.as_slice())?;
    set.put(branch(alloc)?.as_slice())?;
    set.put(extension(alloc)?.as_slice())?;
    if leaf_too {
        set.put(leaf(alloc, b"b")?.as_slice())?;
    }
    if a_too {
        set.put(b"a")?;
    }
    if b_too {
        set.put(b"b")?;
    }
    Ok(set)
}

/// A recording of these operations and texts.
pub fn recording(alloc: Global, operations: &[u8], set: &TextSet) -> Result<Text, AllocError> {
    let mut writer = Writer::new(alloc);
    writer.put_raw(&digest(extension(alloc)?.as_slice()).0)?;
    writer.put_raw(operations)?;
    writer.put_raw(write_partial(alloc, set)?.as_slice())?;
    Ok(writer.into_text())
}

/// How a run of `replay` ends and what it writes. The reads whose numbers are in the first list fail,
/// and the writes whose numbers are in the second.
fn course(
    alloc: Global,
    input: &[u8],
    reads: &[u64],
    writes: &[u64],
) -> Result<(Status, MemSink), AllocError> {
    let mut words = Vec::new(alloc);
    words.push(Text::copy(alloc, b"replay")?)?;
    let mut source = MemSource::new(alloc, input, 100, reads)?;
    let mut sink = MemSink::new(alloc, 1000, 50, writes)?;
    let nodes = MemNodes::new(alloc, &[])?;
    let (words, limits) = (words.as_slice(), &Limits::FULL);
    let outcome = run(alloc, words, &mut source, &mut sink, nodes, limits);
    let status = outcome.status;
    Ok((status, sink))
}

fn expect(
    rt: &impl Abort,
    alloc: Global,
    input: &[u8],
    output: &[u8],
    status: Status,
) -> Result<(), Fail> {
    let (ended, sink) = course(alloc, input, &[], &[])?;
    assert_eq!(rt; ended, status);
    assert_eq!(rt; sink.bytes(), output);
    Ok(())
}

/// A deletion that visits all four nodes, and a leaf that is not there.
#[test]
fn a_deletion(rt: HostRuntime) -> Result<(), Fail> {
    let alloc = rt.alloc();
    let input = recording(alloc, DELETION, &texts(alloc, true, false, false)?)?;
    expect(&rt, alloc, input.as_slice(), BEHIND, Status::Done)?;
    let input = recording(alloc, DELETION, &texts(alloc, false, false, false)?)?;
    expect(&rt, alloc, input.as_slice(), MISSING, Status::Refused)
}

/// Reads look at the state before the deletion, and a value that nothing visits is one too many.
#[test]
fn reads_and_a_deletion(rt: HostRuntime) -> Result<(), Fail> {
    let alloc = rt.alloc();
    let input = recording(alloc, READS, &texts(alloc, true, false, true)?)?;
    expect(&rt, alloc, input.as_slice(), READ_BEHIND, Status::Done)?;
    let input = recording(alloc, DELETION, &texts(alloc, true, true, false)?)?;
    expect(
        &rt,
        alloc,
        input.as_slice(),
        b"refused spare 4\n",
        Status::Refused,
    )
}

/// Bytes that end within the last text, within a root, and where the root begins.
#[test]
fn cut_recordings(rt: HostRuntime) -> Result<(), Fail> {
    let alloc = rt.alloc();
    let input = recording(alloc, DELETION, &texts(alloc, true, false, false)?)?;
    let bytes = input.as_slice();
    assert_eq!(rt; bytes.len(), 288);
    let (cut, _) = bytes.split_at(287);
    expect(&rt, alloc, cut, b"syntax 242\n", Status::Syntax)?;
    expect(&rt, alloc, &[0; 31], b"syntax 0\n", Status::Syntax)?;
    expect(&rt, alloc, &[], b"syntax 0\n", Status::Syntax)
}

/// Each read fails in turn, and each write. After a failed read nothing is written.
#[test]
fn failing_calls(rt: HostRuntime) -> Result<(), Fail> {
    let alloc = rt.alloc();
    let input = recording(alloc, DELETION, &texts(alloc, true, false, false)?)?;
    let input = input.as_slice();
    for read in 1..5 {
        let (status, sink) = course(alloc, input, &[read], &[])?;
        assert_eq!(rt; status, Status::ReadFault, "read {read}");
        assert!(rt; sink.bytes().is_empty(), "read {read}");
    }
    for (write, written) in [(1, 0), (2, 50)] {
        let (status, sink) = course(alloc, input, &[], &[write])?;
        assert_eq!(rt; status, Status::WriteFault, "write {write}");
        assert_eq!(rt; sink.bytes(), &BEHIND[..written], "write {write}");
    }
    // The run is over before these come.
    let (status, sink) = course(alloc, input, &[5], &[3])?;
    assert_eq!(rt; status, Status::Done);
    assert_eq!(rt; sink.bytes(), BEHIND);
    Ok(())
}
