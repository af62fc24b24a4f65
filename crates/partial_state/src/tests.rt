use super::*;
use base_core::{BorshError, Digest, PutError, Text, Writer, digest};
use std::alloc::{AllocError, Global};
use std::process::Abort;
use std::test::Fail;
use text_store::{TextSet, write_partial};

/// The key 61 is read, the key 62 is deleted, and the key 63 becomes 64. The root is 32 zeros, and
/// no text is there. 67 bytes.
fn small(alloc: Global) -> Result<Text, AllocError> {
    let mut writer = Writer::new(alloc);
    writer.put_raw(&Digest::ZERO.0)?;
    writer.put_raw(&[1, 0, 0, 0, 1, 0, 0, 0, 0x61])?;
    writer.put_raw(&[2, 0, 0, 0, 1, 0, 0, 0, 0x62, 0])?;
    writer.put_raw(&[1, 0, 0, 0, 0x63, 1, 1, 0, 0, 0, 0x64])?;
    writer.put_raw(&[0, 0, 0, 0, 0])?;
    Ok(writer.into_text())
}

fn key(alloc: Global, bytes: &[u8]) -> Result<Text, AllocError> {
    Text::copy(alloc, bytes)
}

#[test]
fn operations_are_gathered(rt: HostRuntime) -> Result<(), Fail> {
    let alloc = rt.alloc();
    let mut ops = Ops::new(alloc, 1);
    ops.read(key(alloc, b"b")?)?;
    ops.put(key(alloc, b"a")?, key(alloc, b"x")?)?;
    ops.read(key(alloc, b"b")?)?;
    ops.remove(key(alloc, b"a")?)?;
    assert!(rt;
        matches!(
            ops.put(key(alloc, b"c")?, key(alloc, b"")?),
            Err(PutError::Full)
        )
    );
    assert_eq!(rt; ops.reads().len(), 2);
    assert_eq!(rt; ops.changes().len(), 1);
    assert_eq!(rt; ops.changes().get(b"a"), Some(None));
    Ok(())
}

// ---- the keys 61 and 62, each with a value that is its own byte

fn leaf(alloc: Global, value: &[u8]) -> Result<Text, AllocError> {
    let mut writer = Writer::new(alloc);
    writer.put_raw(&[0, 1, 0, 0, 0, 0x20, 1, 0, 0, 0])?;
    writer.put_raw(&digest(value).0)?;
    writer.put_u64(103)?;
    Ok(writer.into_text())
}

fn branch(alloc: Global) -> Result<Text, AllocError> {
    let mut writer = Writer::new(alloc);
    writer.put_raw(&[1, 6, 0])?;
    writer.put_raw(&digest(leaf(alloc, b"a")?.as_slice()).0)?;
    writer.put_raw(&digest(leaf(alloc, b"b")?.as_slice()).0)?;
    writer.put_u64(256)?;
    Ok(writer.into_text())
}

fn extension(alloc: Global) -> Result<Text, AllocError> {
    let mut writer = Writer::new(alloc);
    writer.put_raw(&[3, 1, 0, 0, 0, 0x16])?;
    writer.put_raw(&digest(branch(alloc)?.as_slice()).0)?;
    writer.put_u64(308)?;
    Ok(writer.into_text())
}

fn nodes(alloc: Global) -> Result<TextSet, AllocError> {
    let mut set = TextSet::new(alloc);
    set.put(leaf(alloc, b"a")?.as_slice())?;
    set.put(leaf(alloc, b"b")?.as_slice())?;
    set.put(branch(alloc)?.as_slice())?;
    set.put(extension(alloc)?.as_slice())?;
    Ok(set)
}

/// The file behind its root that is the digest of the extension: what stands before the texts, and
/// the texts.
fn file(alloc: Global, head: &[u8], set: &TextSet) -> Result<Text, AllocError> {
    let mut writer = Writer::new(alloc);
    writer.put_raw(&digest(extension(alloc)?.as_slice()).0)?;
    writer.put_raw(head)?;
    writer.put_raw(write_partial(alloc, set)?.as_slice())?;
    Ok(writer.into_text())
}

fn read(alloc: Global, bytes: &[u8]) -> Result<Proof, &'static str> {
    Proof::read(alloc, bytes).ok().ok_or("refused")
}

#[test]
fn a_deletion_is_recorded(rt: HostRuntime) -> Result<(), Fail> {
    let alloc = rt.alloc();
    let head = [0, 0, 0, 0, 1, 0, 0, 0, 1, 0, 0, 0, 0x62, 0];
    let bytes = file(alloc, &head, &nodes(alloc)?)?;
    assert_eq!(rt; bytes.as_slice().len(), 288);
    let proof = read(alloc, bytes.as_slice())?;
    assert_eq!(rt; proof.root, digest(extension(alloc)?.as_slice()));
    assert_eq!(rt; proof.ops.reads().len(), 0);
    assert_eq!(rt; proof.ops.changes().get(b"b"), Some(None));
    assert_eq!(rt; proof.state.len(), 4);
    assert_eq!(rt; proof.state.at(0), leaf(alloc, b"b")?.as_slice());
    assert_eq!(rt; proof.write(alloc)?.as_slice(), bytes.as_slice());
    Ok(())
}

#[test]
fn reads_are_recorded(rt: HostRuntime) -> Result<(), Fail> {
    let alloc = rt.alloc();
    let head = [
        2, 0, 0, 0, 1, 0, 0, 0, 0x61, 1, 0, 0, 0, 0x63, 1, 0, 0, 0, 1, 0, 0, 0, 0x62, 0,
    ];
    let mut set = nodes(alloc)?;
    set.put(b"a")?;
    let bytes = file(alloc, &head, &set)?;
    assert_eq!(rt; bytes.as_slice().len(), 303);
    let proof = read(alloc, bytes.as_slice())?;
    assert_eq!(rt; proof.ops.reads().len(), 2);
    assert_eq!(rt; proof.ops.changes().len(), 1);
    assert_eq!(rt; proof.state.len(), 5);
    assert_eq!(rt; proof.write(alloc)?.as_slice(), bytes.as_slice());
    Ok(())
}

// ---- refusals

fn refusal(alloc: Global, bytes: &[u8]) -> Option<ProofError> {
    Proof::read(alloc, bytes).err()
}

fn short(at: u64) -> Option<ProofError> {
    Some(ProofError::Frame(BorshError::Short { at }))
}

fn ordinal(at: u64) -> Option<ProofError> {
    Some(ProofError::Frame(BorshError::Ordinal { at }))
}

fn head(at: u64) -> Option<ProofError> {
    Some(ProofError::Head { at })
}

fn expect_cut(rt: &impl Abort, alloc: Global, bytes: &[u8], length: usize, at: u64) {
    if length <= bytes.len() {
        assert_eq!(rt;
            refusal(alloc, &bytes[..length]),
            short(at),
            "{length} bytes"
        );
    }
}

#[test]
fn each_cut_is_refused(rt: HostRuntime) -> Result<(), Fail> {
    let alloc = rt.alloc();
    let bytes = small(alloc)?;
    let fields = [0, 32, 36, 40, 41, 45, 49, 50, 51, 55, 56, 57, 61, 62, 63];
    let mut at = 0;
    for length in 0..67 {
        if fields.contains(&length) {
            at = length;
        }
        expect_cut(&rt, alloc, bytes.as_slice(), length, at as u64);
    }
    Ok(())
}

fn changed(alloc: Global, bytes: &[u8], place: usize) -> Result<Vec<u8>, AllocError> {
    let mut changed = Vec::from_slice(alloc, bytes)?;
    if place < changed.len() {
        changed[place] = changed[place].wrapping_add(1);
    }
    Ok(changed)
}

fn expect_changed(
    rt: &impl Abort,
    alloc: Global,
    from: usize,
    to: usize,
    expected: Option<ProofError>,
) -> Result<(), Fail> {
    let bytes = small(alloc)?;
    for place in from..to {
        let changed = changed(alloc, bytes.as_slice(), place)?;
        assert_eq!(rt;
            refusal(alloc, changed.as_slice()),
            expected,
            "byte {place}"
        );
    }
    Ok(())
}

#[test]
fn each_changed_byte_of_the_reads_is_seen(rt: HostRuntime) -> Result<(), Fail> {
    let alloc = rt.alloc();
    expect_changed(&rt, alloc, 0, 32, None)?;
    expect_changed(&rt, alloc, 32, 33, head(47))?;
    expect_changed(&rt, alloc, 33, 34, short(51))?;
    expect_changed(&rt, alloc, 34, 36, head(32))?;
    expect_changed(&rt, alloc, 36, 37, head(42))?;
    expect_changed(&rt, alloc, 37, 40, short(40))?;
    expect_changed(&rt, alloc, 40, 41, None)?;
    Ok(())
}

#[test]
fn each_changed_byte_of_the_changes_is_seen(rt: HostRuntime) -> Result<(), Fail> {
    let alloc = rt.alloc();
    expect_changed(&rt, alloc, 41, 44, head(62))?;
    expect_changed(&rt, alloc, 44, 45, head(41))?;
    expect_changed(&rt, alloc, 45, 46, short(56))?;
    expect_changed(&rt, alloc, 46, 49, short(49))?;
    expect_changed(&rt, alloc, 49, 50, head(51))?;
    expect_changed(&rt, alloc, 50, 51, short(60))?;
    expect_changed(&rt, alloc, 51, 52, short(62))?;
    expect_changed(&rt, alloc, 52, 55, short(55))?;
    expect_changed(&rt, alloc, 55, 56, None)?;
    expect_changed(&rt, alloc, 56, 57, ordinal(56))?;
    Ok(())
}

#[test]
fn each_changed_byte_behind_them_is_seen(rt: HostRuntime) -> Result<(), Fail> {
    let alloc = rt.alloc();
    expect_changed(&rt, alloc, 57, 58, short(64))?;
    expect_changed(&rt, alloc, 58, 61, short(61))?;
    expect_changed(&rt, alloc, 61, 62, None)?;
    expect_changed(&rt, alloc, 62, 63, ordinal(62))?;
    expect_changed(&rt, alloc, 63, 67, short(67))?;
    Ok(())
}

#[test]
fn bytes_left_over_are_told_last(rt: HostRuntime) -> Result<(), Fail> {
    let alloc = rt.alloc();
    let mut writer = Writer::new(alloc);
    writer.put_raw(small(alloc)?.as_slice())?;
    writer.put_u8(0)?;
    let rest = Some(ProofError::Frame(BorshError::Rest { at: 67 }));
    assert_eq!(rt; refusal(alloc, writer.into_text().as_slice()), rest);
    Ok(())
}
