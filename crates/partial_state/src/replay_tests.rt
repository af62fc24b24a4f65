use super::*;
use base_core::{BorshError, Text, Writer, digest};
use std::alloc::{AllocError, Global};
use std::process::Abort;
use std::test::Fail;
use text_store::{TextSet, write_partial};

// ---- the keys 61 and 62, each with a value that is its own byte

/// The key 62 is deleted.
pub(crate) const DELETION: [u8; 14] = [0, 0, 0, 0, 1, 0, 0, 0, 1, 0, 0, 0, 0x62, 0];

/// A leaf that begins with its spelled path, with the value of one byte and its usage.
fn leaf(alloc: Global, head: &[u8], value: &[u8], usage: u64) -> Result<Text, AllocError> {
    let mut writer = Writer::new(alloc);
    writer.put_raw(head)?;
    writer.put_raw(&[1, 0, 0, 0])?;
    writer.put_raw(&digest(value).0)?;
    writer.put_u64(usage)?;
    Ok(writer.into_text())
}

fn leaf_a(alloc: Global) -> Result<Text, AllocError> {
    leaf(alloc, &[0, 1, 0, 0, 0, 0x20], b"a", 103)
}

fn leaf_b(alloc: Global) -> Result<Text, AllocError> {
    leaf(alloc, &[0, 1, 0, 0, 0, 0x20], b"b", 103)
}

pub(crate) fn branch(alloc: Global) -> Result<Text, AllocError> {
    let mut writer = Writer::new(alloc);
    writer.put_raw(&[1, 6, 0])?;
    writer.put_raw(&digest(leaf_a(alloc)?.as_slice()).0)?;
    writer.put_raw(&digest(leaf_b(alloc)?.as_slice()).0)?;
    writer.put_u64(256)?;
    Ok(writer.into_text())
}

fn extension(alloc: Global) -> Result<Text, AllocError> {
    let mut writer = Writer::new(alloc);
    writer.put_raw(&[3, 1, 0, 0, 0, 0x16])?;
    writer.put_raw(&digest(branch(alloc)?.as_slice()).0)?;
    writer.put_u64(308)?;
    Ok(writer.into_text())
}

/// All four but the one with this number.
pub(crate) fn nodes_but(alloc: Global, left_out: u64) -> Result<TextSet, AllocError> {
    let mut set = TextSet::new(alloc);
    if left_out != 0 {
        set.put(leaf_a(alloc)?.as_slice())?;
    }
    if left_out != 1 {
        set.put(leaf_b(alloc)?.as_slice())?;
    }
    if left_out != 2 {
        set.put(branch(alloc)?.as_slice())?;
    }
    if left_out != 3 {
        set.put(extension(alloc)?.as_slice())?;
    }
    Ok(set)
}

pub(crate) fn file(alloc: Global, head: &[u8], set: &TextSet) -> Result<Text, AllocError> {
    let mut writer = Writer::new(alloc);
    writer.put_raw(&digest(extension(alloc)?.as_slice()).0)?;
    writer.put_raw(head)?;
    writer.put_raw(write_partial(alloc, set)?.as_slice())?;
    Ok(writer.into_text())
}

fn replay_of(alloc: Global, head: &[u8], set: &TextSet) -> Result<Replayed, ReplayError> {
    let Ok(bytes) = file(alloc, head, set) else {
        return Err(ReplayError::NoMemory);
    };
    match Proof::read(alloc, bytes.as_slice()) {
        Ok(mut proof) => replay(alloc, &mut proof),
        Err(_) => Err(ReplayError::NoMemory),
    }
}

#[test]
fn a_deletion_is_replayed(rt: HostRuntime) -> Result<(), Fail> {
    let alloc = rt.alloc();
    let set = nodes_but(alloc, 4)?;
    let replayed = replay_of(alloc, &DELETION, &set).ok().ok_or("refused")?;
    let alone = leaf(alloc, &[0, 2, 0, 0, 0, 0x20, 0x61], b"a", 105)?;
    assert_eq!(rt; replayed.root, digest(alone.as_slice()));
    assert_eq!(rt; replayed.answers.len(), 0);
    Ok(())
}

#[test]
fn reads_look_at_the_state_before(rt: HostRuntime) -> Result<(), Fail> {
    let alloc = rt.alloc();
    let mut set = nodes_but(alloc, 4)?;
    set.put(b"b")?;
    let head = [
        2, 0, 0, 0, 1, 0, 0, 0, 0x62, 1, 0, 0, 0, 0x63, 1, 0, 0, 0, 1, 0, 0, 0, 0x62, 0,
    ];
    let replayed = replay_of(alloc, &head, &set).ok().ok_or("refused")?;
    if replayed.answers.len() != 2 {
        return Err("two reads".into());
    }
    assert_eq!(rt; replayed.answers.at(0), Some(b"b".as_slice()));
    assert_eq!(rt; replayed.answers.at(1), None);
    Ok(())
}

fn expect_missing(
    rt: &impl Abort,
    alloc: Global,
    left_out: u64,
    text: &[u8],
) -> Result<(), AllocError> {
    let set = nodes_but(alloc, left_out)?;
    match replay_of(alloc, &DELETION, &set) {
        Err(ReplayError::Missing { digest: named }) => assert_eq!(rt; named, digest(text)),
        Err(ReplayError::NoMemory) => return Err(AllocError),
        _ => assert!(rt; false, "{left_out} is not missed"),
    }
    Ok(())
}

#[test]
fn a_text_left_out_is_missed(rt: HostRuntime) -> Result<(), Fail> {
    let alloc = rt.alloc();
    expect_missing(&rt, alloc, 0, leaf_a(alloc)?.as_slice())?;
    expect_missing(&rt, alloc, 1, leaf_b(alloc)?.as_slice())?;
    expect_missing(&rt, alloc, 2, branch(alloc)?.as_slice())?;
    expect_missing(&rt, alloc, 3, extension(alloc)?.as_slice())?;
    Ok(())
}

#[test]
fn a_text_too_many_is_told(rt: HostRuntime) -> Result<(), Fail> {
    let alloc = rt.alloc();
    let mut set = nodes_but(alloc, 4)?;
    set.put(b"a")?;
    match replay_of(alloc, &DELETION, &set) {
        Err(ReplayError::Spare { place }) => assert_eq!(rt; place, 4),
        _ => assert!(rt; false, "nothing is spare"),
    }
    Ok(())
}

// ---- other bytes than those of the recording

/// One of the four texts, by its place, or else a leaf of another state.
fn text(alloc: Global, place: u8) -> Result<Text, AllocError> {
    match place {
        0 => leaf_b(alloc),
        1 => leaf_a(alloc),
        2 => branch(alloc),
        3 => extension(alloc),
        _ => leaf(alloc, &[0, 1, 0, 0, 0, 0x20], b"c", 103),
    }
}

/// The recording of the deletion with these texts, in this order.
fn recording_with(alloc: Global, places: &[u8]) -> Result<Text, AllocError> {
    let mut writer = Writer::new(alloc);
    writer.put_raw(&digest(extension(alloc)?.as_slice()).0)?;
    writer.put_raw(&DELETION)?;
    writer.put_u8(0)?;
    writer.put_u32(u32::try_from(places.len()).unwrap_or(0))?;
    for place in places {
        let text = text(alloc, *place)?;
        writer.put_u32(u32::try_from(text.as_slice().len()).unwrap_or(0))?;
        writer.put_raw(text.as_slice())?;
    }
    Ok(writer.into_text())
}

fn expect_order(
    rt: &impl Abort,
    alloc: Global,
    places: &[u8],
    place: u64,
) -> Result<(), AllocError> {
    let bytes = recording_with(alloc, places)?;
    let refusal = Proof::read(alloc, bytes.as_slice()).err();
    assert_eq!(rt; refusal, Some(ProofError::Order { place }));
    Ok(())
}

#[test]
fn doubled_and_moved_texts_are_told(rt: HostRuntime) -> Result<(), Fail> {
    let alloc = rt.alloc();
    expect_order(&rt, alloc, &[0, 0, 1, 2, 3], 1)?;
    expect_order(&rt, alloc, &[0, 1, 1, 2, 3], 2)?;
    expect_order(&rt, alloc, &[0, 1, 2, 2, 3], 3)?;
    expect_order(&rt, alloc, &[0, 1, 2, 3, 3], 4)?;
    expect_order(&rt, alloc, &[1, 0, 2, 3], 1)?;
    expect_order(&rt, alloc, &[0, 2, 1, 3], 2)?;
    expect_order(&rt, alloc, &[0, 1, 3, 2], 3)?;
    Ok(())
}

/// Why bytes that are read as a recording are not replayed, or else why they are not read.
fn refusal(alloc: Global, bytes: &[u8]) -> Result<ReplayError, Option<ProofError>> {
    match Proof::read(alloc, bytes) {
        Ok(mut proof) => replay(alloc, &mut proof).err().ok_or(None),
        Err(error) => Err(Some(error)),
    }
}

fn expect_spare(rt: &impl Abort, alloc: Global, bytes: &[u8]) {
    match refusal(alloc, bytes) {
        Ok(ReplayError::Spare { place }) => assert_eq!(rt; place, 0),
        _ => assert!(rt; false, "nothing is spare"),
    }
}

fn expect_missed(rt: &impl Abort, alloc: Global, bytes: &[u8], text: &[u8]) {
    match refusal(alloc, bytes) {
        Ok(ReplayError::Missing { digest: named }) => assert_eq!(rt; named, digest(text)),
        _ => assert!(rt; false, "nothing is missed"),
    }
}

#[test]
fn a_text_of_another_state_is_told(rt: HostRuntime) -> Result<(), Fail> {
    let alloc = rt.alloc();
    let bytes = recording_with(alloc, &[4, 0, 1, 2, 3])?;
    expect_spare(&rt, alloc, bytes.as_slice());
    Ok(())
}

/// The recording with one byte changed.
fn changed(alloc: Global, place: usize) -> Result<Vec<u8>, AllocError> {
    let mut bytes = recording_with(alloc, &[0, 1, 2, 3])?.into_bytes();
    if place < bytes.len() {
        bytes[place] = bytes[place].wrapping_add(1);
    }
    Ok(bytes)
}

fn expect_each_missed(
    rt: &impl Abort,
    alloc: Global,
    from: usize,
    to: usize,
    text: &[u8],
) -> Result<(), AllocError> {
    for place in from..to {
        expect_missed(rt, alloc, changed(alloc, place)?.as_slice(), text);
    }
    Ok(())
}

#[test]
fn each_changed_byte_of_a_text_is_seen(rt: HostRuntime) -> Result<(), Fail> {
    let alloc = rt.alloc();
    expect_each_missed(&rt, alloc, 65, 105, leaf_b(alloc)?.as_slice())?;
    expect_each_missed(&rt, alloc, 109, 159, leaf_a(alloc)?.as_slice())?;
    expect_each_missed(&rt, alloc, 163, 238, branch(alloc)?.as_slice())?;
    expect_each_missed(&rt, alloc, 242, 288, extension(alloc)?.as_slice())?;
    Ok(())
}

fn expect_root_missed(rt: &impl Abort, alloc: Global, bytes: &[u8]) {
    let Ok(mut proof) = Proof::read(alloc, bytes) else {
        assert!(rt; false, "not read");
        return;
    };
    let root = proof.root;
    match replay(alloc, &mut proof) {
        Err(ReplayError::Missing { digest: named }) => assert_eq!(rt; named, root),
        _ => assert!(rt; false, "the root is not missed"),
    }
}

#[test]
fn each_changed_byte_of_the_root_and_the_key_is_seen(rt: HostRuntime) -> Result<(), Fail> {
    let alloc = rt.alloc();
    for place in 0..32 {
        expect_root_missed(&rt, alloc, changed(alloc, place)?.as_slice());
    }
    expect_spare(&rt, alloc, changed(alloc, 44)?.as_slice());
    Ok(())
}

fn expect_each(
    rt: &impl Abort,
    alloc: Global,
    from: usize,
    to: usize,
    expected: ProofError,
) -> Result<(), AllocError> {
    for place in from..to {
        let refusal = refusal(alloc, changed(alloc, place)?.as_slice()).err();
        assert_eq!(rt; refusal, Some(Some(expected)), "byte {place}");
    }
    Ok(())
}

fn short(at: u64) -> ProofError {
    ProofError::Frame(BorshError::Short { at })
}

fn ordinal(at: u64) -> ProofError {
    ProofError::Frame(BorshError::Ordinal { at })
}

#[test]
fn each_changed_byte_before_the_texts_is_seen(rt: HostRuntime) -> Result<(), Fail> {
    let alloc = rt.alloc();
    expect_each(&rt, alloc, 32, 33, ProofError::Head { at: 41 })?;
    expect_each(&rt, alloc, 33, 35, short(45))?;
    expect_each(&rt, alloc, 35, 36, ProofError::Head { at: 32 })?;
    expect_each(&rt, alloc, 36, 39, short(50))?;
    expect_each(&rt, alloc, 39, 40, ProofError::Head { at: 36 })?;
    expect_each(&rt, alloc, 40, 41, ordinal(47))?;
    expect_each(&rt, alloc, 41, 44, short(44))?;
    expect_each(&rt, alloc, 45, 46, short(50))?;
    expect_each(&rt, alloc, 46, 47, ordinal(46))?;
    expect_each(&rt, alloc, 47, 51, short(288))?;
    Ok(())
}

#[test]
fn each_changed_byte_between_the_texts_is_seen(rt: HostRuntime) -> Result<(), Fail> {
    let alloc = rt.alloc();
    expect_each(&rt, alloc, 51, 52, ProofError::Order { place: 1 })?;
    expect_each(&rt, alloc, 52, 55, short(55))?;
    expect_each(&rt, alloc, 55, 65, ProofError::Order { place: 1 })?;
    expect_each(&rt, alloc, 105, 106, short(164))?;
    expect_each(&rt, alloc, 106, 109, short(109))?;
    expect_each(&rt, alloc, 159, 160, short(243))?;
    expect_each(&rt, alloc, 160, 163, short(163))?;
    expect_each(&rt, alloc, 238, 242, short(242))?;
    Ok(())
}
