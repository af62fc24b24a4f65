use super::*;
use base_core::{BorshError, Reader, digest};
use std::alloc::{AllocError, Global};
use std::process::Abort;
use std::test::Fail;

/// The texts `a` and `ab`.
const TWO: [u8; 16] = [0, 2, 0, 0, 0, 1, 0, 0, 0, b'a', 2, 0, 0, 0, b'a', b'b'];

/// Why some bytes are no partial state.
fn refusal(alloc: Global, bytes: &[u8]) -> Option<PartialError> {
    PartialTexts::read(alloc, bytes).err()
}

fn short(at: u64) -> Option<PartialError> {
    Some(PartialError::Frame(BorshError::Short { at }))
}

/// A set is written as these bytes.
fn expect_written(rt: &impl Abort, alloc: Global, set: &TextSet, want: &[u8]) -> Result<(), Fail> {
    assert_eq!(rt; write_partial(alloc, set)?.as_slice(), want);
    Ok(())
}

#[test]
fn a_set_is_written(rt: HostRuntime) -> Result<(), Fail> {
    let alloc = rt.alloc();
    let mut set = TextSet::new(alloc);
    expect_written(&rt, alloc, &set, &[0; 5])?;
    for text in [b"ab".as_slice(), b"a", b"ab"] {
        set.put(text)?;
    }
    expect_written(&rt, alloc, &set, &TWO)
}

/// The texts `a` and `ab`, as they are read.
fn two(alloc: Global) -> Result<PartialTexts, Fail> {
    Ok(PartialTexts::read(alloc, &TWO).ok().ok_or("refused")?)
}

#[test]
fn loads_are_marked(rt: HostRuntime) -> Result<(), Fail> {
    let mut texts = two(rt.alloc())?;
    assert!(rt; texts.len() == 2);
    let rows: [(&[u8], Option<&[u8]>, Option<u64>); 3] = [
        (b"b", None, Some(0)),
        (b"a", Some(b"a"), Some(1)),
        (b"ab", Some(b"ab"), None),
    ];
    assert!(rt; texts.unused() == Some(0));
    for (text, loaded, unused) in rows {
        assert!(rt; texts.load(&digest(text)) == Ok(loaded));
        assert!(rt; texts.unused() == unused);
    }
    assert!(rt; texts.loads() == 3);
    Ok(())
}

/// The text at a place.
fn expect_at(rt: &impl Abort, texts: &PartialTexts, place: u64, want: &[u8]) {
    assert!(rt; place < texts.len());
    assert_eq!(rt; texts.at(place), want);
}

#[test]
fn places_are_those_of_the_bytes(rt: HostRuntime) -> Result<(), Fail> {
    let texts = two(rt.alloc())?;
    assert!(rt; texts.len() == 2);
    expect_at(&rt, &texts, 0, b"a");
    expect_at(&rt, &texts, 1, b"ab");
    Ok(())
}

#[test]
fn the_rest_is_left(rt: HostRuntime) -> Result<(), Fail> {
    let alloc = rt.alloc();
    let mut reader = Reader::new(&[0, 1, 0, 0, 0, 1, 0, 0, 0, 7, 8, 9]);
    let texts = PartialTexts::read_from(alloc, &mut reader)
        .ok()
        .ok_or("refused")?;
    assert_eq!(rt; texts.len(), 1);
    assert_eq!(rt; reader.place(), 10);
    assert_eq!(rt; reader.left(), 2);
    Ok(())
}

fn expect_cut(rt: &impl Abort, alloc: Global, length: usize, at: u64) {
    if length <= TWO.len() {
        assert_eq!(rt; refusal(alloc, &TWO[..length]), short(at), "{length} bytes");
    }
}

#[test]
fn each_cut_is_refused(rt: HostRuntime) {
    let alloc = rt.alloc();
    let places = [0, 1, 1, 1, 1, 5, 5, 5, 5, 9, 10, 10, 10, 10, 14, 14];
    for (length, at) in places.iter().enumerate() {
        expect_cut(&rt, alloc, length, *at);
    }
}

fn expect_changed(rt: &impl Abort, alloc: Global, place: usize, expected: Option<PartialError>) {
    let mut bytes = TWO;
    if place < bytes.len() {
        bytes[place] += 1;
        assert_eq!(rt; refusal(alloc, &bytes), expected, "byte {place}");
    }
}

#[test]
fn each_changed_byte_is_seen(rt: HostRuntime) {
    let alloc = rt.alloc();
    let ordinal = Some(PartialError::Frame(BorshError::Ordinal { at: 0 }));
    let order = Some(PartialError::Order { place: 1 });
    let expected = [
        ordinal,
        short(16),
        short(16),
        short(16),
        short(16),
        short(15),
        short(9),
        short(9),
        short(9),
        order,
        short(14),
        short(14),
        short(14),
        short(14),
        None,
        None,
    ];
    for (place, expected) in expected.iter().enumerate() {
        expect_changed(&rt, alloc, place, *expected);
    }
}

#[test]
fn claims_take_no_room(rt: HostRuntime) {
    let alloc = rt.alloc();
    let many = [0, 0xff, 0xff, 0xff, 0xff, 0, 0, 0, 0, 0];
    assert_eq!(rt; refusal(alloc, &many), short(9));
    let long = [0, 1, 0, 0, 0, 0xff, 0xff, 0xff, 0xff, 0];
    assert_eq!(rt; refusal(alloc, &long), short(9));
    let more = [0, 0, 0, 0, 0, 0];
    assert_eq!(rt;
        refusal(alloc, &more),
        Some(PartialError::Frame(BorshError::Rest { at: 5 }))
    );
    let twice = [0, 2, 0, 0, 0, 0, 0, 0, 0, 0, 0, 0, 0];
    assert_eq!(rt;
        refusal(alloc, &twice),
        Some(PartialError::Order { place: 1 })
    );
}

/// The texts of a set as a partial state, unless they clash, which reading them tells.
fn taken_over(alloc: Global, set: TextSet) -> Result<Option<PartialTexts>, AllocError> {
    let bytes = write_partial(alloc, &set)?;
    match PartialTexts::read(alloc, bytes.as_slice()) {
        Ok(texts) if texts.len() > 0 => Ok(Some(PartialTexts::of_set(alloc, set)?)),
        _ => Ok(None),
    }
}

#[test]
fn a_set_is_taken_over(rt: HostRuntime) -> Result<(), Fail> {
    let alloc = rt.alloc();
    let mut set = TextSet::new(alloc);
    set.put(b"ab")?;
    set.put(b"a")?;
    let texts = taken_over(alloc, set)?.ok_or("refused")?;
    assert!(rt; texts.len() == 2);
    expect_at(&rt, &texts, 0, b"a");
    assert!(rt; texts.unused() == Some(0));
    Ok(())
}
