use super::*;
use std::alloc::{AllocError, Global};
use std::process::Abort;
use std::test::Fail;

fn put(pairs: &mut Pairs, alloc: Global, key: &[u8], value: &[u8]) -> Result<u8, AllocError> {
    answer(pairs.put(Text::copy(alloc, key)?, Text::copy(alloc, value)?))
}

fn change(
    changes: &mut Changes,
    alloc: Global,
    key: &[u8],
    value: Option<&[u8]>,
) -> Result<u8, AllocError> {
    let key = Text::copy(alloc, key)?;
    match value {
        Some(value) => answer(changes.put(key, Text::copy(alloc, value)?)),
        None => answer(changes.remove(key)),
    }
}

fn answer(put: Result<(), PutError>) -> Result<u8, AllocError> {
    match put {
        Ok(()) => Ok(0),
        Err(PutError::KeyLong { .. }) => Ok(1),
        Err(PutError::ValueLong { .. }) => Ok(2),
        Err(PutError::Full) => Ok(3),
        Err(PutError::NoMemory) => Err(AllocError),
    }
}

/// So many bytes, each of them 7.
fn sevens(alloc: Global, count: usize) -> Result<Vec<u8>, AllocError> {
    vec![in alloc; 7; count]
}

/// Puts each key with its value, and compares the answer, as a number.
fn expect_puts(
    rt: &impl Abort,
    alloc: Global,
    pairs: &mut Pairs,
    puts: &[(&[u8], &[u8], u8)],
) -> Result<(), Fail> {
    for (key, value, expected) in puts {
        assert!(rt; put(pairs, alloc, key, value)? == *expected, "{key:?}");
    }
    Ok(())
}

/// A key that is too long, and the longest one where no more are taken.
fn expect_long_keys(rt: &impl Abort, alloc: Global, pairs: &mut Pairs) -> Result<(), Fail> {
    for (count, expected) in [(2115, 1), (2114, 3)] {
        let key = sevens(alloc, count)?;
        assert!(rt;
            put(pairs, alloc, key.as_slice(), b"")? == expected,
            "{count}"
        );
    }
    Ok(())
}

fn expect_pairs(rt: &impl Abort, alloc: Global, pairs: &Pairs) -> Result<(), Fail> {
    let rows: [(&[u8], &[u8]); 3] = [(b"", b"2"), (b"b", b"4"), (b"b\0", b"")];
    assert!(rt; pairs.rows(alloc)?.as_slice() == rows.as_slice());
    assert!(rt; pairs.get(b"b") == Some(b"4".as_slice()));
    assert!(rt; pairs.get(b"c").is_none());
    assert!(rt; pairs.len() == 3);
    assert!(rt; pairs.at(2) == rows[2]);
    Ok(())
}

#[test]
fn pairs_in_order(rt: HostRuntime) -> Result<(), Fail> {
    let alloc = rt.alloc();
    let mut pairs = Pairs::new(alloc, 3);
    assert!(rt; pairs.len() == 0);
    let puts: [(&[u8], &[u8], u8); 5] = [
        (b"b", b"1", 0),
        (b"", b"2", 0),
        (b"b\0", b"", 0),
        (b"c", b"3", 3),
        (b"b", b"4", 0),
    ];
    expect_puts(&rt, alloc, &mut pairs, &puts)?;
    expect_long_keys(&rt, alloc, &mut pairs)?;
    expect_pairs(&rt, alloc, &pairs)
}

/// Puts each key with what it becomes, and compares the answer, as a number.
fn expect_changes(
    rt: &impl Abort,
    alloc: Global,
    changes: &mut Changes,
    calls: &[(&[u8], Option<&[u8]>, u8)],
) -> Result<(), Fail> {
    for (key, value, expected) in calls {
        assert!(rt;
            change(changes, alloc, key, *value)? == *expected,
            "{key:?}"
        );
    }
    Ok(())
}

/// A key that is too long, and the longest one where no more are taken.
fn expect_long_removals(rt: &impl Abort, alloc: Global, changes: &mut Changes) -> Result<(), Fail> {
    for (count, expected) in [(2115, 1), (2114, 3)] {
        let key = sevens(alloc, count)?;
        assert!(rt;
            change(changes, alloc, key.as_slice(), None)? == expected,
            "{count}"
        );
    }
    Ok(())
}

fn expect_changed(rt: &impl Abort, alloc: Global, changes: &Changes) -> Result<(), Fail> {
    let rows: [(&[u8], Option<&[u8]>); 3] = [(b"", Some(b"4")), (b"b", None), (b"b\0", Some(b""))];
    assert!(rt; changes.rows(alloc)?.as_slice() == rows.as_slice());
    assert!(rt; changes.len() == 3);
    assert!(rt; changes.at(1) == rows[1]);
    Ok(())
}

#[test]
fn changes_in_order(rt: HostRuntime) -> Result<(), Fail> {
    let alloc = rt.alloc();
    let mut changes = Changes::new(alloc, 3);
    assert!(rt; changes.len() == 0);
    let calls: [(&[u8], Option<&[u8]>, u8); 7] = [
        (b"b", Some(b"1"), 0),
        (b"", None, 0),
        (b"b\0", Some(b""), 0),
        (b"c", Some(b"3"), 3),
        (b"c", None, 3),
        (b"b", None, 0),
        (b"", Some(b"4"), 0),
    ];
    expect_changes(&rt, alloc, &mut changes, &calls)?;
    expect_long_removals(&rt, alloc, &mut changes)?;
    expect_changed(&rt, alloc, &changes)
}

/// A field of each kind.
fn write_fields(writer: &mut Writer) -> Result<(), AllocError> {
    writer.put_u8(7)?;
    writer.put_u16(308)?;
    writer.put_u32(0x12345678)?;
    writer.put_u64(308)?;
    writer.put_raw(&[9; DIGEST_BYTES])?;
    writer.put_bytes(b"\xab\xcd")?;
    writer.put_bytes(b"")?;
    writer.put_u8(5)
}

/// The bytes of these fields.
fn spell_fields(writer: &mut Writer) -> Result<(), AllocError> {
    writer.put_raw(b"\x07\x34\x01\x78\x56\x34\x12\x34\x01\0\0\0\0\0\0")?;
    writer.put_raw(&[9; DIGEST_BYTES])?;
    writer.put_raw(b"\x02\0\0\0\xab\xcd\0\0\0\0\x05")
}

#[test]
fn fields_that_are_written(rt: HostRuntime) -> Result<(), Fail> {
    let mut written = Writer::with_capacity(rt.alloc(), 58)?;
    write_fields(&mut written)?;
    let mut spelled = Writer::new(rt.alloc());
    spell_fields(&mut spelled)?;
    assert_eq!(rt;
        written.into_text().as_slice(),
        spelled.into_text().as_slice()
    );
    Ok(())
}

fn expect_fields(rt: &impl Abort, reader: &mut Reader<'_>) {
    let numbers = (reader.u8(), reader.u16(), reader.u32(), reader.u64());
    assert_eq!(rt; numbers, (Ok(7), Ok(308), Ok(0x12345678), Ok(308)));
    assert_eq!(rt;
        (reader.place(), reader.digest()),
        (15, Ok(Digest([9; 32])))
    );
}

fn expect_bytes(rt: &impl Abort, read: Result<&[u8], BorshError>, bytes: &[u8]) {
    assert_eq!(rt; read, Ok(bytes));
}

fn expect_vectors(rt: &impl Abort, reader: &mut Reader<'_>) {
    expect_bytes(rt, reader.bytes(), b"\xab\xcd");
    expect_bytes(rt, reader.bytes(), b"");
    assert_eq!(rt; (reader.place(), reader.left()), (57, 1));
    assert_eq!(rt; reader.end(), Err(BorshError::Rest { at: 57 }));
    expect_bytes(rt, reader.take(1), b"\x05");
    assert_eq!(rt; reader.end(), Ok(()));
}

#[test]
fn fields_that_are_read(rt: HostRuntime) -> Result<(), Fail> {
    let mut writer = Writer::new(rt.alloc());
    spell_fields(&mut writer)?;
    let text = writer.into_text();
    let mut reader = Reader::new(text.as_slice());
    expect_fields(&rt, &mut reader);
    expect_vectors(&rt, &mut reader);
    Ok(())
}

fn short(at: u64) -> Option<BorshError> {
    Some(BorshError::Short { at })
}

/// A vector of three bytes, of which two are there. What is refused leaves the reader in its place.
#[test]
fn fields_past_the_end(rt: HostRuntime) {
    let mut reader = Reader::new(b"\x07\x03\0\0\0\x01\x02");
    expect_bytes(&rt, reader.take(1), b"\x07");
    let refused = [
        reader.u64().err(),
        reader.digest().err(),
        reader.take(7).err(),
        reader.bytes().err(),
    ];
    assert_eq!(rt; refused, [short(1), short(1), short(1), short(5)]);
    assert_eq!(rt; (reader.place(), reader.u32()), (1, Ok(3)));
}

/// Two bytes, where a number of four or a vector's length would stand.
#[test]
fn bytes_past_the_end(rt: HostRuntime) {
    let mut reader = Reader::new(b"\x01\x02");
    assert_eq!(rt;
        [reader.u32().err(), reader.bytes().err()],
        [short(0), short(0)]
    );
    expect_bytes(&rt, reader.take(2), b"\x01\x02");
    assert_eq!(rt;
        [reader.u16().err(), reader.u8().err()],
        [short(2), short(2)]
    );
    expect_bytes(&rt, reader.take(0), b"");
}

#[test]
fn limits_in_full(rt: HostRuntime) {
    let Limits {
        pairs,
        blocks,
        changes,
    } = Limits::FULL;
    assert_eq!(rt; (pairs, blocks, changes), (4_194_304, 4_096, 1_048_576));
    assert_eq!(rt; (LONGEST_KEY, LONGEST_VALUE), (2_114, 4_194_304));
}

#[test]
fn digests_as_bytes(rt: HostRuntime) {
    let low = Digest([1; DIGEST_BYTES]);
    let high = Digest::from_slice(&[200; DIGEST_BYTES]);
    assert!(rt; Digest::ZERO < low);
    assert!(rt; low < high);
    assert_eq!(rt; high, Digest([200; DIGEST_BYTES]));
    let mut digits = [0; 64];
    digest(b"abc").to_hex_into(&mut digits);
    assert_eq!(rt;
        &digits,
        b"ba7816bf8f01cfea414140de5dae2223b00361a396177a9cb410ff61f20015ad"
    );
}

#[test]
fn calls_fail_by_their_numbers(rt: HostRuntime) -> Result<(), Fail> {
    let mut failures = Failures::new(rt.alloc(), &[3, 1, 3])?;
    for fails in [true, false, true, false] {
        assert_eq!(rt; failures.call().is_err(), fails);
    }
    Ok(())
}
