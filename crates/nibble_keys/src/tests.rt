use super::*;
use base_core::Text;
use std::process::Abort;
use std::test::Fail;

#[test]
fn nibbles_of_keys(rt: HostRuntime) {
    let key = Nibbles::new(&[0x12, 0x34, 0x56]);
    assert_eq!(rt; key.len(), 6);
    assert_eq!(rt; (key.at(0), key.at(5)), (1, 6));
    assert_eq!(rt; key.rest(2).len(), 4);
}

/// How many nibbles two keys begin with together, past so many of each.
fn expect_common(rt: &impl Abort, key: &[u8], from: u64, other: &[u8], past: u64, common: u64) {
    let (key, other) = (Nibbles::new(key), Nibbles::new(other));
    if from <= key.len() && past <= other.len() {
        assert_eq!(rt; key.rest(from).common(&other.rest(past)), common);
    }
}

#[test]
fn nibbles_in_common(rt: HostRuntime) {
    expect_common(&rt, &[0x12, 0x34, 0x56], 0, &[0x12, 0x35], 0, 3);
    expect_common(&rt, &[0x12, 0x34, 0x56], 1, &[0x12, 0x35], 1, 2);
    expect_common(&rt, &[0x12, 0x34, 0x56], 1, &[0x23, 0x45, 0x60], 0, 5);
}

#[test]
fn packed_paths(rt: HostRuntime) -> Result<(), Fail> {
    let table: [(Text, &[u8]); 6] = [
        (pack(rt.alloc(), &[], true)?, &[0x20]),
        (pack(rt.alloc(), &[6, 1], true)?, &[0x20, 0x61]),
        (pack(rt.alloc(), &[11], true)?, &[0x3b]),
        (pack(rt.alloc(), &[6], false)?, &[0x16]),
        (pack(rt.alloc(), &[6, 1], false)?, &[0x00, 0x61]),
        (pack(rt.alloc(), &[1, 2, 3], false)?, &[0x11, 0x23]),
    ];
    for (packed, want) in table {
        assert_eq!(rt; packed.as_slice(), want);
    }
    assert_eq!(rt; packed_len(3), 2);
    Ok(())
}

/// The nibbles that are read of some bytes, and whether they end at a leaf.
fn expect_path(rt: &impl Abort, bytes: &[u8], nibbles: &[u8], leaf: bool) {
    let (path, ends) = Packed::read(bytes).expect(rt, "a packed path");
    assert_eq!(rt; ends, leaf);
    assert_eq!(rt; path.len(), nibbles.len() as u64);
    assert_eq!(rt; path.nibbles().len(), path.len());
    for (i, nibble) in nibbles.iter().enumerate() {
        assert!(rt; (i as u64) < path.len());
        assert_eq!(rt; path.at(i as u64), *nibble);
    }
}

#[test]
fn paths_that_are_read(rt: HostRuntime) {
    expect_path(&rt, &[0x20], &[], true);
    expect_path(&rt, &[0x20, 0x61], &[6, 1], true);
    expect_path(&rt, &[0x3b], &[11], true);
    expect_path(&rt, &[0x00], &[], false);
    expect_path(&rt, &[0x16], &[6], false);
    expect_path(&rt, &[0x11, 0x23], &[1, 2, 3], false);
}

#[test]
fn paths_that_are_refused(rt: HostRuntime) {
    let table: [(&[u8], PackError); 5] = [
        (&[], PackError::Empty),
        (&[0x60, 0x61], PackError::Flag),
        (&[0x81], PackError::Flag),
        (&[0x21], PackError::Pad),
        (&[0x0f, 0x61], PackError::Pad),
    ];
    for (bytes, error) in table {
        assert_eq!(rt; Packed::read(bytes).err(), Some(error));
    }
}
