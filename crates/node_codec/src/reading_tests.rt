use super::*;
use base_core::{BorshError, Digest, Text, Writer};
use nibble_keys::{PackError, Packed};
use std::alloc::{AllocError, Global};
use std::process::Abort;
use std::test::Fail;

/// The SHA-256 of no bytes.
const NOTHING: Digest = Digest([
    0xe3, 0xb0, 0xc4, 0x42, 0x98, 0xfc, 0x1c, 0x14, 0x9a, 0xfb, 0xf4, 0xc8, 0x99, 0x6f, 0xb9, 0x24,
    0x27, 0xae, 0x41, 0xe4, 0x64, 0x9b, 0x93, 0x4c, 0xa4, 0x95, 0x99, 0x1b, 0x78, 0x52, 0xb8, 0x55,
]);

/// The SHA-256 of `hi`.
const HI: Digest = Digest([
    0x8f, 0x43, 0x43, 0x46, 0x64, 0x8f, 0x6b, 0x96, 0xdf, 0x89, 0xdd, 0xa9, 0x01, 0xc5, 0x17, 0x6b,
    0x10, 0xa6, 0xd8, 0x39, 0x61, 0xdd, 0x3c, 0x1a, 0xc8, 0x8b, 0x59, 0xb2, 0xdc, 0x32, 0x7a, 0xa4,
]);

/// The SHA-256 of `a`.
const A: Digest = Digest([
    0xca, 0x97, 0x81, 0x12, 0xca, 0x1b, 0xbd, 0xca, 0xfa, 0xc2, 0x31, 0xb3, 0x9a, 0x23, 0xdc, 0x4d,
    0xa7, 0x86, 0xef, 0xf8, 0x14, 0x7c, 0x4e, 0x72, 0xb9, 0x80, 0x77, 0x85, 0xaf, 0xee, 0x48, 0xbb,
]);

/// The leaves of the keys `a` and `b`, each with itself as its value, and their branch.
const FIRST: Digest = Digest([
    0xfe, 0x06, 0xfd, 0xd0, 0x2a, 0xc1, 0x35, 0xf8, 0x86, 0x9c, 0xb2, 0x59, 0x08, 0xb9, 0x5a, 0x46,
    0x5c, 0xaf, 0xe0, 0x90, 0x59, 0x5f, 0x00, 0xd9, 0x42, 0xf9, 0xdf, 0x2d, 0xdc, 0x10, 0x42, 0xe4,
]);

const SECOND: Digest = Digest([
    0x93, 0x88, 0xc9, 0x35, 0x2a, 0xf4, 0x89, 0x7c, 0x79, 0x4d, 0x82, 0x5e, 0x23, 0x57, 0xe4, 0x8f,
    0x8b, 0x6f, 0xae, 0x56, 0x88, 0x82, 0xe5, 0x18, 0x46, 0x4b, 0x9e, 0xed, 0x2d, 0x69, 0x8d, 0x5f,
]);

const BOTH: Digest = Digest([
    0x4b, 0xfc, 0x93, 0xa2, 0xa8, 0xa1, 0xdc, 0x2a, 0x26, 0xa6, 0x73, 0xdd, 0x18, 0xf2, 0x02, 0xd1,
    0x86, 0xdd, 0xd5, 0x56, 0xfd, 0x27, 0x45, 0x51, 0xf2, 0x76, 0x8c, 0x63, 0xea, 0xe8, 0xb3, 0xd3,
]);

/// The leaf of the key `ab` below that of `a`.
const LAST: Digest = Digest([
    0x80, 0x45, 0xd9, 0x37, 0x8b, 0x51, 0xee, 0x0c, 0x18, 0x99, 0x13, 0x5a, 0x9e, 0x0a, 0x1f, 0xc4,
    0x15, 0xa9, 0x4c, 0x1a, 0x2b, 0x9f, 0xd7, 0x86, 0xcd, 0xbf, 0x60, 0x80, 0xcd, 0x53, 0x8b, 0xbf,
]);

/// A usage of 256.
const USAGE: &[u8] = b"\0\x01\0\0\0\0\0\0";

/// The parts of some bytes, one behind the other.
fn joined(alloc: Global, parts: &[&[u8]]) -> Result<Text, AllocError> {
    let mut writer = Writer::new(alloc);
    for part in parts {
        writer.put_raw(part)?;
    }
    Ok(writer.into_text())
}

fn expect_path(rt: &impl Abort, path: &Packed<'_>, nibbles: &[u8]) {
    assert!(rt; path.len() == nibbles.len() as u64);
    for (i, nibble) in nibbles.iter().enumerate() {
        assert!(rt; (i as u64) < path.len());
        assert!(rt; path.at(i as u64) == *nibble);
    }
}

fn expect_leaf(
    rt: &impl Abort,
    alloc: Global,
    parts: &[&[u8]],
    nibbles: &[u8],
    value: ValueRef,
    usage: u64,
) -> Result<(), Fail> {
    let record = joined(alloc, parts)?;
    let (node, stated) = read_node(record.as_slice()).expect(rt, "a record");
    assert!(rt; stated == usage);
    match node {
        NodeView::Leaf { path, value: named } => {
            expect_path(rt, &path, nibbles);
            assert!(rt; named == value);
        }
        _ => panic!(rt; "a leaf"),
    }
    Ok(())
}

#[test]
fn leaves_that_are_read(rt: HostRuntime) -> Result<(), Fail> {
    let alloc = rt.alloc();
    let hi: [&[u8]; 3] = [
        b"\x00\x02\0\0\0\x20\x61\x02\0\0\0",
        &HI.0,
        b"\x6a\0\0\0\0\0\0\0",
    ];
    let value = ValueRef {
        length: 2,
        digest: HI,
    };
    expect_leaf(&rt, alloc, &hi, &[6, 1], value, 106)?;
    let nothing: [&[u8]; 3] = [
        b"\x00\x01\0\0\0\x20\0\0\0\0",
        &NOTHING.0,
        b"\x66\0\0\0\0\0\0\0",
    ];
    let value = ValueRef {
        length: 0,
        digest: NOTHING,
    };
    expect_leaf(&rt, alloc, &nothing, &[], value, 102)
}

/// The same child, or none, at each nibble.
fn expect_children(rt: &impl Abort, kids: &KidsView<'_>, want: &Kids) {
    assert!(rt; kids.count() == want.count());
    for i in 0..16 {
        assert!(rt; kids.get(i) == want.get(i));
    }
}

fn expect_branch(rt: &impl Abort, record: &Text, value: Option<ValueRef>, want: &Kids, usage: u64) {
    let (node, stated) = read_node(record.as_slice()).expect(rt, "a record");
    assert!(rt; stated == usage);
    match node {
        NodeView::Branch { value: named, kids } => {
            assert!(rt; named == value);
            expect_children(rt, &kids, want);
        }
        _ => panic!(rt; "no branch"),
    }
}

/// The branch of the keys `a` and `b`, and that of `a` and `ab`.
#[test]
fn branches_that_are_read(rt: HostRuntime) -> Result<(), Fail> {
    let alloc = rt.alloc();
    let two = joined(alloc, &[b"\x01\x06\0", &FIRST.0, &SECOND.0, USAGE])?;
    let mut kids = Kids::NONE;
    kids.set(1, Some(FIRST));
    kids.set(2, Some(SECOND));
    expect_branch(&rt, &two, None, &kids, 256);

    let one = joined(
        alloc,
        &[
            b"\x02\x01\0\0\0",
            &A.0,
            b"\x40\0",
            &LAST.0,
            b"\xcc\0\0\0\0\0\0\0",
        ],
    )?;
    let mut kids = Kids::NONE;
    kids.set(6, Some(LAST));
    let value = ValueRef {
        length: 1,
        digest: A,
    };
    expect_branch(&rt, &one, Some(value), &kids, 204);
    Ok(())
}

#[test]
fn an_extension_that_is_read(rt: HostRuntime) -> Result<(), Fail> {
    let record = joined(
        rt.alloc(),
        &[b"\x03\x01\0\0\0\x16", &BOTH.0, b"\x34\x01\0\0\0\0\0\0"],
    )?;
    let (node, usage) = read_node(record.as_slice()).expect(&rt, "a record");
    assert_eq!(rt; usage, 308);
    match node {
        NodeView::Extension { path, child } => {
            expect_path(&rt, &path, &[6]);
            assert_eq!(rt; child, BOTH);
        }
        _ => panic!(&rt; "no extension"),
    }
    Ok(())
}

/// Cut anywhere, a record is refused at the field that is not whole. The offsets are those at which
/// its fields begin.
fn expect_cuts(
    rt: &impl Abort,
    alloc: Global,
    parts: &[&[u8]],
    offsets: &[u64],
) -> Result<(), Fail> {
    let record = joined(alloc, parts)?;
    let bytes = record.as_slice();
    let mut at = 0;
    for length in 0..bytes.len() {
        if offsets.contains(&(length as u64)) {
            at = length as u64;
        }
        let (prefix, _) = bytes.split_at(length);
        let error = NodeError::Frame(BorshError::Short { at });
        assert!(rt; read_node(prefix).err() == Some(error), "{length}");
    }
    Ok(())
}

#[test]
fn records_cut_short(rt: HostRuntime) -> Result<(), Fail> {
    let alloc = rt.alloc();
    let leaf: [&[u8]; 3] = [b"\0\x01\0\0\0\x20\0\0\0\0", &NOTHING.0, USAGE];
    expect_cuts(&rt, alloc, &leaf, &[1, 5, 6, 10, 42])?;
    let branch: [&[u8]; 4] = [b"\x01\x06\0", &FIRST.0, &SECOND.0, USAGE];
    expect_cuts(&rt, alloc, &branch, &[1, 3, 35, 67])?;
    let branch: [&[u8]; 5] = [b"\x02\x01\0\0\0", &A.0, b"\x40\0", &LAST.0, USAGE];
    expect_cuts(&rt, alloc, &branch, &[1, 5, 37, 39, 71])?;
    let extension: [&[u8]; 3] = [b"\x03\x01\0\0\0\x16", &BOTH.0, USAGE];
    expect_cuts(&rt, alloc, &extension, &[1, 5, 6, 38])
}

fn expect_refused(
    rt: &impl Abort,
    alloc: Global,
    parts: &[&[u8]],
    error: NodeError,
) -> Result<(), Fail> {
    let record = joined(alloc, parts)?;
    assert!(rt;
        read_node(record.as_slice()).err() == Some(error),
        "{error:?}"
    );
    Ok(())
}

/// The leaf of the empty key with another byte, one byte more, or another path.
#[test]
fn leaves_that_are_refused(rt: HostRuntime) -> Result<(), Fail> {
    let leaves: [(&[u8], &[u8], NodeError); 6] = [
        (
            b"\x04\x01\0\0\0\x20",
            b"",
            NodeError::Frame(BorshError::Ordinal { at: 0 }),
        ),
        (
            b"\0\x01\0\0\0\x20",
            b"\0",
            NodeError::Frame(BorshError::Rest { at: 50 }),
        ),
        (b"\0\0\0\0\0", b"", NodeError::Path(PackError::Empty)),
        (b"\0\x01\0\0\0\x60", b"", NodeError::Path(PackError::Flag)),
        (b"\0\x01\0\0\0\x21", b"", NodeError::Path(PackError::Pad)),
        (b"\0\x01\0\0\0\x00", b"", NodeError::Path(PackError::Flag)),
    ];
    for (path, back, error) in leaves {
        let parts: [&[u8]; 5] = [path, b"\0\0\0\0", &NOTHING.0, USAGE, back];
        expect_refused(&rt, rt.alloc(), &parts, error)?;
    }
    Ok(())
}

/// A leaf flag on an extension, more bits than digests, and nodes of no good shape.
#[test]
fn nodes_that_are_refused(rt: HostRuntime) -> Result<(), Fail> {
    let nodes: [(&[&[u8]], NodeError); 6] = [
        (
            &[b"\x03\x01\0\0\0\x36", &BOTH.0, USAGE],
            NodeError::Path(PackError::Flag),
        ),
        (
            &[b"\x01\x0e\0", &FIRST.0, &SECOND.0, USAGE],
            NodeError::Frame(BorshError::Short { at: 67 }),
        ),
        (&[b"\x03\x01\0\0\0\0", &BOTH.0, USAGE], NodeError::Shape),
        (&[b"\x01\x02\0", &FIRST.0, USAGE], NodeError::Shape),
        (&[b"\x02\x01\0\0\0", &A.0, b"\0\0", USAGE], NodeError::Shape),
        (
            &[b"\0\x01\0\0\0\x20\x01\0\x40\0", &A.0, USAGE],
            NodeError::Shape,
        ),
    ];
    for (parts, error) in nodes {
        expect_refused(&rt, rt.alloc(), parts, error)?;
    }
    Ok(())
}

/// A branch with all sixteen children, each named by sixteen times its nibble.
#[test]
fn a_written_record_is_read(rt: HostRuntime) -> Result<(), Fail> {
    let alloc = rt.alloc();
    let mut kids = Kids::NONE;
    for i in 0..16 {
        kids.set(i, Some(Digest([16 * i; 32])));
    }
    let value = ValueRef {
        length: 1,
        digest: A,
    };
    let record = write_branch(alloc, &Some(value), &kids, u64::MAX)?;
    expect_branch(&rt, &record, Some(value), &kids, u64::MAX);
    Ok(())
}
