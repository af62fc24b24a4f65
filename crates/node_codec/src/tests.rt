ghost use Rattle.std.specs.Prelude.{◌≡◌, ◌≢◌, ◌≤◌, [], length};
ghost use Rattle.byte_model.specs.Nibbles.{AreNibbles};
ghost use Rattle.byte_model.specs.PackedPath.{longest_path};
ghost use Rattle.byte_model.specs.Node.{longest_value};

use super::*;
use base_core::{Digest, Text, digest};
use std::alloc::{AllocError, Global};
use std::process::Abort;
use std::test::Fail;

fn value(bytes: &[u8]) -> ValueRef
    requires { length bytes.now ≤ longest_value }
    ensures { result.length ≡ length bytes.now }
{
    ValueRef {
        length: bytes.len() as u32,
        digest: digest(bytes),
    }
}

fn leaf(alloc: Global, path: &[u8], bytes: &[u8], usage: u64) -> Result<Text, AllocError>
    requires nibbles { AreNibbles path.now }
    requires short { length path.now ≤ longest_path }
    requires small { length bytes.now ≤ longest_value }
{
    let path = Text::copy(alloc, path)?;
    let node = Node::Leaf {
        path,
        value: value(bytes),
    };
    write_node(alloc, &node, usage)
}

fn extension(alloc: Global, path: &[u8], child: &Text, usage: u64) -> Result<Text, AllocError>
    requires nibbles { AreNibbles path.now }
    requires short { length path.now ≤ longest_path }
    requires some { path.now ≢ [] }
{
    let path = Text::copy(alloc, path)?;
    let node = Node::Extension {
        path,
        child: digest(child.as_slice()),
    };
    write_node(alloc, &node, usage)
}

fn branch(rt: &impl Abort, alloc: Global, kids: Kids, usage: u64) -> Result<Text, Fail> {
    assert!(rt; kids.count() >= 2);
    let kids = Box::new(alloc, kids)?;
    let node = Node::Branch { value: None, kids };
    Ok(write_node(alloc, &node, usage)?)
}

fn branch_with_value(
    rt: &impl Abort,
    alloc: Global,
    bytes: &[u8],
    kids: Kids,
    usage: u64,
) -> Result<Text, Fail>
    requires { length bytes.now ≤ longest_value }
{
    assert!(rt; kids.count() >= 1);
    let kids = Box::new(alloc, kids)?;
    let node = Node::Branch {
        value: Some(value(bytes)),
        kids,
    };
    Ok(write_node(alloc, &node, usage)?)
}

/// The digest of a leaf.
fn leaf_digest(alloc: Global, path: &[u8], bytes: &[u8]) -> Result<Digest, AllocError>
    requires nibbles { AreNibbles path.now }
    requires short { length path.now ≤ longest_path }
    requires small { length bytes.now ≤ longest_value }
{
    let record = leaf(alloc, path, bytes, 103)?;
    Ok(digest(record.as_slice()))
}

/// How a record begins, how long it is, and its SHA-256.
fn expect(rt: &impl Abort, record: &Text, start: &[u8], length: usize, name: &str) {
    let bytes = record.as_slice();
    assert!(rt; bytes.starts_with(start), "{name}");
    assert!(rt; bytes.len() == length, "{name}");
    let mut shown = [0; 64];
    digest(bytes).to_hex_into(&mut shown);
    assert_eq!(rt; shown.as_slice(), name.as_bytes());
}

/// The children 0 to 15 of the keys 00, 10 .. f0 with the values 00, 01 .. 0f.
fn sixteen(alloc: Global) -> Result<Kids, AllocError> {
    let mut kids = Kids::NONE;
    for i in 0..16 {
        kids.set(i, Some(leaf_digest(alloc, &[0], &[i])?));
    }
    Ok(kids)
}

#[test]
fn leaves(rt: HostRuntime) -> Result<(), Fail> {
    let even = leaf(rt.alloc(), &[6, 1], b"hi", 106)?;
    expect(
        &rt,
        &even,
        b"\x00\x02\x00\x00\x00\x20\x61\x02\x00\x00\x00",
        51,
        "c6d20f554d697a121ebc84350e46da9e3bb4e3c08d5f67204156fc6661069cc0",
    );
    let odd = leaf(rt.alloc(), &[2], b"b", 103)?;
    expect(
        &rt,
        &odd,
        b"\x00\x01\x00\x00\x00\x32\x01\x00\x00\x00",
        50,
        "8045d9378b51ee0c1899135a9e0a1fc415a94c1a2b9fd786cdbf6080cd538bbf",
    );
    Ok(())
}

#[test]
fn under_an_odd_extension(rt: HostRuntime) -> Result<(), Fail> {
    let mut kids = Kids::NONE;
    kids.set(1, Some(leaf_digest(rt.alloc(), &[], b"a")?));
    kids.set(2, Some(leaf_digest(rt.alloc(), &[], b"b")?));
    let two = branch(&rt, rt.alloc(), kids, 256)?;
    expect(
        &rt,
        &two,
        b"\x01\x06\x00",
        75,
        "4bfc93a2a8a1dc2a26a673dd18f202d186ddd556fd274551f2768c63eae8b3d3",
    );
    let root = extension(rt.alloc(), &[6], &two, 308)?;
    expect(
        &rt,
        &root,
        b"\x03\x01\x00\x00\x00\x16",
        46,
        "06481f83918f99a3be485a586d16b56c10a9d578353d60e887baa5f9c389262e",
    );
    Ok(())
}

#[test]
fn under_an_even_extension(rt: HostRuntime) -> Result<(), Fail> {
    let mut kids = Kids::NONE;
    kids.set(6, Some(leaf_digest(rt.alloc(), &[2], b"b")?));
    let one = branch_with_value(&rt, rt.alloc(), b"a", kids, 204)?;
    expect(
        &rt,
        &one,
        b"\x02\x01\x00\x00\x00",
        79,
        "c76f3edfcbee3c342ec5bb228cf8eda313a45bedcf18973a8b2e2d3ddc214622",
    );
    let root = extension(rt.alloc(), &[6, 1], &one, 258)?;
    expect(
        &rt,
        &root,
        b"\x03\x02\x00\x00\x00\x00\x61",
        47,
        "6e36cff03296388deeb24640de825a7358e4fc5165c2484c07240ba01b78f13e",
    );
    Ok(())
}

#[test]
fn many_children(rt: HostRuntime) -> Result<(), Fail> {
    let kids = sixteen(rt.alloc())?;
    let mut ends = Kids::NONE;
    ends.set(0, kids.get(0));
    ends.set(15, kids.get(15));
    let ends = branch(&rt, rt.alloc(), ends, 256)?;
    expect(
        &rt,
        &ends,
        b"\x01\x01\x80",
        75,
        "15c752ca55684ed8c53b80ce2caef79a59d594dc39dd2d3c2c1be63b54bf5e64",
    );
    let all = branch_with_value(&rt, rt.alloc(), b"top", kids, 1751)?;
    expect(
        &rt,
        &all,
        b"\x02\x03\x00\x00\x00",
        559,
        "158104ab58f145a0d50d53467fee3856c10cca4df559780a29d36900086151c8",
    );
    Ok(())
}
