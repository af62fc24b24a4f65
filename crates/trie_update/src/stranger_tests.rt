use super::*;
use crate::tests::{delete, keep};
use base_core::{Changes, Digest, Text, digest};
use node_codec::{Kids, ValueRef, write_branch, write_extension, write_leaf};
use std::alloc::{AllocError, Global};
use std::process::Abort;
use std::test::Fail;
use text_store::MemNodes;

/// The most that the record of a visited place may state.
const MOST: u64 = 4611686018427387904;

/// The leaves of the keys 61 and 62, the branch above them, and the extension above that.
#[derive(Clone, Copy, Debug, PartialEq, Eq)]
enum Place {
    First,
    Second,
    Branch,
    Root,
}

/// What a batch is refused for.
#[derive(Clone, Copy, Debug, PartialEq, Eq)]
enum Refused {
    Nothing,
    Missing(Digest),
    Bad(Digest),
    Usage(Digest),
    Fault,
    NoMemory,
}

/// The records of the four places.
#[derive(Drop)]
struct Records {
    first: Text,
    second: Text,
    branch: Text,
    root: Text,
}

fn leaf(alloc: Global, value: &[u8], usage: u64) -> Result<Text, AllocError> {
    let value = ValueRef {
        length: 1,
        digest: digest(value),
    };
    write_leaf(alloc, &[], &value, usage)
}

fn branch(alloc: Global, first: &Text, second: &Text, usage: u64) -> Result<Text, AllocError> {
    let mut kids = Kids::NONE;
    kids.set(1, Some(digest(first.as_slice())));
    kids.set(2, Some(digest(second.as_slice())));
    write_branch(alloc, &None, &kids, usage)
}

/// A record, without its last byte if it is to be cut.
fn cut(alloc: Global, record: Text, is_cut: bool) -> Result<Text, AllocError> {
    let size = record.as_slice().len();
    if !is_cut || size == 0 {
        return Ok(record);
    }
    Text::copy(alloc, &record.as_slice()[..size - 1])
}

impl Records {
    /// Records that state these usages. The one at a place is cut, and those above name what is left.
    fn new(alloc: Global, usages: [u64; 4], short: Option<Place>) -> Result<Records, AllocError> {
        let first = leaf(alloc, b"a", usages[0])?;
        let first = cut(alloc, first, short == Some(Place::First))?;
        let second = leaf(alloc, b"b", usages[1])?;
        let second = cut(alloc, second, short == Some(Place::Second))?;
        let branch = branch(alloc, &first, &second, usages[2])?;
        let branch = cut(alloc, branch, short == Some(Place::Branch))?;
        let root = write_extension(alloc, &[6], &digest(branch.as_slice()), usages[3])?;
        let root = cut(alloc, root, short == Some(Place::Root))?;
        Ok(Records {
            first,
            second,
            branch,
            root,
        })
    }

    fn at(&self, place: Place) -> &[u8] {
        match place {
            Place::First => self.first.as_slice(),
            Place::Second => self.second.as_slice(),
            Place::Branch => self.branch.as_slice(),
            Place::Root => self.root.as_slice(),
        }
    }

    /// A store of all records but one, if one is left out. Calls of these numbers fail, of which
    /// filling the store takes two for each record.
    fn store(
        &self,
        alloc: Global,
        without: Option<Place>,
        fails: &[u64],
    ) -> Result<MemNodes, AllocError> {
        let mut store = MemNodes::new(alloc, fails)?;
        for place in [Place::First, Place::Second, Place::Branch, Place::Root] {
            if without != Some(place) && !keep(alloc, &mut store, self.at(place), 1)? {
                return Err(AllocError);
            }
        }
        Ok(store)
    }

    /// Deletes the key 62, which visits all four places: the root, the branch, the second leaf and
    /// then the first one.
    fn refused(&self, alloc: Global, mut store: MemNodes) -> Result<Refused, AllocError> {
        let mut batch = Changes::new(alloc, 1);
        delete(alloc, &mut batch, b"b")?;
        match update(alloc, &mut store, &digest(self.at(Place::Root)), &batch) {
            Ok(_) => Ok(Refused::Nothing),
            Err(UpdateError::Missing { digest }) => Ok(Refused::Missing(digest)),
            Err(UpdateError::Bad { digest }) => Ok(Refused::Bad(digest)),
            Err(UpdateError::Usage { digest }) => Ok(Refused::Usage(digest)),
            Err(UpdateError::Fault) => Ok(Refused::Fault),
            Err(_) => Ok(Refused::NoMemory),
        }
    }
}

/// Records that state these usages are taken.
fn expect_taken(rt: &impl Abort, alloc: Global, usages: [u64; 4]) -> Result<(), Fail> {
    let records = Records::new(alloc, usages, None)?;
    let store = records.store(alloc, None, &[])?;
    assert_eq!(rt; records.refused(alloc, store)?, Refused::Nothing);
    Ok(())
}

/// Records that state these usages are refused for the usage at a place.
fn expect_usage(
    rt: &impl Abort,
    alloc: Global,
    usages: [u64; 4],
    place: Place,
) -> Result<(), Fail> {
    let records = Records::new(alloc, usages, None)?;
    let store = records.store(alloc, None, &[])?;
    let usage = Refused::Usage(digest(records.at(place)));
    assert_eq!(rt; records.refused(alloc, store)?, usage);
    Ok(())
}

/// Records of which one is left out are refused for it.
fn expect_missing(rt: &impl Abort, alloc: Global, place: Place) -> Result<(), Fail> {
    let records = Records::new(alloc, [103, 103, 256, 308], None)?;
    let store = records.store(alloc, Some(place), &[])?;
    let missing = Refused::Missing(digest(records.at(place)));
    assert_eq!(rt; records.refused(alloc, store)?, missing);
    Ok(())
}

/// Records of which one is cut are refused for it.
fn expect_short(rt: &impl Abort, alloc: Global, place: Place) -> Result<(), Fail> {
    let records = Records::new(alloc, [103, 103, 256, 308], Some(place))?;
    let store = records.store(alloc, None, &[])?;
    let bad = Refused::Bad(digest(records.at(place)));
    assert_eq!(rt; records.refused(alloc, store)?, bad);
    Ok(())
}

/// A store that fails at the call of this number.
fn expect_fault(rt: &impl Abort, alloc: Global, call: u64) -> Result<(), Fail> {
    let records = Records::new(alloc, [103, 103, 256, 308], None)?;
    let store = records.store(alloc, None, &[call])?;
    assert_eq!(rt; records.refused(alloc, store)?, Refused::Fault);
    Ok(())
}

/// A record states one less or one more than a state's: too little for what stands below it, or too
/// much for what stands above.
#[test]
fn usages_off_by_one(rt: HostRuntime) -> Result<(), Fail> {
    let alloc = rt.alloc();
    expect_usage(&rt, alloc, [102, 103, 256, 308], Place::First)?;
    expect_usage(&rt, alloc, [104, 103, 256, 308], Place::Branch)?;
    expect_usage(&rt, alloc, [103, 102, 256, 308], Place::Second)?;
    expect_usage(&rt, alloc, [103, 104, 256, 308], Place::Branch)?;
    expect_usage(&rt, alloc, [103, 103, 255, 308], Place::Branch)?;
    expect_usage(&rt, alloc, [103, 103, 257, 308], Place::Root)?;
    expect_usage(&rt, alloc, [103, 103, 256, 307], Place::Root)?;
    expect_taken(&rt, alloc, [103, 103, 256, 309])
}

/// A record states more than any may.
#[test]
fn usages_above_the_most(rt: HostRuntime) -> Result<(), Fail> {
    let alloc = rt.alloc();
    expect_usage(&rt, alloc, [MOST + 1, 103, 256, 308], Place::First)?;
    expect_usage(&rt, alloc, [103, MOST + 1, 256, 308], Place::Second)?;
    expect_usage(&rt, alloc, [103, 103, MOST + 1, 308], Place::Branch)?;
    expect_usage(&rt, alloc, [103, 103, 256, MOST + 1], Place::Root)?;
    expect_taken(&rt, alloc, [103, 103, 256, MOST])
}

#[test]
fn missing_records(rt: HostRuntime) -> Result<(), Fail> {
    let alloc = rt.alloc();
    expect_missing(&rt, alloc, Place::First)?;
    expect_missing(&rt, alloc, Place::Second)?;
    expect_missing(&rt, alloc, Place::Branch)?;
    expect_missing(&rt, alloc, Place::Root)
}

#[test]
fn short_records(rt: HostRuntime) -> Result<(), Fail> {
    let alloc = rt.alloc();
    expect_short(&rt, alloc, Place::First)?;
    expect_short(&rt, alloc, Place::Second)?;
    expect_short(&rt, alloc, Place::Branch)?;
    expect_short(&rt, alloc, Place::Root)
}

/// Each load fails in turn. The eight calls before are those that fill the store.
#[test]
fn faults(rt: HostRuntime) -> Result<(), Fail> {
    let alloc = rt.alloc();
    for call in 9..13 {
        expect_fault(&rt, alloc, call)?;
    }
    Ok(())
}

/// A leaf stands where a branch should be, below an extension.
#[test]
fn leaf_below_an_extension(rt: HostRuntime) -> Result<(), Fail> {
    let alloc = rt.alloc();
    let honest = Records::new(alloc, [103, 103, 256, 308], None)?;
    let root = write_extension(alloc, &[6], &digest(honest.first.as_slice()), 308)?;
    let records = Records { root, ..honest };
    let store = records.store(alloc, None, &[])?;
    let bad = Refused::Bad(digest(records.at(Place::First)));
    assert_eq!(rt; records.refused(alloc, store)?, bad);
    Ok(())
}
