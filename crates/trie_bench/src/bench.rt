use crate::asked::Asked;
use crate::bench_error::BenchError;
use base_core::{Changes, Digest, LONGEST_KEY, Limits, PutError, Text, digest};
use std::alloc::Global;
use std::mem;
use text_store::{AddError, MemNodes, Nodes, ReserveError, Texts};
use trie_read::get;
use trie_update::{Made, update};

/// The texts held, the root, the batch that is taken in, what the last one made, how many look-ups
/// found a value, how many texts batches made, and how many were hashed once more.
#[derive(Debug, Drop)]
pub struct Bench {
    alloc: Global,
    store: MemNodes,
    root: Digest,
    batch: Changes,
    last: Option<Made>,
    found: u64,
    made: u64,
    hashed: u64,
}

impl Bench {
    /// No text is held, the root is that of the empty state, and nothing is changed.
    pub fn new(alloc: Global) -> Result<Bench, BenchError> {
        Ok(Bench {
            alloc,
            store: MemNodes::new(alloc, &[])?,
            root: Digest::ZERO,
            batch: no_changes(alloc),
            last: None,
            found: 0,
            made: 0,
            hashed: 0,
        })
    }

    /// Does what a line asks for.
    pub fn step(&mut self, asked: Asked) -> Result<(), BenchError> {
        match asked {
            Asked::Text(bytes) => self.hold(Text::from_bytes(bytes)),
            Asked::Root(root) => {
                self.root = root;
                Ok(())
            }
            Asked::Get(key) => self.look_up(key.as_slice()),
            Asked::Key(_) => Ok(()),
            Asked::Set(key, value) => {
                taken(
                    self.batch
                        .put(Text::from_bytes(key), Text::from_bytes(value)),
                )
            }
            Asked::Del(key) => taken(self.batch.remove(Text::from_bytes(key))),
            Asked::Update => self.carry_out(),
            Asked::Skip => {
                self.batch = no_changes(self.alloc);
                Ok(())
            }
            Asked::Hash => {
                self.hash_once_more();
                Ok(())
            }
        }
    }

    /// How many look-ups found a value.
    pub fn found(&self) -> u64 {
        self.found
    }

    /// How many texts were loaded.
    pub fn loads(&self) -> u64 {
        self.store.loads()
    }

    /// How many texts batches made.
    pub fn made(&self) -> u64 {
        self.made
    }

    /// How many texts were hashed once more.
    pub fn hashed(&self) -> u64 {
        self.hashed
    }

    /// Holds a text under its digest, if it is not held.
    fn hold(&mut self, text: Text) -> Result<(), BenchError> {
        match self.store.reserve(1) {
            Ok(()) => {}
            Err(ReserveError::Fault) => return Err(BenchError::Store),
            Err(ReserveError::NoMemory) => return Err(BenchError::NoMemory),
        }
        let d = digest(text.as_slice());
        if self.store.count(&d) > 0 {
            return Ok(());
        }
        match self.store.add(&d, text, 1) {
            Ok(()) => Ok(()),
            Err(AddError::Clash { .. } | AddError::Fault) => Err(BenchError::Store),
        }
    }

    fn look_up(&mut self, key: &[u8]) -> Result<(), BenchError> {
        if key.len() as u64 > LONGEST_KEY {
            return Err(BenchError::Line);
        }
        match get(&mut self.store, &self.root, key) {
            Ok(Some(_)) => {
                self.found = self.found.saturating_add(1);
                Ok(())
            }
            Ok(None) => Ok(()),
            Err(_) => Err(BenchError::Trie),
        }
    }

    /// Carries the batch out on the trie below the root. The store stays as it is, so that the next
    /// batch finds the same trie.
    fn carry_out(&mut self) -> Result<(), BenchError> {
        let batch = mem::replace(&mut self.batch, no_changes(self.alloc));
        self.last = None;
        match update(self.alloc, &mut self.store, &self.root, &batch) {
            Ok(change) => {
                self.made = self.made.saturating_add(change.made.len());
                self.last = Some(change.made);
                Ok(())
            }
            Err(_) => Err(BenchError::Trie),
        }
    }

    fn hash_once_more(&mut self) {
        if let Some(made) = &self.last {
            self.hashed = self.hashed.saturating_add(hash(made));
        }
    }
}

fn no_changes(alloc: Global) -> Changes {
    Changes::new(alloc, Limits::FULL.changes)
}

fn taken(answer: Result<(), PutError>) -> Result<(), BenchError> {
    match answer {
        Ok(()) => Ok(()),
        Err(PutError::NoMemory) => Err(BenchError::NoMemory),
        Err(_) => Err(BenchError::Line),
    }
}

/// Hashes texts, and answers how many of them have the digest that was told.
fn hash(made: &Made) -> u64 {
    let mut hashed = 0u64;
    for place in 0..made.len() {
        let text = made.at(place);
        if digest(text.text.as_slice()) == text.digest {
            hashed = hashed.saturating_add(1);
        }
    }
    hashed
}
