ghost use Rattle.std.specs.Prelude.{◌≡◌, ◌<◌, length, drop, Some};
ghost use Rattle.std.specs.List.{slice_get};
ghost use Rattle.trie_update.specs.Updates.{IsNoChange};

use base_core::{Digest, Text};
use std::alloc::Global;
use std::collections::VecDeque;
use std::marker::Model;

/// A text that a batch makes, and by how much its digest occurs more often than before. Where it
/// does not, that is 0.
#[derive(Debug, Drop)]
pub struct MadeText {
    pub digest: Digest,
    pub text: Text,
    pub times: u64,
}

/// The texts that a batch makes, each once, ascending by digest.
#[derive(Debug, Drop)]
pub struct Made {
    pub(crate) texts: VecDeque<MadeText>,
}

impl Model for Made {
    ghost use Rattle.std.specs.Prelude.{List};
    ghost use Rattle.trie_update.specs.declared.change.MadeText.{MadeText};

    ghost Value = { List MadeText };

    ghost view = { λ made. made.texts.items };
}

impl Made {
    /// How many texts there are. It takes no memory.
    pub fn len(&self) -> u64
        ensures { result ≡ length self.now }
    {
        self.texts.len() as u64
    }

    /// The text at a place in the order of digests. It takes no memory.
    pub fn at(&self, place: u64) -> &MadeText
        requires { place < length self.now }
        ensures { slice_get self.now place ≡ Some result.now }
    {
        match self.texts.get(place as usize) {
            Some(made) => made,
            None => unreachable!(),
        }
    }

    /// Takes out the first text, if one is left. It takes no memory.
    pub fn take_first(&mut self) -> Option<MadeText>
        ensures first { result ≡ slice_get self.old 0 }
        ensures rest { self.new ≡ drop 1 self.old }
    {
        self.texts.pop_front()
    }
}

/// A digest that occurs less often than before, and by how much.
#[derive(Clone, Copy, Debug)]
pub struct LostText {
    pub digest: Digest,
    pub times: u64,
}

/// The digests that a batch loses, ascending.
#[derive(Debug, Drop)]
pub struct Lost {
    pub(crate) texts: Vec<LostText>,
}

impl Model for Lost {
    ghost use Rattle.std.specs.Prelude.{List};
    ghost use Rattle.trie_update.specs.declared.change.LostText.{LostText};

    ghost Value = { List LostText };

    ghost view = { λ lost. lost.texts.items };
}

impl Lost {
    /// How many digests there are. It takes no memory.
    pub fn len(&self) -> u64
        ensures { result ≡ length self.now }
    {
        self.texts.len() as u64
    }

    /// The digest at a place in their order. It takes no memory.
    pub fn at(&self, place: u64) -> &LostText
        requires { place < length self.now }
        ensures { slice_get self.now place ≡ Some result.now }
    {
        &self.texts[place as usize]
    }
}

/// What a batch makes of a trie.
#[derive(Debug, Drop)]
pub struct Change {
    /// The new root.
    pub root: Digest,
    /// The usage of the new state, or none where there was no change and no record was read.
    pub usage: Option<u64>,
    pub made: Made,
    pub lost: Lost,
    /// How many keys appear, and how many disappear.
    pub fresh: u64,
    pub gone: u64,
}

impl Change {
    /// What becomes of a trie where nothing is changed. It takes no memory.
    pub(crate) fn none(alloc: Global, root: &Digest) -> Change
        ensures { IsNoChange root.now result }
    {
        Change {
            root: *root,
            usage: None,
            made: Made {
                texts: VecDeque::new(alloc),
            },
            lost: Lost {
                texts: Vec::new(alloc),
            },
            fresh: 0,
            gone: 0,
        }
    }
}
