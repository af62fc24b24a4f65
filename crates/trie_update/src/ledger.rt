ghost use Rattle.std.specs.Prelude.{◌≡◌, [], OnOk};
ghost use Rattle.trie_update.specs.Accounts.{Gains, Loses};

use base_core::{Digest, Text};
use std::alloc::{AllocError, Global};

/// A text that was made, under its digest.
#[derive(Debug, Drop)]
pub(crate) struct Gained {
    pub(crate) digest: Digest,
    pub(crate) text: Text,
}

/// Each text that a batch makes and each one that it takes out, one entry for each occurrence.
#[derive(Debug, Drop)]
pub(crate) struct Ledger {
    pub(crate) gained: Vec<Gained>,
    pub(crate) lost: Vec<Digest>,
    pub(crate) fresh: u64,
    pub(crate) gone: u64,
}

impl Ledger {
    pub(crate) fn new(alloc: Global) -> Ledger
        ensures gained { result.gained.items ≡ [] }
        ensures lost { result.lost.items ≡ [] }
        ensures fresh { result.fresh ≡ 0 }
        ensures gone { result.gone ≡ 0 }
    {
        Ledger {
            gained: Vec::new(alloc),
            lost: Vec::new(alloc),
            fresh: 0,
            gone: 0,
        }
    }

    /// One more occurrence of a text that is made.
    pub(crate) fn gain(&mut self, digest: Digest, text: Text) -> Result<(), AllocError>
        ensures gains { OnOk result (Gains self.old self.new digest text) }
    {
        Ok(self.gained.push(Gained { digest, text })?)
    }

    /// One occurrence less of the text under a digest.
    pub(crate) fn lose(&mut self, digest: Digest) -> Result<(), AllocError>
        ensures loses { OnOk result (Loses self.old self.new digest) }
    {
        Ok(self.lost.push(digest)?)
    }
}
