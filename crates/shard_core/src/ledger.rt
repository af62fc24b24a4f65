ghost use Rattle.std.specs.Prelude.{◌≡◌};
ghost use Rattle.shard_core.specs.Ledgers.{entries_of, gains_under, ledgers_of, losses_under};

use crate::occurrences::Occurrences;
use base_core::Digest;
use std::collections::HashMap;

/// What is kept of a live block's trie.
#[derive(Debug, Drop)]
pub(crate) struct Ledger {
    pub(crate) root: Digest,
    /// How many pairs the block's state has.
    pub(crate) pairs: u64,
    /// The digests that occur more often than in the state of the block's prev, ascending.
    pub(crate) gains: Vec<Occurrences>,
    /// Those that occur less often.
    pub(crate) losses: Vec<Occurrences>,
}

/// The gains of a block, and none where it has no ledger.
pub(crate) fn gains_at<'l>(ledgers: &'l HashMap<Digest, Ledger>, id: &Digest) -> &'l [Occurrences]
    ensures { entries_of result.now ≡ gains_under (ledgers_of ledgers.now.entries) id.now.0 }
{
    match ledgers.get(id) {
        Some(ledger) => ledger.gains.as_slice(),
        None => &[],
    }
}

/// The losses of a block, and none where it has no ledger.
pub(crate) fn losses_at<'l>(ledgers: &'l HashMap<Digest, Ledger>, id: &Digest) -> &'l [Occurrences]
    ensures { entries_of result.now ≡ losses_under (ledgers_of ledgers.now.entries) id.now.0 }
{
    match ledgers.get(id) {
        Some(ledger) => ledger.losses.as_slice(),
        None => &[],
    }
}
