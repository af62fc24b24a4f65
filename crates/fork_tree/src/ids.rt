ghost use Rattle.std.specs.Prelude.{◌≡◌, ◌<◌, length, map, Some};
ghost use Rattle.std.specs.List.{slice_get};

use base_core::Digest;
use std::marker::Model;

/// A list of ids of blocks.
#[derive(Debug, Drop)]
pub struct Ids {
    ids: Vec<Digest>,
}

impl Model for Ids {
    ghost use Rattle.std.specs.Prelude.{List, ℕ, map};

    ghost Value = { List (List ℕ) };

    ghost view = { λ s. map (λ id. id.0) s.ids.items };
}

impl Ids {
    /// The list that has these ids.
    pub(crate) fn new(ids: Vec<Digest>) -> Ids
        ensures { result ≡ map (λ id. id.0) ids.items }
    {
        Ids { ids }
    }

    pub(crate) fn as_slice(&self) -> &[Digest]
        ensures { map (λ id. id.0) result.now ≡ self.now }
    {
        self.ids.as_slice()
    }

    /// How many there are. It takes no memory.
    pub fn len(&self) -> u64
        ensures { result ≡ length self.now }
    {
        self.ids.len() as u64
    }

    /// The id at a place. It takes no memory.
    pub fn at(&self, place: u64) -> Digest
        requires { place < length self.now }
        ensures { slice_get self.now place ≡ Some result.0 }
    {
        self.ids[place as usize]
    }
}

/// What a move of the head makes of the blocks that don't stay.
#[derive(Debug, Drop)]
pub struct Move {
    /// The blocks after the old head, up to the new one, in order.
    pub passed: Ids,
    /// The other live blocks that are neither the old head nor descendants of the new one, in the
    /// order in which they were added.
    pub dropped: Ids,
}
