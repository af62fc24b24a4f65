ghost use Rattle.std.specs.Prelude.{◌≡◌, ◌<◌, ◌≤◌, length, slice_index_or, slice_set, ⊤};
ghost use Rattle.byte_model.specs.Node.{child_count};
ghost use Rattle.node_codec.specs.Meanings.{children_in};

use base_core::Digest;
use std::alloc::AllocError;
use std::marker::Model;

/// The children of a branch: at each of the sixteen nibbles a digest, or none.
#[derive(Debug, Drop)]
pub struct Kids {
    digests: [Option<Digest>; 16],
}

impl Model for Kids {
    ghost use Rattle.std.specs.Prelude.{List, Option};
    ghost use Rattle.base_core.specs.declared.hash.Digest.{Digest};

    ghost Value = { List (Option Digest) };

    ghost view = { λ kids. kids.digests };
}

impl Clone for Kids {
    ghost is_clone = { λ kids copy. copy ≡ kids };

    ghost is_infallible = { λ _. ⊤ };

    fn clone(&self) -> Result<Kids, AllocError> {
        Ok(Kids {
            digests: self.digests,
        })
    }
}

impl Kids {
    /// No child at all.
    pub const NONE: Kids = Kids {
        digests: [None; 16],
    };

    /// The child at a nibble.
    pub fn get(&self, i: u8) -> Option<Digest>
        requires { i < 16 }
        ensures value { result ≡ slice_index_or self.now i None }
        ensures sixteen { length self.now ≡ 16 }
    {
        self.digests[i as usize]
    }

    /// Puts a child, or none, at a nibble.
    pub fn set(&mut self, i: u8, d: Option<Digest>)
        requires { i < 16 }
        ensures value { self.new ≡ slice_set self.old i d }
        ensures sixteen { length self.old ≡ 16 }
    {
        self.digests[i as usize] = d;
    }

    /// How many children there are.
    pub fn count(&self) -> u64
        ensures value { result ≡ child_count (children_in self.now) }
        ensures few { result ≤ 16 }
    {
        self.digests.iter().filter(|child| child.is_some()).count() as u64
    }
}
