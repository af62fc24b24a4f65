//! The texts that were noted.

ghost use Rattle.std.specs.Prelude.{◌≡◌, OnOk, OnErr};
ghost use Rattle.std.specs.FinMap.{empty};
ghost use Rattle.sha2.specs.Sha256.{sha256};
ghost use Rattle.partial_state.specs.NotedTexts.{IsPut};

use base_core::Digest;
use std::alloc::{AllocError, Global};
use std::collections::HashSet;
use std::marker::Model;
use text_store::TextSet;

/// Texts, and the digests under which they were loaded, as far as there was memory for these. A text
/// that is loaded again is then found by its digest, and not compared with the others.
#[derive(Drop)]
pub struct NotedTexts {
    texts: TextSet,
    digests: HashSet<Digest>,
}

impl Model for NotedTexts {
    ghost use Rattle.std.specs.FinSet as set;
    ghost use Rattle.std.specs.Coded.{coded_ℕ, coded_list};
    ghost use Rattle.partial_model.specs.Texts.{SetOfTexts};
    ghost use Rattle.partial_state.specs.NotedTexts.{AreDigestsOf};

    ghost Value = { SetOfTexts };

    ghost coded = { set.code (coded_list coded_ℕ) };

    ghost view = { λ n. n.texts };

    ghost invariant = { λ n. AreDigestsOf n.texts n.digests.keys };
}

impl NotedTexts {
    /// No texts. It takes no memory.
    pub(crate) fn new(alloc: Global) -> NotedTexts
        ensures { result ≡ empty }
    {
        NotedTexts {
            texts: TextSet::new(alloc),
            digests: HashSet::new(alloc),
        }
    }

    /// Puts a text in, unless one of its digest was put in before.
    pub(crate) fn put(&mut self, d: &Digest, text: &[u8]) -> Result<(), AllocError>
        requires { sha256 text.now ≡ d.now.0 }
        ensures ok { OnOk result (IsPut self.old self.new text.now) }
        ensures err { OnErr result (self.new ≡ self.old) }
    {
        if self.digests.contains(d) {
            return Ok(());
        }
        self.texts.put(text)?;
        // Without memory for its digest, a text is compared again.
        let _ = self.digests.insert(*d);
        Ok(())
    }

    /// The texts, as a set.
    pub(crate) fn into_set(self) -> TextSet
        ensures { result ≡ self }
    {
        self.texts
    }
}
