ghost use Rattle.std.specs.Prelude.{◌≡◌, refl, false, IfOk};
ghost use Rattle.std.specs.FinMap.{empty};
ghost use Rattle.std.proofs.Common.{◌∙◌};
ghost use Rattle.partial_model.specs.Texts.{texts_in};
ghost use Rattle.text_store.specs.PartialStates.{unread};
ghost use Rattle.partial_state.specs.Recorders.{store_behind, AreTexts};

use crate::noted_texts::NotedTexts;
use crate::noting::{Notes, Noting};
use base_core::{Digest, Fault};
use std::alloc::{AllocError, Global};
use text_store::{PartialTexts, Texts};

/// A store behind a reference.
#[derive(Drop)]
pub struct StoreRef<'a, T: Texts> {
    pub(crate) store: &'a mut T,
}

impl<'a, T: Texts> Texts for StoreRef<'a, T> {
    ghost store = { store_behind T.store (λ s. s.store.now) (λ s. s.store.ghost_name) };

    ghost alike_itself = { λ a. (refl, T.alike_itself a.store.now) };

    ghost alike_onward = { λ a b c first second. (first.0 ∙ second.0, T.alike_onward a.store.now b.store.now c.store.now first.1 second.1) };

    ghost alike_texts = { λ a b alike. T.alike_texts a.store.now b.store.now alike.1 };

    fn load(&mut self, d: &Digest) -> Result<Option<&[u8]>, Fault> {
        self.store.load(d)
    }

    fn loads(&self) -> u64 {
        self.store.loads()
    }
}

/// A store that notes which texts are loaded from it.
pub type Recorder<'a, T> = Noting<StoreRef<'a, T>>;

impl<'a, T: Texts> Noting<StoreRef<'a, T>> {
    /// No text is noted. It takes no memory.
    pub fn new(alloc: Global, store: &'a mut T) -> Recorder<'a, T>
        ensures same_reference { result.store.store.ghost_name ≡ store.entry.ghost_name }
        ensures store { result.store.store.now ≡ store.old }
        ensures notes { result.notes.texts ≡ empty }
        ensures short { result.notes.short ≡ false }
        ensures held { AreTexts (T.store.texts store.old) result.notes.texts }
    {
        Noting {
            store: StoreRef { store },
            notes: Notes {
                texts: NotedTexts::new(alloc),
                short: false,
                alloc,
            },
        }
    }

    /// Whether the note of a text that was loaded found no memory. It takes no memory.
    pub fn short(&self) -> bool
        ensures { result ≡ self.now.notes.short }
    {
        self.notes.short
    }

    /// The noted texts as a partial state, none of which is marked. It is asked that no note is
    /// missing, and that each is its store's text, as `new` and each load leave it.
    pub fn into_texts(self) -> Result<PartialTexts, AllocError>
        requires whole { self.notes.short ≡ false }
        requires held { AreTexts (T.store.texts self.store.store.now) self.notes.texts }
        ensures { IfOk result (λ held. held ≡ unread (texts_in self.entry.notes.texts)) }
    {
        let Noting { store: _, notes } = self;
        notes.into_texts()
    }
}
