//! A store beside the notes of its loads. A load lends its text out of the one and changes the other.

ghost use Rattle.std.specs.Prelude.{◌≡◌, IfOk, ⊤};
ghost use Rattle.std.specs.Option.{option_copied};
ghost use Rattle.std.specs.Borrow.{sem, follows_so};
ghost use Rattle.std.specs.FinMap.{get};
ghost use Rattle.sha2.specs.Sha256.{sha256};
ghost use Rattle.trie_model.specs.Root.{NoClash};
ghost use Rattle.partial_model.specs.Texts.{texts_in};
ghost use Rattle.text_store.specs.Loading.{IsNamed, Loaded, NO_NAME};
ghost use Rattle.text_store.specs.PartialStates.{unread};
ghost use Rattle.partial_state.specs.Recorders.{IsNoted, NotesLoad};
ghost use Rattle.partial_state.specs.contracts.noting.Noting.{the_row};

use crate::noted_texts::NotedTexts;
use base_core::{Digest, Fault};
use std::alloc::{AllocError, Global};
use text_store::{PartialTexts, Texts};

/// The texts that were loaded, and whether one is missing, since there was no memory for it.
#[derive(Drop)]
pub struct Notes {
    pub(crate) texts: NotedTexts,
    pub(crate) short: bool,
    pub(crate) alloc: Global,
}

impl Notes {
    /// Notes a text that was loaded under its digest.
    fn put(&mut self, d: &Digest, text: &[u8])
        requires { sha256 text.now ≡ d.now.0 }
        ensures { IsNoted self.old self.new text.now }
    {
        if self.texts.put(d, text).is_err() {
            self.short = true;
        }
    }

    /// The texts as a partial state, none of which is marked.
    pub(crate) fn into_texts(self) -> Result<PartialTexts, AllocError>
        requires { NoClash (texts_in self.texts) }
        ensures { IfOk result (λ held. held ≡ unread (texts_in self.texts)) }
    {
        PartialTexts::of_set(self.alloc, self.texts.into_set())
    }
}

/// A store, and the notes of its loads.
#[derive(Drop)]
pub struct Noting<T> {
    pub(crate) store: T,
    pub(crate) notes: Notes,
}

/// Loads a text, and notes it before it is handed on.
fn load_noted<'s, T: Texts>(
    store: &'s mut T,
    notes: &mut Notes,
    d: &Digest,
) -> Result<Option<&'s [u8]>, Fault>
    ensures* after { sem 𝓛 (follows_so T.row T.row store.entry.ghost_name NO_NAME (λ _ _. ⊤) (λ new. Loaded T.store store.old new d.now.0 result)) }
    ensures found { IfOk result (λ found. option_copied found ≡ get (T.store.texts store.old) d.now.0) × IsNamed (T.store.texts store.old) × NotesLoad notes.old notes.new result }
{
    match store.load(d) {
        Ok(Some(text)) => {
            notes.put(d, text);
            Ok(Some(text))
        }
        Ok(None) => Ok(None),
        Err(Fault) => Err(Fault),
    }
}

/// Loads a text and notes it, where both parts lie in one value.
pub(crate) fn load_beside<'s, T: Texts>(
    noting: &'s mut Noting<T>,
    d: &Digest,
) -> Result<Option<&'s [u8]>, Fault>
    ensures* after { sem 𝓛 (follows_so (the_row T.row) (the_row T.row) noting.entry.ghost_name NO_NAME (λ _ _. ⊤) (λ new. Loaded T.store noting.old.store new.store d.now.0 result × NotesLoad noting.old.notes new.notes result)) }
    ensures found { IfOk result (λ found. option_copied found ≡ get (T.store.texts noting.old.store) d.now.0) × IsNamed (T.store.texts noting.old.store) }
{
    load_noted(&mut noting.store, &mut noting.notes, d)
}

impl<T: Texts> Texts for Noting<T> {
    ghost use Rattle.partial_state.specs.Recorders.{noting_store};

    ghost store = { noting_store T.store (λ n. n.store) (λ n. n.notes) };

    ghost alike_itself = { λ a. (T.alike_itself a.store, λ are. are) };

    ghost alike_onward = { λ a b c first second. (T.alike_onward a.store b.store c.store first.0 second.0, λ are. second.1 (first.1 are)) };

    ghost alike_texts = { λ a b alike. T.alike_texts a.store b.store alike.0 };

    fn load(&mut self, d: &Digest) -> Result<Option<&[u8]>, Fault> {
        load_beside(self, d)
    }

    fn loads(&self) -> u64 {
        self.store.loads()
    }
}
