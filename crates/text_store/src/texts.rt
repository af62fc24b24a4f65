ghost use Rattle.std.specs.Prelude.{◌≡◌, ℕ, IfOk, ⊤};
ghost use Rattle.std.specs.Option.{option_copied};
ghost use Rattle.std.specs.Borrow.{sem, follows_so};
ghost use Rattle.std.specs.FinMap.{get};
ghost use Rattle.text_store.specs.Store.{Store};
ghost use Rattle.text_store.specs.Loading.{IsNamed, Loaded, NO_NAME};

use base_core::{Digest, Fault};

/// Texts that are loaded by their digests.
pub trait Texts {
    /// What is told of the object in each of its states: its texts, its loads and its faults, each
    /// counted up to 2^64 - 1, the digests that it remembers as loaded, where it tells them, and
    /// which states are alike.
    ghost store: { Store Self };

    /// What a load leaves of the object, where it says more than `load` does.
    ghost load_leaves: { Self → Self → Type 0 } = { λ _ _. ⊤ };

    /// The text of a digest, or `None` where none is held. The load is counted in any case.
    fn load(&mut self, d: &Digest) -> Result<Option<&[u8]>, Fault>
        ensures* after { sem 𝓛 (follows_so Self.row Self.row self.entry.ghost_name NO_NAME (λ _ _. ⊤) (λ new. Loaded store self.old new d.now.0 result × load_leaves self.old new)) }
        ensures value { IfOk result (λ found. option_copied found ≡ get (store.texts self.old) d.now.0) }
        ensures named { IsNamed (store.texts self.old) };

    /// How many loads there were, up to 2^64 - 1. It takes no memory.
    fn loads(&self) -> u64
        ensures { result ≡ store.loads self.now };

    /// Each state is alike to itself.
    ghost alike_itself: { (a : Self) → store.alike a a };

    /// Being alike carries over.
    ghost alike_onward: { (a b c : Self) → store.alike a b → store.alike b c → store.alike a c };

    /// Alike states hold the same texts.
    ghost alike_texts: { (a b : Self) → store.alike a b → store.texts a ≡ store.texts b };
}
