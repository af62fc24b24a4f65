ghost use Rattle.std.specs.Prelude.{◌≡◌, ◌^◌, ◌<◌, length, map, Some, IfOk, IfErr, IsOk, ⊤};
ghost use Rattle.std.specs.List.{slice_get, AllByRecursion};
ghost use Rattle.std.specs.Option.{option_copied};
ghost use Rattle.std.specs.Borrow.{sem, follows_so};
ghost use Rattle.std.specs.FinMap.{get};
ghost use Rattle.trie_model.specs.Root.{NoClash};
ghost use Rattle.partial_model.specs.Texts.{Rise, texts_in};
ghost use Rattle.partial_model.specs.Partial.{IsPartial};
ghost use Rattle.text_store.specs.Loading.{IsNamed, Loaded, NO_NAME};
ghost use Rattle.text_store.specs.PartialStates.{AnswersWhole, AnswersFirst, AnswersTexts, first_unused, partial_store, table_of, unread};
ghost use Rattle.text_store.specs.contracts.partial_texts.PartialTexts.{the_row};

use crate::errors::PartialError;
use crate::keyed::{Keyed, digests_of, digests_of_set};
use crate::marked::{Marked, first_unmarked, hold, least_of, room_for};
use crate::partial_reading::{fall_among, read_texts};
use crate::text_set::TextSet;
use crate::texts::Texts;
use base_core::{Digest, Fault, Reader, Text};
use indexmap::IndexMap;
use std::alloc::{AllocError, Global};
use std::marker::Model;

/// A partial state: texts at their places, which are counted from 0 in the order of the texts'
/// bytes. Those that were loaded are marked. No load fails.
#[derive(Drop)]
pub struct PartialTexts {
    held: IndexMap<Digest, Marked, Keyed>,
    loads: u64,
}

impl Model for PartialTexts {
    ghost use Rattle.text_store.specs.PartialStates.{PartialState, partial_state_code, texts_held, digests_used, AreHeld};

    ghost Value = { PartialState };

    ghost coded = { partial_state_code };

    ghost view = { λ p. record { texts = texts_held p.held.entries; kept = digests_used p.held.entries; loads = p.loads } };

    ghost invariant = { λ p. AreHeld p.held.entries };
}

impl PartialTexts {
    /// The partial state that some bytes spell. Time and memory grow with the bytes, whatever they
    /// claim, and each text is copied once.
    pub fn read(alloc: Global, bytes: &[u8]) -> Result<PartialTexts, PartialError>
        ensures { AnswersWhole result bytes.now }
    {
        let mut reader = Reader::new(bytes);
        let texts = read_texts(alloc, &mut reader)?;
        reader.end()?;
        PartialTexts::of_texts(alloc, texts.as_slice())
    }

    /// The partial state that the next bytes of a reader spell. The reader is left behind it, or
    /// where it was.
    pub fn read_from(alloc: Global, r: &mut Reader<'_>) -> Result<PartialTexts, PartialError>
        ensures read { AnswersFirst result r.old r.new }
        ensures refused { IfErr result (λ _. r.new ≡ r.old) }
    {
        let mut ahead = r.fork();
        let texts = read_texts(alloc, &mut ahead)?;
        let held = PartialTexts::of_texts(alloc, texts.as_slice())?;
        *r = ahead;
        Ok(held)
    }

    /// The texts of a set, none of which was loaded. They are not copied.
    pub fn of_set(alloc: Global, set: TextSet) -> Result<PartialTexts, AllocError>
        requires { NoClash (texts_in set) }
        ensures { IfOk result (λ held. held ≡ unread (texts_in set)) }
    {
        let texts = set.into_texts();
        let digests = digests_of_set(alloc, &texts)?;
        let mut held = room_for(alloc, digests.as_slice())?;
        for bytes in texts {
            let digest = digests[held.len()];
            hold(&mut held, digest, Text::from_bytes(bytes))?;
        }
        Ok(PartialTexts { held, loads: 0 })
    }

    /// The least place of a text that was never loaded. It takes no memory.
    pub fn unused(&self) -> Option<u64>
        ensures { result ≡ first_unused self.now }
    {
        match first_unmarked(&self.held) {
            Some(place) => Some(place as u64),
            None => None,
        }
    }

    /// How many texts there are. It takes no memory.
    pub fn len(&self) -> u64
        ensures len { result ≡ length self.now.texts }
        ensures partial { IsPartial self.now.texts }
        ensures apart { NoClash self.now.texts }
    {
        self.held.len() as u64
    }

    /// The text at a place. It takes no memory.
    pub fn at(&self, place: u64) -> &[u8]
        requires { place < length self.now.texts }
        ensures { slice_get self.now.texts place ≡ Some result.now }
    {
        self.held[place as usize].text.as_slice()
    }

    /// The texts at their places, unless they are not in order or clash.
    fn of_texts(alloc: Global, texts: &[&[u8]]) -> Result<PartialTexts, PartialError>
        requires few { length texts.now < 2 ^ 32 }
        requires short { AllByRecursion (λ text. length text.now < 2 ^ 32) texts.now }
        ensures { AnswersTexts result (map (λ text. text.now) texts.now) }
    {
        if let Some(place) = fall_among(texts) {
            return Err(PartialError::Order { place });
        }
        let digests = digests_of(alloc, texts)?;
        let mut held = room_for(alloc, digests.as_slice())?;
        let mut least: Option<Digest> = None;
        for (place, text) in texts.iter().enumerate() {
            if let Some(digest) = hold(&mut held, digests[place], Text::copy(alloc, text)?)? {
                least = Some(least_of(least, digest));
            }
        }
        match least {
            Some(digest) => Err(PartialError::Clash { digest }),
            None => Ok(PartialTexts { held, loads: 0 }),
        }
    }
}

impl Texts for PartialTexts {
    ghost use Rattle.std.specs.Prelude.{refl};
    ghost use Rattle.std.proofs.Common.{ap, ◌∙◌};

    ghost store = { partial_store };

    ghost alike_itself = { λ a. refl };

    ghost alike_onward = { λ a b c first second. first ∙ second };

    ghost alike_texts = { λ a b alike. ap table_of alike };

    fn load(&mut self, d: &Digest) -> Result<Option<&[u8]>, Fault>
        ensures* after { sem 𝓛 (follows_so the_row the_row self.entry.ghost_name NO_NAME (λ _ _. ⊤) (λ new. Loaded partial_store self.old new d.now.0 result × ⊤)) }
        ensures value { IfOk result (λ found. option_copied found ≡ get (table_of self.old.texts) d.now.0) }
        ensures named { IsNamed (table_of self.old.texts) }
        ensures never_fails { IsOk result }
    {
        self.loads = self.loads.saturating_add(1);
        let Some(place) = self.held.get_index_of(d) else {
            return Ok(None);
        };
        self.held[place].used = true;
        Ok(Some(self.held[place].text.as_slice()))
    }

    fn loads(&self) -> u64
        ensures { result ≡ self.now.loads }
    {
        self.loads
    }
}
