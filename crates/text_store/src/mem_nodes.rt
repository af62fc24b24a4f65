ghost use Rattle.std.specs.Prelude.{◌≡◌, ◌+◌, ◌^◌, ◌<◌, ◌≤◌, IfOk, IfNone, OnOk, OnErr, Err, IsErr, IsTrue, ◌↔◌, ⊤};
ghost use Rattle.std.specs.Option.{option_copied};
ghost use Rattle.std.specs.Borrow.{sem, follows_so};
ghost use Rattle.std.specs.FinMap.{get, len, empty};
ghost use Rattle.sha2.specs.Sha256.{sha256};
ghost use Rattle.base_core.specs.Faults.{IsCounted, faults_after};
ghost use Rattle.text_store.specs.Loading.{IsNamed, Loaded, NO_NAME};
ghost use Rattle.text_store.specs.Counting.{IsStored, IsUnchanged, Adds, Releases, AnswersAdd, reserve_ended, add_ended};
ghost use Rattle.base_core.specs.Failing.{fails_next, after_call};
ghost use Rattle.text_store.specs.StoreStates.{count_in, mem_store, after_load};
ghost use Rattle.text_store.specs.contracts.mem_nodes.MemNodes.{the_row};

use crate::errors::{AddError, ReserveError};
use crate::held::Held;
use crate::nodes::Nodes;
use crate::texts::Texts;
use base_core::{Digest, Failures, Fault, Text};
use std::alloc::{AllocError, Global};
use std::collections::HashMap;
use std::marker::Model;

/// Texts with counts in memory. It fails at chosen calls, and at no other.
#[derive(Debug, Drop)]
pub struct MemNodes {
    held: HashMap<Digest, Held>,
    loads: u64,
    failing: Failures,
}

impl Model for MemNodes {
    ghost use Rattle.std.specs.HashMap.{spare};
    ghost use Rattle.text_store.specs.StoreStates.{StoreState, store_state_code, texts_of, counts_of, IsKept};

    ghost Value = { StoreState };

    ghost coded = { store_state_code };

    ghost view = { λ s. record {
      texts = texts_of s.held.entries;
      counts = counts_of s.held.entries;
      spare = spare s.held;
      loads = s.loads;
      failing = s.failing;
    } };

    ghost invariant = { λ s. IsKept s.held.entries };
}

impl MemNodes {
    /// A store without texts that fails at chosen calls. The first call of `load`, `reserve`, `add`
    /// or `release` is number 1, whichever it is, and `fails` has the numbers of those that fail.
    pub fn new(alloc: Global, fails: &[u64]) -> Result<MemNodes, AllocError>
        ensures texts { IfOk result (λ store. store.texts ≡ empty) }
        ensures counts { IfOk result (λ store. store.counts ≡ empty) }
        ensures loads { IfOk result (λ store. store.loads ≡ 0) }
        ensures failing { IfOk result (λ store. store.failing ≡ record { fails = fails.now; calls = 0; faults = 0 }) }
    {
        let failing = Failures::new(alloc, fails)?;
        Ok(MemNodes {
            held: HashMap::new(alloc),
            loads: 0,
            failing,
        })
    }
}

impl Texts for MemNodes {
    ghost use Rattle.std.specs.Prelude.{refl};
    ghost use Rattle.std.proofs.Common.{◌∙◌};

    ghost store = { mem_store };

    ghost load_leaves = { λ old new. new ≡ after_load old };

    ghost alike_itself = { λ a. (refl, refl) };

    ghost alike_onward = { λ a b c first second. (first.0 ∙ second.0, first.1 ∙ second.1) };

    ghost alike_texts = { λ a b alike. alike.0 };

    fn load(&mut self, d: &Digest) -> Result<Option<&[u8]>, Fault>
        ensures* after { sem 𝓛 (follows_so the_row the_row self.entry.ghost_name NO_NAME (λ _ _. ⊤) (λ new. Loaded mem_store self.old new d.now.0 result × (new ≡ after_load self.old))) }
        ensures value { IfOk result (λ found. option_copied found ≡ get self.old.texts d.now.0) }
        ensures named { IsNamed self.old.texts }
        ensures fails { IsErr result ↔ IsTrue (fails_next self.old.failing) }
    {
        self.loads = self.loads.saturating_add(1);
        self.failing.call()?;
        match self.held.get(d) {
            Some(held) => Ok(Some(held.text.as_slice())),
            None => Ok(None),
        }
    }

    fn loads(&self) -> u64
        ensures { result ≡ self.now.loads }
    {
        self.loads
    }
}

impl Nodes for MemNodes {
    ghost use Rattle.std.specs.Prelude.{unwrap_or};
    ghost use Rattle.std.proofs.Common.{ap, subst, sym};
    ghost use Rattle.std.proofs.Math.Nat.{le_refl};

    ghost count_of = { count_in };

    ghost spare = { λ store. store.spare };

    ghost load_room = { λ a b after. subst (λ s. a.spare ≤ s.spare) (sym after) (le_refl a.spare) };

    ghost alike_counts = { λ a b alike digest. ap (λ counts. unwrap_or (get counts digest) 0) alike.1 };

    fn reserve(&mut self, n: u64) -> Result<(), ReserveError>
        ensures room { OnOk result (n ≤ self.new.spare) }
        ensures least_room { self.old.spare ≤ self.new.spare }
        ensures unchanged { IsUnchanged self.old.texts self.new.texts (count_in self.old) (count_in self.new) }
        ensures stored { IsStored self.old.texts (count_in self.old) }
        ensures loads { self.new.loads ≡ self.old.loads }
        ensures counted { self.new.failing.faults ≡ faults_after (reserve_ended result) self.old.failing.faults }
        ensures fails { (result ≡ Err ReserveError.Fault) ↔ IsTrue (fails_next self.old.failing) }
        ensures after { self.new.failing ≡ after_call self.old.failing }
    {
        if let Err(Fault) = self.failing.call() {
            return Err(ReserveError::Fault);
        }
        match self.held.reserve(n as usize) {
            Ok(()) => Ok(()),
            Err(_) => Err(ReserveError::NoMemory),
        }
    }

    fn add(&mut self, d: &Digest, text: Text, times: u64) -> Result<(), AddError>
        requires digest { d.now.0 ≡ sha256 text }
        requires room { 1 ≤ self.old.spare }
        requires times { IfNone (get self.old.texts d.now.0) (1 ≤ times) }
        requires fits { count_in self.old d.now.0 + times < 2 ^ 64 }
        ensures ok { OnOk result (Adds self.old.texts self.new.texts (count_in self.old) (count_in self.new) d.now.0 text times) }
        ensures err { OnErr result (IsUnchanged self.old.texts self.new.texts (count_in self.old) (count_in self.new)) }
        ensures answer { AnswersAdd self.old.texts d.now text result }
        ensures room { self.old.spare ≤ self.new.spare + 1 }
        ensures stored { IsStored self.old.texts (count_in self.old) }
        ensures loads { self.new.loads ≡ self.old.loads }
        ensures counted { self.new.failing.faults ≡ faults_after (add_ended result) self.old.failing.faults }
        ensures fails { (result ≡ Err AddError.Fault) ↔ IsTrue (fails_next self.old.failing) }
        ensures after { self.new.failing ≡ after_call self.old.failing }
    {
        if let Err(Fault) = self.failing.call() {
            return Err(AddError::Fault);
        }
        if *d == Digest::ZERO {
            return Err(AddError::Clash { digest: *d });
        }
        match self.held.get_mut(d) {
            Some(held) => {
                if held.text.as_slice() != text.as_slice() {
                    return Err(AddError::Clash { digest: *d });
                }
                held.count += times;
                Ok(())
            }
            None => match self.held.insert(*d, Held { text, count: times }) {
                Ok(_) => Ok(()),
                // There is room.
                Err(_) => unreachable!(),
            },
        }
    }

    fn release(&mut self, d: &Digest, times: u64) -> Result<(), Fault>
        requires { times ≤ count_in self.old d.now.0 }
        ensures ok { OnOk result (Releases self.old.texts self.new.texts (count_in self.old) (count_in self.new) d.now.0 times) }
        ensures err { OnErr result (IsUnchanged self.old.texts self.new.texts (count_in self.old) (count_in self.new)) }
        ensures least_room { self.old.spare ≤ self.new.spare }
        ensures stored { IsStored self.old.texts (count_in self.old) }
        ensures loads { self.new.loads ≡ self.old.loads }
        ensures counted { IsCounted self.old.failing.faults self.new.failing.faults result }
        ensures fails { IsErr result ↔ IsTrue (fails_next self.old.failing) }
        ensures after { self.new.failing ≡ after_call self.old.failing }
    {
        self.failing.call()?;
        let left = match self.held.get_mut(d) {
            Some(held) => {
                held.count -= times;
                held.count
            }
            None => return Ok(()),
        };
        if left == 0 {
            self.held.remove(d);
        }
        Ok(())
    }

    fn distinct(&self) -> u64
        ensures distinct { result ≡ len self.now.texts }
        ensures stored { IsStored self.now.texts (count_in self.now) }
    {
        self.held.len() as u64
    }

    fn count(&self, d: &Digest) -> u64
        ensures count { result ≡ count_in self.now d.now.0 }
        ensures stored { IsStored self.now.texts (count_in self.now) }
    {
        match self.held.get(d) {
            Some(held) => held.count,
            None => 0,
        }
    }
}
