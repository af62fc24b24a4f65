ghost use Rattle.std.specs.Prelude.{◌≡◌, ℕ, ◌+◌, ◌^◌, ◌<◌, ◌≤◌, List, OnOk, OnErr, Err, IfNone};
ghost use Rattle.std.specs.FinMap.{get, len};
ghost use Rattle.sha2.specs.Sha256.{sha256};
ghost use Rattle.base_core.specs.Faults.{IsCounted, faults_after};
ghost use Rattle.text_store.specs.Loading.{StaysKept};
ghost use Rattle.text_store.specs.Counting.{IsStored, IsUnchanged, Adds, Releases, AnswersAdd, reserve_ended, add_ended};

use crate::errors::{AddError, ReserveError};
use crate::texts::Texts;
use base_core::{Digest, Fault, Text};

/// Texts with counts: a text is held as long as its count is at least 1. A call that answers an
/// error changes no text and no count, and no call here counts as a load.
pub trait Nodes: Texts {
    /// The count of the text held under a digest, 0 where none is held.
    ghost count_of: { Self → List ℕ → ℕ };

    /// How many texts can be added without memory.
    ghost spare: { Self → ℕ };

    /// Takes room for `n` further texts.
    fn reserve(&mut self, n: u64) -> Result<(), ReserveError>
        ensures room { OnOk result (n ≤ spare self.new) }
        ensures least_room { spare self.old ≤ spare self.new }
        ensures unchanged { IsUnchanged (Self.store.texts self.old) (Self.store.texts self.new) (count_of self.old) (count_of self.new) }
        ensures stored { IsStored (Self.store.texts self.old) (count_of self.old) }
        ensures loads { Self.store.loads self.new ≡ Self.store.loads self.old }
        ensures kept { StaysKept (Self.store.kept self.old) (Self.store.kept self.new) }
        ensures counted { Self.store.faults self.new ≡ faults_after (reserve_ended result) (Self.store.faults self.old) };

    /// Raises the count of a text by `times`. With 0 it only compares the text with the one that is
    /// held. It takes no memory, since there is room.
    fn add(&mut self, d: &Digest, text: Text, times: u64) -> Result<(), AddError>
        requires digest { d.now.0 ≡ sha256 text }
        requires room { 1 ≤ spare self.old }
        requires times { IfNone (get (Self.store.texts self.old) d.now.0) (1 ≤ times) }
        requires fits { count_of self.old d.now.0 + times < 2 ^ 64 }
        ensures ok { OnOk result (Adds (Self.store.texts self.old) (Self.store.texts self.new) (count_of self.old) (count_of self.new) d.now.0 text times) }
        ensures err { OnErr result (IsUnchanged (Self.store.texts self.old) (Self.store.texts self.new) (count_of self.old) (count_of self.new)) }
        ensures answer { AnswersAdd (Self.store.texts self.old) d.now text result }
        ensures room { spare self.old ≤ spare self.new + 1 }
        ensures stored { IsStored (Self.store.texts self.old) (count_of self.old) }
        ensures loads { Self.store.loads self.new ≡ Self.store.loads self.old }
        ensures kept { StaysKept (Self.store.kept self.old) (Self.store.kept self.new) }
        ensures counted { Self.store.faults self.new ≡ faults_after (add_ended result) (Self.store.faults self.old) };

    /// Lowers the count of a text by `times`. At 0 the text is gone. It takes no memory.
    fn release(&mut self, d: &Digest, times: u64) -> Result<(), Fault>
        requires { times ≤ count_of self.old d.now.0 }
        ensures ok { OnOk result (Releases (Self.store.texts self.old) (Self.store.texts self.new) (count_of self.old) (count_of self.new) d.now.0 times) }
        ensures err { OnErr result (IsUnchanged (Self.store.texts self.old) (Self.store.texts self.new) (count_of self.old) (count_of self.new)) }
        ensures least_room { spare self.old ≤ spare self.new }
        ensures stored { IsStored (Self.store.texts self.old) (count_of self.old) }
        ensures loads { Self.store.loads self.new ≡ Self.store.loads self.old }
        ensures kept { StaysKept (Self.store.kept self.old) (Self.store.kept self.new) }
        ensures counted { IsCounted (Self.store.faults self.old) (Self.store.faults self.new) result };

    /// How many texts are held. It takes no memory.
    fn distinct(&self) -> u64
        ensures distinct { result ≡ len (Self.store.texts self.now) }
        ensures stored { IsStored (Self.store.texts self.now) (count_of self.now) };

    /// The count of the text held under a digest, 0 where none is held. It takes no memory.
    fn count(&self, d: &Digest) -> u64
        ensures count { result ≡ count_of self.now d.now.0 }
        ensures stored { IsStored (Self.store.texts self.now) (count_of self.now) };

    /// A load takes no room away.
    ghost load_room: { (a b : Self) → Self.load_leaves a b → spare a ≤ spare b };

    /// Alike states have the same counts.
    ghost alike_counts: { (a b : Self) → Self.store.alike a b → (digest : List ℕ) → count_of a digest ≡ count_of b digest };
}
