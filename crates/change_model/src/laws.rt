//! Laws over the definitions, in other words than theirs. A law is proved where its function is: there is nothing to run.

ghost use Rattle.std.specs.Prelude.{◌≡◌, ◌+◌, ◌-◌, ℕ, Bool, true, false, List, [], length, map, None, Contains};
ghost use Rattle.std.specs.List.{AllByRecursion, count_by};
ghost use Rattle.std.specs.FinMap.{get, entries};
ghost use Rattle.sha2.specs.Sha256.{sha256};
ghost use Rattle.trie_model.specs.State.{State, IsState, IsPair, rows_of};
ghost use Rattle.trie_model.specs.Tree.{below};
ghost use Rattle.trie_model.specs.Root.{Table, root, text_at, texts_of, places_of, subtree_at, digest_occurrences};
ghost use Rattle.batch_model.specs.Changes.{Changes, AreChanges, after, decided, changed_paths};
ghost use Rattle.change_model.specs.Places.{above, is_branch, is_place_of, is_touched, is_written, leads_to, remains_alone, touched_places};
ghost use Rattle.change_model.specs.Ledger.{fresh, gain, gone, loss, made_texts};
ghost use Rattle.change_model.specs.Exchange.{count_of_digest, is_given_up, taken_texts};
ghost use Rattle.change_model.specs.Laws.{IsCut};
ghost use Rattle.change_model.specs.Tables.{HoldsPlaces};
ghost use Rattle.change_model.specs.Visits.{batch_visits};

/// What is not touched stays a place. And below any path on which no change stands, the rows stay, and so do the texts.
pub fn untouched_places_stay()
    ensures places { (state : State) (changes : Changes) (place : List ℕ) → IsState state → AreChanges changes → Contains (places_of state) place → is_touched state [] changes place ≡ false → Contains (places_of (after state changes)) place }
    ensures rows { (state : State) (changes : Changes) (place : List ℕ) → leads_to (changed_paths changes) place ≡ false → below place (rows_of (after state changes)) ≡ below place (rows_of state) }
    ensures texts { (state : State) (changes : Changes) (place : List ℕ) → leads_to (changed_paths changes) place ≡ false → text_at (after state changes) place ≡ text_at state place }
{}

/// A place of the new state that is not written is one of the old state, with the same text.
pub fn unwritten_places_stay()
    ensures { (state : State) (changes : Changes) (place : List ℕ) → is_written state changes place ≡ false → Contains (places_of state) place × (text_at (after state changes) place ≡ text_at state place) }
{}

/// A place of the new state that is no place of the old one stands on the path of a changed key, or is cut out of a place that is touched.
pub fn new_places_are_cut_from_touched_ones()
    ensures { (state : State) (changes : Changes) (place : List ℕ) → IsState state → AreChanges changes → Contains (places_of (after state changes)) place → leads_to (changed_paths changes) place ≡ false → is_place_of state place ≡ false → IsCut state changes place }
{}

/// What a batch gives up of the old state it has touched.
pub fn given_up_places_are_touched()
    ensures { (state : State) (changes : Changes) (place : List ℕ) → IsState state → AreChanges changes → Contains (places_of state) place → is_given_up state changes place ≡ true → is_touched state [] changes place ≡ true }
{}

/// And what it has touched and doesn't give up is a branch that remains alone: it becomes the child of an extension, as it is.
pub fn touched_places_that_stay_are_branches()
    ensures { (state : State) (changes : Changes) (place : List ℕ) → is_touched state [] changes place ≡ true → is_given_up state changes place ≡ false → remains_alone state changes place ≡ true × (is_branch (subtree_at state place) ≡ true) }
{}

/// Above a place that remains alone there is no branch in the new state.
pub fn no_branch_above_what_remains()
    ensures { (state : State) (changes : Changes) (place : List ℕ) → remains_alone state changes place ≡ true → is_branch (subtree_at (after state changes) (above place)) ≡ false }
{}

/// The occurrences of a digest after a batch are those before it, less those of the texts that are taken out, and those of the texts that are made. So what a digest gains is by how much it is made more often than taken out, and what it loses is the other way round.
pub fn occurrences_balance()
    ensures exchange { (state : State) (changes : Changes) (digest : List ℕ) → digest_occurrences (after state changes) digest + count_of_digest digest (taken_texts state changes) ≡ digest_occurrences state digest + count_of_digest digest (made_texts state changes) }
    ensures balance { (state : State) (changes : Changes) (digest : List ℕ) → digest_occurrences state digest + gain state changes digest ≡ digest_occurrences (after state changes) digest + loss state changes digest }
    ensures gain { (state : State) (changes : Changes) (digest : List ℕ) → gain state changes digest ≡ count_of_digest digest (made_texts state changes) - count_of_digest digest (taken_texts state changes) }
    ensures loss { (state : State) (changes : Changes) (digest : List ℕ) → loss state changes digest ≡ count_of_digest digest (taken_texts state changes) - count_of_digest digest (made_texts state changes) }
{}

/// The pairs after a batch and the keys that disappear are as many as the pairs before it and the keys that appear.
pub fn pairs_are_counted()
    ensures { (state : State) (changes : Changes) → length (entries (after state changes)) + gone state changes ≡ length (entries state) + fresh state changes }
{}

/// A batch that changes nothing makes only texts that the state has.
pub fn nothing_new_without_change()
    ensures { (state : State) (changes : Changes) (t : List ℕ) → after state changes ≡ state → Contains (made_texts state changes) t → Contains (texts_of state) t }
{}

/// Over a table that has the texts of the touched places, a batch visits the touched places, each once, and no test fails. That each is visited once is said by counts: whatever test a digest may pass, as many of those visited do as of the touched places'.
pub fn batch_over_state()
    ensures refusal { (table : Table) (state : State) (changes : Changes) → IsState state → AreChanges changes → HoldsPlaces table state (touched_places state [] changes) → (batch_visits table (root state) changes).refusal ≡ None }
    ensures digests { (table : Table) (state : State) (changes : Changes) (test : List ℕ → Bool) → IsState state → AreChanges changes → HoldsPlaces table state (touched_places state [] changes) → count_by test (batch_visits table (root state) changes).digests ≡ count_by test (map (λ place. sha256 (text_at state place)) (touched_places state [] changes)) }
    ensures count { (table : Table) (state : State) (changes : Changes) → IsState state → AreChanges changes → HoldsPlaces table state (touched_places state [] changes) → length (batch_visits table (root state) changes).digests ≡ length (touched_places state [] changes) }
{}
