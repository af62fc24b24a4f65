//! Laws on what a batch makes. A law is proved where its function is: there is nothing to run.

ghost use Rattle.std.specs.Prelude.{◌≡◌, ◌≢◌, ◌+◌, ◌-◌, ◌*◌, ◌^◌, ◌<◌, ◌≤◌, ℕ, nat_eq, Bool, List, [], ◌++◌, length, None};
ghost use Rattle.std.specs.Option.{unwrap_or};
ghost use Rattle.std.specs.List.{count_by};
ghost use Rattle.std.specs.Cmp.Lexicographic.{pointwise};
ghost use Rattle.std.specs.FinMap.{entries};
ghost use Rattle.trie_model.specs.State.{State, IsState};
ghost use Rattle.trie_model.specs.Tree.{Tree};
ghost use Rattle.trie_model.specs.Texts.{name_of, text, usage};
ghost use Rattle.trie_model.specs.Root.{Table, root, subtree_at, total, zero_digest, digest_occurrences};
ghost use Rattle.visit_model.specs.Keys.{AreByteTexts};
ghost use Rattle.visit_model.specs.Seen.{seen, stated_usage};
ghost use Rattle.batch_model.specs.Changes.{Changes, AreChanges, after, change_rows};
ghost use Rattle.change_model.specs.Places.{touched_places};
ghost use Rattle.change_model.specs.Ledger.{fresh, gain, gone, loss, made_texts};
ghost use Rattle.change_model.specs.Exchange.{count_of_digest, taken_texts};
ghost use Rattle.change_model.specs.Tables.{HoldsPlaces};
ghost use Rattle.change_model.specs.Visits.{batch_visits};
ghost use Rattle.update_model.specs.Tops.{pending, top_digest, top_of, top_usage};
ghost use Rattle.update_model.specs.Updates.{updated};

/// Over a table that has the texts of the touched places, a batch that changes something makes the trie of the state after it: the top is that trie's, and it counts the keys that appear and those that disappear.
pub fn batch_makes_the_later_trie()
    ensures top { (table : Table) (state : State) (changes : Changes) → IsState state → AreChanges changes → change_rows changes ≢ [] → HoldsPlaces table state (touched_places state [] changes) → (updated (seen table (root state)) (change_rows changes)).top ≡ top_of (subtree_at (after state changes) []) }
    ensures fresh { (table : Table) (state : State) (changes : Changes) → IsState state → AreChanges changes → change_rows changes ≢ [] → HoldsPlaces table state (touched_places state [] changes) → (updated (seen table (root state)) (change_rows changes)).fresh ≡ fresh state changes }
    ensures gone { (table : Table) (state : State) (changes : Changes) → IsState state → AreChanges changes → change_rows changes ≢ [] → HoldsPlaces table state (touched_places state [] changes) → (updated (seen table (root state)) (change_rows changes)).gone ≡ gone state changes }
{}

/// From the top of a trie follow the name that a parent has for it, the root and the total.
pub fn root_and_total_by_the_top()
    ensures name { (tree : Tree) → top_digest (top_of tree) ≡ name_of tree (text tree) }
    ensures usage { (tree : Tree) → top_usage (top_of tree) ≡ usage tree }
    ensures root { (state : State) → unwrap_or (top_digest (top_of (subtree_at state []))) zero_digest ≡ root state }
    ensures total { (state : State) → top_usage (top_of (subtree_at state [])) ≡ total state }
{}

/// A batch without changes leaves the state as it is, and there are changes below the root exactly where the batch has some.
pub fn nothing_without_changes()
    ensures state { (state : State) (changes : Changes) → change_rows changes ≡ [] → after state changes ≡ state }
    ensures counts { (state : State) (changes : Changes) → change_rows changes ≡ [] → fresh state changes ≡ 0 × (gone state changes ≡ 0) }
    ensures rows { (changes : Changes) → entries changes ≡ [] → change_rows changes ≡ [] }
{}

/// Over a table that has the texts of the touched places, a batch that changes something makes the texts of the written places and the values that are set, where the record of the new trie's top may still be to be made; and it takes out those of the places that are given up and the former values of the changed keys. Both are said by counts: whatever test a text may pass, as many of those that are made do as of these, and of each digest as many are taken out as of those.
pub fn ledger_over_state()
    ensures made { (table : Table) (state : State) (changes : Changes) (test : List ℕ → Bool) → IsState state → AreChanges changes → change_rows changes ≢ [] → HoldsPlaces table state (touched_places state [] changes) → let o = updated (seen table (root state)) (change_rows changes) in count_by test (o.made ++ pending o.top) ≡ count_by test (made_texts state changes) }
    ensures lost { (table : Table) (state : State) (changes : Changes) (digest : List ℕ) → IsState state → AreChanges changes → change_rows changes ≢ [] → HoldsPlaces table state (touched_places state [] changes) → let o = updated (seen table (root state)) (change_rows changes) in count_by (λ e. pointwise nat_eq e digest) o.lost ≡ count_of_digest digest (taken_texts state changes) }
{}

/// So a digest gains by how much it is made more often than taken out, and loses the other way round. No digest is taken out more often than the state has it, nor made more often than the state afterwards does.
pub fn ledger_is_gain_and_loss()
    ensures gain { (table : Table) (state : State) (changes : Changes) (digest : List ℕ) → IsState state → AreChanges changes → change_rows changes ≢ [] → HoldsPlaces table state (touched_places state [] changes) → let o = updated (seen table (root state)) (change_rows changes) in gain state changes digest ≡ count_of_digest digest (o.made ++ pending o.top) - count_by (λ e. pointwise nat_eq e digest) o.lost }
    ensures loss { (table : Table) (state : State) (changes : Changes) (digest : List ℕ) → IsState state → AreChanges changes → change_rows changes ≢ [] → HoldsPlaces table state (touched_places state [] changes) → let o = updated (seen table (root state)) (change_rows changes) in loss state changes digest ≡ count_by (λ e. pointwise nat_eq e digest) o.lost - count_of_digest digest (o.made ++ pending o.top) }
    ensures balance { (table : Table) (state : State) (changes : Changes) (digest : List ℕ) → IsState state → AreChanges changes → change_rows changes ≢ [] → HoldsPlaces table state (touched_places state [] changes) → let o = updated (seen table (root state)) (change_rows changes) in digest_occurrences (after state changes) digest + count_by (λ e. pointwise nat_eq e digest) o.lost ≡ digest_occurrences state digest + count_of_digest digest (o.made ++ pending o.top) }
    ensures lost { (table : Table) (state : State) (changes : Changes) (digest : List ℕ) → IsState state → AreChanges changes → change_rows changes ≢ [] → HoldsPlaces table state (touched_places state [] changes) → count_by (λ e. pointwise nat_eq e digest) (updated (seen table (root state)) (change_rows changes)).lost ≤ digest_occurrences state digest }
    ensures made { (table : Table) (state : State) (changes : Changes) (digest : List ℕ) → IsState state → AreChanges changes → change_rows changes ≢ [] → HoldsPlaces table state (touched_places state [] changes) → let o = updated (seen table (root state)) (change_rows changes) in count_of_digest digest (o.made ++ pending o.top) ≤ digest_occurrences (after state changes) digest }
{}

/// Over any texts, a stranger's too: where no test of a batch fails, what it makes uses less than 2 ^ 63, and no more than the root states and 2 ^ 24 for each change.
pub fn usages_stay_small()
    ensures small { (table : Table) (root : List ℕ) (changes : Changes) → AreByteTexts table → AreChanges changes → change_rows changes ≢ [] → (batch_visits table root changes).refusal ≡ None → top_usage (updated (seen table root) (change_rows changes)).top < 2 ^ 63 }
    ensures more { (table : Table) (root : List ℕ) (changes : Changes) → AreByteTexts table → AreChanges changes → change_rows changes ≢ [] → (batch_visits table root changes).refusal ≡ None → top_usage (updated (seen table root) (change_rows changes)).top ≤ stated_usage (seen table root) + length (change_rows changes) * 2 ^ 24 }
{}
