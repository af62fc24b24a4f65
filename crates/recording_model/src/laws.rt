//! Laws over the definitions, in other words than theirs. A law is proved where its function is: there is nothing to run.

ghost use Rattle.std.specs.Prelude.{◌≡◌, ℕ, List, [], length, map, None, Some};
ghost use Rattle.std.specs.List.{AllByRecursion};
ghost use Rattle.std.specs.FinMap.{get};
ghost use Rattle.byte_model.specs.Nibbles.{AreBytes};
ghost use Rattle.trie_model.specs.State.{State, IsState};
ghost use Rattle.trie_model.specs.Root.{Table, Holds, NoClash, root, texts_of};
ghost use Rattle.batch_model.specs.Changes.{Changes, AreChanges};
ghost use Rattle.change_model.specs.Places.{touched_places};
ghost use Rattle.change_model.specs.Tables.{HoldsPlaces};
ghost use Rattle.count_model.specs.Loads.{recording_loads};
ghost use Rattle.recording_model.specs.Agreeing.{Agrees, IsTableOf};
ghost use Rattle.recording_model.specs.Replays.{reads_visits, replay_visits, first_spare};
ghost use Rattle.recording_model.specs.Recorded.{recorded_texts};

/// In a table that holds a state, no read is refused, and each is answered with the state's value of its key.
pub fn reads_over_state()
    ensures refusal { (table : Table) (state : State) (reads : List (List ℕ)) → Holds table state → IsState state → AllByRecursion AreBytes reads → (reads_visits table (root state) reads).refusal ≡ None }
    ensures answers { (table : Table) (state : State) (reads : List (List ℕ)) → Holds table state → IsState state → AllByRecursion AreBytes reads → (reads_visits table (root state) reads).answers ≡ map (get state) reads }
{}

/// In such a table neither the reads nor the batch behind them are refused.
pub fn nothing_is_refused_over_state()
    ensures { (table : Table) (state : State) (reads : List (List ℕ)) (changes : Changes) → Holds table state → IsState state → AllByRecursion AreBytes reads → AreChanges changes → (replay_visits table (root state) reads changes).refusal ≡ None }
{}

/// A table that holds a state has no other text under the digest of one of the state's.
pub fn holding_tables_agree()
    ensures { (table : Table) (state : State) → Holds table state → Agrees table state }
{}

/// Over any texts, at the root of a state: where no test fails, and the texts can't be taken for others of the state, each read is answered with the state's value of its key, and the texts of all places that the batch touches are there.
pub fn replays_are_sound()
    ensures answers { (table : Table) (state : State) (reads : List (List ℕ)) (changes : Changes) → IsState state → AllByRecursion AreBytes reads → AreChanges changes → NoClash (texts_of state) → Agrees table state → (replay_visits table (root state) reads changes).refusal ≡ None → (replay_visits table (root state) reads changes).answers ≡ map (get state) reads }
    ensures places { (table : Table) (state : State) (reads : List (List ℕ)) (changes : Changes) → IsState state → AllByRecursion AreBytes reads → AreChanges changes → NoClash (texts_of state) → Agrees table state → (replay_visits table (root state) reads changes).refusal ≡ None → HoldsPlaces table state (touched_places state [] changes) }
{}

/// And where each of these texts, which rise, is visited, they are exactly the recording of the state.
pub fn replays_are_exact()
    ensures { (table : Table) (state : State) (reads : List (List ℕ)) (changes : Changes) (texts : List (List ℕ)) → IsState state → AllByRecursion AreBytes reads → AreChanges changes → NoClash (texts_of state) → Agrees table state → (replay_visits table (root state) reads changes).refusal ≡ None → IsTableOf table texts → first_spare (replay_visits table (root state) reads changes).digests texts ≡ None → texts ≡ recorded_texts state reads changes }
{}

/// And the other way round: over a table of exactly the recording of a state no test fails, and none of the texts is spare.
pub fn recordings_are_replayed()
    ensures refusal { (table : Table) (state : State) (reads : List (List ℕ)) (changes : Changes) → IsState state → AllByRecursion AreBytes reads → AreChanges changes → NoClash (texts_of state) → Agrees table state → IsTableOf table (recorded_texts state reads changes) → (replay_visits table (root state) reads changes).refusal ≡ None }
    ensures spare { (table : Table) (state : State) (reads : List (List ℕ)) (changes : Changes) → IsState state → AllByRecursion AreBytes reads → AreChanges changes → NoClash (texts_of state) → Agrees table state → IsTableOf table (recorded_texts state reads changes) → first_spare (replay_visits table (root state) reads changes).digests (recorded_texts state reads changes) ≡ None }
{}

/// Over a state's texts, reads and a batch visit as many as a recording of them is defined to load.
pub fn recordings_have_a_cost()
    ensures { (table : Table) (state : State) (reads : List (List ℕ)) (changes : Changes) → Holds table state → IsState state → AllByRecursion AreBytes reads → AreChanges changes → length (replay_visits table (root state) reads changes).digests ≡ recording_loads state reads changes }
{}

/// Over more texts, reads and a batch that passed every test visit the same, and are answered alike.
pub fn more_texts_change_nothing()
    ensures { (table full : Table) (root : List ℕ) (reads : List (List ℕ)) (changes : Changes) → ((digest text : List ℕ) → get table digest ≡ Some text → get full digest ≡ Some text) → (replay_visits table root reads changes).refusal ≡ None → replay_visits full root reads changes ≡ replay_visits table root reads changes }
{}
