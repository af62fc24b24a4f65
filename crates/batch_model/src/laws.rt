//! Laws over the definitions, in other words than theirs. A law is proved where its function is: there is nothing to run.

ghost use Rattle.std.specs.Prelude.{◌≡◌, ℕ, List};
ghost use Rattle.std.specs.List.{AllByRecursion};
ghost use Rattle.std.specs.FinMap.{get, entries};
ghost use Rattle.trie_model.specs.State.{State, IsState, IsPair};
ghost use Rattle.batch_model.specs.Changes.{Changes, AreChanges, after, decided};

/// After a batch a changed key has what it was changed to, and every other key what it had. Keys and values stay within the limits.
pub fn last_change_decides()
    ensures values { (state : State) (changes : Changes) (key : List ℕ) → get (after state changes) key ≡ decided (get changes key) (get state key) }
    ensures pairs { (state : State) (changes : Changes) → IsState state → AreChanges changes → AllByRecursion IsPair (entries (after state changes)) }
{}
