//! Laws over the definitions, in other words than theirs. A law is proved where its function is: there is nothing to run.

ghost use Rattle.std.specs.Prelude.{◌≡◌, ◌≢◌, ◌≤◌, ◌%◌, ◌^◌, ℕ, Bool, List, [], ◌∷◌, ◌++◌, length, map, filter, flat_map, take, option_map, None};
ghost use Rattle.std.specs.List.{AllByRecursion};
ghost use Rattle.std.specs.List.Sorted.{IsStrictlySortedBy};
ghost use Rattle.std.specs.Ordering.{nat_cmp};
ghost use Rattle.std.specs.Cmp.Lexicographic.{slice_cmp};
ghost use Rattle.std.specs.FinMap.{get, entries, empty, insert};
ghost use Rattle.sha2.specs.Sha256.{sha256};
ghost use Rattle.byte_model.specs.Nibbles.{AreBytes, AreNibbles, nibbles};
ghost use Rattle.byte_model.specs.PackedPath.{longest_path};
ghost use Rattle.trie_model.specs.Root.{Table, Holds, root, subtree_at, text_at, places_of};
ghost use Rattle.trie_model.specs.State.{State, Row, IsState, rows_of};
ghost use Rattle.visit_model.specs.Seen.{seen_at, seen_text, seen};
ghost use Rattle.visit_model.specs.Shown.{shown};
ghost use Rattle.visit_model.specs.Keys.{AreByteTexts, key_of};
ghost use Rattle.visit_model.specs.Bounds.{has_prefix, reaches, at_most_one, IsListed};
ghost use Rattle.visit_model.specs.Listed.{is_listed_place, place_steps};
ghost use Rattle.visit_model.specs.Steps.{listing_steps};
ghost use Rattle.visit_model.specs.Visits.{lookup_visits, listing_visits, top_visits, no_visits, node_first};

/// The bound on the depth never shows.
pub fn seen_by_text()
    ensures { (table : Table) (depth : ℕ) (after_extension : Bool) (digest : List ℕ) → depth ≤ longest_path → seen_at table depth after_extension digest ≡ seen_text (seen_at table) depth after_extension digest (get table digest) }
{}

/// Below the root of a state whose texts are all held, the state's trie is seen.
pub fn seen_of_state()
    ensures { (table : Table) (state : State) → Holds table state → IsState state → seen table (root state) ≡ shown (subtree_at state []) }
{}

/// Over the texts of a state, the lookup of a key visits each place on the key's path once, and then the value, if the state has the key. No test fails.
pub fn lookup_over_state()
    ensures digests { (table : Table) (state : State) (key : List ℕ) → Holds table state → IsState state → AreBytes key → (lookup_visits table (root state) key).digests ≡ map (λ place. sha256 (text_at state place)) (filter (has_prefix (nibbles key)) (places_of state)) ++ at_most_one (option_map sha256 (get state key)) }
    ensures values { (table : Table) (state : State) (key : List ℕ) → Holds table state → IsState state → AreBytes key → (lookup_visits table (root state) key).values ≡ at_most_one (option_map (λ value. (nibbles key, value)) (get state key)) }
    ensures refusal { (table : Table) (state : State) (key : List ℕ) → Holds table state → IsState state → AreBytes key → (lookup_visits table (root state) key).refusal ≡ None }
{}

/// Over the texts of a state, a listing gives the first pairs whose keys are not below the key from which it starts. No test fails.
pub fn listing_over_state()
    ensures rows { (table : Table) (state : State) (from : List ℕ) (most : ℕ) → Holds table state → IsState state → (listing_visits table (root state) from most).values ≡ take most (filter (λ row. reaches (nibbles from) row.0) (rows_of state)) }
    ensures pairs { (table : Table) (state : State) (from : List ℕ) (most : ℕ) → Holds table state → IsState state → (listing_visits table (root state) from most).values ≡ map (λ pair. (nibbles pair.0, pair.1)) (take most (filter (λ pair. reaches from pair.0) (entries state))) }
    ensures refusal { (table : Table) (state : State) (from : List ℕ) (most : ℕ) → Holds table state → IsState state → (listing_visits table (root state) from most).refusal ≡ None }
{}

/// Over the texts of a state, a listing goes through the places on the way to the key from which it starts and those that are not below it, in the order of places, and at each visits the node and then the value, if its key is not below.
pub fn listing_by_places()
    ensures { (table : Table) (state : State) (from : List ℕ) → Holds table state → IsState state → listing_steps (seen table (root state)) [] (nibbles from) ≡ flat_map (place_steps state (nibbles from)) (filter (is_listed_place (nibbles from)) (places_of state)) }
{}

/// Over any texts, the rows of a listing rise by path, there are at most so many as were asked for, and each keeps to the limits.
pub fn listing_rises()
    ensures rising { (table : Table) (root from : List ℕ) (most : ℕ) → IsStrictlySortedBy (slice_cmp nat_cmp) (map (λ row. row.0) (listing_visits table root from most).values) }
    ensures count { (table : Table) (root from : List ℕ) (most : ℕ) → length (listing_visits table root from most).values ≤ most }
    ensures rows { (table : Table) (root from : List ℕ) (most : ℕ) → AllByRecursion (IsListed (nibbles from)) (listing_visits table root from most).values }
{}

/// Over any texts of bytes, the rows of a listing are those of nibbles and bytes, and of some state.
pub fn listing_gives_a_state()
    ensures bytes { (table : Table) (root from : List ℕ) (most : ℕ) → AreByteTexts table → AllByRecursion (λ row. AreNibbles row.0 × AreBytes row.1) (listing_visits table root from most).values }
    ensures state { (table : Table) (root from : List ℕ) (most : ℕ) → AreByteTexts table → most ≤ 2 ^ 32 → (state : State) × IsState state × (rows_of state ≡ (listing_visits table root from most).values) }
{}

/// The nibbles of whole bytes are those of one key.
pub fn paths_have_keys()
    ensures same { (path : List ℕ) → AreNibbles path → length path % 2 ≡ 0 → nibbles (key_of path) ≡ path }
    ensures bytes { (path : List ℕ) → AreNibbles path → AreBytes (key_of path) }
{}

/// Where rows rise, a pair of theirs is put behind the pairs of those before it.
pub fn rising_rows_are_put_at_the_end()
    ensures pairs { (state : State) (key value : List ℕ) (rows : List Row) → IsStrictlySortedBy (slice_cmp nat_cmp) (map (λ row. row.0) (rows_of state ++ (nibbles key, value) ∷ rows)) → entries (insert state key value) ≡ entries state ++ (key, value) ∷ [] }
    ensures rows { (state : State) (key value : List ℕ) (rows : List Row) → IsStrictlySortedBy (slice_cmp nat_cmp) (map (λ row. row.0) (rows_of state ++ (nibbles key, value) ∷ rows)) → rows_of (insert state key value) ≡ rows_of state ++ (nibbles key, value) ∷ [] }
{}

/// The visit of the root of a state is that of one text, and of none where the state is empty.
pub fn top_over_state()
    ensures empty { (table : Table) → top_visits table (root empty) ≡ no_visits }
    ensures some { (table : Table) (state : State) → Holds table state → IsState state → state ≢ empty → top_visits table (root state) ≡ node_first (root state) no_visits }
{}
