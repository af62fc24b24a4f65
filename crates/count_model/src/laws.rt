//! Laws over the definitions, in other words than theirs. A law is proved where its function is: there is nothing to run.

ghost use Rattle.std.specs.Prelude.{◌≡◌, ◌≢◌, ◌+◌, ◌-◌, ◌*◌, ◌^◌, ◌<◌, ◌≤◌, ◌↔◌, ◌⊎◌, ℕ, nat_lt, true, false, List, [], ◌∷◌, ◌++◌, length, map, flat_map, Contains, sum_by, None, Some};
ghost use Rattle.std.specs.List.{AllByRecursion};
ghost use Rattle.std.specs.Option.{IsSomeAnd};
ghost use Rattle.std.specs.FinMap.{contains_key, empty, entries, get, len};
ghost use Rattle.std.specs.List.Sorted.{IsStrictlySortedBy};
ghost use Rattle.std.specs.Ordering.{nat_cmp};
ghost use Rattle.std.specs.Cmp.Lexicographic.{slice_cmp};
ghost use Rattle.std.specs.Str.{bytes_eq};
ghost use Rattle.sha2.specs.Sha256.{sha256};
ghost use Rattle.byte_model.specs.Nibbles.{AreBytes};
ghost use Rattle.trie_model.specs.State.{State, IsState};
ghost use Rattle.trie_model.specs.Root.{Holds, NoClash, Table, digest_occurrences, occurrences, root, texts_of, zero_digest};
ghost use Rattle.visit_model.specs.Visits.{lookup_visits, top_visits};
ghost use Rattle.batch_model.specs.Changes.{AreChanges, Changes, after};
ghost use Rattle.change_model.specs.Ledger.{gain, loss, made_texts};
ghost use Rattle.change_model.specs.Places.{touched_places};
ghost use Rattle.change_model.specs.Tables.{HoldsPlaces};
ghost use Rattle.change_model.specs.Visits.{batch_visits};
ghost use Rattle.fork_model.specs.Trees.{BlockFault, Header, block_fault, dropped, is_live, passed};
ghost use Rattle.fork_model.specs.States.{Block, ForkState, IsForkState, block_at, first_fork, head_moved, state_at, tree_of_blocks, with_block};
ghost use Rattle.count_model.specs.Counts.{Measure, count, counted, digest_count, fall, in_state, of_digest, of_text, rise, taken_away};
ghost use Rattle.count_model.specs.BlockEnds.{block_end};
ghost use Rattle.count_model.specs.BlockEnds.BlockEnd.{accepted, clashing, faulty, too_many};
ghost use Rattle.count_model.specs.Clashes.{clash_with, clash_within, live_clash, made_clash};
ghost use Rattle.count_model.specs.Laws.{ClashesWith, IsLeast, IsShared};
ghost use Rattle.count_model.specs.Entries.{Entry, Exceeds, times_of};
ghost use Rattle.count_model.specs.Loads.{batch_loads, lookup_loads, usage_loads};
ghost use Rattle.count_model.specs.Tables.{AreStates, HoldsCounted, distinct_texts, live_texts};

// ---- counts, as blocks are accepted and the head moves

/// At the start nothing is counted.
pub fn nothing_is_counted_at_the_start()
    ensures texts { (t : List ℕ) → count first_fork t ≡ 0 }
    ensures digests { (digest : List ℕ) → digest_count first_fork digest ≡ 0 }
    ensures live { live_texts first_fork ≡ [] }
{}

/// A block that is accepted raises a count by as much as its state has more than its prev's, and leaves the others. So a digest's count is raised by what the block's changes gain of it.
pub fn a_block_adds_what_it_gains()
    ensures texts { (most : ℕ) (forks : ForkState) (header : Header) (changes : Changes) (prev : State) (t : List ℕ) → IsForkState forks → block_fault most (tree_of_blocks forks) header ≡ None → state_at forks header.prev ≡ Some prev → count (with_block forks header changes) t ≡ count forks t + (occurrences (after prev changes) t - occurrences prev t) }
    ensures digests { (most : ℕ) (forks : ForkState) (header : Header) (changes : Changes) (prev : State) (digest : List ℕ) → IsForkState forks → block_fault most (tree_of_blocks forks) header ≡ None → state_at forks header.prev ≡ Some prev → digest_count (with_block forks header changes) digest ≡ digest_count forks digest + gain prev changes digest }
{}

/// A move of the head lowers a count by what the passed blocks have less than their prevs, and by what the dropped ones had more, and leaves the others.
pub fn a_move_takes_losses_and_dropped_gains()
    ensures texts { (forks : ForkState) (id t : List ℕ) → IsForkState forks → is_live (tree_of_blocks forks) id ≡ true → count (head_moved forks id) t + (sum_by (fall (of_text t) forks) (passed (tree_of_blocks forks) id) + sum_by (rise (of_text t) forks) (dropped (tree_of_blocks forks) id)) ≡ count forks t }
    ensures digests { (forks : ForkState) (id digest : List ℕ) → IsForkState forks → is_live (tree_of_blocks forks) id ≡ true → digest_count (head_moved forks id) digest + taken_away (of_digest digest) forks id ≡ digest_count forks digest }
{}

/// What a live block has more of a digest than its prev, or less, is what the changes that it keeps gain of it over its prev's state, or lose. The head counts as all that its state has.
pub fn rises_and_falls_are_gains_and_losses()
    ensures gain { (forks : ForkState) (id digest : List ℕ) (block : Block) (prev : State) → IsForkState forks → bytes_eq id forks.head ≡ false → block_at forks.blocks id ≡ Some block → state_at forks block.header.prev ≡ Some prev → rise (of_digest digest) forks id ≡ gain prev block.changes digest }
    ensures loss { (forks : ForkState) (id digest : List ℕ) (block : Block) (prev : State) → IsForkState forks → bytes_eq id forks.head ≡ false → block_at forks.blocks id ≡ Some block → state_at forks block.header.prev ≡ Some prev → fall (of_digest digest) forks id ≡ loss prev block.changes digest }
    ensures head { (measure : Measure) (forks : ForkState) → (rise measure forks forks.head ≡ in_state measure (state_at forks forks.head)) × (fall measure forks forks.head ≡ 0) }
{}

/// What a live block has more or less than its prev stays as it is, while other blocks are accepted and the head moves to another block.
pub fn rises_and_falls_stay()
    ensures block { (measure : Measure) (most : ℕ) (forks : ForkState) (header : Header) (changes : Changes) (prev : State) → IsForkState forks → block_fault most (tree_of_blocks forks) header ≡ None → state_at forks header.prev ≡ Some prev → (id : List ℕ) → is_live (tree_of_blocks forks) id ≡ true → bytes_eq id forks.head ≡ false → (rise measure (with_block forks header changes) id ≡ rise measure forks id) × (fall measure (with_block forks header changes) id ≡ fall measure forks id) }
    ensures new { (measure : Measure) (most : ℕ) (forks : ForkState) (header : Header) (changes : Changes) (prev : State) → IsForkState forks → block_fault most (tree_of_blocks forks) header ≡ None → state_at forks header.prev ≡ Some prev → (rise measure (with_block forks header changes) header.id ≡ measure (after prev changes) - measure prev) × (fall measure (with_block forks header changes) header.id ≡ measure prev - measure (after prev changes)) }
    ensures moved { (measure : Measure) (forks : ForkState) (head id : List ℕ) → IsForkState forks → is_live (tree_of_blocks forks) head ≡ true → is_live (tree_of_blocks (head_moved forks head)) id ≡ true → bytes_eq id head ≡ false → (rise measure (head_moved forks head) id ≡ rise measure forks id) × (fall measure (head_moved forks head) id ≡ fall measure forks id) }
{}

/// What is counted are the texts of live blocks, and no state has more of a text or a digest than is counted.
pub fn texts_of_live_blocks_are_counted()
    ensures texts { (forks : ForkState) (t : List ℕ) → IsForkState forks → (1 ≤ count forks t) ↔ Contains (live_texts forks) t }
    ensures digests { (forks : ForkState) (digest : List ℕ) → IsForkState forks → (1 ≤ digest_count forks digest) ↔ ((t : List ℕ) × Contains (live_texts forks) t × (sha256 t ≡ digest)) }
    ensures states { (forks : ForkState) (id t : List ℕ) (state : State) → IsForkState forks → state_at forks id ≡ Some state → Contains (texts_of state) t → Contains (live_texts forks) t }
    ensures most { (measure : Measure) (forks : ForkState) (id : List ℕ) (state : State) → IsForkState forks → state_at forks id ≡ Some state → measure state ≤ counted measure forks }
{}

// ---- tables

/// A table that has exactly the counted texts holds the state of each live block, and has something under a digest exactly where the digest is counted. It has as many texts as the live blocks have different ones. No two texts of live blocks clash then. And a table that holds each live state, and has nothing under a digest that is not counted, is one.
pub fn counted_texts_hold_live_states()
    ensures holds { (table : Table) (forks : ForkState) (id : List ℕ) (state : State) → IsForkState forks → HoldsCounted table forks → state_at forks id ≡ Some state → Holds table state }
    ensures no_clash { (table : Table) (forks : ForkState) → IsForkState forks → HoldsCounted table forks → NoClash (live_texts forks) }
    ensures digests { (table : Table) (forks : ForkState) (digest : List ℕ) → IsForkState forks → HoldsCounted table forks → contains_key table digest ≡ nat_lt 0 (digest_count forks digest) }
    ensures distinct { (table : Table) (forks : ForkState) → IsForkState forks → HoldsCounted table forks → len table ≡ distinct_texts forks }
    ensures exactly { (table : Table) (forks : ForkState) → IsForkState forks → AllByRecursion (λ block. Holds table block.state) forks.blocks → ((digest t : List ℕ) → get table digest ≡ Some t → 1 ≤ digest_count forks digest) → HoldsCounted table forks }
{}

/// Over such a table two live blocks have one root exactly where they have one state.
pub fn equal_roots_mean_equal_live_states()
    ensures { (table : Table) (forks : ForkState) (a b : List ℕ) (m n : State) → IsForkState forks → AreStates forks → HoldsCounted table forks → state_at forks a ≡ Some m → state_at forks b ≡ Some n → (root m ≡ root n) ↔ (m ≡ n) }
{}

/// The texts of the state after a batch are texts of the state before it or made by the batch, and what is made is among them. A digest that gains is that of a text that is made, and a text that is made gains where a table of the counted texts does not have it. So a table that holds the state before and each text that is made holds the state afterwards.
pub fn made_texts_complete_a_state()
    ensures texts { (state : State) (changes : Changes) (t : List ℕ) → Contains (texts_of (after state changes)) t → Contains (texts_of state) t ⊎ Contains (made_texts state changes) t }
    ensures made { (state : State) (changes : Changes) (t : List ℕ) → Contains (made_texts state changes) t → Contains (texts_of (after state changes)) t }
    ensures gained { (state : State) (changes : Changes) (digest : List ℕ) → 1 ≤ gain state changes digest → (t : List ℕ) × Contains (made_texts state changes) t × (sha256 t ≡ digest) }
    ensures unheld { (table : Table) (forks : ForkState) (id : List ℕ) (state : State) (changes : Changes) (t : List ℕ) → IsForkState forks → HoldsCounted table forks → state_at forks id ≡ Some state → Contains (made_texts state changes) t → get table (sha256 t) ≡ None → 1 ≤ gain state changes (sha256 t) }
    ensures holds { (table : Table) (state : State) (changes : Changes) → Holds table state → ((t : List ℕ) → Contains (made_texts state changes) t → (get table (sha256 t) ≡ Some t) × (sha256 t ≢ zero_digest)) → Holds table (after state changes) }
    ensures later { (table later : Table) (state : State) → Holds table state → ((t : List ℕ) → Contains (texts_of state) t → get later (sha256 t) ≡ get table (sha256 t)) → Holds later state }
{}

/// A table keeps exactly the counted texts where it is changed with the live blocks: at the start it is empty; with a block it keeps what it has and gets the texts that are made; behind a move it has nothing new; and each time it has something under a digest exactly where that is counted then.
pub fn tables_follow_blocks()
    ensures start { HoldsCounted empty first_fork }
    ensures block { (table later : Table) (most : ℕ) (forks : ForkState) (header : Header) (changes : Changes) (prev : State) → IsForkState forks → block_fault most (tree_of_blocks forks) header ≡ None → state_at forks header.prev ≡ Some prev → HoldsCounted table forks → ((digest t : List ℕ) → get table digest ≡ Some t → get later digest ≡ Some t) → ((t : List ℕ) → Contains (made_texts prev changes) t → get later (sha256 t) ≡ Some t) → get later zero_digest ≡ None → ((digest : List ℕ) → contains_key later digest ≡ nat_lt 0 (digest_count (with_block forks header changes) digest)) → HoldsCounted later (with_block forks header changes) }
    ensures moved { (table later : Table) (forks : ForkState) (id : List ℕ) → IsForkState forks → is_live (tree_of_blocks forks) id ≡ true → HoldsCounted table forks → ((digest t : List ℕ) → get later digest ≡ Some t → get table digest ≡ Some t) → ((digest : List ℕ) → contains_key later digest ≡ nat_lt 0 (digest_count (head_moved forks id) digest)) → HoldsCounted later (head_moved forks id) }
{}

// ---- texts and digests

/// Where no other text has a text's digest, the digest occurs as often as the text, and so it is with gains, losses and counts. So it is for each text of a table that has exactly the counted texts, and neither is counted where such a table has nothing under the digest.
pub fn texts_and_digests_count_alike()
    ensures state { (state : State) (t : List ℕ) → NoClash (t ∷ texts_of state) → digest_occurrences state (sha256 t) ≡ occurrences state t }
    ensures gain { (state : State) (changes : Changes) (t : List ℕ) → NoClash (t ∷ texts_of state ++ texts_of (after state changes)) → gain state changes (sha256 t) ≡ occurrences (after state changes) t - occurrences state t }
    ensures loss { (state : State) (changes : Changes) (t : List ℕ) → NoClash (t ∷ texts_of state ++ texts_of (after state changes)) → loss state changes (sha256 t) ≡ occurrences state t - occurrences (after state changes) t }
    ensures forks { (forks : ForkState) (t : List ℕ) → NoClash (t ∷ live_texts forks) → digest_count forks (sha256 t) ≡ count forks t }
    ensures held { (table : Table) (forks : ForkState) (t : List ℕ) → IsForkState forks → HoldsCounted table forks → get table (sha256 t) ≡ Some t → digest_count forks (sha256 t) ≡ count forks t }
    ensures unheld { (table : Table) (forks : ForkState) (t : List ℕ) → IsForkState forks → HoldsCounted table forks → get table (sha256 t) ≡ None → (digest_count forks (sha256 t) ≡ 0) × (count forks t ≡ 0) }
{}

// ---- entry by entry

/// Entries that rise by their digests tell a number for each digest, where each entry tells its own and no digest is left out that has one. What a move takes away is told by the entries of the losses of the blocks that it passes, and of the gains of those that it drops.
pub fn entries_tell_numbers()
    ensures once { (number : List ℕ → ℕ) (entries : List Entry) (digest : List ℕ) → IsStrictlySortedBy (slice_cmp nat_cmp) (map (λ entry. entry.0) entries) → AllByRecursion (λ entry. entry.1 ≡ number entry.0) entries → ((d : List ℕ) → 1 ≤ number d → Contains (map (λ entry. entry.0) entries) d) → times_of entries digest ≡ number digest }
    ensures moved { (forks : ForkState) (id : List ℕ) (lost made : List ℕ → List Entry) (digest : List ℕ) → ((q : List ℕ) → Contains (passed (tree_of_blocks forks) id) q → times_of (lost q) digest ≡ fall (of_digest digest) forks q) → ((q : List ℕ) → Contains (dropped (tree_of_blocks forks) id) q → times_of (made q) digest ≡ rise (of_digest digest) forks q) → times_of (flat_map lost (passed (tree_of_blocks forks) id) ++ flat_map made (dropped (tree_of_blocks forks) id)) digest ≡ taken_away (of_digest digest) forks id }
{}

/// On the way down from the counts before a move to those behind it, entry by entry: each entry can be released, and what is held stands between the two.
pub fn counts_go_down_entry_by_entry()
    ensures begins { (forks : ForkState) (id : List ℕ) (left : List Entry) → IsForkState forks → is_live (tree_of_blocks forks) id ≡ true → ((digest : List ℕ) → times_of left digest ≡ taken_away (of_digest digest) forks id) → Exceeds (digest_count (head_moved forks id)) (digest_count forks) left }
    ensures enough { (low held : List ℕ → ℕ) (digest : List ℕ) (n : ℕ) (left : List Entry) → Exceeds low held ((digest, n) ∷ left) → n ≤ held digest }
    ensures step { (low held : List ℕ → ℕ) (digest : List ℕ) (n : ℕ) (left : List Entry) → Exceeds low held ((digest, n) ∷ left) → (next : List ℕ → ℕ) → next digest ≡ held digest - n → ((other : List ℕ) → other ≢ digest → next other ≡ held other) → Exceeds low next left }
    ensures between { (low first held : List ℕ → ℕ) (done left : List Entry) → Exceeds low first (done ++ left) → Exceeds low held left → (digest : List ℕ) → (low digest ≤ held digest) × (held digest ≤ first digest) }
    ensures end { (low held : List ℕ → ℕ) → Exceeds low held [] → (digest : List ℕ) → low digest ≡ held digest }
{}

/// And on the way up from the counts before a block to those with it: none goes past the latter.
pub fn counts_go_up_entry_by_entry()
    ensures begins { (most : ℕ) (forks : ForkState) (header : Header) (changes : Changes) (prev : State) (left : List Entry) → IsForkState forks → block_fault most (tree_of_blocks forks) header ≡ None → state_at forks header.prev ≡ Some prev → ((digest : List ℕ) → times_of left digest ≡ gain prev changes digest) → Exceeds (digest_count forks) (digest_count (with_block forks header changes)) left }
    ensures fits { (held high : List ℕ → ℕ) (digest : List ℕ) (n : ℕ) (left : List Entry) → Exceeds held high ((digest, n) ∷ left) → held digest + n ≤ high digest }
    ensures step { (held high : List ℕ → ℕ) (digest : List ℕ) (n : ℕ) (left : List Entry) → Exceeds held high ((digest, n) ∷ left) → (next : List ℕ → ℕ) → next digest ≡ held digest + n → ((other : List ℕ) → other ≢ digest → next other ≡ held other) → Exceeds next high left }
    ensures between { (first held high : List ℕ → ℕ) (done left : List Entry) → Exceeds first high (done ++ left) → Exceeds held high left → (digest : List ℕ) → (first digest ≤ held digest) × (held digest ≤ high digest) }
    ensures end { (held high : List ℕ → ℕ) → Exceeds held high [] → (digest : List ℕ) → held digest ≡ high digest }
{}

// ---- limits

/// The states of live blocks keep to the limits, where those of the blocks' changes do and no state has too many pairs.
pub fn live_states_keep_to_limits()
    ensures start { AreStates first_fork }
    ensures block { (forks : ForkState) (header : Header) (changes : Changes) (prev : State) → AreStates forks → AreChanges changes → state_at forks header.prev ≡ Some prev → length (entries (after prev changes)) ≤ 2 ^ 32 → AreStates (with_block forks header changes) }
    ensures moved { (forks : ForkState) (id : List ℕ) → AreStates forks → AreStates (head_moved forks id) }
    ensures states { (forks : ForkState) (id : List ℕ) (state : State) → AreStates forks → state_at forks id ≡ Some state → IsState state }
{}

// ---- clashes

/// The least name is told that two different texts have, or that is zero, and none exactly where there is no such name.
pub fn least_clashes_are_told()
    ensures within { (name : List ℕ → List ℕ) (made : List (List ℕ)) (digest : List ℕ) → (clash_within name made ≡ Some digest) ↔ IsLeast (IsShared name made made) digest }
    ensures none_within { (name : List ℕ → List ℕ) (made : List (List ℕ)) → (clash_within name made ≡ None) ↔ ((digest : List ℕ) → IsShared name made made digest → ⊥) }
    ensures with_held { (name : List ℕ → List ℕ) (held made : List (List ℕ)) (digest : List ℕ) → (clash_with name held made ≡ Some digest) ↔ IsLeast (ClashesWith name held made) digest }
    ensures none_with_held { (name : List ℕ → List ℕ) (held made : List (List ℕ)) → (clash_with name held made ≡ None) ↔ ((digest : List ℕ) → ClashesWith name held made digest → ⊥) }
{}

/// Where the live texts do not clash, and a block's texts neither with each other nor with them, the live texts with the block do not clash. A move takes texts away alone, and the texts of a batch that changes nothing are there already.
pub fn where_nothing_clashes()
    ensures block { (forks : ForkState) (header : Header) (changes : Changes) (prev : State) → state_at forks header.prev ≡ Some prev → NoClash (live_texts forks) → made_clash prev changes ≡ None → live_clash forks prev changes ≡ None → NoClash (live_texts (with_block forks header changes)) }
    ensures moved { (forks : ForkState) (id : List ℕ) → NoClash (live_texts forks) → NoClash (live_texts (head_moved forks id)) }
    ensures unchanged { (forks : ForkState) (id : List ℕ) (prev : State) (changes : Changes) → state_at forks id ≡ Some prev → after prev changes ≡ prev → NoClash (live_texts forks) → (made_clash prev changes ≡ None) × (live_clash forks prev changes ≡ None) }
{}

/// Texts clash with those of live blocks where one of them does. And in a table that has exactly the counted texts that one meets another text under its digest, or its digest is zero.
pub fn clashes_are_met_in_a_table()
    ensures one { (name : List ℕ → List ℕ) (held made : List (List ℕ)) (digest : List ℕ) → ClashesWith name held made digest ↔ ((t : List ℕ) × Contains made t × ClashesWith name held (t ∷ []) digest) }
    ensures table { (table : Table) (forks : ForkState) (t : List ℕ) → IsForkState forks → HoldsCounted table forks → ((sha256 t ≡ zero_digest) ⊎ IsSomeAnd (get table (sha256 t)) (λ other. other ≢ t)) ↔ ClashesWith sha256 (live_texts forks) (t ∷ []) (sha256 t) }
{}

/// Texts in the order of their names share none, and of such texts the first that clashes with those held has the least name.
pub fn clashes_in_rising_order()
    ensures within { (name : List ℕ → List ℕ) (made texts : List (List ℕ)) → IsStrictlySortedBy (slice_cmp nat_cmp) (map name texts) → ((t : List ℕ) → Contains made t → Contains texts t) → clash_within name made ≡ None }
    ensures none { (name : List ℕ → List ℕ) (held made texts : List (List ℕ)) → ((t : List ℕ) → Contains made t → Contains texts t) → ((t : List ℕ) → Contains texts t → ClashesWith name held (t ∷ []) (name t) → ⊥) → clash_with name held made ≡ None }
    ensures first { (name : List ℕ → List ℕ) (held made done left : List (List ℕ)) (t : List ℕ) → IsStrictlySortedBy (slice_cmp nat_cmp) (map name (done ++ t ∷ left)) → ((u : List ℕ) → Contains made u → Contains (done ++ t ∷ left) u) → Contains made t → ((u : List ℕ) → Contains done u → ClashesWith name held (u ∷ []) (name u) → ⊥) → ClashesWith name held (t ∷ []) (name t) → clash_with name held made ≡ Some (name t) }
{}

/// What comes of a block, cause by cause.
pub fn blocks_end_by_their_first_cause()
    ensures fault { (most_pairs most_blocks : ℕ) (forks : ForkState) (header : Header) (changes : Changes) (fault : BlockFault) → block_fault most_blocks (tree_of_blocks forks) header ≡ Some fault → block_end most_pairs most_blocks forks header changes ≡ faulty fault }
    ensures made { (most_pairs most_blocks : ℕ) (forks : ForkState) (header : Header) (changes : Changes) (prev : State) → block_fault most_blocks (tree_of_blocks forks) header ≡ None → state_at forks header.prev ≡ Some prev → (digest : List ℕ) → made_clash prev changes ≡ Some digest → block_end most_pairs most_blocks forks header changes ≡ clashing digest }
    ensures full { (most_pairs most_blocks : ℕ) (forks : ForkState) (header : Header) (changes : Changes) (prev : State) → block_fault most_blocks (tree_of_blocks forks) header ≡ None → state_at forks header.prev ≡ Some prev → made_clash prev changes ≡ None → most_pairs < len (after prev changes) → block_end most_pairs most_blocks forks header changes ≡ too_many }
    ensures live { (most_pairs most_blocks : ℕ) (forks : ForkState) (header : Header) (changes : Changes) (prev : State) → block_fault most_blocks (tree_of_blocks forks) header ≡ None → state_at forks header.prev ≡ Some prev → made_clash prev changes ≡ None → len (after prev changes) ≤ most_pairs → (digest : List ℕ) → live_clash forks prev changes ≡ Some digest → block_end most_pairs most_blocks forks header changes ≡ clashing digest }
    ensures accepted { (most_pairs most_blocks : ℕ) (forks : ForkState) (header : Header) (changes : Changes) (prev : State) → block_fault most_blocks (tree_of_blocks forks) header ≡ None → state_at forks header.prev ≡ Some prev → made_clash prev changes ≡ None → len (after prev changes) ≤ most_pairs → live_clash forks prev changes ≡ None → block_end most_pairs most_blocks forks header changes ≡ accepted (after prev changes) }
{}

// ---- bounds

/// A state has at most four texts for each pair: three places, and the value. So a count is at most four times the pairs of all live states, and of up to 4,096 live blocks it is far below the end of eight bytes.
pub fn counts_are_bounded()
    ensures state { (state : State) → IsState state → length (texts_of state) ≤ 4 * length (entries state) }
    ensures texts { (most : ℕ) (forks : ForkState) (t : List ℕ) → IsForkState forks → AreStates forks → AllByRecursion (λ block. length (entries block.state) ≤ most) forks.blocks → count forks t ≤ length forks.blocks * (4 * most) }
    ensures digests { (most : ℕ) (forks : ForkState) (digest : List ℕ) → IsForkState forks → AreStates forks → AllByRecursion (λ block. length (entries block.state) ≤ most) forks.blocks → digest_count forks digest ≤ length forks.blocks * (4 * most) }
    ensures small_texts { (forks : ForkState) (t : List ℕ) → IsForkState forks → AreStates forks → length forks.blocks ≤ 4096 → count forks t ≤ 2 ^ 46 }
    ensures small_digests { (forks : ForkState) (digest : List ℕ) → IsForkState forks → AreStates forks → length forks.blocks ≤ 4096 → digest_count forks digest ≤ 2 ^ 46 }
{}

// ---- loads

/// Over a table that holds a state, what is loaded is what a reading or a batch visits there, one text for each visit. So the texts of the places that are touched are all there.
pub fn loads_are_visits()
    ensures lookup { (table : Table) (state : State) (key : List ℕ) → Holds table state → IsState state → AreBytes key → length (lookup_visits table (root state) key).digests ≡ lookup_loads state key }
    ensures usage { (table : Table) (state : State) → Holds table state → IsState state → length (top_visits table (root state)).digests ≡ usage_loads state }
    ensures batch { (table : Table) (state : State) (changes : Changes) → Holds table state → IsState state → AreChanges changes → length (batch_visits table (root state) changes).digests ≡ batch_loads state changes }
    ensures places { (table : Table) (state : State) (reads : List (List ℕ)) (changes : Changes) → Holds table state → HoldsPlaces table state (touched_places state reads changes) }
{}
