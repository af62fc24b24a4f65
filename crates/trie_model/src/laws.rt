//! Laws over the definitions, in other words than theirs. A law is proved where its function is: there is nothing to run.

ghost use Rattle.std.specs.Prelude.{◌≡◌, ◌≢◌, ◌+◌, ◌^◌, ◌<◌, ◌≤◌, ◌↔◌, ℕ, List, [], ◌∷◌, ◌++◌, sum_by, filter_map, Contains, Option, IfSome};
ghost use Rattle.std.specs.Ordering.{nat_cmp};
ghost use Rattle.std.specs.List.Sorted.{IsStrictlySortedBy};
ghost use Rattle.std.specs.Cmp.Lexicographic.{slice_cmp};
ghost use Rattle.std.specs.FinMap.{empty};
ghost use Rattle.sha2.specs.Sha256.{sha256};
ghost use Rattle.byte_model.specs.Node.{IsShaped, own_cost, spelled};
ghost use Rattle.byte_model.specs.Laws.{FitsRecord};
ghost use Rattle.trie_model.specs.State.{State, Row, IsState, rows_of};
ghost use Rattle.trie_model.specs.Tree.{Tree, branch, below, common_prefix, longest, tree_by, tree_of, tree_within};
ghost use Rattle.trie_model.specs.Grown.{AllHavePrefix, grown, here, spread, under};
ghost use Rattle.trie_model.specs.Texts.{node_of, top_cost, usage};
ghost use Rattle.trie_model.specs.Root.{NoClash, Holds, Table, places_of, root, subtree_at, text_at, texts_of, total, zero_digest};
ghost use Rattle.trie_model.specs.Laws.{ChildrenArePlaces, NamesChildren, children_usage, held_at};

/// The bound on the depth never shows: the trie of some rows is given by the three cases over the tries of the rows below, and every bound above the longest path gives it.
pub fn trie_by_three_cases()
    ensures cases { (rows : List Row) → tree_by tree_of rows ≡ tree_of rows }
    ensures bounds { (depth : ℕ) (rows : List Row) → longest rows < depth → tree_within depth rows ≡ tree_of rows }
{}

/// What lies below a path is told step by step, and nibbles that are put before paths are taken off by going below them.
pub fn rows_below_a_path()
    ensures none { (rows : List Row) → below [] rows ≡ rows }
    ensures further { (p q : List ℕ) (rows : List Row) → below (p ++ q) rows ≡ below q (below p rows) }
    ensures under { (prefix : List ℕ) (rows : List Row) → below prefix (under prefix rows) ≡ rows }
    ensures all { (prefix : List ℕ) (rows : List Row) → AllHavePrefix prefix rows → under prefix (below prefix rows) ≡ rows }
    ensures subtree { (state : State) (p q : List ℕ) → subtree_at state (p ++ q) ≡ tree_of (below q (below p (rows_of state))) }
{}

/// The trie of rows with nibbles before each path is the trie of the rows, grown by these nibbles. So is the trie of rows that all have a prefix, from that of the rows below it.
pub fn trie_of_rows_under_nibbles()
    ensures under { (nibbles : List ℕ) (rows : List Row) → tree_of (under nibbles rows) ≡ grown nibbles (tree_of rows) }
    ensures prefix { (prefix : List ℕ) (rows : List Row) → AllHavePrefix prefix rows → tree_of rows ≡ grown prefix (tree_of (below prefix rows)) }
    ensures twice { (p q : List ℕ) (tree : Tree) → grown p (grown q tree) ≡ grown (p ++ q) tree }
{}

/// Rows fork where they share no prefix, as where one ends. Their trie is then a branch, with the value that ends and the tries of the rows behind each nibble.
pub fn trie_of_rows_that_fork()
    ensures ends { (row : Row) (rows : List Row) → row.0 ≡ [] → common_prefix row rows ≡ [] }
    ensures branch { (kids : ℕ → List Row) (value : Option (List ℕ)) (row next : Row) (rows : List Row) → ((x : ℕ) → 16 ≤ x → kids x ≡ []) → here value ++ spread kids 16 ≡ row ∷ next ∷ rows → common_prefix row (next ∷ rows) ≡ [] → tree_of (here value ++ spread kids 16) ≡ branch value (λ x. tree_of (kids x)) }
{}

/// A text depends on the rests and values of the pairs below its place, and on nothing else of the state or the place.
pub fn text_from_below()
    ensures { (m n : State) (p q : List ℕ) → below p (rows_of m) ≡ below q (rows_of n) → text_at m p ≡ text_at n q }
{}

/// Where a node stands, the text is its record with the usage of its subtree.
pub fn text_spells_node()
    ensures { (state : State) (place : List ℕ) → IfSome (node_of (subtree_at state place)) (λ node. text_at state place ≡ spelled node (usage (subtree_at state place))) }
{}

/// A usage is what the node costs by itself and the usages of its child places, so the usage of a state is the sum of what its places cost by themselves.
pub fn usage_sums_costs()
    ensures step { (state : State) (place : List ℕ) → IfSome (node_of (subtree_at state place)) (λ node. usage (subtree_at state place) ≡ own_cost node + children_usage state place node) }
    ensures total { (state : State) → total state ≡ sum_by (λ place. top_cost (subtree_at state place)) (places_of state) }
{}

/// A node names its children by the digests of their texts.
pub fn children_are_named_by_digests()
    ensures { (state : State) (place : List ℕ) → IfSome (node_of (subtree_at state place)) (NamesChildren state place) }
{}

/// Usages stay far below the end of eight bytes.
pub fn usage_is_small()
    ensures { (state : State) → IsState state → (place : List ℕ) → usage (subtree_at state place) < 2 ^ 60 }
{}

/// The node at a place has the shape of nodes, and its parts fit their fields.
pub fn nodes_fit_records()
    ensures { (state : State) → IsState state → (place : List ℕ) → IfSome (node_of (subtree_at state place)) (λ node. IsShaped node × FitsRecord node) }
{}

/// Where no text of a state has the zero digest, that is the root of the empty state alone.
pub fn zero_root_means_empty()
    ensures { (state : State) → ((t : List ℕ) → Contains (texts_of state) t → sha256 t ≢ zero_digest) → (root state ≡ zero_digest) ↔ (state ≡ empty) }
{}

/// In a state that a table holds, different texts have different digests.
pub fn held_texts_do_not_clash()
    ensures { (table : Table) (state : State) → Holds table state → NoClash (texts_of state) }
{}

/// The children of a place are places, and its branch names no other.
pub fn children_are_places()
    ensures { (state : State) (place : List ℕ) → Contains (places_of state) place → IfSome (node_of (subtree_at state place)) (ChildrenArePlaces state place) }
{}

/// Places stand in the order of their paths, a prefix first, and each once.
pub fn places_rise()
    ensures { (state : State) → IsStrictlySortedBy (slice_cmp nat_cmp) (places_of state) }
{}

/// Each pair stands at exactly one place: the values that the nodes hold at the places, in order, are those of the rows, with their paths.
pub fn pairs_stand_at_one_place()
    ensures { (state : State) → IsState state → filter_map (held_at state) (places_of state) ≡ rows_of state }
{}

/// No two states have the same rows.
pub fn rows_tell_states_apart()
    ensures { (m n : State) → rows_of m ≡ rows_of n → m ≡ n }
{}

/// Where different texts of two states have different digests, and none the zero digest, their roots are the same exactly where the states are.
pub fn roots_tell_states_apart()
    ensures { (m n : State) → IsState m → IsState n → NoClash (texts_of m ++ texts_of n) → (root m ≡ root n) ↔ (m ≡ n) }
{}
