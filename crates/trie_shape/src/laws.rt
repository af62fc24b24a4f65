//! Laws over the definitions. A law is proved where its function is: there is nothing to run.

ghost use Rattle.std.specs.Prelude.{◌≡◌, ◌+◌, ◌++◌, ◌↔◌, ℕ, List, Option, IfSome};
ghost use Rattle.sha2.specs.Sha256.{sha256};
ghost use Rattle.byte_model.specs.Node.{IsShaped, branch, own_cost, ValueRef as ValueOfRecord};
ghost use Rattle.trie_model.specs.State.{State, Row, IsState, rows_of};
ghost use Rattle.trie_model.specs.Tree as tree;
ghost use Rattle.trie_model.specs.Tree.{Tree, below, tree_of};
ghost use Rattle.trie_model.specs.Texts.{node_of, text, usage};
ghost use Rattle.trie_model.specs.Root.{NoClash, root, subtree_at, texts_of};
ghost use Rattle.trie_shape.specs.declared.closed.Closed.{Closed};
ghost use Rattle.trie_shape.specs.declared.sub.Sub.{Sub};
ghost use Rattle.trie_shape.specs.declared.sub.Sub.TheVariants.{Branch};
ghost use Rattle.trie_shape.specs.Shows.{IsBranchOf, IsRead, IsTop, MayClose, Shows, usage_of};

/// Where different texts of two states have different digests, and none the zero digest, equal
/// roots mean equal states.
pub fn equal_roots_mean_equal_states()
    ensures { (m n : State) → IsState m → IsState n → NoClash (texts_of m ++ texts_of n) → (root m ≡ root n) ↔ (m ≡ n) }
{}

/// A subtree uses what the trie that it shows does.
pub fn usages_are_shown()
    ensures { (sub : Sub) (tree : Tree) → Shows sub tree → usage_of sub ≡ usage tree }
{}

/// A subtree that is made of the node of a trie shows that trie.
pub fn nodes_that_were_read_show()
    ensures { (sub : Sub) (tree : Tree) → IfSome (node_of tree) (λ node. IsRead sub node (sha256 (text tree)) (usage tree) → Shows sub tree) }
{}

/// What shows the trie below a place of a state meets the conditions of `Sub::close`.
pub fn subtrees_of_states_may_close()
    ensures { (state : State) → IsState state → (place : List ℕ) (sub : Sub) → Shows sub (subtree_at state place) → MayClose sub }
{}

/// The branch of the rows below a place of a state, where they fork, meets the condition of
/// `close_branch`.
pub fn branches_of_states_may_close()
    ensures { (state : State) → IsState state → (place : List ℕ) (value : Option ValueOfRecord) (kids : ℕ → Option (List ℕ)) (used : ℕ) → IsBranchOf (below place (rows_of state)) value kids used → IsShaped (branch value kids) }
{}

/// What the branch of rows that fork costs, and what its children use, is what the trie of the rows
/// uses.
pub fn branches_use_what_their_rows_do()
    ensures { (rows : List Row) (value : Option ValueOfRecord) (kids : ℕ → Option (List ℕ)) (used : ℕ) → IsBranchOf rows value kids used → own_cost (branch value kids) + used ≡ usage (tree_of rows) }
{}

/// A branch whose record is written is a subtree that shows it.
pub fn closed_branches_show()
    ensures { (closed : Closed) (value : Option (List ℕ)) (kids : ℕ → Tree) → IsTop closed (tree.branch value kids) → Shows (Branch closed.digest closed.usage) (tree.branch value kids) }
{}
