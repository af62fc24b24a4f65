//! Laws over the definitions, in other words than theirs. A law is proved where its function is: there is nothing to run.

ghost use Rattle.std.specs.Prelude.{◌≡◌, ◌≤◌, ◌<◌, ◌||◌, ℕ, true, false, List, [], ◌∷◌, ◌++◌, length, None, Some, IfSome, IsSome, if◌then◌else◌};
ghost use Rattle.std.specs.Option.{option_map, IsSomeAnd};
ghost use Rattle.std.specs.List.{IsDistinct};
ghost use Rattle.std.specs.List.Sorted.{IsPermutation};
ghost use Rattle.std.specs.Str.{bytes_eq};
ghost use Rattle.batch_model.specs.Changes.{Changes, after};
ghost use Rattle.fork_model.specs.Trees.{BlockTree, Header, IsTree, after_block, after_move, block_fault, block_of, descends, dropped, ids_of, is_live, line, moved, passed, prev_of, start};
ghost use Rattle.fork_model.specs.States.{ForkState, IsForkState, after_head, after_offer, block_at, first_fork, head_moved, laid_along, state_at, tree_of_blocks};
ghost use Rattle.fork_model.specs.Laws.{first_id, ids_behind};

/// `IsTree` holds at the start, and stays as blocks are offered and the head moves.
pub fn trees_stay_trees()
    ensures start { IsTree start }
    ensures block { (most : ℕ) (tree : BlockTree) (block : Header) → IsTree tree → IsTree (after_block most tree block) }
    ensures head { (tree : BlockTree) (id : List ℕ) → IsTree tree → IsTree (after_move tree id) }
{}

/// And so does `IsForkState`.
pub fn fork_states_stay_fork_states()
    ensures start { IsForkState first_fork }
    ensures block { (most : ℕ) (forks : ForkState) (header : Header) (changes : Changes) → IsForkState forks → IsForkState (after_offer most forks header changes) }
    ensures head { (forks : ForkState) (id : List ℕ) → IsForkState forks → IsForkState (after_head forks id) }
{}

/// What becomes of blocks with states becomes of their tree.
pub fn trees_follow_their_blocks()
    ensures start { tree_of_blocks first_fork ≡ start }
    ensures block { (most : ℕ) (forks : ForkState) (header : Header) (changes : Changes) → tree_of_blocks (after_offer most forks header changes) ≡ after_block most (tree_of_blocks forks) header }
    ensures head { (forks : ForkState) (id : List ℕ) → tree_of_blocks (after_head forks id) ≡ after_move (tree_of_blocks forks) id }
{}

/// No two live blocks have one id.
pub fn ids_are_apart()
    ensures { (tree : BlockTree) → IsTree tree → IsDistinct bytes_eq (ids_of tree.blocks) }
{}

/// The head is the first of the live blocks, after a move too.
pub fn head_comes_first()
    ensures always { (tree : BlockTree) → IsTree tree → first_id tree.blocks ≡ Some tree.head }
    ensures moved { (tree : BlockTree) (id : List ℕ) → IsTree tree → is_live tree id ≡ true → first_id (after_move tree id).blocks ≡ Some id }
{}

/// The prev of each live block but the head is live, and lower.
pub fn heights_rise_over_prevs()
    ensures { (tree : BlockTree) (id : List ℕ) → IsTree tree → bytes_eq id tree.head ≡ false → IfSome (block_of tree.blocks id) (λ block. IsSomeAnd (block_of tree.blocks block.prev) (λ prev. prev.height < block.height)) }
{}

/// The line to a block goes from the head over prevs. Behind the head it is what a move to the block passes.
pub fn lines_go_over_prevs()
    ensures head { (tree : BlockTree) → IsTree tree → line tree tree.head ≡ tree.head ∷ [] }
    ensures over { (tree : BlockTree) (id prev : List ℕ) → IsTree tree → prev_of tree id ≡ Some prev → line tree id ≡ line tree prev ++ id ∷ [] }
    ensures passed { (tree : BlockTree) (id : List ℕ) → IsTree tree → is_live tree id ≡ true → line tree id ≡ tree.head ∷ passed tree id }
{}

/// A block descends from itself, and from what its prev descends from, and the head from nothing else.
pub fn descent_goes_over_prevs()
    ensures itself { (tree : BlockTree) (id : List ℕ) → IsTree tree → is_live tree id ≡ true → descends tree id id ≡ true }
    ensures over { (tree : BlockTree) (from id prev : List ℕ) → IsTree tree → prev_of tree id ≡ Some prev → descends tree from id ≡ (descends tree from prev || bytes_eq from id) }
    ensures head { (tree : BlockTree) (from : List ℕ) → IsTree tree → descends tree from tree.head ≡ bytes_eq from tree.head }
{}

/// A move keeps the block that it goes to and its descendants, as they were, and no other.
pub fn a_move_keeps_a_block_and_its_descendants()
    ensures tree { (tree : BlockTree) (id other : List ℕ) → block_of (moved tree id).blocks other ≡ (if descends tree id other then block_of tree.blocks other else None) }
    ensures states { (forks : ForkState) (id other : List ℕ) → block_at (head_moved forks id).blocks other ≡ (if descends (tree_of_blocks forks) id other then block_at forks.blocks other else None) }
{}

/// The live blocks are the old head and what a move passes, what it drops, and what stays behind the new head, each block once.
pub fn a_move_tells_each_block_once()
    ensures { (tree : BlockTree) (id : List ℕ) → IsTree tree → is_live tree id ≡ true → IsPermutation (ids_of tree.blocks) (tree.head ∷ passed tree id ++ dropped tree id ++ ids_behind (moved tree id)) }
{}

/// A move to the head passes and drops nothing, and leaves the tree and all states.
pub fn a_move_to_the_head_changes_nothing()
    ensures tree { (tree : BlockTree) → IsTree tree → after_move tree tree.head ≡ tree }
    ensures passed { (tree : BlockTree) → IsTree tree → passed tree tree.head ≡ [] }
    ensures dropped { (tree : BlockTree) → IsTree tree → dropped tree tree.head ≡ [] }
    ensures states { (forks : ForkState) → IsForkState forks → after_head forks forks.head ≡ forks }
{}

/// A move passes as much as two that end where it ends.
pub fn two_moves_pass_as_much_as_one()
    ensures { (tree : BlockTree) (id other : List ℕ) → IsTree tree → is_live tree id ≡ true → is_live (after_move tree id) other ≡ true → passed tree other ≡ passed tree id ++ passed (after_move tree id) other }
{}

/// The state of each live block but the head is that of its prev with its changes laid over. So it is that of the head with the changes of all blocks laid over that a move to it passes, one after the other.
pub fn states_are_changed_states_of_prevs()
    ensures over { (forks : ForkState) (id : List ℕ) → IsForkState forks → bytes_eq id forks.head ≡ false → IfSome (block_at forks.blocks id) (λ block. IsSomeAnd (block_at forks.blocks block.header.prev) (λ prev. block.state ≡ after prev.state block.changes)) }
    ensures along { (forks : ForkState) (id : List ℕ) → IsForkState forks → is_live (tree_of_blocks forks) id ≡ true → state_at forks id ≡ option_map (laid_along forks (passed (tree_of_blocks forks) id)) (state_at forks forks.head) }
{}

/// What is refused changes nothing.
pub fn what_is_refused_changes_nothing()
    ensures block { (most : ℕ) (tree : BlockTree) (block : Header) → IsSome (block_fault most tree block) → after_block most tree block ≡ tree }
    ensures states { (most : ℕ) (forks : ForkState) (header : Header) (changes : Changes) → IsSome (block_fault most (tree_of_blocks forks) header) → after_offer most forks header changes ≡ forks }
    ensures head { (tree : BlockTree) (id : List ℕ) → is_live tree id ≡ false → after_move tree id ≡ tree }
    ensures head_states { (forks : ForkState) (id : List ℕ) → is_live (tree_of_blocks forks) id ≡ false → after_head forks id ≡ forks }
{}

/// No more blocks are live than may be.
pub fn live_blocks_are_bounded()
    ensures block { (most : ℕ) (tree : BlockTree) (block : Header) → length tree.blocks ≤ most → length (after_block most tree block).blocks ≤ most }
    ensures head { (tree : BlockTree) (id : List ℕ) → length (after_move tree id).blocks ≤ length tree.blocks }
{}
