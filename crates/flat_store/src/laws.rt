//! A law over the definitions: there is nothing to run.

ghost use Rattle.std.specs.Prelude.{◌≡◌, ◌+◌, ℕ, List, length, true, Some};
ghost use Rattle.std.specs.FinMap.{entries};
ghost use Rattle.fork_model.specs.Trees.{is_live};
ghost use Rattle.fork_model.specs.States.{ForkState, IsForkState, kept_changes, state_at, tree_of_blocks};
ghost use Rattle.flat_store.specs.Flats.{FlatState, HasSameBlocks, IsFlatOf, keys_changed, map_of};

/// What is kept of live blocks with their states has the live blocks but the head, and tells the
/// state of each.
pub fn what_is_kept_follows_its_blocks()
    ensures same { (blocks : ForkState) (flat : FlatState) → IsForkState blocks → IsFlatOf blocks flat → HasSameBlocks (tree_of_blocks blocks) flat.deltas }
    ensures count { (blocks : ForkState) (flat : FlatState) → IsForkState blocks → IsFlatOf blocks flat → length (entries flat.deltas) + 1 ≡ length blocks.blocks }
    ensures states { (blocks : ForkState) (flat : FlatState) (id : List ℕ) → IsForkState blocks → IsFlatOf blocks flat → is_live (tree_of_blocks blocks) id ≡ true → state_at blocks id ≡ Some (map_of flat (tree_of_blocks blocks) id) }
    ensures changes { (blocks : ForkState) (flat : FlatState) → IsForkState blocks → IsFlatOf blocks flat → keys_changed flat.deltas ≡ kept_changes blocks }
{}
