//! A worked history: four blocks in two forks, a move of the head, and what is offered after it.

ghost use Rattle.std.specs.Prelude.{◌≡◌, ℕ, [], ◌∷◌, map, true, false, Some, None};
ghost use Rattle.fork_model.specs.Trees.{after_move, block_fault, after_block, descends, dropped, ids_of, is_live, line, passed, prev_of};
ghost use Rattle.fork_model.specs.Trees.BlockFault.{full, known, no_prev, not_higher};
ghost use Rattle.fork_model.specs.States.{kept_changes};
ghost use Rattle.fork_model.specs.Examples.{at_keys, four_blocks, four_states, header_of, id_of, many, two_blocks, two_states};

/// Blocks 2 and 3 stand over 1, and 4 over 2. A move to 2 passes 1 and 2 and drops 3, and 2 and 4 stay.
pub fn a_move_over_two_forks()
    ensures live { ids_of four_blocks.blocks ≡ id_of 0 ∷ id_of 1 ∷ id_of 2 ∷ id_of 3 ∷ id_of 4 ∷ [] }
    ensures line { line four_blocks (id_of 4) ≡ id_of 0 ∷ id_of 1 ∷ id_of 2 ∷ id_of 4 ∷ [] }
    ensures below { map (descends four_blocks (id_of 2)) (ids_of four_blocks.blocks) ≡ false ∷ false ∷ true ∷ false ∷ true ∷ [] }
    ensures passed { passed four_blocks (id_of 2) ≡ id_of 1 ∷ id_of 2 ∷ [] }
    ensures dropped { dropped four_blocks (id_of 2) ≡ id_of 3 ∷ [] }
    ensures head { two_blocks.head ≡ id_of 2 }
    ensures stay { ids_of two_blocks.blocks ≡ id_of 2 ∷ id_of 4 ∷ [] }
    ensures prevs { map (prev_of two_blocks) (id_of 2 ∷ id_of 3 ∷ id_of 4 ∷ []) ≡ None ∷ None ∷ Some (id_of 2) ∷ [] }
{}

/// A move to the head passes and drops nothing, and one to a block that was dropped leaves the tree.
pub fn moves_that_change_nothing()
    ensures passed { passed four_blocks (id_of 0) ≡ [] }
    ensures dropped { dropped four_blocks (id_of 0) ≡ [] }
    ensures head { after_move four_blocks (id_of 0) ≡ four_blocks }
    ensures gone { after_move two_blocks (id_of 3) ≡ two_blocks }
{}

/// After the move to 2, whose child 4 has the height 5: what is refused, and by which name. Of two that hold the first counts. Dropped and passed ids may come again, that of the start too.
pub fn blocks_after_the_move()
    ensures known { block_fault many two_blocks (header_of 4 3 7) ≡ Some known }
    ensures itself { block_fault many two_blocks (header_of 4 4 1) ≡ Some known }
    ensures no_prev { block_fault many two_blocks (header_of 3 9 6) ≡ Some no_prev }
    ensures passed_prev { block_fault many two_blocks (header_of 3 1 6) ≡ Some no_prev }
    ensures height { block_fault many two_blocks (header_of 3 4 5) ≡ Some not_higher }
    ensures height_first { block_fault 2 two_blocks (header_of 3 4 5) ≡ Some not_higher }
    ensures full { block_fault 2 two_blocks (header_of 3 4 6) ≡ Some full }
    ensures again { block_fault 3 two_blocks (header_of 3 4 6) ≡ None }
    ensures start_again { ids_of (after_block many two_blocks (header_of 0 2 6)).blocks ≡ id_of 2 ∷ id_of 4 ∷ id_of 0 ∷ [] }
    ensures line_again { line (after_block many two_blocks (header_of 0 2 6)) (id_of 0) ≡ id_of 2 ∷ id_of 0 ∷ [] }
    ensures refused { after_block many two_blocks (header_of 4 3 7) ≡ two_blocks }
{}

/// Block 1 sets the key 61, 3 deletes it and sets 62, and 2 and 4 change nothing: what each of them has at the two keys. Block 3 is the sibling of 2, over which 4 stands.
pub fn states_on_two_forks()
    ensures first { at_keys four_states (id_of 1) ≡ Some (Some (0x61 ∷ [])) ∷ Some None ∷ [] }
    ensures sibling { at_keys four_states (id_of 3) ≡ Some None ∷ Some (Some (0x62 ∷ [])) ∷ [] }
    ensures over { at_keys four_states (id_of 4) ≡ Some (Some (0x61 ∷ [])) ∷ Some None ∷ [] }
    ensures over_after_move { at_keys two_states (id_of 4) ≡ Some (Some (0x61 ∷ [])) ∷ Some None ∷ [] }
    ensures dropped { at_keys two_states (id_of 3) ≡ None ∷ None ∷ [] }
    ensures kept_changes { kept_changes four_states ≡ 3 }
    ensures kept_after_move { kept_changes two_states ≡ 0 }
{}
