//! Worked histories: how often each text of the live blocks is counted, before and after a move of the head, what is loaded, and names that texts share. The numbers were computed outside of this project.

ghost use Rattle.std.specs.Prelude.{◌≡◌, [], ◌∷◌, map, None, Some};
ghost use Rattle.std.specs.FinMap.{empty};
ghost use Rattle.sha2.specs.Sha256.{sha256};
ghost use Rattle.trie_model.specs.Root.{zero_digest};
ghost use Rattle.batch_model.specs.Changes.{after};
ghost use Rattle.change_model.specs.Examples.{delete_b};
ghost use Rattle.fork_model.specs.States.{after_head, first_fork};
ghost use Rattle.fork_model.specs.Examples.{header_of, id_of, many};
ghost use Rattle.fork_model.specs.Trees.BlockFault.{full, not_higher};
ghost use Rattle.count_model.specs.BlockEnds.{block_end};
ghost use Rattle.count_model.specs.BlockEnds.BlockEnd.{accepted, faulty, too_many};
ghost use Rattle.count_model.specs.Counts.{count, digest_count};
ghost use Rattle.count_model.specs.Tables.{distinct_texts, live_texts};
ghost use Rattle.count_model.specs.Clashes.{clash_with, clash_within};
ghost use Rattle.count_model.specs.Loads.{loads};
ghost use Rattle.count_model.specs.Loads.Access.{carry_out, look_up, no_texts, tell_usage};
ghost use Rattle.count_model.specs.Examples.{first_byte, one_line, set_alike, set_two, two_forks};

/// Two keys are set, and one of them is deleted over that: first the extension, the branch, both leaves and both values, then one leaf and its value. What the second block no longer has is counted until the head has passed it.
pub fn one_of_two_deleted()
    ensures before { map (count (one_line set_two)) (live_texts (one_line set_two)) ≡ 1 ∷ 1 ∷ 1 ∷ 1 ∷ 1 ∷ 1 ∷ 1 ∷ 1 ∷ [] }
    ensures after { map (count (after_head (one_line set_two) (id_of 2))) (live_texts (one_line set_two)) ≡ 0 ∷ 0 ∷ 0 ∷ 0 ∷ 1 ∷ 0 ∷ 1 ∷ 1 ∷ [] }
    ensures distinct { distinct_texts (one_line set_two) ≡ 7 }
    ensures distinct_after { distinct_texts (after_head (one_line set_two) (id_of 2)) ≡ 2 }
{}

/// The same where both keys have one value, so that their leaves have one text: leaf and value are counted twice, and the value once behind the move.
pub fn one_of_two_alike_deleted()
    ensures before { map (count (one_line set_alike)) (live_texts (one_line set_alike)) ≡ 1 ∷ 1 ∷ 2 ∷ 2 ∷ 2 ∷ 2 ∷ 1 ∷ 2 ∷ [] }
    ensures after { map (count (after_head (one_line set_alike) (id_of 2))) (live_texts (one_line set_alike)) ≡ 0 ∷ 0 ∷ 0 ∷ 0 ∷ 1 ∷ 1 ∷ 1 ∷ 1 ∷ [] }
    ensures distinct { distinct_texts (one_line set_alike) ≡ 5 }
    ensures digests { map (λ t. digest_count (one_line set_alike) (sha256 t)) (live_texts (one_line set_alike)) ≡ 1 ∷ 1 ∷ 2 ∷ 2 ∷ 2 ∷ 2 ∷ 1 ∷ 2 ∷ [] }
{}

/// Two forks with one state: each of its six texts is counted twice, and once where the head moves to one of them and drops the other.
pub fn two_forks_alike()
    ensures before { map (count two_forks) (live_texts two_forks) ≡ 2 ∷ 2 ∷ 2 ∷ 2 ∷ 2 ∷ 2 ∷ 2 ∷ 2 ∷ 2 ∷ 2 ∷ 2 ∷ 2 ∷ [] }
    ensures after { map (count (after_head two_forks (id_of 1))) (live_texts (after_head two_forks (id_of 1))) ≡ 1 ∷ 1 ∷ 1 ∷ 1 ∷ 1 ∷ 1 ∷ [] }
    ensures distinct { distinct_texts two_forks ≡ 6 }
{}

/// Over the empty state nothing is loaded, and to delete one of two keys loads the extension, the branch and both leaves. A key that is not there is found missing at the root's leaf, and one that is there takes its value too. Of a block that is refused, or not live, nothing is loaded.
pub fn loads_of_one_line()
    ensures first { loads many first_fork (carry_out (header_of 1 0 1) set_two) ≡ 0 }
    ensures deleted { loads many (one_line set_two) (carry_out (header_of 3 1 2) delete_b) ≡ 4 }
    ensures known { loads many (one_line set_two) (carry_out (header_of 2 1 2) delete_b) ≡ 0 }
    ensures full { loads 3 (one_line set_two) (carry_out (header_of 3 1 2) delete_b) ≡ 0 }
    ensures usages { map (λ n. loads many (one_line set_two) (tell_usage (id_of n))) (0 ∷ 1 ∷ 2 ∷ 3 ∷ []) ≡ 0 ∷ 1 ∷ 1 ∷ 0 ∷ [] }
    ensures missing_key { loads many (one_line set_two) (look_up (id_of 2) (0x62 ∷ [])) ≡ 1 }
    ensures found_key { loads many (one_line set_two) (look_up (id_of 2) (0x61 ∷ [])) ≡ 2 }
    ensures not_live { loads many (one_line set_two) (look_up (id_of 3) (0x61 ∷ [])) ≡ 0 }
    ensures others { loads many (one_line set_two) no_texts ≡ 0 }
{}

/// With the first byte for a name, and the zero name for no byte: a text that stands twice does not clash with itself, the least name that is shared is told, and the zero name is told in the second comparison alone.
pub fn names_that_are_shared()
    ensures itself { clash_within first_byte ((5 ∷ 1 ∷ []) ∷ (4 ∷ []) ∷ (5 ∷ 1 ∷ []) ∷ []) ≡ None }
    ensures least { clash_within first_byte ((5 ∷ 1 ∷ []) ∷ (4 ∷ []) ∷ (5 ∷ 2 ∷ []) ∷ (4 ∷ 3 ∷ []) ∷ []) ≡ Some (4 ∷ []) }
    ensures zero_within { clash_within first_byte ([] ∷ (4 ∷ []) ∷ []) ≡ None }
    ensures zero_with { clash_with first_byte [] ([] ∷ (4 ∷ []) ∷ []) ≡ Some zero_digest }
    ensures held { clash_with first_byte ((5 ∷ 1 ∷ []) ∷ (4 ∷ 3 ∷ []) ∷ []) ((5 ∷ 2 ∷ []) ∷ (4 ∷ 3 ∷ []) ∷ []) ≡ Some (5 ∷ []) }
    ensures no_clash { clash_with first_byte ((5 ∷ 1 ∷ []) ∷ []) ((5 ∷ 1 ∷ []) ∷ (4 ∷ 3 ∷ []) ∷ (4 ∷ 2 ∷ []) ∷ []) ≡ None }
{}

/// A block that sets two keys over the start is accepted where a state may have two pairs, and refused where it may have one, unless it is refused for its height or because no further block may be live.
pub fn ends_of_blocks()
    ensures taken { block_end 2 many first_fork (header_of 1 0 1) set_two ≡ accepted (after empty set_two) }
    ensures pairs { block_end 1 many first_fork (header_of 1 0 1) set_two ≡ too_many }
    ensures height { block_end 1 many first_fork (header_of 1 0 0) set_two ≡ faulty not_higher }
    ensures blocks { block_end 1 1 first_fork (header_of 1 0 1) set_two ≡ faulty full }
{}
