//! Worked batches: what they make of what is seen of a state's trie. The digests were computed by other programs.

ghost use Rattle.std.specs.Prelude.{◌≡◌, [], ◌∷◌, map, codes};
ghost use Rattle.hex.specs.Hex.{encode_lower};
ghost use Rattle.trie_model.specs.Examples.{two_keys_state};
ghost use Rattle.trie_model.specs.Root.{subtree_at};
ghost use Rattle.trie_model.specs.Texts.{value_ref};
ghost use Rattle.visit_model.specs.Shown.{shown};
ghost use Rattle.batch_model.specs.Changes.{change_rows};
ghost use Rattle.change_model.specs.Examples.{delete_b, one_key_state, set_b};
ghost use Rattle.update_model.specs.Tops.{leaf, pending};
ghost use Rattle.update_model.specs.Updates.{updated};

/// Of the keys 61 and 62 the second is deleted. The leaf of the first stays alone and joins the path of the extension above; its record is not made yet. The records of the extension, the branch and both leaves are taken out, and the value of 62.
pub fn one_of_two_deleted()
    ensures top { (updated (shown (subtree_at two_keys_state [])) (change_rows delete_b)).top ≡ leaf (6 ∷ 1 ∷ []) (value_ref (0x61 ∷ [])) }
    ensures made { (updated (shown (subtree_at two_keys_state [])) (change_rows delete_b)).made ≡ [] }
    ensures lost { map encode_lower (updated (shown (subtree_at two_keys_state [])) (change_rows delete_b)).lost ≡
        codes "06481f83918f99a3be485a586d16b56c10a9d578353d60e887baa5f9c389262e" ∷
        codes "4bfc93a2a8a1dc2a26a673dd18f202d186ddd556fd274551f2768c63eae8b3d3" ∷
        codes "9388c9352af4897c794d825e2357e48f8b6fae568882e518464b9eed2d698d5f" ∷
        codes "3e23e8160039594a33894f6564e1b1348bbd7a0088d42c4acb73eeaed59c009d" ∷
        codes "fe06fdd02ac135f8869cb25908b95a465cafe090595f00d942f9df2ddc1042e4" ∷
        [] }
    ensures fresh { (updated (shown (subtree_at two_keys_state [])) (change_rows delete_b)).fresh ≡ 0 }
    ensures gone { (updated (shown (subtree_at two_keys_state [])) (change_rows delete_b)).gone ≡ 1 }
{}

/// The key 62 is set beside the key 61. The leaf of 61 is taken out; the value of 62, both leaves and the branch are made. The top is an extension before the branch, whose record is still to be made.
pub fn one_set_beside_another()
    ensures pending { map encode_lower (pending (updated (shown (subtree_at one_key_state [])) (change_rows set_b)).top) ≡
        codes "0301000000164bfc93a2a8a1dc2a26a673dd18f202d186ddd556fd274551f2768c63eae8b3d33401000000000000" ∷
        [] }
    ensures made { map encode_lower (updated (shown (subtree_at one_key_state [])) (change_rows set_b)).made ≡
        codes "62" ∷
        codes "00010000002001000000ca978112ca1bbdcafac231b39a23dc4da786eff8147c4e72b9807785afee48bb6700000000000000" ∷
        codes "000100000020010000003e23e8160039594a33894f6564e1b1348bbd7a0088d42c4acb73eeaed59c009d6700000000000000" ∷
        codes "010600fe06fdd02ac135f8869cb25908b95a465cafe090595f00d942f9df2ddc1042e49388c9352af4897c794d825e2357e48f8b6fae568882e518464b9eed2d698d5f0001000000000000" ∷
        [] }
    ensures lost { map encode_lower (updated (shown (subtree_at one_key_state [])) (change_rows set_b)).lost ≡
        codes "cfbcdb2eb8dbb0eb842f2bcde9119be3c52b1c917c6df883427205cec06387cc" ∷
        [] }
    ensures fresh { (updated (shown (subtree_at one_key_state [])) (change_rows set_b)).fresh ≡ 1 }
    ensures gone { (updated (shown (subtree_at one_key_state [])) (change_rows set_b)).gone ≡ 0 }
{}
