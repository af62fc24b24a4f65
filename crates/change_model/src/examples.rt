//! Worked batches: the places that they touch and write, and each text that they make or take out with what it gains or loses. The digests were computed by other programs.

ghost use Rattle.std.specs.Prelude.{◌≡◌, [], ◌∷◌, length, map, codes};
ghost use Rattle.hex.specs.Hex.{encode_lower};
ghost use Rattle.sha2.specs.Sha256.{sha256};
ghost use Rattle.trie_model.specs.Examples.{two_keys_state};
ghost use Rattle.trie_model.specs.Root.{subtree_at, text_at};
ghost use Rattle.visit_model.specs.Shown.{shown};
ghost use Rattle.batch_model.specs.Changes.{change_rows};
ghost use Rattle.change_model.specs.Visits.{visits_at};
ghost use Rattle.change_model.specs.Places.{touched_places, written_places};
ghost use Rattle.change_model.specs.Ledger.{fresh, gain, gone, loss, made_texts};
ghost use Rattle.change_model.specs.Exchange.{taken_texts};
ghost use Rattle.change_model.specs.Examples.{delete_b, one_key_state, same_values_state, set_b};

/// Of the keys 61 and 62 the second is deleted. The leaf of the first stays alone: its path joins that of the extension, and one leaf is made. That leaf is visited last.
pub fn one_of_two_deleted()
    ensures touched { touched_places two_keys_state [] delete_b ≡ [] ∷ (6 ∷ []) ∷ (6 ∷ 1 ∷ []) ∷ (6 ∷ 2 ∷ []) ∷ [] }
    ensures sizes { map (λ place. length (text_at two_keys_state place)) (touched_places two_keys_state [] delete_b) ≡ 46 ∷ 75 ∷ 50 ∷ 50 ∷ [] }
    ensures written { written_places two_keys_state delete_b ≡ [] ∷ [] }
    ensures made { map encode_lower (made_texts two_keys_state delete_b) ≡
        codes "0002000000206101000000ca978112ca1bbdcafac231b39a23dc4da786eff8147c4e72b9807785afee48bb6900000000000000" ∷
        [] }
    ensures gained { map (λ t. gain two_keys_state delete_b (sha256 t)) (made_texts two_keys_state delete_b) ≡ 1 ∷ [] }
    ensures taken { map encode_lower (taken_texts two_keys_state delete_b) ≡
        codes "0301000000164bfc93a2a8a1dc2a26a673dd18f202d186ddd556fd274551f2768c63eae8b3d33401000000000000" ∷
        codes "010600fe06fdd02ac135f8869cb25908b95a465cafe090595f00d942f9df2ddc1042e49388c9352af4897c794d825e2357e48f8b6fae568882e518464b9eed2d698d5f0001000000000000" ∷
        codes "00010000002001000000ca978112ca1bbdcafac231b39a23dc4da786eff8147c4e72b9807785afee48bb6700000000000000" ∷
        codes "000100000020010000003e23e8160039594a33894f6564e1b1348bbd7a0088d42c4acb73eeaed59c009d6700000000000000" ∷
        codes "62" ∷
        [] }
    ensures lost { map (λ t. loss two_keys_state delete_b (sha256 t)) (taken_texts two_keys_state delete_b) ≡ 1 ∷ 1 ∷ 1 ∷ 1 ∷ 1 ∷ [] }
    ensures fresh { fresh two_keys_state delete_b ≡ 0 }
    ensures gone { gone two_keys_state delete_b ≡ 1 }
    ensures visited { map encode_lower (visits_at (shown (subtree_at two_keys_state [])) (change_rows delete_b)).digests ≡
        codes "06481f83918f99a3be485a586d16b56c10a9d578353d60e887baa5f9c389262e" ∷
        codes "4bfc93a2a8a1dc2a26a673dd18f202d186ddd556fd274551f2768c63eae8b3d3" ∷
        codes "9388c9352af4897c794d825e2357e48f8b6fae568882e518464b9eed2d698d5f" ∷
        codes "fe06fdd02ac135f8869cb25908b95a465cafe090595f00d942f9df2ddc1042e4" ∷
        [] }
{}

/// The same where both keys have one value: their leaves have one text, which is taken out twice, and one of the two values stays.
pub fn one_of_two_alike_deleted()
    ensures touched { touched_places same_values_state [] delete_b ≡ [] ∷ (6 ∷ []) ∷ (6 ∷ 1 ∷ []) ∷ (6 ∷ 2 ∷ []) ∷ [] }
    ensures written { written_places same_values_state delete_b ≡ [] ∷ [] }
    ensures made { map encode_lower (made_texts same_values_state delete_b) ≡
        codes "00020000002061010000004c94485e0c21ae6c41ce1dfe7b6bfaceea5ab68e40a2476f50208e526f5060806900000000000000" ∷
        [] }
    ensures gained { map (λ t. gain same_values_state delete_b (sha256 t)) (made_texts same_values_state delete_b) ≡ 1 ∷ [] }
    ensures taken { map encode_lower (taken_texts same_values_state delete_b) ≡
        codes "0301000000168673a1a83f32a48d19579f3e6da8f9d7e8a4d146c453ad59a3a11e790103abc33401000000000000" ∷
        codes "010600216b515a41d6d02959d3b37092915e8f242781fa8e20e4a7749ac83cf3486a26216b515a41d6d02959d3b37092915e8f242781fa8e20e4a7749ac83cf3486a260001000000000000" ∷
        codes "000100000020010000004c94485e0c21ae6c41ce1dfe7b6bfaceea5ab68e40a2476f50208e526f5060806700000000000000" ∷
        codes "000100000020010000004c94485e0c21ae6c41ce1dfe7b6bfaceea5ab68e40a2476f50208e526f5060806700000000000000" ∷
        codes "76" ∷
        [] }
    ensures lost { map (λ t. loss same_values_state delete_b (sha256 t)) (taken_texts same_values_state delete_b) ≡ 1 ∷ 1 ∷ 2 ∷ 2 ∷ 1 ∷ [] }
{}

/// The key 62 is set beside the key 61. The leaf of 61 is touched and split: its rest, at the place 61, is on no changed path, and is written too.
pub fn one_set_beside_another()
    ensures touched { touched_places one_key_state [] set_b ≡ [] ∷ [] }
    ensures written { written_places one_key_state set_b ≡ [] ∷ (6 ∷ []) ∷ (6 ∷ 1 ∷ []) ∷ (6 ∷ 2 ∷ []) ∷ [] }
    ensures made { map encode_lower (made_texts one_key_state set_b) ≡
        codes "0301000000164bfc93a2a8a1dc2a26a673dd18f202d186ddd556fd274551f2768c63eae8b3d33401000000000000" ∷
        codes "010600fe06fdd02ac135f8869cb25908b95a465cafe090595f00d942f9df2ddc1042e49388c9352af4897c794d825e2357e48f8b6fae568882e518464b9eed2d698d5f0001000000000000" ∷
        codes "00010000002001000000ca978112ca1bbdcafac231b39a23dc4da786eff8147c4e72b9807785afee48bb6700000000000000" ∷
        codes "000100000020010000003e23e8160039594a33894f6564e1b1348bbd7a0088d42c4acb73eeaed59c009d6700000000000000" ∷
        codes "62" ∷
        [] }
    ensures gained { map (λ t. gain one_key_state set_b (sha256 t)) (made_texts one_key_state set_b) ≡ 1 ∷ 1 ∷ 1 ∷ 1 ∷ 1 ∷ [] }
    ensures taken { map encode_lower (taken_texts one_key_state set_b) ≡
        codes "0002000000206101000000ca978112ca1bbdcafac231b39a23dc4da786eff8147c4e72b9807785afee48bb6900000000000000" ∷
        [] }
    ensures lost { map (λ t. loss one_key_state set_b (sha256 t)) (taken_texts one_key_state set_b) ≡ 1 ∷ [] }
    ensures fresh { fresh one_key_state set_b ≡ 1 }
    ensures gone { gone one_key_state set_b ≡ 0 }
{}
