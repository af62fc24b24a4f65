//! Worked states: the text of each node and each value, the root and the memory usage, in hexadecimal digits and bytes. The digests were computed by other programs.

ghost use Rattle.std.specs.Prelude.{◌≡◌, [], ◌∷◌, map, codes};
ghost use Rattle.hex.specs.Hex.{encode_lower};
ghost use Rattle.trie_model.specs.Root.{root, total, texts_of};
ghost use Rattle.trie_model.specs.Examples.{empty_state, one_pair_state, empty_key_state, two_keys_state, prefix_key_state, text_as_value_state};

/// The empty state: no text, and the zero digest for a root.
pub fn no_pairs()
    ensures texts { texts_of empty_state ≡ [] }
    ensures root { encode_lower (root empty_state) ≡ codes "0000000000000000000000000000000000000000000000000000000000000000" }
    ensures usage { total empty_state ≡ 0 }
{}

/// The key 61 with the value 6869: a leaf.
pub fn one_pair()
    ensures texts { map encode_lower (texts_of one_pair_state) ≡
        codes "00020000002061020000008f434346648f6b96df89dda901c5176b10a6d83961dd3c1ac88b59b2dc327aa46a00000000000000" ∷
        codes "6869" ∷
        [] }
    ensures root { encode_lower (root one_pair_state) ≡ codes "c6d20f554d697a121ebc84350e46da9e3bb4e3c08d5f67204156fc6661069cc0" }
    ensures usage { total one_pair_state ≡ 106 }
{}

/// The empty key with the empty value: a leaf with an empty path.
pub fn empty_key()
    ensures texts { map encode_lower (texts_of empty_key_state) ≡
        codes "00010000002000000000e3b0c44298fc1c149afbf4c8996fb92427ae41e4649b934ca495991b7852b8556600000000000000" ∷
        [] ∷
        [] }
    ensures root { encode_lower (root empty_key_state) ≡ codes "4937311fa09b313baa6d2ad061234f75e53d8dfabe99f86ee22689309d9a0f34" }
    ensures usage { total empty_key_state ≡ 102 }
{}

/// The keys 61 and 62, each as its own value: an extension over a branch over two leaves.
pub fn two_keys()
    ensures texts { map encode_lower (texts_of two_keys_state) ≡
        codes "0301000000164bfc93a2a8a1dc2a26a673dd18f202d186ddd556fd274551f2768c63eae8b3d33401000000000000" ∷
        codes "010600fe06fdd02ac135f8869cb25908b95a465cafe090595f00d942f9df2ddc1042e49388c9352af4897c794d825e2357e48f8b6fae568882e518464b9eed2d698d5f0001000000000000" ∷
        codes "00010000002001000000ca978112ca1bbdcafac231b39a23dc4da786eff8147c4e72b9807785afee48bb6700000000000000" ∷
        codes "000100000020010000003e23e8160039594a33894f6564e1b1348bbd7a0088d42c4acb73eeaed59c009d6700000000000000" ∷
        codes "61" ∷
        codes "62" ∷
        [] }
    ensures root { encode_lower (root two_keys_state) ≡ codes "06481f83918f99a3be485a586d16b56c10a9d578353d60e887baa5f9c389262e" }
    ensures usage { total two_keys_state ≡ 308 }
{}

/// The keys 61 and 6162, the first a prefix of the second: an extension over a branch with a value and one child.
pub fn prefix_key()
    ensures texts { map encode_lower (texts_of prefix_key_state) ≡
        codes "03020000000061c76f3edfcbee3c342ec5bb228cf8eda313a45bedcf18973a8b2e2d3ddc2146220201000000000000" ∷
        codes "0201000000ca978112ca1bbdcafac231b39a23dc4da786eff8147c4e72b9807785afee48bb40008045d9378b51ee0c1899135a9e0a1fc415a94c1a2b9fd786cdbf6080cd538bbfcc00000000000000" ∷
        codes "000100000032010000003e23e8160039594a33894f6564e1b1348bbd7a0088d42c4acb73eeaed59c009d6700000000000000" ∷
        codes "61" ∷
        codes "62" ∷
        [] }
    ensures root { encode_lower (root prefix_key_state) ≡ codes "6e36cff03296388deeb24640de825a7358e4fc5165c2484c07240ba01b78f13e" }
    ensures usage { total prefix_key_state ≡ 258 }
{}

/// The keys 61 and 62, where the second's value is the text of the first's leaf: that text occurs twice, as a node's and as a value.
pub fn text_as_value()
    ensures texts { map encode_lower (texts_of text_as_value_state) ≡
        codes "0301000000167320e893fcf8bf70af773cfb3a893e9ad22cb043eae79933eba41c785b42f60a6601000000000000" ∷
        codes "010600566a3a0885336d1fc2d1e4d23097c2f64c2ff5b82bef6d6682c3721a5ce3bb6a3b950b2e1470fa6b66ee5fb952039e7efa821544e00e9e410aaca47a3cac8e3f3201000000000000" ∷
        codes "000100000020020000008f434346648f6b96df89dda901c5176b10a6d83961dd3c1ac88b59b2dc327aa46800000000000000" ∷
        codes "00010000002032000000566a3a0885336d1fc2d1e4d23097c2f64c2ff5b82bef6d6682c3721a5ce3bb6a9800000000000000" ∷
        codes "6869" ∷
        codes "000100000020020000008f434346648f6b96df89dda901c5176b10a6d83961dd3c1ac88b59b2dc327aa46800000000000000" ∷
        [] }
    ensures root { encode_lower (root text_as_value_state) ≡ codes "b176673eae05d3804cdf25a79e25a71871969c7978ca439061ade084ea4ee921" }
    ensures usage { total text_as_value_state ≡ 358 }
{}
