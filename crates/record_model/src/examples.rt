//! Worked records, and the first thing that is wrong with some bytes that differ from them a little.

ghost use Rattle.std.specs.Prelude.{◌≡◌, [], ◌∷◌, ◌++◌, take, drop, Ok, Err};
ghost use Rattle.byte_model.specs.Node.{leaf};
ghost use Rattle.record_model.specs.Fields.{short, rest, ordinal};
ghost use Rattle.record_model.specs.Paths.{flag, pad};
ghost use Rattle.record_model.specs.Records.{frame, pack, shape, record_in};
ghost use Rattle.record_model.specs.Examples.{hi, nothing, one_pair_leaf, empty_key_leaf, empty_extension};

/// The leaf of the key 61 with the value 6869, that of the empty key with the empty value, and a leaf with a path of one nibble.
pub fn whole_records()
    ensures one_pair { record_in one_pair_leaf ≡ Ok (leaf (6 ∷ 1 ∷ []) hi, 106) }
    ensures empty_key { record_in (empty_key_leaf 0x20) ≡ Ok (leaf [] nothing, 102) }
    ensures one_nibble { record_in (empty_key_leaf 0x3f) ≡ Ok (leaf (15 ∷ []) nothing, 102) }
{}

/// Bytes of no layout: none at all, one less and one more than a record has, and an ordinal of no kind.
pub fn layout_faults()
    ensures no_bytes { record_in [] ≡ Err (frame (short 0)) }
    ensures cut { record_in (take 49 (empty_key_leaf 0x20)) ≡ Err (frame (short 42)) }
    ensures longer { record_in (empty_key_leaf 0x20 ++ 0 ∷ []) ≡ Err (frame (rest 50)) }
    ensures no_kind { record_in (4 ∷ drop 1 (empty_key_leaf 0x20)) ≡ Err (frame (ordinal 0)) }
{}

/// A leaf's path with a bit that is no flag, one that no leaf has, and one with a half of a byte that should be 0, which is seen before that no leaf has it. What is wrong with the layout comes first, wherever it stands.
pub fn path_faults()
    ensures no_flag { record_in (empty_key_leaf 0x60) ≡ Err (pack flag) }
    ensures no_leaf { record_in (empty_key_leaf 0x00) ≡ Err (pack flag) }
    ensures filled { record_in (empty_key_leaf 0x21) ≡ Err (pack pad) }
    ensures filled_first { record_in (empty_key_leaf 0x01) ≡ Err (pack pad) }
    ensures layout_first { record_in (take 49 (empty_key_leaf 0x60)) ≡ Err (frame (short 42)) }
{}

/// An extension that is empty.
pub fn shape_fault()
    ensures { record_in empty_extension ≡ Err shape }
{}
