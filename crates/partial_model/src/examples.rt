//! Worked partial states and recordings, and what is wrong with some bytes that differ from them a little.

ghost use Rattle.std.specs.Prelude.{◌≡◌, [], ◌∷◌, ◌++◌, take, None, Some, Ok, Err};
ghost use Rattle.record_model.specs.Fields.{start_of, short, rest, ordinal};
ghost use Rattle.trie_model.specs.Root.{zero_digest};
ghost use Rattle.partial_model.specs.Texts.{least_clash};
ghost use Rattle.partial_model.specs.Partial.{frame, order, clash, spelled_partial, judged, partial_in};
ghost use Rattle.partial_model.specs.Recording as recording;
ghost use Rattle.partial_model.specs.Recording.{head, vector_within, spelled_recording, recording_in};
ghost use Rattle.partial_model.specs.Examples.{two_texts, two_spelled, claimed, one_byte_text, alike_in_pairs, behind_first, small_recording, one_read, two_changes, no_state, falling_state};

/// No texts, and two of which one is a prefix of the other: how they are spelled, and that they are read again.
pub fn whole_states()
    ensures none { spelled_partial [] ≡ 0x00 ∷ 0x00 ∷ 0x00 ∷ 0x00 ∷ 0x00 ∷ [] }
    ensures none_read { partial_in (0x00 ∷ 0x00 ∷ 0x00 ∷ 0x00 ∷ 0x00 ∷ []) ≡ Ok [] }
    ensures two { spelled_partial two_texts ≡ two_spelled }
    ensures two_read { partial_in two_spelled ≡ Ok two_texts }
{}

/// Bytes of no layout: none at all, another first byte, one byte less and one more than a partial state has, and a count of texts that are not there.
pub fn layout_faults()
    ensures no_bytes { partial_in [] ≡ Err (frame (short 0)) }
    ensures first_byte { partial_in (0x01 ∷ 0x00 ∷ 0x00 ∷ 0x00 ∷ 0x00 ∷ []) ≡ Err (frame (ordinal 0)) }
    ensures cut { partial_in (take 15 two_spelled) ≡ Err (frame (short 14)) }
    ensures longer { partial_in (two_spelled ++ 0x00 ∷ []) ≡ Err (frame (rest 16)) }
    ensures many { partial_in claimed ≡ Err (frame (short 9)) }
{}

/// A text that stands twice, texts that fall, and texts that fall twice. What is wrong with the layout comes first, wherever it stands.
pub fn order_faults()
    ensures twice { partial_in (0x00 ∷ 0x02 ∷ 0x00 ∷ 0x00 ∷ 0x00 ∷ one_byte_text 0x61 ++ one_byte_text 0x61) ≡ Err (order 1) }
    ensures falling { partial_in (0x00 ∷ 0x02 ∷ 0x00 ∷ 0x00 ∷ 0x00 ∷ one_byte_text 0x62 ++ one_byte_text 0x61) ≡ Err (order 1) }
    ensures first { partial_in (0x00 ∷ 0x04 ∷ 0x00 ∷ 0x00 ∷ 0x00 ∷ one_byte_text 0x61 ++ one_byte_text 0x63 ++ one_byte_text 0x62 ++ one_byte_text 0x60) ≡ Err (order 2) }
    ensures layout_first { partial_in (0x00 ∷ 0x02 ∷ 0x00 ∷ 0x00 ∷ 0x00 ∷ one_byte_text 0x62 ++ one_byte_text 0x61 ++ 0x00 ∷ []) ≡ Err (frame (rest 15)) }
{}

/// Names that several texts share: the least one is told, and a name of zeros, even of one text. Texts that are not in order are refused for that. With SHA-256 no example is known.
pub fn clash_faults()
    ensures least { least_clash behind_first alike_in_pairs ≡ Some (0x01 ∷ []) }
    ensures zeros { least_clash (λ text. zero_digest) (take 1 two_texts) ≡ Some zero_digest }
    ensures apart { least_clash behind_first two_texts ≡ None }
    ensures refused { judged two_texts None (Some zero_digest) ≡ Err (clash zero_digest) }
    ensures order_first { judged two_texts (Some 1) (Some zero_digest) ≡ Err (order 1) }
{}

/// A recording of one read and two changes: how it is spelled, and that it is read again.
pub fn whole_recording()
    ensures spelled { spelled_recording small_recording ≡ one_read ++ two_changes 0x62 0x63 0x01 ++ no_state }
    ensures read { recording_in (one_read ++ two_changes 0x62 0x63 0x01 ++ no_state) ≡ Ok small_recording }
{}

/// What is wrong with the fields of a recording: the root is cut, more reads are counted than may be, though the bytes end there, a key is too long, a changed key is not above the one before it, which is told before what it becomes, and a byte says neither that a key is deleted nor that it is set.
pub fn field_faults()
    ensures no_root { recording_in (take 31 zero_digest) ≡ Err (recording.frame (short 0)) }
    ensures many_reads { recording_in (zero_digest ++ 0x01 ∷ 0x00 ∷ 0x01 ∷ 0x00 ∷ []) ≡ Err (head 32) }
    ensures long_key { vector_within 1 (start_of (0x02 ∷ 0x00 ∷ 0x00 ∷ 0x00 ∷ 0x61 ∷ 0x62 ∷ [])) ≡ Err (head 0) }
    ensures cut_key { vector_within 1 (start_of (0x02 ∷ 0x00 ∷ 0x00 ∷ 0x00 ∷ 0x61 ∷ [])) ≡ Err (recording.frame (short 4)) }
    ensures same_key { recording_in (one_read ++ two_changes 0x62 0x62 0x02 ++ no_state) ≡ Err (head 51) }
    ensures no_kind { recording_in (one_read ++ two_changes 0x62 0x63 0x02 ++ no_state) ≡ Err (recording.frame (ordinal 56)) }
{}

/// What is wrong behind the changes. Bytes that are left over are told last.
pub fn state_faults()
    ensures order { recording_in (one_read ++ two_changes 0x62 0x63 0x01 ++ falling_state ++ 0x00 ∷ []) ≡ Err (recording.order 1) }
    ensures rest { recording_in (one_read ++ two_changes 0x62 0x63 0x01 ++ no_state ++ 0x00 ∷ []) ≡ Err (recording.frame (rest 67)) }
    ensures cut { recording_in (one_read ++ two_changes 0x62 0x63 0x01 ++ take 4 no_state) ≡ Err (recording.frame (short 63)) }
{}
