//! Worked outputs.

ghost use Rattle.std.specs.Prelude.{◌≡◌, ℕ, List, [], ◌∷◌, ◌++◌, codes};
ghost use Rattle.script_model.specs.Lines.{line_feed};
ghost use Rattle.output_model.specs.Ends.{RunLimits, bad_command, syntax_at, refused_digest, line_of, not_live, done, syntax, refused};
ghost use Rattle.output_model.specs.Prove.{full_changes};
ghost use Rattle.output_model.specs.Output.{IsOutputOf, outcome_of};
ghost use Rattle.output_model.specs.Examples.{few, unchanging, one_id, two_id, begins_one, ends_one, one_accepted, some_root, one_read};
ghost use Rattle.fork_model.specs.Examples.{id_of};
ghost use Rattle.fork_model.specs.States.{after_head};
ghost use Rattle.count_model.specs.Examples.{one_line, two_forks, set_two, set_alike};
ghost use Rattle.output_model.specs.Readings.{flat_line, trie_line, same_line, usage_line, stats_line};

/// No word, another word, and a second word are no command, whatever the input is.
pub fn bad_words()
    ensures none { (limits : RunLimits) (input : List ℕ) → IsOutputOf limits [] input bad_command }
    ensures other { (limits : RunLimits) (input : List ℕ) → IsOutputOf limits (codes "Root" ∷ []) input bad_command }
    ensures second_apply { (limits : RunLimits) (input : List ℕ) → IsOutputOf limits (codes "apply" ∷ [] ∷ []) input bad_command }
    ensures get_alone { (limits : RunLimits) (input : List ℕ) → IsOutputOf limits (codes "get" ∷ one_id ∷ []) input bad_command }
    ensures second { (limits : RunLimits) (input : List ℕ) → IsOutputOf limits (codes "root" ∷ [] ∷ []) input bad_command }
    ensures second_replay { (limits : RunLimits) (input : List ℕ) → IsOutputOf limits (codes "replay" ∷ [] ∷ []) input bad_command }
{}

/// The root of no pairs.
pub fn no_pairs()
    ensures { (limits : RunLimits) → IsOutputOf limits (codes "root" ∷ []) []
        (record { bytes = codes "root 0000000000000000000000000000000000000000000000000000000000000000 0" ++ line_feed ∷ []; ending = done }) }
{}

/// A comment, an empty line, and then a line with half a byte, without its line feed.
pub fn bad_line()
    ensures { (limits : RunLimits) → IsOutputOf limits (codes "root" ∷ []) (codes "# a" ++ line_feed ∷ line_feed ∷ codes "set 6 61") (syntax_at 3) }
{}

/// A block without changes over the start, a key that it does not have, and what is asked of a block
/// that is not live. The head moves in the end: it passes the block, and nothing is dropped.
pub fn a_block_without_changes()
    ensures { IsOutputOf few (codes "apply" ∷ []) (begins_one ++ ends_one
        ++ line_of (codes "flat " ++ one_id ++ codes " 61")
        ++ line_of (codes "flat " ++ two_id ++ codes " 61")
        ++ line_of (codes "head " ++ two_id)
        ++ line_of (codes "head " ++ one_id))
        (record {
          bytes = one_accepted
              ++ line_of (codes "flat none")
              ++ line_of (codes "flat refused not-live")
              ++ line_of (codes "head " ++ two_id ++ codes " refused not-live")
              ++ line_of (codes "head " ++ one_id ++ codes " ok 1 0");
          ending = done;
        }) }
{}

/// Lines that stand where they may not. A reply to an earlier line stays written, and an input that ends
/// in a block is refused at the line that would come next.
pub fn misplaced_lines()
    ensures outside { IsOutputOf few (codes "apply" ∷ []) (codes "end") (syntax_at 1) }
    ensures inside { IsOutputOf few (codes "apply" ∷ []) (begins_one ++ begins_one) (syntax_at 2) }
    ensures behind { IsOutputOf few (codes "apply" ∷ []) (begins_one ++ ends_one ++ codes "set 61 61")
        (record { bytes = one_accepted ++ line_of (codes "syntax 3"); ending = syntax }) }
    ensures open { IsOutputOf few (codes "apply" ∷ []) begins_one (syntax_at 2) }
{}

/// Two keys are set, and one of them is deleted over that: what is read of both blocks, and behind a
/// move of the head to the second. The numbers were computed outside of this project.
pub fn readings_of_one_line()
    ensures usage { usage_line (one_line set_two) (id_of 1) ≡ line_of (codes "usage 308") }
    ensures usage_behind { usage_line (one_line set_two) (id_of 2) ≡ line_of (codes "usage 105") }
    ensures usage_start { usage_line (one_line set_two) (id_of 0) ≡ line_of (codes "usage 0") }
    ensures usage_not_live { usage_line (one_line set_two) (id_of 3) ≡ line_of (codes "usage refused not-live") }
    ensures deleted { trie_line (one_line set_two) (id_of 2) (0x62 ∷ []) ≡ line_of (codes "trie none") }
    ensures kept { trie_line (one_line set_two) (id_of 2) (0x61 ∷ []) ≡ line_of (codes "trie 61") }
    ensures flat { flat_line (one_line set_two) (id_of 2) (0x62 ∷ []) ≡ line_of (codes "flat none") }
    ensures not_live { trie_line (one_line set_two) (id_of 3) (0x61 ∷ []) ≡ line_of (codes "trie refused not-live") }
    ensures stats { stats_line (one_line set_two) ≡ line_of (codes "stats 3 0 3 7") }
    ensures stats_behind { stats_line (after_head (one_line set_two) (id_of 2)) ≡ line_of (codes "stats 1 1 0 2") }
    ensures alike { stats_line (one_line set_alike) ≡ line_of (codes "stats 3 0 3 5") }
    ensures alike_behind { stats_line (after_head (one_line set_alike) (id_of 2)) ≡ line_of (codes "stats 1 1 0 2") }
{}

/// Two forks with one state, and behind a move of the head to one of them.
pub fn readings_of_two_forks()
    ensures same { same_line two_forks (id_of 1) (id_of 2) ≡ line_of (codes "same yes") }
    ensures start { same_line two_forks (id_of 1) (id_of 0) ≡ line_of (codes "same no") }
    ensures not_live { same_line two_forks (id_of 3) (id_of 1) ≡ line_of (codes "same refused not-live") }
    ensures stats { stats_line two_forks ≡ line_of (codes "stats 3 0 4 6") }
    ensures stats_behind { stats_line (after_head two_forks (id_of 1)) ≡ line_of (codes "stats 1 2 0 6") }
{}

/// The loads of a history: nothing where no block is asked for, and a run without a command has none.
pub fn nothing_loaded()
    ensures no_command { (limits : RunLimits) (input : List ℕ) → (outcome_of limits [] input).loaded ≡ 0 }
    ensures root { (limits : RunLimits) (input : List ℕ) → (outcome_of limits (codes "root" ∷ []) input).loaded ≡ 0 }
    ensures replay { (limits : RunLimits) (input : List ℕ) → (outcome_of limits (codes "replay" ∷ []) input).loaded ≡ 0 }
    ensures no_input { (limits : RunLimits) → (outcome_of limits (codes "apply" ∷ []) []).loaded ≡ 0 }
{}

/// `get` behind a block without changes: no reply to the block, and then both lines; or a refusal, where
/// the block is not live.
pub fn a_key_behind_a_block()
    ensures live { IsOutputOf few (codes "get" ∷ one_id ∷ codes "61" ∷ []) (begins_one ++ ends_one ++ codes "stats")
        (record { bytes = line_of (codes "flat none") ++ line_of (codes "trie none"); ending = done }) }
    ensures not_live { IsOutputOf few (codes "get" ∷ two_id ∷ codes "61" ∷ []) (begins_one ++ ends_one)
        (record { bytes = line_of (codes "refused not-live"); ending = refused }) }
    ensures inside { IsOutputOf few (codes "get" ∷ one_id ∷ codes "61" ∷ []) (begins_one ++ codes "stats") (syntax_at 2) }
{}

/// `prove` wants operations. It is refused at a block that is not live, and, whatever the input is,
/// where more keys are changed than may be.
pub fn operations_at_a_block()
    ensures none { (limits : RunLimits) (input : List ℕ) → IsOutputOf limits (codes "prove" ∷ one_id ∷ []) input bad_command }
    ensures no_operation { (limits : RunLimits) (input : List ℕ) → IsOutputOf limits (codes "prove" ∷ one_id ∷ codes "61" ∷ []) input bad_command }
    ensures not_live { IsOutputOf few (codes "prove" ∷ two_id ∷ codes "?61" ∷ []) (begins_one ++ ends_one) not_live }
    ensures full { (input : List ℕ) → IsOutputOf unchanging (codes "prove" ∷ one_id ∷ codes "-61" ∷ []) input full_changes }
{}

/// Without a byte there is no root in front, and bytes that end within a count are refused where it
/// begins. A read at a root whose text is not there is refused with that root.
pub fn recordings_without_texts()
    ensures empty { (limits : RunLimits) → IsOutputOf limits (codes "replay" ∷ []) [] (syntax_at 0) }
    ensures cut { (limits : RunLimits) → IsOutputOf limits (codes "replay" ∷ []) (some_root ++ 1 ∷ 0 ∷ []) (syntax_at 32) }
    ensures missing { (limits : RunLimits) → IsOutputOf limits (codes "replay" ∷ []) one_read (refused_digest (codes "missing") some_root) }
{}
