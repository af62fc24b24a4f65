//! Laws over the definitions, in other words than theirs. A law is proved where its function is: there is nothing to run.

ghost use Rattle.std.specs.Prelude.{◌≡◌, ◌+◌, ◌++◌, ◌↔◌, ℕ, List, length, Option, None, Ok, IfOk, MatchOption};
ghost use Rattle.sha2.specs.Sha256.{sha256};
ghost use Rattle.byte_model.specs.Nibbles.{AreBytes};
ghost use Rattle.record_model.specs.Fields.{Cursor};
ghost use Rattle.record_model.specs.Exact.{ReadsExactly};
ghost use Rattle.trie_model.specs.Root.{NoClash};
ghost use Rattle.partial_model.specs.Texts.{Rise, SetOfTexts, set_of, texts_in, FallsAt, IsClash, IsLeastClash, first_fall, least_clash};
ghost use Rattle.partial_model.specs.Partial.{AreTexts, IsPartial, spelled_partial, listed_at, partial_at, partial_in};
ghost use Rattle.partial_model.specs.Recording.{Recording, IsRecording, spelled_recording, recording_in};

/// Texts rise where no first one is out of order, and where one is found, it is the first.
pub fn falls_are_found()
    ensures { (texts : List (List ℕ)) → MatchOption (first_fall texts) (Rise texts) (FallsAt texts) }
{}

/// Of rising texts the least digest that two of them share is found, or the zero one where a text has it. None is found exactly where no texts clash.
pub fn clashes_are_found()
    ensures found { (name : List ℕ → List ℕ) (texts : List (List ℕ)) → Rise texts → MatchOption (least_clash name texts) ((digest : List ℕ) → ¬ IsClash name texts digest) (IsLeastClash name texts) }
    ensures none { (texts : List (List ℕ)) → Rise texts → (least_clash sha256 texts ≡ None) ↔ NoClash texts }
{}

/// Reading the layout accepts exactly what spells some texts, in whatever order.
pub fn layouts_are_read_exactly()
    ensures { ReadsExactly listed_at spelled_partial AreTexts }
{}

/// Bytes are read as a partial state exactly where they spell rising texts that don't clash. What was read is spelled by these bytes, and what is spelled is read again. The same holds of one that others follow: what it took and left is told.
pub fn partial_states_are_read_exactly()
    ensures found { (bytes : List ℕ) → AreBytes bytes → IfOk (partial_in bytes) (λ texts. IsPartial texts × NoClash texts × (bytes ≡ spelled_partial texts)) }
    ensures only { (texts : List (List ℕ)) → IsPartial texts → NoClash texts → partial_in (spelled_partial texts) ≡ Ok texts }
    ensures found_first { (c : Cursor) → AreBytes c.left → IfOk (partial_at c) (λ read. IsPartial read.0 × NoClash read.0 × (c.left ≡ spelled_partial read.0 ++ read.1.left) × (read.1.at ≡ c.at + length (spelled_partial read.0))) }
    ensures only_first { (texts : List (List ℕ)) (at : ℕ) (rest : List ℕ) → IsPartial texts → NoClash texts → partial_at (record { at = at; left = spelled_partial texts ++ rest }) ≡ Ok (texts, record { at = at + length (spelled_partial texts); left = rest }) }
{}

/// Where equal bytes begin with spelled texts on both sides, the texts are the same, and so is what stands behind them.
pub fn no_partial_state_begins_another()
    ensures { (some others : List (List ℕ)) (more rest : List ℕ) → AreTexts some → AreTexts others → spelled_partial some ++ more ≡ spelled_partial others ++ rest → (some ≡ others) × (more ≡ rest) }
{}

/// The texts of a set rise. Those of the set of some rising texts are these.
pub fn sets_of_texts_rise()
    ensures rise { (set : SetOfTexts) → Rise (texts_in set) }
    ensures back { (texts : List (List ℕ)) → Rise texts → texts_in (set_of texts) ≡ texts }
{}

/// Bytes are read as a recording exactly where they spell one whose texts don't clash. What was read is spelled by these bytes, and what is spelled is read again.
pub fn recordings_are_read_exactly()
    ensures found { (bytes : List ℕ) → AreBytes bytes → IfOk (recording_in bytes) (λ r. IsRecording r × NoClash r.state × (bytes ≡ spelled_recording r)) }
    ensures only { (r : Recording) → IsRecording r → NoClash r.state → recording_in (spelled_recording r) ≡ Ok r }
{}
