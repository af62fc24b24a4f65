ghost use Rattle.std.specs.Prelude.{◌≡◌, ℕ, List, ◌++◌, replicate, false, Some};
ghost use Rattle.std.specs.List.{list_any};
ghost use Rattle.script_model.specs.Bounds.{IsAsked, IsCommanded};
ghost use Rattle.script_model.specs.Words.{Command, command_of};
ghost use Rattle.script_model.specs.Lines.{Event, event_of, line_feed, is_line_feed, first_line, first_feed, behind_line};

/// What a line asks for is within the limits: keys and values are bytes and short enough, ids have as
/// many bytes as a digest, and a height has eight bytes at most.
pub fn lines_keep_to_limits()
    ensures { (line : List ℕ) (asked : Event) → event_of line ≡ Some asked → IsAsked asked }
{}

/// So is what command words ask for.
pub fn words_keep_to_limits()
    ensures { (words : List (List ℕ)) (asked : Command) → command_of words ≡ Some asked → IsCommanded asked }
{}

/// Bytes are their first line, the line feed that ends it where one does, and what comes behind. The
/// line has no line feed in it.
pub fn bytes_begin_with_a_line()
    ensures parts { (bytes : List ℕ) → first_line bytes ++ replicate (first_feed bytes) line_feed ++ behind_line bytes ≡ bytes }
    ensures line { (bytes : List ℕ) → list_any is_line_feed (first_line bytes) ≡ false }
{}
