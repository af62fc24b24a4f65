//! Laws over the definitions, in other words than theirs. A law is proved where its function is: there
//! is nothing to run.

ghost use Rattle.std.specs.Prelude.{◌≡◌, ◌≢◌, ◌↔◌, ℕ, ◌+◌, ◌≤◌, Bool, true, false, List, [], ◌∷◌, ◌++◌, length, map, codes, None, Some, IfSome};
ghost use Rattle.std.specs.FinMap.{get, len};
ghost use Rattle.std.specs.List.{list_all, AllByRecursion};
ghost use Rattle.script_model.specs.Lines as lines;
ghost use Rattle.script_model.specs.Lines.{Event, block, head, pieces, first_line, first_feed, first_fault, behind_line, event_if};
ghost use Rattle.script_model.specs.Words.{Op, command_of, replay};
ghost use Rattle.byte_model.specs.Nibbles.{AreBytes};
ghost use Rattle.trie_model.specs.State.{State, IsState};
ghost use Rattle.trie_model.specs.Root as trie;
ghost use Rattle.trie_model.specs.Root.{NoClash, texts_of};
ghost use Rattle.batch_model.specs.Changes.{AreChanges, Changes, after};
ghost use Rattle.partial_model.specs.Recording.{Recording};
ghost use Rattle.recording_model.specs.Recorded.{recorded_texts};
ghost use Rattle.fork_model.specs.Trees.{Header, BlockFault, block_fault, is_live};
ghost use Rattle.fork_model.specs.States.{ForkState, tree_of_blocks, after_offer, after_head};
ghost use Rattle.count_model.specs.Clashes.{made_clash};
ghost use Rattle.count_model.specs.BlockEnds.{accepted, too_many, clashing, block_end};
ghost use Rattle.count_model.specs.Loads.{Access, no_texts};
ghost use Rattle.output_model.specs.Ends.{Output, RunLimits, clash_at, done};
ghost use Rattle.output_model.specs.Scripts.{goes_on, ends, after_line, at_last, lines_outcome};
ghost use Rattle.output_model.specs.Root.{root_script};
ghost use Rattle.output_model.specs.Histories.{History, outside, inside, history_step, history_script, told_step, event_loads, fault_name, block_ok, block_not, head_not};
ghost use Rattle.output_model.specs.Apply.{apply_script};
ghost use Rattle.output_model.specs.Readings.{same_states, same_text};
ghost use Rattle.output_model.specs.Output.{IsOutputOf};
ghost use Rattle.output_model.specs.Replay.{IsReplay, IsOfState, replayed};
ghost use Rattle.output_model.specs.Prove.{changes_in, reads_in, recorded};
ghost use Rattle.output_model.specs.Laws.{IfGoesOn, state_after, keeps_blocks, last_made, tells_block, IsTold};

/// The first line of what is left of an input decides what becomes of it: whether it can be read and
/// what it asks for, and then what comes behind it. Where nothing is left, the last request does.
pub fn first_line_decides()
    ensures end { (limits : RunLimits) (before number : ℕ) (state : State) →
        lines_outcome (root_script limits) before number state (pieces []) ≡ at_last (root_script limits) number state }
    ensures line { (limits : RunLimits) (before number : ℕ) (state : State) (bytes : List ℕ) → length bytes ≢ 0 →
        lines_outcome (root_script limits) before number state (pieces bytes)
        ≡ after_line (root_script limits) number (event_if (first_fault before bytes) (first_line bytes)) state
        (λ after. lines_outcome (root_script limits) (before + length (first_line bytes) + first_feed bytes) (number + 1) after (pieces (behind_line bytes))) }
    ensures history_end { (quiet : Bool) (limits : RunLimits) (request : ForkState → Output) (access : Access) (before number : ℕ) (history : History) →
        lines_outcome (history_script quiet limits request access) before number history (pieces []) ≡ at_last (history_script quiet limits request access) number history }
    ensures history_line { (quiet : Bool) (limits : RunLimits) (request : ForkState → Output) (access : Access) (before number : ℕ) (history : History) (bytes : List ℕ) → length bytes ≢ 0 →
        lines_outcome (history_script quiet limits request access) before number history (pieces bytes)
        ≡ after_line (history_script quiet limits request access) number (event_if (first_fault before bytes) (first_line bytes)) history
        (λ after. lines_outcome (history_script quiet limits request access) (before + length (first_line bytes) + first_feed bytes) (number + 1) after (pieces (behind_line bytes))) }
{}

/// The live blocks are changed by the end of a block and by a move of the head, as `fork_model` has
/// them, and by no other event. A block that is refused and a move to a block that is not live leave
/// them as they were, and no block is being told behind either. A block whose texts clash ends the run.
pub fn refused_events_leave_the_live_blocks()
    ensures accepted { (limits : RunLimits) (number : ℕ) (forks : ForkState) (header : Header) (changes : Changes) (state : State) → block_end limits.pairs limits.blocks forks header changes ≡ accepted state →
        history_step limits number (inside forks header changes) lines.block_end ≡ goes_on (block_ok header state) (outside (after_offer limits.blocks forks header changes)) }
    ensures refused { (limits : RunLimits) (number : ℕ) (forks : ForkState) (header : Header) (changes : Changes) (fault : BlockFault) → block_fault limits.blocks (tree_of_blocks forks) header ≡ Some fault →
        history_step limits number (inside forks header changes) lines.block_end ≡ goes_on (block_not header (fault_name fault)) (outside forks) }
    ensures full { (limits : RunLimits) (number : ℕ) (forks : ForkState) (header : Header) (changes : Changes) → block_end limits.pairs limits.blocks forks header changes ≡ too_many →
        history_step limits number (inside forks header changes) lines.block_end ≡ goes_on (block_not header (codes "full-pairs")) (outside forks) }
    ensures clash { (limits : RunLimits) (number : ℕ) (forks : ForkState) (header : Header) (changes : Changes) (digest : List ℕ) → block_end limits.pairs limits.blocks forks header changes ≡ clashing digest →
        history_step limits number (inside forks header changes) lines.block_end ≡ ends (clash_at digest) }
    ensures moved { (limits : RunLimits) (number : ℕ) (forks : ForkState) (id : List ℕ) →
        IfGoesOn (history_step limits number (outside forks) (head id)) (λ after. after ≡ outside (after_head forks id)) }
    ensures not_live { (limits : RunLimits) (number : ℕ) (forks : ForkState) (id : List ℕ) → is_live (tree_of_blocks forks) id ≡ false →
        history_step limits number (outside forks) (head id) ≡ goes_on (head_not id) (outside forks) }
    ensures others { (limits : RunLimits) (number : ℕ) (history : History) (asked : Event) → keeps_blocks asked ≡ true →
        IfGoesOn (history_step limits number history asked) (λ after. after.forks ≡ history.forks) }
{}

/// What is inside a block is what the lines since `block` change: of each key the last one decides. Live
/// blocks stay as they are meanwhile.
pub fn lines_of_a_block_are_its_changes()
    ensures { (limits : RunLimits) (number : ℕ) (forks : ForkState) (id prev : List ℕ) (height : ℕ) (events : List Event) → list_all tells_block events ≡ true →
        IfSome (state_after (apply_script limits) number (outside forks) (block id prev height ∷ events)) (IsTold limits forks (record { id = id; prev = prev; height = height }) events) }
{}

/// Two states are the same by their pairs exactly where they are equal, so `same yes` is replied
/// exactly where both blocks are live and their states are equal.
pub fn same_is_equal()
    ensures states { (first second : State) → (same_states first second ≡ true) ↔ (first ≡ second) }
    ensures yes { (first second : State) → first ≡ second → same_text (Some first) (Some second) ≡ codes "yes" }
    ensures no { (first second : State) → first ≢ second → same_text (Some first) (Some second) ≡ codes "no" }
{}

/// Told quietly, an event does to a history what it does otherwise, without a reply, and it loads no
/// more. Only the end of a block loads texts then.
pub fn quiet_events_do_the_same()
    ensures goes_on { (limits : RunLimits) (number : ℕ) (history : History) (asked : Event) (reply : List ℕ) (after : History) → history_step limits number history asked ≡ goes_on reply after →
        told_step true (history_step limits number history asked) ≡ goes_on [] after }
    ensures ends { (limits : RunLimits) (number : ℕ) (history : History) (asked : Event) (output : Output) → history_step limits number history asked ≡ ends output →
        told_step true (history_step limits number history asked) ≡ ends output }
    ensures outside { (limits : RunLimits) (forks : ForkState) (asked : Event) → event_loads true limits (outside forks) asked ≡ 0 }
    ensures inside { (limits : RunLimits) (forks : ForkState) (header : Header) (changes : Changes) (asked : Event) →
        event_loads true limits (inside forks header changes) asked ≡ event_loads false limits (inside forks header changes) asked }
{}

/// Each command but `replay` has one output.
pub fn other_commands_have_one_output()
    ensures { (limits : RunLimits) (words : List (List ℕ)) (input : List ℕ) (one other : Output) → command_of words ≢ Some replay → IsOutputOf limits words input one → IsOutputOf limits words input other → one ≡ other }
{}

/// Operations change what the last of them that changes a key makes of it, and they read keys in their
/// order. More changes are never fewer keys.
pub fn last_operation_counts()
    ensures changes { (key : List ℕ) (ops : List Op) → get (changes_in ops) key ≡ last_made key ops }
    ensures more { (ops further : List Op) → len (changes_in ops) ≤ len (changes_in (ops ++ further)) }
    ensures reads { (ops further : List Op) → reads_in (ops ++ further) ≡ reads_in ops ++ reads_in further }
{}

/// A recording that is replayed to its end over texts that can't be taken for others of a state with its
/// root: they are those that its reads and changes touch, and what is written is what the state has.
pub fn replays_tell_the_state()
    ensures texts { (recording : Recording) (state : State) (output : Output) → IsReplay recording output → output.ending ≡ done → IsOfState recording state → recording.state ≡ recorded_texts state recording.reads recording.changes }
    ensures output { (recording : Recording) (state : State) (output : Output) → IsReplay recording output → output.ending ≡ done → IsOfState recording state → output ≡ replayed (map (get state) recording.reads) (trie.root (after state recording.changes)) }
{}

/// And the other way round: the recording of a state whose texts don't clash is replayed to its end, and
/// what is written is what the state has, unless texts that the changes make clash, and then the least
/// such clash is told.
pub fn recordings_of_a_state_are_replayed()
    ensures output { (state : State) (reads : List (List ℕ)) (changes : Changes) (output : Output) → IsState state → AllByRecursion AreBytes reads → AreChanges changes → NoClash (texts_of state) → made_clash state changes ≡ None → IsReplay (recorded state reads changes) output → output ≡ replayed (map (get state) reads) (trie.root (after state changes)) }
    ensures clash { (state : State) (reads : List (List ℕ)) (changes : Changes) (digest : List ℕ) (output : Output) → IsState state → AllByRecursion AreBytes reads → AreChanges changes → NoClash (texts_of state) → made_clash state changes ≡ Some digest → IsReplay (recorded state reads changes) output → output ≡ clash_at digest }
{}
