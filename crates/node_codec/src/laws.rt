//! A law of records, over the definitions. It is proved where its function is: there is nothing to
//! run.

ghost use Rattle.std.specs.Prelude.{◌≡◌, ◌++◌, ℕ, List};
ghost use Rattle.byte_model.specs.Node.{Node};
ghost use Rattle.byte_model.specs.Laws.{SameNode};
ghost use Rattle.record_model.specs.Records.{IsRecord};

/// Where equal bytes begin with a record on both sides, the two records are one, of one node and
/// usage. So a reader needs no length to know where a record ends.
pub fn no_record_begins_another()
    ensures { (m n : Node) (usage other : ℕ) (one two more rest : List ℕ) → IsRecord m usage one → IsRecord n other two → one ++ more ≡ two ++ rest → SameNode m n × (usage ≡ other) × (one ≡ two) }
{}
