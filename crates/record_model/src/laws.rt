//! Laws over the definitions, in other words than theirs. A law is proved where its function is: there is nothing to run.

ghost use Rattle.std.specs.Prelude.{◌≡◌, ◌++◌, ◌+◌, ◌*◌, ◌/◌, ◌^◌, ◌<◌, ℕ, List, length, take, drop, Bool, nat_lt, if◌then◌else◌, Ok, Err, IfOk, IsOkAnd, Decides};
ghost use Rattle.std.specs.Int.{w8, w16, w32, w64};
ghost use Rattle.byte_model.specs.Nibbles.{AreBytes, AreNibbles};
ghost use Rattle.byte_model.specs.Borsh.{borsh_u8, borsh_u16, borsh_u32, borsh_u64, borsh_bytes};
ghost use Rattle.byte_model.specs.PackedPath.{packed};
ghost use Rattle.byte_model.specs.Node.{digest_width, Node, spelled, IsShaped};
ghost use Rattle.byte_model.specs.Laws.{FitsRecord, SameNode};
ghost use Rattle.record_model.specs.Fields.{Cursor, short, bytes_at, number_at, vector_at, digests_at};
ghost use Rattle.record_model.specs.Exact.{ReadsExactly};
ghost use Rattle.record_model.specs.Paths.{path_in};
ghost use Rattle.record_model.specs.Records.{HasNibblesOnly, HasShortPath, IsRecord, has_shape, record_in};

/// Reading a field accepts exactly what Borsh 1.0 spells: integers of one, two, four and eight bytes, arrays of a fixed length, and vectors of bytes.
pub fn fields_are_read_exactly()
    ensures one_byte { ReadsExactly (number_at w8) borsh_u8 (λ n. n < 2 ^ 8) }
    ensures two_bytes { ReadsExactly (number_at w16) borsh_u16 (λ n. n < 2 ^ 16) }
    ensures four_bytes { ReadsExactly (number_at w32) borsh_u32 (λ n. n < 2 ^ 32) }
    ensures eight_bytes { ReadsExactly (number_at w64) borsh_u64 (λ n. n < 2 ^ 64) }
    ensures array { (count : ℕ) → ReadsExactly (bytes_at count) (λ bytes. bytes) (λ bytes. length bytes ≡ count) }
    ensures vector { ReadsExactly vector_at borsh_bytes (λ bytes. length bytes < 2 ^ 32) }
{}

/// Digests are read one after the other as all their bytes are read at once. Where the bytes end before, the fault is at the first digest that is not whole.
pub fn digests_are_read_at_once()
    ensures { (n : ℕ) (c : Cursor) → digests_at n c ≡
        (if nat_lt (length c.left) (digest_width * n) then Err (short (c.at + length c.left / digest_width * digest_width))
        else Ok (take (digest_width * n) c.left, record { at = c.at + digest_width * n; left = drop (digest_width * n) c.left })) }
{}

/// Reading a packed path accepts exactly what packing gives.
pub fn paths_are_read_exactly()
    ensures found { (bytes : List ℕ) → AreBytes bytes → IfOk (path_in bytes) (λ p. AreNibbles p.0 × (bytes ≡ packed p.1 p.0)) }
    ensures only { (leaf : Bool) (path : List ℕ) → AreNibbles path → path_in (packed leaf path) ≡ Ok (path, leaf) }
{}

/// The test of a node's shape passes exactly the nodes of good shape.
pub fn shapes_are_tested()
    ensures { (node : Node) → Decides (has_shape node) (IsShaped node) }
{}

/// Reading a record accepts exactly the spellings of nodes of good shape. A branch that is read has no child but those of the sixteen nibbles.
pub fn records_are_read_exactly()
    ensures found { (bytes : List ℕ) → AreBytes bytes → IfOk (record_in bytes) (λ r. IsRecord r.0 r.1 bytes × HasNibblesOnly r.0) }
    ensures only { (node : Node) (usage : ℕ) (bytes : List ℕ) → IsRecord node usage bytes → IsOkAnd (record_in bytes) (λ r. SameNode r.0 node × (r.1 ≡ usage) × HasNibblesOnly r.0) }
{}

/// Where equal bytes begin with a record on both sides, the two records are one, of one node and usage. So a reader needs no length to know where a record ends. Of spellings it is said whatever shape the nodes have.
pub fn no_record_begins_another()
    ensures records { (m n : Node) (usage other : ℕ) (one two more rest : List ℕ) → IsRecord m usage one → IsRecord n other two → one ++ more ≡ two ++ rest → SameNode m n × (usage ≡ other) × (one ≡ two) }
    ensures spellings { (m n : Node) (usage other : ℕ) (more rest : List ℕ) → FitsRecord m → HasShortPath m → usage < 2 ^ 64 → FitsRecord n → HasShortPath n → other < 2 ^ 64 → spelled m usage ++ more ≡ spelled n other ++ rest → SameNode m n × (usage ≡ other) × (more ≡ rest) }
{}
