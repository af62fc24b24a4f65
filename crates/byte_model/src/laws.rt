//! Laws over the definitions, in other words than theirs. A law is proved where its function is: there is nothing to run.

ghost use Rattle.std.specs.Prelude.{◌≡◌, ◌+◌, ◌*◌, ◌/◌, ◌^◌, ◌<◌, ℕ, List, Bool, length};
ghost use Rattle.std.specs.Ordering.{nat_cmp};
ghost use Rattle.std.specs.Cmp.Lexicographic.{slice_cmp};
ghost use Rattle.byte_model.specs.Borsh.{borsh_u16, borsh_u32, borsh_u64};
ghost use Rattle.byte_model.specs.Nibbles.{AreBytes, AreNibbles, nibbles};
ghost use Rattle.byte_model.specs.PackedPath.{packed};
ghost use Rattle.byte_model.specs.Node.{Node, spelled};
ghost use Rattle.byte_model.specs.Laws.{FitsRecord, SameNode};

/// Each integer takes the bytes of its width, and no two that fit the width are spelled alike.
pub fn integers_are_spelled_apart()
    ensures two_bytes { (n : ℕ) → length (borsh_u16 n) ≡ 2 }
    ensures four_bytes { (n : ℕ) → length (borsh_u32 n) ≡ 4 }
    ensures eight_bytes { (n : ℕ) → length (borsh_u64 n) ≡ 8 }
    ensures two_apart { (m n : ℕ) → m < 2 ^ 16 → n < 2 ^ 16 → borsh_u16 m ≡ borsh_u16 n → m ≡ n }
    ensures four_apart { (m n : ℕ) → m < 2 ^ 32 → n < 2 ^ 32 → borsh_u32 m ≡ borsh_u32 n → m ≡ n }
    ensures eight_apart { (m n : ℕ) → m < 2 ^ 64 → n < 2 ^ 64 → borsh_u64 m ≡ borsh_u64 n → m ≡ n }
{}

/// A key has two nibbles for each byte, no two keys have the same nibbles, and keys stand in the order of their nibbles.
pub fn nibbles_keep_keys_apart()
    ensures count { (key : List ℕ) → length (nibbles key) ≡ 2 * length key }
    ensures small { (key : List ℕ) → AreBytes key → AreNibbles (nibbles key) }
    ensures apart { (a b : List ℕ) → nibbles a ≡ nibbles b → a ≡ b }
    ensures order { (a b : List ℕ) → slice_cmp nat_cmp (nibbles a) (nibbles b) ≡ slice_cmp nat_cmp a b }
{}

/// No two paths of nibbles are packed alike, and none as a leaf's and as another's. A packed path has a byte for the flags and one for each two nibbles.
pub fn paths_are_packed_apart()
    ensures apart { (leaf other : Bool) (p q : List ℕ) → AreNibbles p → AreNibbles q → packed leaf p ≡ packed other q → (leaf ≡ other) × (p ≡ q) }
    ensures count { (leaf : Bool) (path : List ℕ) → length (packed leaf path) ≡ length path / 2 + 1 }
{}

/// No two nodes are spelled alike, and none with two usages, where their parts fit the fields of a record.
pub fn nodes_are_spelled_apart()
    ensures { (m n : Node) (usage other : ℕ) → FitsRecord m → FitsRecord n → usage < 2 ^ 64 → other < 2 ^ 64 → spelled m usage ≡ spelled n other → SameNode m n × (usage ≡ other) }
{}
