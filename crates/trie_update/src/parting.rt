ghost use Rattle.std.specs.Prelude.{◌≡◌, ◌+◌, ◌≤◌, ◌<◌, [], ◌∷◌, drop, length, option_map, IfSome};
ghost use Rattle.byte_model.specs.Nibbles.{nibbles};
ghost use Rattle.byte_model.specs.Node.{longest_value};
ghost use Rattle.batch_model.specs.Changes.{found_at};
ghost use Rattle.trie_shape.specs.Runs.{goes_on};
ghost use Rattle.trie_update.specs.ChangesAt.{Rises, AllFrom, AreChangesAt, IsLeft, changes_at, run_of, value_lent};

use nibble_keys::Nibbles;

/// A changed key, and the value that it gets, or none where it is deleted.
pub type KeyChange<'a> = (&'a [u8], Option<&'a [u8]>);

/// What the key that ends at a depth becomes, if one does, and the changes that go on.
pub(crate) fn ending<'a, 'b>(
    changes: &'a [KeyChange<'b>],
    depth: u64,
) -> (Option<Option<&'b [u8]>>, &'a [KeyChange<'b>])
    requires { AreChangesAt depth changes.now }
    ensures value { option_map value_lent result.0 ≡ found_at [] (changes_at depth changes.now) }
    ensures short { IfSome result.0 (λ value. IfSome value (λ v. length v.now ≤ longest_value)) }
    ensures left { IsLeft 0 depth changes.now result.1.now }
    ensures fewer { IfSome result.0 (λ value. length result.1.now < length changes.now) }
{
    let Some((&(key, value), rest)) = changes.split_first() else {
        return (None, changes);
    };
    if Nibbles::new(key).len() == depth {
        (Some(value), rest)
    } else {
        (None, changes)
    }
}

/// What the changed key becomes, where it is the only one and ends at a depth.
pub(crate) fn alone<'b>(changes: &[KeyChange<'b>], depth: u64) -> Option<Option<&'b [u8]>>
    requires { AreChangesAt depth changes.now }
    ensures lone { IfSome result (λ value. changes_at depth changes.now ≡ ([], value_lent value) ∷ []) }
    ensures short { IfSome result (λ value. IfSome value (λ v. length v.now ≤ longest_value)) }
{
    match changes {
        [(key, value)] => {
            if Nibbles::new(key).len() == depth {
                Some(*value)
            } else {
                None
            }
        }
        _ => None,
    }
}

/// How many changes go on with a nibble at a depth, where none goes on with a lower one. They are
/// the first ones, so the place where they end is searched for.
pub(crate) fn run_length(changes: &[KeyChange<'_>], depth: u64, nibble: u8) -> usize
    requires rises { Rises (changes_at depth changes.now) }
    requires from { AllFrom nibble (changes_at depth changes.now) }
    ensures { result ≡ run_of nibble (changes_at depth changes.now) }
{
    let Some((key, _)) = changes.first() else {
        return 0;
    };
    if !goes_on(key, depth, nibble) {
        return 0;
    }
    changes.partition_point(|(key, _)| goes_on(key, depth, nibble))
}

fn goes_on(key: &[u8], depth: u64, nibble: u8) -> bool
    ensures { result ≡ goes_on nibble (drop depth (nibbles key.now)) }
{
    let path = Nibbles::new(key);
    depth < path.len() && path.at(depth) == nibble
}
