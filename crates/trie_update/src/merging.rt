ghost use Rattle.std.specs.Prelude.{◌≡◌, ◌+◌, ◌-◌, ◌≤◌, [], length, false, option_map, OnOk, IfOk};
ghost use Rattle.byte_model.specs.PackedPath.{longest_path};
ghost use Rattle.visit_model.specs.Seen.{seen_at};
ghost use Rattle.change_model.specs.Visits.{before, closed, merge_usage, merge_visits, visit_alone};
ghost use Rattle.node_codec.specs.Meanings.{children_in, value_of};
ghost use Rattle.update_model.specs.Joins.{joint};
ghost use Rattle.update_model.specs.Updates.{merged_kids, merged_lost};
ghost use Rattle.trie_update.specs.Adds.{Adds};
ghost use Rattle.trie_update.specs.Carries.{Carries};
ghost use Rattle.trie_update.specs.Formers.{IsFormer};
ghost use Rattle.trie_update.specs.Merges.{CanSettle, IsAlone, IsLoneNamed, IsMerged, MergedStands, lone_named, lost_read, seen_kids, top_read};
ghost use Rattle.trie_update.specs.Subs.{kid_at, top_of_sub};

use crate::errors::UpdateError;
use crate::former::FormerBranch;
use crate::joining::{Child, Few, Left, count_few, join, known};
use crate::ledger::Ledger;
use crate::visiting::{Visited, states_enough, visit};
use base_core::Digest;
use node_codec::{Node, ValueRef};
use std::alloc::{AllocError, Global};
use text_store::Texts;
use trie_shape::Sub;

/// The subtree of what is left of a branch, whose record states so much: no less than the branch
/// costs by itself and its visited children state.
#[inline(never)]
pub(crate) fn settle<T: Texts>(
    alloc: Global,
    store: &mut T,
    ledger: &mut Ledger,
    former: &FormerBranch<'_>,
    left: Left,
    above: u64,
    depth: u64,
) -> Result<Sub, UpdateError>
    requires sixteen { length left.children.items ≡ 16 }
    requires deep { depth ≤ longest_path }
    requires former { IsFormer former.now }
    requires joins { CanSettle (T.store.texts store.old) depth (option_map value_of left.value) (kid_at (children_in former.now.kids.now) left.children.items) former.now.stated above }
    ensures carries { let kids = kid_at (children_in former.now.kids.now) left.children.items in let seen = seen_kids (T.store.texts store.old) depth kids in let m = lone_named (option_map value_of left.value) kids in
        Carries T.store store.old store.new (before (merge_visits seen m) (closed former.now.digest.now.0 former.now.stated (above + merge_usage seen m))) result }
    ensures top { let kids = kid_at (children_in former.now.kids.now) left.children.items in let seen = seen_kids (T.store.texts store.old) depth kids in let m = lone_named (option_map value_of left.value) kids in
        IfOk result (λ sub. top_of_sub sub ≡ (joint (option_map value_of left.value) (merged_kids m seen kids) (former.now.stated - (above + merge_usage seen m))).top) }
    ensures adds { let kids = kid_at (children_in former.now.kids.now) left.children.items in let seen = seen_kids (T.store.texts store.old) depth kids in let m = lone_named (option_map value_of left.value) kids in
        OnOk result (Adds ledger.old ledger.new (joint (option_map value_of left.value) (merged_kids m seen kids) (former.now.stated - (above + merge_usage seen m))).made (merged_lost m seen) 0 0) }
    ensures stands { let kids = kid_at (children_in former.now.kids.now) left.children.items in
        OnOk result (MergedStands depth (lone_named (option_map value_of left.value) kids) (seen_kids (T.store.texts store.old) depth kids)) }
{
    let (left, merged) = merge(alloc, store, ledger, former, left, depth)?;
    let parts = above.saturating_add(merged);
    states_enough(former.digest, former.stated, parts)?;
    Ok(join(alloc, ledger, Some(former), left, former.stated - parts)?)
}

/// Visits the one child that is all that is left of a branch, if it was not visited before, and
/// answers what it states.
#[inline(never)]
fn merge<T: Texts>(
    alloc: Global,
    store: &mut T,
    ledger: &mut Ledger,
    former: &FormerBranch<'_>,
    left: Left,
    depth: u64,
) -> Result<(Left, u64), UpdateError>
    requires sixteen { length left.children.items ≡ 16 }
    requires deep { depth ≤ longest_path }
    ensures carries { let kids = kid_at (children_in former.now.kids.now) left.children.items in
        Carries T.store store.old store.new (merge_visits (seen_kids (T.store.texts store.old) depth kids) (lone_named (option_map value_of left.value) kids)) result }
    ensures merged { IfOk result (λ merged. IsMerged (children_in former.now.kids.now) (T.store.texts store.old) depth left ledger.old ledger.new merged) }
{
    let Left {
        value,
        mut children,
    } = left;
    let Some((nibble, digest)) = find_lone(former, &value, &children) else {
        return Ok((Left { value, children }, 0));
    };
    let (sub, stated) = visit_lone(alloc, store, ledger, digest, depth)?;
    children[nibble] = known(alloc, sub)?;
    Ok((Left { value, children }, stated))
}

/// The place and the name of the one child that is all that is left of a branch, if it was not
/// visited.
fn find_lone(
    former: &FormerBranch<'_>,
    value: &Option<ValueRef>,
    children: &[Child],
) -> Option<(usize, Digest)>
    requires { length children.now ≡ 16 }
    ensures { IsLoneNamed (option_map value_of value.now) (kid_at (children_in former.now.kids.now) children.now) result }
{
    if value.is_some() {
        return None;
    }
    match count_few(Some(former), children) {
        Few::Zero => None,
        Few::One(nibble) => match &children[nibble] {
            Child::Kept => match former.kids.get(nibble as u8) {
                Some(digest) => Some((nibble, digest)),
                None => None,
            },
            Child::Known(_) => None,
        },
        Few::More => None,
    }
}

/// Visits a place below which no key is changed. Its record is taken out, unless it is a branch.
fn visit_lone<T: Texts>(
    alloc: Global,
    store: &mut T,
    ledger: &mut Ledger,
    digest: Digest,
    depth: u64,
) -> Result<(Sub, u64), UpdateError>
    requires deep { depth ≤ longest_path }
    ensures carries { Carries T.store store.old store.new (visit_alone (seen_at (T.store.texts store.old) depth false digest.0)) result }
    ensures alone { IfOk result (λ alone. IsAlone depth (seen_at (T.store.texts store.old) depth false digest.0) ledger.old ledger.new alone) }
{
    let Visited { node, stated, own } = visit(alloc, store, &digest, depth, false)?;
    states_enough(&digest, stated, own)?;
    let sub = lone_sub(ledger, digest, node, stated, own)?;
    Ok((sub, stated))
}

fn lone_sub(
    ledger: &mut Ledger,
    digest: Digest,
    node: Node,
    stated: u64,
    own: u64,
) -> Result<Sub, AllocError>
    requires { own ≤ stated }
    ensures top { IfOk result (λ sub. top_of_sub sub ≡ top_read digest.0 node stated own) }
    ensures adds { OnOk result (Adds ledger.old ledger.new [] (lost_read digest.0 node) 0 0) }
{
    match node {
        Node::Branch { .. } => Ok(Sub::Branch {
            digest,
            usage: stated,
        }),
        Node::Leaf { path, value } => {
            ledger.lose(digest)?;
            Ok(Sub::Leaf { path, value })
        }
        Node::Extension { path, child } => {
            ledger.lose(digest)?;
            Ok(Sub::Extension {
                path,
                child,
                child_usage: stated - own,
            })
        }
    }
}
