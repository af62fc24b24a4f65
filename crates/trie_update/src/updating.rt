ghost use Rattle.std.specs.Prelude.{◌≡◌, ◌+◌, ◌≤◌, ◌<◌, ℕ, false, List, ◌∷◌, ◌++◌, [], length, take, drop, Option, option_copied, option_map, slice_index_or, None, Some, IfSome, OnOk, IfOk, IfErr};
ghost use Rattle.byte_model.specs.Nibbles.{nibbles};
ghost use Rattle.byte_model.specs.Node.{longest_value};
ghost use Rattle.byte_model.specs.PackedPath.{longest_path};
ghost use Rattle.trie_model.specs.Root.{Table};
ghost use Rattle.batch_model.specs.Changes.{most_changes};
ghost use Rattle.visit_model.specs.Seen.{Seen, branch, seen_at, seen_child, stated_usage};
ghost use Rattle.change_model.specs.Visits.{before, closed, most_usage, visits_at, visits_below};
ghost use Rattle.node_codec.specs.Meanings.{children_in, value_of};
ghost use Rattle.update_model.specs.Joins as kid;
ghost use Rattle.update_model.specs.Tops.{lowered};
ghost use Rattle.update_model.specs.Updates.{branch_outcome, fork_outcome, laid, ref_after, updated};
ghost use Rattle.trie_update.specs.Accounts.{CanCount, GrowsBy, IsNamed};
ghost use Rattle.trie_update.specs.Carries.{Carries};
ghost use Rattle.trie_update.specs.ChangesAt.{AreChangesAt, Lent, changes_at, value_lent};
ghost use Rattle.trie_update.specs.Formers.{IsFormer};
ghost use Rattle.trie_update.specs.Places.{FitsParent, FitsTop, Keeps, NoBranch, Reaches, TopKeeps, led_by, old_past, parent_names, place_behind, place_kid, place_visits, seen_past, top_stated, top_visits};
ghost use Rattle.trie_update.specs.Placed.{IsChild, IsParted, IsPlaced, branch_inside, run_at};
ghost use Rattle.trie_update.specs.Subs.{childless, kid_of, top_of_sub};
ghost use Rattle.trie_update.specs.declared.errors.UpdateError.TheVariants.{NoMemory};

use crate::errors::UpdateError;
use crate::former::{Former, FormerBranch, Parent};
use crate::joining::{Child, Left, join, known, no_children};
use crate::ledger::Ledger;
use crate::merging::settle;
use crate::old::{Old, shared_length};
use crate::parting::{KeyChange, alone, ending, run_length};
use crate::values::value_after;
use crate::visiting::{Visited, states_enough, visit};
use base_core::{Digest, Text};
use nibble_keys::Nibbles;
use node_codec::{Node, ValueRef};
use std::alloc::{AllocError, Global};
use text_store::Texts;
use trie_shape::Sub;

/// What a place has become, and what its record stated where it was visited.
#[derive(Debug, Drop)]
pub(crate) struct Placed {
    pub(crate) sub: Sub,
    pub(crate) stated: u64,
}

/// Visits the place under a digest, at which some keys are changed.
#[cycle(update)]
pub(crate) fn at_digest<T: Texts>(
    alloc: Global,
    store: &mut T,
    ledger: &mut Ledger,
    digest: &Digest,
    changes: &[KeyChange<'_>],
    depth: u64,
    after_extension: bool,
) -> Result<Placed, UpdateError>
    requires changes { AreChangesAt depth changes.now }
    requires some { 1 ≤ length changes.now }
    requires few { length changes.now ≤ most_changes }
    requires room { CanCount ledger.old (length changes.now) }
    requires named { IsNamed ledger.old }
    ensures carries { Carries T.store store.old store.new (visits_at (seen_at (T.store.texts store.old) depth after_extension digest.now.0) (changes_at depth changes.now)) result }
    ensures placed { let seen = seen_at (T.store.texts store.old) depth after_extension digest.now.0 in
        IfOk result (λ placed. IsPlaced (updated seen (changes_at depth changes.now)) (stated_usage seen) (length changes.now) ledger.old ledger.new placed) }
    ensures keeps { OnOk result (Keeps depth (seen_at (T.store.texts store.old) depth after_extension digest.now.0) (changes_at depth changes.now)) }
{
    let Visited { node, stated, own } = visit(alloc, store, digest, depth, after_extension)?;
    ledger.lose(*digest)?;
    match node {
        Node::Leaf { path, value } => {
            let old = Old::Leaf {
                path: path.as_slice(),
                value,
            };
            at_old(
                alloc, store, ledger, digest, &old, stated, own, changes, depth,
            )
        }
        Node::Extension { path, child } => {
            let old = Old::Extension {
                path: path.as_slice(),
                child,
                child_usage: stated.saturating_sub(own),
            };
            at_old(
                alloc, store, ledger, digest, &old, stated, own, changes, depth,
            )
        }
        Node::Branch { value, kids } => {
            let former = FormerBranch {
                digest,
                value: &value,
                kids: &kids,
                stated,
                own,
            };
            at_branch(alloc, store, ledger, &former, changes, depth)
        }
    }
}

/// A leaf or an extension that was read, whose record states so much: no less than it costs by itself
/// and its branch states, if that was visited.
#[cycle(update)]
#[inline(always)]
fn at_old<T: Texts>(
    alloc: Global,
    store: &mut T,
    ledger: &mut Ledger,
    digest: &Digest,
    old: &Old<'_>,
    stated: u64,
    own: u64,
    changes: &[KeyChange<'_>],
    depth: u64,
) -> Result<Placed, UpdateError>
    requires changes { AreChangesAt depth changes.now }
    requires some { 1 ≤ length changes.now }
    requires few { length changes.now ≤ most_changes }
    requires room { CanCount ledger.old (length changes.now) }
    requires named { IsNamed ledger.old }
    requires old { FitsTop depth (old_past 0 old.now) }
    requires most { stated ≤ most_usage }
    ensures carries { let below = seen_past (T.store.texts store.old) depth 0 old.now in
        Carries T.store store.old store.new (before (top_visits below (old_past 0 old.now) (changes_at depth changes.now)) (closed digest.now.0 stated (own + top_stated below (old_past 0 old.now) (changes_at depth changes.now)))) result }
    ensures placed { let below = seen_past (T.store.texts store.old) depth 0 old.now in
        IfOk result (λ placed. IsPlaced (laid (λ cs. updated below cs) (old_past 0 old.now) (changes_at depth changes.now)) stated (length changes.now) ledger.old ledger.new placed) }
    ensures keeps { OnOk result (TopKeeps depth (seen_past (T.store.texts store.old) depth 0 old.now) (old_past 0 old.now) (changes_at depth changes.now)) }
{
    let placed = at_path(alloc, store, ledger, old, changes, depth)?;
    states_enough(digest, stated, own.saturating_add(placed.stated))?;
    Ok(Placed {
        sub: placed.sub,
        stated,
    })
}

/// What stood before a path is used up or parts from the changed keys, all of which go on from here.
#[cycle(update)]
pub(crate) fn at_path<T: Texts>(
    alloc: Global,
    store: &mut T,
    ledger: &mut Ledger,
    old: &Old<'_>,
    changes: &[KeyChange<'_>],
    depth: u64,
) -> Result<Placed, UpdateError>
    requires changes { AreChangesAt depth changes.now }
    requires some { 1 ≤ length changes.now }
    requires few { length changes.now ≤ most_changes }
    requires room { CanCount ledger.old (length changes.now) }
    requires named { IsNamed ledger.old }
    requires old { FitsTop depth (old_past 0 old.now) }
    ensures carries { Carries T.store store.old store.new (top_visits (seen_past (T.store.texts store.old) depth 0 old.now) (old_past 0 old.now) (changes_at depth changes.now)) result }
    ensures placed { let below = seen_past (T.store.texts store.old) depth 0 old.now in
        IfOk result (λ placed. IsPlaced (laid (λ cs. updated below cs) (old_past 0 old.now) (changes_at depth changes.now)) (top_stated below (old_past 0 old.now) (changes_at depth changes.now)) (length changes.now) ledger.old ledger.new placed) }
    ensures keeps { OnOk result (TopKeeps depth (seen_past (T.store.texts store.old) depth 0 old.now) (old_past 0 old.now) (changes_at depth changes.now)) }
{
    let shared = shared_length(old, changes, depth);
    let below = depth + shared as u64;
    match led_to(old, shared) {
        Some(child) => {
            let placed = at_digest(alloc, store, ledger, child, changes, below, true)?;
            lower(alloc, placed, changes, depth, shared)
        }
        None => {
            let placed = at_fork(alloc, store, ledger, old, shared, changes, below)?;
            lower(alloc, placed, changes, depth, shared)
        }
    }
}

/// The branch that is reached after so many nibbles, if one is.
#[inline(always)]
fn led_to<'o>(old: &'o Old<'_>, count: usize) -> Option<&'o Digest>
    ensures { option_copied result ≡ led_by count old.now }
{
    match old {
        Old::Extension { path, child, .. } => {
            if path.len() == count {
                Some(child)
            } else {
                None
            }
        }
        Old::Nothing => None,
        Old::Leaf { .. } => None,
    }
}

/// Puts so many nibbles of the changed keys, which all have them, before what a place has become.
#[inline(always)]
fn lower(
    alloc: Global,
    placed: Placed,
    changes: &[KeyChange<'_>],
    depth: u64,
    count: usize,
) -> Result<Placed, UpdateError>
    requires changes { AreChangesAt (depth + count) changes.now }
    requires some { 1 ≤ length changes.now }
    ensures top { IfOk result (λ lower. (d : Lent) → top_of_sub lower.sub ≡ lowered (take count (drop depth (nibbles (slice_index_or changes.now 0 d).0.now))) (top_of_sub placed.sub)) }
    ensures stated { IfOk result (λ lower. lower.stated ≡ placed.stated) }
    ensures error { IfErr result (λ error. error ≡ NoMemory) }
{
    if count == 0 {
        return Ok(placed);
    }
    let (key, _) = changes[0];
    let Placed { sub, stated } = placed;
    let prefix = nibbles_of(alloc, key, depth, count)?;
    let sub = prefixed(sub, prefix)?;
    Ok(Placed { sub, stated })
}

/// Puts nibbles before a subtree. They become its path, or the beginning of it.
fn prefixed(sub: Sub, prefix: Vec<u8>) -> Result<Sub, AllocError>
    requires some { 1 ≤ length prefix.items }
    ensures top { IfOk result (λ lower. top_of_sub lower ≡ lowered prefix.items (top_of_sub sub)) }
{
    match sub {
        Sub::Empty => Ok(Sub::Empty),
        Sub::Leaf { path, value } => Ok(Sub::Leaf {
            path: joined(prefix, path.as_slice())?,
            value,
        }),
        Sub::Branch { digest, usage } => Ok(Sub::Extension {
            path: Text::from_bytes(prefix),
            child: digest,
            child_usage: usage,
        }),
        Sub::Extension {
            path,
            child,
            child_usage,
        } => Ok(Sub::Extension {
            path: joined(prefix, path.as_slice())?,
            child,
            child_usage,
        }),
    }
}

fn joined(mut prefix: Vec<u8>, path: &[u8]) -> Result<Text, AllocError>
    ensures { IfOk result (λ text. text ≡ prefix.items ++ path.now) }
{
    prefix.extend_from_slice(path)?;
    Ok(Text::from_bytes(prefix))
}

/// Some nibbles of a key, one to a byte.
fn nibbles_of(alloc: Global, key: &[u8], from: u64, count: usize) -> Result<Vec<u8>, AllocError>
    requires { from + count ≤ length (nibbles key.now) }
    ensures { IfOk result (λ some. some.items ≡ take count (drop from (nibbles key.now))) }
{
    let path = Nibbles::new(key).rest(from);
    let mut nibbles = Vec::with_capacity(alloc, count)?;
    for i in 0..count {
        nibbles.push(path.at(i as u64))?;
    }
    Ok(nibbles)
}

/// Where the changed keys part, or one of them ends, below so many nibbles of what stood there before,
/// which is no branch.
#[cycle(update)]
fn at_fork<T: Texts>(
    alloc: Global,
    store: &mut T,
    ledger: &mut Ledger,
    old: &Old<'_>,
    shared: usize,
    changes: &[KeyChange<'_>],
    depth: u64,
) -> Result<Placed, UpdateError>
    requires changes { AreChangesAt depth changes.now }
    requires some { 1 ≤ length changes.now }
    requires few { length changes.now ≤ most_changes }
    requires room { CanCount ledger.old (length changes.now) }
    requires named { IsNamed ledger.old }
    requires old { FitsTop depth (old_past shared old.now) }
    requires reaches { Reaches shared old.now }
    requires forks { NoBranch (old_past shared old.now) }
    ensures carries { Carries T.store store.old store.new (top_visits (seen_past (T.store.texts store.old) depth shared old.now) (old_past shared old.now) (changes_at depth changes.now)) result }
    ensures placed { let below = seen_past (T.store.texts store.old) depth shared old.now in
        IfOk result (λ placed. IsPlaced (fork_outcome (laid (λ cs. updated below cs)) (old_past shared old.now) (changes_at depth changes.now)) (top_stated below (old_past shared old.now) (changes_at depth changes.now)) (length changes.now) ledger.old ledger.new placed) }
    ensures keeps { OnOk result (TopKeeps depth (seen_past (T.store.texts store.old) depth shared old.now) (old_past shared old.now) (changes_at depth changes.now)) }
{
    let value = old.value_at(shared);
    if old.ends(shared) {
        if let Some(change) = alone(changes, depth) {
            let only = value_alone(alloc, ledger, value, change)?;
            return Ok(Placed {
                sub: only,
                stated: 0,
            });
        }
    }
    let parent = Parent::Path(*old, shared);
    let (left, stated) = at_nibbles(alloc, store, ledger, value, &parent, changes, depth)?;
    let sub = join(alloc, ledger, None, left, 0)?;
    Ok(Placed { sub, stated })
}

/// What becomes of a place where one key ends, and nothing else stands. It is a call of its own, so
/// that a place takes little of the stack.
#[inline(never)]
fn value_alone(
    alloc: Global,
    ledger: &mut Ledger,
    former: Option<ValueRef>,
    change: Option<&[u8]>,
) -> Result<Sub, AllocError>
    requires short { IfSome change (λ v. length v.now ≤ longest_value) }
    requires room { CanCount ledger.old 1 }
    requires named { IsNamed ledger.old }
    ensures top { IfOk result (λ sub. top_of_sub sub ≡ childless (ref_after (option_map value_of former) (Some (value_lent change.entry)))) }
    ensures grows { OnOk result (GrowsBy ledger.old ledger.new (option_map value_of former) (Some (value_lent change.entry))) }
    ensures names { OnOk result (IsNamed ledger.new) }
{
    let value = value_after(alloc, ledger, former, Some(change))?;
    Ok(no_children(alloc, value))
}

/// A branch that was read.
#[cycle(update)]
fn at_branch<T: Texts>(
    alloc: Global,
    store: &mut T,
    ledger: &mut Ledger,
    former: &FormerBranch<'_>,
    changes: &[KeyChange<'_>],
    depth: u64,
) -> Result<Placed, UpdateError>
    requires changes { AreChangesAt depth changes.now }
    requires some { 1 ≤ length changes.now }
    requires few { length changes.now ≤ most_changes }
    requires room { CanCount ledger.old (length changes.now) }
    requires named { IsNamed ledger.old }
    requires deep { depth + 1 ≤ longest_path }
    requires former { IsFormer former.now }
    ensures carries { (children : ℕ → Seen) → ((x : ℕ) → x < 16 → children x ≡ seen_child (seen_at (T.store.texts store.old) (depth + 1) false) (children_in former.now.kids.now x)) →
        Carries T.store store.old store.new (branch_inside former.now.digest.now.0 former.now.stated (option_map value_of former.now.value.now) children (changes_at depth changes.now)) result }
    ensures placed { (children : ℕ → Seen) → ((x : ℕ) → x < 16 → children x ≡ seen_child (seen_at (T.store.texts store.old) (depth + 1) false) (children_in former.now.kids.now x)) →
        IfOk result (λ placed. IsPlaced (branch_outcome former.now.stated (option_map value_of former.now.value.now) children (changes_at depth changes.now) (λ x. updated (children x) (run_at (changes_at depth changes.now) x))) former.now.stated (length changes.now) ledger.old ledger.new placed) }
    ensures keeps { (children : ℕ → Seen) → ((x : ℕ) → x < 16 → children x ≡ seen_child (seen_at (T.store.texts store.old) (depth + 1) false) (children_in former.now.kids.now x)) →
        OnOk result (Keeps depth (branch former.now.digest.now.0 former.now.stated (option_map value_of former.now.value.now) children) (changes_at depth changes.now)) }
{
    let parent = Parent::Branch(former.kids);
    let (left, below) = at_nibbles(alloc, store, ledger, *former.value, &parent, changes, depth)?;
    let above = former.own.saturating_add(below);
    let sub = settle(alloc, store, ledger, former, left, above, depth + 1)?;
    Ok(Placed {
        sub,
        stated: former.stated,
    })
}

/// What is left behind the nibbles, and what the places there stated that were visited.
#[cycle(update)]
fn at_nibbles<T: Texts>(
    alloc: Global,
    store: &mut T,
    ledger: &mut Ledger,
    former: Option<ValueRef>,
    parent: &Parent<'_>,
    changes: &[KeyChange<'_>],
    depth: u64,
) -> Result<(Left, u64), UpdateError>
    requires changes { AreChangesAt depth changes.now }
    requires some { 1 ≤ length changes.now }
    requires few { length changes.now ≤ most_changes }
    requires room { CanCount ledger.old (length changes.now) }
    requires named { IsNamed ledger.old }
    requires parent { FitsParent depth parent.now }
    ensures carries { let places = place_behind (T.store.texts store.old) depth parent.now in
        Carries T.store store.old store.new (visits_below (λ x. place_visits (places x) (run_at (changes_at depth changes.now) x)) 16) result }
    ensures parted { IfOk result (λ parted. IsParted (parent_names parent.now) depth (option_map value_of former) (place_behind (T.store.texts store.old) depth parent.now) (changes_at depth changes.now) ledger.old ledger.new parted) }
{
    let (here, mut rest) = ending(changes, depth);
    let value = value_after(alloc, ledger, former, here)?;
    let mut children = Vec::with_capacity(alloc, 16)?;
    let mut stated = 0u64;
    for nibble in 0..16 {
        let (run, others) = rest.split_at(run_length(rest, depth, nibble));
        rest = others;
        let (child, used) = at_nibble(alloc, store, ledger, parent, nibble, run, depth)?;
        stated = stated.saturating_add(used);
        push(&mut children, child)?;
    }
    Ok((Left { value, children }, stated))
}

#[inline(always)]
fn push(children: &mut Vec<Child>, child: Child) -> Result<(), AllocError>
    ensures items { OnOk result (children.new.items ≡ children.old.items ++ child ∷ []) }
{
    Ok(children.push(child)?)
}

/// What has become of what stood behind a nibble, and what it stated where it was visited.
#[cycle(update)]
fn at_nibble<T: Texts>(
    alloc: Global,
    store: &mut T,
    ledger: &mut Ledger,
    parent: &Parent<'_>,
    nibble: u8,
    changes: &[KeyChange<'_>],
    depth: u64,
) -> Result<(Child, u64), UpdateError>
    requires changes { AreChangesAt (depth + 1) changes.now }
    requires few { length changes.now ≤ most_changes }
    requires room { CanCount ledger.old (length changes.now) }
    requires named { IsNamed ledger.old }
    requires parent { FitsParent depth parent.now }
    requires inside { nibble < 16 }
    requires deep { depth ≤ longest_path }
    ensures carries { Carries T.store store.old store.new (place_visits (place_behind (T.store.texts store.old) depth parent.now nibble) (changes_at (depth + 1) changes.now)) result }
    ensures child { IfOk result (λ child. IsChild (parent_names parent.now nibble) (depth + 1) (place_behind (T.store.texts store.old) depth parent.now nibble) (changes_at (depth + 1) changes.now) ledger.old ledger.new child) }
{
    if changes.is_empty() {
        return Ok((unchanged(alloc, parent, nibble)?, 0));
    }
    let below = depth + 1;
    let former = parent.behind(nibble);
    match &former {
        Former::Known(old) => {
            let placed = at_path(alloc, store, ledger, old, changes, below)?;
            child_placed(alloc, placed)
        }
        Former::Named(digest) => {
            let placed = at_digest(alloc, store, ledger, digest, changes, below, false)?;
            child_placed(alloc, placed)
        }
    }
}

/// What a place has become as a child, and what its record stated.
#[inline(always)]
fn child_placed(alloc: Global, placed: Placed) -> Result<(Child, u64), UpdateError>
    ensures child { IfOk result (λ child. ((name : Option (List ℕ)) → kid_of name child.0 ≡ kid.known (top_of_sub placed.sub)) × (child.1 ≡ placed.stated)) }
    ensures error { IfErr result (λ error. error ≡ NoMemory) }
{
    let Placed { sub, stated } = placed;
    let child = known(alloc, sub)?;
    Ok((child, stated))
}

/// The child that stood behind a nibble, where no key is changed. A branch keeps its own.
#[inline(always)]
fn unchanged(alloc: Global, parent: &Parent<'_>, nibble: u8) -> Result<Child, AllocError>
    requires { nibble < 16 }
    ensures child { IfOk result (λ child. (table : Table) (depth : ℕ) → kid_of (parent_names parent.now nibble) child ≡ place_kid (place_behind table depth parent.now nibble) []) }
{
    match *parent {
        Parent::Path(old, count) => unchanged_old(alloc, &old.behind(count, nibble)),
        Parent::Branch(_) => Ok(Child::Kept),
    }
}

/// What stood behind a nibble of a path. No branch was there: where nothing stood, what is kept is nothing.
#[inline(always)]
fn unchanged_old(alloc: Global, old: &Old<'_>) -> Result<Child, AllocError>
    ensures child { IfOk result (λ child. kid_of None child ≡ kid.known (old_past 0 old.now)) }
{
    match old.sub(alloc)? {
        Sub::Empty => Ok(Child::Kept),
        sub => known(alloc, sub),
    }
}
