ghost use Rattle.std.specs.Prelude.{◌≡◌, ◌+◌, ◌^◌, ◌<◌, ℕ, List, [], ◌∷◌, length, drop, Option, option_map, Some, IfSome, IsTrue, OnOk, IfOk};
ghost use Rattle.byte_model.specs.Node as node;
ghost use Rattle.byte_model.specs.Node.{IsShaped, own_cost};
ghost use Rattle.node_codec.specs.Meanings.{children_in, value_of};
ghost use Rattle.update_model.specs.Sound.{StandsAt};
ghost use Rattle.update_model.specs.Tops.{lowered, pending, top_digest, top_usage};
ghost use Rattle.update_model.specs.Joins as model;
ghost use Rattle.update_model.specs.Joins.{branched, joint, kid_name, kid_pending, kid_top, kid_usage, there};
ghost use Rattle.trie_shape.specs.declared.sub.Sub.TheVariants.{Branch};
ghost use Rattle.trie_shape.specs.Shows.{IsRecord};
ghost use Rattle.trie_update.specs.Accounts.{Gains};
ghost use Rattle.trie_update.specs.Adds.{Adds};
ghost use Rattle.trie_update.specs.Formers.{IsFormer, names_of};
ghost use Rattle.trie_update.specs.Subs.{CanFork, CanJoin, IsFew, IsKnown, IsNamedAt, KidStands, child_at, childless, kid_at, kid_of, more, top_of_sub};

use crate::former::FormerBranch;
use crate::ledger::Ledger;
use base_core::{Digest, Text};
use node_codec::{Kids, ValueRef, write_branch};
use std::alloc::{AllocError, Global};
use std::collections::VecDeque;
use trie_shape::{CloseError, Closed, Sub, close_branch};

/// A child of a branch after the batch.
#[derive(Debug, Drop)]
pub(crate) enum Child {
    /// What its branch had there before, if anything. No key behind it is changed.
    Kept,
    /// Its top is known. It stands in a box, so that sixteen children take little room.
    Known(Box<Sub>),
}

/// What is left of a branch: its value, and what stands at its sixteen nibbles.
#[derive(Debug, Drop)]
pub(crate) struct Left {
    pub(crate) value: Option<ValueRef>,
    pub(crate) children: Vec<Child>,
}

/// A child whose top is known.
pub(crate) fn known(alloc: Global, sub: Sub) -> Result<Child, AllocError>
    ensures child { IfOk result (λ child. (name : Option (List ℕ)) → kid_of name child ≡ model.known (top_of_sub sub)) }
{
    Ok(Child::Known(Box::new(alloc, sub)?))
}

/// How many children are there, and which one where it is alone.
#[derive(Clone, Copy, Debug)]
pub(crate) enum Few {
    Zero,
    One(usize),
    More,
}

/// How many of the children of a branch are there. One that is kept is there if the former branch had it.
pub(crate) fn count_few(former: Option<&FormerBranch<'_>>, children: &[Child]) -> Few
    requires { length children.now ≡ 16 }
    ensures { IsFew (there (kid_at (names_of former.entry) children.now)) result }
{
    let mut few = Few::Zero;
    for nibble in 0..16 {
        if is_there(former, nibble as u8, &children[nibble]) {
            few = one_more(few, nibble);
        }
    }
    few
}

fn is_there(former: Option<&FormerBranch<'_>>, nibble: u8, child: &Child) -> bool
    requires { nibble < 16 }
    ensures { result ≡ model.is_there (kid_of (names_of former.entry nibble) child.now) }
{
    match child {
        Child::Kept => match former {
            Some(branch) => branch.kids.get(nibble).is_some(),
            None => false,
        },
        Child::Known(sub) => has_pairs(sub),
    }
}

fn has_pairs(sub: &Sub) -> bool
    ensures { result ≡ model.is_there (model.known (top_of_sub sub.now)) }
{
    match sub {
        Sub::Empty => false,
        Sub::Leaf { .. } => true,
        Sub::Branch { .. } => true,
        Sub::Extension { .. } => true,
    }
}

fn one_more(few: Few, nibble: usize) -> Few
    ensures { result ≡ more few nibble }
{
    match few {
        Few::Zero => Few::One(nibble),
        Few::One(_) => Few::More,
        Few::More => Few::More,
    }
}

/// The subtree of what is left of a branch, whose children that were not visited use so much
/// together. A lone child takes the branch's place.
#[inline(never)]
pub(crate) fn join(
    alloc: Global,
    ledger: &mut Ledger,
    former: Option<&FormerBranch<'_>>,
    left: Left,
    kept_usage: u64,
) -> Result<Sub, AllocError>
    requires sixteen { length left.children.items ≡ 16 }
    requires former { IfSome former (λ f. IsFormer f.now) }
    requires joins { CanJoin (option_map value_of left.value) (kid_at (names_of former) left.children.items) kept_usage }
    ensures top { IfOk result (λ sub. top_of_sub sub ≡ (joint (option_map value_of left.value) (kid_at (names_of former.entry) left.children.items) kept_usage).top) }
    ensures adds { OnOk result (Adds ledger.old ledger.new (joint (option_map value_of left.value) (kid_at (names_of former.entry) left.children.items) kept_usage).made [] 0 0) }
{
    let Left { value, children } = left;
    match count_few(former, &children) {
        Few::Zero => Ok(no_children(alloc, value)),
        Few::One(nibble) => one_child(alloc, ledger, former, value, children, nibble, kept_usage),
        Few::More => fork(alloc, ledger, former, value, children, kept_usage),
    }
}

/// What is left without children: the value alone, if there is one.
pub(crate) fn no_children(alloc: Global, value: Option<ValueRef>) -> Sub
    ensures { top_of_sub result ≡ childless (option_map value_of value) }
{
    match value {
        None => Sub::Empty,
        Some(value) => Sub::Leaf {
            path: Text::from_bytes(Vec::new(alloc)),
            value,
        },
    }
}

/// What is left with one child, which takes the branch's place where there is no value.
fn one_child(
    alloc: Global,
    ledger: &mut Ledger,
    former: Option<&FormerBranch<'_>>,
    value: Option<ValueRef>,
    children: Vec<Child>,
    nibble: usize,
    kept_usage: u64,
) -> Result<Sub, AllocError>
    requires sixteen { length children.items ≡ 16 }
    requires former { IfSome former (λ f. IsFormer f.now) }
    requires joins { CanJoin (option_map value_of value) (kid_at (names_of former) children.items) kept_usage }
    requires one { there (kid_at (names_of former) children.items) ≡ nibble ∷ [] }
    ensures top { IfOk result (λ sub. top_of_sub sub ≡ (joint (option_map value_of value) (kid_at (names_of former.entry) children.items) kept_usage).top) }
    ensures adds { OnOk result (Adds ledger.old ledger.new (joint (option_map value_of value) (kid_at (names_of former.entry) children.items) kept_usage).made [] 0 0) }
{
    match value {
        None => lone(alloc, children, nibble),
        Some(value) => fork(alloc, ledger, former, Some(value), children, kept_usage),
    }
}

/// The child that is all that is left, below its nibble. One that was not visited was merged before:
/// what is still kept had nothing there.
fn lone(alloc: Global, mut children: Vec<Child>, nibble: usize) -> Result<Sub, AllocError>
    requires sixteen { length children.items ≡ 16 }
    requires inside { nibble < 16 }
    ensures top { (name : Option (List ℕ)) → IsKnown (kid_of name (child_at children.items nibble)) →
        IfOk result (λ sub. top_of_sub sub ≡ lowered (nibble ∷ []) (kid_top (kid_of name (child_at children.items nibble)))) }
{
    match children.swap_remove(nibble) {
        Child::Known(sub) => under(alloc, Box::into_inner(sub), &[nibble as u8]),
        Child::Kept => Ok(Sub::Empty),
    }
}

/// Puts nibbles before a subtree.
fn under(alloc: Global, sub: Sub, nibbles: &[u8]) -> Result<Sub, AllocError>
    ensures top { IfOk result (λ lower. top_of_sub lower ≡ lowered nibbles.now (top_of_sub sub)) }
{
    sub.under(alloc, nibbles)
}

/// A branch. Its children begin with the names that they had before, if it was there. The records of those
/// whose tops are known are written, and then its own.
fn fork(
    alloc: Global,
    ledger: &mut Ledger,
    former: Option<&FormerBranch<'_>>,
    value: Option<ValueRef>,
    children: Vec<Child>,
    kept_usage: u64,
) -> Result<Sub, AllocError>
    requires sixteen { length children.items ≡ 16 }
    requires former { IfSome former (λ f. IsFormer f.now) }
    requires forks { CanFork (option_map value_of value) (kid_at (names_of former) children.items) kept_usage }
    ensures top { IfOk result (λ sub. top_of_sub sub ≡ (branched (option_map value_of value) (kid_at (names_of former.entry) children.items) kept_usage).top) }
    ensures adds { OnOk result (Adds ledger.old ledger.new (branched (option_map value_of value) (kid_at (names_of former.entry) children.items) kept_usage).made [] 0 0) }
{
    let mut kids = former_kids(former)?;
    let mut usage = kept_usage;
    let mut rest = VecDeque::from_vec(children);
    for nibble in 0..16 {
        usage += name_next(alloc, ledger, &mut rest, &mut kids, nibble)?;
    }
    let closed = close(alloc, former, value, &kids, usage)?;
    branch_written(ledger, closed)
}

/// A copy of the names that a branch had, and none where there was no branch.
#[inline(always)]
fn former_kids(former: Option<&FormerBranch<'_>>) -> Result<Kids, AllocError>
    ensures names { IfOk result (λ kids. (x : ℕ) → children_in kids x ≡ names_of former.entry x) }
{
    match former {
        Some(branch) => branch.kids.clone(),
        None => Ok(Kids::NONE),
    }
}

/// Writes the record of a branch. One that comes out as it was read keeps its digest, and is not
/// hashed again.
fn close(
    alloc: Global,
    former: Option<&FormerBranch<'_>>,
    value: Option<ValueRef>,
    kids: &Kids,
    usage: u64,
) -> Result<Closed, AllocError>
    requires former { IfSome former (λ f. IsFormer f.now) }
    requires shaped { IsShaped (node.branch (option_map value_of value) (children_in kids.now)) }
    requires fits { own_cost (node.branch (option_map value_of value) (children_in kids.now)) + usage < 2 ^ 64 }
    ensures written { IfOk result (λ closed. IsRecord closed (node.branch (option_map value_of value) (children_in kids.now)) (own_cost (node.branch (option_map value_of value) (children_in kids.now)) + usage)) }
{
    if let Some(branch) = former {
        if stays(branch, &value, kids, usage) {
            return close_again(alloc, branch);
        }
    }
    match close_branch(alloc, value, kids, usage) {
        Ok(closed) => Ok(closed),
        Err(CloseError::NoMemory) => Err(AllocError),
        Err(CloseError::Usage) => unreachable!(),
    }
}

/// Whether a branch comes out as it was read.
fn stays(branch: &FormerBranch<'_>, value: &Option<ValueRef>, kids: &Kids, usage: u64) -> bool
    ensures usage { IsTrue result → branch.now.stated ≡ branch.now.own + usage }
    ensures value { IsTrue result → branch.now.value.now ≡ value.now }
    ensures kids { IsTrue result → (x : ℕ) → x < 16 → children_in branch.now.kids.now x ≡ children_in kids.now x }
{
    usage <= branch.stated
        && branch.stated - usage == branch.own
        && *branch.value == *value
        && are_same(branch.kids, kids)
}

fn are_same(kids: &Kids, others: &Kids) -> bool
    ensures { IsTrue result → (x : ℕ) → x < 16 → children_in kids.now x ≡ children_in others.now x }
{
    for nibble in 0..16 {
        if kids.get(nibble) != others.get(nibble) {
            return false;
        }
    }
    true
}

/// Writes the record of a branch once more.
fn close_again(alloc: Global, branch: &FormerBranch<'_>) -> Result<Closed, AllocError>
    requires { IsFormer branch.now }
    ensures written { IfOk result (λ closed. IsRecord closed (node.branch (option_map value_of branch.now.value.now) (children_in branch.now.kids.now)) branch.now.stated) }
{
    let text = write_branch(alloc, branch.value, branch.kids, branch.stated)?;
    Ok(Closed {
        text,
        digest: *branch.digest,
        usage: branch.stated,
    })
}

/// Puts the name of the next child among those of its branch, and answers the child's usage. A kept one has
/// its name there already, and the answer is 0.
#[inline(always)]
fn name_next(
    alloc: Global,
    ledger: &mut Ledger,
    children: &mut VecDeque<Child>,
    kids: &mut Kids,
    nibble: u8,
) -> Result<u64, AllocError>
    requires some { 0 < length children.old.items }
    requires stands { KidStands (kid_of (children_in kids.old nibble) (child_at children.old.items 0)) }
    requires fits { kid_usage (kid_of (children_in kids.old nibble) (child_at children.old.items 0)) < 2 ^ 64 }
    requires inside { nibble < 16 }
    ensures name { OnOk result (IsNamedAt kids.old kids.new nibble (kid_name (kid_of (children_in kids.old nibble) (child_at children.old.items 0)))) }
    ensures used { IfOk result (λ used. used ≡ kid_usage (kid_of (children_in kids.old nibble) (child_at children.old.items 0))) }
    ensures adds { OnOk result (Adds ledger.old ledger.new (kid_pending (kid_of (children_in kids.old nibble) (child_at children.old.items 0))) [] 0 0) }
    ensures rest { OnOk result (children.new.items ≡ drop 1 children.old.items) }
{
    match children.pop_front() {
        Some(Child::Kept) => Ok(0),
        Some(Child::Known(sub)) => {
            let (name, used) = recorded(alloc, ledger, Box::into_inner(sub))?;
            kids.set(nibble, name);
            Ok(used)
        }
        None => unreachable!(),
    }
}

/// Writes the record of a subtree that has none yet. Its name, if it has a pair, and its usage.
pub(crate) fn recorded(
    alloc: Global,
    ledger: &mut Ledger,
    sub: Sub,
) -> Result<(Option<Digest>, u64), AllocError>
    requires stands { StandsAt 0 (top_of_sub sub) }
    requires fits { top_usage (top_of_sub sub) < 2 ^ 64 }
    ensures name { IfOk result (λ name. option_map (λ d. d.0) name.0 ≡ top_digest (top_of_sub sub)) }
    ensures used { IfOk result (λ name. name.1 ≡ top_usage (top_of_sub sub)) }
    ensures adds { OnOk result (Adds ledger.old ledger.new (pending (top_of_sub sub)) [] 0 0) }
{
    match sub {
        Sub::Empty => Ok((None, 0)),
        Sub::Branch { digest, usage } => Ok((Some(digest), usage)),
        sub => match sub.close(alloc) {
            Ok(Some(closed)) => written(ledger, closed),
            Ok(None) => unreachable!(),
            Err(CloseError::NoMemory) => Err(AllocError),
            Err(CloseError::Usage) => unreachable!(),
        },
    }
}

/// A record that was written, its name and its usage. It is gained.
fn written(ledger: &mut Ledger, closed: Closed) -> Result<(Option<Digest>, u64), AllocError>
    ensures name { IfOk result (λ name. name ≡ (Some closed.digest, closed.usage)) }
    ensures gains { OnOk result (Gains ledger.old ledger.new closed.digest closed.text) }
{
    let Closed {
        text,
        digest,
        usage,
    } = closed;
    ledger.gain(digest, text)?;
    Ok((Some(digest), usage))
}

fn branch_written(ledger: &mut Ledger, closed: Closed) -> Result<Sub, AllocError>
    ensures branch { IfOk result (λ sub. sub ≡ Branch closed.digest closed.usage) }
    ensures gains { OnOk result (Gains ledger.old ledger.new closed.digest closed.text) }
{
    let Closed {
        text,
        digest,
        usage,
    } = closed;
    ledger.gain(digest, text)?;
    Ok(Sub::Branch { digest, usage })
}
