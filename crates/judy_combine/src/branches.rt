//! What is kept of two branches, byte by byte.

ghost use Rattle.std.specs.Prelude.{◌≡◌, ◌+◌, ◌*◌, ◌%◌, ◌^◌, ◌<◌, ◌≤◌, ℕ, [], length, Some, None, IfOk, OnOk, IsTrue, if◌then◌else◌};
ghost use Rattle.judy_model.specs.WordBytes.{number_of};
ghost use Rattle.judy_node.specs.Trees.{IsTight, IsChild};
ghost use Rattle.judy_node.specs.Branches.{IsWholeBranch};
ghost use Rattle.judy_node.specs.Populations.{population};
ghost use Rattle.judy_combine.specs.Kept.{IsKept, pairs_of, width_of, IsBelowTight, AreLevel, IsKeptAt, AreKeptTo, IsCountable, IsBranchKept, IsNextByte};

use crate::bits::bits_kept;
use crate::keep::Keep;
use crate::small::small_kept;
use judy_bits::{Bits256, ByteSet, Meter};
use judy_change::settled;
use judy_leaf::Words;
use judy_node::{BranchOf, ChildOf, Sums, ViewOf};
use judy_unmetered::UNMETERED;
use std::alloc::{AllocError, Global};
use std::marker::PhantomData;

// Whether the keys of two branches begin with the same bytes, which their children leave out.
fn are_level<V: Words + Drop>(one: &BranchOf<V>, other: &BranchOf<V>) -> bool
    ensures { IsTrue result → AreLevel one.now other.now }
{
    one.width == other.width && one.skip.number() == other.skip.number()
}

// Whether a branch's children hold many keys on average, or have one byte and their keys no value.
fn is_dense<V: Words + Drop>(branch: &BranchOf<V>) -> bool {
    branch.width == 1 && V::WORDS == 0 || branch.population / 16 >= branch.children.len() as u64
}

/// Whether two branches are gone through byte by byte: their keys begin with the same bytes, and one is dense. Children
/// of a key or two are sooner written out once than met one by one.
pub fn go_by_bytes<V: Words + Drop>(one: &BranchOf<V>, other: &BranchOf<V>) -> bool
    ensures { IsTrue result → AreLevel one.now other.now }
{
    are_level(one, other) && (is_dense(one) || is_dense(other))
}

// What is kept of two nodes whose keys have `width` bytes; none where that is nothing. Nodes that the one alone has are
// copied. The error is want of memory; nothing is kept then.
#[cycle(kept)]
fn node_kept<V: Words + Drop>(
    alloc: Global,
    keep: Keep,
    width: u8,
    one: &ChildOf<V>,
    other: &ChildOf<V>,
) -> Result<Option<ChildOf<V>>, AllocError>
    requires one { V.WORDS ≤ 1 }
    requires width { width ≤ 7 }
    requires child { IsChild V.WORDS width one.now }
    requires other_child { IsChild V.WORDS width other.now }
    requires tight { IsTight one.now }
    requires other_tight { IsTight other.now }
    ensures { IfOk result (IsKept V.WORDS width keep one.now.pairs other.now.pairs) }
{
    if width == 1 && V::WORDS == 0 {
        return bits_kept(alloc, keep, one, other);
    }
    let ours = one.enter(width, &mut Meter::new(UNMETERED));
    let theirs = other.enter(width, &mut Meter::new(UNMETERED));
    if let ViewOf::Branch(left) = ours {
        if let ViewOf::Branch(right) = theirs {
            if go_by_bytes(left, right) {
                return settled_kept(alloc, keep, width, left, right);
            }
        }
    }
    small_kept(alloc, keep, width, one, other)
}

// The same of two such branches.
#[cycle(kept)]
fn settled_kept<V: Words + Drop>(
    alloc: Global,
    keep: Keep,
    width: u8,
    one: &BranchOf<V>,
    other: &BranchOf<V>,
) -> Result<Option<ChildOf<V>>, AllocError>
    requires one { V.WORDS ≤ 1 }
    requires width { width ≤ 7 }
    requires below { IsBelowTight V.WORDS one.now }
    requires other_below { IsBelowTight V.WORDS other.now }
    requires level { AreLevel one.now other.now }
    requires wide { width_of one.now ≡ width }
    ensures { IfOk result (IsKept V.WORDS width keep (pairs_of one.now) (pairs_of other.now)) }
{
    let Some(branch) = branch_kept(alloc, keep, one, other)? else {
        return Ok(None);
    };
    Ok(Some(settled(alloc, width, branch)?))
}

/// The branch of what is kept of two branches, perhaps of few keys or with one child; none where nothing is kept. The
/// error is want of memory; nothing is kept then.
#[cycle(kept)]
pub fn branch_kept<V: Words + Drop>(
    alloc: Global,
    keep: Keep,
    one: &BranchOf<V>,
    other: &BranchOf<V>,
) -> Result<Option<BranchOf<V>>, AllocError>
    requires one { V.WORDS ≤ 1 }
    requires below { IsBelowTight V.WORDS one.now }
    requires other_below { IsBelowTight V.WORDS other.now }
    requires level { AreLevel one.now other.now }
    requires few { IsCountable V.WORDS (width_of one.now) keep (pairs_of one.now)
        (pairs_of other.now) }
    ensures { IfOk result (IsBranchKept V.WORDS keep (pairs_of one.now) (pairs_of other.now)
        (width_of one.now)) }
{
    let most = one.children.len().max(other.children.len());
    let mut children = Vec::with_capacity(alloc, most)?;
    let mut bytes = Bits256::new();
    let count = add_all(alloc, keep, one, other, &mut children, &mut bytes)?;
    if children.is_empty() {
        return Ok(None);
    }
    let mut branch = BranchOf {
        children,
        skip: one.skip,
        width: one.width,
        bytes: ByteSet::of_bits(bytes),
        population: count,
        sums: Sums::none(),
        words: PhantomData,
    };
    branch.sums = branch.sums_of_children(alloc);
    Ok(Some(branch))
}

// Adds the children that are kept of two branches, one byte after another, and answers how many keys they have.
#[cycle(kept)]
fn add_all<V: Words + Drop>(
    alloc: Global,
    keep: Keep,
    one: &BranchOf<V>,
    other: &BranchOf<V>,
    children: &mut Vec<ChildOf<V>>,
    bytes: &mut Bits256,
) -> Result<u64, AllocError>
    requires one { V.WORDS ≤ 1 }
    requires below { IsBelowTight V.WORDS one.now }
    requires other_below { IsBelowTight V.WORDS other.now }
    requires level { AreLevel one.now other.now }
    requires none { bytes.old ≡ [] }
    requires no_children { children.old.items ≡ [] }
    ensures kept { OnOk result
        (AreKeptTo V.WORDS one.now.width (number_of one.now.skip * 256) keep (pairs_of one.now)
        (pairs_of other.now) bytes.new children.new.items 256) }
    ensures count { IfOk result (λ count. count ≡ population children.new.items % 2 ^ 64) }
{
    let mut count = 0u64;
    let mut from = 0u16;
    'bytes: while let Some(byte) = next_byte(one, other, from) {
        if let Some(child) = kept_at(alloc, keep, one, other, byte)? {
            count = count.wrapping_add(child.pop());
            children.push(child)?;
            bytes.add(byte);
        }
        from = u16::from(byte) + 1;
    }
    Ok(count)
}

// The least byte from one on for which either of two branches has a child; none where neither has one there.
fn next_byte<V: Words + Drop>(one: &BranchOf<V>, other: &BranchOf<V>, from: u16) -> Option<u8>
    requires one { IsWholeBranch V.WORDS one.now }
    requires other { IsWholeBranch V.WORDS other.now }
    ensures { IsNextByte one.now.bytes other.now.bytes from result }
{
    if from > 255 {
        return None;
    }
    let byte = from as u8;
    match (one.bytes.next_from(byte), other.bytes.next_from(byte)) {
        (Some(ours), Some(theirs)) => Some(ours.min(theirs)),
        (Some(ours), None) => Some(ours),
        (None, theirs) => theirs,
    }
}

// The child that is kept of those that two branches have for a byte; none where none is.
#[cycle(kept)]
fn kept_at<V: Words + Drop>(
    alloc: Global,
    keep: Keep,
    one: &BranchOf<V>,
    other: &BranchOf<V>,
    byte: u8,
) -> Result<Option<ChildOf<V>>, AllocError>
    requires one { V.WORDS ≤ 1 }
    requires below { IsBelowTight V.WORDS one.now }
    requires other_below { IsBelowTight V.WORDS other.now }
    requires level { AreLevel one.now other.now }
    ensures { IfOk result (IsKeptAt V.WORDS one.now.width (number_of one.now.skip * 256) keep
        (pairs_of one.now)
        (pairs_of other.now) byte) }
{
    match (one.place(byte), other.place(byte)) {
        (Some(at), Some(place)) => node_kept(
            alloc,
            keep,
            one.width,
            &one.children[at],
            &other.children[place],
        ),
        (Some(at), None) => copied_if(alloc, keep.left, &one.children[at]),
        (None, Some(place)) => copied_if(alloc, keep.right, &other.children[place]),
        (None, None) => Ok(None),
    }
}

// A copy of a node, where it is wanted.
fn copied_if<V: Words + Drop>(
    alloc: Global,
    wanted: bool,
    child: &ChildOf<V>,
) -> Result<Option<ChildOf<V>>, AllocError>
    ensures { IfOk result (λ made. made ≡ (if wanted then Some child.now else None)) }
{
    if !wanted {
        return Ok(None);
    }
    Ok(Some(child.try_clone(UNMETERED, alloc)?))
}
