//! The tight tree of sorted pairs.

ghost use Rattle.std.specs.Prelude.{◌≡◌, ℕ, suc, ◌+◌, ◌-◌, ◌*◌, ◌/◌, ◌%◌, ◌^◌, ◌<◌, ◌≤◌, [], ◌∷◌, ◌++◌, length, drop, IfOk, OnOk, IsTrue, IsFalse};
ghost use Rattle.judy_model.specs.Shapes.{immediate_limit};
ghost use Rattle.judy_leaf.specs.KeyLists.{low_pairs};
ghost use Rattle.judy_node.specs.Trees.{Tree, IsMap, IsChild, AreParts, branch_tree};
ghost use Rattle.judy_node.specs.Branches.{IsWholeBranch, tree_below};
ghost use Rattle.judy_node.specs.Kinds.{tree_of, IsLevel, IsDeep, behind};
ghost use Rattle.judy_node.specs.Populations.{AreSums};
ghost use Rattle.judy_node.specs.Built.{sharing, middle, first_byte, AreSorted, IsBuilt, AreMade};

use crate::child::{BranchOf, ChildOf, KindOf};
use crate::head::Head;
use crate::sums::Sums;
use judy_bits::{Bits256, ByteSet, Skip, low_part, moved_up, without_tail};
use judy_leaf::{BitLeafOf, ImmOf, LEAF_ROOM, LeafOf, Spare, Words, bit_width, widen_bits};
use std::alloc::{AllocError, Global};
use std::marker::PhantomData;

// The byte of a key above its lowest ones, so many.
fn byte_above(key: u64, below: u8) -> u8
    requires { below ≤ 7 }
    ensures { result ≡ middle (256 ^ below) 256 key }
{
    low_part(without_tail(key, usize::from(below)), 1) as u8
}

// Pairs are passed by so many at once: where two of sorted pairs have one byte, all between them have it.
const STRIDE: usize = 64;

// How often the byte there changes from a key to the next, and from the byte before them to the first. Where it does
// can't be foreseen, so the changes are added up without a branch.
fn changes_above(pairs: &[(u64, u64)], below: u8, before: u8) -> usize
    requires { below ≤ 7 }
{
    let mut count = 0usize;
    let mut last = before;
    for pair in pairs {
        let byte = byte_above(pair.0, below);
        count = count.wrapping_add(usize::from(byte != last));
        last = byte;
    }
    count
}

// How many bytes the keys of sorted pairs have there: so many children they will be.
fn bytes_above(pairs: &[(u64, u64)], below: u8) -> usize
    requires below { below ≤ 7 }
    requires some { 0 < length pairs.now }
{
    let mut count = 1usize;
    let mut last = byte_above(pairs[0].0, below);
    let mut rest = pairs;
    'strides: while let Some((stride, after)) = rest.split_first_chunk::<STRIDE>() {
        let end = byte_above(stride[STRIDE - 1].0, below);
        let changes = if byte_above(stride[0].0, below) == end {
            usize::from(end != last)
        } else {
            changes_above(stride, below, last)
        };
        count = count.wrapping_add(changes);
        last = end;
        rest = after;
    }
    count.wrapping_add(changes_above(rest, below, last))
}

// Whether the stride from a place on ends with a pair that has the byte there that the first of all has.
fn stride_has<V: Words + Drop>(pairs: &[(u64, u64)], below: u8, byte: u8, at: usize) -> bool
    requires below { below ≤ 7 }
    requires first { byte ≡ first_byte below pairs.now }
    requires sorted { AreSorted V.WORDS below pairs.now }
    requires within { at ≤ length pairs.now }
    ensures within { IsTrue result → at + STRIDE ≤ length pairs.now }
    ensures shared { IsTrue result → sharing (256 ^ below) 256 byte pairs.now
        ≡ at + STRIDE + sharing (256 ^ below) 256 byte (drop (at + STRIDE) pairs.now) }
{
    if pairs.len() - at < STRIDE {
        return false;
    }
    byte_above(pairs[at + STRIDE - 1].0, below) == byte
}

// Where the whole strides end whose pairs have the byte there that the first pair has.
#[inline(never)]
fn strides_end<V: Words + Drop>(pairs: &[(u64, u64)], below: u8, byte: u8) -> usize
    requires below { below ≤ 7 }
    requires first { byte ≡ first_byte below pairs.now }
    requires sorted { AreSorted V.WORDS below pairs.now }
    ensures within { result ≤ length pairs.now }
    ensures shared { sharing (256 ^ below) 256 byte pairs.now
        ≡ result + sharing (256 ^ below) 256 byte (drop result pairs.now) }
{
    let mut at = 0;
    while stride_has::<V>(pairs, below, byte, at) {
        at += STRIDE;
    }
    at
}

// How many of the first pairs have a byte there.
#[inline(always)]
fn front_with(pairs: &[(u64, u64)], below: u8, byte: u8) -> usize
    requires { below ≤ 7 }
    ensures { result ≡ sharing (256 ^ below) 256 byte pairs.now }
{
    for (at, pair) in pairs.iter().enumerate() {
        if byte_above(pair.0, below) != byte {
            return at;
        }
    }
    pairs.len()
}

// How many of the first of sorted pairs have the byte there that the first one has.
fn group_end<V: Words + Drop>(pairs: &[(u64, u64)], below: u8, byte: u8) -> usize
    requires below { below ≤ 7 }
    requires first { byte ≡ first_byte below pairs.now }
    requires sorted { AreSorted V.WORDS below pairs.now }
    ensures { result ≡ sharing (256 ^ below) 256 byte pairs.now }
{
    if pairs.len() < STRIDE {
        return front_with(pairs, below, byte);
    }
    let front = strides_end::<V>(pairs, below, byte);
    let (_, rest) = pairs.split_at(front);
    front + front_with(rest, below, byte)
}

// Whether all of sorted pairs have the byte there that the first one has: they do where the last one has it.
fn all_have<V: Words + Drop>(pairs: &[(u64, u64)], below: u8, byte: u8) -> bool
    requires below { below ≤ 7 }
    requires some { 0 < length pairs.now }
    requires first { byte ≡ first_byte below pairs.now }
    requires map { IsMap V.WORDS 0 (256 ^ (below + 1)) (low_pairs (256 ^ (below + 1)) pairs.now) }
    ensures all { IsTrue result → length pairs.now ≤ sharing (256 ^ below) 256 byte pairs.now }
    ensures apart { IsFalse result → sharing (256 ^ below) 256 byte pairs.now < length pairs.now }
{
    byte_above(pairs[pairs.len() - 1].0, below) == byte
}

/// How many keys of a width, 1 to 8 bytes, an immediate holds.
pub fn most_in_immediate<V: Words + Drop>(width: u8) -> usize
    requires { 1 ≤ width }
    ensures { result ≡ immediate_limit V.WORDS width }
{
    if V::WORDS == 0 {
        8 / usize::from(width)
    } else {
        1
    }
}

// Whether an immediate holds so many keys of a width, 1 to 8 bytes: as `most_in_immediate`, without a division.
fn fits_immediate<V: Words + Drop>(count: usize, width: u8) -> bool
    requires { 1 ≤ width }
    ensures few { IsTrue result → count ≤ immediate_limit V.WORDS width }
    ensures more { IsFalse result → immediate_limit V.WORDS width < count }
{
    if V::WORDS == 0 {
        count <= 8 && count * usize::from(width) <= 8
    } else {
        count <= 1
    }
}

/// The immediate of sorted pairs, at least one and no more than it holds, whose keys are read by their lowest bytes,
/// `width` of them, 1 to 7. It takes no memory.
pub fn immediate_of_sorted<V: Words + Drop>(width: u8, pairs: &[(u64, u64)]) -> KindOf<V>
    requires one { V.WORDS ≤ 1 }
    requires width { (1 ≤ width) × (width ≤ 7) }
    requires some { 0 < length pairs.now }
    requires within { length pairs.now ≤ immediate_limit V.WORDS width }
    requires map { IsMap V.WORDS 0 (256 ^ width) (low_pairs (256 ^ width) pairs.now) }
    ensures level { IsLevel V.WORDS result }
    ensures built { IsBuilt V.WORDS width pairs.now (tree_of V.WORDS result) }
{
    if V::WORDS == 0 {
        let (count, keys) = ImmOf::<V>::from_sorted(width, pairs).into_parts();
        KindOf::Imm(Head::of_keys(count, width), keys)
    } else {
        let (key, value) = pairs[0];
        KindOf::Imm(Head::new(low_part(key, usize::from(width))), value)
    }
}

/// The immediate of one pair, whose key has `width` bytes, 1 to 7. It takes no memory.
#[inline(always)]
pub fn immediate_of_one<V: Words + Drop>(width: u8, key: u64, value: u64) -> KindOf<V>
    requires one { V.WORDS ≤ 1 }
    requires width { (1 ≤ width) × (width ≤ 7) }
    requires fits { key < 256 ^ width }
    requires no_value { V.WORDS ≡ 0 → value ≡ 0 }
    ensures level { IsLevel V.WORDS result }
    ensures built { IsBuilt V.WORDS width ((key, value) ∷ []) (tree_of V.WORDS result) }
{
    if V::WORDS == 0 {
        let (count, keys) = ImmOf::<V>::one(width, key, value).into_parts();
        KindOf::Imm(Head::of_keys(count, width), keys)
    } else {
        KindOf::Imm(Head::new(key), value)
    }
}

/// The leaf of two pairs, of which an immediate holds but one; their keys ascend and have `width` bytes, 1 to 8. The
/// error is want of memory; nothing is kept then.
#[inline(always)]
pub fn leaf_of_two<V: Words + Drop>(
    alloc: Global,
    width: u8,
    low: (u64, u64),
    high: (u64, u64),
) -> Result<KindOf<V>, AllocError>
    requires one { V.WORDS ≤ 1 }
    requires width { (1 ≤ width) × (width ≤ 8) }
    requires more { immediate_limit V.WORDS width < 2 }
    requires below_low { low.0 < 256 ^ width }
    requires below_high { high.0 < 256 ^ width }
    requires map { IsMap V.WORDS 0 (256 ^ width) (low_pairs (256 ^ width) (low ∷ high ∷ [])) }
    ensures level { IfOk result (λ kind. IsLevel V.WORDS kind) }
    ensures built { IfOk result
        (λ kind. IsBuilt V.WORDS width (low ∷ high ∷ []) (tree_of V.WORDS kind)) }
{
    let (count, block) = LeafOf::<V>::of_two(alloc, width, low, high)?.into_parts();
    Ok(KindOf::Leaf(count, block))
}

// A bitmap leaf of sorted pairs, whose keys are one byte.
fn bits<V: Words + Drop>(alloc: Global, pairs: &[(u64, u64)]) -> Result<KindOf<V>, AllocError>
    requires one { V.WORDS ≤ 1 }
    requires more { 32 < length pairs.now }
    requires map { IsMap V.WORDS 0 (256 ^ 1) (low_pairs (256 ^ 1) pairs.now) }
    ensures level { IfOk result (λ kind. IsLevel V.WORDS kind × IsDeep kind) }
    ensures built { IfOk result (λ kind. IsBuilt V.WORDS 1 pairs.now (tree_of V.WORDS kind)) }
{
    let block = BitLeafOf::<V>::from_sorted(alloc, 1, pairs)?.into_parts();
    Ok(KindOf::Bit(Head::new(0), block))
}

// Makes the child of the first pairs, those of one byte, and puts it behind the others, and the byte among theirs. The
// answer is the rest of the pairs.
#[cycle(build)]
fn add_group<'a, V: Words + Drop>(
    alloc: Global,
    children: &mut Vec<ChildOf<V>>,
    bytes: &mut Bits256,
    below: u8,
    pairs: &[(u64, u64)],
    rest: &'a [(u64, u64)],
) -> Result<&'a [(u64, u64)], AllocError>
    requires one { V.WORDS ≤ 1 }
    requires width { (1 ≤ below) × (below ≤ 7) }
    requires some { 0 < length rest.now }
    requires two { sharing (256 ^ below) 256 (first_byte below pairs.now) pairs.now
        < length pairs.now }
    requires made { (next : ℕ)
        × AreMade V.WORDS below pairs.now rest.now bytes.old children.old.items next }
    ensures fewer { IfOk result (λ left. length left.now < length rest.now) }
    ensures made { IfOk result
        (λ left. (next : ℕ) × AreMade V.WORDS below pairs.now left.now bytes.new children.new.items
        next) }
{
    let byte = byte_above(rest[0].0, below);
    let end = group_end::<V>(rest, below, byte);
    add_child(alloc, children, below, &rest[..end])?;
    bytes.add(byte);
    let (_, left) = rest.split_at(end);
    Ok(left)
}

// Puts a node behind the others.
#[inline(always)]
fn pushed<V: Words + Drop>(
    children: &mut Vec<ChildOf<V>>,
    child: ChildOf<V>,
) -> Result<(), AllocError>
    ensures { OnOk result (children.new.items ≡ children.old.items ++ child ∷ []) }
{
    children.push(child)?;
    Ok(())
}

// Makes the tight node of sorted pairs and puts it behind the others. Of scattered keys most are immediates: these are
// written where they are to stand, and not first as the answer of a call.
#[cycle(build)]
#[inline(always)]
fn add_child<V: Words + Drop>(
    alloc: Global,
    children: &mut Vec<ChildOf<V>>,
    width: u8,
    pairs: &[(u64, u64)],
) -> Result<(), AllocError>
    requires one { V.WORDS ≤ 1 }
    requires width { (1 ≤ width) × (width ≤ 7) }
    requires some { 0 < length pairs.now }
    requires map { IsMap V.WORDS 0 (256 ^ width) (low_pairs (256 ^ width) pairs.now) }
    ensures { OnOk result ((child : Tree) × IsBuilt V.WORDS width pairs.now child
        × (children.new.items ≡ children.old.items ++ child ∷ [])) }
{
    if children.try_reserve(1).is_err() {
        return Err(AllocError);
    }
    if fits_immediate::<V>(pairs.len(), width) {
        let child = ChildOf::close(immediate_of_sorted(width, pairs));
        return pushed(children, child);
    }
    let kind = kind_of_sorted(alloc, width, pairs, Spare::Snug)?;
    pushed(children, ChildOf::close(kind))
}

/// The tight node of sorted pairs, whose keys are read by their lowest bytes, `width` of them. The error is want of
/// memory, which an immediate doesn't take; nothing is kept then.
pub fn child_of_sorted<V: Words + Drop>(
    alloc: Global,
    width: u8,
    pairs: &[(u64, u64)],
) -> Result<ChildOf<V>, AllocError>
    requires one { V.WORDS ≤ 1 }
    requires width { (1 ≤ width) × (width ≤ 7) }
    requires some { 0 < length pairs.now }
    requires map { IsMap V.WORDS 0 (256 ^ width) (low_pairs (256 ^ width) pairs.now) }
    ensures { IfOk result (λ child. IsBuilt V.WORDS width pairs.now child) }
{
    if fits_immediate::<V>(pairs.len(), width) {
        return Ok(ChildOf::close(immediate_of_sorted(width, pairs)));
    }
    let kind = kind_of_sorted(alloc, width, pairs, Spare::Snug)?;
    Ok(ChildOf::close(kind))
}

/// The same for more pairs than an immediate holds, by the node's kind; `width` may be 8 here. Where it is a leaf, it
/// has so much to spare.
#[cycle(build)]
#[inline(never)]
pub fn kind_of_sorted<V: Words + Drop>(
    alloc: Global,
    width: u8,
    pairs: &[(u64, u64)],
    spare: Spare,
) -> Result<KindOf<V>, AllocError>
    requires one { V.WORDS ≤ 1 }
    requires width { (1 ≤ width) × (width ≤ 8) }
    requires more { immediate_limit V.WORDS width < length pairs.now }
    requires map { IsMap V.WORDS 0 (256 ^ width) (low_pairs (256 ^ width) pairs.now) }
    ensures level { IfOk result (λ kind. IsLevel V.WORDS kind) }
    ensures built { IfOk result (λ kind. IsBuilt V.WORDS width pairs.now (tree_of V.WORDS kind)) }
{
    if pairs.len() > LEAF_ROOM {
        let kind = many(alloc, width, pairs)?;
        return Ok(kind);
    }
    let (count, block) = LeafOf::<V>::from_sorted(alloc, width, pairs, spare)?.into_parts();
    Ok(KindOf::Leaf(count, block))
}

// A bitmap leaf or a branch of more than 32 sorted pairs.
#[cycle(build)]
fn many<V: Words + Drop>(
    alloc: Global,
    width: u8,
    pairs: &[(u64, u64)],
) -> Result<KindOf<V>, AllocError>
    requires one { V.WORDS ≤ 1 }
    requires width { (1 ≤ width) × (width ≤ 8) }
    requires more { 32 < length pairs.now }
    requires map { IsMap V.WORDS 0 (256 ^ width) (low_pairs (256 ^ width) pairs.now) }
    ensures level { IfOk result (λ kind. IsLevel V.WORDS kind × IsDeep kind) }
    ensures built { IfOk result (λ kind. IsBuilt V.WORDS width pairs.now (tree_of V.WORDS kind)) }
{
    if width == 1 {
        return bits(alloc, pairs);
    }
    let below = width - 1;
    let byte = byte_above(pairs[0].0, below);
    if !all_have::<V>(pairs, below, byte) {
        let branch = split(alloc, below, pairs)?;
        return Ok(KindOf::Branch(branch));
    }
    let kind = many(alloc, below, pairs)?;
    Ok(kind.behind(byte))
}

// A branch of sorted pairs that don't all have one byte.
#[cycle(build)]
fn split<V: Words + Drop>(
    alloc: Global,
    below: u8,
    pairs: &[(u64, u64)],
) -> Result<Box<BranchOf<V>>, AllocError>
    requires one { V.WORDS ≤ 1 }
    requires width { (1 ≤ below) × (below ≤ 7) }
    requires more { 32 < length pairs.now }
    requires two { sharing (256 ^ below) 256 (first_byte below pairs.now) pairs.now
        < length pairs.now }
    requires map { IsMap V.WORDS 0 (256 ^ (below + 1)) (low_pairs (256 ^ (below + 1)) pairs.now) }
    ensures level { IfOk result (λ branch. IsWholeBranch V.WORDS branch.value) }
    ensures sums { IfOk result
        (λ branch. AreSums branch.value.sums branch.value.children.items) }
    ensures built { IfOk result
        (λ branch. IsBuilt V.WORDS (below + 1) pairs.now (tree_below branch.value)) }
{
    let mut children = Vec::with_capacity(alloc, bytes_above(pairs, below))?;
    let mut bytes = Bits256::new();
    let mut rest = pairs;
    while !rest.is_empty() {
        rest = add_group(alloc, &mut children, &mut bytes, below, pairs, rest)?;
    }
    let mut branch = BranchOf {
        children,
        skip: Skip::new(&[]),
        width: below,
        bytes: ByteSet::of_bits(bytes),
        population: pairs.len() as u64,
        sums: Sums::none(),
        words: PhantomData,
    };
    branch.sums = branch.sums_of_children(alloc);
    Ok(Box::new(alloc, branch)?)
}

impl<V: Words + Drop> KindOf<V> {
    /// The node behind one byte more that it skips. It is a bitmap leaf or a branch.
    pub fn behind(self, byte: u8) -> KindOf<V>
        requires level { IsLevel V.WORDS self }
        requires deep { IsDeep self }
        requires width { (tree_of V.WORDS self).width + 1 ≤ 8 }
        ensures level { IsLevel V.WORDS result }
        ensures deep { IsDeep result }
        ensures tree { tree_of V.WORDS result ≡ behind (byte ∷ []) (tree_of V.WORDS self) }
    {
        match self {
            KindOf::Bit(head, mut block) => {
                let front = moved_up(u64::from(byte), bit_width(&block) as usize - 1);
                let head = Head::new(front + head.number());
                widen_bits(&mut block);
                KindOf::Bit(head, block)
            }
            KindOf::Branch(mut branch) => {
                branch.skip = Skip::joined(&Skip::new(&[]), byte, &branch.skip);
                KindOf::Branch(branch)
            }
            _ => unreachable!(),
        }
    }
}
