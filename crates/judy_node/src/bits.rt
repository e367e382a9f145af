//! The keys of a node whose keys have one byte as a set of bytes, and the node of such a set.

ghost use Rattle.std.specs.Prelude.{◌≡◌, ◌<◌, ◌≤◌, [], length, IfOk, MatchOption};
ghost use Rattle.judy_model.specs.Ranges.{zeroed};
ghost use Rattle.judy_leaf.specs.KeyLists.{keys_of};
ghost use Rattle.judy_node.specs.Trees.{IsChild};
ghost use Rattle.judy_node.specs.Built.{IsBuilt};

use crate::build::child_of_sorted;
use crate::child::{ChildOf, KindOf, imm_of};
use crate::head::Head;
use judy_bits::Bits256;
use judy_leaf::{BitLeafOf, BitRef, ImmOf, LEAF_ROOM, LeafRef, Words};
use judy_unmetered::Unmetered;
use std::alloc::{AllocError, Global};

impl<V: Words + Drop> ChildOf<V> {
    /// The keys as a set of bytes; they have one byte. No visit is counted, which takes leave.
    pub fn bits(&self, _leave: Unmetered) -> Bits256
        requires { IsChild V.WORDS 1 self.now }
        ensures { result ≡ keys_of self.now.pairs }
    {
        match self.kind() {
            KindOf::Imm(head, word) => bits_of_imm(&imm_of::<V>(1, head.number(), *word)),
            KindOf::Leaf(count, block) => bits_of_leaf(&LeafRef::<V>::new(*count, 1, block)),
            KindOf::Bit(_, block) => BitRef::<V>::new(block).to_bits(),
            KindOf::Branch(_) => unreachable!(),
        }
    }
}

// The keys of an immediate, which have one byte.
// Where it is called the width is a constant.
#[inline(always)]
fn bits_of_imm<V: Words + Drop>(imm: &ImmOf<V>) -> Bits256
    requires { imm.now.width ≡ 1 }
    ensures { result ≡ keys_of imm.now.pairs }
{
    let mut bits = Bits256::new();
    for at in 0..imm.len() {
        bits.add(imm.key_at(at) as u8);
    }
    bits
}

// The same of a leaf.
#[inline(always)]
fn bits_of_leaf<V: Words + Drop>(leaf: &LeafRef<'_, V>) -> Bits256
    requires { leaf.now.width ≡ 1 }
    ensures { result ≡ keys_of leaf.now.pairs }
{
    let mut bits = Bits256::new();
    for at in 0..leaf.len() {
        bits.add(leaf.key_at(at) as u8);
    }
    bits
}

/// The tight node of a set of bytes, which are its keys and have no values; none of the empty set. The error is want of
/// memory; nothing is kept then.
pub fn child_of_bits<V: Words + Drop>(
    alloc: Global,
    bits: &Bits256,
) -> Result<Option<ChildOf<V>>, AllocError>
    requires none { V.WORDS ≡ 0 }
    ensures { IfOk result
        (λ made. MatchOption made (bits.now ≡ [])
        (λ child. IsBuilt V.WORDS 1 (zeroed bits.now) child)) }
{
    let count = bits.len();
    if count == 0 {
        return Ok(None);
    }
    if count > LEAF_ROOM {
        let child = many_of_bits(alloc, bits)?;
        return Ok(Some(child));
    }
    let child = few_of_bits(alloc, bits)?;
    Ok(Some(child))
}

// The bitmap leaf of more bytes than a leaf holds.
fn many_of_bits<V: Words + Drop>(alloc: Global, bits: &Bits256) -> Result<ChildOf<V>, AllocError>
    requires none { V.WORDS ≡ 0 }
    requires more { 32 < length bits.now }
    ensures { IfOk result (λ child. IsBuilt V.WORDS 1 (zeroed bits.now) child) }
{
    bits.law();
    let block = BitLeafOf::<V>::of_bits(alloc, 1, bits)?.into_parts();
    Ok(ChildOf::close(KindOf::Bit(Head::new(0), block)))
}

// The immediate or leaf of no more bytes than a leaf holds.
fn few_of_bits<V: Words + Drop>(alloc: Global, bits: &Bits256) -> Result<ChildOf<V>, AllocError>
    requires none { V.WORDS ≡ 0 }
    requires some { 0 < length bits.now }
    requires few { length bits.now ≤ 32 }
    ensures { IfOk result (λ child. IsBuilt V.WORDS 1 (zeroed bits.now) child) }
{
    let mut room = [(0, 0); LEAF_ROOM];
    let pairs = &mut room[..bits.len()];
    write_bits(bits, pairs);
    child_of_sorted(alloc, 1, pairs)
}

// Writes the members of a set of bytes, each with the value 0, into a slice that has just the places for them.
fn write_bits(bits: &Bits256, out: &mut [(u64, u64)])
    requires { length out.old ≡ length bits.now }
    ensures { out.new ≡ zeroed bits.now }
{
    bits.law();
    let members = bits.by_ref();
    let mut from = 0;
    for place in 0..out.len() {
        let Some(byte) = members.next_from(from) else {
            unreachable!()
        };
        out[place] = (u64::from(byte), 0);
        from = byte.saturating_add(1);
    }
}
