//! Where the value of a key stands in a node.
//!
//! The way to a slot is given which keys are sought, as a type (`Sought`): of any key the node is asked whether it is
//! there. Of a key that is there the bytes that a node skips aren't looked at, and no key is compared but those of a
//! leaf, for its rank.

ghost use Rattle.std.specs.Prelude.{◌≡◌, ℕ, IfNone, IfSome, IsSome, IsTrue, None, Some, ⊤};
ghost use Rattle.judy_bits.specs.ByteSets as set;
ghost use Rattle.judy_bits.specs.ByteSets.{has};
ghost use Rattle.judy_leaf.specs.BitLeaves.{IsBitParts, bit_list};
ghost use Rattle.judy_leaf.specs.KeyLists.{keys_of};
ghost use Rattle.judy_node.specs.Trees.{IsChild, IsBranch};
ghost use Rattle.judy_node.specs.Kinds.{tree_of, IsLevel};
ghost use Rattle.judy_node.specs.Branches.{IsWholeBranch, tree_below};
ghost use Rattle.judy_node.specs.Slots.{value_of};
ghost use Rattle.judy_node.specs.Seats.{IsSeat, IsSeatBelow};

use crate::child::{BranchOf, KindOf};
use crate::step::Step;
use judy_bits::{tail, without_tail};
use judy_block::Block;
use judy_leaf::{BIT_WORDS, BitRef, LeafRef, Words};

// Where the value of a key stands in a node: the place of a word in the block of a leaf or a bitmap leaf; or the place
// of a child, and what is left of the key there.
#[derive(Clone, Copy)]
pub struct Seat {
    pub at: usize,
    pub rest: u64,
}

// Which keys are sought, and so how the seat of one is found.
pub trait Sought {
    // What is known of the value of a key.
    ghost known: { Option ℕ → Type 0 };

    ghost use Rattle.std.specs.Prelude.{Option};

    // The seat of a key in a node whose keys have `width` bytes; none where it isn't there.
    fn seat<V: Words + Drop>(kind: &KindOf<V>, width: u8, key: u64) -> Option<Seat>
        requires words { V.WORDS ≡ 1 }
        requires level { IsLevel V.WORDS kind.now }
        requires child { IsChild V.WORDS width (tree_of V.WORDS kind.now) }
        requires known { known (value_of key (tree_of V.WORDS kind.now).pairs) }
        ensures seat { IfSome result (λ seat. IsSeat V.WORDS kind.now key seat.at seat.rest) }
        ensures none { IfNone result (value_of key (tree_of V.WORDS kind.now).pairs ≡ None) };
}

// Any key.
pub struct AnyKey;

impl Sought for AnyKey {
    ghost known = { λ value. ⊤ };

    #[inline(always)]
    fn seat<V: Words + Drop>(kind: &KindOf<V>, width: u8, key: u64) -> Option<Seat> {
        kind.seat(width, key)
    }
}

// A key that is there.
pub struct PresentKey;

impl Sought for PresentKey {
    ghost known = { λ value. IsSome value };

    #[inline(always)]
    fn seat<V: Words + Drop>(kind: &KindOf<V>, width: u8, key: u64) -> Option<Seat> {
        Some(kind.seat_of(width, key))
    }
}

impl<V: Words + Drop> KindOf<V> {
    // Where the value of a key stands, in a node whose keys have `width` bytes; none where an immediate or a leaf
    // doesn't have the key, or a branch has no child for it.
    #[inline(always)]
    fn seat(&self, width: u8, key: u64) -> Option<Seat>
        requires words { V.WORDS ≡ 1 }
        requires level { IsLevel V.WORDS self.now }
        requires child { IsChild V.WORDS width (tree_of V.WORDS self.now) }
        ensures seat { IfSome result (λ seat. IsSeat V.WORDS self.now key seat.at seat.rest) }
        ensures none { IfNone result (value_of key (tree_of V.WORDS self.now).pairs ≡ None) }
    {
        match self {
            KindOf::Imm(head, _) => {
                if head.number() == key {
                    Some(Seat { at: 0, rest: 0 })
                } else {
                    None
                }
            }
            KindOf::Leaf(count, block) => {
                let at = LeafRef::<V>::new(*count, width, block).find(key)?;
                Some(Seat { at, rest: 0 })
            }
            KindOf::Bit(head, block) => {
                let front = head.number() * 256;
                if key < front {
                    return None;
                }
                let at = BitRef::<V>::new(block).find(key - front)?;
                Some(Seat {
                    at: BIT_WORDS + at,
                    rest: 0,
                })
            }
            KindOf::Branch(branch) => match branch.step(key) {
                Step::Child(_, at, rest) => Some(Seat { at, rest }),
                Step::Missing(_, _, _) => None,
                Step::Below => None,
                Step::Above => None,
            },
        }
    }

    // The same of a key that is there.
    #[inline(always)]
    fn seat_of(&self, width: u8, key: u64) -> Seat
        requires words { V.WORDS ≡ 1 }
        requires level { IsLevel V.WORDS self.now }
        requires child { IsChild V.WORDS width (tree_of V.WORDS self.now) }
        requires present { IsSome (value_of key (tree_of V.WORDS self.now).pairs) }
        ensures { IsSeat V.WORDS self.now key result.at result.rest }
    {
        match self {
            KindOf::Imm(_, _) => Seat { at: 0, rest: 0 },
            KindOf::Leaf(count, block) => {
                let at = LeafRef::<V>::new(*count, width, block).rank(key);
                Seat { at, rest: 0 }
            }
            KindOf::Bit(_, block) => Seat {
                at: BIT_WORDS + place_in_bits::<V>(block, key % 256),
                rest: 0,
            },
            KindOf::Branch(branch) => branch.seat_of(key),
        }
    }
}

impl<V: Words + Drop> BranchOf<V> {
    // The seat of a key that is below the branch. The bytes that all keys begin with aren't looked at.
    #[inline(always)]
    fn seat_of(&self, key: u64) -> Seat
        requires branch { IsWholeBranch V.WORDS self.now }
        requires present { IsSome (value_of key (tree_below self.now).pairs) }
        ensures { IsSeatBelow self.now key result.at result.rest }
    {
        let width = usize::from(self.width);
        let byte = (without_tail(key, width) % 256) as u8;
        let Some(at) = self.place(byte) else {
            unreachable!()
        };
        Seat {
            at,
            rest: tail(key, width),
        }
    }
}

// The place of a key of a bitmap leaf. Where all 256 stand, a key is its place.
#[inline(always)]
fn place_in_bits<V: Words + Drop>(block: &Block, key: u64) -> usize
    requires parts { IsBitParts V.WORDS block.now }
    requires present { IsTrue (has (keys_of (bit_list V.WORDS block.now).pairs) key) }
    ensures { set.place (keys_of (bit_list V.WORDS block.now).pairs) key ≡ Some result }
{
    let leaf = BitRef::<V>::new(block);
    if leaf.len() == 256 {
        return key as usize;
    }
    let Some(at) = leaf.find(key) else {
        unreachable!()
    };
    at
}
