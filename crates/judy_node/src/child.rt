//! The nodes below the root.
//!
//! A node stands in its parent in 16 bytes. So a leaf is kept as its parts, the number of its keys and its block; its
//! width is in the block's tag, but the way down knows it and needn't read it there. A bitmap leaf keeps the number
//! that its skipped bytes spell beside its block, and a branch is behind one pointer. Where keys have values an
//! immediate is its one key and its value; else its head is the number of its keys and 256 times their width, and its
//! word holds them.

ghost use Rattle.std.specs.Prelude.{◌≡◌, ◌+◌, ◌-◌, ◌%◌, ◌^◌, ◌<◌, ◌≤◌, length, if◌then◌else◌, ◌==◌};
ghost use Rattle.judy_node.specs.Trees.{IsChild};
ghost use Rattle.judy_node.specs.Kinds.{tree_of, IsLevel, IsImm, imm_tree, imm_pairs};
ghost use Rattle.judy_node.specs.Views.{IsView};

use crate::bundle::Bundle;
use crate::head::{Head, keys_told};
use crate::sums::Sums;
use crate::view::ViewOf;
use judy_bits::{ByteSet, Meter, Skip};
use judy_block::Block;
use judy_leaf::{BitRef, ImmOf, LeafRef, ValueWords, Words, bit_count};
use std::marker::{Model, PhantomData};

/// A node below the root, which has keys, in 16 bytes.
#[cycle(node)]
#[derive(Drop)]
pub struct ChildOf<V: Words + Drop> {
    /// Where the node stands, to be changed there.
    pub place: PlaceOf<V>,
}

/// The place of a node, which is written there, and read by none who may not write it: a reader has to enter the node.
#[cycle(node)]
#[derive(Drop)]
pub struct PlaceOf<V: Words + Drop> {
    pub(crate) kind: Bundle<KindOf<V>>,
}

/// A node below the root of a tree whose keys have `W` words of value each, 0 or 1.
pub type Child<const W: usize> = ChildOf<ValueWords<W>>;

/// The kinds of nodes below the root, by their parts: for writing.
// The immediate and the bitmap leaf stand in front, side by side: so a leaf and a branch are told from the rest by two
// questions. With the leaf between them, the three are told apart by a jump through a table.
#[cycle(node)]
#[derive(Drop)]
pub enum KindOf<V: Words + Drop> {
    /// An immediate: a few keys.
    Imm(Head, u64),
    /// A bitmap leaf: keys that differ in their last byte alone. The number that the skipped bytes spell, and the block
    /// that holds the last bytes.
    Bit(Head, Block),
    /// A leaf of up to 32 keys: how many they are, and the block that holds them.
    Leaf(u8, Block),
    /// A branch.
    Branch(Box<BranchOf<V>>),
}

/// A branch, in the order in which its parts are used.
#[cycle(node)]
#[derive(Drop)]
pub struct BranchOf<V: Words + Drop> {
    /// The children, by ascending byte.
    pub children: Vec<ChildOf<V>>,
    /// The bytes that all keys begin with.
    pub skip: Skip,
    /// How many bytes the keys of the children have.
    pub width: u8,
    /// The bytes of the children.
    pub bytes: ByteSet,
    /// How many keys there are below.
    pub population: u64,
    /// The same by groups of children, where all stand.
    pub sums: Sums,
    /// The number of value words.
    pub words: PhantomData<V>,
}

const _: () = prove!(size_of::<Child<0>>() == 16);

const _: () = prove!(size_of::<Child<1>>() == 16);

impl<V: Words + Drop> Model for ChildOf<V> {
    ghost use Rattle.judy_node.specs.Trees.{Tree};

    ghost Value = { Tree };

    ghost use Rattle.std.specs.Prelude.{length};
    ghost use Rattle.judy_node.specs.Kinds.{tree_of, kind_in, IsPlaced};

    ghost view = { λ a. tree_of V.WORDS (kind_in a.place) };

    ghost invariant = { λ a. IsPlaced V.WORDS a.place };

    ghost size = { λ tree. length tree.form };

    ghost use Rattle.judy_node.specs.Falls.{falls};

    ghost size_decreases = { λ a h. falls (record { WORDS = V.WORDS }) V.WORDS a.place h };
}

impl<V: Words + Drop> ChildOf<V> {
    // The node by its kind, to be read.
    pub(crate) fn kind(&self) -> &KindOf<V>
        ensures tree { tree_of V.WORDS result.now ≡ self.now }
        ensures level { IsLevel V.WORDS result.now }
    {
        self.place.kind.get()
    }

    /// How many keys there are below. It reads no block but a bitmap leaf's header, and the branch of a branch.
    pub fn pop(&self) -> u64
        ensures { result ≡ length self.now.pairs }
    {
        match self.kind() {
            KindOf::Imm(head, _) => imm_len::<V>(head),
            KindOf::Leaf(count, _) => u64::from(*count),
            KindOf::Bit(_, block) => u64::from(bit_count(block)),
            KindOf::Branch(branch) => branch.population,
        }
    }

    // The same, asked whether it is a leaf, then whether it is a branch. A match over the kinds is a jump through a
    // table, one more to foresee for each key that comes in.
    #[inline(always)]
    pub(crate) fn pop_in_turn(&self) -> u64
        ensures { result ≡ length self.now.pairs }
    {
        if let KindOf::Leaf(_, _) = self.kind() {
            return self.pop();
        }
        if let KindOf::Branch(branch) = self.kind() {
            return branch.population;
        }
        self.pop_called()
    }

    // The same by a call.
    #[inline(never)]
    fn pop_called(&self) -> u64
        ensures { result ≡ length self.now.pairs }
    {
        self.pop()
    }

    /// Enters the node, whose keys have `width` bytes: one visit more on the meter, which stands below `u64::MAX`.
    #[inline(always)]
    pub fn enter(&self, width: u8, meter: &mut Meter) -> ViewOf<'_, V>
        requires below { meter.old < 2 ^ 64 - 1 }
        requires child { IsChild V.WORDS width self.now }
        ensures visits { meter.new ≡ meter.old + 1 }
        ensures view { IsView V.WORDS width self.now result }
    {
        meter.tick();
        match self.kind() {
            KindOf::Imm(head, word) => ViewOf::Imm(imm_of(width, head.number(), *word)),
            KindOf::Leaf(count, block) => ViewOf::Leaf(LeafRef::new(*count, width, block)),
            KindOf::Bit(head, block) => ViewOf::BitLeaf(head.number(), BitRef::new(block)),
            KindOf::Branch(branch) => ViewOf::Branch(branch),
        }
    }

    /// The node by its kind, to be changed.
    pub fn open(self) -> KindOf<V>
        ensures tree { self ≡ tree_of V.WORDS result }
        ensures level { IsLevel V.WORDS result }
    {
        let place = self.place;
        place.kind.into_inner()
    }

    /// The node of a kind.
    pub fn close(kind: KindOf<V>) -> ChildOf<V>
        requires { IsLevel V.WORDS kind }
        ensures { result ≡ tree_of V.WORDS kind }
    {
        ChildOf {
            place: PlaceOf {
                kind: Bundle::new(kind),
            },
        }
    }
}

impl<V: Words + Drop> PlaceOf<V> {
    ghost use Rattle.std.specs.Borrow.{sem, Lends};
    ghost use Rattle.judy_node.specs.contracts.child.PlaceOf.{the_row};
    ghost use Rattle.judy_node.specs.contracts.child.KindOf.{the_row as kind};
    ghost use Rattle.judy_node.specs.Seats.{placed};

    /// Lends the node by its kind, to be changed where it stands.
    pub fn kind_mut(&mut self) -> &mut KindOf<V>
        ensures* changes { sem 𝓛
            (Lends (the_row V.row V.Words) (kind V.row V.Words) self.entry result placed) }
        ensures value { placed result.now ≡ self.old }
    {
        self.kind.get_mut()
    }
}

/// The immediate of the two words that stand for it in a node, whose keys have `width` bytes.
pub fn imm_of<V: Words + Drop>(width: u8, head: u64, word: u64) -> ImmOf<V>
    requires level { IsImm V.WORDS head word }
    requires child { IsChild V.WORDS width (imm_tree V.WORDS head word) }
    ensures { result ≡ record { width = width; pairs = imm_pairs V.WORDS head word } }
{
    if V::WORDS == 0 {
        ImmOf::of_parts(width, keys_told(head), word)
    } else {
        ImmOf::of_parts(width, head, word)
    }
}

// How many keys an immediate has.
fn imm_len<V: Words + Drop>(head: &Head) -> u64
    ensures { result ≡ (if V.WORDS == 0 then head.now % 256 else 1) }
{
    if V::WORDS == 0 {
        keys_told(head.number())
    } else {
        1
    }
}
