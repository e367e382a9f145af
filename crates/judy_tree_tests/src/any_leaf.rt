//! Leaves of any kind: what they answer and how they change, beside a plain list.

ghost use Rattle.std.specs.Prelude.{◌≡◌, ◌≤◌};
ghost use Rattle.judy_leaf.specs.Immediates.{imm_room};

use crate::leaves::{top_of, value_of};
use crate::plain::{Answers, answers_of, beside, same_answer, same_len, same_pair};
use judy_leaf::{BitLeafOf, ImmOf, LeafOf, Spare, Words, put_in_bit_leaf, put_in_leaf};
use std::alloc::{AllocError, Global};
use std::process::Abort;

// The kinds of leaves.
#[derive(Clone, Copy)]
pub(crate) enum Kind {
    Plain,
    Bitmap,
    Immediate,
}

// A leaf, a bitmap leaf or an immediate.
#[derive(Drop)]
pub(crate) enum AnyLeaf<V: Words + Drop> {
    Leaf(LeafOf<V>),
    Bits(BitLeafOf<V>),
    Imm(ImmOf<V>),
}

// What a leaf answers to calls that all kinds have alike.
macro_rules! read {
    ($any:expr, $leaf:ident => $answer:expr) => {
        match $any {
            AnyLeaf::Leaf(whole) => {
                let $leaf = whole.reading();
                $answer
            }
            AnyLeaf::Bits(whole) => {
                let $leaf = whole.reading();
                $answer
            }
            AnyLeaf::Imm($leaf) => $answer,
        }
    };
}

// A change at a place, where a key stands.
macro_rules! change_at {
    ($rt:expr, $any:expr, $at:expr, $leaf:ident => $change:expr) => {
        match $any {
            AnyLeaf::Leaf($leaf) => {
                assert!($rt; $at < $leaf.reading().len());
                $change
            }
            AnyLeaf::Bits($leaf) => {
                assert!($rt; $at < $leaf.reading().len());
                $change
            }
            AnyLeaf::Imm($leaf) => {
                assert!($rt; $at < $leaf.len());
                $change
            }
        }
    };
}

// How many keys an immediate holds: one with its value, else as many as fit into a word.
pub(crate) fn room_of<V: Words + Drop>(width: u8) -> usize
    requires { 1 ≤ width }
    ensures { result ≡ imm_room V.WORDS width }
{
    if V::WORDS == 1 {
        1
    } else {
        8 / usize::from(width)
    }
}

// A leaf with one key more, which is put in where its parts stand, as in a node.
fn with_key<V: Words + Drop>(
    rt: &impl Abort,
    alloc: Global,
    leaf: LeafOf<V>,
    key: u64,
) -> Result<LeafOf<V>, AllocError> {
    let width = leaf.reading().width();
    assert!(rt; key <= top_of(width));
    assert!(rt; leaf.reading().find(key).is_none());
    let at = leaf.reading().rank(key);
    let (mut count, mut block) = leaf.into_parts();
    assert!(rt; count < 32 && block.tag() == u32::from(width));
    put_in_leaf::<V>(
        alloc,
        &mut count,
        &mut block,
        width,
        at,
        key,
        value_of::<V>(key),
    )?;
    Ok(LeafOf::of_parts(count, block))
}

// The same of a bitmap leaf.
fn with_byte<V: Words + Drop>(
    rt: &impl Abort,
    alloc: Global,
    leaf: BitLeafOf<V>,
    key: u64,
) -> Result<BitLeafOf<V>, AllocError> {
    assert!(rt; key < 256 && leaf.reading().find(key).is_none());
    let at = leaf.reading().rank(key);
    let mut block = leaf.into_parts();
    put_in_bit_leaf::<V>(alloc, &mut block, at, key as u8, value_of::<V>(key))?;
    Ok(BitLeafOf::of_parts(block))
}

impl<V: Words + Drop> AnyLeaf<V> {
    // A leaf of a kind and a width, without keys.
    pub(crate) fn empty(alloc: Global, kind: Kind, width: u8) -> Result<AnyLeaf<V>, AllocError>
        requires words { V.WORDS ≤ 1 }
        requires some { 1 ≤ width }
        requires most { width ≤ 8 }
    {
        Ok(match kind {
            Kind::Plain => AnyLeaf::Leaf(LeafOf::from_sorted(alloc, width, &[], Spare::Ample)?),
            Kind::Bitmap => AnyLeaf::Bits(BitLeafOf::from_sorted(alloc, width, &[])?),
            Kind::Immediate => AnyLeaf::Imm(ImmOf::new(width)),
        })
    }

    // How many keys it holds at most.
    pub(crate) fn room(&self) -> usize {
        match self {
            AnyLeaf::Leaf(_) => 32,
            AnyLeaf::Bits(_) => 256,
            AnyLeaf::Imm(imm) => room_of::<V>(imm.width()),
        }
    }

    // The greatest key that it could have; a bitmap leaf tells the lowest byte of each key.
    pub(crate) fn top(&self) -> u64 {
        match self {
            AnyLeaf::Leaf(leaf) => top_of(leaf.reading().width()),
            AnyLeaf::Bits(_) => 0xff,
            AnyLeaf::Imm(imm) => top_of(imm.width()),
        }
    }

    fn is_full(&self) -> bool {
        match self {
            AnyLeaf::Leaf(leaf) => leaf.reading().is_full(),
            AnyLeaf::Bits(leaf) => leaf.reading().len() == 256,
            AnyLeaf::Imm(imm) => imm.is_full(),
        }
    }

    pub(crate) fn width(&self) -> u8 {
        read!(self, leaf => leaf.width())
    }

    fn len(&self) -> usize {
        read!(self, leaf => leaf.len())
    }

    // The pair at a place, if there is one.
    fn pair_at(&self, at: usize) -> Option<(u64, u64)> {
        read!(self, leaf => if at < leaf.len() {
            Some((leaf.key_at(at), leaf.value_at(at)))
        } else {
            None
        })
    }

    // All that it answers of a word.
    fn answers(&self, word: u64) -> Answers {
        read!(self, leaf => Answers {
            rank: leaf.rank(word),
            place: leaf.find(word),
            after: leaf.at_or_after(word),
            before: leaf.at_or_before(word),
            absent_after: leaf.absent_at_or_after(word),
            absent_before: leaf.absent_at_or_before(word),
        })
    }

    // Puts an absent key in with its value, where there is room.
    pub(crate) fn put(
        self,
        rt: &impl Abort,
        alloc: Global,
        key: u64,
    ) -> Result<AnyLeaf<V>, AllocError> {
        Ok(match self {
            AnyLeaf::Leaf(leaf) => AnyLeaf::Leaf(with_key(rt, alloc, leaf, key)?),
            AnyLeaf::Bits(leaf) => AnyLeaf::Bits(with_byte(rt, alloc, leaf, key)?),
            AnyLeaf::Imm(mut imm) => {
                assert!(rt; imm.len() < room_of::<V>(imm.width()));
                assert!(rt; key <= top_of(imm.width()) && imm.find(key).is_none());
                imm.insert_pair(key, value_of::<V>(key));
                AnyLeaf::Imm(imm)
            }
        })
    }

    // Takes out the key at a place, here and from the plain list.
    pub(crate) fn take(&mut self, rt: &impl Abort, plain: &mut Vec<(u64, u64)>, at: usize) {
        assert!(rt; at < plain.len());
        plain.remove(at);
        change_at!(rt, self, at, leaf => leaf.remove(at))
    }

    // Takes it apart and puts it together again.
    pub(crate) fn put_together(self, rt: &impl Abort) -> AnyLeaf<V> {
        match self {
            AnyLeaf::Leaf(leaf) => {
                let (count, block) = leaf.into_parts();
                AnyLeaf::Leaf(LeafOf::of_parts(count, block))
            }
            AnyLeaf::Bits(leaf) => AnyLeaf::Bits(BitLeafOf::of_parts(leaf.into_parts())),
            AnyLeaf::Imm(imm) => {
                assert!(rt; imm.len() >= 1);
                let width = imm.width();
                let (head, word) = imm.into_parts();
                AnyLeaf::Imm(ImmOf::of_parts(width, head, word))
            }
        }
    }

    // Compares all that it answers with the plain list: of each key and of the words beside it, and of the least and
    // the greatest word.
    pub(crate) fn check(&self, rt: &impl Abort, plain: &[(u64, u64)]) {
        same_len(rt, self.len(), plain);
        same_answer(rt, self.is_full(), plain.len() == self.room());
        for (at, pair) in plain.iter().enumerate() {
            same_pair(rt, self.pair_at(at), Some(*pair), pair.0);
            self.check_beside(rt, plain, pair.0);
        }
        for word in [0, u64::MAX] {
            self.check_word(rt, plain, word);
        }
    }

    // The same of a key and of the words beside it.
    fn check_beside(&self, rt: &impl Abort, plain: &[(u64, u64)], key: u64) {
        for word in beside(key) {
            self.check_word(rt, plain, word);
        }
    }

    // The same of a word.
    fn check_word(&self, rt: &impl Abort, plain: &[(u64, u64)], word: u64) {
        let wanted = answers_of(plain, word, self.top());
        assert_eq!(rt; self.answers(word), wanted, "{word}");
    }
}
