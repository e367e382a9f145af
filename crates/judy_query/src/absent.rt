//! The nearest words that are no keys in a node without children, to either side.

ghost use Rattle.std.specs.Prelude.{◌≡◌, ◌+◌, ◌-◌, ◌*◌, ◌^◌, ◌<◌, ◌≤◌, ℕ, [], ◌∷◌};
ghost use Rattle.judy_leaf.specs.KeyLists.{shift};
ghost use Rattle.judy_node.specs.Trees.{IsMap};
ghost use Rattle.judy_node.specs.Views.{view_pairs};
ghost use Rattle.judy_query.specs.Parts.{IsEnd, IsShown, width_of};
ghost use Rattle.judy_query.specs.Rooms.{IsAbsent, low_of, high_of};

use crate::rooms::has_next;
use crate::sides::Side;
use judy_leaf::{BitRef, Words};
use judy_node::ViewOf;

// The nearest number to one side that is no key of a list.
macro_rules! absent_in {
    ($side:ident, $list:ident, $number:expr) => {
        match $side {
            Side::Up => $list.absent_at_or_after($number),
            Side::Down => $list.absent_at_or_before($number),
        }
    };
}

impl Side {
    /// The nearest word from a key on, of a node's width, that is no key of the node, which has no children; none where
    /// all of these are keys.
    // Where a node was just entered its kind is known: by a call it would be written to memory and told anew.
    #[inline(always)]
    pub(crate) fn absent<V: Words + Drop>(
        self,
        end: &ViewOf<'_, V>,
        width: u8,
        key: u64,
    ) -> Option<u64>
        requires end { IsEnd end.now }
        requires shown { IsShown V.WORDS end.now }
        requires width { width ≡ width_of end.now }
        requires within { key < 256 ^ width }
        ensures { IsAbsent self (view_pairs end.now) (low_of self key)
            (high_of self key (256 ^ width)) result }
    {
        match end {
            ViewOf::Null => Some(key),
            ViewOf::One(only, _) if key != *only => Some(key),
            ViewOf::One(_, _) => self.next_to(key),
            ViewOf::Imm(list) => absent_in!(self, list, key),
            ViewOf::Leaf(list) => absent_in!(self, list, key),
            ViewOf::BitLeaf(skipped, list) => self.absent_bit(*skipped, list, width, key),
            ViewOf::Branch(_) => unreachable!(),
        }
    }

    // The same where the one key is the word asked for.
    fn next_to(self, key: u64) -> Option<u64>
        ensures { (value : ℕ) → IsAbsent self ((key, value) ∷ []) (low_of self key)
            (high_of self key (2 ^ 64)) result }
    {
        match self {
            Side::Up if key < u64::MAX => Some(key + 1),
            Side::Down if key > 0 => Some(key - 1),
            _ => None,
        }
    }

    // The same for a bitmap leaf: a word before or behind all that have its skipped bytes is no key.
    fn absent_bit<V: Words + Drop>(
        self,
        skipped: u64,
        list: &BitRef<'_, V>,
        width: u8,
        key: u64,
    ) -> Option<u64>
        requires width { (1 ≤ width) × (width ≤ 8) }
        requires skipped { skipped < 256 ^ (width - 1) }
        requires map { IsMap V.WORDS 0 256 list.now.pairs }
        requires within { key < 256 ^ width }
        ensures { IsAbsent self (shift (skipped * 256) list.now.pairs) (low_of self key)
            (high_of self key (256 ^ width)) result }
    {
        let front = skipped * 256;
        if key < front || key - front > 255 {
            return Some(key);
        }
        if let Some(byte) = self.absent_byte(list, key - front) {
            return Some(front + byte);
        }
        match self {
            Side::Up if has_next(skipped, usize::from(width) - 1) => Some(front + 256),
            Side::Down if front > 0 => Some(front - 1),
            _ => None,
        }
    }

    // The same among the last bytes of a bitmap leaf.
    fn absent_byte<V: Words + Drop>(self, list: &BitRef<'_, V>, byte: u64) -> Option<u64>
        requires { byte < 256 }
        ensures { IsAbsent self list.now.pairs (low_of self byte) (high_of self byte 256) result }
    {
        absent_in!(self, list, byte)
    }
}
