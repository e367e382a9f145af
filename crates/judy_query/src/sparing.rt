//! Meters by which no full child is entered.
//!
//! The searches for words that are no keys (empties.rt) go down by any [`Sparing`], and don't know which. So they can
//! enter no child but by [`Sparing::enter`], which wants one with room: what enters any child wants a [`Meter`], and
//! these searches have none. A meter that counts full children (watch.rt) has counted none more behind them.

ghost use Rattle.std.specs.Prelude.{◌≡◌, ℕ, ◌+◌, ◌-◌, ◌^◌, ◌<◌, ◌≤◌, length};
ghost use Rattle.judy_node.specs.Trees.{IsChild};
ghost use Rattle.judy_node.specs.Views.{IsView};

use judy_bits::Meter;
use judy_leaf::Words;
use judy_node::{ChildOf, NodeOf, ViewOf};

/// A tree whose root is to be entered.
// A method of a trait that takes a reference to a tree, or to a child, gets no proof; one that takes such a struct
// does.
#[derive(Drop)]
pub(crate) struct Top<'a, V: Words + Drop>(pub(crate) &'a NodeOf<V>);

/// A child that is to be entered.
#[derive(Drop)]
pub(crate) struct Inner<'a, V: Words + Drop>(pub(crate) &'a ChildOf<V>);

/// A meter for those who enter no full child.
pub(crate) trait Sparing {
    // The visits so far.
    ghost visits: { Self → ℕ };

    // How many full children were entered so far, where it counts them; else 0.
    ghost full: { Self → ℕ };

    /// Enters a root, full or not: one visit more; there are fewer than `u64::MAX` so far.
    fn enter_root<'a, V: Words + Drop>(&mut self, tree: Top<'a, V>) -> ViewOf<'a, V>
        requires { visits self.old < 2 ^ 64 - 1 }
        ensures visits { visits self.new ≡ visits self.old + 1 }
        ensures full { full self.new ≡ full self.old }
        ensures view { IsView V.WORDS 8 tree.entry.0.now result };

    /// Enters a child that isn't full, whose keys have `width` bytes: one visit more; there are fewer than `u64::MAX`
    /// so far.
    fn enter<'a, V: Words + Drop>(&mut self, child: Inner<'a, V>, width: u8) -> ViewOf<'a, V>
        requires below { visits self.old < 2 ^ 64 - 1 }
        requires child { IsChild V.WORDS width child.0.now }
        requires narrow { width ≤ 7 }
        requires room { length child.0.now.pairs < 256 ^ width }
        ensures visits { visits self.new ≡ visits self.old + 1 }
        ensures spared { full self.new ≡ full self.old }
        ensures view { IsView V.WORDS width child.entry.0.now result };
}

impl Sparing for Meter {
    ghost visits = { λ meter. meter };

    ghost full = { λ meter. 0 };

    #[inline(always)]
    fn enter_root<'a, V: Words + Drop>(&mut self, tree: Top<'a, V>) -> ViewOf<'a, V> {
        tree.0.enter(self)
    }

    #[inline(always)]
    fn enter<'a, V: Words + Drop>(&mut self, child: Inner<'a, V>, width: u8) -> ViewOf<'a, V> {
        child.0.enter(width, self)
    }
}
