//! The slot of a key's value, which is lent through the whole tree.
//!
//! A slot is lent from node to node down the tree. As no tree is deeper than eight nodes, the way down is unrolled:
//! each depth is a type, and lends by the one below it. Which keys are sought is a type too (`Sought`).

ghost use Rattle.std.specs.Prelude.{◌≡◌, ◌+◌, ◌<◌, ◌≤◌, length, ℕ, Some, IsSome, IsFalse};
ghost use Rattle.judy_node.specs.Trees.{IsChild};
ghost use Rattle.judy_node.specs.Slots.{value_of, with_value};
ghost use Rattle.judy_node.specs.Seats.{HasSeat, value_at, root_misses};
ghost use Rattle.judy_node.specs.Roots.{root_tree, IsRoot};
ghost use Rattle.std.specs.Option.{option_copied_mut};

use crate::child::{BranchOf, ChildOf, KindOf};
use crate::node::{NodeOf, RootOf};
use crate::seat::{AnyKey, PresentKey, Seat, Sought};
use judy_leaf::Words;
use std::marker::PhantomData;

impl<V: Words + Drop> KindOf<V> {
    ghost use Rattle.std.specs.Borrow.{sem, LendsIf, u64 as word};
    ghost use Rattle.judy_node.specs.contracts.child.KindOf.{the_row};
    ghost use Rattle.judy_node.specs.Seats.{kind_written};

    // The slot at a seat; below a branch, that of what is left of the key.
    #[inline(always)]
    fn slot_at<D: Depth, K: Sought>(&mut self, seat: Seat) -> Option<&mut u64>
        requires words { V.WORDS ≡ 1 }
        requires seat { HasSeat V.WORDS D.DEPTH self.old seat.at }
        requires known { K.known (value_at self.old seat.at seat.rest) }
        ensures* changes { sem 𝓛
            (LendsIf (the_row V.row V.Words) word self.entry result
            (kind_written self.entry.now seat.at seat.rest) self.entry.now) }
        ensures value { option_copied_mut result ≡ value_at self.old seat.at seat.rest }
    {
        match self {
            KindOf::Imm(_, value) => Some(value),
            KindOf::Leaf(_, block) => Some(block.slot(seat.at)),
            KindOf::Bit(_, block) => Some(block.slot(seat.at)),
            KindOf::Branch(branch) => branch.slot_at::<D, K>(seat),
        }
    }

    // The same in a node that has no node below it, where nothing is left of the key.
    #[inline(always)]
    fn slot_in_leaf(&mut self, seat: Seat) -> Option<&mut u64>
        requires words { V.WORDS ≡ 1 }
        requires seat { HasSeat V.WORDS 0 self.old seat.at }
        ensures* changes { sem 𝓛
            (LendsIf (the_row V.row V.Words) word self.entry result
            (kind_written self.entry.now seat.at seat.rest) self.entry.now) }
        ensures value { option_copied_mut result ≡ value_at self.old seat.at seat.rest }
    {
        match self {
            KindOf::Imm(_, value) => Some(value),
            KindOf::Leaf(_, block) => Some(block.slot(seat.at)),
            KindOf::Bit(_, block) => Some(block.slot(seat.at)),
            KindOf::Branch(_) => unreachable!(),
        }
    }
}

impl<V: Words + Drop> BranchOf<V> {
    ghost use Rattle.std.specs.Borrow.{sem, Lends, LendsIf, u64 as word};
    ghost use Rattle.judy_node.specs.contracts.child.BranchOf.{the_row};
    ghost use Rattle.judy_node.specs.contracts.child.ChildOf.{the_row as child};
    ghost use Rattle.judy_node.specs.Seats.{branch_written, with_child, child_at};

    // The child at a place.
    #[inline(always)]
    fn child_at(&mut self, at: usize) -> &mut ChildOf<V>
        requires { at < length self.old.children.items }
        ensures* changes { sem 𝓛
            (Lends (the_row V.row V.Words) (child V.row V.Words) self.entry result
            (with_child self.entry.now at)) }
        ensures value { result.now ≡ child_at self.old at }
    {
        &mut self.children[at]
    }

    // The slot of a key of the child at a place.
    #[inline(always)]
    fn slot_at<D: Depth, K: Sought>(&mut self, seat: Seat) -> Option<&mut u64>
        requires words { V.WORDS ≡ 1 }
        requires inside { seat.at < length self.old.children.items }
        requires child { IsChild V.WORDS self.old.width (child_at self.old seat.at) }
        requires depth { self.old.width ≤ D.DEPTH }
        requires known { K.known (value_of seat.rest (child_at self.old seat.at).pairs) }
        ensures* changes { sem 𝓛
            (LendsIf (the_row V.row V.Words) word self.entry result
            (branch_written self.entry.now seat.at seat.rest) self.entry.now) }
        ensures value { option_copied_mut result
            ≡ value_of seat.rest (child_at self.old seat.at).pairs }
    {
        D::slot::<V, K>(self, seat)
    }

    // The same where the children may be branches of a lower depth.
    #[inline(always)]
    fn slot_below<D: Depth, K: Sought>(&mut self, seat: Seat) -> Option<&mut u64>
        requires words { V.WORDS ≡ 1 }
        requires inside { seat.at < length self.old.children.items }
        requires child { IsChild V.WORDS self.old.width (child_at self.old seat.at) }
        requires depth { self.old.width ≤ D.DEPTH + 1 }
        requires known { K.known (value_of seat.rest (child_at self.old seat.at).pairs) }
        ensures* changes { sem 𝓛
            (LendsIf (the_row V.row V.Words) word self.entry result
            (branch_written self.entry.now seat.at seat.rest) self.entry.now) }
        ensures value { option_copied_mut result
            ≡ value_of seat.rest (child_at self.old seat.at).pairs }
    {
        let width = self.width;
        self.child_at(seat.at).slot_at::<D, K>(width, seat.rest)
    }

    // The same where no child has a node below it.
    #[inline(always)]
    fn slot_of_leaf<K: Sought>(&mut self, seat: Seat) -> Option<&mut u64>
        requires words { V.WORDS ≡ 1 }
        requires inside { seat.at < length self.old.children.items }
        requires child { IsChild V.WORDS self.old.width (child_at self.old seat.at) }
        requires depth { self.old.width ≤ 1 }
        requires known { K.known (value_of seat.rest (child_at self.old seat.at).pairs) }
        ensures* changes { sem 𝓛
            (LendsIf (the_row V.row V.Words) word self.entry result
            (branch_written self.entry.now seat.at seat.rest) self.entry.now) }
        ensures value { option_copied_mut result
            ≡ value_of seat.rest (child_at self.old seat.at).pairs }
    {
        let width = self.width;
        self.child_at(seat.at).slot_of_byte::<K>(width, seat.rest)
    }
}

impl<V: Words + Drop> ChildOf<V> {
    ghost use Rattle.std.specs.Borrow.{sem, LendsIf, u64 as word};
    ghost use Rattle.judy_node.specs.contracts.child.ChildOf.{the_row};

    // The slot of a key of the node, whose keys have `width` bytes.
    #[inline(always)]
    fn slot_at<D: Depth, K: Sought>(&mut self, width: u8, key: u64) -> Option<&mut u64>
        requires words { V.WORDS ≡ 1 }
        requires child { IsChild V.WORDS width self.old }
        requires depth { width ≤ D.DEPTH + 1 }
        requires known { K.known (value_of key self.old.pairs) }
        ensures* changes { sem 𝓛
            (LendsIf (the_row V.row V.Words) word self.entry result
            (with_value self.entry.now key) self.entry.now) }
        ensures value { option_copied_mut result ≡ value_of key self.old.pairs }
    {
        let kind = self.place.kind_mut();
        let seat = K::seat(kind, width, key)?;
        kind.slot_at::<D, K>(seat)
    }

    // The same of a node whose keys have one byte, which has no node below it.
    #[inline(always)]
    fn slot_of_byte<K: Sought>(&mut self, width: u8, key: u64) -> Option<&mut u64>
        requires words { V.WORDS ≡ 1 }
        requires child { IsChild V.WORDS width self.old }
        requires depth { width ≤ 1 }
        requires known { K.known (value_of key self.old.pairs) }
        ensures* changes { sem 𝓛
            (LendsIf (the_row V.row V.Words) word self.entry result
            (with_value self.entry.now key) self.entry.now) }
        ensures value { option_copied_mut result ≡ value_of key self.old.pairs }
    {
        let kind = self.place.kind_mut();
        let seat = K::seat(kind, width, key)?;
        kind.slot_in_leaf(seat)
    }
}

// A depth of branches: it lends the slots below branches whose children are no deeper than it.
pub trait Depth {
    ghost DEPTH: { ℕ };

    ghost use Rattle.std.specs.Borrow.{sem, LendsIf, u64 as word};
    ghost use Rattle.judy_node.specs.contracts.child.BranchOf.{the_row};
    ghost use Rattle.judy_node.specs.Seats.{branch_written, child_at};

    // The slot of a key of the child at a place.
    fn slot<V: Words + Drop, K: Sought>(branch: &mut BranchOf<V>, seat: Seat) -> Option<&mut u64>
        requires words { V.WORDS ≡ 1 }
        requires inside { seat.at < length branch.old.children.items }
        requires child { IsChild V.WORDS branch.old.width (child_at branch.old seat.at) }
        requires depth { branch.old.width ≤ DEPTH }
        requires known { K.known (value_of seat.rest (child_at branch.old seat.at).pairs) }
        ensures* changes { sem 𝓛
            (LendsIf (the_row V.row V.Words) word branch.entry result
            (branch_written branch.entry.now seat.at seat.rest) branch.entry.now) }
        ensures value { option_copied_mut result
            ≡ value_of seat.rest (child_at branch.old seat.at).pairs };
}

// The least depth, that of branches whose children have keys of one byte.
pub struct Bottom;

impl Depth for Bottom {
    ghost DEPTH = { 1 };

    #[inline(always)]
    fn slot<V: Words + Drop, K: Sought>(branch: &mut BranchOf<V>, seat: Seat) -> Option<&mut u64> {
        branch.slot_of_leaf::<K>(seat)
    }
}

// The depth above another.
pub struct Above<D>(PhantomData<D>);

impl<D: Depth> Depth for Above<D> {
    ghost DEPTH = { D.DEPTH + 1 };

    #[inline(always)]
    fn slot<V: Words + Drop, K: Sought>(branch: &mut BranchOf<V>, seat: Seat) -> Option<&mut u64> {
        branch.slot_below::<D, K>(seat)
    }
}

// The depth of the branches whose keys have eight bytes.
type Deepest = Above<Above<Above<Above<Above<Above<Bottom>>>>>>;

impl<V: Words + Drop> RootOf<V> {
    ghost use Rattle.std.specs.Borrow.{sem, LendsIf, u64 as word};
    ghost use Rattle.judy_node.specs.contracts.node.RootOf.{the_row};
    ghost use Rattle.judy_node.specs.Seats.{root_written};

    // Whether the root shows by itself that a key is absent.
    #[inline(always)]
    fn misses(&self, key: u64) -> bool
        ensures { result ≡ root_misses self.now key }
    {
        match self {
            RootOf::Empty => true,
            RootOf::One(other, _) => *other != key,
            RootOf::Many(_) => false,
        }
    }

    // The slot of a key.
    #[inline(always)]
    fn slot<K: Sought>(&mut self, key: u64) -> Option<&mut u64>
        requires words { V.WORDS ≡ 1 }
        requires root { IsRoot V.WORDS self.old }
        requires holds { IsFalse (root_misses self.old key) }
        requires known { K.known (value_of key (root_tree self.old).pairs) }
        ensures* changes { sem 𝓛
            (LendsIf (the_row V.row V.Words) word self.entry result
            (root_written self.entry.now key) self.entry.now) }
        ensures value { option_copied_mut result ≡ value_of key (root_tree self.old).pairs }
    {
        match self {
            RootOf::Empty => None,
            RootOf::One(_, value) => Some(value),
            RootOf::Many(child) => child.slot_at::<Deepest, K>(8, key),
        }
    }
}

impl<V: Words + Drop> NodeOf<V> {
    ghost use Rattle.std.specs.Borrow.{sem, Lends, LendsIf, u64 as word};
    ghost use Rattle.judy_node.specs.contracts.node.NodeOf.{the_row};

    /// Lends the value of a key, of a tree whose keys have values; none where the key is absent. The tree becomes the
    /// one with the value that is left in the slot, and nothing else changes, its form neither.
    #[inline(always)]
    pub fn slot(&mut self, key: u64) -> Option<&mut u64>
        requires words { V.WORDS ≡ 1 }
        ensures* changes { sem 𝓛
            (LendsIf (the_row V.row V.Words) word self.entry result
            (with_value self.entry.now key) self.entry.now) }
        ensures value { option_copied_mut result ≡ value_of key self.old.pairs }
    {
        if self.place.kind.misses(key) {
            return None;
        }
        self.place.kind.slot::<AnyKey>(key)
    }

    // The same of a key that is there.
    #[inline(always)]
    fn present_slot(&mut self, key: u64) -> Option<&mut u64>
        requires words { V.WORDS ≡ 1 }
        requires present { IsSome (value_of key self.old.pairs) }
        ensures* changes { sem 𝓛
            (LendsIf (the_row V.row V.Words) word self.entry result
            (with_value self.entry.now key) self.entry.now) }
        ensures value { option_copied_mut result ≡ value_of key self.old.pairs }
    {
        self.place.kind.slot::<PresentKey>(key)
    }

    /// Lends the value of a key that is there, as `slot`. The bytes that the nodes on its way skip aren't looked at.
    #[inline(always)]
    pub fn slot_of(&mut self, key: u64) -> &mut u64
        requires words { V.WORDS ≡ 1 }
        requires present { IsSome (value_of key self.old.pairs) }
        ensures* changes { sem 𝓛
            (Lends (the_row V.row V.Words) word self.entry result
            (with_value self.entry.now key)) }
        ensures value { Some result.now ≡ value_of key self.old.pairs }
    {
        match self.present_slot(key) {
            Some(slot) => slot,
            None => unreachable!(),
        }
    }
}
