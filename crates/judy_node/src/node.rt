//! The root of a tree.

ghost use Rattle.std.specs.Prelude.{◌≡◌, ◌+◌, ◌-◌, ◌^◌, ◌<◌, ◌≤◌, length, IfOk};
ghost use Rattle.judy_node.specs.Trees.{IsNode, IsMap, IsTight};
ghost use Rattle.judy_node.specs.Roots.{root_tree, empty_tree, IsRoot};
ghost use Rattle.judy_node.specs.Views.{IsView};
ghost use Rattle.judy_node.specs.ShapeSums.{shape_as};
ghost use Rattle.judy_model.specs.Forms.{shape_in};

use crate::build::kind_of_sorted;
use crate::child::ChildOf;
use crate::shape::Shape;
use crate::view::ViewOf;
use judy_bits::Meter;
use judy_leaf::{Spare, ValueWords, Words};
use judy_unmetered::Unmetered;
use std::alloc::{AllocError, Global};
use std::marker::Model;

/// A tree of words.
#[derive(Drop)]
pub struct NodeOf<V: Words + Drop> {
    /// Where the root stands, to be changed there.
    pub place: RootPlaceOf<V>,
}

/// The place of a root, which is written there, and read by none who may not write it: a reader has to enter the root.
#[derive(Drop)]
pub struct RootPlaceOf<V: Words + Drop> {
    pub(crate) kind: RootOf<V>,
}

/// A tree whose keys have `W` words of value each, 0 or 1.
pub type Node<const W: usize> = NodeOf<ValueWords<W>>;

/// The kinds of roots, by their parts: for writing. A pair with a key of eight bytes has no room in a child, so it
/// stands here, and what stands below has two keys or more.
#[derive(Drop)]
pub enum RootOf<V: Words + Drop> {
    /// No key.
    Empty,
    /// One pair: the key, and its value, 0 where keys have no values.
    One(u64, u64),
    /// Two keys or more.
    Many(ChildOf<V>),
}

impl<V: Words + Drop> Model for NodeOf<V> {
    ghost use Rattle.judy_node.specs.Trees.{Tree};

    ghost Value = { Tree };

    ghost use Rattle.judy_node.specs.Roots.{root_tree, IsRoot};

    ghost view = { λ a. root_tree a.place.kind };

    ghost invariant = { λ a. IsRoot V.WORDS a.place.kind };
}

impl<V: Words + Drop> NodeOf<V> {
    /// The tree without keys.
    pub fn empty() -> NodeOf<V>
        ensures { result ≡ empty_tree }
    {
        NodeOf::close(RootOf::Empty)
    }

    /// A law, told by a call that does nothing, of what every tree keeps: its keys ascend, and where no node is loose,
    /// its form is that of the rule.
    pub fn law(&self)
        ensures { IsNode V.WORDS self.now }
    {
        let _ = &self.place;
    }

    /// How many keys there are. No node is entered.
    #[inline(always)]
    pub fn pop(&self) -> u64
        ensures { result ≡ length self.now.pairs }
    {
        match &self.place.kind {
            RootOf::Empty => 0,
            RootOf::One(_, _) => 1,
            RootOf::Many(child) => child.pop_in_turn(),
        }
    }

    /// Enters the root: one visit more on the meter, which stands below `u64::MAX`.
    pub fn enter(&self, meter: &mut Meter) -> ViewOf<'_, V>
        requires { meter.old < 2 ^ 64 - 1 }
        ensures visits { meter.new ≡ meter.old + 1 }
        ensures view { IsView V.WORDS 8 self.now result }
    {
        match &self.place.kind {
            RootOf::Empty => {
                meter.tick();
                ViewOf::Null
            }
            RootOf::One(key, value) => {
                meter.tick();
                ViewOf::One(*key, *value)
            }
            RootOf::Many(child) => child.enter(8, meter),
        }
    }

    /// The root by its kind, to be changed.
    pub fn open(self) -> RootOf<V>
        ensures tree { self ≡ root_tree result }
        ensures root { IsRoot V.WORDS result }
    {
        let place = self.place;
        place.kind
    }

    /// The tree whose root has a kind.
    pub fn close(kind: RootOf<V>) -> NodeOf<V>
        requires { IsRoot V.WORDS kind }
        ensures { result ≡ root_tree kind }
    {
        NodeOf {
            place: RootPlaceOf { kind },
        }
    }

    /// How many nodes of each kind the tree has. It goes over all of them, and counts no visit, which takes leave.
    pub fn shape(&self, _leave: Unmetered) -> Shape
        ensures { shape_as result ≡ shape_in self.now.form }
    {
        let mut shape = Shape::nothing();
        match &self.place.kind {
            RootOf::Empty => {}
            RootOf::One(_, _) => shape.immediates = 1,
            RootOf::Many(child) => {
                let _ = child.pop();
                child.count_into(&mut shape);
            }
        }
        shape
    }

    /// The pairs by ascending key, in a vector of their own; no visit is counted, which takes leave. The error is want
    /// of memory.
    pub fn gather(&self, leave: Unmetered, alloc: Global) -> Result<Vec<(u64, u64)>, AllocError>
        ensures { IfOk result (λ pairs. pairs.items ≡ self.now.pairs) }
    {
        match &self.place.kind {
            RootOf::Empty => Ok(Vec::new(alloc)),
            RootOf::One(key, value) => Ok(vec![in alloc; (*key, *value)]?),
            RootOf::Many(child) => {
                let mut pairs = vec![in alloc; (0, 0); child.pop() as usize]?;
                child.fill(leave, 8, 0, &mut pairs);
                Ok(pairs)
            }
        }
    }

    /// A copy of the tree: the same keys, values and form, in blocks that have no more room than these take. It asks
    /// for memory a node at a time. No visit is counted, which takes leave. The error is want of memory; nothing is
    /// kept then.
    pub fn try_clone(&self, leave: Unmetered, alloc: Global) -> Result<NodeOf<V>, AllocError>
        ensures { IfOk result (λ copy. copy ≡ self.now) }
    {
        let kind = match &self.place.kind {
            RootOf::Empty => RootOf::Empty,
            RootOf::One(key, value) => RootOf::One(*key, *value),
            RootOf::Many(child) => RootOf::Many(child.try_clone(leave, alloc)?),
        };
        Ok(NodeOf::close(kind))
    }

    /// The tight tree of pairs whose keys strictly ascend; their values are 0 where keys have no values. The error is
    /// want of memory; nothing is kept then.
    pub fn from_sorted(alloc: Global, pairs: &[(u64, u64)]) -> Result<NodeOf<V>, AllocError>
        requires one { V.WORDS ≤ 1 }
        requires map { IsMap V.WORDS 0 (256 ^ 8) pairs.now }
        ensures pairs { IfOk result (λ tree. tree.pairs ≡ pairs.now) }
        ensures tight { IfOk result (λ tree. IsTight tree) }
    {
        if pairs.is_empty() {
            return Ok(NodeOf::empty());
        }
        if pairs.len() == 1 {
            let (key, value) = pairs[0];
            return Ok(NodeOf::close(RootOf::One(key, value)));
        }
        let kind = kind_of_sorted(alloc, 8, pairs, Spare::Ample)?;
        Ok(NodeOf::close(RootOf::Many(ChildOf::close(kind))))
    }
}

impl<V: Words + Drop> RootPlaceOf<V> {
    ghost use Rattle.std.specs.Borrow.{sem, Lends};
    ghost use Rattle.judy_node.specs.contracts.node.RootPlaceOf.{the_row};
    ghost use Rattle.judy_node.specs.contracts.node.RootOf.{the_row as root};
    ghost use Rattle.judy_node.specs.Seats.{root_placed};

    /// Lends the root by its kind, to be changed where it stands.
    pub fn kind_mut(&mut self) -> &mut RootOf<V>
        ensures* changes { sem 𝓛
            (Lends (the_row V.row V.Words) (root V.row V.Words) self.entry result root_placed) }
        ensures value { root_placed result.now ≡ self.old }
    {
        &mut self.kind
    }
}
