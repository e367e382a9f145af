//! Trees changed key by key, and the arrays of words over them: their shapes by the worked rows, and histories of keys
//! drawn by chance, beside a plain list.

use crate::array_shapes::{check_array, set_of};
use crate::draws::Numbers;
use crate::leaves::value_of;
use crate::nodes::{Counts, Grid, check_pairs, same_shape, tree_of};
use crate::plain::{note, same};
use crate::random_trees::check_queries;
use judy_change::{Removed, insert, insert_with, remove, slot};
use judy_leaf::{ValueWords, Words};
use judy_node::{NodeOf, Shape};
use judy_unmetered::UNMETERED;
use judy_word::{Judy1, JudyL};
use std::alloc::{AllocError, Global};
use std::process::Abort;
use std::test::Fail;

// Keys put in or taken out.
#[derive(Clone, Copy)]
pub(crate) enum Change {
    In(Grid),
    Out(Grid),
}

// A tree, and the plain list of its pairs that the test keeps.
#[derive(Drop)]
struct Twins<V: Words + Drop> {
    tree: NodeOf<V>,
    plain: Vec<(u64, u64)>,
}

impl<V: Words + Drop> Twins<V> {
    fn new(alloc: Global) -> Twins<V> {
        Twins {
            tree: NodeOf::empty(),
            plain: Vec::new(alloc),
        }
    }

    // Puts a key into the tree, with its value: at once, or through the slot. True where it was absent.
    fn put_in_tree(
        &mut self,
        rt: &impl Abort,
        alloc: Global,
        key: u64,
    ) -> Result<bool, AllocError> {
        assert!(rt; V::WORDS <= 1);
        assert!(rt; self.tree.pop() < u64::MAX);
        if key % 2 == 0 {
            return insert_with(alloc, &mut self.tree, key, value_of::<V>(key));
        }
        let added = insert(alloc, &mut self.tree, key)?;
        if V::WORDS == 1 {
            if let Some(value) = slot(&mut self.tree, key) {
                *value = value_of::<V>(key);
            }
        }
        Ok(added)
    }

    fn put(&mut self, rt: &impl Abort, alloc: Global, key: u64) -> Result<(), AllocError> {
        let absent = self.plain.iter().all(|pair| pair.0 != key);
        let added = self.put_in_tree(rt, alloc, key)?;
        same(rt, u64::from(added), u64::from(absent), key);
        if absent {
            note(rt, &mut self.plain, key, value_of::<V>(key))?;
        }
        Ok(())
    }

    fn take(&mut self, rt: &impl Abort, alloc: Global, key: u64) {
        assert!(rt; V::WORDS <= 1);
        let wanted = take_from(&mut self.plain, key);
        let removed = remove(alloc, &mut self.tree, key);
        same_removed(rt, removed, wanted, key);
    }

    // Compares the pairs.
    fn check_pairs(&self, rt: &impl Abort, alloc: Global) -> Result<(), AllocError> {
        check_pairs(rt, alloc, &self.tree, &self.plain)
    }

    // Compares the shape with that of the tree made of the same pairs at once.
    fn check_shape(&self, rt: &impl Abort, alloc: Global) -> Result<(), AllocError> {
        let made = tree_of::<V>(rt, alloc, &self.plain)?;
        same_shapes(rt, self.tree.shape(UNMETERED), made.shape(UNMETERED));
        Ok(())
    }

    // Puts a key in or takes it out, and compares the pairs and the shape.
    fn put_or_take(
        &mut self,
        rt: &impl Abort,
        alloc: Global,
        key: u64,
        put: bool,
    ) -> Result<(), AllocError> {
        if put {
            self.put(rt, alloc, key)?;
        } else {
            self.take(rt, alloc, key);
        }
        self.check_pairs(rt, alloc)?;
        self.check_shape(rt, alloc)
    }

    // Puts keys in or takes them out.
    fn change(&mut self, rt: &impl Abort, alloc: Global, change: Change) -> Result<(), AllocError> {
        match change {
            Change::In(keys) => self.put_all(rt, alloc, &keys.pairs::<V>(rt, alloc)?),
            Change::Out(keys) => {
                self.take_all(rt, alloc, &keys.pairs::<V>(rt, alloc)?);
                Ok(())
            }
        }
    }

    fn put_all(
        &mut self,
        rt: &impl Abort,
        alloc: Global,
        pairs: &[(u64, u64)],
    ) -> Result<(), AllocError> {
        for pair in pairs {
            self.put(rt, alloc, pair.0)?;
        }
        Ok(())
    }

    fn take_all(&mut self, rt: &impl Abort, alloc: Global, pairs: &[(u64, u64)]) {
        for pair in pairs {
            self.take(rt, alloc, pair.0);
        }
    }
}

// Takes a key out of the plain list, and tells what a tree answers to its removal.
fn take_from(plain: &mut Vec<(u64, u64)>, key: u64) -> Removed {
    let mut wanted = Removed {
        was: false,
        value: 0,
        shrunk: true,
    };
    if let Some(at) = plain.iter().position(|pair| pair.0 == key) {
        let (_, value) = plain.remove(at);
        wanted.was = true;
        wanted.value = value;
    }
    wanted
}

// Compares what a tree answers to a removal with what is wanted.
fn same_removed(rt: &impl Abort, found: Removed, wanted: Removed, key: u64) {
    assert_eq!(rt; found, wanted, "{key}");
}

// Compares two shapes.
fn same_shapes(rt: &impl Abort, found: Shape, wanted: Shape) {
    assert_eq!(rt; found, wanted);
}

// Makes changes one after the other, and compares the pairs, the shape and all answers after each.
fn check_changes<V: Words + Drop>(
    rt: &impl Abort,
    alloc: Global,
    changes: &[(Change, Counts)],
) -> Result<(), AllocError> {
    let mut twins: Twins<V> = Twins::new(alloc);
    for (change, counts) in changes {
        twins.change(rt, alloc, *change)?;
        twins.check_pairs(rt, alloc)?;
        same_shape(rt, twins.tree.shape(UNMETERED), *counts);
        check_queries(rt, &twins.tree, &twins.plain);
    }
    Ok(())
}

#[test]
fn leaf_and_bitmap_leaf(rt: HostRuntime) -> Result<(), Fail> {
    let set = [
        (Change::In(Grid::run(32, None)), [0, 1, 0, 0, 0, 0]),
        (Change::In(Grid::run(0, Some(32))), [0, 0, 1, 0, 0, 0]),
        (Change::Out(Grid::run(0, Some(32))), [0, 1, 0, 0, 0, 0]),
    ];
    check_changes::<ValueWords<0>>(&rt, rt.alloc(), &set)?;
    check_array::<Judy1>(&rt, rt.alloc(), &set)?;
    Ok(())
}

#[test]
fn skip_and_merge(rt: HostRuntime) -> Result<(), Fail> {
    let far = Grid::run(0, Some(1 << 56));
    let set = [
        (Change::In(Grid::run(33, None)), [0, 0, 1, 0, 0, 0]),
        (Change::In(far), [1, 0, 1, 1, 0, 0]),
        (Change::Out(far), [0, 0, 1, 0, 0, 0]),
    ];
    check_changes::<ValueWords<0>>(&rt, rt.alloc(), &set)?;
    check_array::<Judy1>(&rt, rt.alloc(), &set)?;
    let pairs = Grid::run(33, Some(1 << 56)).pairs::<ValueWords<0>>(&rt, rt.alloc())?;
    let set = set_of(&rt, rt.alloc(), &pairs);
    check_pairs(&rt, rt.alloc(), set.root(), &pairs)?;
    Ok(())
}

#[test]
fn branch_forms(rt: HostRuntime) -> Result<(), Fail> {
    let far = 1 << 56;
    let eight = [
        (Change::In(Grid::rows(8, far, 5, None)), [0, 8, 0, 0, 1, 0]),
        (
            Change::Out(Grid::run(5, None).starting(7 * far)),
            [0, 7, 0, 1, 0, 0],
        ),
    ];
    check_changes::<ValueWords<0>>(&rt, rt.alloc(), &eight)?;
    check_array::<Judy1>(&rt, rt.alloc(), &eight)?;
    let full = [
        (
            Change::In(Grid::rows(128, far, 1, None)),
            [128, 0, 0, 0, 0, 1],
        ),
        (
            Change::Out(Grid::run(0, Some(5 * far))),
            [127, 0, 0, 0, 1, 0],
        ),
    ];
    check_changes::<ValueWords<0>>(&rt, rt.alloc(), &full)?;
    check_array::<Judy1>(&rt, rt.alloc(), &full)?;
    let near = [
        (Change::In(Grid::rows(5, 256, 8, None)), [5, 0, 0, 1, 0, 0]),
        (Change::In(Grid::run(0, Some(8))), [4, 1, 0, 1, 0, 0]),
    ];
    check_changes::<ValueWords<0>>(&rt, rt.alloc(), &near)?;
    check_array::<Judy1>(&rt, rt.alloc(), &near)?;
    let map = [(Change::In(Grid::rows(5, 256, 8, None)), [0, 5, 0, 1, 0, 0])];
    check_changes::<ValueWords<1>>(&rt, rt.alloc(), &map)?;
    check_array::<JudyL>(&rt, rt.alloc(), &map)?;
    Ok(())
}

#[test]
fn full_ranges(rt: HostRuntime) -> Result<(), Fail> {
    let set = [
        (Change::In(Grid::run(256, None)), [0, 0, 1, 0, 0, 0]),
        (Change::In(Grid::run(512, None)), [0, 0, 2, 1, 0, 0]),
    ];
    check_changes::<ValueWords<0>>(&rt, rt.alloc(), &set)?;
    check_array::<Judy1>(&rt, rt.alloc(), &set)?;
    Ok(())
}

// A branch with a child for each byte: a child of two keys, one child less, and the last one back. Ranks and places go
// by its sums.
#[test]
fn a_branch_of_256_children(rt: HostRuntime) -> Result<(), Fail> {
    let second = Grid::run(0, Some(5 * 256 + 3));
    let last = Grid::run(0, Some(17 * 256));
    let map = [
        (
            Change::In(Grid::rows(256, 256, 1, None)),
            [256, 0, 0, 0, 0, 1],
        ),
        (Change::In(second), [255, 1, 0, 0, 0, 1]),
        (Change::Out(last), [254, 1, 0, 0, 0, 1]),
        (Change::In(last), [255, 1, 0, 0, 0, 1]),
        (Change::Out(second), [256, 0, 0, 0, 0, 1]),
    ];
    check_changes::<ValueWords<1>>(&rt, rt.alloc(), &map)?;
    Ok(())
}

// Changes at keys that have some bits alone, more of them inserts in the first half, more of them removals in the
// second.
fn check_history<V: Words + Drop>(
    rt: &impl Abort,
    alloc: Global,
    numbers: &mut Numbers,
    bits: u64,
) -> Result<(), AllocError> {
    let mut twins: Twins<V> = Twins::new(alloc);
    for step in 0..400 {
        let key = numbers.next() & bits;
        let seldom = numbers.next() % 4 == 0;
        twins.put_or_take(rt, alloc, key, (step < 200) != seldom)?;
    }
    Ok(())
}

#[test]
fn histories(rt: HostRuntime) -> Result<(), Fail> {
    let mut numbers = Numbers::new();
    for bits in [
        0xff,
        0x1ff,
        0x0003_003f,
        0xff00_0000_0000_0001,
        0x0f00_0000_00f0_0000,
        0x0303_0303_0303_0303,
        u64::MAX,
    ] {
        check_history::<ValueWords<0>>(&rt, rt.alloc(), &mut numbers, bits)?;
        check_history::<ValueWords<1>>(&rt, rt.alloc(), &mut numbers, bits)?;
    }
    Ok(())
}
