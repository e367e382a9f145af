//! Trees made of sorted pairs: their shapes by the worked rows and by a plain count of the rule, and what they give
//! back.

ghost use Rattle.std.specs.Prelude.{◌≡◌, ◌<◌, ◌≤◌, ◌^◌, IsTrue};
ghost use Rattle.judy_node.specs.Trees.{IsMap};

use crate::array_shapes::check_array;
use crate::changes::Change;
use crate::leaves::{top_of, value_of};
use crate::plain::{note, same, same_len, same_pair, same_pairs};
use judy_leaf::{ValueWords, Words};
use judy_node::{NodeOf, Shape};
use judy_unmetered::UNMETERED;
use judy_word::{Judy1, JudyL};
use std::alloc::{AllocError, Global};
use std::process::Abort;
use std::test::Fail;

// How many immediates, leaves, bitmap leaves, linear, bitmap and full branches there are.
pub(crate) type Counts = [u128; 6];

// The keys `from + row * by + column`, of so many rows and columns, and one more.
#[derive(Clone, Copy)]
pub(crate) struct Grid {
    from: u64,
    rows: u64,
    by: u64,
    columns: u64,
    more: Option<u64>,
}

// The shape of these numbers.
fn shape_of(counts: Counts) -> Shape {
    let [immediates, leaves, bitmap_leaves, linear, bitmap, full] = counts;
    Shape {
        immediates,
        leaves,
        bitmap_leaves,
        linear,
        bitmap,
        full,
    }
}

impl Grid {
    // The keys from 0 on, so many.
    pub(crate) fn run(columns: u64, more: Option<u64>) -> Grid {
        Grid {
            from: 0,
            rows: 1,
            by: 0,
            columns,
            more,
        }
    }

    // So many rows, each at a distance from the one before.
    pub(crate) fn rows(rows: u64, by: u64, columns: u64, more: Option<u64>) -> Grid {
        Grid {
            from: 0,
            rows,
            by,
            columns,
            more,
        }
    }

    // The same, beginning at another key.
    pub(crate) fn starting(self, from: u64) -> Grid {
        Grid { from, ..self }
    }

    // The pairs of these keys, ascending.
    pub(crate) fn pairs<V: Words + Drop>(
        self,
        rt: &impl Abort,
        alloc: Global,
    ) -> Result<Vec<(u64, u64)>, AllocError> {
        let mut pairs = Vec::new(alloc);
        for row in 0..self.rows {
            for column in 0..self.columns {
                let start = self.from.wrapping_add(row.wrapping_mul(self.by));
                let key = start.wrapping_add(column);
                note(rt, &mut pairs, key, value_of::<V>(key))?;
            }
        }
        if let Some(key) = self.more {
            note(rt, &mut pairs, key, value_of::<V>(key))?;
        }
        Ok(pairs)
    }
}

// Whether a pair can come next among keys of a width, where the next key is to be at least `low`.
fn follows<V: Words + Drop>(low: u128, key: u64, value: u64, width: u8) -> bool
    requires some { 1 ≤ width }
    requires most { width ≤ 8 }
    ensures { IsTrue result → (low ≤ key) × (key < 256 ^ width) × (V.WORDS ≡ 0 → value ≡ 0) }
{
    if V::WORDS == 0 && value != 0 {
        return false;
    }
    low <= u128::from(key) && key <= top_of(width)
}

// Whether keys of a width strictly ascend, and each value is 0 where keys have no value.
pub(crate) fn ascends<V: Words + Drop>(pairs: &[(u64, u64)], width: u8) -> bool
    requires some { 1 ≤ width }
    requires most { width ≤ 8 }
    ensures { IsTrue result → IsMap V.WORDS 0 (256 ^ width) pairs.now }
{
    let mut low = 0;
    for pair in pairs {
        if !follows::<V>(low, pair.0, pair.1, width) {
            return false;
        }
        low = u128::from(pair.0) + 1;
    }
    true
}

// Writes another value into each slot, and finds them all changed.
fn check_slots<V: Words + Drop>(
    rt: &impl Abort,
    alloc: Global,
    tree: &mut NodeOf<V>,
    pairs: &[(u64, u64)],
) -> Result<(), AllocError> {
    if V::WORDS != 1 {
        return Ok(());
    }
    for &(key, value) in pairs {
        change_slot(rt, tree, key, value);
    }
    let changed = tree.gather(UNMETERED, alloc)?;
    check_changed(rt, &changed, pairs);
    Ok(())
}

// Writes another value into the slot of a key.
fn change_slot<V: Words + Drop>(rt: &impl Abort, tree: &mut NodeOf<V>, key: u64, value: u64)
    requires { V.WORDS ≡ 1 }
{
    if let Some(slot) = tree.slot(key) {
        write_other(rt, slot, value);
    }
}

// Compares the value in a slot, and writes another one.
fn write_other(rt: &impl Abort, slot: &mut u64, value: u64) {
    same(rt, *slot, value, value);
    *slot = !value;
}

// Compares the pairs whose values are changed with those from before.
fn check_changed(rt: &impl Abort, changed: &[(u64, u64)], pairs: &[(u64, u64)]) {
    same_len(rt, changed.len(), pairs);
    for (new, old) in changed.iter().zip(pairs) {
        same_pair(rt, Some(*new), Some((old.0, !old.1)), old.0);
    }
}

// Compares the shape of a tree with the counts wanted.
pub(crate) fn same_shape(rt: &impl Abort, shape: Shape, counts: Counts) {
    assert_eq!(rt; shape, shape_of(counts));
}

// The tree of pairs.
pub(crate) fn tree_of<V: Words + Drop>(
    rt: &impl Abort,
    alloc: Global,
    pairs: &[(u64, u64)],
) -> Result<NodeOf<V>, AllocError> {
    assert!(rt; V::WORDS <= 1);
    let ascending = ascends::<V>(pairs, 8);
    assert!(rt; ascending);
    NodeOf::from_sorted(alloc, pairs)
}

// Makes the tree of pairs, and compares what it tells with them.
pub(crate) fn check_tree<V: Words + Drop>(
    rt: &impl Abort,
    alloc: Global,
    pairs: &[(u64, u64)],
    counts: Counts,
) -> Result<(), AllocError> {
    let mut tree = tree_of::<V>(rt, alloc, pairs)?;
    check_pairs(rt, alloc, &tree, pairs)?;
    same_shape(rt, tree.shape(UNMETERED), counts);
    check_slots(rt, alloc, &mut tree, pairs)
}

// Compares the pairs of a tree, and how many they are.
pub(crate) fn check_pairs<V: Words + Drop>(
    rt: &impl Abort,
    alloc: Global,
    tree: &NodeOf<V>,
    pairs: &[(u64, u64)],
) -> Result<(), AllocError> {
    let count = pairs.len() as u64;
    same(rt, tree.pop(), count, count);
    let gathered = tree.gather(UNMETERED, alloc)?;
    same_pairs(rt, &gathered, pairs);
    Ok(())
}

// Compares the trees of such keys with the counts beside them.
fn check_table<V: Words + Drop>(
    rt: &impl Abort,
    alloc: Global,
    table: &[(Grid, Counts)],
) -> Result<(), AllocError> {
    for (grid, counts) in table {
        let pairs = grid.pairs::<V>(rt, alloc)?;
        check_tree::<V>(rt, alloc, &pairs, *counts)?;
    }
    Ok(())
}

#[test]
fn shape_table(rt: HostRuntime) -> Result<(), Fail> {
    let five = Grid {
        from: 5,
        rows: 1,
        by: 0,
        columns: 1,
        more: None,
    };
    let five_and_six = Grid {
        from: 5,
        rows: 1,
        by: 0,
        columns: 2,
        more: None,
    };
    let both = [
        (Grid::run(0, None), [0, 0, 0, 0, 0, 0]),
        (five, [1, 0, 0, 0, 0, 0]),
        (five_and_six, [0, 1, 0, 0, 0, 0]),
        (Grid::run(256, None), [0, 0, 1, 0, 0, 0]),
    ];
    check_table::<ValueWords<0>>(&rt, rt.alloc(), &both)?;
    check_table::<ValueWords<1>>(&rt, rt.alloc(), &both)?;
    let sets = [(Grid::run(257, None), [1, 0, 1, 1, 0, 0])];
    check_table::<ValueWords<0>>(&rt, rt.alloc(), &sets)?;
    for (grid, counts) in both {
        check_array::<Judy1>(&rt, rt.alloc(), &[(Change::In(grid), counts)])?;
        check_array::<JudyL>(&rt, rt.alloc(), &[(Change::In(grid), counts)])?;
    }
    for (grid, counts) in sets {
        check_array::<Judy1>(&rt, rt.alloc(), &[(Change::In(grid), counts)])?;
    }
    Ok(())
}

#[test]
fn leaf_and_bitmap_leaf(rt: HostRuntime) -> Result<(), Fail> {
    let sets = [
        (Grid::run(32, None), [0, 1, 0, 0, 0, 0]),
        (Grid::run(33, None), [0, 0, 1, 0, 0, 0]),
    ];
    check_table::<ValueWords<0>>(&rt, rt.alloc(), &sets)?;
    Ok(())
}

#[test]
fn skip_and_merge(rt: HostRuntime) -> Result<(), Fail> {
    let sets = [
        (Grid::run(33, Some(1 << 56)), [1, 0, 1, 1, 0, 0]),
        (Grid::run(33, None), [0, 0, 1, 0, 0, 0]),
    ];
    check_table::<ValueWords<0>>(&rt, rt.alloc(), &sets)?;
    Ok(())
}

#[test]
fn branch_forms(rt: HostRuntime) -> Result<(), Fail> {
    let far = 1 << 56;
    let sets = [
        (Grid::rows(8, far, 5, None), [0, 8, 0, 0, 1, 0]),
        (Grid::rows(7, far, 5, None), [0, 7, 0, 1, 0, 0]),
        (Grid::rows(128, far, 1, None), [128, 0, 0, 0, 0, 1]),
        (Grid::rows(127, far, 1, None), [127, 0, 0, 0, 1, 0]),
        (Grid::rows(5, 256, 8, None), [5, 0, 0, 1, 0, 0]),
        (Grid::rows(5, 256, 8, Some(8)), [4, 1, 0, 1, 0, 0]),
    ];
    check_table::<ValueWords<0>>(&rt, rt.alloc(), &sets)?;
    let maps = [(Grid::rows(5, 256, 8, None), [0, 5, 0, 1, 0, 0])];
    check_table::<ValueWords<1>>(&rt, rt.alloc(), &maps)?;
    Ok(())
}

#[test]
fn full_ranges(rt: HostRuntime) -> Result<(), Fail> {
    let sets = [(Grid::run(512, None), [0, 0, 2, 1, 0, 0])];
    check_table::<ValueWords<0>>(&rt, rt.alloc(), &sets)?;
    Ok(())
}
