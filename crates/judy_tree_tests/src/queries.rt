//! What the queries of a tree answer, and how many nodes they enter: the worked rows, and the ends of the words.

use crate::array_shapes::set_of;
use crate::calls::Call::{
    Around, AtOrAfter, AtOrBefore, EmptyAtOrAfter, EmptyAtOrBefore, Fill, Further, Lookup, Many,
    Nth, Rank, Step,
};
use crate::calls::{Call, check_call};
use crate::nodes::{Grid, check_tree, same_shape, tree_of};
use crate::plain::{note, same};
use judy_bits::Meter;
use judy_leaf::{ValueWords, Words};
use judy_node::NodeOf;
use judy_query::laws::{Watch, no_full_child_is_entered};
use judy_unmetered::UNMETERED;
use std::alloc::{AllocError, Global};
use std::process::Abort;
use std::test::Fail;

// A call, the word or place that it is asked about, the answer, and the most nodes that it enters.
type Asked = (Call, u64, Option<u64>, u64);

// Whether the calls of a table enter just so many nodes, which are as many as their clauses allow, or so many at most.
#[derive(Clone, Copy, PartialEq, Eq)]
enum Bound {
    Exact,
    Most,
}

// Asks a tree, each time with a new meter.
fn ask_all<V: Words + Drop>(rt: &impl Abort, tree: &NodeOf<V>, table: &[Asked], bound: Bound) {
    for &(call, word, answer, most) in table {
        let (visits, allowed) = check_call(rt, tree, call, word, answer, most);
        if bound == Bound::Exact {
            same(rt, visits, most, word);
            same(rt, allowed, most, word);
        }
    }
}

// Asks the tree of these pairs.
fn check_asked<V: Words + Drop>(
    rt: &impl Abort,
    alloc: Global,
    pairs: &[(u64, u64)],
    table: &[Asked],
    bound: Bound,
) -> Result<(), AllocError> {
    let tree = tree_of::<V>(rt, alloc, pairs)?;
    ask_all(rt, &tree, table, bound);
    Ok(())
}

const EIGHT_LEVELS: [Asked; 7] = [
    (Lookup, 32, Some(0), 8),
    (Nth, 39, Some(72_057_594_037_927_936), 8),
    (Rank, 33, Some(33), 8),
    (AtOrAfter, 33, Some(256), 16),
    (AtOrBefore, 255, Some(32), 16),
    (EmptyAtOrAfter, 0, Some(33), 16),
    (EmptyAtOrBefore, 256, Some(255), 16),
];

// Eight nodes stand below one another on the way of the least keys, seven branches and a bitmap leaf: in a tree made at
// once, and in the one of a set.
#[test]
fn visit_bounds(rt: HostRuntime) -> Result<(), Fail> {
    let mut pairs = Grid::run(33, None).pairs::<ValueWords<0>>(&rt, rt.alloc())?;
    for level in 1..8u64 {
        note(&rt, &mut pairs, 1 << (8 * level), 0)?;
    }
    check_tree::<ValueWords<0>>(&rt, rt.alloc(), &pairs, [7, 0, 1, 7, 0, 0])?;
    check_asked::<ValueWords<0>>(&rt, rt.alloc(), &pairs, &EIGHT_LEVELS, Bound::Most)?;
    let set = set_of(&rt, rt.alloc(), &pairs);
    same_shape(&rt, set.shape(), [7, 0, 1, 7, 0, 0]);
    ask_all(&rt, set.root(), &EIGHT_LEVELS, Bound::Most);
    Ok(())
}

const FAR: u64 = 1 << 56;

// For each byte above the last, a key that differs from the ends of the runs in this byte first.
const FARTHER: [u64; 12] = [
    FAR - 1 - (1 << 48),
    FAR - 1 - (1 << 40),
    FAR - 1 - (1 << 32),
    FAR - 1 - (1 << 24),
    FAR - 1 - (1 << 16),
    FAR - 1 - (1 << 8),
    FAR + (1 << 8),
    FAR + (1 << 16),
    FAR + (1 << 24),
    FAR + (1 << 32),
    FAR + (1 << 40),
    FAR + (1 << 48),
];

// Runs of 33 keys on both sides of 2^56 with the keys farther off: from the root on eight nodes stand below one another
// on the way to either run.
fn beside_far(rt: &impl Abort, alloc: Global, runs: Grid) -> Result<Vec<(u64, u64)>, AllocError> {
    let mut pairs = runs.pairs::<ValueWords<0>>(rt, alloc)?;
    for word in FARTHER {
        note(rt, &mut pairs, word, 0)?;
    }
    check_tree::<ValueWords<0>>(rt, alloc, &pairs, [12, 0, 2, 13, 0, 0])?;
    Ok(pairs)
}

const RUNS_THAT_MEET: [Asked; 7] = [
    (Lookup, FAR, Some(0), 8),
    (Further, FAR, Some(0), 8),
    (Many, FAR, Some(0), 8),
    (Rank, FAR, Some(39), 8),
    (Nth, 39, Some(FAR), 8),
    (EmptyAtOrAfter, FAR - 1, Some(FAR + 33), 15),
    (EmptyAtOrBefore, FAR, Some(FAR - 34), 15),
];

const RUNS_APART: [Asked; 5] = [
    (AtOrAfter, FAR - 1, Some(FAR + 1), 15),
    (AtOrBefore, FAR, Some(FAR - 2), 15),
    (Around, FAR - 1, Some(FAR + 1), 15),
    (Step, FAR - 1, Some(FAR + 1), 15),
    (Fill, FAR - 1, Some(FAR + 1), 15),
];

// The bounds that are proved, 8 and 15 and for a walk's step 7, are reached, so none can be less: the way down to a
// word ends at the last node, and what is sought stands at the end of the other way.
#[test]
fn bounds_on_visits_are_reached(rt: HostRuntime) -> Result<(), Fail> {
    let meeting = Grid::rows(2, 33, 33, None).starting(FAR - 33);
    let pairs = beside_far(&rt, rt.alloc(), meeting)?;
    check_asked::<ValueWords<0>>(&rt, rt.alloc(), &pairs, &RUNS_THAT_MEET, Bound::Exact)?;
    let apart = Grid::rows(2, 35, 33, None).starting(FAR - 34);
    let pairs = beside_far(&rt, rt.alloc(), apart)?;
    check_asked::<ValueWords<0>>(&rt, rt.alloc(), &pairs, &RUNS_APART, Bound::Exact)?;
    Ok(())
}

const ONE_FULL_NODE: [Asked; 7] = [
    (EmptyAtOrAfter, 0, Some(256), 1),
    (EmptyAtOrAfter, 256, Some(256), 1),
    (EmptyAtOrBefore, 255, None, 1),
    (Rank, 10, Some(10), 1),
    (Rank, 21, Some(21), 1),
    (Nth, 255, Some(255), 1),
    (Nth, 256, None, 1),
];

const TWO_FULL_NODES: [Asked; 5] = [
    (EmptyAtOrAfter, 0, Some(512), 1),
    (EmptyAtOrAfter, 300, Some(512), 1),
    (EmptyAtOrAfter, 511, Some(512), 1),
    (EmptyAtOrBefore, 511, None, 1),
    (EmptyAtOrBefore, 513, Some(513), 1),
];

// Both searches for a word that is no key enter the root of a tree whose children are full, and no child; their law
// runs them so.
fn check_spared<V: Words + Drop>(
    rt: &impl Abort,
    alloc: Global,
    pairs: &[(u64, u64)],
    key: u64,
    above: u64,
) -> Result<(), AllocError> {
    let tree = tree_of::<V>(rt, alloc, pairs)?;
    let mut watch = Watch::new(Meter::new(UNMETERED));
    let found = no_full_child_is_entered(&tree, key, &mut watch);
    assert_eq!(rt; found, (Some(above), None), "{key}");
    same(rt, watch.visits(), 2, key);
    Ok(())
}

// The root is entered and no full node below it.
#[test]
fn full_ranges(rt: HostRuntime) -> Result<(), Fail> {
    let one = Grid::run(256, None).pairs::<ValueWords<0>>(&rt, rt.alloc())?;
    check_asked::<ValueWords<0>>(&rt, rt.alloc(), &one, &ONE_FULL_NODE, Bound::Most)?;
    let two = Grid::run(512, None).pairs::<ValueWords<0>>(&rt, rt.alloc())?;
    check_asked::<ValueWords<0>>(&rt, rt.alloc(), &two, &TWO_FULL_NODES, Bound::Most)?;
    check_spared::<ValueWords<0>>(&rt, rt.alloc(), &two, 300, 512)?;
    check_spared::<ValueWords<0>>(&rt, rt.alloc(), &two, 511, 512)?;
    Ok(())
}

const TOP: u64 = u64::MAX;

const THE_GREATEST_ALONE: [Asked; 16] = [
    (Lookup, 0, None, 1),
    (Lookup, TOP, Some(0), 1),
    (Rank, 0, Some(0), 1),
    (Rank, TOP, Some(0), 1),
    (Nth, 0, Some(TOP), 1),
    (Nth, 1, None, 1),
    (Nth, TOP, None, 1),
    (AtOrAfter, 0, Some(TOP), 1),
    (AtOrAfter, TOP, Some(TOP), 1),
    (AtOrBefore, 0, None, 1),
    (AtOrBefore, TOP - 1, None, 1),
    (AtOrBefore, TOP, Some(TOP), 1),
    (EmptyAtOrAfter, 0, Some(0), 1),
    (EmptyAtOrAfter, TOP, None, 1),
    (EmptyAtOrBefore, 0, Some(0), 1),
    (EmptyAtOrBefore, TOP, Some(TOP - 1), 1),
];

const THE_LEAST_AND_THE_GREATEST: [Asked; 13] = [
    (Lookup, 0, Some(7), 1),
    (Lookup, TOP, Some(9), 1),
    (Rank, 0, Some(0), 1),
    (Rank, TOP, Some(1), 1),
    (Nth, 1, Some(TOP), 1),
    (AtOrAfter, 0, Some(0), 1),
    (AtOrAfter, 1, Some(TOP), 1),
    (AtOrBefore, 0, Some(0), 1),
    (AtOrBefore, TOP - 1, Some(0), 1),
    (EmptyAtOrAfter, 0, Some(1), 1),
    (EmptyAtOrAfter, TOP, None, 1),
    (EmptyAtOrBefore, 0, None, 1),
    (EmptyAtOrBefore, TOP, Some(TOP - 1), 1),
];

const NO_KEYS: [Asked; 7] = [
    (Lookup, TOP, None, 1),
    (Rank, TOP, Some(0), 1),
    (Nth, 0, None, 1),
    (AtOrAfter, 0, None, 1),
    (AtOrBefore, TOP, None, 1),
    (EmptyAtOrAfter, TOP, Some(TOP), 1),
    (EmptyAtOrBefore, 0, Some(0), 1),
];

// The least and the greatest word, as keys, beside keys and without any.
#[test]
fn edge_word(rt: HostRuntime) -> Result<(), Fail> {
    check_asked::<ValueWords<0>>(
        &rt,
        rt.alloc(),
        &[(TOP, 0)],
        &THE_GREATEST_ALONE,
        Bound::Most,
    )?;
    let both = [(0, 7), (TOP, 9)];
    check_asked::<ValueWords<1>>(
        &rt,
        rt.alloc(),
        &both,
        &THE_LEAST_AND_THE_GREATEST,
        Bound::Most,
    )?;
    check_asked::<ValueWords<0>>(&rt, rt.alloc(), &[], &NO_KEYS, Bound::Most)?;
    Ok(())
}

const FULL_ENDS: [Asked; 8] = [
    (EmptyAtOrAfter, 0, Some(512), 2),
    (EmptyAtOrAfter, TOP - 511, None, 2),
    (EmptyAtOrBefore, 511, None, 2),
    (EmptyAtOrBefore, TOP, Some(TOP - 512), 2),
    (AtOrAfter, 512, Some(TOP - 511), 16),
    (AtOrBefore, TOP - 512, Some(511), 16),
    (Rank, TOP, Some(1023), 8),
    (Nth, 1023, Some(TOP), 8),
];

// Two full nodes at either end of the words.
#[test]
fn full_ranges_at_the_ends(rt: HostRuntime) -> Result<(), Fail> {
    let ends = Grid::rows(2, TOP - 511, 512, None).pairs::<ValueWords<0>>(&rt, rt.alloc())?;
    check_tree::<ValueWords<0>>(&rt, rt.alloc(), &ends, [0, 0, 4, 3, 0, 0])?;
    check_asked::<ValueWords<0>>(&rt, rt.alloc(), &ends, &FULL_ENDS, Bound::Most)?;
    Ok(())
}
