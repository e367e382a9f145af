//! Trees of keys drawn by chance: their shapes beside a plain count of the rule, and each query at each key beside the
//! plain list.

use crate::by_rule::counts_by_rule;
use crate::calls::{CALLS, check_call};
use crate::draws::{Numbers, Pattern, drawn};
use crate::leaves::top_of;
use crate::nodes::{Counts, check_tree, tree_of};
use crate::plain::{beside, check_around, pair_from, pair_up_to, same_pair};
use judy_bits::Meter;
use judy_leaf::{ValueWords, Words};
use judy_node::NodeOf;
use judy_query::{around, entry_at_or_after, entry_at_or_before, entry_nth};
use judy_unmetered::UNMETERED;
use std::alloc::{AllocError, Global};
use std::process::Abort;

// Compares what each call answers of a word, and how many nodes it enters.
fn check_calls<V: Words + Drop>(
    rt: &impl Abort,
    tree: &NodeOf<V>,
    plain: &[(u64, u64)],
    word: u64,
) {
    for (call, most) in CALLS {
        check_call(rt, tree, call, word, call.by_list(plain, word), most);
    }
}

// The same for the calls that give a key with its value.
fn check_entries<V: Words + Drop>(
    rt: &impl Abort,
    tree: &NodeOf<V>,
    plain: &[(u64, u64)],
    word: u64,
) {
    let mut meter = Meter::new(UNMETERED);
    let after = entry_at_or_after(tree, word, &mut meter);
    at_most(rt, word, &meter, 16);
    same_pair(rt, after, pair_from(plain, word), word);
    let mut meter = Meter::new(UNMETERED);
    let before = entry_at_or_before(tree, word, &mut meter);
    at_most(rt, word, &meter, 16);
    same_pair(rt, before, pair_up_to(plain, word), word);
    let mut meter = Meter::new(UNMETERED);
    let (found, above) = around(tree, word, &mut meter);
    at_most(rt, word, &meter, 16);
    check_around(rt, word, plain, found, above);
    let mut meter = Meter::new(UNMETERED);
    let entry = entry_nth(tree, word, &mut meter);
    at_most(rt, word, &meter, 8);
    same_pair(rt, entry, plain.get(word as usize).copied(), word);
}

// Compares how many nodes a call about a word entered with how many it may.
fn at_most(rt: &impl Abort, word: u64, meter: &Meter, most: u64) {
    assert!(rt; meter.visits() <= most, "{word}");
}

// Compares all that the tree of a plain list answers: at each key, beside it, at its place, and at the ends of the
// words.
pub(crate) fn check_queries<V: Words + Drop>(
    rt: &impl Abort,
    tree: &NodeOf<V>,
    plain: &[(u64, u64)],
) {
    for word in [0, plain.len() as u64, u64::MAX] {
        check_all(rt, tree, plain, word);
    }
    for (place, &(key, _)) in plain.iter().enumerate() {
        check_all(rt, tree, plain, place as u64);
        for word in beside(key) {
            check_all(rt, tree, plain, word);
        }
    }
}

// Compares all that the tree answers of a word or a place.
fn check_all<V: Words + Drop>(rt: &impl Abort, tree: &NodeOf<V>, plain: &[(u64, u64)], word: u64) {
    check_calls(rt, tree, plain, word);
    check_entries(rt, tree, plain, word);
}

// Adds the counts of another tree.
fn add(total: &mut Counts, counts: Counts) {
    for (sum, count) in total.iter_mut().zip(counts) {
        *sum = sum.wrapping_add(count);
    }
}

// There were nodes of each kind.
fn all_kinds(rt: &impl Abort, total: &Counts) {
    assert!(rt; total.iter().all(|count| *count > 0));
}

// Compares the tree of keys drawn with the rule, and asks it.
fn check_drawn<V: Words + Drop>(
    rt: &impl Abort,
    alloc: Global,
    numbers: &mut Numbers,
    total: &mut Counts,
    patterns: &[Pattern],
) -> Result<Vec<(u64, u64)>, AllocError> {
    let pairs = drawn::<V>(rt, alloc, numbers, patterns)?;
    let counts = counts_by_rule::<V>(rt, alloc, &pairs)?;
    check_tree::<V>(rt, alloc, &pairs, counts)?;
    add(total, counts);
    Ok(pairs)
}

// The patterns of the trees that are asked.
const ASKED: [&[Pattern]; 12] = [
    &[],
    &[(0, u64::MAX, 1)],
    &[(0, u64::MAX, 20)],
    &[(0, u64::MAX, 60)],
    &[(0, u64::MAX, 200)],
    &[(0x0123_4567_89ab_cd00, 0xff, 100)],
    &[(0x5_0000, 0xff, 2000), (0x5_0100, 0xff, 40)],
    &[(!0x1ff, 0x1ff, 350)],
    &[(0x0012_3400_5600_0000, 0x8000_0010_0000_02ff, 200)],
    &[(0, 0xc1c1_c1c1_c1c1_c1c1, 100)],
    &[(0x3e3e_3e3e_3e3e_3e3e, 0xc1c1_c1c1_c1c1_c1c1, 100)],
    &[
        (0, u64::MAX, 60),
        (0x77_0000, 0xff, 2000),
        (0x77_0000, 0x7ff, 100),
    ],
];

// Asks the trees of such patterns, which together have nodes of all kinds.
fn check_trees<V: Words + Drop>(
    rt: &impl Abort,
    alloc: Global,
    asked: &[&[Pattern]],
) -> Result<(), AllocError> {
    let mut numbers = Numbers::new();
    let mut total = [0; 6];
    for patterns in asked {
        let pairs = check_drawn::<V>(rt, alloc, &mut numbers, &mut total, patterns)?;
        let tree = tree_of::<V>(rt, alloc, &pairs)?;
        check_queries(rt, &tree, &pairs);
    }
    all_kinds(rt, &total);
    Ok(())
}

#[test]
fn queries_of_random_sets(rt: HostRuntime) -> Result<(), AllocError> {
    check_trees::<ValueWords<0>>(&rt, rt.alloc(), &ASKED)
}

#[test]
fn queries_of_random_maps(rt: HostRuntime) -> Result<(), AllocError> {
    check_trees::<ValueWords<1>>(&rt, rt.alloc(), &ASKED)
}

// Compares the shapes of trees whose keys differ in their lowest bytes, those of `top`, and of one key more, which
// differs from these in the next byte: so the others stand below a branch as keys of that width.
fn check_width<V: Words + Drop>(
    rt: &impl Abort,
    alloc: Global,
    numbers: &mut Numbers,
    total: &mut Counts,
    top: u64,
) -> Result<(), AllocError> {
    for free in [
        top,
        top & 0x0303_0303_0303_0303,
        top & 0x8787_8787_8787_8787,
    ] {
        for times in [1, 2, 3, 4, 5, 8, 9, 32, 33, 40, 400] {
            let fixed = numbers.next() & !top;
            let beside = fixed ^ top.wrapping_add(1);
            let patterns = [(fixed, free, times), (beside, 0, 1)];
            check_drawn::<V>(rt, alloc, numbers, total, &patterns)?;
        }
    }
    Ok(())
}

// The same for each width, with its largest key.
fn check_widths<V: Words + Drop>(rt: &impl Abort, alloc: Global) -> Result<(), AllocError> {
    let mut numbers = Numbers::new();
    let mut total = [0; 6];
    for width in 1..=8u8 {
        check_width::<V>(rt, alloc, &mut numbers, &mut total, top_of(width))?;
    }
    all_kinds(rt, &total);
    Ok(())
}

#[test]
fn shapes_of_random_sets(rt: HostRuntime) -> Result<(), AllocError> {
    check_widths::<ValueWords<0>>(&rt, rt.alloc())
}

#[test]
fn shapes_of_random_maps(rt: HostRuntime) -> Result<(), AllocError> {
    check_widths::<ValueWords<1>>(&rt, rt.alloc())
}
