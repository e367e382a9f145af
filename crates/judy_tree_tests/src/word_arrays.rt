//! Arrays of words. What no clause says: that calls succeed while there is memory. Callers whose contracts show what a
//! write through a slot is known to do, and what the calls say of nodes. And what neighbours and counts are at their
//! corners.
ghost use Rattle.std.specs.Prelude.{◌≡◌, false, OnOk, IfOk, IsOk, OnErr, OnSome, IsTrue};
ghost use Rattle.std.specs.FinMap as map;
ghost use Rattle.judy_model.specs.Arrays as array;
ghost use Rattle.judy_model.specs.Shapes.{shape_of};
ghost use Rattle.judy_change.specs.Removals.{Has33};
ghost use Rattle.judy_node.specs.ShapeSums.{shape_as};
ghost use Rattle.judy_word.specs.WordArrays.{array_of, with_value};

use crate::plain::{same, same_number, same_pair};
use judy_node::Shape;
use judy_word::{InsertError, Judy1, JudyL};
use std::alloc::{AllocError, Global};
use std::process::Abort;
use std::test::Fail;

// Inserts a key and writes its value.
fn put(array_l: &mut JudyL, key: u64, value: u64) -> Result<(), InsertError>
    ensures ok { OnOk result
        (array_of array_l.new
        ≡ array.with_map (array_of array_l.old) (array.write array_l.old.map key value)) }
    ensures err { OnErr result (array_l.new ≡ array_l.old) }
{
    *array_l.ins(key)? = value;
    Ok(())
}

// Writes the value of a key that is there, and answers the one before.
fn replace(array_l: &mut JudyL, key: u64, value: u64) -> Option<u64>
    ensures answer { result ≡ map.get array_l.old.map key }
    ensures some { OnSome result (array_l.new ≡ with_value array_l.old key value) }
{
    match array_l.slot(key) {
        Some(slot) => {
            let before = *slot;
            *slot = value;
            Some(before)
        }
        None => None,
    }
}

// Makes the nodes of a set tight and counts them: no history is in them. Where the set isn't loose no memory is wanted,
// and nothing changes.
fn tight_shape(set: &mut Judy1) -> Result<Shape, AllocError>
    ensures rule { IfOk result (λ shape. shape_as shape ≡ shape_of 0 (map.keys set.old.map)) }
    ensures same { array_of set.new ≡ array_of set.old }
    ensures done { set.old.loose ≡ false → IsOk result }
    ensures nothing { set.old.loose ≡ false → set.new ≡ set.old }
{
    set.tidy()?;
    Ok(set.shape())
}

// Takes a key out of a set that isn't there: nothing changes, no node either.
fn left_alone(set: &mut Judy1, key: u64) -> bool
    requires absent { map.contains_key set.old.map key ≡ false }
    ensures same { set.new ≡ set.old }
{
    set.unset(key)
}

// Copies a map and counts the nodes of the copy: they are tight, whatever those of the map are.
fn shape_of_copy(pairs: &JudyL) -> Result<Shape, AllocError>
    ensures { IfOk result (λ shape. shape_as shape ≡ shape_of 1 (map.keys pairs.now.map)) }
{
    let copy = pairs.try_clone()?;
    Ok(copy.shape())
}

// Takes a key out, and answers whether that made the array loose: only where 33 keys stood together.
fn loosened(array_l: &mut JudyL, key: u64) -> bool
    ensures deleted { array_of array_l.new
        ≡ array.with_map (array_of array_l.old) (array.del array_l.old.map key) }
    ensures loosened { IsTrue result → Has33 8 (map.entries array_l.old.map) key }
{
    let loose = array_l.is_loose();
    array_l.del(key);
    !loose && array_l.is_loose()
}

// Inserts a key and writes its value, where there is room.
fn put_key(rt: &impl Abort, pairs: &mut JudyL, key: u64, value: u64) {
    assert_eq!(rt; put(pairs, key, value), Ok(()), "{key}");
}

// Inserts a key that is absent into a set, where there is room.
fn set_key(rt: &impl Abort, set: &mut Judy1, key: u64) {
    assert_eq!(rt; set.set(key), Ok(true), "{key}");
}

// The set of the words below a number.
fn set_below(rt: &impl Abort, alloc: Global, count: u64) -> Judy1 {
    let mut set = Judy1::new(alloc, 1000);
    for word in 0..count {
        set_key(rt, &mut set, word);
    }
    set
}

// Compares the value of a key with the one wanted.
fn check_value(rt: &impl Abort, pairs: &JudyL, key: u64, wanted: Option<u64>) {
    same_number(rt, pairs.get(key), wanted, key);
}

// Inserts a key where there is no room left.
fn put_full(rt: &impl Abort, pairs: &mut JudyL, key: u64, value: u64) {
    assert_eq!(rt; put(pairs, key, value), Err(InsertError::Full), "{key}");
}

// Compares whether a call puts a key in, where there is room, with what is wanted.
fn put_in(rt: &impl Abort, found: Result<bool, InsertError>, wanted: bool) {
    assert_eq!(rt; found, Ok(wanted));
}

// Takes note that a call finds no room.
fn full(rt: &impl Abort, found: Result<bool, InsertError>) {
    assert_eq!(rt; found, Err(InsertError::Full));
}

// Compares how many nodes of a kind there are with how many are wanted.
fn same_nodes(rt: &impl Abort, found: u128, wanted: u128) {
    assert_eq!(rt; found, wanted);
}

// Takes note that a call answers yes.
fn yes(rt: &impl Abort, answer: bool) {
    assert!(rt; answer);
}

// Takes note that a call answers no.
fn no(rt: &impl Abort, answer: bool) {
    assert!(rt; !answer);
}

#[test]
fn always_no_memory(rt: HostRuntime) -> Result<(), Fail> {
    let mut pairs = JudyL::new(rt.alloc(), 1000);
    for (key, value) in [(7, 70), (0, 1), (18446744073709551615, 5), (7, 71)] {
        put_key(&rt, &mut pairs, key, value);
    }
    same(&rt, pairs.len(), 3, 0);
    check_value(&rt, &pairs, 0, Some(1));
    check_value(&rt, &pairs, 7, Some(71));
    check_value(&rt, &pairs, 18446744073709551615, Some(5));
    check_value(&rt, &pairs, 8, None);
    Ok(())
}

#[test]
fn full_at_the_limit(rt: HostRuntime) -> Result<(), Fail> {
    let mut pairs = JudyL::new(rt.alloc(), 2);
    put_key(&rt, &mut pairs, 5, 50);
    put_key(&rt, &mut pairs, 3, 30);
    put_full(&rt, &mut pairs, 4, 40);
    put_key(&rt, &mut pairs, 5, 51);
    same_number(&rt, replace(&mut pairs, 3, 31), Some(30), 3);
    same_number(&rt, replace(&mut pairs, 4, 40), None, 4);
    yes(&rt, pairs.del(5));
    no(&rt, pairs.del(5));
    put_key(&rt, &mut pairs, 4, 41);
    same(&rt, pairs.limit(), 2, 0);
    same(&rt, pairs.free_array(), 2, 0);
    yes(&rt, pairs.is_empty());
    same(&rt, pairs.free_array(), 0, 0);
    Ok(())
}

// A key that is there keeps its value, or gets the new one, by the call.
#[test]
fn values_of_present_keys(rt: HostRuntime) -> Result<(), Fail> {
    let mut pairs = JudyL::new(rt.alloc(), 2);
    put_in(&rt, pairs.put_if_absent(5, 50), true);
    put_in(&rt, pairs.put_if_absent(5, 51), false);
    put_in(&rt, pairs.put(7, 70), true);
    put_in(&rt, pairs.put(7, 71), false);
    full(&rt, pairs.put_if_absent(9, 90));
    check_value(&rt, &pairs, 5, Some(50));
    check_value(&rt, &pairs, 7, Some(71));
    Ok(())
}

#[test]
fn unbounded_takes_more(rt: HostRuntime) -> Result<(), Fail> {
    let mut pairs = JudyL::unbounded(rt.alloc());
    for key in 0..500 {
        put_key(&rt, &mut pairs, 1000 - key, key);
    }
    same(&rt, pairs.len(), 500, 0);
    check_value(&rt, &pairs, 501, Some(499));
    same(&rt, pairs.limit(), u64::MAX, 0);
    Ok(())
}

// The largest word and the largest value, and 0: an array that is made with its first key takes others as any does.
#[test]
fn made_with_the_first_key(rt: HostRuntime) -> Result<(), Fail> {
    let mut pairs = JudyL::of_one(rt.alloc(), u64::MAX, u64::MAX);
    same(&rt, pairs.len(), 1, 0);
    same(&rt, pairs.limit(), u64::MAX, 0);
    check_value(&rt, &pairs, u64::MAX, Some(u64::MAX));
    check_value(&rt, &pairs, 0, None);
    put_in(&rt, pairs.put(u64::MAX, 5), false);
    put_in(&rt, pairs.put(0, 7), true);
    check_value(&rt, &pairs, u64::MAX, Some(5));
    let mut set = Judy1::of_one(rt.alloc(), 0);
    same_number(&rt, set.first(0), Some(0), 0);
    same(&rt, set.limit(), u64::MAX, 0);
    set_key(&rt, &mut set, u64::MAX);
    same(&rt, set.count(0, u64::MAX), 2, 0);
    yes(&rt, set.unset(0));
    same_number(&rt, set.first(0), Some(u64::MAX), 0);
    Ok(())
}

#[test]
fn edge_word(rt: HostRuntime) -> Result<(), Fail> {
    let mut set = Judy1::new(rt.alloc(), 1000);
    set_key(&rt, &mut set, 18446744073709551615);
    same_number(&rt, set.next(u64::MAX), None, u64::MAX);
    same_number(&rt, set.next_empty(u64::MAX), None, u64::MAX);
    same_number(&rt, set.first_empty(u64::MAX), None, u64::MAX);
    let last = Some(18446744073709551614);
    same_number(&rt, set.last_empty(u64::MAX), last, u64::MAX);
    same_number(&rt, set.first(0), Some(u64::MAX), 0);
    same_number(&rt, set.prev(0), None, 0);
    same(&rt, set.count(0, u64::MAX), 1, 0);
    Ok(())
}

#[test]
fn count_corners(rt: HostRuntime) -> Result<(), Fail> {
    let mut set = Judy1::new(rt.alloc(), 1000);
    for word in [3, 5, 9] {
        set_key(&rt, &mut set, word);
    }
    same(&rt, set.count(9, 3), 0, 9);
    same(&rt, set.count(3, 9), 3, 3);
    same(&rt, set.count(4, 8), 1, 4);
    same_number(&rt, set.by_count(0), None, 0);
    same_number(&rt, set.by_count(3), Some(9), 3);
    same_number(&rt, set.by_count(4), None, 4);
    let mut pairs = JudyL::new(rt.alloc(), 1000);
    put_key(&rt, &mut pairs, 5, 9);
    same_number(&rt, pairs.first(0), Some(5), 0);
    same_number(&rt, pairs.by_count(1), Some(5), 1);
    Ok(())
}

#[test]
fn full_ranges(rt: HostRuntime) -> Result<(), Fail> {
    let mut set = set_below(&rt, rt.alloc(), 256);
    same_number(&rt, set.first_empty(0), Some(256), 0);
    same_number(&rt, set.next_empty(255), Some(256), 255);
    same_number(&rt, set.last_empty(255), None, 255);
    same_number(&rt, set.prev_empty(256), None, 256);
    same_number(&rt, set.by_count(256), Some(255), 256);
    same(&rt, set.count(10, 20), 11, 10);
    for word in 256..512 {
        set_key(&rt, &mut set, word);
    }
    same_number(&rt, set.first_empty(0), Some(512), 0);
    Ok(())
}

// The calls that change a set and those that tell of it, each once or twice.
#[test]
fn set_and_unset(rt: HostRuntime) -> Result<(), Fail> {
    let mut set = Judy1::new(rt.alloc(), 2);
    yes(&rt, set.is_empty());
    set_key(&rt, &mut set, 5);
    put_in(&rt, set.set(5), false);
    set_key(&rt, &mut set, 7);
    full(&rt, set.set(9));
    same(&rt, set.len(), 2, 0);
    same(&rt, set.limit(), 2, 0);
    yes(&rt, set.test(7));
    yes(&rt, set.unset(5));
    if !set.test(5) {
        no(&rt, left_alone(&mut set, 5));
    }
    no(&rt, set.test(5));
    same(&rt, set.free_array(), 1, 0);
    yes(&rt, set.is_empty());
    Ok(())
}

// The calls that tell of the tree, each once.
#[test]
fn tree_of_a_set(rt: HostRuntime) -> Result<(), AllocError> {
    let mut set = set_below(&rt, rt.alloc(), 33);
    same_nodes(&rt, set.shape().bitmap_leaves, 1);
    yes(&rt, set.unset(32));
    same_nodes(&rt, set.shape().leaves, 1);
    same_nodes(&rt, set.shape().bitmap_leaves, 0);
    no(&rt, set.is_loose());
    same_nodes(&rt, tight_shape(&mut set)?.leaves, 1);
    same(&rt, set.root().pop(), 32, 0);
    let copy = set.try_clone()?;
    yes(&rt, set.unset(0));
    same(&rt, copy.len(), 32, 0);
    same(&rt, set.len(), 31, 0);
    Ok(())
}

// Keys with their values.
#[test]
fn entries(rt: HostRuntime) -> Result<(), AllocError> {
    let mut pairs = JudyL::new(rt.alloc(), 1000);
    for (key, value) in [(3, 30), (5, 50), (18446744073709551615, 9)] {
        put_key(&rt, &mut pairs, key, value);
    }
    for (entry, expected) in [
        (pairs.first_entry(4), Some((5, 50))),
        (pairs.next_entry(5), Some((18446744073709551615, 9))),
        (pairs.next_entry(18446744073709551615), None),
        (pairs.around(4).1, Some((5, 50))),
        (pairs.around(5).1, Some((18446744073709551615, 9))),
        (pairs.around(18446744073709551615).1, None),
        (pairs.last_entry(4), Some((3, 30))),
        (pairs.prev_entry(3), None),
        (pairs.by_count_entry(2), Some((5, 50))),
        (pairs.by_count_entry(0), None),
    ] {
        same_pair(&rt, entry, expected, 0);
    }
    let copy = pairs.try_clone()?;
    check_value(&rt, &copy, 5, Some(50));
    same_nodes(&rt, shape_of_copy(&pairs)?.leaves, 1);
    no(&rt, loosened(&mut pairs, 5));
    check_value(&rt, &pairs, 5, None);
    Ok(())
}

// The key at a step from a front on, by sevens.
fn step_of(front: u64, step: u64) -> u64 {
    front.wrapping_add(step.wrapping_mul(7))
}

// Puts 300 keys from a front on into both arrays.
fn put_run(rt: &impl Abort, set: &mut Judy1, pairs: &mut JudyL, front: u64) {
    for step in 0..300 {
        let key = step_of(front, step);
        set_key(rt, set, key);
        put_key(rt, pairs, key, step);
    }
}

// Compares the first two keys of a set from a word on.
fn check_set_from(
    rt: &impl Abort,
    set: &Judy1,
    from: u64,
    first: Option<u64>,
    second: Option<u64>,
) {
    let mut rest = set.iter_from(from);
    same_number(rt, rest.next(), first, from);
    same_number(rt, rest.next(), second, from);
}

// Compares the keys of the first two pairs from a word on.
fn check_pairs_from(
    rt: &impl Abort,
    pairs: &JudyL,
    from: u64,
    first: Option<u64>,
    second: Option<u64>,
) {
    let mut rest = pairs.iter_from(from);
    same_number(rt, rest.next().map(|pair| pair.0), first, from);
    same_number(rt, rest.next().map(|pair| pair.0), second, from);
}

// An iterator gives each key once, by ascending order, across leaves and branches of every depth.
#[test]
fn iterators(rt: HostRuntime) -> Result<(), AllocError> {
    let mut set = Judy1::new(rt.alloc(), 10_000);
    let mut pairs = JudyL::new(rt.alloc(), 10_000);
    let fronts = [0, 65_536, 1 << 40, 18446744073709547520];
    for front in fronts {
        put_run(&rt, &mut set, &mut pairs, front);
    }
    let mut keys = set.iter();
    let mut entries = pairs.iter();
    for front in fronts {
        for step in 0..300 {
            let key = step_of(front, step);
            same_number(&rt, keys.next(), Some(key), key);
            same_pair(&rt, entries.next(), Some((key, step)), key);
        }
    }
    for _ in 0..2 {
        same_number(&rt, keys.next(), None, 0);
        same_pair(&rt, entries.next(), None, 0);
    }
    for (from, first, second) in [
        (0, Some(0), Some(7)),
        (1, Some(7), Some(14)),
        (2093, Some(2093), Some(65_536)),
        (2094, Some(65_536), Some(65_543)),
        (70_000, Some(1 << 40), Some(1_099_511_627_783)),
        (18446744073709549613, Some(18446744073709549613), None),
        (18446744073709549614, None, None),
        (18446744073709551615, None, None),
    ] {
        check_set_from(&rt, &set, from, first, second);
        check_pairs_from(&rt, &pairs, from, first, second);
    }
    Ok(())
}

// Compares how two arrays are printed with the text wanted.
fn check_printed(
    rt: &impl Abort,
    alloc: Global,
    set: &Judy1,
    pairs: &JudyL,
    wanted: &str,
) -> Result<(), AllocError> {
    let text = format!(in alloc; "{set:?} {pairs:?}")?;
    assert_eq!(rt; text.as_str(), wanted);
    Ok(())
}

#[test]
fn arrays_printed(rt: HostRuntime) -> Result<(), AllocError> {
    let mut set = Judy1::new(rt.alloc(), 10);
    let mut pairs = JudyL::new(rt.alloc(), 10);
    check_printed(&rt, rt.alloc(), &set, &pairs, "{} {}")?;
    for key in [5, 1] {
        set_key(&rt, &mut set, key);
        put_key(&rt, &mut pairs, key, key * 10);
    }
    check_printed(&rt, rt.alloc(), &set, &pairs, "{1, 5} {1: 10, 5: 50}")?;
    Ok(())
}
