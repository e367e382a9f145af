//! Rows worked by hand: what each call answers of small sets and maps, and of 3,000 even words and 2,000 multiples of
//! three.

ghost use Rattle.std.specs.Prelude.{◌<◌};

use judy_sets::{
    append, common_count, copy_range, count_empty, difference, difference_count, fill_down, flip,
    insert_range, intersection, is_disjoint, is_subset, is_superset, remove_range, retain_range,
    same_keys, split_off, symmetric_difference, symmetric_difference_count, union, union_count,
};
use judy_word::{InsertError, Judy1, JudyL};
use std::alloc::Global;
use std::process::Abort;
use std::test::Fail;

const ONE: [u64; 5] = [1, 3, 5, 7, 9];

const OTHER: [u64; 6] = [3, 4, 5, 6, 9, u64::MAX];

// The set of some keys, with room for 100.
fn set_of(rt: &impl Abort, alloc: Global, keys: &[u64]) -> Judy1 {
    Judy1::from_sorted(alloc, 100, keys).expect(rt, "there is memory")
}

// The map of some pairs, with room for 100.
fn map_of(rt: &impl Abort, alloc: Global, pairs: &[(u64, u64)]) -> JudyL {
    JudyL::from_sorted(alloc, 100, pairs).expect(rt, "there is memory")
}

// A set has these keys alone.
fn has_keys(rt: &impl Abort, set: &Judy1, keys: &[u64]) {
    let mut found = set.iter();
    for key in keys {
        assert_eq!(rt; found.next(), Some(*key));
    }
    assert_eq!(rt; found.next(), None);
}

// A map has these pairs alone.
fn has_pairs(rt: &impl Abort, map: &JudyL, pairs: &[(u64, u64)]) {
    let mut found = map.iter();
    for pair in pairs {
        assert_eq!(rt; found.next(), Some(*pair));
    }
    assert_eq!(rt; found.next(), None);
}

// The multiples of a step below 6,000.
fn multiples(rt: &impl Abort, alloc: Global, step: usize) -> Judy1
    requires { 0 < step }
{
    let mut set = Judy1::new(alloc, 6000);
    for key in (0..6000_u64).step_by(step) {
        set.set(key).expect(rt, "there is memory");
    }
    set
}

#[test]
fn counts_of_small_sets(rt: HostRuntime) -> Result<(), Fail> {
    let one = set_of(&rt, rt.alloc(), &ONE);
    let other = set_of(&rt, rt.alloc(), &OTHER);
    assert_eq!(&rt; common_count(&one, &other), 3);
    assert_eq!(&rt; difference_count(&one, &other), 2);
    assert_eq!(&rt; difference_count(&other, &one), 3);
    assert_eq!(&rt; union_count(&one, &other), 8);
    assert_eq!(&rt; symmetric_difference_count(&one, &other), 5);
    let none = set_of(&rt, rt.alloc(), &[]);
    assert_eq!(&rt; common_count(&none, &one), 0);
    assert_eq!(&rt; union_count(&one, &none), 5);
    Ok(())
}

#[test]
fn counts_of_many_pages(rt: HostRuntime) -> Result<(), Fail> {
    let even = multiples(&rt, rt.alloc(), 2);
    let triple = multiples(&rt, rt.alloc(), 3);
    assert_eq!(&rt; common_count(&even, &triple), 1000);
    assert_eq!(&rt; difference_count(&even, &triple), 2000);
    assert_eq!(&rt; union_count(&even, &triple), 4000);
    assert_eq!(&rt; symmetric_difference_count(&even, &triple), 3000);
    let six = multiples(&rt, rt.alloc(), 6);
    assert!(&rt; is_subset(&six, &even) && is_subset(&six, &triple));
    assert!(&rt; !is_subset(&even, &six) && is_superset(&even, &six));
    let both = intersection(rt.alloc(), 6000, &even, &triple).expect(&rt, "memory");
    assert!(&rt; same_keys(&both, &six));
    Ok(())
}

// The map of the words below 1,000 with their doubles.
fn doubles(rt: &impl Abort, alloc: Global) -> JudyL {
    let mut map = JudyL::new(alloc, 1000);
    for key in 0..1000_u64 {
        map.put(key, 2 * key).expect(rt, "there is memory");
    }
    map
}

#[test]
fn few_keys_among_many(rt: HostRuntime) -> Result<(), Fail> {
    let alloc = rt.alloc();
    let even = multiples(&rt, alloc, 2);
    let few = set_of(&rt, alloc, &[0, 3, 4, 5998, 7000]);
    assert_eq!(&rt;
        (common_count(&few, &even), common_count(&even, &few)),
        (3, 3)
    );
    assert_eq!(&rt;
        (difference_count(&few, &even), difference_count(&even, &few)),
        (2, 2997)
    );
    assert!(&rt; !is_subset(&few, &even) && !is_subset(&even, &few));
    assert!(&rt; is_subset(&set_of(&rt, alloc, &[0, 4, 5998]), &even));
    assert!(&rt; !is_disjoint(&few, &even) && !is_disjoint(&even, &few));
    let odd = set_of(&rt, alloc, &[1, 5997]);
    assert!(&rt; is_disjoint(&odd, &even) && is_disjoint(&even, &odd));
    let both = intersection(alloc, 3, &even, &few).expect(&rt, "three keys");
    has_keys(&rt, &both, &[0, 4, 5998]);
    let map = doubles(&rt, alloc);
    let pairs = map_of(&rt, alloc, &[(3, 1), (10, 2), (1000, 5)]);
    let ours = intersection(alloc, 9, &pairs, &map).expect(&rt, "two keys");
    has_pairs(&rt, &ours, &[(3, 1), (10, 2)]);
    let theirs = intersection(alloc, 9, &map, &pairs).expect(&rt, "two keys");
    has_pairs(&rt, &theirs, &[(3, 6), (10, 20)]);
    Ok(())
}

#[test]
fn relations_of_small_sets(rt: HostRuntime) -> Result<(), Fail> {
    let one = set_of(&rt, rt.alloc(), &ONE);
    let other = set_of(&rt, rt.alloc(), &OTHER);
    let none = set_of(&rt, rt.alloc(), &[]);
    assert!(&rt; !is_subset(&one, &other) && !is_disjoint(&one, &other));
    assert!(&rt; is_subset(&none, &one) && is_disjoint(&none, &one));
    assert!(&rt; !is_subset(&one, &none) && !same_keys(&one, &none));
    assert!(&rt; is_disjoint(&one, &set_of(&rt, rt.alloc(), &[0, 2, 10])));
    assert!(&rt; is_superset(&one, &set_of(&rt, rt.alloc(), &[3, 9])));
    assert!(&rt; same_keys(&one, &set_of(&rt, rt.alloc(), &ONE)));
    Ok(())
}

#[test]
fn sets_of_two_sets(rt: HostRuntime) -> Result<(), Fail> {
    let alloc = rt.alloc();
    let one = set_of(&rt, rt.alloc(), &ONE);
    let other = set_of(&rt, rt.alloc(), &OTHER);
    let all = union(alloc, 8, &one, &other).expect(&rt, "eight keys");
    has_keys(&rt, &all, &[1, 3, 4, 5, 6, 7, 9, u64::MAX]);
    assert_eq!(&rt; all.limit(), 8);
    let few = union(alloc, 7, &one, &other);
    assert_eq!(&rt; few.err(), Some(InsertError::Full));
    let both = intersection(alloc, 3, &one, &other).expect(&rt, "three keys");
    has_keys(&rt, &both, &[3, 5, 9]);
    let left = difference(alloc, 9, &one, &other).expect(&rt, "two keys");
    has_keys(&rt, &left, &[1, 7]);
    let apart = symmetric_difference(alloc, 5, &one, &other).expect(&rt, "five keys");
    has_keys(&rt, &apart, &[1, 4, 6, 7, u64::MAX]);
    let more = symmetric_difference(alloc, 4, &one, &other);
    assert_eq!(&rt; more.err(), Some(InsertError::Full));
    Ok(())
}

#[test]
fn maps_of_two_maps(rt: HostRuntime) -> Result<(), Fail> {
    let alloc = rt.alloc();
    let one = map_of(&rt, rt.alloc(), &[(1, 10), (3, 30), (5, 50)]);
    let other = map_of(&rt, rt.alloc(), &[(3, 33), (4, 44)]);
    let all = union(alloc, 9, &one, &other).expect(&rt, "four keys");
    has_pairs(&rt, &all, &[(1, 10), (3, 30), (4, 44), (5, 50)]);
    let both = intersection(alloc, 9, &other, &one).expect(&rt, "one key");
    has_pairs(&rt, &both, &[(3, 33)]);
    let left = difference(alloc, 9, &one, &other).expect(&rt, "two keys");
    has_pairs(&rt, &left, &[(1, 10), (5, 50)]);
    let apart = symmetric_difference(alloc, 9, &one, &other).expect(&rt, "three keys");
    has_pairs(&rt, &apart, &[(1, 10), (4, 44), (5, 50)]);
    Ok(())
}

#[test]
fn ranges_taken_out(rt: HostRuntime) -> Result<(), Fail> {
    let mut set = set_of(&rt, rt.alloc(), &ONE);
    assert_eq!(&rt; remove_range(rt.alloc(), &mut set, 4, 4), 0);
    assert_eq!(&rt; remove_range(rt.alloc(), &mut set, 7, 3), 0);
    assert_eq!(&rt; remove_range(rt.alloc(), &mut set, 3, 7), 3);
    has_keys(&rt, &set, &[1, 9]);
    assert_eq!(&rt; remove_range(rt.alloc(), &mut set, 0, u64::MAX), 2);
    has_keys(&rt, &set, &[]);
    let mut map = map_of(&rt, rt.alloc(), &[(1, 10), (3, 30), (u64::MAX, 50)]);
    assert_eq!(&rt; remove_range(rt.alloc(), &mut map, 2, u64::MAX), 2);
    has_pairs(&rt, &map, &[(1, 10)]);
    Ok(())
}

#[test]
fn ranges_that_stay(rt: HostRuntime) -> Result<(), Fail> {
    let mut set = set_of(&rt, rt.alloc(), &ONE);
    assert_eq!(&rt; retain_range(rt.alloc(), &mut set, 0, u64::MAX), 0);
    assert_eq!(&rt; retain_range(rt.alloc(), &mut set, 2, 9), 1);
    has_keys(&rt, &set, &[3, 5, 7, 9]);
    assert_eq!(&rt; retain_range(rt.alloc(), &mut set, 5, 6), 3);
    has_keys(&rt, &set, &[5]);
    assert_eq!(&rt; retain_range(rt.alloc(), &mut set, 6, 5), 1);
    has_keys(&rt, &set, &[]);
    let mut map = map_of(&rt, rt.alloc(), &[(1, 10), (3, 30), (u64::MAX, 50)]);
    assert_eq!(&rt; retain_range(rt.alloc(), &mut map, 2, u64::MAX), 1);
    has_pairs(&rt, &map, &[(3, 30), (u64::MAX, 50)]);
    Ok(())
}

#[test]
fn words_put_in(rt: HostRuntime) -> Result<(), Fail> {
    let alloc = rt.alloc();
    let mut set = set_of(&rt, rt.alloc(), &ONE);
    assert_eq!(&rt; insert_range(alloc, &mut set, 3, 6), Ok(()));
    has_keys(&rt, &set, &[1, 3, 4, 5, 6, 7, 9]);
    assert_eq!(&rt; insert_range(alloc, &mut set, 6, 3), Ok(()));
    assert_eq!(&rt;
        insert_range(alloc, &mut set, u64::MAX - 1, u64::MAX),
        Ok(())
    );
    has_keys(&rt, &set, &[1, 3, 4, 5, 6, 7, 9, u64::MAX - 1, u64::MAX]);
    assert_eq!(&rt;
        insert_range(alloc, &mut set, 10, 101),
        Err(InsertError::Full)
    );
    assert_eq!(&rt; insert_range(alloc, &mut set, 10, 100), Ok(()));
    assert_eq!(&rt; set.len(), 100);
    assert_eq!(&rt; insert_range(alloc, &mut set, 10, 100), Ok(()));
    let mut all = Judy1::unbounded(alloc);
    assert_eq!(&rt;
        insert_range(alloc, &mut all, 0, u64::MAX),
        Err(InsertError::Full)
    );
    assert_eq!(&rt;
        insert_range(alloc, &mut all, 1, u64::MAX),
        Err(InsertError::NoMemory)
    );
    assert_eq!(&rt; all.len(), 0);
    Ok(())
}

#[test]
fn words_turned_round(rt: HostRuntime) -> Result<(), Fail> {
    let alloc = rt.alloc();
    let mut set = set_of(&rt, rt.alloc(), &ONE);
    assert_eq!(&rt; flip(alloc, &mut set, 3, 6), Ok(()));
    has_keys(&rt, &set, &[1, 4, 6, 7, 9]);
    assert_eq!(&rt; flip(alloc, &mut set, 6, 3), Ok(()));
    assert_eq!(&rt; flip(alloc, &mut set, 9, u64::MAX), Err(InsertError::Full));
    assert_eq!(&rt; flip(alloc, &mut set, 9, 105), Ok(()));
    assert_eq!(&rt; (set.len(), set.test(9)), (100, false));
    assert_eq!(&rt; flip(alloc, &mut set, 8, 105), Ok(()));
    has_keys(&rt, &set, &[1, 4, 6, 7, 8, 9]);
    let mut even = multiples(&rt, alloc, 2);
    assert_eq!(&rt; flip(alloc, &mut even, 0, 5999), Ok(()));
    assert_eq!(&rt;
        (even.len(), even.test(2), even.test(3)),
        (3000, false, true)
    );
    Ok(())
}

#[test]
fn one_moved_into_another(rt: HostRuntime) -> Result<(), Fail> {
    let mut set = set_of(&rt, rt.alloc(), &ONE);
    let mut other = set_of(&rt, rt.alloc(), &OTHER);
    assert_eq!(&rt; append(rt.alloc(), &mut set, &mut other), Ok(()));
    has_keys(&rt, &set, &[1, 3, 4, 5, 6, 7, 9, u64::MAX]);
    assert_eq!(&rt; other.len(), 0);
    let mut small = Judy1::from_sorted(rt.alloc(), 2, &[3, 8]).expect(&rt, "there is memory");
    let mut more = set_of(&rt, rt.alloc(), &[3, 4]);
    let full = append(rt.alloc(), &mut small, &mut more);
    assert_eq!(&rt; full, Err(InsertError::Full));
    has_keys(&rt, &small, &[3, 8]);
    has_keys(&rt, &more, &[3, 4]);
    let mut map = map_of(&rt, rt.alloc(), &[(1, 10), (3, 30)]);
    let mut pairs = map_of(&rt, rt.alloc(), &[(3, 33), (4, 44)]);
    assert_eq!(&rt; append(rt.alloc(), &mut map, &mut pairs), Ok(()));
    has_pairs(&rt, &map, &[(1, 10), (3, 30), (4, 44)]);
    Ok(())
}

#[test]
fn ranges_copied_and_split_off(rt: HostRuntime) -> Result<(), Fail> {
    let mut set = set_of(&rt, rt.alloc(), &OTHER);
    let part = copy_range(rt.alloc(), 3, &set, 4, 6).expect(&rt, "three keys");
    has_keys(&rt, &part, &[4, 5, 6]);
    let few = copy_range(rt.alloc(), 2, &set, 4, 6);
    assert_eq!(&rt; few.err(), Some(InsertError::Full));
    let none = copy_range(rt.alloc(), 1, &set, 6, 4).expect(&rt, "no key");
    has_keys(&rt, &none, &[]);
    let late = split_off(rt.alloc(), &mut set, 6).expect(&rt, "there is memory");
    has_keys(&rt, &late, &[6, 9, u64::MAX]);
    has_keys(&rt, &set, &[3, 4, 5]);
    let mut map = map_of(&rt, rt.alloc(), &[(1, 10), (3, 30), (4, 40)]);
    let last = split_off(rt.alloc(), &mut map, 4).expect(&rt, "there is memory");
    has_pairs(&rt, &last, &[(4, 40)]);
    has_pairs(&rt, &map, &[(1, 10), (3, 30)]);
    Ok(())
}

#[test]
fn ranges_of_many_pages(rt: HostRuntime) -> Result<(), Fail> {
    let mut even = multiples(&rt, rt.alloc(), 2);
    let middle = copy_range(rt.alloc(), 6000, &even, 999, 3001).expect(&rt, "memory");
    assert_eq!(&rt; middle.len(), 1001);
    assert_eq!(&rt; remove_range(rt.alloc(), &mut even, 1000, 5001), 2001);
    assert_eq!(&rt; even.len(), 999);
    assert_eq!(&rt; (even.last(5000), even.first(999)), (Some(998), Some(5002)));
    let late = split_off(rt.alloc(), &mut even, 998).expect(&rt, "there is memory");
    assert_eq!(&rt; (late.len(), even.len()), (500, 499));
    Ok(())
}

#[test]
fn words_that_are_no_keys(rt: HostRuntime) -> Result<(), Fail> {
    let set = set_of(&rt, rt.alloc(), &OTHER);
    assert_eq!(&rt; count_empty(&set, 3, 6), 0);
    assert_eq!(&rt; count_empty(&set, 2, 10), 4);
    assert_eq!(&rt; count_empty(&set, 6, 3), 0);
    assert_eq!(&rt; count_empty(&set, u64::MAX, u64::MAX), 0);
    assert_eq!(&rt; count_empty(&set, 0, u64::MAX), u64::MAX - 5);
    let none = set_of(&rt, rt.alloc(), &[]);
    assert_eq!(&rt; count_empty(&none, 0, u64::MAX), u64::MAX);
    Ok(())
}

#[test]
fn keys_are_told_downward(rt: HostRuntime) -> Result<(), Fail> {
    let set = set_of(&rt, rt.alloc(), &ONE);
    let mut page = [0_u64; 3];
    assert_eq!(&rt; fill_down(&set, 8, &mut page), 3);
    assert_eq!(&rt; page, [7, 5, 3]);
    assert_eq!(&rt; fill_down(&set, 2, &mut page), 1);
    assert_eq!(&rt; page, [1, 5, 3]);
    assert_eq!(&rt; fill_down(&set, 0, &mut page), 0);
    Ok(())
}
