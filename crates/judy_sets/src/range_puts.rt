//! Arrays that are filled with the pairs of a range.

ghost use Rattle.std.specs.Prelude.{◌≡◌, ◌≤◌, OnOk, IfOk, IfErr};
ghost use Rattle.std.specs.FinMap as map;
ghost use Rattle.judy_model.specs.Ranges as ranges;
ghost use Rattle.judy_sets.specs.Fills.{IsFront, IsFrontPut, IsRangePut, IsBelowPut, IsAbovePut, IsRefused};
ghost use Rattle.judy_query.specs.Maps.{map_of};
ghost use Rattle.judy_combine.specs.Merges.{Ascends};
ghost use Rattle.judy_sets.specs.Pages.{rest, AreWords};

use crate::fills::put_all;
use crate::pages::Pages;
use judy_leaf::Words;
use judy_node::NodeOf;
use judy_word::{Filling, InsertError, WordArray};
use std::alloc::Global;

// How many of the first pairs have keys up to a word.
fn count_up_to(pairs: &[(u64, u64)], to: u64) -> usize
    ensures { IsFront to pairs.now result }
{
    let mut count = 0;
    'pairs: while count < pairs.len() && pairs[count].0 <= to {
        count += 1;
    }
    count
}

// Puts in the pairs that are left of an array up to a key.
fn put_up_to<V: Words + Drop>(
    made: &mut Filling<V>,
    pages: &mut Pages<'_, V>,
    to: u64,
) -> Result<(), InsertError>
    requires one { V.WORDS ≤ 1 }
    requires up { Ascends 0 (rest pages.old) }
    ensures { OnOk result (IsFrontPut V.WORDS to made.old made.new (rest pages.old)) }
{
    'pages: loop {
        let page = pages.ahead();
        if page.is_empty() {
            return Ok(());
        }
        let count = count_up_to(page, to);
        put_all(made, &page[..count])?;
        if count < page.len() {
            return Ok(());
        }
        pages.pass(count);
    }
}

// Puts in the pairs of an array from one key to another.
fn put_range<V: Words + Drop>(
    made: &mut Filling<V>,
    array: &WordArray<V>,
    from: u64,
    to: u64,
) -> Result<(), InsertError>
    requires { V.WORDS ≤ 1 }
    ensures { OnOk result (IsRangePut V.WORDS made.old made.new array.now.map from to) }
{
    let mut pages = Pages::from_key(array, from);
    put_up_to(made, &mut pages, to)?;
    Ok(())
}

// An array that comes to the pairs from one key to another. `Full` is told before memory is asked for.
pub fn part_filled<V: Words + Drop>(
    alloc: Global,
    limit: u64,
    array: &WordArray<V>,
    from: u64,
    to: u64,
) -> Result<Filling<V>, InsertError>
    requires one { V.WORDS ≤ 1 }
    requires some { 1 ≤ limit }
    ensures limit { IfOk result (λ a. a.limit ≡ limit) }
    ensures map { IfOk result (λ a. a.map ≡ ranges.within array.now.map from to) }
    ensures within { OnOk result (map.len (ranges.within array.now.map from to) ≤ limit) }
    ensures refused { IfErr result (IsRefused limit (ranges.within array.now.map from to)) }
{
    if array.count(from, to) > limit {
        return Err(InsertError::Full);
    }
    array.len();
    let mut made = Filling::new(alloc, limit);
    match put_range(&mut made, array, from, to) {
        Ok(()) => Ok(made),
        Err(_) => Err(InsertError::NoMemory),
    }
}

// Puts in the pairs of an array whose keys are below a word.
pub fn put_below<V: Words + Drop>(
    made: &mut Filling<V>,
    array: &WordArray<V>,
    at: u64,
) -> Result<(), InsertError>
    requires { V.WORDS ≤ 1 }
    ensures { OnOk result (IsBelowPut V.WORDS made.old made.new array.now.map at) }
{
    if at == 0 {
        return Ok(());
    }
    put_range(made, array, 0, at - 1)?;
    Ok(())
}

// Puts in those whose keys are above it.
pub fn put_above<V: Words + Drop>(
    made: &mut Filling<V>,
    array: &WordArray<V>,
    at: u64,
) -> Result<(), InsertError>
    requires { V.WORDS ≤ 1 }
    ensures { OnOk result (IsAbovePut V.WORDS made.old made.new array.now.map at) }
{
    keys_law(array);
    if at == u64::MAX {
        return Ok(());
    }
    put_range(made, array, at + 1, u64::MAX)?;
    Ok(())
}

// A law: each key is a word.
pub fn keys_law<V: Words + Drop>(array: &WordArray<V>)
    ensures { AreWords array.now.map }
{
    tree_law(array.root());
}

// The same of a tree.
fn tree_law<V: Words + Drop>(root: &NodeOf<V>)
    ensures { AreWords (map_of root.now.pairs) }
{
    root.law();
}
