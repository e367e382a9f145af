//! The words of a range, put into a set, and turned round in it.

ghost use Rattle.std.specs.Prelude.{◌≡◌, ◌≤◌, ◌<◌, ◌+◌, ◌-◌, ◌↔◌, ◌&&◌, suc, false, true, nat_le, nat_lt, IfOk, OnOk, OnErr, IfErr, IsOk, IsTrue, MatchOption};
ghost use Rattle.std.specs.FinMap as map;
ghost use Rattle.judy_model.specs.Arrays as arrays;
ghost use Rattle.judy_model.specs.Ranges as ranges;
ghost use Rattle.judy_word.specs.WordArrays.{array_of};
ghost use Rattle.judy_sets.specs.Fills.{IsAdded, IsMade, IsRefused};
ghost use Rattle.judy_sets.specs.RangeWords.{changed, is_put, IsLeast, IsWordsPut, NoneBetween};

use crate::fills::share;
use crate::range_puts::{put_above, put_below};
use judy_leaf::Words;
use judy_word::{Filling, FillingSet, InsertError, Judy1, WordArray};
use std::alloc::Global;

/// Puts each word from one to another into a set, both included. Nothing changes where the first is above the second;
/// else all nodes are made anew, each as small as its keys allow, beside the old ones.
///
/// `Full` where they come to more keys than the limit, which is told before memory is asked for; `NoMemory` where there
/// is none. Either leaves the set as it was. Words side by side take a bit and a half of memory each: where so much
/// isn't to be had in one piece for all words of the range, that is told at once. It takes some nanoseconds a word.
///
///     insert_range(alloc, &mut taken, 1024, 65535)?;
pub fn insert_range(alloc: Global, set: &mut Judy1, from: u64, to: u64) -> Result<(), InsertError>
    ensures filled { OnOk result (array_of set.new
        ≡ arrays.with_map (array_of set.old) (ranges.filled set.old.map from to)) }
    ensures tight { OnOk result (from ≤ to → set.new.loose ≡ false) }
    ensures nothing { to < from → IsOk result × (set.new ≡ set.old) }
    ensures refused { IfErr result (IsRefused set.old.limit (ranges.filled set.old.map from to)) }
    ensures unchanged { OnErr result (set.new ≡ set.old) }
{
    change(alloc, set, false, from, to)
}

/// Turns each word from one to another round, both included: where it is a key of the set it goes, and else it comes.
/// Nodes, errors and cost are those of [`insert_range`].
///
///     flip(alloc, &mut free, 0, 255)?;
pub fn flip(alloc: Global, set: &mut Judy1, from: u64, to: u64) -> Result<(), InsertError>
    ensures flipped { OnOk result (array_of set.new
        ≡ arrays.with_map (array_of set.old) (ranges.flipped set.old.map from to)) }
    ensures tight { OnOk result (from ≤ to → set.new.loose ≡ false) }
    ensures nothing { to < from → IsOk result × (set.new ≡ set.old) }
    ensures refused { IfErr result (IsRefused set.old.limit (ranges.flipped set.old.map from to)) }
    ensures unchanged { OnErr result (set.new ≡ set.old) }
{
    change(alloc, set, true, from, to)
}

// Puts each word of a range in, or turns it round.
fn change(
    alloc: Global,
    set: &mut Judy1,
    turned: bool,
    from: u64,
    to: u64,
) -> Result<(), InsertError>
    ensures changed { OnOk result (array_of set.new
        ≡ arrays.with_map (array_of set.old) (changed turned set.old.map from to)) }
    ensures tight { OnOk result (from ≤ to → set.new.loose ≡ false) }
    ensures nothing { to < from → IsOk result × (set.new ≡ set.old) }
    ensures refused { IfErr result
        (IsRefused set.old.limit (changed turned set.old.map from to)) }
    ensures unchanged { OnErr result (set.new ≡ set.old) }
{
    if from > to {
        return Ok(());
    }
    let made = changed_set(alloc, set, turned, from, to)?;
    *set = made;
    Ok(())
}

// The set with each word of a range, or with the range turned round.
fn changed_set(
    alloc: Global,
    set: &Judy1,
    turned: bool,
    from: u64,
    to: u64,
) -> Result<Judy1, InsertError>
    requires { from ≤ to }
    ensures { IsMade set.now.limit (changed turned set.now.map from to) result }
{
    let filling = changed_filled(alloc, set, turned, from, to)?;
    match filling.into_set() {
        Ok(made) => Ok(made),
        Err(_) => Err(InsertError::NoMemory),
    }
}

// A set that comes to that. `Full` is told before memory is asked for.
fn changed_filled(
    alloc: Global,
    set: &Judy1,
    turned: bool,
    from: u64,
    to: u64,
) -> Result<FillingSet, InsertError>
    requires order { from ≤ to }
    ensures limit { IfOk result (λ a. a.limit ≡ set.now.limit) }
    ensures map { IfOk result (λ a. a.map ≡ changed turned set.now.map from to) }
    ensures within { OnOk result
        (map.len (changed turned set.now.map from to) ≤ set.now.limit) }
    ensures refused { IfErr result (IsRefused set.now.limit (changed turned set.now.map from to)) }
{
    let keys = set.count(from, to);
    let stay = set.len() - share(turned, keys);
    let more = to - from;
    if exceeds(set.limit(), stay, more, keys) {
        return Err(InsertError::Full);
    }
    if !has_room(alloc, more) {
        return Err(InsertError::NoMemory);
    }
    let mut made = Filling::new(alloc, set.limit());
    match put_changed(&mut made, set, turned, from, to) {
        Ok(()) => Ok(made),
        Err(_) => Err(InsertError::NoMemory),
    }
}

// Whether there are more keys than a limit, where so many stay, and one more than so many words come but those that are
// keys.
fn exceeds(limit: u64, stay: u64, more: u64, keys: u64) -> bool
    requires { stay ≤ limit }
    ensures { IsTrue result ↔ (limit < stay + (suc more - keys)) }
{
    keys <= more && limit - stay <= more - keys
}

// Whether memory for so many words side by side could be had, each of which takes a bit and a half: it is asked for in
// one piece, and given back. For a few megabytes nobody asks.
fn has_room(alloc: Global, words: u64) -> bool {
    if words < 1 << 24 {
        return true;
    }
    Vec::<u8>::with_capacity(alloc, (words / 16 * 3) as usize).is_ok()
}

// Puts in what the set has with each word of a range, or with the range turned round.
fn put_changed(
    made: &mut FillingSet,
    set: &Judy1,
    turned: bool,
    from: u64,
    to: u64,
) -> Result<(), InsertError>
    requires { from ≤ to }
    ensures { OnOk result
        (IsAdded made.old made.new (map.get (changed turned set.now.map from to))) }
{
    set.len();
    put_below(made, set, from)?;
    put_inside(made, set, turned, from, to)?;
    put_above(made, set, to)?;
    Ok(())
}

// Puts the words of a range in, or those of them that are no keys of an array.
fn put_inside<V: Words + Drop>(
    made: &mut Filling<V>,
    array: &WordArray<V>,
    turned: bool,
    from: u64,
    to: u64,
) -> Result<(), InsertError>
    requires one { V.WORDS ≤ 1 }
    requires order { from ≤ to }
    ensures { OnOk result
        (IsWordsPut made.old made.new (is_put turned array.now.map from to)) }
{
    if turned {
        put_empties(made, array, from, to)
    } else {
        put_to(made, from, to)
    }
}

// Puts the words from one on, below another, into an array that is filled.
fn put_words<V: Words + Drop>(made: &mut Filling<V>, from: u64, end: u64) -> Result<(), InsertError>
    requires { V.WORDS ≤ 1 }
    ensures { OnOk result
        (IsWordsPut made.old made.new (λ word. nat_le from word && nat_lt word end)) }
{
    let mut word = from;
    'words: while word < end {
        made.put(word, 0)?;
        word += 1;
    }
    Ok(())
}

// Puts the words from one to another in, both included.
fn put_to<V: Words + Drop>(made: &mut Filling<V>, from: u64, to: u64) -> Result<(), InsertError>
    requires one { V.WORDS ≤ 1 }
    requires order { from ≤ to }
    ensures { OnOk result
        (IsWordsPut made.old made.new (λ word. nat_le from word && nat_le word to)) }
{
    put_words(made, from, to)?;
    made.put(to, 0)?;
    Ok(())
}

// Puts those of them in that are no keys of an array.
fn put_empties<V: Words + Drop>(
    made: &mut Filling<V>,
    array: &WordArray<V>,
    from: u64,
    to: u64,
) -> Result<(), InsertError>
    requires one { V.WORDS ≤ 1 }
    requires order { from ≤ to }
    ensures { OnOk result
        (IsWordsPut made.old made.new (is_put true array.now.map from to)) }
{
    let mut at = from;
    'keys: while let Some(key) = first_up_to(array, at, to) {
        put_words(made, at, key)?;
        if key == to {
            return Ok(());
        }
        at = key + 1;
    }
    put_to(made, at, to)?;
    Ok(())
}

// The least key from one word to another.
fn first_up_to<V: Words + Drop>(array: &WordArray<V>, from: u64, to: u64) -> Option<u64>
    ensures { MatchOption result (NoneBetween array.now.map from to)
        (IsLeast array.now.map from to) }
{
    let Some(key) = array.first(from) else {
        return None;
    };
    if key > to {
        return None;
    }
    Some(key)
}
