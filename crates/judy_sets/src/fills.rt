//! Arrays that are filled with the pairs that two arrays have together.

ghost use Rattle.std.specs.Prelude.{◌≡◌, ◌==◌, ◌≤◌, ◌<◌, ◌+◌, ◌↔◌, if◌then◌else◌, IfOk, OnOk, IfErr, IsTrue};
ghost use Rattle.std.specs.FinMap as map;
ghost use Rattle.judy_sets.specs.Fills.{worth, IsPut, IsRestPut, IsFilled};
ghost use Rattle.judy_combine.specs.Merges.{Ascends};
ghost use Rattle.judy_sets.specs.Pages.{rest};
ghost use Rattle.judy_sets.specs.Results.{kept};

use crate::counts::common_count;
use crate::lookups::{are_few, put_common};
use crate::pages::Pages;
use crate::steps::{ROOM, next_pairs};
use judy_combine::Keep;
use judy_leaf::Words;
use judy_word::{Filling, InsertError, WordArray};
use std::alloc::{AllocError, Global};

// What is put in for a value: 0 where keys have none.
pub fn worth<V: Words + Drop>(value: u64) -> u64
    ensures { result ≡ worth V.WORDS value }
{
    if V::WORDS == 0 { 0 } else { value }
}

// Puts pairs into an array that is filled. A key that is there keeps its value.
pub fn put_all<V: Words + Drop>(
    made: &mut Filling<V>,
    pairs: &[(u64, u64)],
) -> Result<(), InsertError>
    requires { V.WORDS ≤ 1 }
    ensures { OnOk result (IsPut V.WORDS made.old made.new pairs.now) }
{
    'pairs: for pair in pairs {
        made.put(pair.0, worth::<V>(pair.1))?;
    }
    Ok(())
}

// Puts all pairs that are left of an array in, where they are wanted.
fn put_rest<V: Words + Drop>(
    wanted: bool,
    made: &mut Filling<V>,
    pages: &mut Pages<'_, V>,
) -> Result<(), InsertError>
    requires { V.WORDS ≤ 1 }
    ensures { OnOk result (IsRestPut V.WORDS wanted made.old made.new (rest pages.old)) }
{
    if !wanted {
        return Ok(());
    }
    'pages: loop {
        let page = pages.ahead();
        let count = page.len();
        if count == 0 {
            return Ok(());
        }
        put_all(made, page)?;
        pages.pass(count);
    }
}

// Puts in what is kept of two arrays.
fn fill<V: Words + Drop>(
    made: &mut Filling<V>,
    keep: Keep,
    left: &mut Pages<'_, V>,
    right: &mut Pages<'_, V>,
) -> Result<(), InsertError>
    requires one { V.WORDS ≤ 1 }
    requires left_up { Ascends 0 (rest left.old) }
    requires right_up { Ascends 0 (rest right.old) }
    ensures { OnOk result
        (IsFilled V.WORDS keep made.old made.new (rest left.old) (rest right.old)) }
{
    let mut out = [(0, 0); ROOM];
    'pages: while let Some(count) = next_pairs(keep, left, right, &mut out) {
        put_all(made, &out[..count])?;
    }
    put_rest(keep.left, made, left)?;
    put_rest(keep.right, made, right)?;
    Ok(())
}

// Puts in what is kept of two arrays. Where that is what both have, and one has few keys, they are looked up in the
// other.
fn fill_of<V: Words + Drop>(
    made: &mut Filling<V>,
    keep: Keep,
    one: &WordArray<V>,
    other: &WordArray<V>,
) -> Result<(), InsertError>
    requires { V.WORDS ≤ 1 }
    ensures { OnOk result (IsFilled V.WORDS keep made.old made.new
        (map.entries one.now.map) (map.entries other.now.map)) }
{
    if keep.is_intersection() {
        if are_few(one.len(), other.len()) {
            return put_common(made, false, one, other);
        }
        if are_few(other.len(), one.len()) {
            return put_common(made, true, other, one);
        }
    }
    fill_both(made, keep, one, other)
}

// The same, by going through both.
fn fill_both<V: Words + Drop>(
    made: &mut Filling<V>,
    keep: Keep,
    one: &WordArray<V>,
    other: &WordArray<V>,
) -> Result<(), InsertError>
    requires { V.WORDS ≤ 1 }
    ensures { OnOk result (IsFilled V.WORDS keep made.old made.new
        (map.entries one.now.map) (map.entries other.now.map)) }
{
    let mut left = Pages::of(one);
    let mut right = Pages::of(other);
    fill(made, keep, &mut left, &mut right)
}

// So many, if they are wanted.
pub fn share(wanted: bool, count: u64) -> u64
    ensures { result ≡ (if wanted then count else 0) }
{
    if wanted { count } else { 0 }
}

// Whether the keys of one array are sooner looked up in the other than both are gone through.
pub fn are_sought<V: Words + Drop>(keep: Keep, one: &WordArray<V>, other: &WordArray<V>) -> bool {
    let (ours, theirs) = (one.len(), other.len());
    keep.is_intersection() && (are_few(ours, theirs) || are_few(theirs, ours))
}

// Whether more keys are kept than a limit. The keys that both have are counted only where there could be.
pub fn exceeds<V: Words + Drop>(
    limit: u64,
    keep: Keep,
    one: &WordArray<V>,
    other: &WordArray<V>,
) -> bool
    ensures { IsTrue result ↔ (limit < map.len (kept keep one.now.map other.now.map)) }
{
    let ours = one.len();
    let theirs = other.len();
    if ours <= limit && share(keep.right, theirs) <= limit - ours {
        return false;
    }
    let common = common_count(one, other);
    let front = share(keep.both, common) + share(keep.left, ours - common);
    if limit < front {
        return true;
    }
    limit - front < share(keep.right, theirs - common)
}

// An array that comes to what is kept of two arrays, which are no more keys than the limit.
pub fn filled<V: Words + Drop>(
    alloc: Global,
    limit: u64,
    keep: Keep,
    one: &WordArray<V>,
    other: &WordArray<V>,
) -> Result<Filling<V>, AllocError>
    requires one { V.WORDS ≤ 1 }
    requires some { 1 ≤ limit }
    ensures limit { IfOk result (λ a. a.limit ≡ limit) }
    ensures map { IfOk result (λ a. a.map ≡ kept keep one.now.map other.now.map) }
{
    one.len();
    other.len();
    let mut made = Filling::new(alloc, limit);
    match fill_of(&mut made, keep, one, other) {
        Ok(()) => Ok(made),
        Err(_) => Err(AllocError),
    }
}
