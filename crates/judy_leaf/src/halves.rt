//! Where a key stands among ascending words, by halves. A step is a comparison and a choice between two places, which
//! is no branch: which way it goes can't be foreseen. So among 32 words there are six comparisons, and no loop. The
//! steps of a look-up are told to be inlined: by one call among them a look-up saves four registers, whichever way it
//! goes.

ghost use Rattle.std.specs.Prelude.{◌≡◌, ◌+◌, ◌*◌, ◌<◌, ◌≤◌, length};
ghost use Rattle.std.specs.List.Sorted.{IsStrictlySortedBy};
ghost use Rattle.judy_model.specs.Keys.{word_order};
ghost use Rattle.judy_bits.specs.ByteSets as set;
ghost use Rattle.judy_leaf.specs.Searches.{IsRankWithin, IsWindow};

// Where the last `next` of `size` places begin in which a key's rank lies, or the first `next`, whichever has it.
fn narrowed(words: &[u64], key: u64, from: usize, size: usize, next: usize) -> usize
    requires ascending { IsStrictlySortedBy word_order words.now }
    requires few { length words.now ≤ 32 }
    requires inside { from + size ≤ length words.now }
    requires half { (next < size) × (size ≤ 2 * next) }
    requires rank { IsRankWithin words.now key from size }
    ensures inside { result + next ≤ from + size }
    ensures rank { IsRankWithin words.now key result next }
{
    let apart = size - next;
    if words[from + apart - 1] < key {
        from + apart
    } else {
        from
    }
}

// The same, where there are more than `next` places.
fn narrowed_to<const N: usize>(words: &[u64], key: u64, window: (usize, usize)) -> (usize, usize)
    requires some { 1 ≤ N }
    requires ascending { IsStrictlySortedBy word_order words.now }
    requires few { length words.now ≤ 32 }
    requires inside { window.0 + window.1 ≤ length words.now }
    requires half { window.1 ≤ 2 * N }
    requires rank { IsRankWithin words.now key window.0 window.1 }
    ensures inside { result.0 + result.1 ≤ length words.now }
    ensures half { result.1 ≤ N }
    ensures rank { IsRankWithin words.now key result.0 result.1 }
{
    let (from, size) = window;
    if size > N {
        (narrowed(words, key, from, size, N), N)
    } else {
        window
    }
}

// How many of ascending words are below a key.
#[inline(always)]
pub(crate) fn rank_of(words: &[u64], key: u64) -> usize
    requires ascending { IsStrictlySortedBy word_order words.now }
    requires few { length words.now ≤ 32 }
    ensures { result ≡ set.rank words.now key }
{
    let window = narrowed_to::<16>(words, key, (0, words.len()));
    let window = narrowed_to::<8>(words, key, window);
    let window = narrowed_to::<4>(words, key, window);
    let window = narrowed_to::<2>(words, key, window);
    let (from, size) = narrowed_to::<1>(words, key, window);
    if size > 0 && words[from] < key {
        from + 1
    } else {
        from
    }
}

// Where the last `next` of `size` places begin, or the first `next`, whichever a key has its place in if it is there.
#[inline(always)]
fn half_with(words: &[u64], key: u64, from: usize, size: usize, next: usize) -> usize
    requires ascending { IsStrictlySortedBy word_order words.now }
    requires few { length words.now ≤ 32 }
    requires half { (1 ≤ next) × (next ≤ size) × (size ≤ 2 * next) }
    requires window { IsWindow words.now key from size }
    ensures { IsWindow words.now key result next }
{
    let apart = size - next;
    if words[from + apart] <= key {
        from + apart
    } else {
        from
    }
}

// The one of two places from one on at which a key stands if it is there.
#[inline(always)]
fn place_in_two(words: &[u64], key: u64, from: usize) -> usize
    requires ascending { IsStrictlySortedBy word_order words.now }
    requires few { length words.now ≤ 32 }
    requires window { IsWindow words.now key from 2 }
    ensures { IsWindow words.now key result 1 }
{
    half_with(words, key, from, 2, 1)
}

// The same of four places.
#[inline(always)]
fn place_in_four(words: &[u64], key: u64, from: usize) -> usize
    requires ascending { IsStrictlySortedBy word_order words.now }
    requires few { length words.now ≤ 32 }
    requires window { IsWindow words.now key from 4 }
    ensures { IsWindow words.now key result 1 }
{
    place_in_two(words, key, half_with(words, key, from, 4, 2))
}

// The same of eight places.
#[inline(always)]
fn place_in_eight(words: &[u64], key: u64, from: usize) -> usize
    requires ascending { IsStrictlySortedBy word_order words.now }
    requires few { length words.now ≤ 32 }
    requires window { IsWindow words.now key from 8 }
    ensures { IsWindow words.now key result 1 }
{
    place_in_four(words, key, half_with(words, key, from, 8, 4))
}

// The same of sixteen places.
#[inline(always)]
fn place_in_sixteen(words: &[u64], key: u64, from: usize) -> usize
    requires ascending { IsStrictlySortedBy word_order words.now }
    requires few { length words.now ≤ 32 }
    requires window { IsWindow words.now key from 16 }
    ensures { IsWindow words.now key result 1 }
{
    place_in_eight(words, key, half_with(words, key, from, 16, 8))
}

// The place at which a key stands among all words, of which there are some, if it is there.
// The first step leaves so many places that each further one halves them: they ask no more how many these are.
#[inline(always)]
fn place_in_all(words: &[u64], key: u64) -> usize
    requires ascending { IsStrictlySortedBy word_order words.now }
    requires few { length words.now ≤ 32 }
    requires some { 1 ≤ length words.now }
    ensures { IsWindow words.now key result 1 }
{
    let size = words.len();
    if size < 4 {
        if size < 2 {
            0
        } else {
            place_in_two(words, key, half_with(words, key, 0, size, 2))
        }
    } else if size >= 16 {
        place_in_sixteen(words, key, half_with(words, key, 0, size, 16))
    } else if size >= 8 {
        place_in_eight(words, key, half_with(words, key, 0, size, 8))
    } else {
        place_in_four(words, key, half_with(words, key, 0, size, 4))
    }
}

// The place of a key, where it is among ascending words.
#[inline(always)]
pub(crate) fn place_of(words: &[u64], key: u64) -> Option<usize>
    requires ascending { IsStrictlySortedBy word_order words.now }
    requires few { length words.now ≤ 32 }
    ensures { result ≡ set.place words.now key }
{
    if words.is_empty() {
        return None;
    }
    let at = place_in_all(words, key);
    if words[at] == key { Some(at) } else { None }
}
