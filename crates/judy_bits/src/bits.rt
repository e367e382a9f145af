//! The bits of one word, by steps on the whole word.

ghost use Rattle.std.specs.Prelude.{◌≡◌, ◌<◌, ◌≤◌, ◌^◌, ◌-◌, ◌%◌, ◌==◌, if◌then◌else◌, Some, None, MatchOption, count_ones};
ghost use Rattle.std.specs.Int.{bit_at};
ghost use Rattle.judy_bits.specs.BitWords.{NoneFrom, IsLowestFrom, NoneBelow, IsHighestBelow, IsSelected};

/// How many bits of a word are 1.
pub(crate) fn count(word: u64) -> u32
    ensures { result ≡ count_ones (word % 2 ^ 64) }
{
    word.count_ones()
}

/// How many bits of a word are 1, where the word counts.
pub(crate) fn count_where(counts: bool, word: u64) -> u32
    ensures { result ≡ (if counts then count_ones (word % 2 ^ 64) else 0) }
{
    if counts { count(word) } else { 0 }
}

/// A word whose lowest bits, so many, are 1.
pub(crate) fn low_ones(count: usize) -> u64
    requires { count ≤ 64 }
    ensures { result ≡ 2 ^ count - 1 }
{
    if count == 64 {
        u64::MAX
    } else {
        fewer_ones(count)
    }
}

/// The same for fewer than all 64.
pub(crate) fn fewer_ones(count: usize) -> u64
    requires { count < 64 }
    ensures { result ≡ 2 ^ count - 1 }
{
    (1 << count) - 1
}

/// How many bits below a place are 1, where the bit there is 1 too; none where it is 0. The bits above the place are
/// moved out of the word, so that its own becomes the highest.
pub(crate) fn ones_below_one(word: u64, place: u8) -> Option<u32>
    requires { place < 64 }
    ensures { result
        ≡ (if bit_at word place == 1 then Some (count_ones (word % 2 ^ place)) else None) }
{
    let up_to = word << (63 - place);
    if up_to >> 63 == 0 {
        None
    } else {
        Some(up_to.count_ones() - 1)
    }
}

/// The place of the lowest 1 that is at or above a place.
pub(crate) fn lowest_from(word: u64, from: usize) -> Option<usize>
    requires { from ≤ 64 }
    ensures { MatchOption result (NoneFrom word from) (λ at. IsLowestFrom word from at) }
{
    let rest = word & !low_ones(from);
    if rest == 0 {
        None
    } else {
        Some(rest.trailing_zeros() as usize)
    }
}

/// The place of the highest 1 that is below a place.
pub(crate) fn highest_below(word: u64, limit: usize) -> Option<usize>
    requires { limit ≤ 64 }
    ensures { MatchOption result (NoneBelow word limit) (λ at. IsHighestBelow word limit at) }
{
    let rest = word & low_ones(limit);
    if rest == 0 {
        None
    } else {
        Some(63 - rest.leading_zeros() as usize)
    }
}

/// The place of the 1 that has so many others below it: six halvings of the word, each by one count. Which half it is
/// can't be foreseen, so nothing is done in one half alone but two small sums, and the widths follow each other
/// whatever was counted: a compiler makes six steps without a branch of it.
pub(crate) fn select(word: u64, index: u32) -> usize
    requires { index < count_ones word }
    ensures { IsSelected word index result }
{
    let mut left = index;
    let mut place = 0;
    let mut width = 64;
    while width > 1 {
        let half = width / 2;
        let low = (word >> place) & low_ones(half);
        let count = low.count_ones();
        if left >= count {
            left -= count;
            place += half;
        }
        width = half;
    }
    place
}
