//! Cuts of a text at a byte.

ghost use Rattle.std.specs.Prelude.{◌≡◌, ◌<◌, ◌≤◌, length, get_or, take, option_copied, IsTrue};
ghost use Rattle.judy_script.specs.Cuts.{IsCutAt, is_without};

use judy_bits::first_place;

/// What stands before the first `byte` of the text, all of it where the byte isn't there, and what stands
/// after that byte where it is.
pub(crate) fn cut_at(text: &[u8], byte: u8) -> (&[u8], Option<&[u8]>)
    ensures { IsCutAt byte text.now result.0.now (option_copied result.1) }
{
    let place = len_before(text, byte);
    if place == text.len() {
        return (text, None);
    }
    (&text[..place], Some(&text[place + 1..]))
}

/// How many bytes of the text stand before the first `byte`, all where it isn't there. Several are compared at once,
/// with no branch on where it stands among them: sixteen, eight or four, as many as there are.
#[inline(always)]
pub(crate) fn len_before(text: &[u8], byte: u8) -> usize
    ensures within { result ≤ length text.now }
    ensures front { IsTrue (is_without byte (take result text.now)) }
    ensures end { result < length text.now → get_or text.now result 0 ≡ byte }
{
    if text.len() < 8 {
        len_before_by::<4>(text, byte)
    } else if text.len() < 16 {
        len_before_by::<8>(text, byte)
    } else {
        len_before_by::<16>(text, byte)
    }
}

// The same, so many compared at once. Of those at the end some are compared twice, so that none is left to be compared
// alone.
#[inline(always)]
fn len_before_by<const N: usize>(text: &[u8], byte: u8) -> usize
    requires some { 0 < N }
    requires few { N ≤ 16 }
    ensures within { result ≤ length text.now }
    ensures front { IsTrue (is_without byte (take result text.now)) }
    ensures end { result < length text.now → get_or text.now result 0 ≡ byte }
{
    let mut count = 0;
    let mut rest = text;
    'chunks: while let Some((chunk, after)) = rest.split_first_chunk::<N>() {
        let here = first_place::<N>(*chunk, byte);
        if here < N {
            return count + here;
        }
        count += N;
        rest = after;
    }
    match text.split_last_chunk::<N>() {
        Some((front, last)) => front.len() + first_place::<N>(*last, byte).min(N),
        None => short_len_before(text, byte),
    }
}

// How many bytes of a few stand before the first `byte`.
#[inline(always)]
fn short_len_before(text: &[u8], byte: u8) -> usize
    ensures within { result ≤ length text.now }
    ensures front { IsTrue (is_without byte (take result text.now)) }
    ensures end { result < length text.now → get_or text.now result 0 ≡ byte }
{
    let mut count = 0;
    for other in text {
        if *other == byte {
            return count;
        }
        count += 1;
    }
    count
}
