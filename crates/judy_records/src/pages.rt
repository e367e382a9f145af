//! Which page of a list a place is in. The first pages are short, so that a list of few records has little memory to
//! spare and few records hold little; and those behind them are long, so that a list of many has few pages and the list
//! of these stays in a near cache.

ghost use Rattle.std.specs.Prelude.{◌≡◌, ◌<◌, ◌≤◌, ◌+◌, ◌-◌, ◌*◌, ◌^◌};
ghost use Rattle.judy_records.specs.Pages.{shift_of, size_of, start_of, page_of, rest_of, places_of, IsAt};

// How many short pages there are.
const SHORT_PAGES: usize = 64;

// How many short pages a long one is as long as.
const UNITS: usize = 8;

// How many more pages there are before a place in a long one than if all were long.
const MORE_PAGES: usize = SHORT_PAGES - SHORT_PAGES / UNITS;

// By half of its own records a page grows by so many words at most, so that a few long records have no room for many to
// spare.
const MOST_OF_OWN: usize = 512;

// How many places a short page has, as a power of two, where each text takes so many words: as many as 4 KiB have room
// for, and one at least.
pub fn shift_for(size: usize) -> u32
    ensures { result ≡ shift_of size }
{
    match size {
        0 => 9,
        1 => 8,
        2..=3 => 7,
        4..=7 => 6,
        8..=15 => 5,
        16..=31 => 4,
        32..=63 => 3,
        64..=127 => 2,
        128..=255 => 1,
        _ => 0,
    }
}

// How many places a short page has. As a shift of one the compiler makes shifts of what is multiplied or divided by it.
#[inline(always)]
fn short_page(shift: u32) -> usize
    requires { shift ≤ 9 }
    ensures value { result ≡ 2 ^ shift }
    ensures some { 0 < result }
    ensures most { result ≤ 512 }
{
    1 << shift
}

// How many places a page has.
pub fn size_of(shift: u32, page: usize) -> usize
    requires { shift ≤ 9 }
    ensures size { result ≡ size_of (2 ^ shift) page }
    ensures most { result ≤ 4096 }
{
    let units = if page < SHORT_PAGES { 1 } else { UNITS };
    units * short_page(shift)
}

// The first place of a page.
pub fn start_of(shift: u32, page: usize) -> usize
    requires shift { shift ≤ 9 }
    requires fits { start_of (2 ^ shift) page < 18446744073709551616 }
    ensures { result ≡ start_of (2 ^ shift) page }
{
    let units = if page < SHORT_PAGES {
        page
    } else {
        (page - MORE_PAGES) * UNITS
    };
    units * short_page(shift)
}

// The page of a place, and which of its places it is. Each is chosen by itself, since the compiler makes that without a
// branch: among places of both kinds of page it would be foreseen wrongly.
#[inline(always)]
pub fn locate(shift: u32, place: usize) -> (usize, usize)
    requires { shift ≤ 9 }
    ensures { IsAt (2 ^ shift) place result.0 result.1 }
{
    let per = short_page(shift);
    let unit = place / per;
    let is_short = unit < SHORT_PAGES;
    let page = if is_short {
        unit
    } else {
        unit / UNITS + MORE_PAGES
    };
    let before = if is_short { 0 } else { unit % UNITS };
    (page, before * per + place % per)
}

// How many of a page's places a list has that ends there.
pub fn places_of(shift: u32, end: usize, page: usize) -> usize
    requires shift { shift ≤ 9 }
    requires within { start_of (2 ^ shift) page ≤ end }
    ensures { result ≡ places_of (2 ^ shift) end page }
{
    let left = end - start_of(shift, page);
    let most = size_of(shift, page);
    if left < most { left } else { most }
}

// By how many words the last page of a list grows that ends at this place of it. That is a half of its own records, so
// that it isn't moved at every few; or a short page's part is a sixteenth of all, and a long one's a 32nd; and as much
// as the page has place for at most.
pub fn words_more(shift: u32, end: usize, size: usize) -> usize
    requires shift { shift ≤ 9 }
    requires size { size ≤ 2305843009213693952 }
    ensures one { size + 1 ≤ result }
    ensures most { rest_of (2 ^ shift) end * (size + 1) + result
        ≤ size_of (2 ^ shift) (page_of (2 ^ shift) end) * (size + 1) }
{
    let record = size + 1;
    let (page, rest) = locate(shift, end);
    let left = record.saturating_mul(size_of(shift, page) - rest);
    let own = (rest / 2).saturating_mul(record).min(MOST_OF_OWN);
    let part = if page < SHORT_PAGES {
        end / 16
    } else {
        end / 32
    };
    let all = part.saturating_mul(record);
    record.saturating_add(own.max(all)).min(left)
}
