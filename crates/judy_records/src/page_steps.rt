//! The steps of a list of records that change a page and its kind.

ghost use Rattle.std.specs.Prelude.{◌≡◌, ◌<◌, ◌≤◌, ◌+◌, ◌*◌, None, OnOk, OnErr, IsTrue, length, slice_set};
ghost use Rattle.judy_records.specs.Texts.{words_of, words_for};
ghost use Rattle.judy_records.specs.Kinds.{full, roomy, gone, kind_of, AreKnown, IsMoved};
ghost use Rattle.judy_records.specs.Spots.{held, IsHeld};
ghost use Rattle.judy_records.specs.PageSpots.{spot_in, empty_page, HasRoom, IsFull};
ghost use Rattle.judy_records.specs.PageSteps.{IsFilled, IsReopened, IsBegun, IsTaken};
ghost use Rattle.judy_records.specs.Inside.{page_at};

use crate::page::Page;
use crate::turns::Turns;
use std::alloc::AllocError;

// Puts a record in a page that has so many places, and answers which of them it took.
pub fn put_in(
    pages: &mut Vec<Page>,
    turns: &mut Turns,
    number: usize,
    places: usize,
    value: u64,
    bytes: &[u8],
) -> usize
    requires within { number < length pages.old.items }
    requires counted { length turns.old.kinds ≡ length pages.old.items }
    requires known { AreKnown turns.old }
    requires is_roomy { kind_of turns.old number ≡ roomy }
    requires room { HasRoom (page_at pages.old.items number) }
    requires fits { words_for (length bytes.now) ≡ (page_at pages.old.items number).size }
    ensures place { result ≡ (page_at pages.old.items number).next }
    ensures pages { pages.new.items
        ≡ slice_set pages.old.items number (page_at pages.new.items number) }
    ensures filled { IsFilled (page_at pages.old.items number) (page_at pages.new.items number)
        (held value (words_of bytes.now)) }
    ensures full { IsFull places (page_at pages.new.items number)
        → IsMoved turns.old turns.new number full }
    ensures roomy { (IsFull places (page_at pages.new.items number) → ⊥)
        → IsMoved turns.old turns.new number roomy }
{
    let page = &mut pages[number];
    let place = page.put(value, bytes);
    if !page.is_full(places) {
        return place;
    }
    turns.fill(number);
    place
}

// Gives a page that has gone memory for so many words. The error is want of memory, and nothing has changed.
pub fn reopen(
    pages: &mut Vec<Page>,
    turns: &mut Turns,
    number: usize,
    words: usize,
) -> Result<(), AllocError>
    requires within { number < length pages.old.items }
    requires counted { length turns.old.kinds ≡ length pages.old.items }
    requires is_gone { kind_of turns.old number ≡ gone }
    requires empty { page_at pages.old.items number
        ≡ empty_page (page_at pages.old.items number).size }
    requires words { (page_at pages.old.items number).size + 1 ≤ words }
    ensures pages { pages.new.items
        ≡ slice_set pages.old.items number (page_at pages.new.items number) }
    ensures page { OnOk result
        (IsReopened (page_at pages.old.items number) (page_at pages.new.items number) words) }
    ensures moved { OnOk result (IsMoved turns.old turns.new number roomy) }
    ensures same { OnErr result (pages.new.items ≡ pages.old.items) }
    ensures kinds { OnErr result (turns.new ≡ turns.old) }
{
    let page = &mut pages[number];
    page.widen(words)?;
    turns.reuse(number);
    Ok(())
}

// Sees to it that there is a page of a number, the next one at most, where all are full. The error is want of memory,
// and nothing has changed.
pub fn begin(
    pages: &mut Vec<Page>,
    turns: &mut Turns,
    number: usize,
    size: usize,
) -> Result<(), AllocError>
    requires next { number ≤ length pages.old.items }
    requires size { size ≤ 2305843009213693952 }
    requires none_roomy { turns.old.next_roomy ≡ None }
    requires none_gone { turns.old.next_gone ≡ None }
    ensures begun { OnOk result
        (IsBegun size pages.old.items pages.new.items turns.old turns.new number) }
    ensures same { OnErr result (pages.new.items ≡ pages.old.items) }
    ensures kinds { OnErr result (turns.new ≡ turns.old) }
{
    if number < pages.len() {
        return Ok(());
    }
    pages.reserve_exact(number / 8 + 1)?;
    turns.push()?;
    let alloc = *pages.allocator();
    pages.push_reserved(Page::new(alloc, size));
    Ok(())
}

// A page gets a free place, where it had none.
fn clear_if(turns: &mut Turns, number: usize, was_full: bool)
    requires within { number < length turns.old.kinds }
    requires known { AreKnown turns.old }
    requires is_full { IsTrue was_full → kind_of turns.old number ≡ full }
    requires is_roomy { (IsTrue was_full → ⊥) → kind_of turns.old number ≡ roomy }
    ensures { IsMoved turns.old turns.new number roomy }
{
    if was_full {
        turns.clear(number);
    }
}

// Takes the record at a place of a page out that has so many places. Where it was the page's only one, the page's
// memory goes back.
pub fn take_out_of(
    pages: &mut Vec<Page>,
    turns: &mut Turns,
    number: usize,
    place: usize,
    places: usize,
)
    requires within { number < length pages.old.items }
    requires counted { length turns.old.kinds ≡ length pages.old.items }
    requires known { AreKnown turns.old }
    requires held { IsHeld (spot_in (page_at pages.old.items number) place) }
    requires is_full { IsFull places (page_at pages.old.items number)
        → kind_of turns.old number ≡ full }
    requires is_roomy { (IsFull places (page_at pages.old.items number) → ⊥)
        → kind_of turns.old number ≡ roomy }
    ensures pages { pages.new.items
        ≡ slice_set pages.old.items number (page_at pages.new.items number) }
    ensures taken { IsTaken (page_at pages.old.items number) (page_at pages.new.items number)
        turns.old turns.new number place }
    ensures memory { length (page_at pages.old.items number).spots
        * ((page_at pages.old.items number).size + 1)
        ≤ (page_at pages.old.items number).capacity }
{
    let page = &mut pages[number];
    page.law();
    let was_full = page.is_full(places);
    page.take_out(place);
    clear_if(turns, number, was_full);
    if !page.is_empty() {
        return;
    }
    page.give_back();
    turns.give_back(number);
}
