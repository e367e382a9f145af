//! The memory of a block: the one module with a raw pointer.
//!
//! `Cells` owns the words behind the pointer, and `Deed` the right to give them back. The functions here
//! are proved by hand: for each, proofs/cells has a walk that follows the compiled function statement by
//! statement and says what is owned on the way. Safe code calls the methods of `Cells` by contracts that
//! name no pointer.

ghost use Rattle.std.specs.Prelude.{◌≡◌, ℕ, ◌<◌, ◌≤◌, List, length, take, replicate, slice_index, IfOk};
ghost use Rattle.std.specs.Borrow.{sem};
ghost use denote.RawPtr.{Ptr, room_for};
ghost use Rattle.judy_block.specs.Ownership.{words_type, words_own, words_lent, deed_owns};

use std::alloc::{AllocError, Allocator};
use std::marker::{Model, PhantomData};
use std::mem::{align_of, size_of};
use std::slice;

// The words that lie side by side behind `head`, at most 65,536. All of them are initialized.
//
// It has no drop, so code that would let it go isn't proved: it ends in `release`.
pub(crate) struct Cells {
    head: *mut u64,
    ghost items: { List ℕ },
}

impl Model for Cells {
    ghost also_owns = { λ c. words_own c.head c.items };

    ghost also_shares = { λ c _ κ. words_lent c.head c.items κ };
}

// The right to give the allocation of `len` words at `at` back to `alloc`. It takes no bytes, and has no
// drop either.
pub(crate) struct Deed<A: Allocator> {
    mark: PhantomData<A>,
    ghost alloc: { A },
    ghost at: { Ptr },
    ghost len: { ℕ },
}

impl<A: Allocator> Model for Deed<A> {
    ghost also_owns = { λ d. deed_owns (A.dealloc_token d.alloc) d.at d.len };
}

impl Cells {
    ghost use Rattle.judy_block.specs.Deeds.{IsDeedOf};
    ghost use Rattle.judy_block.specs.Lends.{lends_front, lends_word};

    // As many zeros in memory of their own, with the right to give it back. The error is want of memory;
    // nothing is kept then. Where the number is known when this is compiled, the zeros are a few stores.
    #[inline(always)]
    pub(crate) fn allocate<A: Allocator>(
        alloc: &A,
        count: usize,
    ) -> Result<(Cells, Deed<A>), AllocError>
        requires { count < 65537 }
        ensures zeros { IfOk result (λ made. made.0.items ≡ replicate count 0) }
        ensures deed { IfOk result (λ made. IsDeedOf made.1 alloc.now made.0) }
    {
        match alloc.allocate(count * size_of::<u64>(), align_of::<u64>()) {
            Ok(memory) => {
                let head = memory as *mut u64;
                // SAFETY: the allocator just gave room for `count` words there, which nothing else points to.
                unsafe { zero(head, count) };
                Ok((Cells { head }, Deed { mark: PhantomData }))
            }
            Err(error) => Err(error),
        }
    }

    // Gives the memory of `count` words back to the allocator that it came from.
    pub(crate) fn release<A: Allocator>(self, deed: Deed<A>, alloc: &A, count: usize)
        requires deed { IsDeedOf deed alloc.now self }
        requires count { length self.items ≡ count }
    {
        let Cells { head } = self;
        let Deed { mark: _ } = deed;
        // SAFETY: the cells own the memory of `count` words, and the deed says that `alloc` gave it.
        unsafe { alloc.deallocate(head as *mut u8, count * size_of::<u64>(), align_of::<u64>()) }
    }

    // The first `count` words.
    pub(crate) fn front(&self, count: usize) -> &[u64]
        requires { count ≤ length self.now.items }
        ensures { result.now ≡ take count self.now.items }
    {
        // SAFETY: so many initialized words lie there, and stay as long as the cells are lent.
        unsafe { slice::from_raw_parts(self.head, count) }
    }

    // The same to write; the other words stay.
    pub(crate) fn front_mut(&mut self, count: usize) -> &mut [u64]
        requires { count ≤ length self.old.items }
        ensures* writes_back { sem 𝓛 (lends_front self.entry count result) }
        ensures value { result.now ≡ take count self.old.items }
    {
        // SAFETY: as in `front`, and the cells are lent for this slice alone.
        unsafe { slice::from_raw_parts_mut(self.head, count) }
    }

    // The word at place `i`, to write; the other words stay.
    pub(crate) fn word_mut(&mut self, i: usize) -> &mut u64
        requires { i < length self.old.items }
        ensures* writes_back { sem 𝓛 (lends_word self.entry i result) }
        ensures value { result.now ≡ slice_index self.old.items i }
    {
        // SAFETY: the place is one of the words, and the cells are lent for this word alone.
        unsafe { &mut *self.head.add(i) }
    }
}

// Writes `count` zeros into room for as many words.
unsafe fn zero(head: *mut u64, count: usize)
    requires fits { count < 65537 }
    requires* room { sem 𝓛 (room_for (words_type count) head) }
    ensures* { sem 𝓛 (words_own head (replicate count 0)) }
{
    let mut i = 0;
    while i < count {
        // SAFETY: the room reaches beyond word `i`.
        unsafe { head.add(i).write(0) };
        i += 1;
    }
}
