//! Entries of word arrays, written many at once.

ghost use Rattle.std.specs.Prelude.{◌≡◌, ◌<◌, ◌≤◌, ◌+◌, ◌-◌, ◌^◌, ◌++◌, ℕ, List, length};
ghost use Rattle.std.specs.List.{flat_map};
ghost use Rattle.arrayvec.specs.ArrayVec.{array_vec_len};
ghost use Rattle.judy_model.specs.DumpText as text;
ghost use Rattle.judy_shelf.specs.Writes.{sunk, Wrote};

use crate::write::{put, word_bytes};
use arrayvec::ArrayVec;
use judy_pipe::{PipeFailed, Sink};

// How many entries are written at once.
pub(crate) const PAGE: usize = 64;

// How many bytes a page of them has at most.
const PAGE_LEN: usize = 1024;

// What a dump writes of an entry, in at most sixteen bytes: a key, or a key and its value.
pub(crate) trait Written {
    ghost text: { Self → List ℕ };

    // Puts its bytes behind those of a page.
    fn put_behind(&self, bytes: &mut ArrayVec<u8, PAGE_LEN>)
        requires { array_vec_len bytes.old + 16 ≤ 1024 }
        ensures items { bytes.new.items ≡ bytes.old.items ++ text self.now }
        ensures len { array_vec_len bytes.new ≤ array_vec_len bytes.old + 16 };
}

impl Written for u64 {
    ghost text = { text.word };

    fn put_behind(&self, bytes: &mut ArrayVec<u8, PAGE_LEN>) {
        put_word_behind(*self, bytes);
    }
}

impl Written for (u64, u64) {
    ghost text = { λ entry. text.word entry.0 ++ text.word entry.1 };

    fn put_behind(&self, bytes: &mut ArrayVec<u8, PAGE_LEN>) {
        put_word_behind(self.0, bytes);
        put_word_behind(self.1, bytes);
    }
}

// Puts a word behind the bytes of a page.
fn put_word_behind(word: u64, bytes: &mut ArrayVec<u8, PAGE_LEN>)
    requires { array_vec_len bytes.old + 8 ≤ 1024 }
    ensures items { bytes.new.items ≡ bytes.old.items ++ text.word word }
    ensures len { array_vec_len bytes.new ≡ array_vec_len bytes.old + 8 }
{
    let _ = bytes.try_extend_from_slice(&word_bytes(word));
}

// The bytes of some entries, one behind the other.
fn page_bytes<E: Written>(page: &[E]) -> ArrayVec<u8, PAGE_LEN>
    requires { length page.now ≤ 64 }
    ensures { result.items ≡ flat_map E.text page.now }
{
    let mut bytes = ArrayVec::new();
    'entries: for entry in page {
        entry.put_behind(&mut bytes);
    }
    bytes
}

// Writes some entries, at most a page of them.
pub(crate) fn put_page<W: Sink, E: Written>(sink: &mut W, page: &[E]) -> Result<(), PipeFailed>
    requires below { (W.tally sink.old).failures < 2 ^ 64 - 1 }
    requires few { length page.now ≤ 64 }
    ensures { Wrote (flat_map E.text page.now)
        (sunk (W.taken sink.old) (W.tally sink.old).failures) result
        (sunk (W.taken sink.new) (W.tally sink.new).failures) }
{
    put(sink, &page_bytes(page))
}
