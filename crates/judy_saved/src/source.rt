//! A source over a slice, of which contracts know to the end that it is over this slice.

ghost use Rattle.std.specs.Prelude.{◌≡◌, ◌≤◌, true, length, Some};
ghost use Rattle.judy_saved.specs.Sources.{told_of};

use judy_pipe::{Source, Stop};

// Gives the bytes of a slice in order, and then the end, again and again. It never fails.
//
// What contracts see of a source is the bytes that it gave. Of this one they are told the slice before them, behind its
// length: so whoever knows them knows of which slice they are a front, whatever reads from it in between.
#[derive(Drop)]
pub(crate) struct SliceSource<'a> {
    bytes: &'a [u8],
    given: usize,
    ended: bool,
    ghost within: { given ≤ length bytes.now },
    ghost ends_last: { ended ≡ true → given ≡ length bytes.now },
}

impl<'a> SliceSource<'a> {
    // The source over a slice that was not read yet.
    pub(crate) fn new(bytes: &'a [u8]) -> Self
        ensures given { ⟦<SliceSource<'a> as Source>⟧.given result
            ≡ Some (told_of bytes.entry.now 0) }
        ensures failures { (⟦<SliceSource<'a> as Source>⟧.tally result).failures ≡ 0 }
    {
        SliceSource {
            bytes,
            given: 0,
            ended: false,
        }
    }
}

impl<'a> Source for SliceSource<'a> {
    ghost use Rattle.std.specs.Prelude.{None, refl};
    ghost use Rattle.judy_pipe.specs.Tally.{new_tally};
    ghost use Rattle.judy_saved.specs.Sources.{told_of};

    ghost given = { λ s. Some (told_of s.bytes.now s.given) };

    ghost ended = { λ s. Some s.ended };

    ghost content = { λ s. None };

    ghost is_unfailing = { λ s. true };

    ghost tally = { λ s. new_tally };

    ghost gives_content = { λ s. tt };

    ghost never_fails = { λ s. refl };

    // Mostly a whole number is there: how many bytes are copied is known then where this is compiled into.
    #[inline(always)]
    fn read(&mut self, room: &mut [u8]) -> Result<usize, Stop> {
        let count = room.len().min(self.bytes.len() - self.given);
        room[..count].copy_from_slice(&self.bytes[self.given..self.given + count]);
        self.given += count;
        self.ended = count == 0 && !room.is_empty();
        Ok(count)
    }

    fn failures(&self) -> u64 {
        0
    }
}
