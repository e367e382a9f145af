//! Bytes that are written into a room one piece behind the other, as far as they fit.

ghost use Rattle.std.specs.Prelude.{◌≡◌, ◌<◌, ◌+◌, ◌^◌, length};
ghost use Rattle.judy_saved.specs.Rooms.{Adds};

// Writes a piece into a room from a place on, where it fits, and answers where it ends, also where it doesn't.
pub(crate) fn put(room: &mut [u8], at: usize, piece: &[u8]) -> usize
    requires { at < 2 ^ 63 }
    ensures end { result ≡ at + length piece.now }
    ensures len { length room.new ≡ length room.old }
    ensures adds { Adds piece.now at room.old result room.new }
{
    let end = at + piece.len();
    if end <= room.len() {
        room[at..end].copy_from_slice(piece);
    }
    end
}
