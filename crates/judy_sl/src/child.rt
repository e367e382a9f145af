//! What stands behind a piece that isn't final: a tail or a level.

ghost use Rattle.std.specs.Prelude.{◌≡◌, ◌≢◌, ◌-◌, Some, length, slice_get, IfSome, IsNone, OnOk, OnErr};
ghost use Rattle.judy_word.specs.Writes.{with_value};
ghost use Rattle.judy_sl.specs.Children.{is_level};

use judy_tails::Tail;
use judy_word::WordMap;
use std::alloc::AllocError;

// What stands at a place, as it is read: a tail, which is the rest of one key with the key's value; or the entries of a
// level.
#[derive(Drop)]
pub enum ChildRef<'a> {
    Tail(Tail<'a>),
    Level(&'a WordMap),
}

// The lowest byte of a level's place. That of a tail's is the number of its list, at most 128.
pub const LEVEL: u64 = 255;

// Whether a place is one for levels.
pub fn is_level(place: u64) -> bool
    ensures { result ≡ is_level place }
{
    place % 256 == LEVEL
}

// The value of a tail that is these bytes, of which the last isn't zero; `None` where it is others.
// Within its caller, a way down of which it is the end.
#[inline(always)]
pub fn value_of(tail: &Tail, bytes: &[u8]) -> Option<u64>
    requires { slice_get bytes.now (length bytes.now - 1) ≢ Some 0 }
    ensures same { IfSome result (λ value. (tail.now.0 ≡ bytes.now) × (value ≡ tail.now.1)) }
    ensures other { IsNone result → tail.now.0 ≢ bytes.now }
{
    if tail.is(bytes) {
        Some(tail.value())
    } else {
        None
    }
}

// Gives a piece of a level a value, whether it is there or not.
pub fn put_in(level: &mut WordMap, piece: u64, value: u64) -> Result<(), AllocError>
    ensures entered { OnOk result (level.new ≡ with_value level.old piece value) }
    ensures unchanged { OnErr result (level.new ≡ level.old) }
{
    level.put(piece, value)?;
    Ok(())
}
