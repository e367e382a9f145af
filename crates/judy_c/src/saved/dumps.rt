// How the array of a handle is dumped, one way for all kinds.

ghost use Rattle.std.specs.Prelude.{◌≡◌, MatchOption, unwrap_or};
ghost use Rattle.judy_shelf.specs.Versions.{format_of};
ghost use Rattle.judy_saved.specs.Dumps.{IsDumped};
ghost use Rattle.judy_c.specs.Saved.{IsDumpedBy, IsNoFormat, answer_of, number_of, number_of_format, room_of, size_told};

use super::kinds::SavedArray;
use crate::answers::{BAD_FORMAT, BAD_KEY, BAD_NAME, DONE, NO_MEMORY, TOO_MANY, TOO_SMALL};
use crate::arrays::HeldArray;
use crate::handles::Handle;
use judy_saved::SaveError;
use judy_shelf::{Name, Version};
use std::alloc::Global;

// Writes the dump of the array that a handle stands for to the front of a room where it fits, tells its size and
// answers by a number.
pub(crate) fn dump<H: Handle>(
    alloc: Global,
    handle: &mut H,
    format: u32,
    name: &[u8],
    room: &mut [u8],
    size: &mut usize,
) -> u32
where
    H::Array: SavedArray,
    ensures answer { IsDumpedBy H.Array.kind
        (unwrap_or (H.held_by handle.old).array H.Array.without_keys) format name.now
        (room_of room.old size.old) result (room_of room.new size.new) }
    ensures same { handle.new ≡ handle.old }
{
    let Some(version) = version_of(format) else {
        return BAD_FORMAT;
    };
    let Some(name) = Name::new(name) else {
        return BAD_NAME;
    };
    let length = room.len();
    let dumped = dump_held(alloc, handle, version, &name, room);
    answer(dumped, length, size)
}

// The format of a number.
fn version_of(format: u32) -> Option<Version>
    ensures { MatchOption result (IsNoFormat format)
        (λ version. format ≡ number_of_format (format_of version)) }
{
    if format == 1 {
        Some(Version::First)
    } else if format == 2 {
        Some(Version::Second)
    } else {
        None
    }
}

// Dumps the array that a handle stands for.
fn dump_held<H: Handle>(
    alloc: Global,
    handle: &mut H,
    version: Version,
    name: &Name,
    room: &mut [u8],
) -> Result<usize, SaveError>
where
    H::Array: SavedArray,
    ensures dumped { IsDumped (H.Array.kind.dump (format_of version) name.now
        (unwrap_or (H.held_by handle.old).array H.Array.without_keys)) room.old result room.new }
    ensures same { handle.new ≡ handle.old }
{
    match handle.array() {
        Some(array) => array.dump(version, name, room),
        None => H::Array::empty(alloc).dump(version, name, room),
    }
}

// Answers a dump for which there was so large a room by its number, and tells its size.
fn answer(dumped: Result<usize, SaveError>, room: usize, size: &mut usize) -> u32
    ensures number { result ≡ number_of (answer_of dumped room) }
    ensures told { size.new ≡ size_told dumped size.old }
{
    match dumped {
        Ok(length) => {
            *size = length;
            if length <= room { DONE } else { TOO_SMALL }
        }
        Err(SaveError::TooMany) => TOO_MANY,
        Err(SaveError::NoMemory) => NO_MEMORY,
        Err(SaveError::LongKey) => BAD_KEY,
    }
}
