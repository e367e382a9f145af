//! The fields of a dump, read from a source: whole, and one after another.

ghost use Rattle.std.specs.Prelude.{◌≡◌, ◌<◌, ◌-◌, ◌^◌, length};
ghost use Rattle.judy_model.specs.Fields as fields;
ghost use Rattle.judy_shelf.specs.Reads.{drawn, Reads, ReadsOne, Ends};

use crate::fault::LoadFault;
use judy_pipe::{Source, read_some};

// Reads as many bytes as fit into `room`, and none beyond.
// Mostly one piece has all of them: how many are copied is known then where this is compiled into, and a number is one
// load.
#[inline(always)]
pub(crate) fn read_bytes<R: Source>(source: &mut R, room: &mut [u8]) -> Result<(), LoadFault>
    requires { (R.tally source.old).failures < 2 ^ 64 - 1 }
    ensures len { length room.new ≡ length room.old }
    ensures read { Reads (λ _. room.new) (fields.bytes (length room.old))
        (drawn (R.given source.old) (R.ended source.old) (R.tally source.old).failures) result
        (drawn (R.given source.new) (R.ended source.new) (R.tally source.new).failures) }
{
    if room.is_empty() {
        return Ok(());
    }
    match read_some(source, room)? {
        0 => Err(LoadFault::Truncated),
        count if count == room.len() => Ok(()),
        count => read_pieces(source, &mut room[count..]),
    }
}

// The same, piece by piece.
#[inline(never)]
fn read_pieces<R: Source>(source: &mut R, room: &mut [u8]) -> Result<(), LoadFault>
    requires { (R.tally source.old).failures < 2 ^ 64 - 1 }
    ensures len { length room.new ≡ length room.old }
    ensures read { Reads (λ _. room.new) (fields.bytes (length room.old))
        (drawn (R.given source.old) (R.ended source.old) (R.tally source.old).failures) result
        (drawn (R.given source.new) (R.ended source.new) (R.tally source.new).failures) }
{
    let mut filled = 0;
    while filled < room.len() {
        match read_some(source, &mut room[filled..])? {
            0 => return Err(LoadFault::Truncated),
            count => filled += count,
        }
    }
    Ok(())
}

// Reads a number of one byte.
pub(crate) fn read_u8<R: Source>(source: &mut R) -> Result<u8, LoadFault>
    requires { (R.tally source.old).failures < 2 ^ 64 - 1 }
    ensures { Reads (λ number. number) (fields.number 1)
        (drawn (R.given source.old) (R.ended source.old) (R.tally source.old).failures) result
        (drawn (R.given source.new) (R.ended source.new) (R.tally source.new).failures) }
{
    let mut bytes = [0; 1];
    read_bytes(source, &mut bytes)?;
    Ok(bytes[0])
}

// Reads a number of two bytes, the highest first.
pub(crate) fn read_u16<R: Source>(source: &mut R) -> Result<u16, LoadFault>
    requires { (R.tally source.old).failures < 2 ^ 64 - 1 }
    ensures { Reads (λ number. number) (fields.number 2)
        (drawn (R.given source.old) (R.ended source.old) (R.tally source.old).failures) result
        (drawn (R.given source.new) (R.ended source.new) (R.tally source.new).failures) }
{
    let mut bytes = [0; 2];
    read_bytes(source, &mut bytes)?;
    Ok(u16::from_be_bytes(bytes))
}

// Reads a number of four bytes, the highest first.
pub(crate) fn read_u32<R: Source>(source: &mut R) -> Result<u32, LoadFault>
    requires { (R.tally source.old).failures < 2 ^ 64 - 1 }
    ensures { Reads (λ number. number) (fields.number 4)
        (drawn (R.given source.old) (R.ended source.old) (R.tally source.old).failures) result
        (drawn (R.given source.new) (R.ended source.new) (R.tally source.new).failures) }
{
    let mut bytes = [0; 4];
    read_bytes(source, &mut bytes)?;
    Ok(u32::from_be_bytes(bytes))
}

// Reads a number of eight bytes, the highest first.
// Two of them are most of the entry of an array of words, so it is compiled into the caller.
#[inline(always)]
pub(crate) fn read_u64<R: Source>(source: &mut R) -> Result<u64, LoadFault>
    requires { (R.tally source.old).failures < 2 ^ 64 - 1 }
    ensures { Reads (λ number. number) (fields.number 8)
        (drawn (R.given source.old) (R.ended source.old) (R.tally source.old).failures) result
        (drawn (R.given source.new) (R.ended source.new) (R.tally source.new).failures) }
{
    let mut bytes = [0; 8];
    read_bytes(source, &mut bytes)?;
    Ok(u64::from_be_bytes(bytes))
}

// Asks for one more byte, where none may come.
pub(crate) fn read_end<R: Source>(source: &mut R) -> Result<(), LoadFault>
    requires { (R.tally source.old).failures < 2 ^ 64 - 1 }
    ensures { Ends (drawn (R.given source.old) (R.ended source.old) (R.tally source.old).failures)
        result (drawn (R.given source.new) (R.ended source.new) (R.tally source.new).failures) }
{
    let mut room = [0; 1];
    if read_one(source, &mut room)? {
        return Err(LoadFault::Trailing);
    }
    Ok(())
}

// Asks for one byte, and answers whether one came.
fn read_one<R: Source>(source: &mut R, room: &mut [u8]) -> Result<bool, LoadFault>
    requires below { (R.tally source.old).failures < 2 ^ 64 - 1 }
    requires one { length room.old ≡ 1 }
    ensures { ReadsOne
        (drawn (R.given source.old) (R.ended source.old) (R.tally source.old).failures) result
        (drawn (R.given source.new) (R.ended source.new) (R.tally source.new).failures) }
{
    let count = read_some(source, room)?;
    if count == 0 {
        return Ok(false);
    }
    Ok(true)
}
