//! How an insert finds the place of a key, or makes one.

ghost use Rattle.std.specs.Prelude.{◌≡◌, ◌≤◌, IfOk, IfErr, None, IsTrue, IsFalse, false, length};
ghost use Rattle.judy_hs.specs.Kept.{IsKeyed, value_of};
ghost use Rattle.judy_hs.specs.Placed.{IsPlaced, IsUnplaced};

use crate::error::HsError;
use crate::groups::{Groups, KeyPlace};
use crate::hash::ByteHash;
use crate::part::part_of;
use crate::trial::Trial;

// Where a key stands, and whether it is new there.
#[derive(Clone, Copy)]
pub struct Placed {
    pub spot: KeyPlace,
    pub is_new: bool,
}

// Finds where a key stands, or puts it in with the value 0 where the array isn't full. Where the last insert put a key
// in, this one is tried as one that does. Where memory is refused, records move together, and it is tried once more.
// Compiled into its one caller.
#[inline(always)]
pub fn find_or_add<H: ByteHash>(
    hasher: &H,
    groups: &mut Groups,
    expects_new: bool,
    is_full: bool,
    key: &[u8],
) -> Result<Placed, HsError>
    requires kept { IsKeyed H.hash_of H.LONGEST groups.old }
    requires fits { length key.now ≤ H.LONGEST }
    ensures placed { IfOk result (λ placed. IsPlaced H.hash_of H.LONGEST groups.old groups.new
        key.now placed.spot placed.is_new) }
    ensures room { IfOk result (λ placed. IsTrue placed.is_new → IsFalse is_full) }
    ensures refused { IfErr result
        (IsUnplaced H.hash_of H.LONGEST groups.old groups.new key.now is_full) }
{
    let part = part_of(hasher, key);
    let alloc = groups.allocator();
    match groups.try_add(alloc, expects_new && !is_full, part, key) {
        Trial::Added(spot) => Ok(Placed { spot, is_new: true }),
        Trial::Refused => add_again(hasher, groups, key),
        Trial::Open => {
            let way = groups.way(part, key);
            match groups.find(way, part, key) {
                Some(spot) => Ok(Placed {
                    spot,
                    is_new: false,
                }),
                None => {
                    if is_full {
                        return Err(HsError::Full);
                    }
                    match groups.add(alloc, way, part, key) {
                        Ok(spot) => Ok(Placed { spot, is_new: true }),
                        Err(_) => add_again(hasher, groups, key),
                    }
                }
            }
        }
    }
}

// Puts an absent key in that was refused memory: once more, where records move together, since the memory of pages that
// are left goes back.
#[cold]
#[inline(never)]
fn add_again<H: ByteHash>(hasher: &H, groups: &mut Groups, key: &[u8]) -> Result<Placed, HsError>
    requires kept { IsKeyed H.hash_of H.LONGEST groups.old }
    requires fits { length key.now ≤ H.LONGEST }
    requires absent { value_of H.hash_of groups.old key.now ≡ None }
    ensures placed { IfOk result (λ placed. IsPlaced H.hash_of H.LONGEST groups.old groups.new
        key.now placed.spot placed.is_new) }
    ensures refused { IfErr result
        (IsUnplaced H.hash_of H.LONGEST groups.old groups.new key.now false) }
{
    if !groups.shrink(None) {
        return Err(HsError::NoMemory);
    }
    let part = part_of(hasher, key);
    let way = groups.way(part, key);
    match groups.add(groups.allocator(), way, part, key) {
        Ok(spot) => Ok(Placed { spot, is_new: true }),
        Err(_) => Err(HsError::NoMemory),
    }
}
