//! How much memory an array takes.
//!
//! These calls are this project's own. The manual's calls of this kind, J1MU and JLMU, answer of words alone, in
//! libJudy's count.

ghost use Rattle.std.specs.Prelude.{◌≡◌, ◌≤◌, ◌+◌, ◌%◌, ◌^◌, ℕ, IfSome, None};
ghost use Rattle.std.specs.FinMap as map;
ghost use Rattle.judy_c.specs.Maps.{map_of, set_of};

use crate::arrays::HeldArray;
use crate::bytes::Bytes;
use crate::handles::Handle;
use crate::map::Map;
use crate::set::Set;
use crate::strings::Strings;
use judy_hs::{Eights, JudyHs};
use judy_sl::LongStrings;
use judy_word::{Judy1, JudyL};
use std::mem::size_of;

// How many bytes of memory the array of a handle takes with its box, which takes so many; 0 for a null handle.
fn bytes_behind<H: Handle>(handle: &mut H, boxed: usize) -> u64
    ensures null { (H.held_by handle.old).array ≡ None → result ≡ 0 }
    ensures held { IfSome (H.held_by handle.old).array (λ array. (inside : ℕ)
        × H.Array.TakesBytes array inside × (result ≡ (inside + boxed) % 2 ^ 64)) }
    ensures same { handle.new ≡ handle.old }
{
    match handle.array() {
        Some(array) => array.bytes_inside().wrapping_add(boxed as u64),
        None => 0,
    }
}

/// How many bytes of memory the set takes: those of its blocks and of the box behind the handle, as they were asked
/// for, without what the allocator takes beside each. 0 for a null handle. It goes over all nodes, and asks for no
/// memory.
///
/// Of more than one key the number is tested and not proved.
#[unsafe(no_mangle)]
pub extern "C" fn sellumaq_judy1_bytes(handle: &mut Set) -> u64
    ensures null { handle.old.array ≡ None → result ≡ 0 }
    ensures few { map.len (set_of handle.old) ≤ 1 → result ≤ 40 }
    ensures same { handle.new ≡ handle.old }
{
    bytes_behind(handle, size_of::<Judy1>())
}

/// How many bytes of memory the map takes, as `sellumaq_judy1_bytes` answers of a set.
#[unsafe(no_mangle)]
pub extern "C" fn sellumaq_judyl_bytes(handle: &mut Map) -> u64
    ensures null { handle.old.array ≡ None → result ≡ 0 }
    ensures few { map.len (map_of handle.old) ≤ 1 → result ≤ 40 }
    ensures same { handle.new ≡ handle.old }
{
    bytes_behind(handle, size_of::<JudyL>())
}

/// How many bytes of memory the map takes: those of its nodes and lists, of the pages that its keys stand in, and of
/// the box behind the handle, as they were asked for, without what the allocator takes beside each block. 0 for a null
/// handle. It goes over all nodes and pages, reads no key, and asks for no memory.
///
/// The number is tested and not proved.
#[unsafe(no_mangle)]
pub extern "C" fn sellumaq_judysl_bytes(handle: &mut Strings) -> u64
    ensures null { handle.old.array ≡ None → result ≡ 0 }
    ensures same { handle.new ≡ handle.old }
{
    bytes_behind(handle, size_of::<LongStrings>())
}

/// How many bytes of memory the map takes, as `sellumaq_judysl_bytes` answers. Keys of more than 8 bytes that share
/// their length and their hash with another one stand in trees that are counted as full, so where there were such keys
/// the map may take more than the number.
#[unsafe(no_mangle)]
pub extern "C" fn sellumaq_judyhs_bytes(handle: &mut Bytes) -> u64
    ensures null { handle.old.array ≡ None → result ≡ 0 }
    ensures same { handle.new ≡ handle.old }
{
    bytes_behind(handle, size_of::<JudyHs<Eights>>())
}
