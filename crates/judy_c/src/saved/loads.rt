// How the array of a handle is loaded, one way for all kinds.

ghost use Rattle.std.specs.Prelude.{◌≡◌, IfOk, IfErr, is_some, if◌then◌else◌, unwrap_or};
ghost use Rattle.judy_saved.specs.Loads.{IsLoadedOf, IsRefused};
ghost use Rattle.judy_c.specs.Saved.{IsLoadedBy, number_of_fault, number_of_load};

use super::kinds::SavedArray;
use crate::answers::{BAD_DUMP, DONE, NO_MEMORY};
use crate::box_parts::BoxParts;
use crate::handles::Handle;
use judy_shelf::{LoadFault, OneFault};
use std::alloc::Global;

// Puts the array of which bytes are the dump into a handle, in place of what that held, and answers by a number. Where
// there is none, the handle is as it was, and the number of the bytes' fault is told.
pub(crate) fn load<H: Handle>(alloc: Global, handle: &mut H, bytes: &[u8], fault: &mut u32) -> u32
where
    H::Array: SavedArray,
    ensures { IsLoadedBy H.Array.kind bytes.now
        (unwrap_or (H.held_by handle.new).array H.Array.without_keys) (handle.new ≡ handle.old)
        fault.old result fault.new }
{
    match boxed_of_dump(alloc, bytes) {
        Ok(array) => {
            handle.release(alloc);
            handle.fill(array);
            DONE
        }
        Err(refusal) => refused(refusal, fault),
    }
}

// The array of which bytes are the dump, in a box.
fn boxed_of_dump<T: SavedArray>(
    alloc: Global,
    bytes: &[u8],
) -> Result<BoxParts<T, Global>, OneFault>
    ensures made { IfOk result
        (λ boxed. IsLoadedOf (λ limit. T.kind.with_limit limit boxed.value) bytes.now) }
    ensures new { IfOk result (λ boxed. T.kind.IsNew boxed.value) }
    ensures refused { IfErr result (IsRefused T.kind.number bytes.now) }
{
    let array = T::load(alloc, bytes)?;
    let Ok(boxed) = Box::new(alloc, array) else {
        return Err(OneFault::Load(LoadFault::NoMemory));
    };
    Ok(BoxParts::of(boxed))
}

// Answers by a number why no array was loaded, and tells the number of the bytes' fault where that is why.
fn refused(refusal: OneFault, fault: &mut u32) -> u32
    ensures answer { result ≡ if is_some (number_of_fault refusal) then 8 else 2 }
    ensures told { fault.new ≡ unwrap_or (number_of_fault refusal) fault.old }
{
    match number_of_fault(refusal) {
        Some(number) => {
            *fault = number;
            BAD_DUMP
        }
        None => NO_MEMORY,
    }
}

// The number of a fault.
fn number_of_fault(refusal: OneFault) -> Option<u32>
    ensures { result ≡ number_of_fault refusal }
{
    match refusal {
        OneFault::Load(fault) => number_of_load(fault),
        OneFault::NotOne => Some(13),
        OneFault::OtherKind => Some(14),
    }
}

// The number of a fault that a load of a store has too.
fn number_of_load(fault: LoadFault) -> Option<u32>
    ensures { result ≡ number_of_load fault }
{
    match fault {
        LoadFault::Truncated => Some(1),
        LoadFault::BadMagic => Some(2),
        LoadFault::TooMany => Some(3),
        LoadFault::BadName => Some(4),
        LoadFault::SameName => Some(5),
        LoadFault::BadKind => Some(6),
        LoadFault::BadLimit => Some(7),
        LoadFault::BadCount => Some(8),
        LoadFault::BadKey => Some(9),
        LoadFault::BadOrder => Some(10),
        LoadFault::Trailing => Some(11),
        LoadFault::BadPrefix => Some(12),
        LoadFault::Read | LoadFault::NoMemory => None,
    }
}
