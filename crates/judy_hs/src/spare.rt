//! A record that can go to another place, copied meanwhile.

ghost use Rattle.std.specs.Prelude.{◌≡◌, [], IfSome};
ghost use Rattle.judy_records.specs.Texts.{bytes_in};
ghost use Rattle.judy_records.specs.Spots.{IsHeld, spot_at, text_of, value_of};
ghost use Rattle.judy_records.specs.Memory.{HasFree};
ghost use Rattle.judy_hs.specs.LongRecords.{others_at};
ghost use Rattle.judy_hs.specs.Copies.{bytes_of};

use crate::chain::Chain;
use arrayvec::ArrayVec;
use judy_records::Records;
use std::alloc::Global;
use std::collections::BTreeMap;

// How many bytes of a key are copied to the stack.
const ON_STACK: usize = 1024;

// A copy of a key: on the stack, or in memory of its own.
#[derive(Drop)]
pub enum KeyCopy {
    Stack(ArrayVec<u8, 1024>),
    Heap(Vec<u8>),
}

impl KeyCopy {
    // The bytes of the key.
    pub fn bytes(&self) -> &[u8]
        ensures { result.now ≡ bytes_of self.now }
    {
        match self {
            KeyCopy::Stack(bytes) => bytes.as_slice(),
            KeyCopy::Heap(bytes) => bytes.as_slice(),
        }
    }
}

// The first so many bytes that words spell; none where the words have more bytes than it takes. No memory is asked for.
fn copied_to_stack(words: &[u64], count: usize) -> Option<ArrayVec<u8, 1024>>
    ensures { IfSome result (λ bytes. bytes.items ≡ bytes_in count words.now) }
{
    let mut bytes = ArrayVec::new();
    for word in words {
        match bytes.try_extend_from_slice(&word.to_be_bytes()) {
            Ok(()) => {}
            Err(_) => return None,
        }
    }
    bytes.truncate(count);
    Some(bytes)
}

// The key of the record at a place: up to 1,024 bytes on the stack, and more than these in memory of their own; none
// where this may not be asked for (`heap` is none), or is wanting.
fn copied_key(
    records: &Records,
    heap: Option<Global>,
    key_length: usize,
    place: usize,
) -> Option<KeyCopy>
    requires { IsHeld (spot_at records.now place) }
    ensures { IfSome result
        (λ copy. bytes_of copy ≡ bytes_in key_length (text_of (spot_at records.now place))) }
{
    if key_length <= ON_STACK {
        let bytes = copied_to_stack(records.at(place).text(), key_length)?;
        return Some(KeyCopy::Stack(bytes));
    }
    match records.bytes(heap?, place, key_length) {
        Ok(bytes) => Some(KeyCopy::Heap(bytes)),
        Err(_) => None,
    }
}

// The value and the key of a record that can go to the next place without asking for memory there, from a page with a
// free place that isn't filled next. One beside which others stand can't, since their chain would have to be put in
// anew; nor can one of which there is no copy.
pub fn copy_of_spare(
    records: &Records,
    chains: &BTreeMap<usize, Chain>,
    heap: Option<Global>,
    key_length: usize,
    place: usize,
) -> Option<(u64, KeyCopy)>
    requires { IsHeld (spot_at records.now place) }
    ensures room { IfSome result (λ copy. HasFree records.now) }
    ensures alone { IfSome result (λ copy. others_at chains.now place ≡ []) }
    ensures value { IfSome result (λ copy. copy.0 ≡ value_of (spot_at records.now place)) }
    ensures key { IfSome result
        (λ copy. bytes_of copy.1 ≡ bytes_in key_length (text_of (spot_at records.now place))) }
{
    if !records.is_spare(place) {
        return None;
    }
    match chains.get(&place) {
        Some(_) => None,
        None => {
            let key = copied_key(records, heap, key_length, place)?;
            Some((records.value(place), key))
        }
    }
}
