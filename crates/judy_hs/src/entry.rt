//! The entries of an array, as a list of them has them.

ghost use Rattle.std.specs.Prelude.{◌≡◌, ◌≤◌, length, take, drop};
ghost use Rattle.std.specs.List.Sorted.{IsPermutation, IsSortedBy};
ghost use Rattle.judy_model.specs.WordBytes.{low_bytes};
ghost use Rattle.judy_hs.specs.Listed.{key_bytes, is_before};

use arrayvec::ArrayVec;

/// A key in a list of entries: a copy, or the array's own where others share its hash.
#[derive(Drop)]
pub enum HsKey<'a> {
    /// A key of at most 8 bytes.
    Short(ArrayVec<u8, 8>),
    /// A longer key.
    Copied(Vec<u8>),
    /// A longer key that the array has as bytes.
    Long(&'a [u8]),
}

impl<'a> HsKey<'a> {
    /// The bytes of the key.
    pub fn bytes(&self) -> &[u8]
        ensures { result.now ≡ key_bytes self.now }
    {
        match self {
            HsKey::Short(bytes) => bytes.as_slice(),
            HsKey::Copied(bytes) => bytes.as_slice(),
            HsKey::Long(bytes) => bytes,
        }
    }
}

/// A key and its value.
#[derive(Drop)]
pub struct HsEntry<'a> {
    /// The key.
    pub key: HsKey<'a>,
    /// Its value.
    pub value: u64,
}

// The key of so many bytes that a word spells.
pub fn short_key<'a>(word: u64, key_length: usize) -> HsKey<'a>
    requires { key_length ≤ 8 }
    ensures { key_bytes result ≡ low_bytes key_length word }
{
    match ArrayVec::try_from(&word.to_be_bytes()[8 - key_length..]) {
        Ok(bytes) => HsKey::Short(bytes),
        Err(_) => unreachable!(),
    }
}

// Sorts the entries of a list from a place on by the bytes of their keys.
pub fn sort_from(list: &mut [HsEntry<'_>], start: usize)
    requires { start ≤ length list.old }
    ensures front { take start list.new ≡ take start list.old }
    ensures permutation { IsPermutation (drop start list.old) (drop start list.new) }
    ensures sorted { IsSortedBy is_before (drop start list.new) }
    ensures len { length list.new ≡ length list.old }
{
    sort(&mut list[start..]);
}

// Sorts entries by the bytes of their keys.
fn sort(entries: &mut [HsEntry<'_>])
    ensures permutation { IsPermutation entries.old entries.new }
    ensures len { length entries.new ≡ length entries.old }
    ensures sorted { IsSortedBy is_before entries.new }
{
    entries.sort_unstable_by(|one, other| one.key.bytes().cmp(other.key.bytes()));
}
