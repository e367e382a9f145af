//! Where a byte stands first among a few, by one comparison of them all.

ghost use Rattle.std.specs.Prelude.{◌≡◌, ◌≢◌, ◌<◌, ◌≤◌, ℕ, get_or, length};

use std::simd::prelude::*;

/// The first of so many places, at most 16, that holds a byte; as many or more where none does. It takes a few
/// instructions, whatever the bytes. (This project's own.)
///
///     first_place(*b"fig\0\0\0\0\0", 0) // 3
#[inline(always)]
pub fn first_place<const N: usize>(bytes: [u8; N], byte: u8) -> usize
    requires many { length bytes ≡ N }
    requires few { N ≤ 16 }
    ensures holds { result < N → get_or bytes.entry result 0 ≡ byte }
    ensures first { (at : ℕ) → at < N → at < result → get_or bytes.entry at 0 ≢ byte }
{
    let equal = Simd::<u8, N>::from_array(bytes).simd_eq(Simd::<u8, N>::splat(byte));
    equal.to_bitmask().trailing_zeros() as usize
}
