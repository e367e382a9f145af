//! Whether bytes have a zero among them, many at once.

ghost use Rattle.std.specs.Prelude.{◌≡◌, ◌==◌, ◌*◌, ◌/◌, ◌<◌, not, length, take};
ghost use Rattle.std.specs.List.{list_all};

use std::simd::prelude::*;

/// Whether no byte is zero. Sixteen are tested at once, and the last sixteen of all, some of which may have been tested
/// before. So there is no step for each byte, but for fewer than eight.
pub fn are_nonzero(bytes: &[u8]) -> bool
    ensures { result ≡ list_all (λ byte. not (byte == 0)) bytes.now }
{
    match bytes.last_chunk::<16>() {
        Some(last) => are_sixteens(bytes) & are_sixteen(last),
        None => are_fewer(bytes),
    }
}

// The same of the whole sixteens with which bytes begin.
fn are_sixteens(bytes: &[u8]) -> bool
    ensures { result
        ≡ list_all (λ byte. not (byte == 0)) (take (16 * (length bytes.now / 16)) bytes.now) }
{
    let (chunks, _) = bytes.as_chunks::<16>();
    let mut are = true;
    for i in 0..chunks.len() {
        are &= are_sixteen(&chunks[i]);
    }
    are
}

// The same of sixteen bytes.
fn are_sixteen(bytes: &[u8; 16]) -> bool
    ensures { result ≡ list_all (λ byte. not (byte == 0)) bytes.now }
{
    u8x16::from_array(*bytes)
        .simd_eq(u8x16::splat(0))
        .to_bitmask()
        == 0
}

// The same of fewer than sixteen: the first eight and the last eight.
fn are_fewer(bytes: &[u8]) -> bool
    requires { length bytes.now < 16 }
    ensures { result ≡ list_all (λ byte. not (byte == 0)) bytes.now }
{
    let Some(last) = bytes.last_chunk::<8>() else {
        return are_each(bytes);
    };
    let Some(first) = bytes.first_chunk::<8>() else {
        unreachable!()
    };
    are_eight(first) & are_eight(last)
}

// The same of eight bytes.
pub fn are_eight(bytes: &[u8; 8]) -> bool
    ensures { result ≡ list_all (λ byte. not (byte == 0)) bytes.now }
{
    u8x8::from_array(*bytes)
        .simd_eq(u8x8::splat(0))
        .to_bitmask()
        == 0
}

// The same byte by byte. It leaves at no byte.
fn are_each(bytes: &[u8]) -> bool
    ensures { result ≡ list_all (λ byte. not (byte == 0)) bytes.now }
{
    let mut are = true;
    for byte in bytes {
        are &= *byte != 0;
    }
    are
}
