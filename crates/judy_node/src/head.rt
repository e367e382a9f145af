//! The seven bytes that stand beside a node's word.

ghost use Rattle.std.specs.Prelude.{◌≡◌, ◌+◌, ◌*◌, ◌%◌, ◌^◌, ◌<◌};

use std::marker::Model;

/// Seven bytes, as one number below 2^56.
#[derive(Drop)]
pub struct Head {
    low: [u8; 4],
    middle: [u8; 2],
    high: u8,
}

const _: () = prove!(size_of::<Head>() == 7);

impl Model for Head {
    ghost use Rattle.std.specs.Prelude.{ℕ, ◌+◌, ◌*◌};
    ghost use Rattle.std.specs.Coded.{coded_ℕ};
    ghost use Rattle.std.specs.Int.{from_le_bytes, w16, w32};

    ghost Value = { ℕ };

    ghost coded = { coded_ℕ };

    ghost view = { λ h. from_le_bytes w32 h.low + 4294967296 *
        (from_le_bytes w16 h.middle + 65536 * h.high) };
}

// One byte of a key in the head of an immediate whose keys have no values. What is below is the number of its keys.
const BYTE: u64 = 256;

/// How many keys such a head tells, by its number.
#[inline(always)]
pub(crate) fn keys_told(head: u64) -> u64
    ensures { result ≡ head % 256 }
{
    head % BYTE
}

impl Head {
    /// The head of an immediate of `count` keys of `width` bytes that have no values.
    #[inline(always)]
    pub fn of_keys(count: u64, width: u8) -> Head
        requires { count < 256 }
        ensures { result ≡ count + 256 * width }
    {
        Head::new(count + BYTE * u64::from(width))
    }

    /// The bytes of a number below 2^56.
    pub fn new(n: u64) -> Head
        requires { n < 2 ^ 56 }
        ensures { result ≡ n }
    {
        Head {
            low: ((n % 4_294_967_296) as u32).to_le_bytes(),
            middle: ((n / 4_294_967_296 % 65_536) as u16).to_le_bytes(),
            high: (n / 281_474_976_710_656) as u8,
        }
    }

    /// The number.
    pub fn number(&self) -> u64
        ensures value { result ≡ self.now }
        ensures within { result < 2 ^ 56 }
    {
        let high = u64::from(u16::from_le_bytes(self.middle)) + 65_536 * u64::from(self.high);
        u64::from(u32::from_le_bytes(self.low)) + 4_294_967_296 * high
    }
}
