//! The leading bytes that all keys of a node share.

ghost use Rattle.std.specs.Prelude.{◌≡◌, ◌+◌, ◌≤◌, ◌∷◌, ◌++◌, length, take};
ghost use Rattle.judy_model.specs.WordBytes as bytes;

use std::marker::Model;

/// Up to seven bytes: those that a node skips, since all its keys share them. A key of eight bytes that shared
/// all of them would be the only one.
#[derive(Clone, Copy, PartialEq, Eq, Debug)]
pub struct Skip {
    bytes: [u8; 7],
    len: u8,
}

const _: () = prove!(size_of::<Skip>() == 8);

impl Model for Skip {
    ghost use Rattle.std.specs.Prelude.{ℕ, List, length, drop, ◌-◌};
    ghost use Rattle.judy_bits.specs.Paddings.{IsLed, led, led-drop, length-led};

    ghost Value = { List ℕ };

    ghost view = { λ a. drop (7 - a.len) a.bytes };

    ghost invariant = { λ a. IsLed a.bytes a.len };

    ghost inverse = { λ meant. record { bytes = led meant; len = length meant } };

    ghost inverse_ok = { λ a h. λ t.
        record { bytes = led-drop a.bytes a.len h t; len = length-led a.bytes a.len h t } };
}

impl Skip {
    /// The bytes, at most 7 of them.
    pub fn new(bytes: &[u8]) -> Skip
        requires { length bytes.now ≤ 7 }
        ensures { result ≡ bytes.now }
    {
        let mut led = [0; 7];
        led[7 - bytes.len()..].copy_from_slice(bytes);
        Skip {
            bytes: led,
            len: bytes.len() as u8,
        }
    }

    /// The bytes, the highest first.
    pub fn bytes(&self) -> &[u8]
        ensures value { result.now ≡ self.now }
        ensures within { length result.now ≤ 7 }
    {
        &self.bytes[7 - self.len as usize..]
    }

    /// How many bytes, at most 7.
    pub fn len(&self) -> usize
        ensures count { result ≡ length self.now }
        ensures within { result ≤ 7 }
    {
        self.len as usize
    }

    /// The number that the bytes spell, the first of them the highest; 0 for none.
    pub fn number(&self) -> u64
        ensures { result ≡ bytes.number_of self.now }
    {
        let [first, second, third, fourth, fifth, sixth, seventh] = self.bytes;
        let all = [
            first, second, third, fourth, fifth, sixth, seventh, self.len,
        ];
        u64::from_be_bytes(all) / 256
    }

    /// The bytes of `front`, one byte, and the bytes of `back`; at most 7 together.
    pub fn joined(front: &Skip, byte: u8, back: &Skip) -> Skip
        requires { length front.now + 1 + length back.now ≤ 7 }
        ensures { result ≡ front.now ++ byte ∷ back.now }
    {
        let at = front.len();
        let mut bytes = [0; 7];
        put_bytes(&mut bytes, 0, front.bytes());
        put_bytes(&mut bytes, at, &[byte]);
        put_bytes(&mut bytes, at + 1, back.bytes());
        Skip::new(&bytes[..at + 1 + back.len()])
    }
}

// Writes the bytes from a place on; what stands before it stays.
fn put_bytes(bytes: &mut [u8; 7], at: usize, more: &[u8])
    requires { at + length more.now ≤ 7 }
    ensures { take (at + length more.now) bytes.new ≡ take at bytes.old ++ more.now }
{
    bytes[at..at + more.len()].copy_from_slice(more);
}
