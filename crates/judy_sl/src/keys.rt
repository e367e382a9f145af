//! Keys: strings of bytes without zeros, and how long they may be.

ghost use Rattle.std.specs.Prelude.{◌≤◌, ◌↔◌, ℕ, List, IsTrue};
ghost use Rattle.judy_model.specs.Keys.{IsStringKey};
ghost use Rattle.judy_model.specs.KeyLengths.{IsStringKeyTo};
ghost use Rattle.judy_model.specs.declared.keys.TheConstants.{LONGEST_KEY, LONGEST_STRING};
ghost use Rattle.judy_sl.specs.Strings.{IsString};
ghost use Rattle.judy_sl.specs.KeyLengths.{store_longest, any_longest, store_string, store_key, any_string};

use crate::zeros::are_nonzero;
use arrayvec::ArrayVec;
use judy_model::keys::{LONGEST_KEY, LONGEST_STRING};

/// A buffer that a key of a store fits, for the scans.
pub type KeyBuf = ArrayVec<u8, LONGEST_KEY>;

/// How long the keys of an array may be: strings of bytes without zeros, of which each that is short enough is a key.
/// (No zero byte: the manual's C strings.)
pub trait KeyLength {
    /// The most bytes of a key. (This project's own.)
    const LONGEST: usize;

    ghost LONGEST: { ℕ };

    /// It is a key.
    ghost IsKey: { List ℕ → Type 0 };

    /// No key is longer than a slice may be.
    ghost in_memory: { LONGEST ≤ LONGEST_STRING };

    /// A key is such a string.
    ghost string_of: { (key : List ℕ) → IsKey key → IsStringKeyTo LONGEST key };

    /// Each such string is a key.
    ghost key_of: { (key : List ℕ) → IsStringKeyTo LONGEST key → IsKey key };
}

/// The keys of a store: at most 1,024 bytes. (This project's own.)
pub struct StoreKeys;

impl KeyLength for StoreKeys {
    const LONGEST: usize = LONGEST_KEY;

    ghost LONGEST = { LONGEST_KEY };

    ghost IsKey = { IsStringKey };

    ghost in_memory = { store_longest };

    ghost string_of = { store_string };

    ghost key_of = { store_key };
}

/// Keys of any length: at most 9,223,372,036,854,775,807 bytes, as many as memory that is lent may have.
pub struct AnyLength;

impl KeyLength for AnyLength {
    const LONGEST: usize = LONGEST_STRING;

    ghost LONGEST = { LONGEST_STRING };

    ghost IsKey = { IsString };

    ghost in_memory = { any_longest };

    ghost string_of = { any_string };

    ghost key_of = { any_string };
}

// Whether the bytes are a key of an array with such keys.
pub fn is_key_of<L: KeyLength>(bytes: &[u8]) -> bool
    ensures { IsTrue result ↔ L.IsKey bytes.now }
{
    bytes.len() <= L::LONGEST && are_nonzero(bytes)
}

/// Whether the bytes are a key of a store: at most 1,024, none of them zero. (No zero byte: the manual's C strings; the
/// limit is this project's own.)
pub fn is_key(bytes: &[u8]) -> bool
    ensures { IsTrue result ↔ IsStringKey bytes.now }
{
    is_key_of::<StoreKeys>(bytes)
}
