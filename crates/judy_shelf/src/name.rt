//! Names of arrays: a fixed buffer, so that a name takes no memory of its own.

ghost use Rattle.std.specs.Prelude.{◌≡◌, ◌≤◌, IsTrue, length, bytes_eq};
ghost use Rattle.std.specs.List.{list_all};
ghost use Rattle.judy_model.specs.Tokens.{name_of, is_name, is_name_byte};

use arrayvec::ArrayVec;
use std::marker::Model;

// The most bytes of a name. (This project's own.)
const MAX_NAME_LEN: usize = 32;

/// The name of an array: 1 to 32 bytes, each an ASCII letter, a digit, `_` or `-`. (This project's own rule.)
#[derive(PartialEq, Eq, Hash, Drop)]
pub struct Name {
    text: ArrayVec<u8, MAX_NAME_LEN>,
}

impl Model for Name {
    ghost use Rattle.std.specs.Prelude.{List, ℕ, IsTrue};
    ghost use Rattle.judy_model.specs.Tokens.{is_name};

    ghost Value = { List ℕ };

    ghost view = { λ name. name.text.items };

    ghost invariant = { λ name. IsTrue (is_name name.text.items) };

    ghost inverse = { λ bytes. record { text = record { items = bytes } } };
}

impl Name {
    /// The name that these bytes spell; none exactly where they are no name.
    pub fn new(bytes: &[u8]) -> Option<Name>
        ensures { result ≡ name_of bytes.now }
    {
        if !is_name(bytes) {
            return None;
        }
        let mut text = ArrayVec::new();
        text.try_extend_from_slice(bytes).ok()?;
        Some(Name { text })
    }

    // Whether these bytes spell the name. One that has a single byte is compared without a call.
    #[inline(always)]
    pub(crate) fn is(&self, bytes: &[u8]) -> bool
        ensures same { result ≡ bytes_eq bytes.now self.now }
        ensures name { IsTrue result → IsTrue (is_name bytes.now) }
    {
        match (bytes, self.bytes()) {
            ([byte], [own]) => byte == own,
            (bytes, own) => bytes == own,
        }
    }

    /// The bytes that spell the name.
    pub fn bytes(&self) -> &[u8]
        ensures same { result.now ≡ self.now }
        ensures name { IsTrue (is_name self.now) }
        ensures within { length self.now ≤ 32 }
    {
        self.text.as_slice()
    }
}

// Whether the bytes are a name.
fn is_name(bytes: &[u8]) -> bool
    ensures { result ≡ is_name bytes.now }
{
    !bytes.is_empty() && bytes.len() <= MAX_NAME_LEN && are_name_bytes(bytes)
}

// Whether each byte is one of those of names.
fn are_name_bytes(bytes: &[u8]) -> bool
    ensures { result ≡ list_all is_name_byte bytes.now }
{
    bytes.iter().all(|byte| byte.is_ascii_alphanumeric() || *byte == b'_' || *byte == b'-')
}
