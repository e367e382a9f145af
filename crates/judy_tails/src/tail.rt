//! One tail, as it is read.

ghost use Rattle.std.specs.Prelude.{ℕ, List, ◌≡◌, ◌≢◌, ◌↔◌, ◌+◌, ◌++◌, ◌-◌, ◌%◌, ◌≤◌, [], ◌∷◌, IsTrue, length, slice_get, Some};
ghost use Rattle.judy_model.specs.Keys.{byte_order};
ghost use Rattle.judy_records.specs.Spots.{value_of, text_of};
ghost use Rattle.judy_records.specs.Texts.{IsText, text_in, words_of};
ghost use Rattle.judy_model.specs.declared.keys.TheConstants.{LONGEST_STRING};
ghost use Rattle.judy_tails.specs.Inside.{IsPadded, BeginsText};
ghost use Rattle.judy_tails.specs.Writers.{StaysBeyond};

use crate::writer::KeyWriter;
use judy_records::Record;
use std::cmp::Ordering;
use std::marker::Model;

/// A tail where it stands. To contracts it is the pair of its text and its value.
#[derive(Drop)]
pub struct Tail<'a> {
    stored: Record<'a>,
}

impl<'a> Model for Tail<'a> {
    ghost use Rattle.std.specs.Prelude.{ℕ, List};

    ghost Value = { List ℕ × ℕ };

    ghost use Rattle.judy_records.specs.Spots.{value_of, text_of};
    ghost use Rattle.judy_records.specs.Texts.{text_in};
    ghost use Rattle.judy_tails.specs.Inside.{IsPadded};

    ghost view = { λ t. (text_in (text_of t.stored), value_of t.stored) };

    ghost invariant = { λ t. IsPadded t.stored };
}

impl<'a> Tail<'a> {
    // The tail of a record.
    pub(crate) fn new(stored: Record<'a>) -> Tail<'a>
        requires { IsPadded stored }
        ensures { result ≡ (text_in (text_of stored.entry), value_of stored.entry) }
    {
        Tail { stored }
    }

    /// The value.
    pub fn value(&self) -> u64
        ensures { result ≡ self.now.1 }
    {
        self.stored.value()
    }

    /// The words of the text: its bytes, eight a word, where zeros stand behind the last of them.
    pub fn words(&self) -> &'a [u64]
        ensures { result.now ≡ words_of self.now.0 }
    {
        self.stored.text()
    }

    /// Whether the text is these bytes, of which the last isn't zero. A loop over words.
    #[inline(always)]
    pub fn is(&self, bytes: &[u8]) -> bool
        requires { slice_get bytes.now (length bytes.now - 1) ≢ Some 0 }
        ensures { IsTrue result ↔ self.now.0 ≡ bytes.now }
    {
        self.stored.is_of(bytes)
    }

    /// How the text compares with another one. A loop over words.
    pub fn order(&self, text: &[u8]) -> Ordering
        requires { IsText text.now }
        ensures { result ≡ byte_order self.now.0 text.now }
    {
        self.stored.order(text)
    }

    /// Puts the text behind what is written of a key. A loop over words.
    pub fn push_to<K: KeyWriter>(&self, key: &mut K)
        requires { K.len key.old + length self.now.0 ≤ LONGEST_STRING }
        ensures len { K.len key.new ≡ K.len key.old + length self.now.0 }
        ensures has { (front : List ℕ) → K.has key.old front → K.has key.new (front ++ self.now.0) }
        ensures beyond { StaysBeyond K.len K.beyond key.old key.new }
    {
        for word in self.stored.text() {
            push_bytes(key, *word);
        }
    }
}

// Puts the bytes of a text's word behind those of the key, up to its first zero: all eight where the last one isn't,
// since a text's zeros stand at its end, and else as many as stand before the lowest bit that is set.
fn push_bytes<K: KeyWriter>(key: &mut K, word: u64)
    requires room { K.len key.old + length (text_in (word ∷ [])) ≤ LONGEST_STRING }
    requires full { word % 256 ≢ 0 → length (text_in (word ∷ [])) ≡ 8 }
    requires begins { BeginsText word }
    ensures len { K.len key.new ≡ K.len key.old + length (text_in (word ∷ [])) }
    ensures has { (front : List ℕ)
        → K.has key.old front → K.has key.new (front ++ text_in (word ∷ [])) }
    ensures beyond { StaysBeyond K.len K.beyond key.old key.new }
{
    let bytes = word.to_be_bytes();
    if word % 256 != 0 {
        key.put_eight(&bytes);
    } else {
        key.put_first(&bytes, 8 - word.trailing_zeros() as usize / 8);
    }
}
