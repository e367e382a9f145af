//! One record, as it is read.

ghost use Rattle.std.specs.Prelude.{◌≡◌, ◌↔◌, ◌<◌, ◌∷◌, drop, get_or, IsTrue, length};
ghost use Rattle.judy_model.specs.Keys.{byte_order};
ghost use Rattle.judy_records.specs.Texts.{words_of};
ghost use Rattle.judy_records.specs.Spots.{held, value_of, text_of};

use crate::text;
use std::cmp::Ordering;
use std::marker::Model;

/// A record where it stands: its page is looked up once for all that is read of it. To contracts it is what stands
/// there.
#[derive(Drop)]
pub struct Record<'a> {
    words: &'a [u64],
}

impl<'a> Model for Record<'a> {
    ghost use Rattle.judy_records.specs.Spots.{Spot, held};
    ghost use Rattle.std.specs.Prelude.{◌<◌, drop, get_or, length};

    ghost Value = { Spot };

    ghost view = { λ r. held (get_or r.words.now 0 0) (drop 1 r.words.now) };

    ghost invariant = { λ r. 0 < length r.words.now };
}

impl<'a> Record<'a> {
    /// The record of these words, its value and then its text.
    pub fn new(words: &'a [u64]) -> Record<'a>
        requires { 0 < length words.now }
        ensures { result ≡ held (get_or words.now 0 0) (drop 1 words.now) }
    {
        Record { words }
    }

    /// The value.
    pub fn value(&self) -> u64
        ensures { result ≡ value_of self.now }
    {
        self.words[0]
    }

    /// The words of the text.
    pub fn text(&self) -> &'a [u64]
        ensures { result.now ≡ text_of self.now }
    {
        &self.words[1..]
    }

    /// Whether the text is that of the bytes. A loop over words.
    // Within its caller, which mostly asks for the record's value next.
    #[inline(always)]
    pub fn is_of(&self, bytes: &[u8]) -> bool
        ensures { IsTrue result ↔ text_of self.now ≡ words_of bytes.now }
    {
        text::is_of(self.text(), bytes)
    }

    /// How the text compares with that of the bytes. A loop over words.
    pub fn order(&self, bytes: &[u8]) -> Ordering
        ensures { result ≡ byte_order (text_of self.now) (words_of bytes.now) }
    {
        text::order(self.text(), bytes)
    }
}
