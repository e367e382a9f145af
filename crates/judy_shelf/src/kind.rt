//! Kinds of arrays.

ghost use Rattle.std.specs.Prelude.{◌≡◌, ◌≤◌, length, Some, IfSome, option_map};
ghost use Rattle.judy_model.specs.Kinds.{kind_named};
ghost use Rattle.judy_shelf.specs.Kinds.{kind_word, empty_of_kind};

/// What kind an array is of. (The kind words are this project's own.)
#[derive(Clone, Copy, Debug, PartialEq, Eq)]
pub enum Kind {
    /// A set of words: the manual's Judy1.
    Judy1,
    /// A map from words to words: the manual's JudyL.
    JudyL,
    /// A map from byte strings without zero bytes to words, in their order: the manual's JudySL.
    JudySl,
    /// A map from byte strings to words, in no order: the manual's JudyHS.
    JudyHs,
}

impl Kind {
    /// The kind that a kind word names; none exactly where it names no kind.
    pub fn from_word(word: &[u8]) -> Option<Kind>
        ensures named { option_map empty_of_kind result ≡ kind_named word.now }
        ensures spelled { IfSome result (λ kind. word.now ≡ kind_word kind) }
    {
        // Comparisons and no patterns: the search for proofs stops at six bytes.
        if word == b"judy1".as_slice() {
            Some(Kind::Judy1)
        } else if word == b"judyl".as_slice() {
            Some(Kind::JudyL)
        } else if word == b"judysl".as_slice() {
            Some(Kind::JudySl)
        } else if word == b"judyhs".as_slice() {
            Some(Kind::JudyHs)
        } else {
            None
        }
    }

    /// The kind's word.
    pub fn word(self) -> &'static [u8]
        ensures word { result.now ≡ kind_word self }
        ensures within { length result.now ≤ 6 }
        ensures names_it { kind_named result.now ≡ Some (empty_of_kind self) }
    {
        match self {
            Kind::Judy1 => b"judy1",
            Kind::JudyL => b"judyl",
            Kind::JudySl => b"judysl",
            Kind::JudyHs => b"judyhs",
        }
    }
}
