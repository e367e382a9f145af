//! Laws of texts as words. Each is the contract of a function with an empty body, so that the check proves it; no
//! program calls these.

ghost use Rattle.std.specs.Prelude.{◌≡◌, ℕ, List, [], ◌∷◌, length};
ghost use Rattle.judy_model.specs.Keys.{byte_order, IsByteString};
ghost use Rattle.judy_records.specs.Texts.{words_of, bytes_in, text_in, EndsWell, IsText};

/// Some texts as words: none at all, one of three bytes, and one of nine. Zero bytes at the end don't show in the
/// words, and the length tells how many there are.
pub fn some_texts_in_words()
    ensures empty { words_of [] ≡ [] }
    ensures short { words_of (97 ∷ 98 ∷ 99 ∷ []) ≡ 7017280021047803904 ∷ [] }
    ensures zeros { words_of (97 ∷ 98 ∷ 99 ∷ 0 ∷ 0 ∷ []) ≡ 7017280021047803904 ∷ [] }
    ensures back { bytes_in 3 (7017280021047803904 ∷ []) ≡ 97 ∷ 98 ∷ 99 ∷ [] }
    ensures back_with_zeros { bytes_in 5 (7017280021047803904 ∷ []) ≡ 97 ∷ 98 ∷ 99 ∷ 0 ∷ 0 ∷ [] }
    ensures back_long { bytes_in 9 (7017280452245743464 ∷ 6989586621679009792 ∷ [])
        ≡ 97 ∷ 98 ∷ 99 ∷ 100 ∷ 101 ∷ 102 ∷ 103 ∷ 104 ∷ 97 ∷ [] }
    ensures long { words_of (97 ∷ 98 ∷ 99 ∷ 100 ∷ 101 ∷ 102 ∷ 103 ∷ 104 ∷ 97 ∷ [])
        ≡ 7017280452245743464 ∷ 6989586621679009792 ∷ [] }
{}

/// Texts without a zero byte compare as their words do, and only one text has its words.
pub fn texts_compare_as_their_words()
    ensures order { (one two : List ℕ) → IsText one → IsText two
        → byte_order (words_of one) (words_of two) ≡ byte_order one two }
    ensures same { (one two : List ℕ) → IsText one → IsText two → words_of one ≡ words_of two
        → one ≡ two }
{}

/// Byte strings of one length compare as their words do, zero bytes among them too, and only one of that length has its
/// words.
pub fn byte_strings_of_one_length_compare_as_their_words()
    ensures order { (one two : List ℕ) → IsByteString one → IsByteString two
        → length one ≡ length two → byte_order (words_of one) (words_of two) ≡ byte_order one two }
    ensures same { (one two : List ℕ) → IsByteString one → IsByteString two
        → length one ≡ length two → words_of one ≡ words_of two → one ≡ two }
{}

/// A byte string is the first bytes that its words spell, as many as it has.
pub fn byte_strings_are_what_their_words_spell()
    ensures { (bytes : List ℕ) → IsByteString bytes
        → bytes_in (length bytes) (words_of bytes) ≡ bytes }
{}

/// A text without a zero byte is what its words spell but for zeros.
pub fn texts_are_what_their_words_spell()
    ensures { (text : List ℕ) → IsText text → text_in (words_of text) ≡ text }
{}

/// Of byte strings that don't end with a zero only one has its words.
pub fn byte_strings_that_end_well_differ_in_their_words()
    ensures { (one two : List ℕ) → IsByteString one → IsByteString two → EndsWell one
        → EndsWell two → words_of one ≡ words_of two → one ≡ two }
{}
