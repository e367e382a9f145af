//! A word and its bytes. The tree goes down a key by these, the pieces of a string key are words by these, and
//! so are the numbers of the formats.

ghost use Rattle.std.specs.Prelude.{◌≡◌, ◌+◌, ◌-◌, ◌*◌, ◌%◌, ◌^◌, ◌<◌, ℕ, List, length, Some, slice_get};
ghost use Rattle.std.specs.Int.{w64, to_be_bytes};
ghost use Rattle.judy_model.specs.Keys.{IsWord, IsByteString, word_order, byte_order};
ghost use Rattle.judy_model.specs.WordBytes.{byte_of, low_bytes, number_of};

/// A word is its eight bytes: `byte_of` gives each of them, they spell the word, and they are what
/// `to_be_bytes` gives.
pub fn a_word_is_its_bytes()
    ensures each { (word i : ℕ) → i < 8 → slice_get (low_bytes 8 word) i ≡ Some (byte_of word i) }
    ensures spelled { (word : ℕ) → IsWord word → number_of (low_bytes 8 word) ≡ word }
    ensures big_endian { (word : ℕ) → to_be_bytes w64 word ≡ low_bytes 8 word }
{}

/// Bytes spell a number that has no more bytes than they are, and its bytes are these.
pub fn bytes_spell_one_number()
    ensures fits { (bytes : List ℕ) → IsByteString bytes → number_of bytes < 256 ^ length bytes }
    ensures bytes { (bytes : List ℕ) → IsByteString bytes
        → low_bytes (length bytes) (number_of bytes) ≡ bytes }
{}

/// Words compare as their bytes do, the highest first; and so do the numbers of any one width.
pub fn words_compare_as_their_bytes()
    ensures words { (left right : ℕ) → IsWord left → IsWord right
        → word_order left right ≡ byte_order (low_bytes 8 left) (low_bytes 8 right) }
    ensures numbers { (width left right : ℕ) → left < 256 ^ width → right < 256 ^ width
        → word_order left right ≡ byte_order (low_bytes width left) (low_bytes width right) }
{}

/// The bytes below a place, `width` of them, spell a word below 256^width: the rest of the word there. The
/// byte at the place and that rest are the rest that is one byte longer.
pub fn bytes_below_a_place()
    ensures spelled { (word width : ℕ) → number_of (low_bytes width word) ≡ word % 256 ^ width }
    ensures below { (word width : ℕ) → word % 256 ^ width < 256 ^ width }
    ensures one_more { (word width : ℕ) → width < 8
        → word % 256 ^ (width + 1) ≡ byte_of word (7 - width) * 256 ^ width + word % 256 ^ width }
{}
