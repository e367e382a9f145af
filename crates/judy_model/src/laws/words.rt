//! Words as they are read and printed.

ghost use Rattle.std.specs.Prelude.{◌≡◌, ℕ, List, decimal, Some, IfSome};
ghost use Rattle.judy_model.specs.Keys.{IsWord};
ghost use Rattle.judy_model.specs.Tokens.{word_of};

/// A word token says a word, and each word, as it is printed, is a token that says it.
pub fn a_printed_word_is_read_back()
    ensures words { (token : List ℕ) → IfSome (word_of token) IsWord }
    ensures printed { (word : ℕ) → IsWord word → word_of (decimal word) ≡ Some word }
{}
