//! Which byte strings are keys, and these as key tokens say them and as they are printed.

ghost use Rattle.std.specs.Prelude.{◌≡◌, ◌↔◌, ℕ, ◌<◌, ◌≤◌, List, [], ◌∷◌, length, Some, IfSome};
ghost use Rattle.judy_model.specs.Keys.{IsByteString, IsBytesKey, IsStringKey};
ghost use Rattle.judy_model.specs.KeyLengths.{IsBytesKeyTo};
ghost use Rattle.judy_model.specs.declared.keys.TheConstants.{LONGEST_KEY};
ghost use Rattle.judy_model.specs.Tokens.{tokens_of};
ghost use Rattle.judy_model.specs.KeyTokens.{key_of, bytes_key_of, string_key_of, printed_key};

/// A byte string is a key wherever keys may be as long as it is or longer, and nowhere else; in a judyhs array they may
/// have 1,024 bytes.
pub fn a_byte_string_is_a_key_where_keys_may_be_as_long()
    ensures as_long { (key : List ℕ) → IsByteString key → IsBytesKeyTo (length key) key }
    ensures longer { (longest more : ℕ) (key : List ℕ) → longest ≤ more → IsBytesKeyTo longest key
        → IsBytesKeyTo more key }
    ensures judyhs { (key : List ℕ) → IsBytesKey key ↔ IsBytesKeyTo LONGEST_KEY key }
    ensures shorter { (longest : ℕ) (key : List ℕ) → longest < length key → IsBytesKeyTo longest key
        → ⊥ }
{}

/// A key token says a byte string, and one that is a key of the kind, where the kind has such a key.
pub fn a_key_token_says_a_key()
    ensures string { (token : List ℕ) → IfSome (key_of token) IsByteString }
    ensures bytes_key { (token : List ℕ) → IfSome (bytes_key_of token) IsBytesKey }
    ensures string_key { (token : List ℕ) → IfSome (string_key_of token) IsStringKey }
{}

/// No token says two keys, and no two keys are printed alike.
pub fn a_key_token_says_one_key()
    ensures said { (token key other : List ℕ) → key_of token ≡ Some key → key_of token ≡ Some other
        → key ≡ other }
    ensures printed { (key other : List ℕ) → IsByteString key → IsByteString other
        → printed_key key ≡ printed_key other → key ≡ other }
{}

/// A key, as it is printed, is one token of a line, and that token says the key.
pub fn a_printed_key_is_read_back()
    ensures token { (key : List ℕ) → tokens_of (printed_key key) ≡ printed_key key ∷ [] }
    ensures string { (key : List ℕ) → IsByteString key → key_of (printed_key key) ≡ Some key }
    ensures bytes_key { (key : List ℕ) → IsBytesKey key
        → bytes_key_of (printed_key key) ≡ Some key }
    ensures string_key { (key : List ℕ) → IsStringKey key
        → string_key_of (printed_key key) ≡ Some key }
{}
