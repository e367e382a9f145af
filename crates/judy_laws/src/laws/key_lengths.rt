//! Keys of arrays over strings with a longest key of their own.

ghost use Rattle.std.specs.Prelude.{◌≡◌, ◌≢◌, ◌<◌, ◌≤◌, ◌↔◌, ℕ, List, length, All, Contains};
ghost use Rattle.judy_model.specs.Keys.{IsByteString, IsStringKey};
ghost use Rattle.judy_model.specs.KeyLengths.{IsStringKeyTo};
ghost use Rattle.judy_model.specs.Tables.{string_keys_to};
ghost use Rattle.judy_model.specs.declared.keys.TheConstants.{LONGEST_KEY};

/// The list of all strings up to a length holds exactly the keys of arrays whose longest key is as long.
pub fn the_list_holds_all_strings_to_a_length()
    ensures { (longest : ℕ) (key : List ℕ) → Contains (string_keys_to longest) key
        ↔ IsStringKeyTo longest key }
{}

/// The keys of judysl arrays are those of at most 1,024 bytes.
pub fn judysl_keys_are_strings_to_the_longest()
    ensures { (key : List ℕ) → IsStringKey key ↔ IsStringKeyTo LONGEST_KEY key }
{}

/// Where longer keys may stand, the shorter may.
pub fn a_greater_length_admits_more()
    ensures { (shorter longer : ℕ) (key : List ℕ) → shorter ≤ longer
        → IsStringKeyTo shorter key → IsStringKeyTo longer key }
{}

/// A string is a key where keys may be as long as it, and nowhere where they must be shorter.
pub fn a_string_is_a_key_from_its_length_on()
    ensures fits { (key : List ℕ) → IsByteString key → All (λ byte. byte ≢ 0) key
        → IsStringKeyTo (length key) key }
    ensures too_long { (longest : ℕ) (key : List ℕ) → longest < length key
        → IsStringKeyTo longest key → ⊥ }
{}
