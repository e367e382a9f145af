//! What the lists of all keys hold, and what the table of a function answers.

ghost use Rattle.std.specs.Prelude.{◌≡◌, ◌↔◌, ℕ, List, Option, None, Contains};
ghost use Rattle.std.specs.FinMap.{get};
ghost use Rattle.judy_model.specs.Keys.{IsStringKey};
ghost use Rattle.judy_model.specs.KeyLengths.{IsBytesKeyTo};
ghost use Rattle.judy_model.specs.Tables.{bytes_keys, string_keys, table};

/// The lists of all keys hold the keys of arrays over byte strings, whatever length is the longest, and of judysl
/// arrays, and nothing else.
pub fn the_lists_hold_all_keys()
    ensures bytes { (longest : ℕ) (key : List ℕ) → Contains (bytes_keys longest) key
        ↔ IsBytesKeyTo longest key }
    ensures strings { (key : List ℕ) → Contains string_keys key ↔ IsStringKey key }
{}

/// A table answers as its function does at the keys listed, and none at every other.
pub fn a_table_answers_as_its_function()
    ensures listed { (keys : List (List ℕ)) (answer : List ℕ → Option ℕ) (key : List ℕ)
        → Contains keys key → get (table keys answer) key ≡ answer key }
    ensures others { (keys : List (List ℕ)) (answer : List ℕ → Option ℕ) (key : List ℕ)
        → (Contains keys key → ⊥) → get (table keys answer) key ≡ None }
{}
