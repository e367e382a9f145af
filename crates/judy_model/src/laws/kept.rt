//! What it is to be an array and a store, and which limits are regular.

ghost use Rattle.std.specs.Prelude.{◌≡◌, ◌↔◌, ◌≤◌, ℕ, IsTrue, List, [], ◌∷◌, ◌++◌, length, codes, decimal, Some, None, Ok, true};
ghost use Rattle.std.specs.FinMap.{get};
ghost use Rattle.judy_model.specs.Keys.{IsWord, IsStringKey, IsBytesKey, word_order, byte_order};
ghost use Rattle.judy_model.specs.Arrays.{ArrayOf, ArrayValue, judy1, judyl, judysl, judyhs, IsArray, limit_of, len_of};
ghost use Rattle.judy_model.specs.Tokens.{is_name};
ghost use Rattle.judy_model.specs.Stores.{Store, IsStore, IsRegular, array_named};
ghost use Rattle.judy_model.specs.Replies.{done};
ghost use Rattle.judy_model.specs.CommandWords.{make};
ghost use Rattle.judy_model.specs.Commands.{carried_out};
ghost use Rattle.judy_model.specs.Examples.{one_array};

/// An array holds at most as many keys as its limit, a word from 1 on; each key that it holds is one of its
/// kind, and each value a word, in a judy1 array 0.
pub fn an_array_holds_keys_of_its_kind()
    ensures limit { (array : ArrayValue) → IsArray array
        → (1 ≤ limit_of array) × IsWord (limit_of array) × (len_of array ≤ limit_of array) }
    ensures set { (set : ArrayOf word_order) (key value : ℕ) → IsArray (judy1 set)
        → get set.map key ≡ Some value → IsWord key × (value ≡ 0) }
    ensures words { (array : ArrayOf word_order) (key value : ℕ) → IsArray (judyl array)
        → get array.map key ≡ Some value → IsWord key × IsWord value }
    ensures strings { (array : ArrayOf byte_order) (key : List ℕ) (value : ℕ)
        → IsArray (judysl array) → get array.map key ≡ Some value → IsStringKey key × IsWord value }
    ensures bytes { (array : ArrayOf byte_order) (key : List ℕ) (value : ℕ) → IsArray (judyhs array)
        → get array.map key ≡ Some value → IsBytesKey key × IsWord value }
{}

/// A store has at most 64 arrays, each under a name that no later one has.
pub fn a_store_has_an_array_a_name()
    ensures few { (store : Store) → IsStore store → length store ≤ 64 }
    ensures named { (store : Store) (name : List ℕ) (array : ArrayValue) → IsStore store
        → array_named store name ≡ Some array → IsTrue (is_name name) × IsArray array }
    ensures once { (front later : Store) (name : List ℕ) (array : ArrayValue)
        → IsStore (front ++ (name, array) ∷ later) → array_named later name ≡ None }
{}

/// A limit is regular exactly where a script can give it.
pub fn a_regular_limit_is_one_that_a_script_gives()
    ensures { (limit : ℕ) → 1 ≤ limit → IsWord limit →
        IsRegular (one_array limit)
        ↔ (carried_out [] make (codes "a" ∷ codes "judyl" ∷ decimal limit ∷ [])
        ≡ Ok (record { answer = done; after = one_array limit; grows = true })) }
{}
