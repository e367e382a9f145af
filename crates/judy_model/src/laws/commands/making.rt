//! What `make` does to a store: the array that it adds, and its refusals in their order.

ghost use Rattle.std.specs.Prelude.{◌≡◌, ◌<◌, ◌≤◌, ◌++◌, ℕ, nat_le, IsTrue, IsFalse, List, [], ◌∷◌, length, codes, Some, None, Ok, Err};
ghost use Rattle.judy_model.specs.Arrays.{ArrayValue};
ghost use Rattle.judy_model.specs.Lines.{Line};
ghost use Rattle.judy_model.specs.Tokens.{is_name, word_of};
ghost use Rattle.judy_model.specs.Kinds.{kind_named};
ghost use Rattle.judy_model.specs.Stores.{Store, array_named};
ghost use Rattle.judy_model.specs.Replies.{done, bad_name, wrong_kind, bad_word, bad_limit, exists, too_many_arrays};
ghost use Rattle.judy_model.specs.Steps.{step};
ghost use Rattle.judy_model.specs.CommandLaws.{Says};

/// With a new name, a kind and a limit of 1 to 4,294,967,295, or none for the greatest, `make` puts the empty array
/// last in a store of fewer than 64 arrays.
pub fn make_puts_an_empty_array_last()
    ensures limit { (store : Store) (name kind : List ℕ) (line : Line) (token : List ℕ) (limit : ℕ)
        (empty : ℕ → ArrayValue) →
        IsTrue (is_name name) → kind_named kind ≡ Some empty → word_of token ≡ Some limit →
        0 < limit → limit ≤ 4294967295 →
        array_named store name ≡ None → length store < 64 →
        Says line (codes "make" ∷ name ∷ kind ∷ token ∷ []) →
        step store line ≡ (Ok done, store ++ (name, empty limit) ∷ []) }
    ensures no_limit { (store : Store) (name kind : List ℕ) (line : Line) (empty : ℕ → ArrayValue) →
        IsTrue (is_name name) → kind_named kind ≡ Some empty → array_named store name ≡ None →
        length store < 64 →
        Says line (codes "make" ∷ name ∷ kind ∷ []) →
        step store line ≡ (Ok done, store ++ (name, empty 4294967295) ∷ []) }
{}

/// `make` is refused for a bad name before all else; then for a word that is no kind; then for a limit that is no word,
/// or that is 0 or above 4,294,967,295; then for a name that an array has; then where 64 arrays stand. The store is as
/// it was.
pub fn make_is_refused_in_order()
    ensures name { (store : Store) (name kind : List ℕ) (line : Line) (token : List ℕ) →
        IsFalse (is_name name) → Says line (codes "make" ∷ name ∷ kind ∷ token ∷ []) →
        step store line ≡ (Err bad_name, store) }
    ensures kind { (store : Store) (name kind : List ℕ) (line : Line) (token : List ℕ) →
        IsTrue (is_name name) → kind_named kind ≡ None →
        Says line (codes "make" ∷ name ∷ kind ∷ token ∷ []) →
        step store line ≡ (Err wrong_kind, store) }
    ensures word { (store : Store) (name kind : List ℕ) (line : Line) (token : List ℕ)
        (empty : ℕ → ArrayValue) →
        IsTrue (is_name name) → kind_named kind ≡ Some empty → word_of token ≡ None →
        Says line (codes "make" ∷ name ∷ kind ∷ token ∷ []) →
        step store line ≡ (Err bad_word, store) }
    ensures zero { (store : Store) (name kind : List ℕ) (line : Line) (token : List ℕ)
        (empty : ℕ → ArrayValue) →
        IsTrue (is_name name) → kind_named kind ≡ Some empty → word_of token ≡ Some 0 →
        Says line (codes "make" ∷ name ∷ kind ∷ token ∷ []) →
        step store line ≡ (Err bad_limit, store) }
    ensures limit { (store : Store) (name kind : List ℕ) (line : Line) (token : List ℕ) (limit : ℕ)
        (empty : ℕ → ArrayValue) →
        IsTrue (is_name name) → kind_named kind ≡ Some empty → word_of token ≡ Some limit →
        IsFalse (nat_le limit 4294967295) →
        Says line (codes "make" ∷ name ∷ kind ∷ token ∷ []) →
        step store line ≡ (Err bad_limit, store) }
    ensures known { (store : Store) (name kind : List ℕ) (line : Line) (token : List ℕ) (limit : ℕ)
        (empty : ℕ → ArrayValue) (array : ArrayValue) →
        IsTrue (is_name name) → kind_named kind ≡ Some empty → word_of token ≡ Some limit →
        0 < limit → limit ≤ 4294967295 →
        array_named store name ≡ Some array → Says line (codes "make" ∷ name ∷ kind ∷ token ∷ []) →
        step store line ≡ (Err exists, store) }
    ensures many { (store : Store) (name kind : List ℕ) (line : Line) (token : List ℕ) (limit : ℕ)
        (empty : ℕ → ArrayValue) →
        IsTrue (is_name name) → kind_named kind ≡ Some empty → word_of token ≡ Some limit →
        0 < limit → limit ≤ 4294967295 →
        array_named store name ≡ None → length store ≡ 64 →
        Says line (codes "make" ∷ name ∷ kind ∷ token ∷ []) →
        step store line ≡ (Err too_many_arrays, store) }
{}

/// Without a limit it is refused in the same order.
pub fn make_without_a_limit_is_refused_in_order()
    ensures name { (store : Store) (name kind : List ℕ) (line : Line) →
        IsFalse (is_name name) → Says line (codes "make" ∷ name ∷ kind ∷ []) →
        step store line ≡ (Err bad_name, store) }
    ensures kind { (store : Store) (name kind : List ℕ) (line : Line) →
        IsTrue (is_name name) → kind_named kind ≡ None →
        Says line (codes "make" ∷ name ∷ kind ∷ []) →
        step store line ≡ (Err wrong_kind, store) }
    ensures known { (store : Store) (name kind : List ℕ) (line : Line) (empty : ℕ → ArrayValue)
        (array : ArrayValue) →
        IsTrue (is_name name) → kind_named kind ≡ Some empty → array_named store name ≡ Some array →
        Says line (codes "make" ∷ name ∷ kind ∷ []) → step store line ≡ (Err exists, store) }
    ensures many { (store : Store) (name kind : List ℕ) (line : Line) (empty : ℕ → ArrayValue) →
        IsTrue (is_name name) → kind_named kind ≡ Some empty → array_named store name ≡ None →
        length store ≡ 64 →
        Says line (codes "make" ∷ name ∷ kind ∷ []) →
        step store line ≡ (Err too_many_arrays, store) }
{}
