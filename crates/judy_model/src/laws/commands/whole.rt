//! What the commands of a whole array and of the store do: `free`, `drop` and `list`.

ghost use Rattle.std.specs.Prelude.{◌≡◌, ℕ, IsTrue, List, [], ◌∷◌, codes, Some, Ok};
ghost use Rattle.judy_model.specs.Arrays.{ArrayValue, len_of, emptied};
ghost use Rattle.judy_model.specs.Lines.{Line};
ghost use Rattle.judy_model.specs.Tokens.{is_name};
ghost use Rattle.judy_model.specs.Stores.{Store, array_named, without_array};
ghost use Rattle.judy_model.specs.Replies.{freed, listed};
ghost use Rattle.judy_model.specs.Steps.{step};
ghost use Rattle.judy_model.specs.CommandLaws.{Says, Changes};

/// `free` answers how many keys the array held, and leaves it empty in its place.
pub fn free_answers_how_many_keys_there_were()
    ensures { (array : ArrayValue)
        → Changes (codes "free") [] array (freed (len_of array)) (emptied array) }
{}

/// `drop` answers how many keys the array held, and leaves the store without it.
pub fn drop_answers_how_many_keys_there_were()
    ensures { (array : ArrayValue) (store : Store) (name : List ℕ) (line : Line) →
        IsTrue (is_name name) → array_named store name ≡ Some array →
        Says line (codes "drop" ∷ name ∷ []) →
        step store line ≡ (Ok (freed (len_of array)), without_array store name) }
{}

/// `list` answers the arrays of the store, which it leaves.
pub fn list_answers_the_store()
    ensures { (store : Store) (line : Line) → Says line (codes "list" ∷ [])
        → step store line ≡ (Ok (listed store), store) }
{}
