//! The refusals that come before what a command does to its array: a word that is no command, the number of its
//! arguments, a bad name, a name that no array has.

ghost use Rattle.std.specs.Prelude.{◌≡◌, ◌≢◌, ℕ, IsFalse, nat_eq, List, [], ◌∷◌, length, codes, Some, None, Err};
ghost use Rattle.std.specs.List.{starts_with};
ghost use Rattle.judy_model.specs.Lines.{Line};
ghost use Rattle.judy_model.specs.Stores.{Store};
ghost use Rattle.judy_model.specs.CommandWords.{KeyCommand, PairCommand, on_key, on_pair, make, list, drop, free, command_named};
ghost use Rattle.judy_model.specs.Replies.{unknown_command, argument_count};
ghost use Rattle.judy_model.specs.Steps.{step};
ghost use Rattle.judy_model.specs.CommandLaws.{Says, RefusesItsArguments, RefusesABadName, RefusesAMissingArray};

/// A word that is no command, and begins no comment, is refused whatever its arguments are.
pub fn an_unknown_word_is_refused()
    ensures { (word : List ℕ) (arguments : List (List ℕ)) (store : Store) (line : Line) →
        IsFalse (starts_with nat_eq word (59 ∷ [])) → command_named word ≡ None →
        Says line (word ∷ arguments) →
        step store line ≡ (Err unknown_command, store) }
{}

/// Then a command is refused whose arguments aren't as many as it takes, whatever they say.
pub fn a_wrong_number_of_arguments_is_refused()
    ensures list { (arguments : List (List ℕ)) → length arguments ≢ 0
        → RefusesItsArguments (codes "list") arguments }
    ensures make { (arguments : List (List ℕ)) → length arguments ≢ 2 → length arguments ≢ 3
        → RefusesItsArguments (codes "make") arguments }
    ensures drop { (arguments : List (List ℕ)) → length arguments ≢ 1
        → RefusesItsArguments (codes "drop") arguments }
    ensures free { (arguments : List (List ℕ)) → length arguments ≢ 1
        → RefusesItsArguments (codes "free") arguments }
    ensures one { (which : KeyCommand) (word : List ℕ) (arguments : List (List ℕ)) →
        command_named word ≡ Some (on_key which) → length arguments ≢ 2 →
        RefusesItsArguments word arguments }
    ensures two { (which : PairCommand) (word : List ℕ) (arguments : List (List ℕ)) →
        command_named word ≡ Some (on_pair which) → length arguments ≢ 3 →
        RefusesItsArguments word arguments }
{}

/// Then one whose first argument is no name.
pub fn a_bad_name_is_refused()
    ensures drop { RefusesABadName (codes "drop") [] }
    ensures free { RefusesABadName (codes "free") [] }
    ensures one { (which : KeyCommand) (word token : List ℕ)
        → command_named word ≡ Some (on_key which) → RefusesABadName word (token ∷ []) }
    ensures two { (which : PairCommand) (word first second : List ℕ) →
        command_named word ≡ Some (on_pair which) → RefusesABadName word (first ∷ second ∷ []) }
{}

/// Then one that names no array of the store.
pub fn a_missing_array_is_refused()
    ensures drop { RefusesAMissingArray (codes "drop") [] }
    ensures free { RefusesAMissingArray (codes "free") [] }
    ensures one { (which : KeyCommand) (word token : List ℕ)
        → command_named word ≡ Some (on_key which) → RefusesAMissingArray word (token ∷ []) }
    ensures two { (which : PairCommand) (word first second : List ℕ) →
        command_named word ≡ Some (on_pair which) →
        RefusesAMissingArray word (first ∷ second ∷ []) }
{}
