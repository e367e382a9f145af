//! What the commands of a judy1 array do to it: `set`, `unset` and `test`.

ghost use Rattle.std.specs.Prelude.{◌≡◌, ◌<◌, ℕ, true, false, List, [], ◌∷◌, codes, Some, None};
ghost use Rattle.std.specs.FinMap.{get, len};
ghost use Rattle.judy_model.specs.Keys.{word_order};
ghost use Rattle.judy_model.specs.Arrays.{ArrayOf, judy1, with_map, ins};
ghost use Rattle.judy_model.specs.Tokens.{word_of};
ghost use Rattle.judy_model.specs.Replies.{flag, full};
ghost use Rattle.judy_model.specs.CommandLaws.{Answers, Changes, IsRefused, TakesOutAPresentKey, LeavesAnAbsentKey};

/// `set` answers 0 and changes nothing at a key that is there, however full the set is; at another it answers 1 and
/// puts the key in, and where the set holds as many keys as its limit it is refused.
pub fn set_puts_in_an_absent_key()
    ensures present { (set : ArrayOf word_order) (token : List ℕ) (key value : ℕ) →
        word_of token ≡ Some key → get set.map key ≡ Some value →
        Answers (codes "set") (token ∷ []) (judy1 set) (flag false) }
    ensures absent { (set : ArrayOf word_order) (token : List ℕ) (key : ℕ) →
        word_of token ≡ Some key → get set.map key ≡ None → len set.map < set.limit →
        Changes (codes "set") (token ∷ []) (judy1 set) (flag true)
        (judy1 (with_map set (ins set.map key))) }
    ensures at_limit { (set : ArrayOf word_order) (token : List ℕ) (key : ℕ) →
        word_of token ≡ Some key → get set.map key ≡ None → len set.map ≡ set.limit →
        IsRefused (codes "set") (token ∷ []) (judy1 set) full }
{}

/// `unset` answers 1 and takes the key out where it is there, and else answers 0 and changes nothing.
pub fn unset_takes_out_a_present_key()
    ensures present { TakesOutAPresentKey judy1 word_of (codes "unset") }
    ensures absent { LeavesAnAbsentKey judy1 word_of (codes "unset") }
{}

/// `test` answers 1 where the key is there, and else 0.
pub fn test_answers_whether_a_key_is_there()
    ensures present { (set : ArrayOf word_order) (token : List ℕ) (key value : ℕ) →
        word_of token ≡ Some key → get set.map key ≡ Some value →
        Answers (codes "test") (token ∷ []) (judy1 set) (flag true) }
    ensures absent { (set : ArrayOf word_order) (token : List ℕ) (key : ℕ) →
        word_of token ≡ Some key → get set.map key ≡ None →
        Answers (codes "test") (token ∷ []) (judy1 set) (flag false) }
{}
