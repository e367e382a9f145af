//! Laws of the pieces of keys, each the contract of a function without a body, so that the check proves it; no
//! program calls these.

ghost use Rattle.std.specs.Prelude.{◌≡◌, ℕ, List, [], ◌∷◌, codes};
ghost use Rattle.judy_model.specs.Keys.{byte_order};
ghost use Rattle.judy_sl.specs.Pieces.{pieces, spelling, ArePieces};
ghost use Rattle.judy_sl.specs.Behind.{KeysStandEntryByEntry};
ghost use Rattle.judy_sl.specs.Strings.{IsString};

/// Exactly the last piece of a key is final.
pub fn the_last_piece_is_final()
    ensures { (key : List ℕ) → IsString key → ArePieces (pieces key) }
{}

/// The pieces of a key spell it, so no two keys have the same.
pub fn pieces_spell_their_key()
    ensures { (key : List ℕ) → IsString key → spelling (pieces key) ≡ key }
{}

/// Keys compare as their pieces do, the first that differ deciding, as numbers.
pub fn keys_compare_as_their_pieces()
    ensures { (one other : List ℕ) → IsString one → IsString other
        → byte_order one other ≡ byte_order (pieces one) (pieces other) }
{}

/// The keys behind a level stand entry by entry: the bytes of a piece before what is left of each key behind it.
pub fn keys_stand_entry_by_entry()
    ensures { KeysStandEntryByEntry }
{}

/// Short keys in pieces, as a reader would work them out.
pub fn some_keys_in_pieces()
    ensures empty { pieces [] ≡ 0 ∷ [] }
    ensures three { pieces (codes "abc") ≡ 7017280021047803904 ∷ [] }
    ensures seven { pieces (codes "abcdefg") ≡ 7017280452245743360 ∷ [] }
    ensures eight { pieces (codes "abcdefgh") ≡ 7017280452245743464 ∷ 0 ∷ [] }
    ensures nine { pieces (codes "abcdefghi") ≡ 7017280452245743464 ∷ 7566047373982433280 ∷ [] }
{}
