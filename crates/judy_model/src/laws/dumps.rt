//! Dumps: the text of a store and the grammar by which bytes are read are two definitions, and each is checked
//! by the other. A store is dumped as bytes that give it again, bytes that give a store are its dump and no
//! others, and whatever has no flaw gives a store. So it is in either format.

ghost use Rattle.std.specs.Prelude.{◌≡◌, ◌≤◌, ◌↔◌, ◌⊎◌, ◌++◌, ℕ, List, length, take, None, Some};
ghost use Rattle.judy_model.specs.Keys.{IsByteString};
ghost use Rattle.judy_model.specs.Stores.{Store, IsStore, IsRegular};
ghost use Rattle.judy_model.specs.DumpText.{Version, dump_of, shared_length};
ghost use Rattle.judy_model.specs.Fields.{truncated};
ghost use Rattle.judy_model.specs.DumpGrammar.{IsDump, flaw_of};
ghost use Rattle.judy_model.specs.DumpPlaces.{EndsAtEntry};

/// Every store whose limits are those of scripts has a dump in each format that gives it again.
pub fn dump_is_in_the_grammar()
    ensures { (version : Version) (store : Store) → IsStore store → IsRegular store
        → IsDump version (dump_of version store) store }
{}

/// Bytes that give a store are its dump, byte by byte; and what they give is a store, with the limits of scripts.
pub fn grammar_gives_the_text()
    ensures text { (version : Version) (dump : List ℕ) (store : Store) → IsByteString dump
        → IsDump version dump store → dump ≡ dump_of version store }
    ensures store { (version : Version) (dump : List ℕ) (store : Store) → IsByteString dump
        → IsDump version dump store → IsStore store }
    ensures regular { (version : Version) (dump : List ℕ) (store : Store) → IsByteString dump
        → IsDump version dump store → IsRegular store }
{}

/// Bytes give one store at most, in one format, and one exactly where they have no flaw.
pub fn one_store_per_dump()
    ensures one { (one_version other_version : Version) (dump : List ℕ) (store other : Store)
        → IsDump one_version dump store → IsDump other_version dump other →
        (one_version ≡ other_version) × (store ≡ other) }
    ensures exists { (dump : List ℕ)
        → ((version : Version) × (store : Store) × IsDump version dump store)
        ↔ (flaw_of dump ≡ None) }
{}

/// Two stores with one dump are equal, and dumped in one format.
pub fn one_dump_per_store()
    ensures { (one_version other_version : Version) (store other : Store) → IsStore store
        → IsRegular store → IsStore other → IsRegular other →
        dump_of one_version store ≡ dump_of other_version other →
        (one_version ≡ other_version) × (store ≡ other) }
{}

/// What two byte strings share is a front of both, and no front of both is longer.
pub fn the_shared_front_is_the_longest()
    ensures within_left { (left right : List ℕ) → shared_length left right ≤ length left }
    ensures within_right { (left right : List ℕ) → shared_length left right ≤ length right }
    ensures shared { (left right : List ℕ)
        → take (shared_length left right) left ≡ take (shared_length left right) right }
    ensures longest { (front left right : List ℕ)
        → length front ≤ shared_length (front ++ left) (front ++ right) }
{}

/// Bytes that end behind a key count or behind an entry have no flaw, or are cut off there and have no other. So one
/// who loads a dump and wants memory at such a place has passed no flaw over.
pub fn no_flaw_before_an_entry()
    ensures { (dump : List ℕ) → EndsAtEntry dump
        → (flaw_of dump ≡ None) ⊎ (flaw_of dump ≡ Some truncated) }
{}
