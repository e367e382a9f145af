//! Laws of sets of bytes, for those who cite the definitions of this crate. Each is the contract of a function
//! with an empty body, so that the check proves it; no program calls these.

ghost use Rattle.std.specs.Prelude.{◌≡◌, ◌↔◌, ◌==◌, ◌-◌, ◌+◌, ◌<◌, ◌&&◌, ◌||◌, not, if◌then◌else◌, IsFalse, ℕ, List, [], length, Some};
ghost use Rattle.judy_model.specs.Keys.{word_order};
ghost use Rattle.judy_model.specs.Nearest.{IsFirst, IsLast};
ghost use Rattle.judy_bits.specs.ByteSets.{IsByteSet, has, absent, place, nth, next_from, prev_from, with_byte, without_byte};

/// Two sets with the same members are one.
pub fn a_set_is_its_members()
    ensures { (one other : List ℕ) → IsByteSet one → IsByteSet other
        → ((byte : ℕ) → has one byte ≡ has other byte) → one ≡ other }
{}

/// `place` and `nth` undo each other.
pub fn nth_undoes_place()
    ensures { (members : List ℕ) (byte at : ℕ) → IsByteSet members → (place members byte ≡ Some at)
        ↔ (nth members at ≡ Some byte) }
{}

/// `next_from` is the least member at or above a byte, and `prev_from` the greatest at or below it; none where
/// there is no such member.
pub fn nearest_members()
    ensures next { (members : List ℕ) (byte : ℕ) → IsByteSet members
        → IsFirst word_order (has members) byte (next_from members byte) }
    ensures previous { (members : List ℕ) (byte : ℕ) → IsByteSet members
        → IsLast word_order (has members) byte (prev_from members byte) }
{}

/// The empty set is a set, and a set with a byte or without it is one.
pub fn a_changed_set_is_a_set()
    ensures empty { IsByteSet [] }
    ensures added { (members : List ℕ) (byte : ℕ) → IsByteSet members → byte < 256
        → IsByteSet (with_byte members byte) }
    ensures taken { (members : List ℕ) (byte : ℕ) → IsByteSet members
        → IsByteSet (without_byte members byte) }
{}

/// A set with a byte has this and its other members; a set without it has the others.
pub fn members_after_a_change()
    ensures added { (members : List ℕ) (byte other : ℕ)
        → has (with_byte members byte) other ≡ (other == byte || has members other) }
    ensures taken { (members : List ℕ) (byte other : ℕ)
        → has (without_byte members byte) other ≡ (not (other == byte) && has members other) }
{}

/// A set with a byte has one member more where the byte was none, and without it one less where it was one.
pub fn counts_after_a_change()
    ensures added { (members : List ℕ) (byte : ℕ) → IsByteSet members
        → length (with_byte members byte)
        ≡ (if has members byte then length members else length members + 1) }
    ensures taken { (members : List ℕ) (byte : ℕ) → IsByteSet members
        → length (without_byte members byte)
        ≡ (if has members byte then length members - 1 else length members) }
{}

/// A set that grew by a byte and shrank by it is the set that never grew.
pub fn grown_and_shrunk()
    ensures { (members : List ℕ) (byte : ℕ) → IsByteSet members → byte < 256
        → IsFalse (has members byte) → without_byte (with_byte members byte) byte ≡ members }
{}

/// Of the bytes those are absent that are no members.
pub fn absent_bytes_are_no_members()
    ensures { (members : List ℕ) (byte : ℕ) → byte < 256
        → has (absent members) byte ≡ not (has members byte) }
{}
