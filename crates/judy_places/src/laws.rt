//! Laws of free places. Each is the contract of a function with an empty body, so that the check proves it; no
//! program calls these.

ghost use Rattle.std.specs.Prelude.{◌≡◌, ◌<◌, ◌≤◌, ◌⊎◌, ℕ, length, get_or, set, None, Some};
ghost use Rattle.judy_places.specs.Places.{Links, AllTaken, AreLinked, NoneLost, free_places, taken_places, IsPlaceTaken, AreReused, AreFreed};

/// Where no free place is lost, they are linked in turn, each once: as many as are free.
pub fn each_free_place_is_linked_once()
    ensures { (count : ℕ) (links : Links) (first : ℕ) → AreLinked count links first
        → count ≡ free_places links }
{}

/// To take the first free place, or one at the end where none is free, loses none.
pub fn a_taken_place_loses_none()
    ensures { (before : Links) (first : ℕ) (after : Links) (next : ℕ)
        → IsPlaceTaken before first after next → AreReused before first after next }
{}

/// A taken place that becomes the first free one, linked to the one before, loses none.
pub fn a_freed_place_loses_none()
    ensures { (before : Links) (first at : ℕ) → at < length before → get_or before at None ≡ None
        → AreFreed before first (set before at (Some first)) at }
{}

/// So a list is never longer than the most places that were taken at once: it stays within a bound as long as no more
/// than that are taken.
pub fn no_list_outgrows_its_most()
    ensures reused { (before : Links) (first : ℕ) (after : Links) (next most : ℕ)
        → NoneLost before first → AreReused before first after next → length before ≤ most
        → taken_places after ≤ most → length after ≤ most }
    ensures freed { (before : Links) (first : ℕ) (after : Links) (next most : ℕ)
        → AreFreed before first after next → length before ≤ most → length after ≤ most }
{}
