//! What the ends of a run over a reader leave.

ghost use Rattle.std.specs.Prelude.{◌≡◌, ◌<◌, ◌≤◌, ℕ, Bool, IsTrue, List, length, take};
ghost use Rattle.judy_model.specs.Stores.{Store};
ghost use Rattle.judy_model.specs.Runs.{Run};
ghost use Rattle.judy_model.specs.CutRuns.{Begins};
ghost use Rattle.judy_model.specs.RunEnds.{Fault, read, too_long, RanToEnd, LeftBy};

/// Whatever fault ends a run, what it put out begins the output of a run of the bytes that the reader gave, of
/// the first `max_bytes` of them where it gave more.
pub fn what_a_fault_leaves_begins_a_run()
    ensures { (before after : Store) (max_bytes : ℕ) (given output : List ℕ) (at_end : Bool)
        (fault : Fault) → LeftBy before max_bytes given (IsTrue at_end) output after fault →
        (whole : List ℕ) × (last : Store) × Run before (take max_bytes given) whole last
        × Begins output whole }
{}

/// A run is done only where the reader came to its end within `max_bytes` bytes, and its script is too long
/// only where the reader gave more.
pub fn a_script_is_too_long_where_more_is_given()
    ensures done { (before after : Store) (max_bytes : ℕ) (given output : List ℕ) (at_end : Bool)
        → RanToEnd before max_bytes given (IsTrue at_end) output after →
        (length given ≤ max_bytes) × IsTrue at_end × Run before given output after }
    ensures read { (before after : Store) (max_bytes : ℕ) (given output : List ℕ) (at_end : Bool)
        → LeftBy before max_bytes given (IsTrue at_end) output after read
        → length given ≤ max_bytes }
    ensures too_long { (before after : Store) (max_bytes : ℕ) (given output : List ℕ)
        (at_end : Bool) → LeftBy before max_bytes given (IsTrue at_end) output after too_long
        → max_bytes < length given }
{}
