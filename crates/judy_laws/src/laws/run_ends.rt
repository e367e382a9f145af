//! Where a run is ended by a fault of its reader or by the limit of its script, exactly the whole lines that came were
//! run: each that an LF closed, and nothing behind the last LF.

ghost use Rattle.std.specs.Prelude.{◌≡◌, ◌<◌, ◌≤◌, ◌↔◌, ℕ, Bool, IsTrue, List, ◌++◌, length};
ghost use Rattle.judy_model.specs.Stores.{Store};
ghost use Rattle.judy_model.specs.Runs.{Run};
ghost use Rattle.judy_model.specs.RunEnds.{read, too_long, LeftBy};
ghost use Rattle.judy_laws.specs.WholeLines.{IsClosed, HasNoLineFeed};

/// Bytes are closed lines and a rest without an LF.
pub fn bytes_are_closed_lines_and_a_rest()
    ensures { (bytes : List ℕ) → (lines rest : List ℕ) × (bytes ≡ lines ++ rest) × IsClosed lines
        × HasNoLineFeed rest }
{}

/// A reader that failed behind closed lines and a rest left what a run of these lines leaves, and their output; it gave
/// no more bytes than a script may have.
pub fn a_failed_read_leaves_a_run_of_the_closed_lines()
    ensures { (before after : Store) (max_bytes : ℕ) (lines rest output : List ℕ) (at_end : Bool)
        → IsClosed lines → HasNoLineFeed rest →
        LeftBy before max_bytes (lines ++ rest) (IsTrue at_end) output after read
        ↔ ((length (lines ++ rest) ≤ max_bytes) × Run before lines output after) }
{}

/// Where the first `max_bytes` bytes are closed lines and a rest, a script that is too long left what a run of these
/// lines leaves, and their output; it has more bytes behind these.
pub fn a_script_that_is_too_long_leaves_a_run_of_the_closed_lines()
    ensures { (before after : Store) (max_bytes : ℕ) (lines rest more output : List ℕ)
        (at_end : Bool)
        → IsClosed lines → HasNoLineFeed rest → length (lines ++ rest) ≡ max_bytes →
        LeftBy before max_bytes ((lines ++ rest) ++ more) (IsTrue at_end) output after too_long
        ↔ ((0 < length more) × Run before lines output after) }
{}
