//! Runs of a script of two lines: `make a judyl 1`, which an LF ends, and `make s judy1 2`.

ghost use Rattle.std.specs.Prelude.{◌≡◌, [], ◌∷◌, ◌++◌, codes, Ok, Err};
ghost use Rattle.judy_model.specs.Arrays.{judy1, empty_array};
ghost use Rattle.judy_model.specs.Replies.{done, no_memory};
ghost use Rattle.judy_model.specs.Remaining.{remaining_script};
ghost use Rattle.judy_model.specs.Runs.{Run, CutOff};
ghost use Rattle.judy_model.specs.Examples.{one_array, two_arrays, two_lines};

/// With memory for both arrays, and without memory for the first.
pub fn two_lines_are_run()
    ensures ample { Run [] two_lines (codes "ok" ++ 10 ∷ codes "ok" ++ 10 ∷ []) two_arrays }
    ensures short { Run [] two_lines (codes "error no-memory" ++ 10 ∷ codes "ok" ++ 10 ∷ [])
        ((codes "s", judy1 (empty_array 2)) ∷ []) }
{}

/// Without the line that there was no memory for, one line remains.
pub fn one_of_two_lines_remains()
    ensures { remaining_script two_lines (Err no_memory ∷ Ok done ∷ []) ≡ codes "make s judy1 2" }
{}

/// By a writer that fails at once, at a byte of the second answer, or after all of it.
pub fn two_lines_are_cut_off()
    ensures first { CutOff [] two_lines [] (one_array 1) }
    ensures second { CutOff [] two_lines (codes "ok" ++ 10 ∷ codes "o") two_arrays }
    ensures whole { CutOff [] two_lines (codes "ok" ++ 10 ∷ codes "ok" ++ 10 ∷ []) two_arrays }
{}
