//! Runs of `make a judyl`, an LF and `ins a 5 7` that a fault ended: the first line, of 13 bytes with its LF, was run
//! alone.

ghost use Rattle.std.specs.Prelude.{◌≡◌, [], ◌∷◌, ◌++◌, codes, true, IsTrue};
ghost use Rattle.judy_model.specs.RunEnds.{read, too_long, LeftBy};
ghost use Rattle.judy_model.specs.Examples.{one_array};
ghost use Rattle.judy_laws.specs.LineExamples.{make_and_ins};

/// The reader failed at the end of these bytes, or the script may have 13 bytes, or one more.
pub fn the_first_line_was_run_alone()
    ensures read { LeftBy [] 100 make_and_ins (IsTrue true) (codes "ok" ++ 10 ∷ [])
        (one_array 4294967295) read }
    ensures too_long { LeftBy [] 13 make_and_ins (IsTrue true) (codes "ok" ++ 10 ∷ [])
        (one_array 4294967295) too_long }
    ensures one_more { LeftBy [] 14 make_and_ins (IsTrue true) (codes "ok" ++ 10 ∷ [])
        (one_array 4294967295) too_long }
{}

/// With less than 13 bytes no line was run.
pub fn no_line_was_run()
    ensures { LeftBy [] 12 make_and_ins (IsTrue true) [] [] too_long }
{}

/// The store of before isn't what the failed reader left.
pub fn no_line_less_was_run()
    ensures { LeftBy [] 100 make_and_ins (IsTrue true) [] [] read → ⊥ }
{}
