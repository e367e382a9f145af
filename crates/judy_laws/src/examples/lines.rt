//! Lines of 4,096 bytes, which fit, and of 4,097, which don't: of letters, of spaces, a comment, with a CR, and a last
//! line.

ghost use Rattle.std.specs.Prelude.{◌≡◌, [], ◌∷◌, ◌++◌, codes, true, false, Ok, Err};
ghost use Rattle.judy_model.specs.Lines.{is_too_long};
ghost use Rattle.judy_model.specs.Replies.{silent, line_too_long, unknown_command};
ghost use Rattle.judy_model.specs.Steps.{step};
ghost use Rattle.judy_model.specs.AmpleRuns.{ample_output, store_after};
ghost use Rattle.judy_model.specs.Examples.{line, one_array};
ghost use Rattle.judy_laws.specs.LineExamples.{last_line, letters, comment, spaces};

/// Lines that an LF ended.
pub fn an_ended_line_has_4096_bytes_at_most()
    ensures fits { step (one_array 1) (line (letters 4096)) ≡ (Err unknown_command, one_array 1) }
    ensures letters { step (one_array 1) (line (letters 4097)) ≡ (Err line_too_long, one_array 1) }
    ensures comment_fits { step (one_array 1) (line (comment 4096)) ≡ (Ok silent, one_array 1) }
    ensures comment { step (one_array 1) (line (comment 4097)) ≡ (Err line_too_long, one_array 1) }
    ensures blank_fits { step (one_array 1) (line (spaces 4096)) ≡ (Ok silent, one_array 1) }
    ensures blank { step (one_array 1) (line (spaces 4097)) ≡ (Err line_too_long, one_array 1) }
    ensures cr_fits { step (one_array 1) (line (letters 4095 ++ 13 ∷ []))
        ≡ (Err unknown_command, one_array 1) }
    ensures cr { step (one_array 1) (line (letters 4096 ++ 13 ∷ []))
        ≡ (Err line_too_long, one_array 1) }
{}

/// A last line, which the script's end closes.
pub fn a_last_line_has_4096_bytes_at_most()
    ensures within { is_too_long (last_line (letters 4096)) ≡ false }
    ensures beyond { is_too_long (last_line (letters 4097)) ≡ true }
    ensures fits { step (one_array 1) (last_line (letters 4096))
        ≡ (Err unknown_command, one_array 1) }
    ensures letters { step (one_array 1) (last_line (letters 4097))
        ≡ (Err line_too_long, one_array 1) }
    ensures comment_fits { step (one_array 1) (last_line (comment 4096))
        ≡ (Ok silent, one_array 1) }
    ensures comment { step (one_array 1) (last_line (comment 4097))
        ≡ (Err line_too_long, one_array 1) }
{}

/// In a script: the line behind one that is too long is served, and so is the limit on the last line.
pub fn the_next_line_is_served()
    ensures next { ample_output [] (letters 4097 ++ 10 ∷ codes "list")
        ≡ codes "error line-too-long" ++ 10 ∷ codes "names" ++ 10 ∷ [] }
    ensures made { store_after [] (comment 4097 ++ 10 ∷ codes "make a judyl 1") ≡ one_array 1 }
    ensures last_fits { ample_output [] (comment 4096) ≡ [] }
    ensures last { ample_output [] (comment 4097) ≡ codes "error line-too-long" ++ 10 ∷ [] }
{}
