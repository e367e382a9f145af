//! What the lines of a script are.

ghost use Rattle.std.specs.Prelude.{◌≡◌, ℕ, IsTrue, List};
ghost use Rattle.judy_model.specs.Lines.{Line, lines_of};
ghost use Rattle.judy_model.specs.LineLists.{script_of, are_lines};

/// The lines of a script, joined, give it back; and they are the only ones that do.
pub fn lines_give_the_script_back()
    ensures joined { (script : List ℕ) → script_of (lines_of script) ≡ script }
    ensures are_lines { (script : List ℕ) → IsTrue (are_lines (lines_of script)) }
    ensures no_others { (lines : List Line) → IsTrue (are_lines lines)
        → lines_of (script_of lines) ≡ lines }
{}
