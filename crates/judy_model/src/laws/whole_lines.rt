//! What the whole lines of a script are: what stands up to and with its last LF.

ghost use Rattle.std.specs.Prelude.{◌≡◌, ◌≢◌, ℕ, IsTrue, IsFalse, All, List, [], ◌∷◌, ◌++◌};
ghost use Rattle.judy_model.specs.LineLists.{whole_lines, are_whole_lines};

/// A script is its whole lines and a rest without an LF, and only so.
pub fn a_script_is_its_whole_lines_and_a_rest()
    ensures split { (script : List ℕ)
        → (rest : List ℕ) × (script ≡ whole_lines script ++ rest)
        × IsTrue (are_whole_lines (whole_lines script)) × All (λ byte. byte ≢ 10) rest }
    ensures only { (front rest : List ℕ) → IsTrue (are_whole_lines front)
        → All (λ byte. byte ≢ 10) rest → whole_lines (front ++ rest) ≡ front }
{}

/// Bytes are whole lines where there are none, or where an LF is the last.
pub fn an_lf_ends_whole_lines()
    ensures none { IsTrue (are_whole_lines []) }
    ensures ended { (bytes : List ℕ) → IsTrue (are_whole_lines (bytes ++ 10 ∷ [])) }
    ensures unended { (bytes : List ℕ) (byte : ℕ) → byte ≢ 10
        → IsFalse (are_whole_lines (bytes ++ byte ∷ [])) }
{}
