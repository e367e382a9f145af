//! What every line and every run of a script keep: that the store is one, with the limits that scripts give.

ghost use Rattle.std.specs.Prelude.{ℕ, List, []};
ghost use Rattle.judy_model.specs.Lines.{Line};
ghost use Rattle.judy_model.specs.Stores.{Store, IsStore, IsRegular};
ghost use Rattle.judy_model.specs.Replies.{Reply};
ghost use Rattle.judy_model.specs.Steps.{Step};
ghost use Rattle.judy_model.specs.Runs.{Run, CutOff};

/// Whatever a line is answered, a store is left a store, and a regular one regular.
pub fn a_line_keeps_a_store()
    ensures store { (before after : Store) (line : Line) (reply : Reply) → IsStore before
        → Step before line reply after → IsStore after }
    ensures regular { (before after : Store) (line : Line) (reply : Reply) → IsRegular before
        → Step before line reply after → IsRegular after }
{}

/// So does a whole run leave it.
pub fn a_run_keeps_a_store()
    ensures store { (before after : Store) (script output : List ℕ) → IsStore before
        → Run before script output after → IsStore after }
    ensures regular { (before after : Store) (script output : List ℕ) → IsRegular before
        → Run before script output after → IsRegular after }
{}

/// So does a run that a failed writer ended.
pub fn a_cut_off_run_keeps_a_store()
    ensures store { (before after : Store) (script output : List ℕ) → IsStore before
        → CutOff before script output after → IsStore after }
    ensures regular { (before after : Store) (script output : List ℕ) → IsRegular before
        → CutOff before script output after → IsRegular after }
{}

/// No arrays at all are a store, and a regular one; so every script that begins with none ends with such a
/// store.
pub fn a_script_makes_a_store()
    ensures none { IsStore [] × IsRegular [] }
    ensures made { (script output : List ℕ) (after : Store) → Run [] script output after
        → IsStore after × IsRegular after }
{}
