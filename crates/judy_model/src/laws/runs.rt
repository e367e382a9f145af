//! What a run is: nothing for no lines, a step for one line, and run after run for a script that is cut after
//! an LF. With ample memory a script has one run; and a failed writer leaves a run that it cut off.

ghost use Rattle.std.specs.Prelude.{◌≡◌, ◌≢◌, ◌↔◌, ℕ, IsTrue, All, List, [], ◌∷◌, ◌++◌, Err};
ghost use Rattle.judy_model.specs.Lines.{Line, lines_of};
ghost use Rattle.judy_model.specs.LineLists.{are_whole_lines};
ghost use Rattle.judy_model.specs.Stores.{Store};
ghost use Rattle.judy_model.specs.Replies.{Reply, no_memory, output_of};
ghost use Rattle.judy_model.specs.Steps.{Step};
ghost use Rattle.judy_model.specs.Runs.{Run, CutOff};
ghost use Rattle.judy_model.specs.AmpleRuns.{ample_output, store_after};
ghost use Rattle.judy_model.specs.CutRuns.{Begins, RanInto};

/// A script without lines puts out nothing and leaves the store; a script of one line puts out its reply.
pub fn a_run_goes_line_by_line()
    ensures none { (before after : Store) (output : List ℕ) → Run before [] output after
        ↔ ((output ≡ []) × (after ≡ before)) }
    ensures one { (before after : Store) (script output : List ℕ) (line : Line)
        → lines_of script ≡ line ∷ [] →
        Run before script output after
        ↔ ((reply : Reply) × Step before line reply after × (output ≡ output_of reply)) }
{}

/// A run of whole lines and more is the run of the lines and then the run of the rest, and what they put out
/// stands in a row. With the law before this says what a run is.
pub fn runs_follow_one_another()
    ensures { (before after : Store) (front rest output : List ℕ) → IsTrue (are_whole_lines front) →
        Run before (front ++ rest) output after ↔
        ((between : Store) × (first second : List ℕ) × Run before front first between
        × Run between rest second after × (output ≡ first ++ second)) }
{}

/// Where no line is answered that there is no memory, a run is the fold of `step` over the lines, and so a
/// script has one output and leaves one store; and there is such a run.
pub fn with_ample_memory_there_is_one_run()
    ensures there_is { (before : Store) (script : List ℕ)
        → Run before script (ample_output before script) (store_after before script) }
    ensures one { (before after : Store) (script output : List ℕ)
        (run : Run before script output after) →
        All (λ reply. reply ≢ Err no_memory) run.0 →
        (output ≡ ample_output before script) × (after ≡ store_after before script) }
{}

/// A run is cut off where whole lines were run and answered and the next line was run and answered in part;
/// what was put out begins the output of a run that goes on.
pub fn a_cut_off_run_ends_in_an_answer()
    ensures ends { (before after : Store) (script output : List ℕ)
        → CutOff before script output after ↔ RanInto before script output after }
    ensures goes_on { (before after : Store) (script output : List ℕ)
        → CutOff before script output after →
        (whole : List ℕ) × (last : Store) × Run before script whole last × Begins output whole }
{}
