//! Lines that there was no memory for drop out of a run: the other lines are answered, and leave the store, as if these
//! had never stood between them.

ghost use Rattle.std.specs.Prelude.{◌≡◌, ◌≢◌, ℕ, List, [], ◌∷◌, flat_map, Err};
ghost use Rattle.judy_model.specs.Lines.{Line, lines_of};
ghost use Rattle.judy_model.specs.Stores.{Store};
ghost use Rattle.judy_model.specs.Replies.{Reply, no_memory, output_of};
ghost use Rattle.judy_model.specs.Runs.{Run};
ghost use Rattle.judy_model.specs.AmpleRuns.{ample_replies, ample_store, ample_output, store_after};
ghost use Rattle.judy_model.specs.Remaining.{remaining_lines, remaining_replies, remaining_script};

/// Where a script was run, the lines that remain without those answered `error no-memory`, each by `step` alone, give
/// the replies that remain and leave the store that the run left. So the script without these lines, with ample memory,
/// puts out what the run put out but for its `error no-memory`.
pub fn refused_lines_drop_out()
    ensures lines { (before after : Store) (script output : List ℕ)
        (run : Run before script output after) →
        (ample_replies before (remaining_lines (lines_of script) run.0)
        ≡ remaining_replies (lines_of script) run.0)
        × (ample_store before (remaining_lines (lines_of script) run.0) ≡ after) }
    ensures script { (before after : Store) (script output : List ℕ)
        (run : Run before script output after) →
        (ample_output before (remaining_script script run.0)
        ≡ flat_map output_of (remaining_replies (lines_of script) run.0))
        × (store_after before (remaining_script script run.0) ≡ after) }
{}

/// What drops out is a line answered `error no-memory` together with this answer; a line with any other reply remains
/// with it, also one that is refused and one that has no answer.
pub fn a_refused_line_drops_out_with_its_answer()
    ensures none { (remaining_lines [] [] ≡ []) × (remaining_replies [] [] ≡ []) }
    ensures refused { (line : Line) (lines : List Line) (replies : List Reply) →
        (remaining_lines (line ∷ lines) (Err no_memory ∷ replies) ≡ remaining_lines lines replies)
        × (remaining_replies (line ∷ lines) (Err no_memory ∷ replies)
        ≡ remaining_replies lines replies) }
    ensures others { (line : Line) (lines : List Line) (reply : Reply) (replies : List Reply)
        → reply ≢ Err no_memory →
        (remaining_lines (line ∷ lines) (reply ∷ replies) ≡ line ∷ remaining_lines lines replies)
        × (remaining_replies (line ∷ lines) (reply ∷ replies)
        ≡ reply ∷ remaining_replies lines replies) }
{}
