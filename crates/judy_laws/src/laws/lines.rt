//! A line that is too long: it is refused before all else, and no other line is refused so.

ghost use Rattle.std.specs.Prelude.{◌≡◌, ◌<◌, ℕ, length, Err};
ghost use Rattle.judy_model.specs.Lines.{Line};
ghost use Rattle.judy_model.specs.Stores.{Store};
ghost use Rattle.judy_model.specs.Replies.{Reply, line_too_long};
ghost use Rattle.judy_model.specs.Steps.{step, Step};

/// A line of more than 4,096 bytes, whatever they are and whatever ended it, is refused as too long and leaves the
/// store, and no other line is refused so.
pub fn exactly_the_lines_over_4096_bytes_are_too_long()
    ensures refused { (store : Store) (line : Line) → 4096 < length line.bytes
        → step store line ≡ (Err line_too_long, store) }
    ensures no_other { (store : Store) (line : Line)
        → (step store line).0 ≡ Err line_too_long → 4096 < length line.bytes }
{}

/// So it is where memory is short.
pub fn exactly_these_are_too_long_with_little_memory()
    ensures refused { (before after : Store) (line : Line) (reply : Reply)
        → 4096 < length line.bytes → Step before line reply after →
        (reply ≡ Err line_too_long) × (after ≡ before) }
    ensures no_other { (before after : Store) (line : Line)
        → Step before line (Err line_too_long) after → 4096 < length line.bytes }
{}
