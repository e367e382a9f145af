//! What a line can't do: change a store that it was refused at or only reads, or want memory without adding
//! anything.

ghost use Rattle.std.specs.Prelude.{◌≡◌, ◌≢◌, ◌⊎◌, ℕ, List, IsTrue, IsFalse, Ok, Err};
ghost use Rattle.judy_model.specs.Lines.{Line};
ghost use Rattle.judy_model.specs.Stores.{Store};
ghost use Rattle.judy_model.specs.Replies.{Reply, Refusal, no_memory};
ghost use Rattle.judy_model.specs.CommandWords.{Command, make, on_key, set, on_pair, ins, only_reads};
ghost use Rattle.judy_model.specs.Commands.{Outcome, carried_out};
ghost use Rattle.judy_model.specs.Steps.{outcome_of, step, grows, Step};

/// A refused line leaves the store as it was, whatever memory there is.
pub fn a_refused_line_leaves_the_store()
    ensures step { (store : Store) (line : Line) (refusal : Refusal) →
        outcome_of store line ≡ Err refusal → step store line ≡ (Err refusal, store) }
    ensures memory { (before after : Store) (line : Line) (refusal : Refusal) (reply : Reply) →
        outcome_of before line ≡ Err refusal → Step before line reply after →
        (reply ≡ Err refusal) × (after ≡ before) }
{}

/// Only a line that grows may be answered that there is no memory, and then it changes nothing.
pub fn only_a_line_that_grows_wants_memory()
    ensures defined { (store : Store) (line : Line) → outcome_of store line ≢ Err no_memory }
    ensures others { (before after : Store) (line : Line) (reply : Reply) →
        IsFalse (grows before line) → Step before line reply after →
        (reply, after) ≡ step before line }
    ensures unchanged { (before after : Store) (line : Line)
        → Step before line (Err no_memory) after → after ≡ before }
{}

/// A command that only reads leaves the store as it was and doesn't grow, whatever its arguments.
pub fn reading_leaves_the_store()
    ensures { (store : Store) (command : Command) (arguments : List (List ℕ))
        (outcome : Outcome Store) →
        IsTrue (only_reads command) → carried_out store command arguments ≡ Ok outcome →
        (outcome.after ≡ store) × IsFalse outcome.grows }
{}

/// A command that grows makes an array, or puts a key into one.
pub fn only_adding_grows()
    ensures { (store : Store) (command : Command) (arguments : List (List ℕ))
        (outcome : Outcome Store) →
        carried_out store command arguments ≡ Ok outcome → IsTrue outcome.grows →
        (command ≡ make) ⊎ (command ≡ on_key set) ⊎ (command ≡ on_pair ins) }
{}
