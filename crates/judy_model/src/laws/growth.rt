//! What it is to grow: exactly the lines that leave more arrays and keys than there were, and they leave one
//! more.

ghost use Rattle.std.specs.Prelude.{◌≡◌, ◌+◌, ◌<◌, ◌↔◌, List, ℕ, IsTrue, Ok, Err};
ghost use Rattle.judy_model.specs.Lines.{Line};
ghost use Rattle.judy_model.specs.Stores.{Store};
ghost use Rattle.judy_model.specs.Sizes.{size_of};
ghost use Rattle.judy_model.specs.Replies.{no_memory};
ghost use Rattle.judy_model.specs.CommandWords.{Command};
ghost use Rattle.judy_model.specs.Commands.{Outcome, carried_out};
ghost use Rattle.judy_model.specs.Steps.{step, grows, Step};

/// What a command does grows exactly where it leaves more arrays and keys than there were; and then it leaves
/// one more.
pub fn to_grow_is_to_hold_more()
    ensures more { (store : Store) (command : Command) (arguments : List (List ℕ))
        (outcome : Outcome Store) →
        carried_out store command arguments ≡ Ok outcome →
        IsTrue outcome.grows ↔ (size_of store < size_of outcome.after) }
    ensures one_more { (store : Store) (command : Command) (arguments : List (List ℕ))
        (outcome : Outcome Store) →
        carried_out store command arguments ≡ Ok outcome → IsTrue outcome.grows →
        size_of outcome.after ≡ size_of store + 1 }
{}

/// So a line grows exactly where it adds a key or an array.
pub fn a_line_that_grows_adds_one()
    ensures more { (store : Store) (line : Line) → IsTrue (grows store line)
        ↔ (size_of store < size_of (step store line).1) }
    ensures one_more { (store : Store) (line : Line) → IsTrue (grows store line)
        → size_of (step store line).1 ≡ size_of store + 1 }
{}

/// And only a line that adds one, memory allowing, may be answered that there is no memory.
pub fn want_of_memory_comes_where_one_is_added()
    ensures { (before after : Store) (line : Line) → Step before line (Err no_memory) after →
        (size_of (step before line).1 ≡ size_of before + 1) × (after ≡ before) }
{}
