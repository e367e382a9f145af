//! Which words are commands.

ghost use Rattle.std.specs.Prelude.{◌≡◌, ◌↔◌, ℕ, List, Some};
ghost use Rattle.judy_model.specs.CommandWords.{Command, command_named};
ghost use Rattle.judy_laws.specs.CommandNames.{name_of_command};

/// A word names a command exactly where it is the command's one word. So the 21 words of the commands are all that name
/// any.
pub fn each_command_has_one_word()
    ensures { (word : List ℕ) (command : Command) → (command_named word ≡ Some command)
        ↔ (word ≡ name_of_command command) }
{}
