//! The commands and their words.

ghost use Rattle.std.specs.Prelude.{◌≡◌, option_map};
ghost use Rattle.judy_model.specs.CommandWords.{command_named};
ghost use Rattle.judy_command.specs.CommandsOf.{command_of};

/// The commands of one array that name one key or word beside it.
#[derive(Clone, Copy)]
pub(crate) enum KeyCommand {
    Set,
    Unset,
    Test,
    Get,
    Del,
    /// The least key from the given one on.
    First,
    /// The least above it.
    Next,
    /// The greatest up to it.
    Last,
    /// The greatest below it.
    Prev,
    /// The same four among the words that are no keys.
    FirstEmpty,
    NextEmpty,
    LastEmpty,
    PrevEmpty,
    ByCount,
}

/// The commands of one array that name two: a key and its value, or two keys.
#[derive(Clone, Copy)]
pub(crate) enum PairCommand {
    Ins,
    Put,
    Count,
}

/// A command, by the arguments that it takes.
#[derive(Clone, Copy)]
pub(crate) enum Command {
    Make,
    List,
    Drop,
    Free,
    Key(KeyCommand),
    Pair(PairCommand),
}

impl Command {
    /// The command that a word names; none exactly where it names no command.
    pub(crate) fn from_word(word: &[u8]) -> Option<Command>
        ensures { option_map command_of result ≡ command_named word.now }
    {
        // Not one of the patterns: the search for proofs stops at seven bytes.
        if word == b"bycount".as_slice() {
            return Some(Command::Key(KeyCommand::ByCount));
        }
        // They are compared one after the other, so those that scripts have most come first.
        Some(match word {
            b"get" => Command::Key(KeyCommand::Get),
            b"ins" => Command::Pair(PairCommand::Ins),
            b"test" => Command::Key(KeyCommand::Test),
            b"set" => Command::Key(KeyCommand::Set),
            b"del" => Command::Key(KeyCommand::Del),
            b"put" => Command::Pair(PairCommand::Put),
            b"unset" => Command::Key(KeyCommand::Unset),
            b"first" => Command::Key(KeyCommand::First),
            b"next" => Command::Key(KeyCommand::Next),
            b"last" => Command::Key(KeyCommand::Last),
            b"prev" => Command::Key(KeyCommand::Prev),
            b"count" => Command::Pair(PairCommand::Count),
            b"fe" => Command::Key(KeyCommand::FirstEmpty),
            b"ne" => Command::Key(KeyCommand::NextEmpty),
            b"le" => Command::Key(KeyCommand::LastEmpty),
            b"pe" => Command::Key(KeyCommand::PrevEmpty),
            b"make" => Command::Make,
            b"list" => Command::List,
            b"drop" => Command::Drop,
            b"free" => Command::Free,
            _ => return None,
        })
    }
}
