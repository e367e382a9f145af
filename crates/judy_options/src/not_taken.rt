//! Why the words of a command line aren't taken.

/// Why the words of a command line aren't taken. (This project's own.)
#[derive(Debug, Drop)]
pub enum NotTaken {
    /// They ask for help, which is the text.
    Help(String),
    /// They ask for the version, which is `VERSION`.
    Version,
    /// Something is wrong with them; the text says what.
    BadWords(String),
    /// There is no memory to read them.
    NoMemory,
}
