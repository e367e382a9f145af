//! What a command line asks for.

/// The files that a command line names, and the format of a dump. (This project's own.)
#[derive(Debug, Drop)]
pub struct Options {
    /// The dump that the store is loaded from; none for an empty store.
    pub load: Option<String>,
    /// The file that the store is dumped to at the end, if any.
    pub dump: Option<String>,
    /// The format of that dump: 1 for JDY1, 2 for JDY2.
    pub format: u64,
    /// The script; none for standard input.
    pub script: Option<String>,
}
