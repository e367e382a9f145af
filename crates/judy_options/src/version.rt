//! The version of the program.

/// The version that `--version` tells, which is that of the file VERSION at the top. (This project's own.)
pub const VERSION: &str = "1.0.0-dev";
