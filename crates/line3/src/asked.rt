//! What a command line asks for, and why it is refused.

use thiserror::Error;

/// What a command line asks for.
#[derive(Clone, Copy, Debug, PartialEq, Eq)]
pub enum Job<'a> {
    /// The counts of the capture of this name.
    Check(&'a str),
    /// The listing of the capture of this name.
    Show(&'a str),
    /// The canonical form of the capture of the first name, in a file of the second.
    Canon(&'a str, &'a str),
    /// Whether the captures of these names are the same up to renaming.
    Same(&'a str, &'a str),
    /// A capture in a file of the first name. Its streams are those of the other names: of each connection
    /// the client's and then the server's.
    Pack(&'a str, &'a [String]),
}

/// Why a command line is refused.
#[derive(Debug, Drop, Error)]
pub enum LineFault {
    /// It has none of the program's forms, or asks for help. The text says so.
    #[error("{0}")]
    Usage(String),
    /// A stream has no counterpart.
    #[error("streams come in pairs")]
    Odd,
    /// The output is an input.
    #[error("output names an input")]
    SameName,
    /// A word is not UTF-8.
    #[error("a word of the line is not UTF-8")]
    NotText,
    /// Memory ran out.
    #[error("out of memory")]
    Memory,
}
