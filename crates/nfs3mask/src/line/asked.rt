//! What a command line asks for.

use masking3::{Class, Way, Ways};

/// What becomes of a class, as a word of the line says it.
#[derive(Clone, Copy, Debug, PartialEq, Eq)]
pub struct Change {
    pub class: Class,
    pub way: Way,
}

/// What a command line asks for: the capture `input`, with masked values, in the file `output`.
#[derive(Clone, Copy, Debug, PartialEq, Eq)]
pub struct MaskJob<'a> {
    pub input: &'a str,
    pub output: &'a str,
    pub ways: Ways,
}
