//! What a comparison of two captures returns.

ghost use Rattle.std.specs.Prelude.{◌≡◌};

use capture3::{Error, Place};
use std::fmt;

/// What two well-formed captures are to each other.
#[derive(Clone, Copy, Debug, PartialEq, Eq)]
pub enum Verdict {
    /// The same up to renaming.
    Same,
    /// Not the same, first at this record.
    Differ(Place),
}

/// One of two captures.
#[derive(Clone, Copy, Debug, PartialEq, Eq)]
pub enum Which {
    First,
    Second,
}

impl fmt::Display for Which {
    fn fmt<W: fmt::Write>(&self, f: &mut fmt::Formatter<W>) -> fmt::Result {
        match self {
            Which::First => f.write_str("first"),
            Which::Second => f.write_str("second"),
        }
    }
}

/// Why two captures could not be compared.
#[derive(Clone, Copy, Debug, PartialEq, Eq, thiserror::Error)]
#[error("{which} capture: {error}")]
pub struct SameError {
    pub which: Which,
    pub error: Error,
}

/// Returns that memory ran out for this one.
pub(crate) fn out_of_memory_in(which: Which) -> SameError
    ensures which { result.which ≡ which }
    ensures error { result.error ≡ Error.Memory }
{
    SameError {
        which,
        error: Error::Memory,
    }
}
