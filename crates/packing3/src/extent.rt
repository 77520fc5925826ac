//! How much of a capture is written.

ghost use Rattle.std.specs.Prelude.{◌≡◌, ◌≤◌};
ghost use Rattle.capture3.specs.Chunks.{max_bytes};

use capture3::{Error, Fault, Place};
use xdr3::Reason;

/// How much of a capture is written.
#[derive(Clone, Copy)]
pub(crate) struct Extent {
    /// The bytes that chunks carry.
    pub(crate) streamed: u32,
    /// All bytes.
    pub(crate) at: u64,
    ghost within: { streamed ≤ max_bytes },
}

impl Extent {
    /// Returns the refusal of the word that comes next.
    pub(crate) fn refusal(&self, reason: Reason) -> Error
        ensures { result ≡ Error.Refused
            (record { place = Place.File self.now.at; reason = reason }) }
    {
        Error::Refused(Fault {
            place: Place::File { at: self.at },
            reason,
        })
    }
}
