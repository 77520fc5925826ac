//! Reads at offsets that only clauses read.

ghost use Rattle.std.specs.Prelude.{◌≡◌, List, [], ◌∷◌, ◌++◌};
ghost use Rattle.std.specs.Borrow.{ftrue};
ghost use Rattle.payload3.specs.Readings.{OffsetRead};

use std::marker::{Model, PhantomData};

/// What the reads of a file gave, one read after another. It takes no room, and only clauses read it:
/// what is noted is as true as the code that notes it.
#[derive(Drop)]
pub struct Notes {
    marker: PhantomData<u8>,
    pub ghost readings: { List OffsetRead },
}

impl Model for Notes {
    ghost also_owns = { λ _. ftrue };
}

impl Notes {
    /// Returns notes of no reads.
    pub fn new() -> Notes
        ensures { result.readings ≡ [] }
    {
        Notes {
            marker: PhantomData,
        }
    }

    /// Notes that a read at this offset gave these bytes. Nothing is done when it runs.
    pub fn note(&mut self, _at: u64, _bytes: &[u8])
        ensures { self.new.readings
            ≡ self.old.readings ++ record { at = _at; bytes = _bytes.now } ∷ [] }
    {}

    /// Notes all that other notes have. Nothing is done when it runs.
    pub fn note_all(&mut self, _others: &Notes)
        ensures { self.new.readings ≡ self.old.readings ++ _others.now.readings }
    {}
}
