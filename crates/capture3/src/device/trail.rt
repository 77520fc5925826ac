//! Bytes that only clauses read.

ghost use Rattle.std.specs.Prelude.{◌≡◌, ℕ, List, [], ◌++◌};
ghost use Rattle.std.specs.Borrow.{ftrue};

use std::marker::{Model, PhantomData};

/// The bytes that the calls of a device moved, one call after another, or those of a record where it lies.
/// It takes no room, and only clauses read it: no memory holds them, so what is noted is as true as the code
/// that notes it.
#[derive(Drop)]
pub struct Trail {
    marker: PhantomData<u8>,
    pub ghost bytes: { List ℕ },
}

impl Model for Trail {
    ghost also_owns = { λ _. ftrue };
}

impl Trail {
    /// Returns a trail of no bytes.
    pub fn new() -> Trail
        ensures { result.bytes ≡ [] }
    {
        Trail {
            marker: PhantomData,
        }
    }

    /// Notes these bytes. Nothing is done when it runs.
    pub fn note(&mut self, _piece: &[u8])
        ensures { self.new.bytes ≡ self.old.bytes ++ _piece.now }
    {}
}
