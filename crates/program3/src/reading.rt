//! Files that are read, and what their reads gave.

ghost use Rattle.std.specs.Prelude.{◌≡◌, ℕ, List, Option};
ghost use Rattle.program3.specs.Readings.{IsOpened, reading_in, reading_of};

use capture3::{FromRead, Given, Trail};
use std::io::Read;

/// A file that was opened to be read, and the name under which it was, which only clauses see.
#[derive(Drop)]
pub struct Opened<R> {
    pub source: FromRead<R>,
    name: Trail,
}

impl<R: Read> Opened<R> {
    /// Returns a file of this name, of which nothing was read yet.
    pub fn new(name: &str, reader: R) -> Opened<R>
        ensures { (holds : List ℕ → Option (List ℕ)) → R.remaining reader ≡ holds name.now
            → IsOpened R.remaining holds name.now result }
    {
        let mut trail = Trail::new();
        trail.note(name.as_bytes());
        Opened {
            source: FromRead::new(reader),
            name: trail,
        }
    }
}

impl<R: Drop> Opened<R> {
    /// Closes the file, and keeps what its reads gave.
    pub fn close(self) -> Closed
        ensures { reading_in result ≡ reading_of self }
    {
        let Opened { source, name } = self;
        Closed {
            given: source.into_given(),
            name,
        }
    }
}

/// What the reads of a file gave, and the name under which it was opened. Only clauses see them.
#[derive(Drop)]
pub struct Closed {
    given: Given,
    name: Trail,
}

/// What was read of the files of a job, one after another.
#[derive(Drop)]
pub enum Readings {
    Nothing,
    OfOne(Closed),
    OfTwo(Closed, Closed),
    OfMany(Vec<Closed>),
}
