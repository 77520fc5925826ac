//! The forms in which a command writes what it reads.

use canon3::{MessageCounts, Sink, Summary, canon};
use capture3::{Error, Hashers, Source};
use listing3::list;
use program3::Rewriting;
use std::alloc::Global;
use std::hash::BuildHasher;

/// The canonical form.
#[derive(Drop)]
pub struct Canonical<S: BuildHasher + Drop> {
    pub hashers: Hashers<S>,
}

impl<S: BuildHasher + Drop> Rewriting for Canonical<S> {
    ghost use Rattle.canon3.specs.Canonical.{canonical_bytes};
    ghost use Rattle.canon3.specs.Summary.{IsSummary};

    type Counts = Summary;

    ghost form = { λ _. canonical_bytes };

    ghost counts = { IsSummary };

    fn rewrite<R: Source, W: Sink>(
        self,
        alloc: Global,
        source: &mut R,
        sink: &mut W,
    ) -> Result<Summary, Error> {
        canon(alloc, self.hashers, source, sink)
    }
}

/// The listing, one line for each message.
#[derive(Drop)]
pub struct Listing<S: BuildHasher + Drop> {
    pub hashers: Hashers<S>,
}

impl<S: BuildHasher + Drop> Rewriting for Listing<S> {
    ghost use Rattle.canon3.specs.Summary.{AreMessageCounts};
    ghost use Rattle.listing3.specs.Listing.{shown};

    type Counts = MessageCounts;

    ghost form = { λ _. shown };

    ghost counts = { AreMessageCounts };

    fn rewrite<R: Source, W: Sink>(
        self,
        alloc: Global,
        source: &mut R,
        sink: &mut W,
    ) -> Result<MessageCounts, Error> {
        list(alloc, self.hashers.calls, source, sink)
    }
}
