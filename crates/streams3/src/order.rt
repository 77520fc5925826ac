//! A stream in order.

ghost use Rattle.std.specs.Prelude.{◌≡◌, ◌<◌, ◌↔◌, ℕ, IfOk, IsTrue, MatchOption, None};
ghost use Rattle.streams3.specs.Order.{AreBetween, AreFirstMissing, HasNoGap, IsBeyond, IsFirstBeyond, IsGap};
ghost use Rattle.streams3.specs.Order.{IsMissing, IsOrderOf, IsWholeStream, WasSent, begin_of};
ghost use Rattle.streams3.specs.Runs.{spot_of};

use crate::merging::{are_in_order, merged, ordered, parted};
use crate::positions::BEGIN;
use crate::repeats::repeats;
use crate::runs::{MissingBytes, Pair, Run};
use crate::search::{between, end_of_last, first_byte, first_gap};
use crate::segments::{Mark, Marks};
use crate::streams::Stream;
use std::alloc::{AllocError, Global};
use std::marker::Model;

/// What one end of a connection sent, in order. No byte of it is held.
#[derive(Drop)]
pub struct OrderedStream {
    marks: Marks,
    runs: Vec<Run>,
    pairs: Vec<Pair>,
}

impl Model for OrderedStream {
    ghost use Rattle.streams3.specs.Order.{IsInOrder, Ordered, ordered_of};

    ghost Value = { Ordered };

    ghost view = { ordered_of };

    ghost invariant = { IsInOrder };
}

impl OrderedStream {
    /// Puts the bytes of a stream in order.
    ///
    /// # Errors
    ///
    /// `AllocError` if memory is short.
    pub fn new(stream: Stream, alloc: Global) -> Result<OrderedStream, AllocError>
        ensures { IfOk result (IsOrderOf stream) }
    {
        let (log, marks) = stream.into_parts();
        if are_in_order(&log) {
            return Ok(OrderedStream {
                marks,
                runs: log,
                pairs: Vec::new(alloc),
            });
        }
        let (ahead, late) = parted(&log, alloc)?;
        drop(log);
        let runs = merged(&ahead, &ordered(&late, alloc)?, alloc)?;
        let pairs = repeats(&late, &runs, alloc)?;
        Ok(OrderedStream { marks, runs, pairs })
    }

    /// Returns what was recorded beside bytes.
    pub fn marks(&self) -> Marks
        ensures { result ≡ self.now.marks }
    {
        self.marks
    }

    /// Returns the position at which the stream begins. If no SYN was recorded, it is `BEGIN`, from
    /// which the stream counts.
    pub fn begin(&self) -> u64
        ensures { result ≡ begin_of self.now.marks.begin }
    {
        match self.marks.begin {
            Some(mark) => mark.position,
            None => BEGIN,
        }
    }

    /// Returns where the bytes lie, in the order of their positions.
    pub fn runs(&self) -> &[Run]
        ensures { result.now ≡ self.now.runs }
    {
        &self.runs
    }

    /// Returns what was recorded again, beside what counts.
    pub fn pairs(&self) -> &[Pair]
        ensures { result.now ≡ self.now.pairs }
    {
        &self.pairs
    }

    /// Returns the first bytes that are missing between two positions.
    pub fn gap(&self, from: u64, to: u64) -> Option<MissingBytes>
        ensures { MatchOption result (HasNoGap self.now.runs from to)
            (λ g. IsGap self.now.runs from to g.begin g.end) }
    {
        first_gap(&self.runs, from, to)
    }

    /// Returns the bytes between two positions.
    ///
    /// # Errors
    ///
    /// `AllocError` if memory is short.
    pub fn between(&self, from: u64, to: u64, alloc: Global) -> Result<Vec<Run>, AllocError>
        ensures { IfOk result (λ parts. AreBetween self.now.runs from to parts.items) }
    {
        between(&self.runs, from, to, alloc)
    }

    /// Returns the first bytes that were sent and are missing.
    pub fn missing(&self) -> Option<MissingBytes>
        ensures { MatchOption result ((p : ℕ) → IsMissing self.now p → ⊥)
            (AreFirstMissing self.now) }
    {
        self.gap(self.begin(), self.end_of_sent())
    }

    /// Returns the first byte that lies behind FIN, and its frame.
    pub fn beyond(&self) -> Option<Mark>
        ensures { MatchOption result ((p : ℕ) → IsBeyond self.now p → ⊥)
            (IsFirstBeyond self.now) }
    {
        match self.marks.end {
            Some(end) => first_byte(&self.runs, end.position),
            None => None,
        }
    }

    /// Returns whether the stream is whole.
    pub fn is_whole(&self) -> bool
        ensures { IsTrue result ↔ IsWholeStream self.now }
    {
        match (self.marks.begin, self.missing(), self.beyond()) {
            (Some(_), None, None) => self.marks.strays == 0,
            _ => false,
        }
    }

    /// Returns the position before which a byte was sent, if it is missing.
    fn end_of_sent(&self) -> u64
        ensures { (p : ℕ) → spot_of self.now.runs p ≡ None → WasSent self.now p ↔ (p < result) }
    {
        let last = end_of_last(&self.runs);
        match (self.marks.end, self.marks.acknowledged) {
            (Some(end), _) => end.position,
            (None, Some(acknowledged)) => acknowledged.position.max(last),
            (None, None) => last,
        }
    }
}
