//! How many frames carry a segment of TCP, and why the others carry none.

ghost use Rattle.std.specs.Prelude.{◌≡◌, ◌≤◌, ◌+◌, ◌-◌, ◌^◌, ◌∷◌, List, [], length, OnOk, OnErr};
ghost use Rattle.recording3.specs.Frames.{Extends};
ghost use Rattle.recording3.specs.Outcomes.{IsFullAt, Tallied, with_outcome, no_outcomes, total};
ghost use Rattle.recording3.specs.Places.{Passed};

use crate::frames::{FrameHead, FrameTaker};
use crate::parts::{NoSegment, Segment};
use crate::segments::read_segment;
use thiserror::Error;

/// How many frames carried a segment, and how many did not, by the reason. It takes frames.
#[derive(Clone, Copy, Debug, PartialEq, Eq, Drop)]
pub struct Tally {
    /// Those with a segment.
    pub segments: u64,
    /// Those of an unknown link type.
    pub unknown_link: u64,
    /// Those with a header that is cut short.
    pub cut: u64,
    /// Those without IP.
    pub not_ip: u64,
    /// Those with a header of IP that does not fit.
    pub bad_ip: u64,
    /// Those with a fragment.
    pub fragment: u64,
    /// Those without TCP.
    pub not_tcp: u64,
    /// Those with a header of TCP that does not fit.
    pub bad_tcp: u64,
}

/// 2^64 - 1 frames were counted.
#[derive(Clone, Copy, Debug, PartialEq, Eq, Error)]
#[error("too many frames to count")]
pub struct Full;

impl Tally {
    /// Returns a tally of no frames.
    pub fn new() -> Tally
        ensures { result ≡ no_outcomes }
    {
        Tally {
            segments: 0,
            unknown_link: 0,
            cut: 0,
            not_ip: 0,
            bad_ip: 0,
            fragment: 0,
            not_tcp: 0,
            bad_tcp: 0,
        }
    }

    /// Returns how many frames were counted, the sum of all counts.
    pub fn frames(&self) -> u128
        ensures value { result ≡ total self.now }
        ensures all { (passed : List Passed) → Tallied passed self.now → result ≡ length passed }
    {
        self.sum()
    }

    /// Returns the sum of all counts.
    fn sum(&self) -> u128
        ensures { result ≡ total self.now }
    {
        let with_tcp = self.segments as u128 + self.bad_tcp as u128;
        let with_ip = self.bad_ip as u128 + self.fragment as u128 + self.not_tcp as u128;
        let others = self.unknown_link as u128 + self.cut as u128 + self.not_ip as u128;
        with_tcp + with_ip + others
    }

    /// Counts the outcome of a frame, what `read_segment` returns of it.
    ///
    /// # Errors
    ///
    /// `Full` if 2^64 - 1 frames were counted. The tally stays as it is then.
    pub fn count(&mut self, outcome: Result<Segment, NoSegment>) -> Result<(), Full>
        ensures ok { OnOk result (self.new ≡ with_outcome self.old outcome) }
        ensures err { OnErr result ((self.new ≡ self.old) × (2 ^ 64 - 1 ≤ total self.old)) }
    {
        if self.sum() >= u64::MAX as u128 {
            return Err(Full);
        }
        match outcome {
            Ok(_) => self.segments += 1,
            Err(NoSegment::UnknownLink) => self.unknown_link += 1,
            Err(NoSegment::Cut) => self.cut += 1,
            Err(NoSegment::NotIp) => self.not_ip += 1,
            Err(NoSegment::BadIp) => self.bad_ip += 1,
            Err(NoSegment::Fragment) => self.fragment += 1,
            Err(NoSegment::NotTcp) => self.not_tcp += 1,
            Err(NoSegment::BadTcp) => self.bad_tcp += 1,
        }
        Ok(())
    }
}

impl FrameTaker for Tally {
    type Error = Full;

    ghost took = { λ tally passed. Tallied passed tally };

    ghost failed = { λ tally _ passed. IsFullAt passed tally };

    fn take(&mut self, head: &FrameHead, octets: &[u8]) -> Result<(), Full> {
        self.count(read_segment(head.link, octets, head.wire))
    }
}
