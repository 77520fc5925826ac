//! What one end of a connection sent.

ghost use Rattle.std.specs.Prelude.{◌≡◌, ◌≤◌, ◌<◌, ◌+◌, ◌^◌, ℕ, List, [], ◌∷◌, ◌++◌, Bool, cond, ◌↔◌, ◌≢◌, false, IsTrue, Ok, Err, IfErr, IfOk, OnOk, OnErr, length, ◌⊎◌};
ghost use Rattle.streams3.specs.Events.{Acknowledged, AcknowledgedAt, Event, Sent, SentAt, Stray, has_payload, payload_of};
ghost use Rattle.streams3.specs.Runs.{top_of};
ghost use Rattle.streams3.specs.Runs.{AreSound};
ghost use Rattle.streams3.specs.Streams.{IsLong, ShowsEvents, higher, lower};
ghost use Rattle.streams3.specs.machinery.Marks.{with_mark};

use crate::positions::{BEGIN, position_of};
use crate::runs::Run;
use crate::segments::{Acknowledgment, Mark, Marks, NO_MARKS, StreamSegment};
use std::alloc::{AllocError, Global};
use std::marker::Model;

/// A stream of so many bytes takes no more.
const LIMIT: u64 = 0x4000_0000_0000_0000;

/// Why a segment was not taken.
#[derive(Clone, Copy, Debug, PartialEq, Eq, Drop)]
pub enum Refused {
    /// An allocation failed.
    Memory,
    /// A position, an offset or the number of strays is beyond 2^62.
    Long,
}

/// What one end of a connection sent. No byte of it is held.
#[derive(Drop)]
pub struct Stream {
    first: u32,
    // The position after the last byte.
    top: u64,
    log: Vec<Run>,
    marks: Marks,
}

impl Model for Stream {
    ghost use Rattle.streams3.specs.Streams.{IsKeptStream, Shown, shown_of};

    ghost Value = { Shown };

    ghost view = { shown_of };

    ghost invariant = { IsKeptStream };
}

impl Stream {
    /// Returns a stream of which nothing was recorded. `first` is the number of the byte at
    /// position `BEGIN`. It allocates nothing yet.
    pub fn new(alloc: Global, first: u32) -> Stream
        ensures first { result.first ≡ first }
        ensures shows { ShowsEvents result [] }
    {
        Stream {
            first,
            top: BEGIN,
            log: Vec::new(alloc),
            marks: NO_MARKS,
        }
    }

    /// Returns what was recorded beside bytes.
    pub fn marks(&self) -> Marks
        ensures { result ≡ self.now.marks }
    {
        self.marks
    }

    /// Returns the payloads as they were recorded, and what was recorded beside them.
    pub(crate) fn into_parts(self) -> (Vec<Run>, Marks)
        ensures log { result.0.items ≡ self.log }
        ensures marks { result.1 ≡ self.marks }
        ensures sound { AreSound result.0.items }
    {
        (self.log, self.marks)
    }

    /// Takes a segment of this end.
    ///
    /// # Errors
    ///
    /// - `Memory` if an allocation failed.
    /// - `Long` if the last byte, the payload's offset or the number of strays is beyond 2^62.
    ///
    /// The stream stays as it is then.
    pub fn take(&mut self, segment: &StreamSegment) -> Result<(), Refused>
        ensures ok { OnOk result ((events : List Event) → ShowsEvents self.old events
            → ShowsEvents self.new (events ++ Sent segment.now ∷ [])) }
        ensures err { OnErr result (self.new ≡ self.old) }
        ensures long { (result ≡ Err Refused.Long) ↔ IsLong self.old segment.now.at }
        ensures first { self.new.first ≡ self.old.first }
    {
        if is_long(self.top, segment.at, self.marks.strays) {
            return Err(Refused::Long);
        }
        match position_of(self.first, self.top, segment.first_number()) {
            None => note_stray(&mut self.marks, segment.frame),
            Some(position) => {
                self.top = log_payload(&mut self.log, self.top, segment, position)?;
                note_flags(&mut self.marks, segment, position);
            }
        }
        Ok(())
    }

    /// Takes an acknowledgment of the other end.
    ///
    /// # Errors
    ///
    /// `Long` if the number of strays, or the last byte, is beyond 2^62. The stream stays as it is
    /// then.
    pub fn acknowledge(&mut self, acknowledgment: Acknowledgment) -> Result<(), Refused>
        ensures ok { OnOk result ((events : List Event) → ShowsEvents self.old events
            → ShowsEvents self.new (events ++ Acknowledged acknowledgment ∷ [])) }
        ensures err { OnErr result (self.new ≡ self.old) }
        ensures long { (result ≡ Err Refused.Long) ↔ IsLong self.old 0 }
        ensures first { self.new.first ≡ self.old.first }
        ensures memory { result ≢ Err Refused.Memory }
    {
        if is_long(self.top, 0, self.marks.strays) {
            return Err(Refused::Long);
        }
        let Acknowledgment { number, frame } = acknowledgment;
        match position_of(self.first, self.top, number) {
            None => note_stray(&mut self.marks, frame),
            Some(position) => note_acknowledged(&mut self.marks, Mark { position, frame }),
        }
        Ok(())
    }
}

/// Returns whether one of them is too large.
#[inline(always)]
fn is_long(top: u64, at: u64, strays: u64) -> bool
    ensures yes { IsTrue result → (2 ^ 62 < top) ⊎ ((2 ^ 62 < at) ⊎ (2 ^ 62 < strays)) }
    ensures no { result ≡ false → (top ≤ 2 ^ 62) × (at ≤ 2 ^ 62) × (strays ≤ 2 ^ 62) }
{
    top > LIMIT || at > LIMIT || strays > LIMIT
}

/// Returns whether a segment has bytes of the stream. One that keeps a connection alive has none.
#[inline(always)]
fn has_payload(segment: &StreamSegment, top: u64, position: u64) -> bool
    requires { position < 2 ^ 63 }
    ensures { result ≡ has_payload segment.now top position }
{
    segment.size > 0 && !(segment.size == 1 && position + 1 == top)
}

/// Logs the payload of a segment at a position, and returns the position after the last byte. The
/// log stays as it is if memory is short.
#[inline(always)]
fn log_payload(
    log: &mut Vec<Run>,
    top: u64,
    segment: &StreamSegment,
    position: u64,
) -> Result<u64, Refused>
    requires top { top ≡ top_of log.old.items }
    requires small { top ≤ 2 ^ 62 }
    requires near { position ≤ top + 2 ^ 30 }
    requires at { segment.now.at ≤ 2 ^ 62 }
    requires sound { AreSound log.old.items }
    ensures ok { OnOk result (log.new.items
        ≡ log.old.items ++ payload_of (SentAt segment.now top position)) }
    ensures top { IfOk result (λ t. (t ≡ top_of log.new.items) × (t ≤ 2 ^ 62 + 2 ^ 33)) }
    ensures sound { AreSound log.new.items }
    ensures err { OnErr result (log.new.items ≡ log.old.items) }
    ensures memory { IfErr result (λ e. e ≡ Refused.Memory) }
{
    if !has_payload(segment, top, position) {
        return Ok(top);
    }
    let run = Run {
        position,
        at: segment.at,
        size: segment.size,
        frame: segment.frame,
    };
    match log.push(run) {
        Ok(()) => Ok(top.max(position + segment.size as u64)),
        Err(_) => Err(Refused::Memory),
    }
}

/// Notes the flags of a segment at a position.
#[inline(always)]
fn note_flags(marks: &mut Marks, segment: &StreamSegment, position: u64)
    requires { position ≤ 2 ^ 63 }
    ensures { (top : ℕ) → marks.new ≡ with_mark marks.old (SentAt segment.now top position) }
{
    let frame = segment.frame;
    if segment.syn && marks.begin.is_none() {
        marks.begin = Some(Mark { position, frame });
    }
    if segment.fin {
        let end = Mark {
            position: position + segment.size as u64,
            frame,
        };
        marks.end = Some(lower(marks.end, end));
    }
    if segment.rst && marks.reset.is_none() {
        marks.reset = Some(Mark { position, frame });
    }
}

/// Notes an acknowledgment.
#[inline(always)]
fn note_acknowledged(marks: &mut Marks, mark: Mark)
    ensures { marks.new ≡ with_mark marks.old (AcknowledgedAt mark.position mark.frame) }
{
    marks.acknowledged = Some(higher(marks.acknowledged, mark));
}

/// Returns the lower of two marks, and the first if both are as low.
#[inline(always)]
fn lower(found: Option<Mark>, mark: Mark) -> Mark
    ensures { result ≡ lower found mark }
{
    match found {
        Some(one) if one.position <= mark.position => one,
        _ => mark,
    }
}

/// Returns the higher of two marks, and the first if both are as high.
#[inline(always)]
fn higher(found: Option<Mark>, mark: Mark) -> Mark
    ensures { result ≡ higher found mark }
{
    match found {
        Some(one) if one.position >= mark.position => one,
        _ => mark,
    }
}

/// Counts a stray.
#[inline(never)]
fn note_stray(marks: &mut Marks, frame: u32)
    requires { marks.old.strays < 2 ^ 63 }
    ensures { marks.new ≡ with_mark marks.old (Stray frame) }
{
    marks.strays += 1;
    if marks.stray.is_none() {
        marks.stray = Some(frame);
    }
}
