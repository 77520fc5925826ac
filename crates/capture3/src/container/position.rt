//! How far the bytes of a capture were taken, and what the next ones lead to.

pub(crate) mod counts;
pub(crate) mod spot;

ghost use Rattle.std.specs.Prelude.{◌≡◌, ◌≤◌, ◌<◌, ◌+◌, []};
ghost use Rattle.capture3.specs.Capture.{Two};
ghost use Rattle.capture3.specs.machinery.Position.{IsBeforeMark, PassesRecord, most_things, room_of, unpacking_at};
ghost use Rattle.capture3.specs.SidedChunks.{gathered};
ghost use Rattle.capture3.specs.machinery.ContainerMachine as spec;
ghost use Rattle.record_mark.specs.Joining.{Between};

use crate::container::position::counts::Counts;
use crate::container::position::spot::{Event, Spot};
use crate::fault::{Error, Fault, Place, Side};
use std::marker::Model;
use xdr3::Reason;

/// The first seven bytes of a capture. The eighth is the version: `1` or `2`.
pub(crate) const MAGIC: [u8; 7] = *b"NFS3CAP";

/// The most connections of a capture.
pub const MAX_CONNECTIONS: u32 = 65_535;

/// The most stream bytes of a capture, all its streams together.
pub const MAX_BYTES: u32 = 1_073_741_824;

/// How much of a capture was taken, and which part of it is open.
#[derive(Clone, Copy)]
pub(crate) struct Position {
    pub(crate) counts: Counts,
    pub(crate) spot: Spot,
}

impl Model for Position {
    ghost use Rattle.capture3.specs.machinery.PositionState.{PositionState};

    ghost Value = { PositionState };

    ghost use Rattle.capture3.specs.machinery.PositionInside.{fields_shown, IsSoundInside, position_shown};

    ghost view = { position_shown };

    ghost inverse = { fields_shown };

    ghost invariant = { IsSoundInside };
}

/// How many bytes were taken, the position after them, and what is whole with the last of them.
#[derive(Clone, Copy)]
pub(crate) struct Transition {
    pub(crate) count: usize,
    pub(crate) position: Position,
    pub(crate) event: Option<Event>,
}

impl Position {
    /// Returns the position before the first byte.
    pub(crate) fn start() -> Position
        ensures room { room_of result (gathered []) ≡ most_things }
        ensures machine { unpacking_at result (gathered []) Between ≡ spec.unpacking_start }
    {
        Position {
            counts: Counts {
                at: 0,
                total: 0,
                connections: 0,
                records: 0,
            },
            spot: Spot::Magic,
        }
    }

    /// Version 1: goes behind a record that ends this many bytes further in the open chunk.
    #[inline(always)]
    pub(crate) fn pass_record(&mut self, side: Side, left: u32, count: u32)
        requires here { self.old.spot ≡ Spot.Chunk side left }
        requires some { 0 < count }
        requires within { count ≤ left }
        ensures { PassesRecord self.old self.new side left count }
    {
        // Apart, so that inside a chunk only what changes is written.
        if count < left {
            self.pass(side, left, count);
        } else {
            self.pass_last_of_chunk(side, left);
        }
    }

    /// Does so wherever the record ends.
    #[inline(always)]
    fn pass(&mut self, side: Side, left: u32, count: u32)
        requires here { self.old.spot ≡ Spot.Chunk side left }
        requires some { 0 < count }
        requires within { count ≤ left }
        ensures { PassesRecord self.old self.new side left count }
    {
        let taken = self.counts.take_chunk(side, left, count, true);
        *self = taken.position;
    }

    /// Does so if the chunk ends with the record.
    #[inline(never)]
    fn pass_last_of_chunk(&mut self, side: Side, left: u32)
        requires here { self.old.spot ≡ Spot.Chunk side left }
        requires some { 0 < left }
        ensures { PassesRecord self.old self.new side left left }
    {
        self.pass(side, left, left);
    }

    /// Version 2: returns the same position with one more whole record of the stream that is
    /// checked.
    pub(crate) fn with_next_record(self) -> Position
        requires here { IsBeforeMark Two self.spot }
        requires fits { self.records < self.total }
        ensures { result ≡ record self { records = self.records + 1 } }
    {
        Position {
            counts: Counts {
                records: self.counts.records + 1,
                ..self.counts
            },
            spot: self.spot,
        }
    }

    /// Returns the same position at the start of a stream, of which no record was checked.
    pub(crate) fn with_no_records(self) -> Position
        ensures { result ≡ record self { records = 0 } }
    {
        Position {
            counts: Counts {
                records: 0,
                ..self.counts
            },
            spot: self.spot,
        }
    }

    /// Returns a fault of the record that became whole last.
    pub(crate) fn record_fault(self, side: Side, byte: u32, reason: Reason) -> Error
        ensures { result ≡ Error.Refused
            (record {
              place = Place.Record self.connections side self.records byte;
              reason = reason;
            }) }
    {
        self.counts
            .fault_in(side, self.counts.records, byte, reason)
    }

    /// Returns a fault of the record that is open.
    pub(crate) fn next_record_fault(self, side: Side, byte: u32, reason: Reason) -> Error
        ensures { result ≡ Error.Refused
            (record {
              place = Place.Record self.connections side
                  (self.records + 1) byte;
              reason = reason;
            }) }
    {
        self.counts.next_record_fault(side, byte, reason)
    }
}

/// Returns a fault at a byte of the file.
#[cold]
#[inline(never)]
pub(crate) fn file_fault(at: u64, reason: Reason) -> Error
    ensures { result ≡ Error.Refused (record { place = Place.File at; reason = reason }) }
{
    Error::Refused(Fault {
        place: Place::File { at },
        reason,
    })
}
