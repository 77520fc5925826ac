//! Version 2 of a capture: the side words of a connection, and the chunks after them.

ghost use Rattle.std.specs.Prelude.{◌≡◌, ◌≤◌, ◌+◌, ◌-◌, ◌<◌, length, take, IfErr, IfOk, OnErr, None, Some};
ghost use Rattle.capture3.specs.machinery.Position.{IsSoundBefore, Lands, room_of, StepsOver, StoredAt, TakesSome, unpacking_at};
ghost use Rattle.capture3.specs.machinery.PositionState.{IsSoundPosition, standing_at};
ghost use Rattle.capture3.specs.SidedChunks as kept;
ghost use Rattle.capture3.specs.machinery.ContainerMachine.{Mixed, mixed_on, unpacking_with};
ghost use Rattle.capture3.specs.SidedChunksMachine.{awaiting_side, measured, sided};
ghost use Rattle.record_mark.specs.Joining.{Joining};
ghost use Rattle.record_mark.specs.Taking.{IsRunning, Taking};
ghost use Rattle.capture3.specs.machinery.Container.{Leads, stream_of};
ghost use Rattle.capture3.specs.machinery.StreamsInMemory.{capacity_of};

use crate::container::kept_streams::Streams;
use crate::container::position::counts::Counts;
use crate::container::position::spot::{Event, Spot, Version, WordOf};
use crate::container::position::{Position, Transition, file_fault};
use crate::fault::{Error, Side};
use xdr3::Reason;

impl Counts {
    /// Returns the position after a side word, which is a chunk's or the one after the streams.
    #[inline(never)]
    pub(crate) fn after_side(self, n: u32, count: usize) -> Result<Transition, Error>
        requires sound { IsSoundBefore self WordOf.Side }
        ensures count { IfOk result (λ taken. taken.count ≡ count) }
        ensures steps { IfOk result (StepsOver self WordOf.Side) }
        ensures machine { (streams : kept.Streams) (joining : Joining)
            → Lands (mixed_on self.connections self.records joining
            (sided self.at self.total streams n)) streams joining result }
    {
        let side = match n {
            0 => return Ok(self.after_streams(count)),
            1 => Side::Client,
            2 => Side::Server,
            _ => return Err(file_fault(self.at, Reason::BadMark)),
        };
        Ok(self.after_bytes(count, self.at + 4, Spot::before(WordOf::SideLength(side))))
    }

    /// Returns the position after the side word 0. The next connection's word comes next in the
    /// file.
    fn after_streams(self, count: usize) -> Transition
        requires sound { IsSoundBefore self WordOf.Side }
        ensures count { result.count ≡ count }
        ensures steps { StepsOver self WordOf.Side result }
        ensures machine { (streams : kept.Streams) (joining : Joining)
            → Lands (mixed_on self.connections self.records joining
            (sided self.at self.total streams 0)) streams joining (Ok result) }
    {
        Transition {
            count,
            position: Position {
                counts: Counts {
                    at: self.at + 4,
                    records: 0,
                    ..self
                },
                spot: Spot::before(WordOf::Mark(Version::Two)),
            },
            event: Some(Event::Streams),
        }
    }

    /// Returns the position after the length word that follows a side word.
    #[inline(never)]
    pub(crate) fn after_side_length(
        self,
        side: Side,
        len: u32,
        count: usize,
    ) -> Result<Transition, Error>
        requires sound { IsSoundBefore self (WordOf.SideLength side) }
        ensures count { IfOk result (λ taken. taken.count ≡ count) }
        ensures steps { IfOk result (StepsOver self (WordOf.SideLength side)) }
        ensures machine { (streams : kept.Streams) (joining : Joining)
            → Lands (mixed_on self.connections self.records joining
            (measured self.at self.total streams side len)) streams joining result }
    {
        if len == 0 {
            return Err(file_fault(self.at, Reason::BadMark));
        }
        self.chunk_opened(count, len, Spot::SideChunk(side, len))
    }

    /// Version 2: takes bytes of a chunk, and keeps them.
    #[inline(never)]
    pub(crate) fn gather(
        self,
        streams: &mut Streams,
        side: Side,
        left: u32,
        rest: &[u8],
    ) -> Result<Transition, Error>
        requires sound { IsSoundPosition (standing_at self (Spot.SideChunk side left)) }
        requires some { 0 < length rest.now }
        requires stored { StoredAt (Spot.SideChunk side left) self.total streams.old.kept }

        // The bytes taken, with which nothing is whole.
        ensures taken { IfOk result (TakesSome rest.now) }
        ensures leads { (taking : Taking) → IsRunning taking
            → IfOk result (λ t. Leads (standing_at self (Spot.SideChunk side left)) t.position
            (taking, taking) (streams.old.kept, streams.new.kept) (take t.count rest.now)
            t.event) }

        // Errors.
        ensures error { IfErr result (λ error. error ≡ Error.Memory) }
        ensures short { OnErr result (capacity_of side streams.old
            < length (stream_of side streams.old.kept) + length rest.now) }
    {
        let count = rest.len().min(left as usize);
        streams.add(side, &rest[..count])?;
        Ok(self.take_side_chunk(side, left, count as u32))
    }

    /// Version 2: takes this many bytes of a chunk. They are kept, so none of them ends a record.
    fn take_side_chunk(self, side: Side, left: u32, count: u32) -> Transition
        requires sound { IsSoundPosition (standing_at self (Spot.SideChunk side left)) }
        requires within { count ≤ left }

        // What was taken.
        ensures count { result.count ≡ count }
        ensures event { result.event ≡ None }
        ensures machine { (streams : kept.Streams) (joining : Joining)
            → unpacking_at result.position streams joining ≡ unpacking_with self.at self.total
            self.connections self.records (Mixed streams (awaiting_side side (left - count)))
            joining }

        // What is kept with the bytes fits the position.
        ensures room { (old new : kept.Streams) → kept.size new ≡ kept.size old + count
            → room_of result.position new ≡ room_of
            (standing_at self (Spot.SideChunk side left)) old }
        ensures stored { (old new : kept.Streams) → kept.size new ≡ kept.size old + count
            → StoredAt (Spot.SideChunk side left) self.total old
            → StoredAt result.position.spot result.position.total new }
    {
        let left = left - count;
        let spot = if left == 0 {
            Spot::before(WordOf::Side)
        } else {
            Spot::SideChunk(side, left)
        };
        self.after_bytes(count as usize, self.at, spot)
    }
}
