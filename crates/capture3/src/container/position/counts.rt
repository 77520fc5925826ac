//! How much of a capture was taken, and the steps from one part to the next.

ghost use Rattle.std.specs.Prelude.{◌≡◌, ◌≤◌, ◌<◌, ◌+◌, ◌-◌, ◌^◌, false, length, take, Err, IfErr, IfOk, None, Some, if◌then◌else◌};
ghost use Rattle.capture3.specs.machinery.Position.{AreEmpty, IsOpenBody, IsSoundBefore, KeepsStreams, landed_at, Lands, MovesFrom, StepsFrom, StepsOver, StoredAt, StoredBefore, TakesRoom, TakesSome, unpacking_at, version_of, with_chunk, word_read};
ghost use Rattle.capture3.specs.machinery.PositionState.{IsSoundPosition, standing_at};
ghost use Rattle.capture3.specs.machinery.Container.{Leads, ShowsError, unpacking_of};
ghost use Rattle.record_mark.specs.Taking.{IsRunning, body_of};
ghost use Rattle.capture3.specs.SidedChunks as kept;
ghost use Rattle.capture3.specs.machinery.ContainerMachine.{begun_at, chunk_counted, connection_marked, in_chunk, stream_ended};
ghost use Rattle.capture3.specs.machinery.ContainerMachine as spec;
ghost use Rattle.record_mark.specs.Joining.{Between, Joining};
ghost use Rattle.record_mark.specs.Machine.{Stops};

use crate::container::in_place::InPlaceJoiner;
use crate::container::position::spot::{Event, Spot, Version, WordOf};
use crate::container::position::{
    MAGIC, MAX_BYTES, MAX_CONNECTIONS, Position, Transition, file_fault,
};
use crate::fault::{Error, Fault, Place, Side};
use record_mark::{JoinError, Step, Word, WordPart};
use xdr3::Reason;

/// How much of a capture was taken. The steps from one part to the next are methods of this type,
/// and each is given the part that is open.
#[derive(Clone, Copy)]
pub(crate) struct Counts {
    /// The file's byte at which the open word begins, or the byte after the open chunk. In the
    /// magic and at the end it is the number of bytes taken.
    pub(crate) at: u64,
    /// The stream bytes of all chunks so far, with those of the open one.
    pub(crate) total: u32,
    pub(crate) connections: u32,
    /// The whole records so far of the stream that is checked.
    pub(crate) records: u32,
}

impl Counts {
    /// Takes bytes of the magic.
    #[inline(never)]
    pub(crate) fn take_magic(self, rest: &[u8]) -> Result<Transition, Error>
        requires sound { IsSoundPosition (standing_at self Spot.Magic) }
        requires some { 0 < length rest.now }
        ensures taken { IfOk result (TakesSome rest.now) }
        ensures steps { IfOk result (StepsFrom (standing_at self Spot.Magic)) }
        ensures machine { (joining : Joining)
            → MovesFrom (standing_at self Spot.Magic) joining rest.now result }
    {
        let from = self.at as usize;
        let count = (MAGIC.len() - from).min(rest.len());
        for i in 0..count {
            if rest[i] != MAGIC[from + i] {
                return Err(file_fault(self.at + i as u64, Reason::BadMagic));
            }
        }
        let spot = if from + count == MAGIC.len() {
            Spot::Digit
        } else {
            Spot::Magic
        };
        let at = self.at + count as u64;
        Ok(self.after_bytes(count, at, spot))
    }

    /// Takes the magic's last byte.
    #[inline(never)]
    pub(crate) fn take_digit(self, rest: &[u8]) -> Result<Transition, Error>
        requires sound { IsSoundPosition (standing_at self Spot.Digit) }
        requires some { 0 < length rest.now }
        ensures taken { IfOk result (TakesSome rest.now) }
        ensures steps { IfOk result (StepsFrom (standing_at self Spot.Digit)) }
        ensures machine { (joining : Joining)
            → MovesFrom (standing_at self Spot.Digit) joining rest.now result }
    {
        match rest[0] {
            b'1' => Ok(self.of_version(Version::One)),
            b'2' => Ok(self.of_version(Version::Two)),
            _ => Err(file_fault(self.at, Reason::BadMagic)),
        }
    }

    /// Returns the position after the magic's last byte.
    fn of_version(self, version: Version) -> Transition
        requires { IsSoundPosition (standing_at self Spot.Digit) }
        ensures some { (result.count ≡ 1) × (result.event ≡ None) }
        ensures steps { StepsFrom (standing_at self Spot.Digit) result }
        ensures machine { (streams : kept.Streams) (joining : Joining)
            → unpacking_at result.position streams joining ≡ spec.before_mark
            (version_of version) (self.at + 1) self.total self.connections self.records joining }
    {
        self.after_bytes(1, self.at + 1, Spot::before(WordOf::Mark(version)))
    }

    /// Takes bytes of a word. `so_far` is how many bytes of the body have come if a record is open.
    #[inline(always)]
    pub(crate) fn take_word(
        self,
        word: WordOf,
        part: WordPart,
        so_far: Option<u32>,
        rest: &[u8],
    ) -> Result<Transition, Error>
        requires sound { IsSoundPosition (standing_at self (Spot.Word word part)) }
        requires some { 0 < length rest.now }
        ensures taken { IfOk result (TakesSome rest.now) }
        ensures steps { IfOk result (StepsFrom (standing_at self (Spot.Word word part))) }
        ensures machine { (joining : Joining) → IsOpenBody so_far joining
            → MovesFrom (standing_at self (Spot.Word word part)) joining rest.now result }
    {
        let (count, taken) = part.take(rest);
        match taken {
            Word::Part(part) => Ok(self.after_bytes(count, self.at, Spot::Word(word, part))),
            Word::Whole(n) => self.after_word(word, n, so_far, count),
        }
    }

    /// Returns the position after a word.
    #[inline(always)]
    fn after_word(
        self,
        word: WordOf,
        n: u32,
        so_far: Option<u32>,
        count: usize,
    ) -> Result<Transition, Error>
        requires sound { IsSoundBefore self word }
        ensures count { IfOk result (λ taken. taken.count ≡ count) }
        ensures steps { IfOk result (StepsOver self word) }
        ensures machine { (streams : kept.Streams) (joining : Joining)
            → StoredBefore word self.total streams → IsOpenBody so_far joining
            → Lands (word_read word self streams joining n) streams joining result }
    {
        match word {
            WordOf::Mark(version) => self.after_mark(version, n, count),
            WordOf::Length(side) => self.after_length(side, n, so_far, count),
            WordOf::Side => self.after_side(n, count),
            WordOf::SideLength(side) => self.after_side_length(side, n, count),
        }
    }

    /// Returns the position after a connection word.
    fn after_mark(self, version: Version, n: u32, count: usize) -> Result<Transition, Error>
        requires sound { IsSoundBefore self (WordOf.Mark version) }
        ensures count { IfOk result (λ taken. taken.count ≡ count) }
        ensures steps { IfOk result (StepsOver self (WordOf.Mark version)) }
        ensures machine { (streams : kept.Streams) (joining : Joining) → AreEmpty streams
            → Lands (connection_marked (version_of version) self.at self.total self.connections
            self.records joining n) streams joining result }
    {
        match n {
            0 => Ok(self.after_bytes(count, self.at + 4, Spot::Ended(version))),
            1 if self.connections < MAX_CONNECTIONS => Ok(self.after_begin(version, count)),
            1 => Err(file_fault(self.at, Reason::TooManyConnections)),
            _ => Err(file_fault(self.at, Reason::BadMark)),
        }
    }

    /// Returns the position after a connection's word 1.
    fn after_begin(self, version: Version, count: usize) -> Transition
        requires sound { IsSoundBefore self (WordOf.Mark version) }
        requires few { self.connections < MAX_CONNECTIONS }
        ensures count { result.count ≡ count }
        ensures steps { StepsOver self (WordOf.Mark version) result }
        ensures event { result.event ≡ Some Event.Begin }
        ensures machine { (streams : kept.Streams) (joining : Joining) → AreEmpty streams
            → unpacking_at result.position streams joining ≡ begun_at
            (version_of version) self.at self.total (self.connections + 1) joining }
    {
        let word = match version {
            Version::One => WordOf::Length(Side::Client),
            Version::Two => WordOf::Side,
        };
        let counts = Counts {
            at: self.at + 4,
            connections: self.connections + 1,
            records: 0,
            ..self
        };
        Transition {
            count,
            position: Position {
                counts,
                spot: Spot::before(word),
            },
            event: Some(Event::Begin),
        }
    }

    /// Returns the position after a chunk's length word, or after a stream's word 0.
    #[inline(always)]
    fn after_length(
        self,
        side: Side,
        n: u32,
        so_far: Option<u32>,
        count: usize,
    ) -> Result<Transition, Error>
        requires sound { IsSoundBefore self (WordOf.Length side) }
        ensures count { IfOk result (λ taken. taken.count ≡ count) }
        ensures steps { IfOk result (StepsOver self (WordOf.Length side)) }
        ensures machine { (streams : kept.Streams) (joining : Joining) → IsOpenBody so_far joining
            → Lands (chunk_counted self.at self.total self.connections self.records side joining n)
            streams joining result }
    {
        match (n, so_far) {
            (0, None) => Ok(self.after_stream(side, count)),
            (0, Some(byte)) => Err(self.next_record_fault(side, byte, Reason::RecordCut)),
            _ => self.chunk_opened(count, n, Spot::Chunk(side, n)),
        }
    }

    /// Returns the position after a stream's word 0, if no record is open.
    fn after_stream(self, side: Side, count: usize) -> Transition
        requires sound { IsSoundBefore self (WordOf.Length side) }
        ensures count { result.count ≡ count }
        ensures steps { StepsOver self (WordOf.Length side) result }
        ensures machine { (streams : kept.Streams)
            → landed_at result.event streams (unpacking_at result.position streams Between) ≡ Stops
            (stream_ended self.at self.total self.connections self.records side Between) }
    {
        let after = Counts {
            at: self.at + 4,
            ..self
        };
        match side {
            Side::Client => Transition {
                count,
                position: Position {
                    counts: Counts {
                        records: 0,
                        ..after
                    },
                    spot: Spot::before(WordOf::Length(Side::Server)),
                },
                event: Some(Event::Turn),
            },
            // Only in version 1 a stream has a word 0.
            Side::Server => Transition {
                count,
                position: Position {
                    counts: after,
                    spot: Spot::before(WordOf::Mark(Version::One)),
                },
                event: Some(Event::Close),
            },
        }
    }

    /// Returns the position after the length word of a chunk, which is open if the limit leaves
    /// room for it.
    #[inline(always)]
    pub(crate) fn chunk_opened(
        self,
        count: usize,
        len: u32,
        chunk: Spot,
    ) -> Result<Transition, Error>
        requires at { self.at < 2 ^ 60 }
        requires small { self.total ≤ MAX_BYTES }
        requires sound { self.total + len ≤ MAX_BYTES
            → IsSoundPosition (standing_at (with_chunk self len) chunk) }
        ensures opened { IfOk result (λ taken. taken ≡ record {
          count = count;
          position = standing_at (with_chunk self len) chunk;
          event = None;
        }) }
        ensures fits { IfOk result (λ taken. self.total + len ≤ MAX_BYTES) }
        ensures over { IfErr result (λ error. (MAX_BYTES < self.total + len)
            × (error ≡ Error.Refused
            (record { place = Place.File self.at; reason = Reason.TooManyBytes }))) }
    {
        if len > MAX_BYTES - self.total {
            return Err(file_fault(self.at, Reason::TooManyBytes));
        }
        let counts = Counts {
            at: self.at + 4 + u64::from(len),
            total: self.total + len,
            ..self
        };
        Ok(Transition {
            count,
            position: Position {
                counts,
                spot: chunk,
            },
            event: None,
        })
    }

    /// Takes this many bytes of a chunk. With the last of them a record may be whole.
    #[inline(always)]
    pub(crate) fn take_chunk(self, side: Side, left: u32, count: u32, is_record: bool) -> Transition
        requires sound { IsSoundPosition (standing_at self (Spot.Chunk side left)) }
        requires some { 0 < count }
        requires within { count ≤ left }

        // What was taken.
        ensures count { result.count ≡ count }
        ensures event { result.event ≡ (if is_record then Some (Event.Record side) else None) }
        ensures machine { (streams : kept.Streams) (joining : Joining)
            → unpacking_at result.position streams joining ≡ in_chunk self.at self.total
            self.connections (if is_record then self.records + 1 else self.records) side
            (left - count) joining }

        // What is kept fits the position.
        ensures room { TakesRoom (standing_at self (Spot.Chunk side left)) result }
        ensures stored { KeepsStreams (standing_at self (Spot.Chunk side left)) result }
    {
        let left = left - count;
        let spot = if left == 0 {
            Spot::before(WordOf::Length(side))
        } else {
            Spot::Chunk(side, left)
        };
        if !is_record {
            return self.after_bytes(count as usize, self.at, spot);
        }
        Transition {
            count: count as usize,
            position: Position {
                counts: Counts {
                    records: self.records + 1,
                    ..self
                },
                spot,
            },
            event: Some(Event::Record(side)),
        }
    }

    /// Takes bytes of a chunk, and passes them to the joiner.
    #[inline(always)]
    pub(crate) fn join(
        self,
        joiner: &mut InPlaceJoiner,
        side: Side,
        left: u32,
        rest: &[u8],
    ) -> Result<Transition, Error>
        requires sound { IsSoundPosition (standing_at self (Spot.Chunk side left)) }
        requires some { 0 < length rest.now }
        requires running { IsRunning joiner.old.taking }

        // The bytes taken, and the record that is whole with them.
        ensures taken { IfOk result (TakesSome rest.now) }
        ensures leads { (streams : kept.Streams)
            → StoredAt (Spot.Chunk side left) self.total streams
            → IfOk result (λ t. Leads (standing_at self (Spot.Chunk side left)) t.position
            (joiner.old.taking, joiner.new.taking) (streams, streams) (take t.count rest.now)
            t.event) }
        ensures copied { joiner.new.lies ≡ false }

        // Errors.
        ensures fault { (streams : kept.Streams)
            → IfErr result (ShowsError (unpacking_of (standing_at self (Spot.Chunk side left))
            joiner.old.taking streams) rest.now) }
        ensures short { result ≡ Err Error.Memory → joiner.old.capacity
            < length (body_of joiner.old.taking) + length rest.now }
    {
        let piece = &rest[..rest.len().min(left as usize)];
        match joiner.push(piece) {
            Ok((count, Step::Record)) => Ok(self.take_chunk(side, left, count as u32, true)),
            Ok((count, Step::More)) => Ok(self.take_chunk(side, left, count as u32, false)),
            Err(JoinError::TooLong { at }) => {
                Err(self.next_record_fault(side, at, Reason::RecordTooLong))
            }
            Err(JoinError::Memory) => Err(Error::Memory),
        }
    }

    /// Returns a fault of the record that is open.
    pub(crate) fn next_record_fault(self, side: Side, byte: u32, reason: Reason) -> Error
        requires { self.records ≤ MAX_BYTES }
        ensures { result ≡ Error.Refused
            (record {
              place = Place.Record self.connections side
                  (self.records + 1) byte;
              reason = reason;
            }) }
    {
        self.fault_in(side, self.records + 1, byte, reason)
    }

    // A fault that is not built in line stays in memory, and the loop over messages does not move
    // the parts of one that is not there.
    #[cold]
    #[inline(never)]
    pub(crate) fn fault_in(self, side: Side, rec_no: u32, byte: u32, reason: Reason) -> Error
        ensures { result ≡ Error.Refused
            (record { place = Place.Record self.connections side rec_no byte; reason = reason }) }
    {
        Error::Refused(Fault {
            place: Place::Record {
                conn: self.connections,
                side,
                rec_no,
                byte,
            },
            reason,
        })
    }

    /// Returns the position after this many bytes, with this part open. Nothing is whole.
    #[inline(always)]
    pub(crate) fn after_bytes(self, count: usize, at: u64, spot: Spot) -> Transition
        requires { IsSoundPosition (standing_at (record self { at = at }) spot) }
        ensures { result ≡ record {
          count = count;
          position = standing_at (record self { at = at }) spot;
          event = None;
        } }
    {
        Transition {
            count,
            position: Position {
                counts: Counts { at, ..self },
                spot,
            },
            event: None,
        }
    }
}
