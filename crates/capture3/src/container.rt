//! The container: connections of two streams, each cut into chunks, whose records are joined.

pub(crate) mod in_place;
pub(crate) mod kept_streams;
pub(crate) mod packing;
pub(crate) mod position;
pub(crate) mod side_words;

ghost use Rattle.std.specs.Prelude.{◌≡◌, ◌≢◌, ◌≤◌, ◌<◌, ◌+◌, length, take, Err, IfOk, IfErr, IfSome, OnErr, OnOk, None, Some};
ghost use Rattle.capture3.specs.machinery.Container.{CanGoOn, ComesNext, ComesToFault, ShowsError, first_cursor, GoesBy, IsCutInRecord, Leaves, Reaches, RecallFails, Recalled, room_in, StepsTo, TakesPiece, unpacking_in};
ghost use Rattle.record_mark.specs.Joining.{Between};
ghost use Rattle.capture3.specs.machinery.Position.{AreEmpty, cost_of, IsEndSpot, most_things, room_of, StoredWith};
ghost use Rattle.capture3.specs.machinery.ContainerMachine.{unpacking_start};
ghost use Rattle.capture3.specs.machinery.InPlace.{IsCopied, LiesIn};
ghost use Rattle.record_mark.specs.RecordMark.{max_body};
ghost use Rattle.record_mark.specs.Taking.{IsRunning, IsWhole, body_of, joining_of, released, unbegun};

use crate::container::in_place::InPlaceJoiner;
use crate::container::kept_streams::Streams;
use crate::container::position::spot::{Event, Spot, WordOf};
use crate::container::position::{Position, Transition, file_fault};
use crate::fault::{Error, Noted, Place, Side};
use record_mark::{JoinError, Step};
use std::alloc::Global;
use xdr3::Reason;

/// How far the kept streams are checked: which side's stream, and how many of its bytes were taken.
#[derive(Clone, Copy)]
pub(crate) struct Cursor {
    side: Side,
    taken: usize,
}

/// Takes a capture apart, from pieces cut anywhere.
#[derive(Drop)]
pub(crate) struct Container {
    pub(crate) position: Position,
    pub(crate) joiner: InPlaceJoiner,
    /// The kept streams of the open connection. Empty outside a connection of version 2.
    pub(crate) streams: Streams,
    /// How far kept streams are checked. The position is after their side word 0 already.
    pub(crate) cursor: Option<Cursor>,
}

impl Container {
    pub(crate) fn new(alloc: Global) -> Container
        ensures running { IsRunning result.joiner.taking }
        ensures empty { AreEmpty result.streams.kept }
        ensures unopened { result.cursor ≡ None }
        ensures room { room_of result.position result.streams.kept ≡ most_things }
        ensures machine { unpacking_in result ≡ unpacking_start }
    {
        Container {
            position: Position::start(),
            joiner: InPlaceJoiner::new(alloc),
            streams: Streams::new(alloc),
            cursor: None,
        }
    }

    /// Returns the body of the record that is whole, which may lie in the piece that it was taken
    /// from.
    #[inline(always)]
    pub(crate) fn body<'a>(&'a self, piece: &'a [u8]) -> &'a [u8]
        requires whole { IsWhole self.now.joiner.taking }
        requires lies { LiesIn self.now.joiner piece.now }
        ensures body { result.now ≡ body_of self.now.joiner.taking }
        ensures limit { length result.now ≤ max_body }
    {
        self.joiner.body(piece)
    }

    /// If a record is whole, makes room for the next one.
    pub(crate) fn release(&mut self)
        ensures joiner { self.new.joiner.taking ≡ released self.old.joiner.taking }
        ensures position { self.new.position ≡ self.old.position }
        ensures streams { self.new.streams.kept ≡ self.old.streams.kept }
        ensures cursor { self.new.cursor ≡ self.old.cursor }
    {
        self.joiner.release();
    }

    /// Returns a fault of the record that is whole.
    pub(crate) fn record_fault(&self, side: Side, byte: u32, reason: Reason) -> Error
        ensures { result ≡ Error.Refused
            (record {
              place = Place.Record self.now.position.connections side
                  self.now.position.records byte;
              reason = reason;
            }) }
    {
        self.position.record_fault(side, byte, reason)
    }

    /// Returns what is whole next, and how many bytes of `piece` were taken for it: none if it is
    /// of kept streams. If nothing is whole yet, some bytes were taken. If it fails, it puts the
    /// error into `error`.
    #[inline(always)]
    pub(crate) fn next(
        &mut self,
        piece: &[u8],
        error: &mut Error,
    ) -> Result<(usize, Option<Event>), Noted>
        requires ready { CanGoOn self.old.cursor self.old.joiner.taking self.old }
        requires some { self.old.cursor ≡ None → 0 < length piece.now }

        ensures ok { IfOk result (ComesNext self.old self.new piece.now) }
        ensures fault { OnErr result (ComesToFault self.old piece.now error.new) }
    {
        match self.cursor {
            Some(_) => self.next_aside(piece, error),
            None => match self.take_whole(piece) {
                Some((count, side)) => Ok((count, Some(Event::Record(side)))),
                None => self.next_aside(piece, error),
            },
        }
    }

    /// Does the same where no whole record of one fragment is at hand. A chunk's length word is
    /// tried first, since one may come before each record.
    #[inline(never)]
    fn next_aside(
        &mut self,
        piece: &[u8],
        error: &mut Error,
    ) -> Result<(usize, Option<Event>), Noted>
        requires ready { CanGoOn self.old.cursor self.old.joiner.taking self.old }
        requires some { self.old.cursor ≡ None → 0 < length piece.now }

        ensures ok { IfOk result (ComesNext self.old self.new piece.now) }
        ensures fault { OnErr result (ComesToFault self.old piece.now error.new) }
    {
        match self.cursor {
            Some(_) => self.next_far(piece, error),
            None => match self.take_length(piece) {
                Some(next) => Ok(next),
                None => self.next_far(piece, error),
            },
        }
    }

    /// Does the same anywhere.
    #[inline(never)]
    fn next_far(&mut self, piece: &[u8], error: &mut Error) -> Result<(usize, Option<Event>), Noted>
        requires ready { CanGoOn self.old.cursor self.old.joiner.taking self.old }

        ensures ok { IfOk result (ComesNext self.old self.new piece.now) }
        ensures fault { OnErr result (ComesToFault self.old piece.now error.new) }
    {
        match self.cursor {
            Some(cursor) => match self.recall(cursor) {
                Ok(event) => Ok((0, Some(event))),
                Err(found) => {
                    *error = found;
                    Err(Noted)
                }
            },
            None => match self.advance(piece, error) {
                Ok((count, Some(Event::Streams))) => match self.recall_first() {
                    Ok(event) => Ok((count, Some(event))),
                    Err(found) => {
                        *error = found;
                        Err(Noted)
                    }
                },
                Ok((count, event)) => Ok((count, event)),
                Err(Noted) => Err(Noted),
            },
        }
    }

    /// Version 1: takes a whole record of one fragment from the start of `piece` and of the open chunk, where
    /// it stays, and returns how many bytes it has there, and its side. Returns `None` and takes nothing if no
    /// such record is there, or if a record is begun: `next_aside` takes any other bytes.
    #[inline(always)]
    fn take_whole(&mut self, piece: &[u8]) -> Option<(usize, Side)>
        requires ready { CanGoOn None self.old.joiner.taking self.old }

        // The record.
        ensures within { IfSome result (λ r. (0 < r.0) × (r.0 ≤ length piece.now)) }
        ensures reaches { IfSome result
            (λ r. Reaches self.old (take r.0 piece.now) (Some (Event.Record r.1)) self.new.position
            self.new) }
        ensures lies { IfSome result (λ r. LiesIn self.new.joiner (take r.0 piece.now)) }
        ensures none { result ≡ None → self.new ≡ self.old }

        // What stays.
        ensures cursor { self.new.cursor ≡ self.old.cursor }
    {
        let open = self.position;
        let Spot::Chunk(side, left) = open.spot else {
            return None;
        };
        let front = &piece[..piece.len().min(left as usize)];
        let count = self.joiner.take_whole(front)?;
        self.position.pass_record(side, left, count as u32);
        Some((count, side))
    }

    /// Returns what is whole first in the streams, which are whole.
    #[inline(never)]
    fn recall_first(&mut self) -> Result<Event, Error>
        requires stored { StoredWith (Some Event.Streams) self.old.position self.old.streams.kept }

        // What is whole.
        ensures recalled { IfOk result
            (Recalled (first_cursor) self.old.position self.new.position self.old.streams.kept
            self.new.streams.kept self.new.joiner.taking self.new.cursor) }
        ensures joiner { IfOk result (λ event. Leaves (Some event) self.new.joiner.taking) }
        ensures copied { OnOk result (IsCopied self.new.joiner) }
        ensures fault { IfErr result
            (RecallFails first_cursor self.old.position self.old.streams.kept) }

        // The container stays ready for the next bytes.
        ensures ready { OnOk result
            (CanGoOn self.new.cursor (released self.new.joiner.taking) self.new) }
        ensures room { OnOk result (room_in self.new + 1
            ≤ room_of self.old.position self.old.streams.kept
            + cost_of (Some Event.Streams) self.old.streams.kept) }
    {
        let cursor = self.open_streams();
        self.recall(cursor)
    }

    /// Takes bytes of `piece` until something is whole or the piece is used up, and returns how
    /// many. If it fails, it puts the error into `error`.
    #[inline(never)]
    fn advance(&mut self, piece: &[u8], error: &mut Error) -> Result<(usize, Option<Event>), Noted>
        requires ready { CanGoOn None self.old.joiner.taking self.old }

        // The bytes taken, and what is whole with them.
        ensures taken { IfOk result (TakesPiece piece.now) }
        ensures reaches { IfOk result
            (λ r. Reaches self.old (take r.0 piece.now) r.1 self.new.position self.new) }
        ensures copied { OnOk result (IsCopied self.new.joiner) }
        ensures fault { OnErr result (ShowsError (unpacking_in self.old) piece.now error.new) }

        // What stays.
        ensures cursor { OnOk result (self.new.cursor ≡ self.old.cursor) }
    {
        let mut taken = 0;
        while taken < piece.len() {
            // Written out, since `?` takes more instructions for each step.
            match self.step(&piece[taken..], error) {
                Ok((count, event)) => {
                    taken += count;
                    if event.is_some() {
                        return Ok((taken, event));
                    }
                }
                Err(Noted) => return Err(Noted),
            }
        }
        Ok((taken, None))
    }

    /// Tests that the file may end here, after this many bytes.
    pub(crate) fn end(&self, size: u64) -> Result<(), Error>
        ensures ok { OnOk result (IsEndSpot self.now.position.spot) }
        ensures err { IfErr result (λ error. (IsEndSpot self.now.position.spot → ⊥)
            × (error ≡ Error.Refused (record
            { place = Place.File size; reason = Reason.CaptureCut }))) }
    {
        let position = self.position;
        match position.spot {
            Spot::Ended(_) => Ok(()),
            _ => Err(file_fault(size, Reason::CaptureCut)),
        }
    }

    /// Takes the bytes of `rest` that belong to the part of the capture that is open, and returns how
    /// many, and what is whole with them. If it fails, it puts the error into `error`.
    #[inline(always)]
    fn step(&mut self, rest: &[u8], error: &mut Error) -> Result<(usize, Option<Event>), Noted>
        requires some { 0 < length rest.now }
        requires ready { CanGoOn None self.old.joiner.taking self.old }

        ensures ok { IfOk result (StepsTo self.old self.new rest.now) }
        ensures fault { OnErr result (ShowsError (unpacking_in self.old) rest.now error.new) }
    {
        let position = self.position;
        match position.spot {
            Spot::Word(word, part) => match word {
                WordOf::Length(side) => {
                    let step = position
                        .counts
                        .take_word(WordOf::Length(side), part, self.joiner.open_body(), rest);
                    self.go(step, error)
                }
                _ => self.step_aside(rest, error),
            },
            Spot::Chunk(side, left) => {
                let step = position.counts.join(&mut self.joiner, side, left, rest);
                self.go(step, error)
            }
            _ => self.step_aside(rest, error),
        }
    }

    /// Does the same at any part, out of the way of version 1's chunks.
    #[inline(never)]
    fn step_aside(
        &mut self,
        rest: &[u8],
        error: &mut Error,
    ) -> Result<(usize, Option<Event>), Noted>
        requires some { 0 < length rest.now }
        requires ready { CanGoOn None self.old.joiner.taking self.old }

        ensures ok { IfOk result (StepsTo self.old self.new rest.now) }
        ensures fault { OnErr result (ShowsError (unpacking_in self.old) rest.now error.new) }
    {
        let position = self.position;
        match position.spot {
            Spot::Magic => self.go(position.counts.take_magic(rest), error),
            Spot::Digit => self.go(position.counts.take_digit(rest), error),
            Spot::Word(word, part) => {
                let step = position
                    .counts
                    .take_word(word, part, self.joiner.open_body(), rest);
                self.go(step, error)
            }
            Spot::Chunk(side, left) => {
                let step = position.counts.join(&mut self.joiner, side, left, rest);
                self.go(step, error)
            }
            Spot::SideChunk(side, left) => {
                let step = position.counts.gather(&mut self.streams, side, left, rest);
                self.go(step, error)
            }
            Spot::Ended(_) => {
                *error = file_fault(position.counts.at, Reason::AfterEnd);
                Err(Noted)
            }
        }
    }

    /// Version 1: takes the bytes of `rest` that belong to the open length word, as `step` does.
    /// Returns `None` and takes nothing if another part is open, or if the word is refused.
    #[inline(always)]
    fn take_length(&mut self, rest: &[u8]) -> Option<(usize, Option<Event>)>
        requires some { 0 < length rest.now }
        requires ready { CanGoOn None self.old.joiner.taking self.old }

        ensures steps { IfSome result (StepsTo self.old self.new rest.now) }
        ensures file { IfSome result (λ step. step.1 ≢ Some Event.Streams) }
        ensures none { result ≡ None → self.new ≡ self.old }
    {
        let open = self.position;
        let Spot::Word(WordOf::Length(side), part) = open.spot else {
            return None;
        };
        let so_far = self.joiner.open_body();
        let word = WordOf::Length(side);
        match open.counts.take_word(word, part, so_far, rest) {
            Ok(step) if step.event != Some(Event::Streams) => {
                self.position = step.position;
                Some((step.count, step.event))
            }
            _ => None,
        }
    }

    /// Goes to where a step leads, and returns how many bytes it takes, and what is whole with them. If
    /// it failed, the error is put into `error`.
    #[inline(always)]
    fn go(
        &mut self,
        step: Result<Transition, Error>,
        error: &mut Error,
    ) -> Result<(usize, Option<Event>), Noted>
        ensures { GoesBy step self.old self.new result error.new }
    {
        match step {
            Ok(step) => {
                self.position = step.position;
                Ok((step.count, step.event))
            }
            Err(found) => {
                *error = found;
                Err(Noted)
            }
        }
    }

    /// Starts to check the streams, which are whole, from the client's first byte.
    fn open_streams(&mut self) -> Cursor
        ensures result { result ≡ first_cursor }
        ensures cursor { self.new.cursor ≡ Some result }
        ensures position { self.new.position ≡ self.old.position }
        ensures joiner { self.new.joiner.taking ≡ unbegun }
        ensures streams { self.new.streams.kept ≡ self.old.streams.kept }
    {
        // No record is begun among chunks that are kept. To clear the joiner spares the clauses that
        // would carry this to here.
        self.joiner.clear();
        let cursor = Cursor {
            side: Side::Client,
            taken: 0,
        };
        self.cursor = Some(cursor);
        cursor
    }

    /// Returns what is whole next in the streams after the cursor: a record, or a stream's end.
    /// With the server's end the streams are let go.
    #[inline(never)]
    fn recall(&mut self, cursor: Cursor) -> Result<Event, Error>
        requires here { self.old.cursor ≡ Some cursor }
        requires ready { CanGoOn (Some cursor) self.old.joiner.taking self.old }

        // What is whole.
        ensures recalled { IfOk result
            (Recalled cursor self.old.position self.new.position self.old.streams.kept
            self.new.streams.kept
            self.new.joiner.taking self.new.cursor) }
        ensures joiner { IfOk result (λ event. Leaves (Some event) self.new.joiner.taking) }
        ensures copied { OnOk result (IsCopied self.new.joiner) }
        ensures fault { IfErr result (RecallFails cursor self.old.position self.old.streams.kept) }

        // The container stays ready for the next bytes.
        ensures ready { OnOk result
            (CanGoOn self.new.cursor (released self.new.joiner.taking) self.new) }
        ensures room { OnOk result (room_in self.new + 1 ≤ room_in self.old) }
    {
        let side = cursor.side;
        let rest = &self.streams.of_side(side)[cursor.taken..];
        match self.joiner.push(rest) {
            Ok((count, Step::Record)) => {
                self.position = self.position.with_next_record();
                self.cursor = Some(Cursor {
                    side,
                    taken: cursor.taken + count,
                });
                Ok(Event::Record(side))
            }
            Ok((_, Step::More)) => self.recall_end(side),
            Err(JoinError::TooLong { at }) => {
                Err(
                    self.position
                        .next_record_fault(side, at, Reason::RecordTooLong),
                )
            }
            Err(JoinError::Memory) => Err(Error::Memory),
        }
    }

    /// Ends this side's stream, which is cut if a record is open.
    fn recall_end(&mut self, side: Side) -> Result<Event, Error>
        requires running { IsRunning self.old.joiner.taking }
        ensures between { OnOk result (joining_of self.old.joiner.taking ≡ Between) }
        ensures joiner { self.new.joiner ≡ self.old.joiner }
        ensures client { side ≡ Side.Client → IfOk result
            (λ event. (event ≡ Event.Turn)
            × (self.new.position ≡ record self.old.position { records = 0 })
            × (self.new.cursor ≡ Some (record { side = Side.Server; taken = 0 }))
            × (self.new.streams.kept ≡ self.old.streams.kept)) }
        ensures server { side ≡ Side.Server → IfOk result
            (λ event. (event ≡ Event.Close) × (self.new.position ≡ self.old.position)
            × (self.new.cursor ≡ None) × AreEmpty self.new.streams.kept) }
        ensures cut { IfErr result
            (IsCutInRecord self.old.position side (joining_of self.old.joiner.taking)) }
    {
        if let Some(byte) = self.joiner.open_body() {
            return Err(
                self.position
                    .next_record_fault(side, byte, Reason::RecordCut),
            );
        }
        match side {
            Side::Client => {
                self.position = self.position.with_no_records();
                self.cursor = Some(Cursor {
                    side: Side::Server,
                    taken: 0,
                });
                Ok(Event::Turn)
            }
            Side::Server => {
                self.cursor = None;
                self.streams.clear();
                Ok(Event::Close)
            }
        }
    }
}
