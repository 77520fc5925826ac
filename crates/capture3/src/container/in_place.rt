//! Records that stay where they lie.

ghost use Rattle.std.specs.Prelude.{◌≡◌, ◌≤◌, ◌<◌, ◌+◌, false, length, take, Err, IfOk, IfSome, None};
ghost use Rattle.record_mark.specs.Joining.{Whole, join_next};
ghost use Rattle.record_mark.specs.Machine.{Runs, Stops, after};
ghost use Rattle.record_mark.specs.Pushing.{PushesMachine};
ghost use Rattle.record_mark.specs.RecordMark.{max_body};
ghost use Rattle.record_mark.specs.Taking.{IsRunning, IsWhole, body_of, joining_of, released, unbegun};

use crate::device::trail::Trail;
use record_mark::{JoinError, Joiner, Step, whole_record};
use std::alloc::Global;
use std::marker::Model;

/// Joins the fragments of one record after another. A record that lies whole in a piece, in one
/// fragment, stays there, and any other is copied (RFC 5531, section 11).
#[derive(Drop)]
pub(crate) struct InPlaceJoiner {
    joiner: Joiner,
    /// The body of the record that is whole, if it lies in the piece. Then the joiner has none.
    lying: Option<Trail>,
}

impl Model for InPlaceJoiner {
    ghost use Rattle.capture3.specs.machinery.InPlace.{InPlaceState};

    ghost Value = { InPlaceState };

    ghost use Rattle.capture3.specs.machinery.InPlaceInside.{IsSoundInPlace, state_shown};

    ghost view = { state_shown };

    ghost invariant = { IsSoundInPlace };
}

impl InPlaceJoiner {
    ghost use Rattle.capture3.specs.machinery.InPlace.{LiesIn};
    ghost use Rattle.capture3.specs.machinery.Position.{IsOpenBody};

    /// Returns a joiner at the start of a record. It has not allocated yet.
    pub(crate) fn new(alloc: Global) -> InPlaceJoiner
        ensures state { result.taking ≡ unbegun }
        ensures apart { result.lies ≡ false }
    {
        InPlaceJoiner {
            joiner: Joiner::new(alloc),
            lying: None,
        }
    }

    /// Starts the next record. The body's memory is kept for it.
    pub(crate) fn clear(&mut self)
        ensures state { self.new.taking ≡ unbegun }
        ensures apart { self.new.lies ≡ false }
    {
        self.joiner.clear();
        self.lying = None;
    }

    /// If the record is whole, starts the next one. Otherwise does nothing.
    #[inline(always)]
    pub(crate) fn release(&mut self)
        ensures taking { self.new.taking ≡ released self.old.taking }
        ensures apart { self.new.lies ≡ false }
    {
        self.joiner.release();
        self.lying = None;
    }

    /// Takes a whole record of one fragment from the start of `piece`, where it stays, and returns
    /// how many bytes it has there. Returns `None` and takes nothing if a record is begun, or if no
    /// such record is there: `push` takes any other bytes.
    #[inline(always)]
    pub(crate) fn take_whole(&mut self, piece: &[u8]) -> Option<usize>
        requires running { IsRunning self.old.taking }
        ensures within { IfSome result (λ n. (4 ≤ n) × (n ≤ length piece.now)) }
        ensures whole { IfSome result (λ n. IsWhole self.new.taking) }
        ensures stops { IfSome result
            (λ n. after join_next (Runs (joining_of self.old.taking)) (take n piece.now)
            ≡ Stops (Whole (body_of self.new.taking))) }
        ensures lies { IfSome result (λ n. LiesIn self.new (take n piece.now)) }
        ensures none { result ≡ None → self.new ≡ self.old }
    {
        if !self.joiner.is_between() {
            return None;
        }
        let count = whole_record(piece)?;
        let mut body = Trail::new();
        body.note(&piece[4..count]);
        self.lying = Some(body);
        Some(count)
    }

    /// Returns the body of the record that is whole. `piece` is what it was taken from, if it lies
    /// there, and is not read otherwise.
    #[inline(always)]
    pub(crate) fn body<'a>(&'a self, piece: &'a [u8]) -> &'a [u8]
        requires whole { IsWhole self.now.taking }
        requires lies { LiesIn self.now piece.now }
        ensures body { result.now ≡ body_of self.now.taking }
        ensures limit { length result.now ≤ max_body }
    {
        match self.lying {
            Some(_) => &piece[4..],
            None => self.joiner.body(),
        }
    }

    /// Takes bytes of `piece` until the record is whole or the piece is used up, and returns how
    /// many it took.
    ///
    /// # Errors
    ///
    /// - `TooLong` at a fragment header with which the body would have more than 16,777,216 bytes.
    /// - `Memory` if an allocation for the body failed. This is only possible if the body with all
    ///   of `piece` is larger than the capacity.
    #[inline(always)]
    pub(crate) fn push(&mut self, piece: &[u8]) -> Result<(usize, Step), JoinError>
        requires running { IsRunning self.old.taking }
        ensures within { IfOk result (λ r. r.0 ≤ length piece.now) }
        ensures machine { PushesMachine self.old.taking self.new.taking piece.now result }
        ensures apart { self.new.lies ≡ false }
        ensures short { result ≡ Err JoinError.Memory
            → self.old.capacity < length (body_of self.old.taking) + length piece.now }
    {
        self.joiner.push(piece)
    }

    /// Returns how many bytes of the body have come if a record is open.
    pub(crate) fn open_body(&self) -> Option<u32>
        requires { IsRunning self.now.taking }
        ensures { IsOpenBody result (joining_of self.now.taking) }
    {
        if self.joiner.is_between() {
            None
        } else {
            Some(self.joiner.body().len() as u32)
        }
    }
}
