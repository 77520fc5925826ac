//! A capture whose records are checked as they come.

ghost use Rattle.std.specs.Prelude.{is_some, ◌≡◌, ◌≤◌, ◌<◌, ◌+◌, ◌++◌, ℕ, List, [], length, take, IfErr, IfOk, IfSome, OnErr, OnOk, None, Some};
ghost use Rattle.record_mark.specs.Taking.{IsWhole, released};
ghost use Rattle.capture3.specs.machinery.Container.{CanGoOn, room_in};
ghost use Rattle.capture3.specs.machinery.InPlace.{LiesIn};
ghost use Rattle.capture3.specs.Entry as spec;
ghost use Rattle.capture3.specs.machinery.Pairing.{error_at, FailsFrom, GoesTo, HasCome, IsHeld, IsOfBytes, LiesLast, SpellsLast};
ghost use Rattle.capture3.specs.Kept.{IsLent, kind_of};
ghost use Rattle.capture3.specs.Numbering.{number_lent};
ghost use Rattle.capture3.specs.machinery.Calls.{KnowsNone};
ghost use Rattle.capture3.specs.machinery.Position.{IsEndSpot, most_things};

use crate::container::Container;
use crate::container::position::spot::Event;
use crate::fault::{Error, Noted, Place, Side};
use crate::message::calls::CallTable;
use crate::message::scan::{scan_call, scan_reply};
use crate::message::stop;
use crate::message::visiting::MessageVisit;
use crate::reader::entry::{CallRef, Kind, LentEntry, ReplyRef};
use crate::reader::progress::Progress;
use std::alloc::Global;
use xdr3::{GetError, Reason};

/// A container, and the calls of its open connection.
#[derive(Drop)]
pub(crate) struct Pairing<C: Drop> {
    pub(crate) container: Container,
    pub(crate) calls: C,
    /// The number of the last message.
    pub(crate) number: u32,
    /// How many calls and replies came.
    pub(crate) calls_taken: u32,
    pub(crate) replies_taken: u32,
    /// Why `next` failed, if it has.
    pub(crate) error: Error,
    /// What the entry is that `next` took last, whose record stands; `None` if none is whole.
    pub(crate) last: Option<Kind>,
    ghost spells: { ∥ SpellsLast last container.joiner.taking ∥₁ },
}

impl<C: CallTable + Drop> Pairing<C> {
    ghost use Rattle.capture3.specs.MessageVisit.{Hears};
    ghost use Rattle.capture3.specs.machinery.Stepping.{RefusesMessage, TakesMessage, TakesNext};

    pub(crate) fn new(alloc: Global, calls: C) -> Pairing<C>
        requires none { KnowsNone (C.known calls) }
        ensures ready { CanGoOn result.container.cursor (released result.container.joiner.taking)
            result.container }
        ensures room { room_in result.container ≤ most_things }
        ensures machine { HasCome result.container (C.known result.calls) [] [] }
        ensures unlent { result.last ≡ None }
        ensures uncounted { (result.calls_taken ≡ 0) × (result.replies_taken ≡ 0) }
    {
        Pairing {
            container: Container::new(alloc),
            calls,
            number: 0,
            calls_taken: 0,
            replies_taken: 0,
            error: Error::Memory,
            last: None,
        }
    }

    /// Takes bytes of `piece` for the next entry, and returns how many: none if that is of kept
    /// streams. They may be too few for one. The items of a message are passed to the visitor, and
    /// its record stays until the next call. After an error the contents of the visitor are
    /// unspecified.
    #[inline(always)]
    pub(crate) fn next<V: MessageVisit>(
        &mut self,
        piece: &[u8],
        visitor: &mut V,
    ) -> Result<usize, Noted>
        requires ready { CanGoOn self.old.container.cursor
            (released self.old.container.joiner.taking) self.old.container }
        requires some { self.old.container.cursor ≡ None → 0 < length piece.now }

        ensures ok { IfOk result
            (TakesNext piece.now visitor.old visitor.new self.old self.new) }
        ensures machine { (bytes : List ℕ) (entries : List spec.Entry)
            → HasCome self.old.container (C.known self.old.calls) bytes entries
            → IfOk result
            (λ count. GoesTo (Hears V.rests V.stands visitor.old visitor.new) self.new.last
            self.new.number self.new.container (C.known self.new.calls)
            (bytes ++ take count piece.now) entries) }
        ensures fault { OnErr result
            (FailsFrom self.old.container (C.known self.old.calls) piece.now self.new.error) }
    {
        self.last = None;
        self.container.release();
        // Written out, since `?` takes more instructions for each message.
        let (count, event) = match self.container.next(piece, &mut self.error) {
            Ok(next) => next,
            Err(Noted) => return Err(Noted),
        };
        let taken = &piece[..count];
        match event {
            Some(Event::Begin) => {
                self.calls.clear();
                self.last = Some(Kind::Begin);
            }
            Some(Event::Record(Side::Client)) => match self.call(taken, visitor) {
                Ok(()) => {}
                Err(Noted) => return Err(Noted),
            },
            Some(Event::Record(Side::Server)) => match self.reply(taken, visitor) {
                Ok(()) => {}
                Err(Noted) => return Err(Noted),
            },
            Some(Event::Turn) => self.last = Some(Kind::Turn),
            Some(Event::Close) => self.last = Some(Kind::Close),
            // The container gives what the streams hold, and not the streams.
            Some(Event::Streams) => unreachable!(),
            None => {}
        }
        Ok(count)
    }

    /// Returns whether `next` takes no byte for what it returns, because kept streams are checked.
    pub(crate) fn is_recalling(&self) -> bool
        ensures { result ≡ is_some self.now.container.cursor }
    {
        self.container.cursor.is_some()
    }

    /// Returns how far the entries have come.
    pub(crate) fn progress(&self) -> Progress
        ensures connections { result.connections ≡ self.now.container.position.connections }
        ensures records { result.records ≡ self.now.container.position.records }
        ensures calls { result.calls ≡ self.now.calls_taken }
        ensures replies { result.replies ≡ self.now.replies_taken }
    {
        let position = &self.container.position;
        Progress {
            connections: position.counts.connections,
            records: position.counts.records,
            calls: self.calls_taken,
            replies: self.replies_taken,
        }
    }

    /// Borrows the entry that `next` took last, which is of this kind, with the bytes that `next`
    /// took for it.
    pub(crate) fn lend<'a>(&'a self, kind: Kind, piece: &'a [u8]) -> LentEntry<'a>
        requires last { self.now.last ≡ Some kind }
        requires lies { LiesLast self.now.last self.now.container.joiner piece.now }
        ensures kind { kind_of result ≡ kind }
        ensures lent { (entry : spec.Entry) → IsHeld kind self.now.container.joiner.taking entry
            → IsLent result entry }
        ensures number { IfSome (number_lent result) (λ number. number ≡ self.now.number) }
    {
        match kind {
            Kind::Begin => LentEntry::Begin,
            Kind::Call(id) => LentEntry::Call(CallRef {
                id,
                number: self.number,
                body: self.container.body(piece),
            }),
            Kind::Turn => LentEntry::Turn,
            Kind::Reply(id) => LentEntry::Reply(ReplyRef {
                id,
                number: self.number,
                body: self.container.body(piece),
            }),
            Kind::Close => LentEntry::Close,
            Kind::End => LentEntry::End,
        }
    }

    /// Tests that the file may end here, after this many bytes.
    pub(crate) fn end(&self, size: u64) -> Result<(), Error>
        ensures ok { OnOk result (IsEndSpot self.now.container.position.spot) }
        ensures err { IfErr result (λ error. (IsEndSpot self.now.container.position.spot → ⊥)
            × (error ≡ Error.Refused (record
            { place = Place.File size; reason = Reason.CaptureCut }))) }
    {
        self.container.end(size)
    }

    /// Takes the call that is whole with this piece. It joins the calls of its connection.
    fn call<V: MessageVisit>(&mut self, piece: &[u8], visitor: &mut V) -> Result<(), Noted>
        requires whole { IsWhole self.old.container.joiner.taking }
        requires lies { LiesIn self.old.container.joiner piece.now }
        ensures container { self.new.container ≡ self.old.container }
        ensures ok { OnOk result (TakesMessage C.known
            (Hears V.rests V.stands visitor.old visitor.new) Side.Client self.old self.new) }
        ensures err { OnErr result (RefusesMessage C.known Side.Client self.old self.new) }
    {
        let call = match scan_call(self.container.body(piece), visitor) {
            Ok(call) => call,
            Err(error) => return Err(self.note(Side::Client, error)),
        };
        match self.calls.admit(call.xid, call.id) {
            Ok(Some(number)) => {
                self.number = number;
                self.calls_taken = self.calls_taken.saturating_add(1);
                self.last = Some(Kind::Call(call.id));
                Ok(())
            }
            Ok(None) => Err(self.note(Side::Client, stop(0, Reason::XidConflict))),
            Err(_) => Err(self.note(Side::Client, GetError::Memory)),
        }
    }

    /// Takes the reply that is whole with this piece.
    fn reply<V: MessageVisit>(&mut self, piece: &[u8], visitor: &mut V) -> Result<(), Noted>
        requires whole { IsWhole self.old.container.joiner.taking }
        requires lies { LiesIn self.old.container.joiner piece.now }
        ensures container { self.new.container ≡ self.old.container }
        ensures ok { OnOk result (TakesMessage C.known
            (Hears V.rests V.stands visitor.old visitor.new) Side.Server self.old self.new) }
        ensures err { OnErr result (RefusesMessage C.known Side.Server self.old self.new) }
    {
        match scan_reply(&self.calls, self.container.body(piece), visitor) {
            Ok(call) => {
                self.number = call.number;
                self.replies_taken = self.replies_taken.saturating_add(1);
                self.last = Some(Kind::Reply(call.id));
                Ok(())
            }
            Err(error) => Err(self.note(Side::Server, error)),
        }
    }

    /// Notes why the record that is whole was refused.
    #[cold]
    #[inline(never)]
    fn note(&mut self, side: Side, error: GetError) -> Noted
        ensures error { self.new.error ≡ error_at self.old.container.position side error }
        ensures device { IsOfBytes self.new.error }
        ensures container { self.new.container ≡ self.old.container }
        ensures calls { self.new.calls ≡ self.old.calls }
    {
        self.error = match error {
            GetError::Stop(stop) => self.container.record_fault(side, stop.at, stop.reason),
            GetError::Memory => Error::Memory,
        };
        Noted
    }
}
