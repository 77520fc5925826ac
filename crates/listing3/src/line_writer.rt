//! The lines of messages, one after another.

mod gathering;
mod items_text;
mod large_data;

ghost use Rattle.std.specs.Prelude.{◌≡◌, ◌≤◌, ◌<◌, ◌+◌, ◌^◌, ◌++◌, ◌∷◌, ℕ, List, [], codes, decimal, drop, length, None, IfErr, OnErr, OnOk};
ghost use Rattle.xdr3.specs.Item.{Handle as HandleKind, Item, Opaque, Spells, Word, called};
ghost use Rattle.xdr3.specs.Visit.{Adds, Keeps};
ghost use Rattle.capture3.specs.Entry as spec;
ghost use Rattle.capture3.specs.Entry.{items_of};
ghost use Rattle.capture3.specs.Kept.{IsLent};
ghost use Rattle.capture3.specs.MessageVisit.{HasHeard};
ghost use Rattle.capture3.specs.machinery.Stepping.{IsOfKind};
ghost use Rattle.canon3.specs.Laws.{AreFirst};
ghost use Rattle.capture3.specs.Progress.{HasPassed};
ghost use Rattle.canon3.specs.WriteErrors.{CountsWriting, IsOfWriting};
ghost use Rattle.listing3.specs.machinery.ItemsText.{filled};
ghost use Rattle.listing3.specs.machinery.LineWriter.{after_front, items_before, LineRests, LineStands};
ghost use Rattle.listing3.specs.machinery.WritesText.{WritesText};
ghost use Rattle.listing3.specs.Listing.{entry_line, line, opening, prefix, procedure_name};

use crate::line_text::LineText;
use crate::line_writer::gathering::{Counting, Gathering};
use crate::line_writer::items_text::{ItemsText, encoded_size};
use crate::line_writer::large_data::write_filled;
use canon3::{EntryWriter, Sink, write_both};
use capture3::{Error, Kind, LentEntry, MessageVisit, Progress};
use procs3::proc_name;
use rpc_head::{ProcId, Start, after_xid};
use std::alloc::{AllocError, Global};
use std::hash::BuildHasher;
use xdr3::{PlainField, Visit};

/// Writes one line for each message. It passes the file handles of all messages to `handles`, and
/// buffers the text of the current one.
#[derive(Drop)]
pub(crate) struct LineWriter<H: Gathering + Drop> {
    handles: H,
    // The xid of the message, and the text of the items after it.
    xid: u32,
    items: ItemsText,
    // The text before the items.
    head: LineText,
}

/// Returns the procedure's name, or `RAW` if it has none.
fn name_of_procedure(id: ProcId) -> &'static str
    ensures { result.now ≡ procedure_name id }
{
    match proc_name(id) {
        Some(name) => name,
        None => "RAW",
    }
}

/// Returns the body of a message, which spells its items. Any other entry has neither.
#[inline(always)]
fn body_of(entry: LentEntry<'_>) -> &[u8]
    ensures { (one : spec.Entry) → IsLent entry.entry one → Spells (items_of one) result.now }
{
    match entry {
        LentEntry::Call(call) => call.body,
        LentEntry::Reply(reply) => reply.body,
        LentEntry::Begin | LentEntry::Turn | LentEntry::Close | LentEntry::End => &[],
    }
}

/// Returns the same error, made anew. If it were returned as it came, through memory, the result of each
/// message would be read from there.
#[inline(always)]
fn of_writing(error: Error) -> Error
    requires { IsOfWriting error }
    ensures { result ≡ error }
{
    match error {
        Error::Write => Error::Write,
        Error::Refused(_) | Error::Read | Error::Memory => Error::Memory,
    }
}

impl<H: Gathering + Drop> LineWriter<H> {
    /// Returns a writer before a capture.
    pub(crate) fn new(alloc: Global, handles: H) -> LineWriter<H>
        requires { H.stands handles [] }
        ensures { LineRests H.stands result (after_front [] []) }
    {
        LineWriter {
            handles,
            xid: 0,
            items: ItemsText::new(alloc),
            head: LineText::new(alloc),
        }
    }

    /// Appends the text of a handle, and then passes the handle on.
    fn add_handle(&mut self, name: &'static str, bytes: &[u8]) -> Result<(), AllocError>
        requires { length bytes.now ≤ 64 }
        ensures ok { OnOk result
            (Adds (LineStands H.stands) self.old self.new
            (Opaque HandleKind name.now bytes.now ∷ [])) }
        ensures err { OnErr result (Keeps (LineStands H.stands) self.old self.new) }
    {
        let before = self.items.text.bytes().len();
        self.items.text.append_hex(name, bytes)?;
        let gathered = self.handles.handle(name, bytes);
        self.items.text.truncate_on_error(before, gathered)?;
        self.items.seen = self.items.seen.wrapping_add(encoded_size(bytes.len()));
        Ok(())
    }

    /// Composes the line of the message whose items were visited.
    #[inline(always)]
    fn compose(
        &mut self,
        progress: Progress,
        side: &'static str,
        id: ProcId,
    ) -> Result<(), AllocError>
        ensures handles { self.new.handles ≡ self.old.handles }
        ensures head { progress.records + 1 < 2 ^ 32 → OnOk result
            (self.new.head ≡
            prefix progress.connections side.now (progress.records + 1)
            ++ ((opening (codes "xid") ++ decimal self.old.xid) ++ (32 ∷ procedure_name id))) }
        ensures items { OnOk result (self.new.items.text ≡ self.old.items.text ++ 10 ∷ []) }
        ensures gap { self.new.items.gap ≡ self.old.items.gap }
    {
        self.head.forget();
        self.head.append_prefix(
            progress.connections,
            side,
            progress.records.saturating_add(1),
        )?;
        self.head
            .append_xid_and_name(self.xid, name_of_procedure(id))?;
        self.items.text.end_line()
    }

    /// Writes the composed line to a sink. What follows the xid in the message's body spells the
    /// items.
    #[inline(always)]
    fn hand_over<W: Sink>(&mut self, sink: &mut W, body: &[u8]) -> Result<(), Error>
        ensures handles { self.new.handles ≡ self.old.handles }
        ensures writes { WritesText (W.written sink.old) (W.written sink.new)
            (self.old.head ++ filled self.old.items.gap self.old.items.text (drop 4 body.now))
            result }
        ensures count { CountsWriting (W.failures sink.old) (W.failures sink.new) result }
        ensures error { IfErr result IsOfWriting }
    {
        match self.items.gap {
            None => write_both(sink, self.head.bytes(), self.items.text.bytes()),
            Some(gap) => {
                let items = self.items.text.bytes();
                match write_filled(sink, &mut self.head, items, gap, after_xid(body)) {
                    Ok(()) => Ok(()),
                    Err(error) => Err(of_writing(error)),
                }
            }
        }
    }

    /// Writes the line of the message with this body, whose items were visited.
    #[inline(always)]
    fn write_line<W: Sink>(
        &mut self,
        progress: Progress,
        sink: &mut W,
        side: &'static str,
        id: ProcId,
        body: &[u8],
    ) -> Result<(), Error>
        ensures handles { self.new.handles ≡ self.old.handles }
        ensures writes { (front rest : List Item) (n : ℕ) → progress.records + 1 < 2 ^ 32
            → Spells (Word (called "xid") n ∷ rest) body.now
            → LineStands H.stands self.old (after_front front (Word (called "xid") n ∷ rest))
            → WritesText (W.written sink.old) (W.written sink.new)
            (line progress.connections side.now (progress.records + 1) id
            (Word (called "xid") n ∷ rest)) result }
        ensures count { CountsWriting (W.failures sink.old) (W.failures sink.new) result }
        ensures error { IfErr result IsOfWriting }
    {
        match self.compose(progress, side, id) {
            Ok(()) => self.hand_over(sink, body),
            Err(_) => Err(Error::Memory),
        }
    }

    /// Writes the line of an entry that is a message with this body, and whose items were visited. Any
    /// other entry begins or ends streams, and has the memory of a long line given back.
    fn write_entry<W: Sink>(
        &mut self,
        progress: Progress,
        sink: &mut W,
        kind: Kind,
        body: &[u8],
    ) -> Result<(), Error>
        ensures handles { self.new.handles ≡ self.old.handles }
        ensures writes { (entries : List spec.Entry) (one : spec.Entry) → IsOfKind kind one
            → Spells (items_of one) body.now → AreFirst (entries ++ one ∷ [])
            → HasPassed progress entries → length (entries ++ one ∷ []) < 2 ^ 32
            → HasHeard (LineRests H.stands) (LineStands H.stands) self.old
            (items_before entries) one
            → WritesText (W.written sink.old) (W.written sink.new)
            (entry_line progress.connections progress.records one) result }
        ensures count { CountsWriting (W.failures sink.old) (W.failures sink.new) result }
        ensures error { IfErr result IsOfWriting }
    {
        match kind {
            Kind::Call(id) => self.write_line(progress, sink, "client", id, body),
            Kind::Reply(id) => self.write_line(progress, sink, "server", id, body),
            Kind::Begin | Kind::Turn | Kind::Close | Kind::End => {
                self.items.text.release();
                Ok(())
            }
        }
    }
}

#[tactic(auto, unfolding(xdr3::specs::Visit::Adds, xdr3::specs::Visit::Keeps))]
impl<H: Gathering + Drop> Visit for LineWriter<H> {
    ghost use Rattle.listing3.specs.machinery.LineWriter.{LineStands};

    ghost stands = { LineStands H.stands };

    fn word(&mut self, name: &'static str, n: u32) -> Result<(), AllocError> {
        self.items.word(name, n)
    }

    fn hyper(&mut self, name: &'static str, n: u64) -> Result<(), AllocError> {
        self.items.hyper(name, n)
    }

    fn fixed(&mut self, name: &'static str, bytes: &[u8; 8]) -> Result<(), AllocError> {
        self.items.fixed(name, bytes)
    }

    fn write_verf(&mut self, name: &'static str, bytes: &[u8; 8]) -> Result<(), AllocError> {
        self.items.write_verf(name, bytes)
    }

    #[inline(always)]
    fn var(&mut self, name: &'static str, bytes: &[u8]) -> Result<(), AllocError> {
        self.items.var(name, bytes)
    }

    fn text(&mut self, name: &'static str, bytes: &[u8]) -> Result<(), AllocError> {
        self.items.text(name, bytes)
    }

    fn handle(&mut self, name: &'static str, bytes: &[u8]) -> Result<(), AllocError> {
        self.add_handle(name, bytes)
    }

    fn rest(&mut self, name: &'static str, bytes: &[u8]) -> Result<(), AllocError> {
        self.items.rest(name, bytes)
    }

    #[inline(always)]
    fn plain(&mut self, fields: &[PlainField], bytes: &[u8]) -> Result<(), AllocError> {
        self.items.plain(fields, bytes)
    }
}

impl<H: Gathering + Drop> MessageVisit for LineWriter<H> {
    ghost use Rattle.listing3.specs.machinery.LineWriter.{LineRests};

    ghost rests = { LineRests H.stands };

    fn begin(&mut self, start: Start) -> Result<(), AllocError> {
        self.xid = start.xid;
        self.items.forget();
        self.items.word("mtype", start.is_reply as u32)
    }
}

impl<H: Counting + Drop> EntryWriter for LineWriter<H> {
    ghost use Rattle.listing3.specs.machinery.LineWriter.{always, items_before};
    ghost use Rattle.listing3.specs.Listing.{shown};

    type Counts = H::Counts;

    ghost are_counts = { H.are_counts };

    ghost form = { shown };

    ghost before = { items_before };

    ghost going = { always };

    fn write<W: Sink>(
        &mut self,
        progress: Progress,
        sink: &mut W,
        entry: LentEntry<'_>,
    ) -> Result<(), Error> {
        self.write_entry(progress, sink, entry.kind(), body_of(entry))
    }

    fn counts(&self, progress: Progress) -> H::Counts {
        self.handles.counts(progress)
    }
}
