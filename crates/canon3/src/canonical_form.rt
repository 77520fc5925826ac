//! The canonical form of a capture, from a source to a sink.

pub(crate) mod message_writer;
pub(crate) mod spelling;

ghost use Rattle.std.specs.Prelude.{◌<◌, ◌++◌, ◌∷◌, ℕ, List, [], IfErr, OnOk};
ghost use Rattle.capture3.specs.Entries.{CountsReading};
ghost use Rattle.capture3.specs.Entry as spec;
ghost use Rattle.canon3.specs.Laws.{AreFirst};
ghost use Rattle.canon3.specs.machinery.MessageWriter.{WriterRests, WriterStands, values_before};
ghost use Rattle.capture3.specs.Observed.{GavePrefix};
ghost use Rattle.canon3.specs.Canonical.{canonical_bytes};
ghost use Rattle.canon3.specs.EntryWriter.{WritesAll, WritesGiven};
ghost use Rattle.canon3.specs.machinery.Spelling.{Follows};
ghost use Rattle.capture3.specs.MessageVisit.{HasHeard};
ghost use Rattle.capture3.specs.Numbering.{IsLentAfter};
ghost use Rattle.canon3.specs.WriteErrors.{CountsWriting, IsOfWriting};
ghost use Rattle.canon3.specs.SinkWrites.{IsFlushed};

use crate::canonical_form::message_writer::MessageWriter;
use crate::canonical_form::spelling::{spelling_of_entry, write_spelling};
use crate::entries::entry_writer::{EntryWriter, write_entries};
use crate::sink::Sink;
use crate::sink::container::write_magic;
use crate::summary::Summary;
use capture3::{Error, Hashers, LentEntry, Progress, Source};
use std::alloc::Global;
use std::hash::BuildHasher;

/// Reads a capture to its end, writes its canonical form as it comes, and flushes the sink. Each
/// file handle that is not empty (RFC 1813, section 2.5), write verifier and xid (RFC 5531, section
/// 9) is written as its number. It keeps one block of the source's bytes, one record, the calls of
/// the open connection, and the values that have numbers. What is written of a whole capture has no
/// more stream bytes than the capture.
///
/// # Errors
///
/// - `Refused` with the first fault if the capture is not well formed. The form of the entries
///   before it is written whole.
/// - `Read` if a read failed. The form of the entries before it is written whole.
/// - `Write` if a write or the flush failed, and `Memory` if an allocation failed. A prefix of the
///   form is written.
///
/// After an error nothing is flushed.
pub fn canon<R: Source, W: Sink, S: BuildHasher + Drop>(
    alloc: Global,
    hashers: Hashers<S>,
    source: &mut R,
    sink: &mut W,
) -> Result<Summary, Error>
    // What is written.
    ensures rewrites { WritesGiven canonical_bytes (R.observed source.old, R.observed source.new)
        (W.written sink.old, W.written sink.new) result }
    ensures whole { (bytes : List ℕ)
        → GavePrefix (R.observed source.old) (R.observed source.new) bytes
        → WritesAll canonical_bytes bytes (W.written sink.old, W.written sink.new) result }
    ensures flushes { OnOk result (IsFlushed (W.written sink.new) (W.flushed sink.new)) }

    // The devices.
    ensures read { CountsReading (R.failures source.old) (R.failures source.new) result }
    ensures write { CountsWriting (W.failures sink.old) (W.failures sink.new) result }
{
    let mut message_writer = MessageWriter::new(alloc, hashers.handles, hashers.verfs);
    write_entries(alloc, hashers.calls, source, sink, &mut message_writer)
}

/// Writes the entry after the magic, and lets its message go.
fn write_after_magic<S: BuildHasher + Drop, W: Sink>(
    message_writer: &mut MessageWriter<S>,
    sink: &mut W,
    entry: LentEntry<'_>,
) -> Result<(), Error>
    ensures follows { (entries : List spec.Entry) (one : spec.Entry)
        → IsLentAfter entries entry.entry one
        → AreFirst (entries ++ one ∷ [])
        → HasHeard WriterRests WriterStands message_writer.old (values_before entries) one
        → Follows message_writer.new (W.written sink.old) (W.written sink.new) entries one
        result }
    ensures count { CountsWriting (W.failures sink.old) (W.failures sink.new) result }
    ensures error { IfErr result IsOfWriting }
{
    let form = match spelling_of_entry(message_writer, entry) {
        Ok(form) => form,
        Err(_) => return Err(Error::Memory),
    };
    write_spelling(sink, form, message_writer)?;
    message_writer.end_message();
    Ok(())
}

impl<S: BuildHasher + Drop> EntryWriter for MessageWriter<S> {
    ghost use Rattle.canon3.specs.machinery.MessageWriter.{IsGoing, values_before};
    ghost use Rattle.canon3.specs.Canonical.{canonical_bytes};
    ghost use Rattle.canon3.specs.Summary.{IsSummary};

    type Counts = Summary;

    ghost are_counts = { IsSummary };

    ghost form = { canonical_bytes };

    ghost before = { values_before };

    ghost going = { IsGoing };

    fn write<W: Sink>(
        &mut self,
        progress: Progress,
        sink: &mut W,
        entry: LentEntry<'_>,
    ) -> Result<(), Error> {
        write_magic(progress, sink)?;
        write_after_magic(self, sink, entry)
    }

    fn counts(&self, progress: Progress) -> Summary {
        Summary::of(progress, self.handles.len())
    }
}
