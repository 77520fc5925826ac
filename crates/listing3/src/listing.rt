//! The listing of a capture, from a source to a sink.

ghost use Rattle.std.specs.Prelude.{ℕ, List, OnOk};
ghost use Rattle.capture3.specs.Entries.{CountsReading};
ghost use Rattle.capture3.specs.Observed.{GavePrefix};
ghost use Rattle.canon3.specs.EntryWriter.{WritesAll, WritesAllCounted, WritesGiven, WritesGivenCounted};
ghost use Rattle.canon3.specs.Summary.{AreMessageCounts};
ghost use Rattle.canon3.specs.WriteErrors.{CountsWriting};
ghost use Rattle.canon3.specs.SinkWrites.{IsFlushed};
ghost use Rattle.listing3.specs.Listing.{shown};

use crate::line_writer::LineWriter;
use canon3::{HandleTable, MessageCounts, Sink, Summary, write_entries};
use capture3::{Error, Hashers, Silent, Source};
use std::alloc::Global;
use std::hash::BuildHasher;

/// Reads a capture to its end, writes one line for each message as it comes, and flushes the sink.
///
/// A line is the connection's number, `client` or `server`, the record's number in its stream, `
/// xid=` and the xid, the procedure's name or `RAW`, and then ` name=value` for each other item:
/// numbers in decimal, bytes in hexadecimal, strings in quotation marks with `\x` escapes. Xids,
/// file handles and write verifiers are those that were recorded.
///
/// It keeps one block of the source's bytes, one record, the calls of the open connection, the
/// distinct file handles, and one line. `list` does the same without a count of file handles.
///
/// # Errors
///
/// - `Refused` with the first fault if the capture is not well formed. The lines of the messages
///   before it are written whole.
/// - `Read` if a read failed. The lines of the messages before it are written whole.
/// - `Write` if a write or the flush failed, and `Memory` if an allocation failed. A prefix of the
///   listing is written.
///
/// After an error nothing is flushed.
pub fn show<R: Source, W: Sink, S: BuildHasher + Drop>(
    alloc: Global,
    hashers: Hashers<S>,
    source: &mut R,
    sink: &mut W,
) -> Result<Summary, Error>
    ensures lists { WritesGiven shown (R.observed source.old, R.observed source.new)
        (W.written sink.old, W.written sink.new) result }
    ensures whole { (bytes : List ℕ)
        → GavePrefix (R.observed source.old) (R.observed source.new) bytes
        → WritesAll shown bytes (W.written sink.old, W.written sink.new) result }
    ensures flushes { OnOk result (IsFlushed (W.written sink.new) (W.flushed sink.new)) }
    ensures read { CountsReading (R.failures source.old) (R.failures source.new) result }
    ensures write { CountsWriting (W.failures sink.old) (W.failures sink.new) result }
{
    let mut lines = LineWriter::new(alloc, HandleTable::new(alloc, hashers.handles));
    write_entries(alloc, hashers.calls, source, sink, &mut lines)
}

/// Reads a capture to its end, writes one line for each message as it comes, and flushes the sink.
/// The lines and the errors are those of `show`, but file handles are not counted. So it keeps one
/// block of the source's bytes, one record, the calls of the open connection, and one line.
pub fn list<R: Source, W: Sink, S: BuildHasher + Drop>(
    alloc: Global,
    hasher: S,
    source: &mut R,
    sink: &mut W,
) -> Result<MessageCounts, Error>
    ensures lists { WritesGivenCounted AreMessageCounts shown
        (R.observed source.old, R.observed source.new) (W.written sink.old, W.written sink.new)
        result }
    ensures whole { (bytes : List ℕ)
        → GavePrefix (R.observed source.old) (R.observed source.new) bytes
        → WritesAllCounted AreMessageCounts shown bytes (W.written sink.old, W.written sink.new)
        result }
    ensures flushes { OnOk result (IsFlushed (W.written sink.new) (W.flushed sink.new)) }
    ensures read { CountsReading (R.failures source.old) (R.failures source.new) result }
    ensures write { CountsWriting (W.failures sink.old) (W.failures sink.new) result }
{
    let mut lines = LineWriter::new(alloc, Silent);
    write_entries(alloc, hasher, source, sink, &mut lines)
}
