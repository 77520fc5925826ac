//! The masked form of a capture, from a source to a sink.

ghost use Rattle.std.specs.Prelude.{◌≡◌, ℕ, List, OnOk};
ghost use Rattle.capture3.specs.Entries.{CountsReading};
ghost use Rattle.capture3.specs.Observed.{GavePrefix};
ghost use Rattle.canon3.specs.EntryWriter.{WritesAll, WritesGiven};
ghost use Rattle.canon3.specs.WriteErrors.{CountsWriting};
ghost use Rattle.canon3.specs.SinkWrites.{IsFlushed};
ghost use Rattle.masking3.specs.Masked.{masked_bytes};

use crate::masking_writer::{MaskingWriter, Plan, write_entry};
use crate::values::class::Class;
use crate::values::hashers::MaskHashers;
use crate::values::ways::Ways;
use canon3::{EntryWriter, Sink, Summary, write_entries, write_magic};
use capture3::{Error, LentEntry, Progress, Source};
use std::alloc::Global;
use std::hash::BuildHasher;
use std::marker::Brand;

/// Reads a capture to its end, writes its masked form as it comes, and flushes the sink. Values of
/// each class stay, become 0, or become their numbers by first appearance in the capture. The name
/// of the machine in each AUTH_SYS credential (RFC 5531, appendix A) stays, or becomes empty. The
/// length of the credential is then less by the bytes of the name. The name of a host in a reply to
/// DUMP (RFC 1813, section 5.2.2) stays or becomes empty likewise. The name of a file of the form
/// that a Linux client gives to one which is removed while it is open stays, or each of its digits
/// becomes 0. All else is as it was, but each record is one chunk and one fragment, and residual
/// bytes are 0.
///
/// It keeps one block of the source's bytes, one record, its masked form, the calls of the open
/// connection, the distinct file handles, and the values that have numbers.
///
/// # Errors
///
/// - `Refused` with the first fault if the capture is not well formed. The form of the entries
///   before it is written whole.
/// - `Read` if a read failed. The form of the entries before it is written whole.
/// - `Write` if a write or the flush failed, and `Memory` if an allocation failed. A prefix of the
///   form is written.
///
/// After an error nothing is flushed.
pub fn mask<R: Source, W: Sink, S: BuildHasher + Copy + Drop>(
    alloc: Global,
    hashers: MaskHashers<S>,
    ways: Ways,
    source: &mut R,
    sink: &mut W,
) -> Result<Summary, Error>
    ensures masks { WritesGiven (masked_bytes ways) (R.observed source.old, R.observed source.new)
        (W.written sink.old, W.written sink.new) result }
    ensures whole { (bytes : List ℕ)
        → GavePrefix (R.observed source.old) (R.observed source.new) bytes
        → WritesAll (masked_bytes ways) bytes (W.written sink.old, W.written sink.new) result }
    ensures flushes { OnOk result (IsFlushed (W.written sink.new) (W.flushed sink.new)) }
    ensures read { CountsReading (R.failures source.old) (R.failures source.new) result }
    ensures write { CountsWriting (W.failures sink.old) (W.failures sink.new) result }
{
    mask_by_plan::<Brand, R, W, S>(alloc, hashers, ways, source, sink)
}

/// Does the same, by ways that a type stands for.
fn mask_by_plan<P: Plan, R: Source, W: Sink, S: BuildHasher + Copy + Drop>(
    alloc: Global,
    hashers: MaskHashers<S>,
    ways: Ways,
    source: &mut R,
    sink: &mut W,
) -> Result<Summary, Error>
    requires { ways ≡ P.ways }
    ensures masks { WritesGiven (masked_bytes P.ways) (R.observed source.old, R.observed source.new)
        (W.written sink.old, W.written sink.new) result }
    ensures whole { (bytes : List ℕ)
        → GavePrefix (R.observed source.old) (R.observed source.new) bytes
        → WritesAll (masked_bytes P.ways) bytes (W.written sink.old, W.written sink.new) result }
    ensures flushes { OnOk result (IsFlushed (W.written sink.new) (W.flushed sink.new)) }
    ensures read { CountsReading (R.failures source.old) (R.failures source.new) result }
    ensures write { CountsWriting (W.failures sink.old) (W.failures sink.new) result }
{
    let mut writer = MaskingWriter::<P, S>::new(alloc, ways, hashers.handles, hashers.values);
    write_entries(alloc, hashers.calls, source, sink, &mut writer)
}

impl<P: Plan, S: BuildHasher + Copy + Drop> EntryWriter for MaskingWriter<P, S> {
    ghost use Rattle.canon3.specs.Summary.{IsSummary};
    ghost use Rattle.masking3.specs.Masked.{masked_bytes};
    ghost use Rattle.masking3.specs.machinery.MaskingWriter.{HasMemory, visited_before};

    type Counts = Summary;

    ghost are_counts = { IsSummary };

    ghost form = { masked_bytes P.ways };

    ghost before = { visited_before };

    ghost going = { HasMemory };

    fn write<W: Sink>(
        &mut self,
        progress: Progress,
        sink: &mut W,
        entry: LentEntry<'_>,
    ) -> Result<(), Error> {
        if self.failed {
            return Err(Error::Memory);
        }
        write_magic(progress, sink)?;
        let machines = self.classes.ways.way(Class::Machines);
        write_entry(sink, entry.kind(), machines, self.writer.bytes())?;
        self.end_message();
        Ok(())
    }

    fn counts(&self, progress: Progress) -> Summary {
        Summary::of(progress, self.handles.len())
    }
}
