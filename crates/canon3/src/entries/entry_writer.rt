//! What is written of a capture while it is read, from a source to a sink.

ghost use Rattle.std.specs.Prelude.{◌≡◌, ◌++◌, ◌∷◌, ℕ, List, [], Option, None, IfErr, MatchResult, OnOk};
ghost use Rattle.std.specs.Io.KnownBytes.{Appends};
ghost use Rattle.capture3.specs.Observed.{GavePrefix, Observed};
ghost use Rattle.xdr3.specs.Item.{Item};
ghost use Rattle.capture3.specs.Entries.{CountsReading, failure_of};
ghost use Rattle.capture3.specs.Entry as spec;
ghost use Rattle.capture3.specs.MessageVisit.{HasHeard};
ghost use Rattle.capture3.specs.Progress.{HasPassed};
ghost use Rattle.capture3.specs.Typed.{Typed};
ghost use Rattle.canon3.specs.EntryWriter.{IsNextEntry, KeepsPrefixes, StopsWriting, WritesAllCounted, WritesGivenCounted};
ghost use Rattle.canon3.specs.machinery.Reading.{ReadsAndWrites};
ghost use Rattle.canon3.specs.machinery.WritingSteps.{HasGiven, HasWritten, IsDone, since, source_since};
ghost use Rattle.canon3.specs.WriteErrors.{CountsWriting, IsOfWriting};
ghost use Rattle.canon3.specs.SinkWrites.{AppendsFront, IsFlushed};

use crate::sink::Sink;
use capture3::{Entries, Error, LentEntry, MessageVisit, Progress, Source, new_block};
use std::alloc::Global;
use std::hash::BuildHasher;

/// A writer of a capture's entries, one after another, in some form. It visits the items of each
/// entry while it is read, and then writes it.
pub trait EntryWriter: MessageVisit {
    /// What is counted of a capture.
    type Counts;

    /// These are the counts of a capture of these bytes.
    ghost are_counts: { List ℕ → Self.Counts → Type 0 };

    /// The bytes that a list of entries is written as.
    ghost form: { List spec.Entry → List ℕ };

    /// The items that represent the entries that were written, before those of the next one.
    ghost before: { List spec.Entry → List Item };

    /// Holds of a writer that has not failed.
    ghost going: { Self → Type 0 };

    /// Writes what the entry adds to the form, before which the entries had come so far. Its items
    /// were visited. A message has its number.
    ///
    /// # Errors
    ///
    /// - `Write` if a write failed.
    /// - `Memory` if an allocation failed.
    ///
    /// A prefix of the form is written then, and nothing can follow.
    fn write<W: Sink>(
        &mut self,
        progress: Progress,
        sink: &mut W,
        entry: LentEntry<'_>,
    ) -> Result<(), Error>
        ensures writes { (old : Option (List ℕ)) (entries : List spec.Entry) (one : spec.Entry)
            → IsNextEntry progress entries entry.entry one
            → HasHeard Self.rests Self.stands self.old (before entries) one
            → Appends old (W.written sink.old) (form entries)
            → MatchResult result (λ _. going self.new
            × Self.rests self.new (before (entries ++ one ∷ []))
            × Appends old (W.written sink.new) (form (entries ++ one ∷ [])))
            (λ _. AppendsFront old (W.written sink.new) (form (entries ++ one ∷ []))) }
        ensures count { CountsWriting (W.failures sink.old) (W.failures sink.new) result }
        ensures error { IfErr result IsOfWriting };

    /// Returns the counts of a capture whose entries all came and were written.
    fn counts(&self, progress: Progress) -> Self::Counts
        ensures { (bytes : List ℕ) (entries : List spec.Entry) → Typed bytes entries
            → HasPassed progress entries → going self.now → Self.rests self.now (before entries)
            → are_counts bytes result };
}

/// Reads a capture to its end, writes the form of its entries as they come, flushes the sink, and
/// returns what the writer counted. It keeps one block of the source's bytes, one record, the calls
/// of the open connection, and what the writer keeps.
///
/// # Errors
///
/// - `Refused` with the first fault if the capture is not well formed. The form of the entries
///   before it is written whole.
/// - `Read` if a read failed. The form of the entries before it is written whole.
/// - `Write` if a write or the flush failed, and `Memory` if an allocation failed. A prefix of the
///   form is written.
///
/// After an error nothing is flushed.
pub fn write_entries<R: Source, W: Sink, E: EntryWriter, S: BuildHasher + Drop>(
    alloc: Global,
    hasher: S,
    source: &mut R,
    sink: &mut W,
    writer: &mut E,
) -> Result<E::Counts, Error>
    requires new { E.rests writer.old (E.before []) }
    requires well { E.going writer.old }
    requires empty { E.form [] ≡ [] }
    requires prefixes { KeepsPrefixes E.form }

    // What is written.
    ensures writes { WritesGivenCounted E.are_counts E.form
        (R.observed source.old, R.observed source.new) (W.written sink.old, W.written sink.new)
        result }
    ensures whole { (bytes : List ℕ)
        → GavePrefix (R.observed source.old) (R.observed source.new) bytes
        → WritesAllCounted E.are_counts E.form bytes (W.written sink.old, W.written sink.new)
        result }
    ensures flushes { OnOk result (IsFlushed (W.written sink.new) (W.flushed sink.new)) }

    // The devices.
    ensures read { CountsReading (R.failures source.old) (R.failures source.new) result }
    ensures write { CountsWriting (W.failures sink.old) (W.failures sink.new) result }
{
    let block = match new_block(alloc) {
        Ok(block) => block,
        Err(_) => return Err(Error::Memory),
    };
    let mut entries = Entries::through(alloc, hasher, source, block);
    let written = write_rest(&mut entries, sink, writer);
    let progress = entries.progress();
    entries.into_source();
    written?;
    match sink.flush_all() {
        Ok(()) => Ok(writer.counts(progress)),
        Err(_) => Err(Error::Write),
    }
}

/// Writes all entries that are left.
pub(crate) fn write_rest<R: Source, W: Sink, E: EntryWriter, S: BuildHasher + Drop>(
    entries: &mut Entries<'_, R, S>,
    sink: &mut W,
    writer: &mut E,
) -> Result<(), Error>
    requires going { failure_of entries.old ≡ None }
    requires prefixes { KeepsPrefixes E.form }
    ensures over { (start : Observed) (handed : List spec.Entry) (old : Option (List ℕ))
        → HasGiven (since R.observed start entries.old) handed
        → HasWritten E.form E.before E.rests E.going writer.old (old, W.written sink.old) handed
        → MatchResult result (λ _. IsDone (since R.observed start entries.new)
        (HasWritten E.form E.before E.rests E.going writer.new (old, W.written sink.new)) handed)
        (StopsWriting E.form (source_since (since R.observed start entries.new))
        (old, W.written sink.new)) }
    ensures going { OnOk result (failure_of entries.new ≡ None) }
    ensures devices { ReadsAndWrites R.failures entries.old entries.new (W.failures sink.old)
        (W.failures sink.new) result }
{
    // Written out, since `?` takes more instructions for each message.
    loop {
        let progress = entries.progress();
        match entries.visit(writer) {
            Ok(Some(entry)) => match writer.write(progress, sink, entry) {
                Ok(()) => {}
                Err(error) => return Err(error),
            },
            Ok(None) => return Ok(()),
            Err(error) => return Err(error),
        }
    }
}
