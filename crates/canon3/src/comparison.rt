//! Whether two captures are the same up to renaming.

pub(crate) mod verdict;

ghost use Rattle.std.specs.Prelude.{◌≡◌, ◌≢◌, ◌<◌, ◌+◌, ◌^◌, ◌++◌, ◌∷◌, ℕ, List, [], None, Some, IfErr, IfOk, OnOk};
ghost use Rattle.capture3.specs.Observed.{GavePrefix, Observed};
ghost use Rattle.capture3.specs.Entries.{failure_of, source_of};
ghost use Rattle.capture3.specs.machinery.EntriesHistory.{entries_left};
ghost use Rattle.capture3.specs.Entry as spec;
ghost use Rattle.canon3.specs.Comparison.{CountsReadingOf, DecidesSame, of_bytes, of_source};
ghost use Rattle.canon3.specs.machinery.ComparisonSteps.{Compares, FindsOut, IsFound, IsReadAfter, IsReadOut, HaveReceived, IsComparing, Meets, met_second, refusal_in, StepsOn};
ghost use Rattle.canon3.specs.machinery.WritingSteps.{HasGiven, since, source_since};
ghost use Rattle.canon3.specs.machinery.Reading.{ReadsBoth, ReadsOne, ReadsSecond};
ghost use Rattle.canon3.specs.EntryWriter.{IsNextEntry};
ghost use Rattle.canon3.specs.Laws.{AreFirst};
ghost use Rattle.capture3.specs.Numbering.{IsLentAfter};
ghost use Rattle.canon3.specs.machinery.ProgressSteps.{place_from, side_of_kind};

use crate::canonical_form::message_writer::MessageWriter;
use crate::canonical_form::spelling::{are_alike, spelling_of_entry};
use crate::comparison::verdict::{SameError, Verdict, Which, out_of_memory_in};
use crate::entries::entry_writer::write_rest;
use crate::sink::nowhere::Nowhere;
use capture3::{
    Entries, Error, Fault, Hashers, Kind, LentEntry, Place, Progress, Side, Silent, Source,
    new_block,
};
use std::alloc::Global;
use std::hash::BuildHasher;

/// Returns whether two captures are the same up to one-to-one renamings of file handles, write
/// verifiers and xids, and if not, the first record at which they part. It takes one entry of each
/// alternately. Once they part, or the second is refused, it reads both to their ends.
///
/// # Errors
///
/// - `Refused` with the first fault of the first capture that is not well formed.
/// - `Read` if a read failed.
/// - `Memory` if an allocation failed.
///
/// It never returns `Write`.
pub fn same<A: Source, B: Source, S: BuildHasher + Drop>(
    alloc: Global,
    first_hashers: Hashers<S>,
    second_hashers: Hashers<S>,
    first: &mut A,
    second: &mut B,
) -> Result<Verdict, SameError>
    // The verdict.
    ensures gave { DecidesSame (of_source (A.observed first.old, A.observed first.new))
        (of_source (B.observed second.old, B.observed second.new)) result }
    ensures whole { (file other : List ℕ)
        → GavePrefix (A.observed first.old) (A.observed first.new) file
        → GavePrefix (B.observed second.old) (B.observed second.new) other
        → DecidesSame (of_bytes file) (of_bytes other) result }

    // The devices.
    ensures read_first { CountsReadingOf Which.First (A.failures first.old)
        (A.failures first.new) result }
    ensures read_second { CountsReadingOf Which.Second (B.failures second.old)
        (B.failures second.new) result }
    ensures write { IfErr result (λ error. error.error ≢ Error.Write) }
{
    let block = match new_block(alloc) {
        Ok(block) => block,
        Err(_) => return Err(out_of_memory_in(Which::First)),
    };
    let other_block = match new_block(alloc) {
        Ok(block) => block,
        Err(_) => return Err(out_of_memory_in(Which::Second)),
    };
    let mut entries = Entries::through(alloc, first_hashers.calls, first, block);
    let mut others = Entries::through(alloc, second_hashers.calls, second, other_block);
    let mut comparison = Comparison {
        first: MessageWriter::new(alloc, first_hashers.handles, first_hashers.verfs),
        second: MessageWriter::new(alloc, second_hashers.handles, second_hashers.verfs),
    };
    let result = comparison.judge(&mut entries, &mut others);
    entries.into_source();
    others.into_source();
    result
}

/// What ends a comparison, if the rest of both captures is well formed.
#[derive(Clone, Copy)]
enum Finding {
    /// Both ended, and were the same up to there.
    Ended,
    /// They part here.
    Parted(Place),
    /// The second capture has this fault.
    Refused(Fault),
}

/// Returns the verdict, once both captures are read to their ends.
fn conclude<A: Source, B: Source, S: BuildHasher + Drop>(
    finding: Finding,
    first: &mut Entries<'_, A, S>,
    second: &mut Entries<'_, B, S>,
) -> Result<Verdict, SameError>
    requires going_first { failure_of first.old ≡ None }
    requires going_second { failure_of second.old ≡ refusal_in (Some finding) }
    ensures gave { (start other_start : Observed)
        → IsFound (since A.observed start first.old) (since B.observed other_start second.old)
        finding
        → DecidesSame (of_source (source_since (since A.observed start first.new)))
        (of_source (source_since (since B.observed other_start second.new))) result }
    ensures reads { ReadsBoth A.failures B.failures first.old first.new
        second.old second.new result }
{
    match drain(first) {
        Ok(()) => match finding {
            Finding::Ended => read_second(second, Verdict::Same),
            Finding::Parted(place) => read_second(second, Verdict::Differ(place)),
            Finding::Refused(fault) => Err(SameError {
                which: Which::Second,
                error: Error::Refused(fault),
            }),
        },
        Err(error) => Err(SameError {
            which: Which::First,
            error,
        }),
    }
}

/// Returns the verdict, once the second capture is read to its end.
fn read_second<R: Source, S: BuildHasher + Drop>(
    entries: &mut Entries<'_, R, S>,
    verdict: Verdict,
) -> Result<Verdict, SameError>
    requires going { failure_of entries.old ≡ None }
    ensures out { (start : Observed) (handed : List spec.Entry)
        → HasGiven (since R.observed start entries.old) handed
        → IsReadAfter (source_since (since R.observed start entries.new)) handed verdict result }
    ensures reads { ReadsSecond R.failures entries.old entries.new result }
{
    match drain(entries) {
        Ok(()) => Ok(verdict),
        Err(error) => Err(SameError {
            which: Which::Second,
            error,
        }),
    }
}

/// Reads all entries that are left.
fn drain<R: Source, S: BuildHasher + Drop>(entries: &mut Entries<'_, R, S>) -> Result<(), Error>
    requires going { failure_of entries.old ≡ None }
    ensures out { (start : Observed) (handed : List spec.Entry)
        → HasGiven (since R.observed start entries.old) handed
        → IsReadOut (source_since (since R.observed start entries.new)) handed result }
    ensures reads { ReadsOne R.failures entries.old entries.new result }
{
    write_rest(entries, &mut Nowhere, &mut Silent)
}

/// Two captures that are read side by side, each with numbers of its own.
#[derive(Drop)]
struct Comparison<S: BuildHasher + Drop> {
    first: MessageWriter<S>,
    second: MessageWriter<S>,
}

impl<S: BuildHasher + Drop> Comparison<S> {
    /// Compares what two new readers return, and reads both to their ends.
    fn judge<A: Source, B: Source>(
        &mut self,
        first: &mut Entries<'_, A, S>,
        second: &mut Entries<'_, B, S>,
    ) -> Result<Verdict, SameError>
        requires begins { IsComparing
            (since A.observed (A.observed (source_of first.old)) first.old)
            (since B.observed (B.observed (source_of second.old)) second.old) self.old }
        requires going_first { failure_of first.old ≡ None }
        requires going_second { failure_of second.old ≡ None }

        // The verdict.
        ensures gave { DecidesSame
            (of_source (A.observed (source_of first.old), A.observed (source_of first.new)))
            (of_source (B.observed (source_of second.old), B.observed (source_of second.new)))
            result }

        // The devices.
        ensures reads { ReadsBoth A.failures B.failures first.old first.new
            second.old second.new result }
    {
        let finding = self.find(first, second)?;
        conclude(finding, first, second)
    }

    /// Takes one entry of each alternately, until they end, they part, or the second is refused.
    fn find<A: Source, B: Source>(
        &mut self,
        first: &mut Entries<'_, A, S>,
        second: &mut Entries<'_, B, S>,
    ) -> Result<Finding, SameError>
        requires going_first { failure_of first.old ≡ None }
        requires going_second { failure_of second.old ≡ None }

        // What is found.
        ensures found { (start other_start : Observed)
            → IsComparing (since A.observed start first.old)
            (since B.observed other_start second.old) self.old
            → FindsOut (since A.observed start first.new) (since B.observed other_start second.new)
            result }
        ensures going_first { OnOk result (failure_of first.new ≡ None) }
        ensures going_second { IfOk result
            (λ finding. failure_of second.new ≡ refusal_in (Some finding)) }

        // The devices.
        ensures reads { ReadsBoth A.failures B.failures first.old first.new
            second.old second.new result }
    {
        // Written out, since `?` takes more instructions for each message.
        loop {
            match self.step(first, second) {
                Ok(None) => {}
                Ok(Some(finding)) => return Ok(finding),
                Err(error) => return Err(error),
            }
        }
    }

    /// Takes one entry of each. Returns `None` if they are alike.
    fn step<A: Source, B: Source>(
        &mut self,
        first: &mut Entries<'_, A, S>,
        second: &mut Entries<'_, B, S>,
    ) -> Result<Option<Finding>, SameError>
        requires going_first { failure_of first.old ≡ None }
        requires going_second { failure_of second.old ≡ None }

        // What came of the two entries.
        ensures steps { (start other_start : Observed)
            → IsComparing (since A.observed start first.old)
            (since B.observed other_start second.old) self.old
            → StepsOn (since A.observed start first.new) (since B.observed other_start second.new)
            self.new result }

        // The readers go on.
        ensures fewer { IfOk result (λ next. next ≡ None
            → entries_left first.new < entries_left first.old) }
        ensures going_first { OnOk result (failure_of first.new ≡ None) }
        ensures going_second { IfOk result (λ next. failure_of second.new ≡ refusal_in next) }

        // The devices.
        ensures reads { ReadsBoth A.failures B.failures first.old first.new
            second.old second.new result }
    {
        let before = first.progress();
        match first.visit(&mut self.first) {
            Ok(Some(entry)) => self.compare_second_entry(before, entry, second),
            Ok(None) => Ok(Some(Finding::Ended)),
            Err(error) => Err(SameError {
                which: Which::First,
                error,
            }),
        }
    }

    /// Takes the second's entry beside the first's, whose items were visited, and before which the
    /// entries had come so far.
    fn compare_second_entry<B: Source>(
        &mut self,
        before: Progress,
        entry: LentEntry<'_>,
        second: &mut Entries<'_, B, S>,
    ) -> Result<Option<Finding>, SameError>
        requires going { failure_of second.old ≡ None }

        // What came of the two entries.
        ensures meets { (first : Observed × Observed) (start : Observed) (a b : List spec.Entry)
            (e : spec.Entry)
            → IsNextEntry before a entry.entry e
            → HaveReceived self.old a b (Some e) None
            → HasGiven (since B.observed start second.old) b
            → Meets first (since B.observed start second.new) self.new a b e result }

        // What stays.
        ensures going { IfOk result (λ next. failure_of second.new ≡ refusal_in next) }

        // The device.
        ensures reads { ReadsSecond B.failures second.old second.new result }
    {
        match second.visit(&mut self.second) {
            Ok(Some(other)) => Ok(self.compare(before, entry, other)?.map(Finding::Parted)),
            Ok(None) => Ok(Some(Finding::Ended)),
            Err(error) => finding_at_error(error),
        }
    }

    /// Compares what two entries are written as, whose items were visited. Returns `None` if they
    /// are alike.
    fn compare(
        &mut self,
        before: Progress,
        entry: LentEntry<'_>,
        other: LentEntry<'_>,
    ) -> Result<Option<Place>, SameError>
        ensures compares { (a b : List spec.Entry) (e f : spec.Entry)
            → IsNextEntry before a entry.entry e
            → IsLentAfter b other.entry f → AreFirst (b ++ f ∷ [])
            → HaveReceived self.old a b (Some e) (Some f)
            → IfOk result (Compares self.new a b e f) }
        ensures memory { IfErr result (λ error. error.error ≡ Error.Memory) }
    {
        let form = match spelling_of_entry(&mut self.first, entry) {
            Ok(form) => form,
            Err(_) => return Err(out_of_memory_in(Which::First)),
        };
        let other_form = match spelling_of_entry(&mut self.second, other) {
            Ok(form) => form,
            Err(_) => return Err(out_of_memory_in(Which::Second)),
        };
        if are_alike(form, &mut self.first, other_form, &mut self.second)? {
            self.first.end_message();
            self.second.end_message();
            return Ok(None);
        }
        Ok(Some(place_after(before, entry.kind(), other.kind())))
    }
}

/// Whose message an entry is.
fn side_of(kind: Kind) -> Option<Side>
    ensures { result ≡ side_of_kind kind }
{
    match kind {
        Kind::Call(_) => Some(Side::Client),
        Kind::Reply(_) => Some(Side::Server),
        Kind::Begin | Kind::Turn | Kind::Close | Kind::End => None,
    }
}

/// Returns where two entries differ, before which the entries had come so far: at the next record if
/// one of them is a message, and otherwise before the records of the next connection.
fn place_after(before: Progress, kind: Kind, other: Kind) -> Place
    ensures { before.connections + 1 < 2 ^ 32 → before.records + 1 < 2 ^ 32
        → result ≡ place_from before (side_of_kind kind) (side_of_kind other) }
{
    match side_of(kind).or(side_of(other)) {
        Some(side) => Place::Record {
            conn: before.connections,
            side,
            rec_no: before.records.saturating_add(1),
            byte: 0,
        },
        None => Place::Record {
            conn: before.connections.saturating_add(1),
            side: Side::Client,
            rec_no: 0,
            byte: 0,
        },
    }
}

/// Returns what an error of the second capture leads to: a refusal waits until the first capture is
/// read to its end.
fn finding_at_error(error: Error) -> Result<Option<Finding>, SameError>
    ensures { result ≡ met_second error }
{
    match error {
        Error::Refused(fault) => Ok(Some(Finding::Refused(fault))),
        Error::Read | Error::Write | Error::Memory => Err(SameError {
            which: Which::Second,
            error,
        }),
    }
}
