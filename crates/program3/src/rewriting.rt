//! A form of a capture's entries, written to a file.

ghost use Rattle.std.specs.Prelude.{◌≡◌, ◌∷◌, ℕ, List, [], Option, Some, IfErr, IfOk, OnErr, OnOk};
ghost use Rattle.capture3.specs.Entry as spec;
ghost use Rattle.capture3.specs.Entries.{CountsReading};
ghost use Rattle.capture3.specs.Observed.{GavePrefix};
ghost use Rattle.canon3.specs.EntryWriter.{WritesAllCounted, WritesGivenCounted};
ghost use Rattle.canon3.specs.WriteErrors.{IsOfWriting};
ghost use Rattle.program3.specs.Files.{KeepsForm, RewritesFile, files_run};
ghost use Rattle.program3.specs.Readings.{IsByFailedRead, IsUnread, MayContain, reading_under, readings_in};

use crate::files::{Files, Made};
use crate::outcome::{Ended, Outcome};
use crate::output::writing::{WRITTEN_AT_ONCE, write_out};
use crate::reading::Readings;
use canon3::{Sink, Summary, ToWrite};
use capture3::{Error, FromRead, Source};
use std::alloc::{AllocError, Global};
use std::io::{BufWriter, Read, Write};

/// What reads a capture and writes a form of its entries.
pub trait Rewriting {
    /// What is counted of a capture.
    type Counts: Drop;

    // What the entries are written as.
    ghost form: { Self → List spec.Entry → List ℕ };

    // Holds of a capture's bytes and its counts.
    ghost counts: { List ℕ → Self.Counts → Type 0 };

    /// Reads a capture to its end, and writes the form of its entries as they come.
    fn rewrite<R: Source, W: Sink>(
        self,
        alloc: Global,
        source: &mut R,
        sink: &mut W,
    ) -> Result<Self::Counts, Error>
        ensures writes { WritesGivenCounted counts (form self)
            (R.observed source.old, R.observed source.new) (W.written sink.old, W.written sink.new)
            result }
        ensures whole { (bytes : List ℕ)
            → GavePrefix (R.observed source.old) (R.observed source.new) bytes
            → WritesAllCounted counts (form self) bytes (W.written sink.old, W.written sink.new)
            result }
        ensures read { CountsReading (R.failures source.old) (R.failures source.new) result };
}

/// Reads the capture of one name, and writes the form of its entries to the file of another. The file gets
/// its name once the form is whole and safe, and at no other end. Returns what was read, too.
pub fn run_rewriting<F: Files, J: Rewriting<Counts = Summary> + Drop>(
    alloc: Global,
    rewriting: J,
    files: &mut F,
    input: &str,
    output: &str,
) -> (Ended, Readings)
    ensures rewrites { RewritesFile J.counts (J.form rewriting)
        (files_run F.holds F.finished files.old files.new (readings_in result.1))
        (input.now, output.now) result.0.outcome }
{
    match files.open_both(input, output) {
        Ok((mut opened, made)) => {
            let is_aside = files.is_standard_output(&made.place);
            let came = keep_form(alloc, rewriting, files, &mut opened.source, made);
            let ended = Ended {
                is_aside,
                outcome: Outcome::Counted(came),
            };
            (ended, Readings::OfOne(opened.close()))
        }
        Err(outcome) => (Ended::of(outcome), Readings::Nothing),
    }
}

fn keep_form<F: Files, J: Rewriting<Counts = Summary> + Drop>(
    alloc: Global,
    rewriting: J,
    files: &mut F,
    source: &mut FromRead<F::Input>,
    made: Made<F::Output, F::Place>,
) -> Result<Summary, Error>
    ensures keeps { (whole : Option (List ℕ)) (name bytes : List ℕ)
        → IsUnread F.Input.remaining whole source.old
        → MayContain whole (reading_under name source.new) bytes
        → F.Output.contents made.file ≡ Some []
        → KeepsForm J.counts (J.form rewriting) (F.name_of made.place) bytes
        (F.finished files.old, F.finished files.new) result }
    ensures read { (name : List ℕ) → source.old.failures ≡ 0
        → IsByFailedRead (reading_under name source.new) result }
{
    let Made { file, place } = made;
    match write_form(alloc, rewriting, source, file) {
        Ok((Ok(summary), file)) => {
            finish_file(files, file, place)?;
            Ok(summary)
        }
        Ok((Err(error), _file)) => {
            files.remove(place);
            Err(error)
        }
        Err(_) => {
            files.remove(place);
            Err(Error::Memory)
        }
    }
}

/// Makes a whole file safe, and gives it its name.
///
/// # Errors
///
/// It is removed, and what has the name is unchanged.
/// - `Write` if its bytes cannot be made safe, or it cannot have the name.
/// - `Memory` if memory ran out.
pub fn finish_file<F: Files>(files: &mut F, file: F::Output, place: F::Place) -> Result<(), Error>
    ensures ok { OnOk result
        (F.finished files.new
        ≡ record { name = F.name_of place; bytes = F.Output.contents file }
        ∷ F.finished files.old) }
    ensures err { OnErr result (F.finished files.new ≡ F.finished files.old) }
    ensures error { IfErr result IsOfWriting }
{
    match files.make_safe(file, &place) {
        Ok(safe) => files.give_name(safe, place),
        Err(_) => {
            files.remove(place);
            Err(Error::Write)
        }
    }
}

/// Reads a capture, and writes the form of its entries through a buffer. Returns what came of it, and the
/// writer.
///
/// # Errors
///
/// If memory ran out before anything was read.
pub fn write_form<R: Read, W: Write + Drop, J: Rewriting + Drop>(
    alloc: Global,
    rewriting: J,
    source: &mut FromRead<R>,
    output: W,
) -> Result<(Result<J::Counts, Error>, W), AllocError>
    ensures writes { (whole : Option (List ℕ)) (name bytes : List ℕ)
        → IsUnread R.remaining whole source.old
        → MayContain whole (reading_under name source.new) bytes
        → IfOk result (λ done. WritesAllCounted J.counts (J.form rewriting) bytes
        (W.contents output, W.contents done.1) done.0) }
    ensures read { (name : List ℕ) → source.old.failures ≡ 0
        → IfOk result (λ done. IsByFailedRead (reading_under name source.new) done.0) }
    ensures unread { OnErr result (source.new ≡ source.old) }
{
    let Ok(buffer) = BufWriter::with_capacity(alloc, WRITTEN_AT_ONCE, output) else {
        return Err(AllocError);
    };
    let mut sink = ToWrite::new(buffer);
    let came = rewriting.rewrite(alloc, source, &mut sink);
    Ok(write_out(came, sink.into_inner()))
}
