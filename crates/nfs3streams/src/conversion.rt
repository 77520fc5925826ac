//! A recording that is converted into what is wanted.

ghost use Rattle.std.specs.Prelude.{◌≡◌, ◌⊎◌, ℕ, List, [], Some, IfErr, IfOk};
ghost use Rattle.capture3.specs.Observed.{GavePrefix};
ghost use Rattle.payload3.specs.Readings.{Allow};
ghost use Rattle.recording3.specs.Places.{Passed};
ghost use Rattle.nfs3streams.specs.Conversion.{HasFrames, MayHave};
ghost use Rattle.nfs3streams.specs.Streams.{EndsFrames, StopsBy, StopsWith, reading_from};
ghost use Rattle.nfs3streams.specs.machinery.Converting.{ConvertsTo, CountsFailure};

use crate::connections::read_connections;
use crate::decided::decide;
use crate::line::asked::StreamsJob;
use crate::output::write_wanted;
use capture3::Source;
use payload3::{Reads, Recorded};
use program3::{Closed, FromStart, Opened, Outcome, Report};
use std::alloc::Global;
use std::io::Write;
use std::os::unix::fs::FileExt;

/// What the reads of a recording gave, which only clauses see.
#[derive(Drop)]
pub struct RecordingReads {
    start: Closed,
    others: Reads,
}

/// What came of a conversion: the report and the file that was written, or the outcome if there is none.
#[derive(Drop)]
pub struct Converted<W: Drop> {
    pub came: Result<(Report, W), Outcome>,
    pub reads: RecordingReads,
}

/// Reads a recording, and writes what a job wants of it.
pub(crate) fn convert<F: FileExt, W: Write + Drop>(
    alloc: Global,
    job: &StreamsJob<'_>,
    recording: &F,
    output: W,
) -> Converted<W>
    ensures named { (reading_from result.reads).start.name ≡ job.now.recording.now }
    ensures converts { W.contents output ≡ Some [] → IfOk result.came (λ done. ConvertsTo
        (MayHave (reading_from result.reads)) job.now done.0 (W.contents done.1)) }
    ensures stops { IfErr result.came (StopsWith (EndsFrames (reading_from result.reads))
        (StopsBy (reading_from result.reads))) }
{
    let mut opened = Opened::new(job.recording, FromStart::new(recording));
    let mut recorded = Recorded::new(recording);
    let came = convert_read(alloc, &mut opened.source, &mut recorded, job, output);
    let reads = RecordingReads {
        start: opened.close(),
        others: recorded.into_reads(),
    };
    Converted { came, reads }
}

/// Reads a recording from its start, and payloads where they lie.
fn convert_read<R: Source, F: FileExt, W: Write + Drop>(
    alloc: Global,
    source: &mut R,
    recorded: &mut Recorded<'_, F>,
    job: &StreamsJob<'_>,
    output: W,
) -> Result<(Report, W), Outcome>
    ensures converts { W.contents output ≡ Some [] → IfOk result (λ done. ConvertsTo
        (λ file. GavePrefix (R.observed source.old) (R.observed source.new) file
        × Allow recorded.new.readings file) job.now done.0 (W.contents done.1)) }
    ensures stops { IfErr result (StopsWith
        (λ end. (file : List ℕ)
        → GavePrefix (R.observed source.old) (R.observed source.new) file
        → (frames : List Passed) × HasFrames file frames end)
        (λ error. CountsFailure (R.failures source.old, R.failures source.new) error
        ⊎ CountsFailure (recorded.old.failures, recorded.new.failures) error)) }
{
    let read = match read_connections(alloc, source, job.wanted) {
        Ok(read) => read,
        Err(outcome) => return Err(outcome),
    };
    let decided = match decide(alloc, recorded, &job.ports, read) {
        Ok(decided) => decided,
        Err(error) => return Err(Outcome::Packed(Err(error))),
    };
    match write_wanted(alloc, recorded, job.wanted, &decided, output) {
        Ok(output) => Ok((decided.report, output)),
        Err(error) => Err(Outcome::Packed(Err(error))),
    }
}
