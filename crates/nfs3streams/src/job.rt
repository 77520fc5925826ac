//! What the job does with files.

ghost use Rattle.std.specs.Prelude.{◌≡◌, IfErr, IfOk, None, map, string_bytes};
ghost use Rattle.program3.specs.Files.{FinishesNone, IsNew};
ghost use Rattle.program3.specs.declared.outcome.Outcome.TheVariants as outcomes;
ghost use Rattle.nfs3streams.specs.Streams.{AnswersStreamsJob, AnswersStreamsLine, streams_run};
ghost use Rattle.nfs3streams.specs.machinery.Converting.{FinishesFile};

use crate::conversion::{Converted, RecordingReads, convert};
use crate::line::asked::StreamsJob;
use crate::line::command::streams_job;
use line3::LineFault;
use program3::{Ended, Files, Made, Outcome, Report, finish_file};
use std::alloc::Global;

/// What came of a command line: the end, and what was read of the recording.
#[derive(Drop)]
pub struct StreamsAnswer {
    pub ended: Ended,
    pub reads: Option<RecordingReads>,
}

/// Does what the words of a command line ask for.
pub fn answer_line<F: Files>(alloc: Global, files: &mut F, words: Vec<String>) -> StreamsAnswer
    ensures answers { AnswersStreamsLine
        (streams_run result.reads (F.finished files.old, F.finished files.new))
        (map string_bytes words.items) result.ended.outcome }
{
    match streams_job(alloc, words.as_slice()) {
        Ok(job) => answer_job(alloc, files, &job),
        Err(fault) => refusal(fault),
    }
}

/// The answer of a command line that is refused.
fn refusal(fault: LineFault) -> StreamsAnswer
    ensures outcome { result.ended.outcome ≡ outcomes.Line fault }
    ensures reads { result.reads ≡ None }
{
    StreamsAnswer {
        ended: Ended::of(Outcome::Line(fault)),
        reads: None,
    }
}

fn answer_job<F: Files>(alloc: Global, files: &mut F, job: &StreamsJob<'_>) -> StreamsAnswer
    ensures { AnswersStreamsJob
        (streams_run result.reads (F.finished files.old, F.finished files.new))
        job.now result.ended.outcome }
{
    match files.open_recording(job.recording, job.output) {
        Ok((recording, made)) => keep_output(alloc, files, job, &recording, made),
        Err(outcome) => StreamsAnswer {
            ended: Ended::of(outcome),
            reads: None,
        },
    }
}

/// Converts a recording into the file that was made for it. The file gets its name once it is whole.
fn keep_output<F: Files>(
    alloc: Global,
    files: &mut F,
    job: &StreamsJob<'_>,
    recording: &F::Recording,
    made: Made<F::Output, F::Place>,
) -> StreamsAnswer
    ensures { IsNew F.Output.contents F.name_of made job.now.output.now → AnswersStreamsJob
        (streams_run result.reads (F.finished files.old, F.finished files.new))
        job.now result.ended.outcome }
{
    let is_aside = files.is_standard_output(&made.place);
    let Made { file, place } = made;
    let Converted { came, reads } = convert(alloc, job, recording, file);
    let outcome = finish_output(files, place, came);
    StreamsAnswer {
        ended: Ended { outcome, is_aside },
        reads: Some(reads),
    }
}

/// Gives the output its name if it is whole, and removes it otherwise.
fn finish_output<F: Files>(
    files: &mut F,
    place: F::Place,
    came: Result<(Report, F::Output), Outcome>,
) -> Outcome
    ensures whole { IfOk came (λ done. FinishesFile (F.name_of place, F.Output.contents done.1)
        (F.finished files.old, F.finished files.new) done.0 result) }
    ensures stopped { IfErr came (λ outcome. (result ≡ outcome)
        × FinishesNone (F.finished files.old, F.finished files.new)) }
{
    match came {
        Ok((report, file)) => match finish_file(files, file, place) {
            Ok(()) => Outcome::Told(report),
            Err(error) => Outcome::Packed(Err(error)),
        },
        Err(outcome) => {
            files.remove(place);
            outcome
        }
    }
}
