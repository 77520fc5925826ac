//! What the job does with files.

ghost use Rattle.std.specs.Prelude.{◌≡◌, is_some, map, string_bytes};
ghost use Rattle.nfs3mask.specs.Changes.{mask_text};
ghost use Rattle.program3.specs.Files.{FilesRun, files_run};
ghost use Rattle.program3.specs.Readings.{readings_in};
ghost use Rattle.program3.specs.declared.outcome.Outcome.TheVariants as outcomes;
ghost use Rattle.program3.specs.declared.reading.Readings.TheVariants.{Nothing};
ghost use Rattle.nfs3mask.specs.Masking.{AnswersMaskJob, AnswersMaskLine, MasksFile, RewritesMasked};
ghost use Rattle.nfs3mask.specs.declared.line.asked.MaskJob.{MaskJob};

use crate::line::asked::MaskJob;
use crate::line::change::ways_text;
use crate::line::command::mask_job;
use canon3::{Sink, Summary};
use capture3::{Error, Source};
use line3::LineFault;
use masking3::{MaskHashers, Ways, mask};
use program3::{Ended, Files, Outcome, Readings, Rewriting, run_rewriting};
use std::alloc::Global;
use std::hash::BuildHasher;

/// The masked form.
#[derive(Drop)]
struct MaskedForm<S: BuildHasher + Copy + Drop> {
    hashers: MaskHashers<S>,
    ways: Ways,
}

impl<S: BuildHasher + Copy + Drop> Rewriting for MaskedForm<S> {
    ghost use Rattle.canon3.specs.Summary.{IsSummary};
    ghost use Rattle.masking3.specs.Masked.{masked_bytes};

    type Counts = Summary;

    ghost form = { λ m. masked_bytes m.ways };

    ghost counts = { IsSummary };

    fn rewrite<R: Source, W: Sink>(
        self,
        alloc: Global,
        source: &mut R,
        sink: &mut W,
    ) -> Result<Summary, Error> {
        mask(alloc, self.hashers, self.ways, source, sink)
    }
}

/// What came of a command line: the end, and what was read.
#[derive(Drop)]
pub struct MaskAnswer {
    pub ended: Ended,
    pub readings: Readings,
}

/// Does what the words of a command line ask for. `hashers` is `None` if the system gave no random bytes.
pub fn answer_line<F: Files, S: BuildHasher + Copy + Drop>(
    alloc: Global,
    hashers: Option<MaskHashers<S>>,
    files: &mut F,
    mut words: Vec<String>,
) -> MaskAnswer
    ensures answers { AnswersMaskLine
        (files_run F.holds F.finished files.old files.new (readings_in result.readings))
        (is_some hashers) (map string_bytes words.items)
        result.ended.outcome }
{
    match mask_job(alloc, &mut words) {
        Ok(job) => answer_job(alloc, hashers, files, job),
        Err(fault) => refusal(fault),
    }
}

/// The answer of a command line that is refused.
fn refusal(fault: LineFault) -> MaskAnswer
    ensures outcome { result.ended.outcome ≡ outcomes.Line fault }
    ensures readings { result.readings ≡ Nothing }
{
    MaskAnswer {
        ended: Ended::of(Outcome::Line(fault)),
        readings: Readings::Nothing,
    }
}

fn answer_job<F: Files, S: BuildHasher + Copy + Drop>(
    alloc: Global,
    hashers: Option<MaskHashers<S>>,
    files: &mut F,
    job: MaskJob<'_>,
) -> MaskAnswer
    ensures { AnswersMaskJob
        (files_run F.holds F.finished files.old files.new (readings_in result.readings))
        (is_some hashers) job.entry result.ended.outcome }
{
    let (ended, readings) = match hashers {
        Some(hashers) => run_mask(alloc, hashers, files, job),
        None => (
            Ended::of(Outcome::Counted(Err(Error::Read))),
            Readings::Nothing,
        ),
    };
    MaskAnswer { ended, readings }
}

/// Masks the capture of one name into the file of another. The output is made once the input is open, and
/// there is memory for the words that tell the mask.
fn run_mask<F: Files, S: BuildHasher + Copy + Drop>(
    alloc: Global,
    hashers: MaskHashers<S>,
    files: &mut F,
    job: MaskJob<'_>,
) -> (Ended, Readings)
    ensures masks { MasksFile
        (files_run F.holds F.finished files.old files.new (readings_in result.1))
        job.entry result.0.outcome }
{
    let ways = job.ways;
    let Ok(words) = ways_text(alloc, ways) else {
        let ended = Ended::of(Outcome::Counted(Err(Error::Memory)));
        return (ended, Readings::Nothing);
    };
    let form = MaskedForm { hashers, ways };
    let (ended, readings) = run_rewriting(alloc, form, files, job.input, job.output);
    let Ended { outcome, is_aside } = ended;
    let ended = Ended {
        is_aside,
        outcome: with_mask_text(outcome, words),
    };
    (ended, readings)
}

/// Tells the mask with the counts. What came of it stays.
fn with_mask_text(outcome: Outcome, told: String) -> Outcome
    ensures { (run : FilesRun) (job : MaskJob) → string_bytes told ≡ mask_text job.ways
        → RewritesMasked run job outcome → MasksFile run job result }
{
    match outcome {
        Outcome::Counted(came) => match came {
            Ok(summary) => Outcome::Masked(summary, told),
            Err(error) => Outcome::Counted(Err(error)),
        },
        outcome => outcome,
    }
}
