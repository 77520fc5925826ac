//! What a command line asks for, over any files, hashers and standard output.

ghost use Rattle.std.specs.Prelude.{◌≡◌, ℕ, false, List, is_some, Some, map, string_bytes};
ghost use Rattle.line3.specs.Asked.{Asks};
ghost use Rattle.program3.specs.Files.{files_run};
ghost use Rattle.program3.specs.Readings.{readings_in};
ghost use Rattle.program3.specs.declared.outcome.Outcome.TheVariants as outcomes;
ghost use Rattle.program3.specs.declared.reading.Readings.TheVariants.{Nothing};
ghost use Rattle.nfs3canon.specs.Answers.{AnswersJob, AnswersLine};
ghost use Rattle.nfs3canon.specs.Files.{ListsFile};

use crate::files::{run_check, run_same};
use crate::forms::Canonical;
use crate::listing::run_show;
use crate::packing::run_pack;
use canon3::{SameError, Which};
use capture3::{Error, Hashers};
use line3::{Job, LineFault, job};
use program3::{Ended, Files, Outcome, Readings, run_rewriting};
use std::alloc::Global;
use std::hash::BuildHasher;
use std::io::Write;

/// The hashers of two captures' tables. They affect no answer.
#[derive(Drop)]
pub struct JobHashers<S: BuildHasher + Drop> {
    pub first: Hashers<S>,
    pub second: Hashers<S>,
}

/// What came of a command line: the end, the standard output unless memory ran out for what is gathered
/// before it is written, and what was read.
#[derive(Drop)]
pub struct Answer<W: Drop> {
    pub ended: Ended,
    pub stdout: Option<W>,
    pub readings: Readings,
}

/// Does what the words of a command line ask for. `hashers` is `None` if the system gave no random bytes.
pub fn answer_line<F: Files, S: BuildHasher + Drop, W: Write + Drop>(
    alloc: Global,
    hashers: Option<JobHashers<S>>,
    files: &mut F,
    stdout: W,
    mut words: Vec<String>,
) -> Answer<W>
    ensures answers { AnswersLine (record {
      has_keys = is_some hashers;
      files = files_run F.holds F.finished files.old files.new
          (readings_in result.readings);
      stdout = record { contents = W.contents; before = stdout; after = result.stdout };
    }) (map string_bytes words.items) result.ended.outcome }
{
    match job(alloc, &mut words) {
        Ok(job) => answer_job(alloc, hashers, files, stdout, job),
        Err(fault) => refusal(stdout, fault),
    }
}

/// The answer of a command line that is refused.
fn refusal<W: Drop>(stdout: W, fault: LineFault) -> Answer<W>
    ensures { result ≡ record {
      ended = record { outcome = outcomes.Line fault; is_aside = false };
      stdout = Some stdout;
      readings = Nothing;
    } }
{
    quiet(Ended::of(Outcome::Line(fault)), stdout, Readings::Nothing)
}

/// Does a job, with hashers if the system gave random bytes.
fn answer_job<F: Files, S: BuildHasher + Drop, W: Write + Drop>(
    alloc: Global,
    hashers: Option<JobHashers<S>>,
    files: &mut F,
    stdout: W,
    job: Job<'_>,
) -> Answer<W>
    ensures { (words : List (List ℕ)) → Asks words job.entry
        → AnswersJob (record {
          has_keys = is_some hashers;
          files = files_run F.holds F.finished files.old files.new
              (readings_in result.readings);
          stdout = record { contents = W.contents; before = stdout; after = result.stdout };
        }) job.entry result.ended.outcome }
{
    let hashers = match hashers {
        Some(hashers) => hashers,
        None => return answer_without_hashers(alloc, files, stdout, job),
    };
    match job {
        Job::Check(name) => {
            let (outcome, readings) = run_check(alloc, hashers.first, files, name);
            quiet(Ended::of(outcome), stdout, readings)
        }
        Job::Show(name) => answer_show(alloc, hashers.first, files, stdout, name),
        Job::Canon(input, output) => {
            let form = Canonical {
                hashers: hashers.first,
            };
            let (ended, readings) = run_rewriting(alloc, form, files, input, output);
            quiet(ended, stdout, readings)
        }
        Job::Same(first, second) => {
            let (outcome, readings) = run_same(
                alloc,
                hashers.first,
                hashers.second,
                files,
                first,
                second,
            );
            quiet(Ended::of(outcome), stdout, readings)
        }
        Job::Pack(output, streams) => {
            let (ended, readings) = run_pack(alloc, files, output, streams);
            quiet(ended, stdout, readings)
        }
    }
}

/// Does a job without hashers. A command that hashes reads nothing then.
fn answer_without_hashers<F: Files, W: Write + Drop>(
    alloc: Global,
    files: &mut F,
    stdout: W,
    job: Job<'_>,
) -> Answer<W>
    ensures { (words : List (List ℕ)) → Asks words job.entry
        → AnswersJob (record {
          has_keys = false;
          files = files_run F.holds F.finished files.old files.new
              (readings_in result.readings);
          stdout = record { contents = W.contents; before = stdout; after = result.stdout };
        }) job.entry result.ended.outcome }
{
    let outcome = match job {
        Job::Check(_) => Outcome::Counted(Err(Error::Read)),
        Job::Show(_) => Outcome::Listed(Err(Error::Read)),
        Job::Canon(_, _) => Outcome::Counted(Err(Error::Read)),
        Job::Same(_, _) => Outcome::Compared(Err(SameError {
            which: Which::First,
            error: Error::Read,
        })),
        Job::Pack(output, streams) => {
            let (ended, readings) = run_pack(alloc, files, output, streams);
            return quiet(ended, stdout, readings);
        }
    };
    quiet(Ended::of(outcome), stdout, Readings::Nothing)
}

/// The answer of a job that wrote nothing to standard output.
fn quiet<W: Drop>(ended: Ended, stdout: W, readings: Readings) -> Answer<W>
    ensures { result ≡ record { ended = ended; stdout = Some stdout; readings = readings } }
{
    Answer {
        ended,
        stdout: Some(stdout),
        readings,
    }
}

fn answer_show<F: Files, S: BuildHasher + Drop, W: Write + Drop>(
    alloc: Global,
    hashers: Hashers<S>,
    files: &F,
    stdout: W,
    name: &str,
) -> Answer<W>
    ensures { ListsFile
        (files_run F.holds F.finished files.now files.now (readings_in result.readings))
        (record { contents = W.contents; before = stdout; after = result.stdout }) name.now
        result.ended.outcome }
{
    let listed = run_show(alloc, hashers, files, name, stdout);
    Answer {
        ended: Ended::of(listed.outcome),
        stdout: listed.output,
        readings: listed.readings,
    }
}
