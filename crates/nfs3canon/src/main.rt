//! Checks, lists, compares and packs recorded NFS version 3 traffic, and brings it into a canonical form.
#![tactic(auto)]

mod files;
mod forms;
mod jobs;
mod listing;
mod packing;

ghost use Rattle.std.specs.Prelude.{◌≡◌, [], Bool, None, Some, map, string_bytes};
ghost use Rattle.std.specs.declared.io.Stdout.{Stdout};
ghost use Rattle.canon3.specs.Traced.{TracedWriter};
ghost use Rattle.program3.specs.Readings.{readings_in};
ghost use Rattle.program3.specs.Systems.{finished_of};
ghost use Rattle.nfs3canon.specs.Answers.{AnswersLine};

use canon3::Traced;
use jobs::{Answer, JobHashers, answer_line};
use program3::{Ended, Outcome, SecretHasher, System, hashers, print_ended, words};
use std::io;
use std::io::Stdout;
use std::process::ExitCode;

/// Returns hashers with keys that nobody who writes a capture can know.
///
/// # Errors
///
/// That of the system if it gives no random bytes.
fn job_hashers(rt: &HostRuntime) -> io::Result<JobHashers<SecretHasher>> {
    Ok(JobHashers {
        first: hashers(rt)?,
        second: hashers(rt)?,
    })
}

/// Does what the words ask for, with the files of the system and its standard output.
fn run<'a>(rt: &'a HostRuntime, words: Vec<String>) -> (Answer<Traced<Stdout>>, System<'a>)
    ensures answers { (has_keys : Bool) × (stdout : TracedWriter Stdout) × (stdout.taken ≡ [])
        × AnswersLine (record {
          has_keys = has_keys;
          files = record {
            holds = λ _. None;
            readings = readings_in result.0.readings;
            finished = ([], finished_of result.1);
          };
          stdout = record {
            contents = λ writer. Some writer.taken;
            before = stdout;
            after = result.0.stdout;
          };
        }) (map string_bytes words.items) result.0.ended.outcome }
{
    let mut files = System::new(rt);
    let stdout = Traced::new(rt.stdout());
    let answer = answer_line(rt.alloc(), job_hashers(rt).ok(), &mut files, stdout, words);
    (answer, files)
}

/// Closes the files. Without standard output one of them may have its number, and would get the line.
fn close_files<W: Drop>(ran: (Answer<W>, System<'_>)) -> Ended {
    let (answer, _files) = ran;
    answer.ended
}

fn main(rt: HostRuntime) -> ExitCode {
    let words = match words(&rt) {
        Ok(words) => words,
        Err(fault) => return print_ended(&rt, &Ended::of(Outcome::Line(fault))),
    };
    print_ended(&rt, &close_files(run(&rt, words)))
}
