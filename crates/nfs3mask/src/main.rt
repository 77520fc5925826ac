//! Writes recorded NFS version 3 traffic with masked values, so that two runs of one script can be compared.
#![tactic(auto)]

mod hashers;
mod job;
mod line;

ghost use Rattle.std.specs.Prelude.{[], Bool, None, map, string_bytes};
ghost use Rattle.program3.specs.Readings.{readings_in};
ghost use Rattle.program3.specs.Systems.{finished_of};
ghost use Rattle.nfs3mask.specs.Masking.{AnswersMaskLine};

use hashers::mask_hashers;
use job::{MaskAnswer, answer_line};
use program3::{Ended, Outcome, System, print_ended, words};
use std::process::ExitCode;

/// Does what the words ask for, with the files of the system.
fn run<'a>(rt: &'a HostRuntime, words: Vec<String>) -> (MaskAnswer, System<'a>)
    ensures answers { (has_keys : Bool) × AnswersMaskLine (record {
      holds = λ _. None;
      readings = readings_in result.0.readings;
      finished = ([], finished_of result.1);
    }) has_keys (map string_bytes words.items) result.0.ended.outcome }
{
    let mut files = System::new(rt);
    let answer = answer_line(rt.alloc(), mask_hashers(rt).ok(), &mut files, words);
    (answer, files)
}

/// Closes the files. Without standard output one of them may have its number, and would get the line.
fn close_files(ran: (MaskAnswer, System<'_>)) -> Ended {
    let (answer, _files) = ran;
    answer.ended
}

fn main(rt: HostRuntime) -> ExitCode {
    let words = match words(&rt) {
        Ok(words) => words,
        Err(fault) => return print_ended(&rt, &Ended::of(Outcome::Line(fault))),
    };
    print_ended(&rt, &close_files(run(&rt, words)))
}
