//! Writes a capture of the connections of a recording of packets, or an index.
#![tactic(auto)]

mod capture;
mod connections;
mod conversion;
mod decided;
mod job;
mod line;
mod output;
mod printed;

ghost use Rattle.std.specs.Prelude.{[], map, string_bytes};
ghost use Rattle.program3.specs.Systems.{finished_of};
ghost use Rattle.nfs3streams.specs.Streams.{AnswersStreamsLine, streams_run};

use job::{StreamsAnswer, answer_line};
use program3::{Ended, Outcome, System, print_ended, words};
use std::process::ExitCode;

/// Does what the words ask for, with the files of the system.
fn run<'a>(rt: &'a HostRuntime, words: Vec<String>) -> (StreamsAnswer, System<'a>)
    ensures answers { AnswersStreamsLine (streams_run result.0.reads ([], finished_of result.1))
        (map string_bytes words.items) result.0.ended.outcome }
{
    let mut files = System::new(rt);
    let answer = answer_line(rt.alloc(), &mut files, words);
    (answer, files)
}

/// Closes the files. Without standard output one of them may have its number, and would get the line.
fn close_files(ran: (StreamsAnswer, System<'_>)) -> Ended {
    let (answer, _files) = ran;
    answer.ended
}

fn main(rt: HostRuntime) -> ExitCode {
    let words = match words(&rt) {
        Ok(words) => words,
        Err(fault) => return print_ended(&rt, &Ended::of(Outcome::Line(fault))),
    };
    print_ended(&rt, &close_files(run(&rt, words)))
}
