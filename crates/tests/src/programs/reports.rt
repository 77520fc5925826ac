//! What is printed of each outcome, and its exit status.

use crate::faults::{record, refusal};
use canon3::{MessageCounts, SameError, Summary, Verdict, Which};
use capture3::{Error, Place, Side};
use line3::LineFault;
use program3::{Ended, Outcome, on_standard_error, report};
use std::alloc::Global;
use std::process::Abort;
use std::test::Fail;
use xdr3::Reason;

/// What a program ends with: its status, standard output and standard error.
#[derive(Drop)]
struct Wanted {
    status: u8,
    out: &'static str,
    err: &'static str,
}

fn out(status: u8, out: &'static str) -> Wanted {
    Wanted {
        status,
        out,
        err: "",
    }
}

fn err(status: u8, err: &'static str) -> Wanted {
    Wanted {
        status,
        out: "",
        err,
    }
}

fn ends(rt: &impl Abort, alloc: Global, outcome: &Outcome, wanted: &Wanted) -> Result<(), Fail> {
    let report = report(alloc, outcome)?;
    assert_eq!(rt; report.status, wanted.status);
    assert_eq!(rt; report.out.as_slice(), wanted.out.as_bytes());
    assert_eq!(rt; report.err.as_slice(), wanted.err.as_bytes());
    Ok(())
}

fn message_counts() -> MessageCounts {
    MessageCounts {
        connections: 3,
        calls: 103,
        replies: 102,
    }
}

fn summary() -> Summary {
    Summary {
        connections: 3,
        calls: 103,
        replies: 102,
        handles: 9,
    }
}

fn in_one_of_two(which: Which, error: Error) -> Outcome {
    Outcome::Compared(Err(SameError { which, error }))
}

#[test]
fn jobs_that_are_done(rt: HostRuntime) -> Result<(), Fail> {
    let alloc = rt.alloc();
    let counts = out(0, "ok connections=3 calls=103 replies=102 handles=9\n");
    ends(&rt, alloc, &Outcome::Counted(Ok(summary())), &counts)?;
    let mask = String::from_str(alloc, " times=zero")?;
    let counts_and_mask = out(
        0,
        "ok connections=3 calls=103 replies=102 handles=9\nmasked times=zero\n",
    );
    ends(
        &rt,
        alloc,
        &Outcome::Masked(summary(), mask),
        &counts_and_mask,
    )?;
    ends(
        &rt,
        alloc,
        &Outcome::Listed(Ok(message_counts())),
        &out(0, ""),
    )?;
    ends(&rt, alloc, &Outcome::Packed(Ok(())), &out(0, ""))?;
    ends(
        &rt,
        alloc,
        &Outcome::Compared(Ok(Verdict::Same)),
        &out(0, "same\n"),
    )
}

#[test]
fn captures_that_differ(rt: HostRuntime) -> Result<(), Fail> {
    let server = Outcome::Compared(Ok(Verdict::Differ(record(1, Side::Server, 7, 0))));
    ends(
        &rt,
        rt.alloc(),
        &server,
        &out(1, "differ at connection 1 server record 7\n"),
    )?;
    let client = Outcome::Compared(Ok(Verdict::Differ(record(2, Side::Client, 1, 0))));
    ends(
        &rt,
        rt.alloc(),
        &client,
        &out(1, "differ at connection 2 client record 1\n"),
    )
}

#[test]
fn captures_that_are_refused(rt: HostRuntime) -> Result<(), Fail> {
    let alloc = rt.alloc();
    let in_record = refusal(record(2, Side::Server, 3, 24), Reason::BadBool);
    let in_file = refusal(Place::File { at: 12 }, Reason::BadMark);
    let line = err(2, "connection 2 server record 3 byte 24: BadBool\n");
    ends(&rt, alloc, &Outcome::Counted(Err(in_record)), &line)?;
    ends(&rt, alloc, &Outcome::Listed(Err(in_record)), &line)?;
    let line = err(2, "file 12: BadMark\n");
    ends(&rt, alloc, &Outcome::Counted(Err(in_file)), &line)?;
    let first = err(2, "first: connection 2 server record 3 byte 24: BadBool\n");
    ends(&rt, alloc, &in_one_of_two(Which::First, in_record), &first)?;
    let second = err(2, "second: file 12: BadMark\n");
    ends(&rt, alloc, &in_one_of_two(Which::Second, in_file), &second)?;
    let too_many = refusal(Place::File { at: 786_428 }, Reason::TooManyConnections);
    let line = err(2, "file 786428: TooManyConnections\n");
    ends(&rt, alloc, &Outcome::Packed(Err(too_many)), &line)
}

#[test]
fn failures(rt: HostRuntime) -> Result<(), Fail> {
    let alloc = rt.alloc();
    for (error, line) in [
        (Error::Read, "read failed\n"),
        (Error::Write, "write failed\n"),
        (Error::Memory, "out of memory\n"),
    ] {
        ends(&rt, alloc, &Outcome::Counted(Err(error)), &err(3, line))?;
        ends(&rt, alloc, &Outcome::Listed(Err(error)), &err(3, line))?;
        ends(&rt, alloc, &Outcome::Packed(Err(error)), &err(3, line))?;
    }
    let first = in_one_of_two(Which::First, Error::Read);
    ends(&rt, alloc, &first, &err(3, "first: read failed\n"))?;
    let second = in_one_of_two(Which::Second, Error::Memory);
    ends(&rt, alloc, &second, &err(3, "second: out of memory\n"))
}

/// What a terminal would obey is printed in hexadecimal.
#[test]
fn files_that_are_not_opened(rt: HostRuntime) -> Result<(), Fail> {
    let alloc = rt.alloc();
    let plain = Outcome::Unopened(String::from_str(alloc, "run.nfs3cap")?);
    ends(&rt, alloc, &plain, &err(3, "open failed: run.nfs3cap\n"))?;
    let odd = Outcome::Unopened(String::from_str(alloc, "a\n\\\x1b")?);
    ends(&rt, alloc, &odd, &err(3, "open failed: a\\x0a\\x5c\\x1b\n"))
}

/// A usage gets a newline if it has none.
#[test]
fn lines_that_are_refused(rt: HostRuntime) -> Result<(), Fail> {
    let alloc = rt.alloc();
    for text in ["Usage: nfs3canon", "Usage: nfs3canon\n"] {
        let usage = Outcome::Line(LineFault::Usage(String::from_str(alloc, text)?));
        ends(&rt, alloc, &usage, &err(4, "Usage: nfs3canon\n"))?;
    }
    let odd = err(4, "streams come in pairs\n");
    ends(&rt, alloc, &Outcome::Line(LineFault::Odd), &odd)?;
    let same_name = err(4, "output names an input\n");
    ends(&rt, alloc, &Outcome::Line(LineFault::SameName), &same_name)?;
    let not_text = err(4, "a word of the line is not UTF-8\n");
    ends(&rt, alloc, &Outcome::Line(LineFault::NotText), &not_text)?;
    let out_of_memory = err(3, "out of memory\n");
    ends(
        &rt,
        alloc,
        &Outcome::Line(LineFault::Memory),
        &out_of_memory,
    )
}

/// Where standard output has the bytes of the capture, all is on standard error.
#[test]
fn a_report_aside(rt: HostRuntime) -> Result<(), Fail> {
    let ended = Ended::of(Outcome::Counted(Ok(summary())));
    assert!(rt; !ended.is_aside);
    let report = on_standard_error(rt.alloc(), report(rt.alloc(), &ended.outcome)?)?;
    assert_eq!(rt; report.status, 0);
    assert!(rt; report.out.is_empty());
    let line = "ok connections=3 calls=103 replies=102 handles=9\n";
    assert_eq!(rt; report.err.as_slice(), line.as_bytes());
    Ok(())
}
