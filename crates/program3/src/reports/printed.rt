//! What the program prints of an outcome.

ghost use Rattle.std.specs.Prelude.{◌≡◌, ◌++◌, [], IfOk, OnOk, string_bytes};
ghost use Rattle.program3.specs.Printed.{Prints, PrintsLineFault, PrintsOutcome, PrintsVerdict, counts_of, differing_at, ended_of, error_line, escaped, escaped_byte, fault_of, irregular_line, mask_line, prefix_of, side_of, status_of, unopened_of};

use crate::outcome::{Outcome, Report};
use canon3::{Summary, Verdict, Which};
use capture3::{Error, Fault, Place, Side};
use hex::encode_to_slice;
use line3::LineFault;
use std::alloc::{AllocError, Global};

/// The status of an ending that the outside brought about: a file, a device, or memory.
pub const OUTSIDE: u8 = 3;

/// Returns the lines and the exit status of an outcome: 0 for a job that is done, 1 for captures that differ,
/// 2 for a refused capture, 3 for a file, a device or memory that failed, and 4 for a refused command line.
/// A fault of one of two captures has `first: ` or `second: ` before it. After the counts of a masked capture
/// comes a line with its mask.
///
/// # Errors
///
/// `AllocError` if memory ran out for the texts.
pub fn report(alloc: Global, outcome: &Outcome) -> Result<Report, AllocError>
    ensures { IfOk result (PrintsOutcome outcome.now) }
{
    match outcome {
        Outcome::Counted(Ok(summary)) => output_report(alloc, 0, counts(alloc, summary)?),
        Outcome::Counted(Err(error)) => failure_report(alloc, "", error),
        Outcome::Masked(summary, mask) => {
            output_report(alloc, 0, counts_and_mask(alloc, summary, mask.as_str())?)
        }
        Outcome::Listed(Ok(_)) => output_report(alloc, 0, String::new(alloc)),
        Outcome::Listed(Err(error)) => failure_report(alloc, "", error),
        Outcome::Compared(Ok(verdict)) => verdict_report(alloc, verdict),
        Outcome::Compared(Err(error)) => failure_report(alloc, prefix(error.which), &error.error),
        Outcome::Packed(Ok(())) => output_report(alloc, 0, String::new(alloc)),
        Outcome::Packed(Err(error)) => failure_report(alloc, "", error),
        Outcome::Unopened(name) => open_failure_report(alloc, name.as_str()),
        Outcome::Irregular => irregular_report(alloc),
        Outcome::Told(report) => copy_of(alloc, report),
        Outcome::Line(fault) => line_fault_report(alloc, fault),
    }
}

/// Returns the report with both texts on standard error, for a program whose standard output has other bytes.
///
/// # Errors
///
/// `AllocError` if memory ran out for the text.
pub fn on_standard_error(alloc: Global, report: Report) -> Result<Report, AllocError>
    ensures { IfOk result (Prints report.status [] (report.out.items ++ report.err.items)) }
{
    let Report { status, out, err } = report;
    let mut text = out;
    text.extend_from_slice(&err)?;
    Ok(Report {
        status,
        out: Vec::new(alloc),
        err: text,
    })
}

/// A report that the program made itself.
fn copy_of(alloc: Global, report: &Report) -> Result<Report, AllocError>
    ensures { IfOk result
        (Prints report.now.status report.now.out.items report.now.err.items) }
{
    let mut out = Vec::new(alloc);
    out.extend_from_slice(&report.out)?;
    let mut err = Vec::new(alloc);
    err.extend_from_slice(&report.err)?;
    Ok(Report {
        status: report.status,
        out,
        err,
    })
}

/// A report with a text on standard output.
fn output_report(alloc: Global, status: u8, out: String) -> Result<Report, AllocError>
    ensures { IfOk result (Prints status (string_bytes out) []) }
{
    Ok(Report {
        status,
        out: out.into_bytes(),
        err: Vec::new(alloc),
    })
}

/// A report with a text on standard error.
fn error_report(alloc: Global, status: u8, err: String) -> Result<Report, AllocError>
    ensures { IfOk result (Prints status [] (string_bytes err)) }
{
    Ok(Report {
        status,
        out: Vec::new(alloc),
        err: err.into_bytes(),
    })
}

fn verdict_report(alloc: Global, verdict: &Verdict) -> Result<Report, AllocError>
    ensures { IfOk result (PrintsVerdict verdict.now) }
{
    match verdict {
        Verdict::Same => output_report(alloc, 0, String::from_str(alloc, "same\n")?),
        Verdict::Differ(place) => output_report(alloc, 1, difference(alloc, *place)?),
    }
}

fn difference(alloc: Global, place: Place) -> Result<String, AllocError>
    ensures { IfOk result (λ line. string_bytes line ≡ differing_at place) }
{
    match place {
        Place::File { at } => format!(in alloc; "differ at file {at}\n"),
        Place::Record {
            conn,
            side,
            rec_no,
            byte: _,
        } => {
            let side = side_name(side);
            format!(in alloc; "differ at connection {conn} {side} record {rec_no}\n")
        }
    }
}

/// What stands before the line of a fault or a failure of one of two captures.
fn prefix(which: Which) -> &'static str
    ensures { result.now ≡ prefix_of which }
{
    match which {
        Which::First => "first: ",
        Which::Second => "second: ",
    }
}

fn line_fault_report(alloc: Global, fault: &LineFault) -> Result<Report, AllocError>
    ensures { IfOk result (PrintsLineFault fault.now) }
{
    let text = match fault {
        LineFault::Usage(text) => with_newline(text)?,
        LineFault::Odd => String::from_str(alloc, "streams come in pairs\n")?,
        LineFault::SameName => String::from_str(alloc, "output names an input\n")?,
        LineFault::NotText => String::from_str(alloc, "a word of the line is not UTF-8\n")?,
        LineFault::Memory => return failure_report(alloc, "", &Error::Memory),
    };
    error_report(alloc, 4, text)
}

fn failure_report(alloc: Global, prefix: &str, error: &Error) -> Result<Report, AllocError>
    ensures { IfOk result (Prints (status_of error.now) [] (prefix.now ++ error_line error.now)) }
{
    let line = failure(alloc, error)?;
    error_report(alloc, status(error), format!(in alloc; "{prefix}{line}")?)
}

fn status(error: &Error) -> u8
    ensures { result ≡ status_of error.now }
{
    match error {
        Error::Refused(_) => 2,
        Error::Read | Error::Write | Error::Memory => OUTSIDE,
    }
}

fn failure(alloc: Global, error: &Error) -> Result<String, AllocError>
    ensures { IfOk result (λ line. string_bytes line ≡ error_line error.now) }
{
    match error {
        Error::Refused(fault) => line_of(alloc, fault),
        Error::Read => String::from_str(alloc, "read failed\n"),
        Error::Write => String::from_str(alloc, "write failed\n"),
        Error::Memory => String::from_str(alloc, "out of memory\n"),
    }
}

fn counts(alloc: Global, summary: &Summary) -> Result<String, AllocError>
    ensures { IfOk result (λ line. string_bytes line ≡ counts_of summary.now) }
{
    let connections = summary.connections;
    let calls = summary.calls;
    let replies = summary.replies;
    let handles = summary.handles;
    format!(in alloc;
        "ok connections={connections} calls={calls} replies={replies} handles={handles}\n"
    )
}

fn counts_and_mask(alloc: Global, summary: &Summary, mask: &str) -> Result<String, AllocError>
    ensures { IfOk result
        (λ text. string_bytes text ≡ counts_of summary.now ++ mask_line mask.now) }
{
    let mut text = counts(alloc, summary)?;
    text.push_str("masked")?;
    text.push_str(mask)?;
    text.push('\n')?;
    Ok(text)
}

fn line_of(alloc: Global, fault: &Fault) -> Result<String, AllocError>
    ensures { IfOk result (λ line. string_bytes line ≡ fault_of fault.now) }
{
    let reason = fault.reason.name();
    match fault.place {
        Place::File { at } => format!(in alloc; "file {at}: {reason}\n"),
        Place::Record {
            conn,
            side,
            rec_no,
            byte,
        } => {
            let side = side_name(side);
            format!(in alloc; "connection {conn} {side} record {rec_no} byte {byte}: {reason}\n")
        }
    }
}

/// Returns the name of a side.
pub fn side_name(side: Side) -> &'static str
    ensures { result.now ≡ side_of side }
{
    match side {
        Side::Client => "client",
        Side::Server => "server",
    }
}

/// The text with one newline at its end.
fn with_newline(text: &String) -> Result<String, AllocError>
    ensures { IfOk result (λ line. string_bytes line ≡ ended_of (string_bytes text.now)) }
{
    let mut line = text.clone()?;
    if !line.as_str().ends_with('\n') {
        line.push('\n')?;
    }
    Ok(line)
}

/// The name of a file may hold what a terminal would obey, so it is escaped.
fn open_failure_report(alloc: Global, name: &str) -> Result<Report, AllocError>
    ensures { IfOk result (Prints 3 [] (unopened_of name.now)) }
{
    let mut err = Vec::new(alloc);
    err.extend_from_slice(b"open failed: ")?;
    push_escaped(&mut err, name.as_bytes())?;
    err.extend_from_slice(b"\n")?;
    Ok(Report {
        status: OUTSIDE,
        out: Vec::new(alloc),
        err,
    })
}

fn irregular_report(alloc: Global) -> Result<Report, AllocError>
    ensures { IfOk result (Prints 3 [] irregular_line) }
{
    let line = String::from_str(
        alloc,
        "the recording is no regular file: write it into one first\n",
    )?;
    error_report(alloc, OUTSIDE, line)
}

fn push_escaped(out: &mut Vec<u8>, bytes: &[u8]) -> Result<(), AllocError>
    ensures { OnOk result (out.new.items ≡ out.old.items ++ escaped bytes.now) }
{
    for &byte in bytes {
        push_escaped_byte(out, byte)?;
    }
    Ok(())
}

fn push_escaped_byte(out: &mut Vec<u8>, byte: u8) -> Result<(), AllocError>
    ensures { OnOk result (out.new.items ≡ out.old.items ++ escaped_byte byte) }
{
    if byte >= 32 && byte != 127 && byte != b'\\' {
        out.extend_from_slice(&[byte])
    } else {
        let mut escape = [b'\\', b'x', 0, 0];
        match encode_to_slice(&[byte], &mut escape[2..]) {
            Ok(()) => out.extend_from_slice(&escape),
            // There is room for the two digits.
            Err(_) => unreachable!(),
        }
    }
}
