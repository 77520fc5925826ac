//! The end of a program: its texts are printed, and its status is returned.

ghost use Rattle.std.specs.Prelude.{IfOk, OnOk, true};
ghost use Rattle.std.specs.Io.KnownBytes.{Appends};
ghost use Rattle.program3.specs.Ending.{IsReport, ReportsEnded, ReportsOnError};

use crate::outcome::{Ended, Report};
use crate::reports::printed::{OUTSIDE, on_standard_error, report};
use canon3::Traced;
use std::alloc::{AllocError, Global};
use std::io;
use std::io::Write;
use std::process::ExitCode;

/// What the end of a program told: the exit status, and whether standard error took its text.
#[derive(Clone, Copy, Debug, PartialEq, Eq)]
pub struct Exit {
    pub status: u8,
    pub is_reported: bool,
}

/// Prints the report of what came of a job, and returns its exit status.
///
/// If standard output cannot be written, prints `write failed` on standard error and returns 3. If memory
/// ran out for the report, prints nothing and returns 3. If standard error fails, its text is lost.
pub fn print_ended(rt: &HostRuntime, ended: &Ended) -> ExitCode {
    let mut out = Traced::new(rt.stdout());
    let mut err = Traced::new(rt.stderr());
    ExitCode::from(report_ended(rt.alloc(), ended, &mut out, &mut err).status)
}

/// Prints the report of what came of a job to these writers, as `print_ended` does to those of the system.
pub fn report_ended<O: Write, E: Write>(
    alloc: Global,
    ended: &Ended,
    out: &mut O,
    err: &mut E,
) -> Exit
    ensures { ReportsEnded ended.now
        (record {
          out_before = O.contents out.old;
          out_after = O.contents out.new;
          err_before = E.contents err.old;
          err_after = E.contents err.new;
        })
        result }
{
    let Ok(report) = end_report(alloc, ended) else {
        return Exit {
            status: OUTSIDE,
            is_reported: true,
        };
    };
    if print_report(out, &report).is_err() {
        let is_reported = tell(err, b"write failed\n");
        return Exit {
            status: OUTSIDE,
            is_reported,
        };
    }
    let is_reported = tell(err, &report.err);
    Exit {
        status: report.status,
        is_reported,
    }
}

fn end_report(alloc: Global, ended: &Ended) -> Result<Report, AllocError>
    ensures { IfOk result (IsReport ended.now.is_aside ended.now.outcome) }
{
    let report = report(alloc, &ended.outcome)?;
    if ended.is_aside {
        on_standard_error(alloc, report)
    } else {
        Ok(report)
    }
}

fn print_report<O: Write>(out: &mut O, report: &Report) -> io::Result<()>
    ensures { OnOk result (Appends (O.contents out.old) (O.contents out.new) report.now.out.items) }
{
    out.write_all(&report.out)?;
    out.flush()
}

/// Nothing is left to be told if standard error fails. Returns whether it took the text.
fn tell<E: Write>(err: &mut E, text: &[u8]) -> bool
    ensures { ReportsOnError result (E.contents err.old) (E.contents err.new) text.now }
{
    err.write_all(text).is_ok()
}
