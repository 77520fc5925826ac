//! The connections of a recording.

ghost use Rattle.std.specs.Prelude.{◌≡◌, [], Err, IfErr, IfOk, MatchResult};
ghost use Rattle.capture3.specs.declared.fault.Error.TheVariants as errors;
ghost use Rattle.program3.specs.Printed.{Prints};
ghost use Rattle.program3.specs.declared.outcome.Outcome.TheVariants.{Packed, Told};
ghost use Rattle.recording3.specs.Frames.{Extends, ReadsFrames};
ghost use Rattle.nfs3streams.specs.machinery.Converting.{ReadsConnections, StopsAtStart, TellsFailed};

use crate::line::asked::Wanted;
use crate::printed::{no_recording_report, refusal_report};
use capture3::{Error, Source};
use connections3::{Connection, NotTaken, PacketTaker};
use index3::{FrameRow, FrameTable};
use program3::{Outcome, Report};
use recording3::{Failed, FrameTaker, RecordingEnd, Tally, read_frames};
use std::alloc::{AllocError, Global};

/// What was read of a recording.
#[derive(Drop)]
pub struct RecordingRead {
    pub end: RecordingEnd,
    pub tally: Tally,
    pub connections: Vec<Connection>,
    /// Its frames, if an index is wanted.
    pub frames: Vec<FrameRow>,
}

/// Reads a recording to where it ends.
///
/// # Errors
///
/// - `Packed(Err(Error::Read))` if a read failed, `Packed(Err(Error::Memory))` if memory ran out.
/// - `Told` with the report that refuses the recording, if it has no header, or is beyond a limit.
pub(crate) fn read_connections<R: Source>(
    alloc: Global,
    source: &mut R,
    wanted: Wanted,
) -> Result<RecordingRead, Outcome>
    ensures ok { IfOk result
        (ReadsConnections (R.observed source.old, R.observed source.new) wanted) }
    ensures err { IfErr result (StopsAtStart
        (R.observed source.old, R.observed source.new)
        (R.failures source.old, R.failures source.new)) }
{
    match wanted {
        Wanted::Capture => {
            let mut taker = PacketTaker::new(alloc);
            let end = read_all(alloc, source, &mut taker)?;
            Ok(of_taker(end, taker, Vec::new(alloc)))
        }
        Wanted::Index => {
            let mut table = FrameTable::new(alloc);
            let end = read_all(alloc, source, &mut table)?;
            Ok(of_taker(end, table.taker, table.rows))
        }
    }
}

/// What a taker took of a recording.
fn of_taker(end: RecordingEnd, taker: PacketTaker, frames: Vec<FrameRow>) -> RecordingRead
    ensures end { result.end ≡ end }
    ensures tally { result.tally ≡ taker.tally }
    ensures connections { result.connections.items ≡ taker.connections }
    ensures frames { result.frames ≡ frames }
{
    RecordingRead {
        end,
        tally: taker.tally,
        connections: taker.connections.into_vec(),
        frames,
    }
}

/// Passes the frames of a recording to a taker, and returns where they end.
fn read_all<R: Source, T: FrameTaker<Error = NotTaken>>(
    alloc: Global,
    source: &mut R,
    taker: &mut T,
) -> Result<RecordingEnd, Outcome>
    ensures ok { IfOk result (ReadsFrames 0 (R.observed source.old, R.observed source.new)
        (Extends (T.took taker.old) (T.took taker.new))) }
    ensures err { IfErr result (StopsAtStart
        (R.observed source.old, R.observed source.new)
        (R.failures source.old, R.failures source.new)) }
{
    match read_frames(alloc, source, 0, taker) {
        Ok(end) if end.offset == 0 => Err(reported(no_recording_report(alloc, &end))),
        Ok(end) => Ok(end),
        Err(failed) => Err(stopped(alloc, failed)),
    }
}

/// Returns the outcome of a recording that is not read to where it ends.
fn stopped(alloc: Global, failed: Failed<NotTaken>) -> Outcome
    ensures { TellsFailed failed result }
{
    match failed {
        Failed::Read => Outcome::Packed(Err(Error::Read)),
        Failed::Memory | Failed::Taker(NotTaken::Memory) => Outcome::Packed(Err(Error::Memory)),
        Failed::Taker(NotTaken::Long) => reported(limit_report(alloc, "a stream is too long\n")),
        Failed::Taker(NotTaken::TooMany) => reported(limit_report(alloc, "too many frames\n")),
    }
}

/// Returns the outcome with a report, if there was memory for it.
fn reported(report: Result<Report, AllocError>) -> Outcome
    ensures { MatchResult report (λ report. result ≡ Told report)
        (λ _. result ≡ Packed (Err errors.Memory)) }
{
    match report {
        Ok(report) => Outcome::Told(report),
        Err(_) => Outcome::Packed(Err(Error::Memory)),
    }
}

/// Returns the report of a limit.
fn limit_report(alloc: Global, line: &str) -> Result<Report, AllocError>
    ensures { IfOk result (Prints 2 [] line.now) }
{
    refusal_report(alloc, String::from_str(alloc, line)?)
}
