//! What is said of the connections of a recording.

ghost use Rattle.std.specs.Prelude.{IfErr, IfOk, OnOk, ◌≡◌};
ghost use Rattle.nfs3streams.specs.machinery.Converting.{CountsFailure, DecidesOn};

use crate::connections::RecordingRead;
use crate::printed::{Found, found_report};
use capture3::Error;
use conversion3::{Decision, OrderedConnection, decide_all, order_all};
use index3::FrameRow;
use payload3::Recorded;
use program3::Report;
use recording3::RecordingEnd;
use std::alloc::Global;
use std::os::unix::fs::FileExt;

/// The connections of a recording in order, what is said of each, and the report of that.
#[derive(Drop)]
pub struct Decided {
    pub end: RecordingEnd,
    /// The frames of the recording, if an index is wanted.
    pub frames: Vec<FrameRow>,
    pub connections: Vec<OrderedConnection>,
    pub decisions: Vec<Decision>,
    pub report: Report,
}

/// Decides on the connections of a recording.
///
/// # Errors
///
/// - `Memory` if memory ran out.
/// - `Read` if a read failed, or the recording ends before a payload does.
pub(crate) fn decide<F: FileExt>(
    alloc: Global,
    recorded: &mut Recorded<'_, F>,
    ports: &[u16],
    read: RecordingRead,
) -> Result<Decided, Error>
    ensures decides { IfOk result (DecidesOn read ports.now recorded.new.readings) }
    ensures count { OnOk result (recorded.new.failures ≡ recorded.old.failures) }
    ensures err { IfErr result (CountsFailure (recorded.old.failures, recorded.new.failures)) }
{
    let RecordingRead {
        end,
        tally,
        connections,
        frames,
    } = read;
    let connections = order_all(alloc, connections)?;
    let decisions = decide_all(alloc, recorded, ports, &connections)?;
    let report = found_report(
        alloc,
        &Found {
            end,
            tally,
            connections: &connections,
            decisions: &decisions,
        },
    )?;
    Ok(Decided {
        end,
        frames,
        connections,
        decisions,
        report,
    })
}
