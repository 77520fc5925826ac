//! Whether a connection is whole.

ghost use Rattle.std.specs.Prelude.{ℕ, List, Option, IfOk};
ghost use Rattle.std.specs.Option.{option_copied};
ghost use Rattle.capture3.specs.Device.{Counts};
ghost use Rattle.connections3.specs.declared.connection.Connection.{Connection};
ghost use Rattle.connections3.specs.declared.connection.Flow.{Flow};
ghost use Rattle.payload3.specs.Readings.{Allow};
ghost use Rattle.conversion3.specs.Judgments.{IsJudged};
ghost use Rattle.conversion3.specs.OrderedConnections.{IsOrderedConnection, IsOrderedFlow};
ghost use Rattle.conversion3.specs.machinery.Ends.{IsEndJudged};

use crate::flaws::{StreamFlaw, order_flaw};
use crate::ordered_connections::{OrderedConnection, OrderedFlow};
use crate::repeated::first_changed;
use capture3::{DeviceFailed, Side};
use payload3::Recorded;
use std::os::unix::fs::FileExt;

/// What is wrong first with a connection: the client's stream comes before the server's.
#[derive(Clone, Copy, Debug, PartialEq, Eq, Drop)]
pub struct Flaw {
    /// Of which stream.
    pub side: Side,
    /// What is wrong first with it.
    pub kind: StreamFlaw,
}

/// Returns what is wrong first with a connection, or nothing if it is whole. Then both SYNs were
/// recorded, no byte that was sent is missing, none came again with other content, none lies behind
/// FIN, and each number is of its stream. Only bytes that came again are read.
///
/// # Errors
///
/// `DeviceFailed` if a read of the file failed, or the file ends before a payload does. It counts
/// as a failure.
pub fn judge<F: FileExt>(
    recorded: &mut Recorded<'_, F>,
    connection: &OrderedConnection,
) -> Result<Option<Flaw>, DeviceFailed>
    ensures more { (file : List ℕ) → Allow recorded.new.readings file
        → Allow recorded.old.readings file }
    ensures judged { IfOk result (λ flaw. (file : List ℕ) (c : Connection)
        → Allow recorded.new.readings file → IsOrderedConnection c connection.now
        → IsJudged file c flaw) }
    ensures count { Counts recorded.old.failures recorded.new.failures result }
{
    if let Some(kind) = judge_end(recorded, connection.side(Side::Client))? {
        return Ok(Some(Flaw {
            side: Side::Client,
            kind,
        }));
    }
    if let Some(kind) = judge_end(recorded, connection.side(Side::Server))? {
        return Ok(Some(Flaw {
            side: Side::Server,
            kind,
        }));
    }
    Ok(None)
}

/// Returns what is wrong first with what an end sent, or nothing if it is whole.
fn judge_end<F: FileExt>(
    recorded: &mut Recorded<'_, F>,
    flow: Option<&OrderedFlow>,
) -> Result<Option<StreamFlaw>, DeviceFailed>
    ensures more { (file : List ℕ) → Allow recorded.new.readings file
        → Allow recorded.old.readings file }
    ensures judged { IfOk result (λ flaw. (file : List ℕ) (shown : Option Flow)
        → Allow recorded.new.readings file → IsOrderedFlow shown (option_copied flow.entry)
        → IsEndJudged file shown flaw) }
    ensures count { Counts recorded.old.failures recorded.new.failures result }
{
    let Some(sent) = flow else {
        return Ok(Some(StreamFlaw::NoSyn));
    };
    if let Some(flaw) = order_flaw(&sent.stream) {
        return Ok(Some(flaw));
    }
    match first_changed(recorded, sent.stream.pairs())? {
        Some(run) => Ok(Some(StreamFlaw::Changed(run))),
        None => Ok(None),
    }
}
