//! Which connections are chosen.

ghost use Rattle.std.specs.Prelude.{◌≡◌, ◌≤◌, ◌⊎◌, ◌↔◌, ℕ, List, IfErr, IfOk, IsTrue, length};
ghost use Rattle.capture3.specs.Device.{Counts};
ghost use Rattle.capture3.specs.Entries.{CountsReading};
ghost use Rattle.capture3.specs.declared.fault.Error.TheVariants as errors;
ghost use Rattle.connections3.specs.declared.connection.Connection.{Connection};
ghost use Rattle.payload3.specs.Readings.{Allow};
ghost use Rattle.streams3.specs.Content.{AreIn, content_of};
ghost use Rattle.streams3.specs.Order.{IsOrderOf};
ghost use Rattle.streams3.specs.Streams.{Shown};
ghost use Rattle.conversion3.specs.Choice.{BeginsWithCall, IsChosen, has_port};
ghost use Rattle.conversion3.specs.OrderedConnections.{IsOrderedConnection};
ghost use Rattle.conversion3.specs.machinery.Heads.{HasCallWords};

use crate::ordered_connections::OrderedConnection;
use capture3::{DeviceFailed, Error, Side};
use connections3::EndPair;
use packing3::fill;
use payload3::Recorded;
use std::alloc::Global;
use std::os::unix::fs::FileExt;
use streams3::{OrderedStream, Run};

/// The ports of NFS (RFC 1813), of MOUNT, and of the port mapper (RFC 1833).
const USUAL_PORTS: [u16; 3] = [2049, 20048, 111];

/// How many bytes are read of a call: a record mark, its xid, and the words below.
const HEAD_SIZE: usize = 16;

/// CALL, and the version of RPC (RFC 5531, section 9).
const CALL_WORDS: [u8; 8] = [0, 0, 0, 0, 0, 0, 0, 2];

/// Returns whether a connection is chosen: an end of it has one of the ports. If no port is named,
/// it has a usual one, or its client begins with a call.
///
/// # Errors
///
/// - `Memory` if an allocation failed.
/// - `Read` if a read of the file failed. It counts as a failure.
pub(crate) fn is_chosen<F: FileExt>(
    alloc: Global,
    recorded: &mut Recorded<'_, F>,
    ports: &[u16],
    connection: &OrderedConnection,
) -> Result<bool, Error>
    ensures more { (file : List ℕ) → Allow recorded.new.readings file
        → Allow recorded.old.readings file }
    ensures chosen { IfOk result (λ chosen. (file : List ℕ) (c : Connection)
        → Allow recorded.new.readings file → IsOrderedConnection c connection.now
        → IsTrue chosen ↔ IsChosen file ports.now c) }
    ensures err { IfErr result (λ error. (error ≡ errors.Memory) ⊎ (error ≡ errors.Read)) }
    ensures count { CountsReading recorded.old.failures recorded.new.failures result }
{
    if !ports.is_empty() {
        return Ok(has_port(ports, &connection.ends));
    }
    if has_port(&USUAL_PORTS, &connection.ends) {
        return Ok(true);
    }
    match connection.side(Side::Client) {
        Some(flow) => begins_with_call(alloc, recorded, &flow.stream),
        None => Ok(false),
    }
}

/// Returns whether an end has one of the ports.
fn has_port(ports: &[u16], ends: &EndPair) -> bool
    ensures { result ≡ has_port ports.now ends.now }
{
    ports.contains(&ends.lower.port) || ports.contains(&ends.higher.port)
}

/// Returns whether a stream begins with a call.
fn begins_with_call<F: FileExt>(
    alloc: Global,
    recorded: &mut Recorded<'_, F>,
    stream: &OrderedStream,
) -> Result<bool, Error>
    ensures more { (file : List ℕ) → Allow recorded.new.readings file
        → Allow recorded.old.readings file }
    ensures call { IfOk result (λ call. (file : List ℕ) (shown : Shown)
        → Allow recorded.new.readings file → IsOrderOf shown stream.now
        → IsTrue call ↔ BeginsWithCall file shown) }
    ensures err { IfErr result (λ error. (error ≡ errors.Memory) ⊎ (error ≡ errors.Read)) }
    ensures count { CountsReading recorded.old.failures recorded.new.failures result }
{
    let Some(begin) = stream.marks().begin else {
        return Ok(false);
    };
    let Some(end) = begin.position.checked_add(HEAD_SIZE as u64) else {
        return Ok(false);
    };
    if stream.gap(begin.position, end).is_some() {
        return Ok(false);
    }
    let runs = stream.between(begin.position, end, alloc)?;
    match has_call_words(recorded, &runs) {
        Ok(call) => Ok(call),
        Err(_) => Err(Error::Read),
    }
}

/// Returns whether runs are the 16 bytes with which a call begins.
fn has_call_words<F: FileExt>(
    recorded: &mut Recorded<'_, F>,
    runs: &[Run],
) -> Result<bool, DeviceFailed>
    ensures more { (file : List ℕ) → Allow recorded.new.readings file
        → Allow recorded.old.readings file }
    ensures call { IfOk result (λ call. (file : List ℕ) → Allow recorded.new.readings file
        → IsTrue call ↔ HasCallWords file runs.now) }
    ensures within { IfOk result (λ call. (file : List ℕ) → Allow recorded.new.readings file
        → length (content_of file runs.now) ≤ 16 → AreIn file runs.now) }
    ensures count { Counts recorded.old.failures recorded.new.failures result }
{
    let mut payload = recorded.payload(runs);
    // One byte more than they have, so that `fill` comes to their end.
    let mut head = [0; HEAD_SIZE + 1];
    let filled = fill(&mut payload, &mut head);
    payload.gives();
    recorded.note_payload(&payload);
    let count = filled?;
    Ok(count == HEAD_SIZE && head[8..HEAD_SIZE] == CALL_WORDS[..])
}
