//! What is said of each connection.

ghost use Rattle.std.specs.Prelude.{◌≡◌, ◌⊎◌, ◌↔◌, ℕ, List, IfErr, IfOk, IsTrue, Option};
ghost use Rattle.std.specs.Option.{option_copied};
ghost use Rattle.capture3.specs.Entries.{CountsReading};
ghost use Rattle.capture3.specs.declared.fault.Error.TheVariants as errors;
ghost use Rattle.connections3.specs.declared.connection.Connection.{Connection};
ghost use Rattle.connections3.specs.declared.connection.Flow.{Flow};
ghost use Rattle.payload3.specs.Readings.{Allow};
ghost use Rattle.streams3.specs.Order.{IsOrderOf};
ghost use Rattle.streams3.specs.Streams.{Shown};
ghost use Rattle.conversion3.specs.Decisions.{AreDecidedIn, HasDecision, IsEmpty, IsEmptyFlow, IsEmptyStream};
ghost use Rattle.conversion3.specs.OrderedConnections.{IsOrderedConnection, IsOrderedFlow};
ghost use Rattle.conversion3.specs.Whole.{recorded_of};

use crate::choice::is_chosen;
use crate::judgment::{Flaw, judge};
use crate::ordered_connections::{OrderedConnection, OrderedFlow};
use capture3::Error;
use payload3::Recorded;
use std::alloc::Global;
use std::os::unix::fs::FileExt;
use streams3::OrderedStream;

/// What is said of a connection.
#[derive(Clone, Copy, Debug, PartialEq, Eq, Drop)]
pub enum Decision {
    /// It is not chosen.
    NotChosen,
    /// It is chosen. No payload was recorded or is known to have been sent, and no number is a
    /// stray.
    Empty,
    /// It is chosen, and all that its ends sent was recorded.
    Whole,
    /// It is chosen, and this is wrong first with it.
    Flawed(Flaw),
}

/// Decides on all connections, in order. A connection is chosen if an end has one of the ports. If
/// none is named, it is if an end has the port of NFS, MOUNT or the port mapper, or if its client
/// begins with a call.
///
/// # Errors
///
/// - `Memory` if an allocation failed.
/// - `Read` if a read of the file failed, or the file ends before a payload does. It counts as a
///   failure.
pub fn decide_all<F: FileExt>(
    alloc: Global,
    recorded: &mut Recorded<'_, F>,
    ports: &[u16],
    connections: &[OrderedConnection],
) -> Result<Vec<Decision>, Error>
    ensures more { (file : List ℕ) → Allow recorded.new.readings file
        → Allow recorded.old.readings file }
    ensures decided { IfOk result (λ decisions. (file : List ℕ) → Allow recorded.new.readings file
        → AreDecidedIn file ports.now connections.now decisions.items) }
    ensures err { IfErr result (λ error. (error ≡ errors.Memory) ⊎ (error ≡ errors.Read)) }
    ensures count { CountsReading recorded.old.failures recorded.new.failures result }
{
    let mut decisions = Vec::new(alloc);
    for connection in connections {
        decisions.push(decide(alloc, recorded, ports, connection)?)?;
    }
    Ok(decisions)
}

/// Decides on a connection.
fn decide<F: FileExt>(
    alloc: Global,
    recorded: &mut Recorded<'_, F>,
    ports: &[u16],
    connection: &OrderedConnection,
) -> Result<Decision, Error>
    ensures more { (file : List ℕ) → Allow recorded.new.readings file
        → Allow recorded.old.readings file }
    ensures decided { IfOk result (λ decision. (file : List ℕ) (c : Connection)
        → Allow recorded.new.readings file → IsOrderedConnection c connection.now
        → HasDecision file ports.now c decision) }
    ensures err { IfErr result (λ error. (error ≡ errors.Memory) ⊎ (error ≡ errors.Read)) }
    ensures count { CountsReading recorded.old.failures recorded.new.failures result }
{
    if !is_chosen(alloc, recorded, ports, connection)? {
        return Ok(Decision::NotChosen);
    }
    if is_empty(connection) {
        return Ok(Decision::Empty);
    }
    match judge(recorded, connection) {
        Ok(None) => Ok(Decision::Whole),
        Ok(Some(flaw)) => Ok(Decision::Flawed(flaw)),
        Err(_) => Err(Error::Read),
    }
}

/// Returns whether nothing was sent on a connection.
fn is_empty(connection: &OrderedConnection) -> bool
    ensures { (c : Connection) → IsOrderedConnection c connection.now
        → IsTrue result ↔ IsEmpty c }
{
    is_empty_flow(connection.lower.as_ref()) && is_empty_flow(connection.higher.as_ref())
}

/// Returns whether an end sent nothing.
fn is_empty_flow(flow: Option<&OrderedFlow>) -> bool
    ensures { (shown : Option Flow) → IsOrderedFlow shown (option_copied flow.entry)
        → IsTrue result ↔ IsEmptyFlow shown }
{
    match flow {
        Some(sent) => is_empty_stream(&sent.stream),
        None => true,
    }
}

/// Returns whether no byte of a stream was recorded or is known to have been sent, and no number is
/// a stray.
fn is_empty_stream(stream: &OrderedStream) -> bool
    ensures { (shown : Shown) → IsOrderOf shown stream.now
        → IsTrue result ↔ IsEmptyStream (recorded_of shown) }
{
    if !stream.runs().is_empty() || stream.missing().is_some() {
        return false;
    }
    stream.marks().strays == 0
}
