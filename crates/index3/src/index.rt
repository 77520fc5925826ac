//! An index that is written.

ghost use Rattle.std.specs.Prelude.{IfErr, OnErr, OnOk, length};
ghost use Rattle.std.specs.Io.KnownBytes.{Appends};
ghost use Rattle.std.specs.List.{flat_map};
ghost use Rattle.canon3.specs.SinkWrites.{AppendsFront};
ghost use Rattle.canon3.specs.WriteErrors.{CountsWriting, IsOfWriting};
ghost use Rattle.index3.specs.Indexes.{bytes_of_index, connection_bytes, connection_head, flow_rows, index_head, index_seen, stream_rows};

use crate::frames::FrameRow;
use crate::heads::{push_connection_head, push_index_head};
use crate::rows::Row;
use canon3::{Sink, write_all};
use capture3::Error;
use conversion3::{Decision, OrderedConnection, OrderedFlow};
use recording3::RecordingEnd;
use std::alloc::Global;
use streams3::OrderedStream;

/// What an index has of a recording.
#[derive(Clone, Copy)]
pub struct Indexed<'a> {
    /// How much of it was read, and why no more.
    pub end: RecordingEnd,
    /// Its frames.
    pub frames: &'a [FrameRow],
    /// Its connections.
    pub connections: &'a [OrderedConnection],
    /// What is said of each connection.
    pub decisions: &'a [Decision],
}

/// Writes an index. It keeps a row, or the head of a connection.
///
/// # Errors
///
/// - `Memory` if an allocation failed.
/// - `Write` if a write failed.
///
/// After an error a front of the index was written.
pub fn write_index<W: Sink>(alloc: Global, sink: &mut W, indexed: &Indexed<'_>) -> Result<(), Error>
    ensures ok { OnOk result
        (Appends (W.written sink.old) (W.written sink.new)
        (bytes_of_index (index_seen indexed.now))) }
    ensures err { OnErr result
        (AppendsFront (W.written sink.old) (W.written sink.new)
        (bytes_of_index (index_seen indexed.now))) }
    ensures count { CountsWriting (W.failures sink.old) (W.failures sink.new) result }
    ensures error { IfErr result IsOfWriting }
{
    let mut block = Vec::new(alloc);
    write_index_head(sink, &mut block, indexed)?;
    write_rows(sink, &mut block, indexed.frames)?;
    write_rows(sink, &mut block, indexed.decisions)?;
    write_connections(sink, &mut block, indexed.connections)
}

/// Writes the head of an index, by way of a block.
fn write_index_head<W: Sink>(
    sink: &mut W,
    block: &mut Vec<u8>,
    indexed: &Indexed<'_>,
) -> Result<(), Error>
    ensures ok { OnOk result
        (Appends (W.written sink.old) (W.written sink.new)
        (index_head indexed.now.end (length indexed.now.frames.now)
        (length indexed.now.connections.now))) }
    ensures err { OnErr result
        (AppendsFront (W.written sink.old) (W.written sink.new)
        (index_head indexed.now.end (length indexed.now.frames.now)
        (length indexed.now.connections.now))) }
    ensures count { CountsWriting (W.failures sink.old) (W.failures sink.new) result }
    ensures error { IfErr result IsOfWriting }
{
    block.clear();
    push_index_head(
        block,
        &indexed.end,
        indexed.frames.len(),
        indexed.connections.len(),
    )?;
    write_all(sink, block)
}

/// Writes rows, each by way of a block.
fn write_rows<W: Sink, R: Row>(sink: &mut W, block: &mut Vec<u8>, rows: &[R]) -> Result<(), Error>
    ensures ok { OnOk result
        (Appends (W.written sink.old) (W.written sink.new) (flat_map R.octets rows.now)) }
    ensures err { OnErr result
        (AppendsFront (W.written sink.old) (W.written sink.new) (flat_map R.octets rows.now)) }
    ensures count { CountsWriting (W.failures sink.old) (W.failures sink.new) result }
    ensures error { IfErr result IsOfWriting }
{
    for row in rows {
        write_row(sink, block, row)?;
    }
    Ok(())
}

/// Writes a row.
fn write_row<W: Sink, R: Row>(sink: &mut W, block: &mut Vec<u8>, row: &R) -> Result<(), Error>
    ensures ok { OnOk result
        (Appends (W.written sink.old) (W.written sink.new) (R.octets row.now)) }
    ensures err { OnErr result
        (AppendsFront (W.written sink.old) (W.written sink.new) (R.octets row.now)) }
    ensures count { CountsWriting (W.failures sink.old) (W.failures sink.new) result }
    ensures error { IfErr result IsOfWriting }
{
    block.clear();
    row.push(block)?;
    write_all(sink, block)
}

/// Writes connections.
fn write_connections<W: Sink>(
    sink: &mut W,
    block: &mut Vec<u8>,
    connections: &[OrderedConnection],
) -> Result<(), Error>
    ensures ok { OnOk result
        (Appends (W.written sink.old) (W.written sink.new)
        (flat_map connection_bytes connections.now)) }
    ensures err { OnErr result
        (AppendsFront (W.written sink.old) (W.written sink.new)
        (flat_map connection_bytes connections.now)) }
    ensures count { CountsWriting (W.failures sink.old) (W.failures sink.new) result }
    ensures error { IfErr result IsOfWriting }
{
    for connection in connections {
        write_connection(sink, block, connection)?;
    }
    Ok(())
}

/// Writes a connection.
fn write_connection<W: Sink>(
    sink: &mut W,
    block: &mut Vec<u8>,
    connection: &OrderedConnection,
) -> Result<(), Error>
    ensures ok { OnOk result
        (Appends (W.written sink.old) (W.written sink.new) (connection_bytes connection.now)) }
    ensures err { OnErr result
        (AppendsFront (W.written sink.old) (W.written sink.new) (connection_bytes connection.now)) }
    ensures count { CountsWriting (W.failures sink.old) (W.failures sink.new) result }
    ensures error { IfErr result IsOfWriting }
{
    write_head(sink, block, connection)?;
    write_flow(sink, block, &connection.lower)?;
    write_flow(sink, block, &connection.higher)
}

/// Writes the head of a connection, by way of a block.
fn write_head<W: Sink>(
    sink: &mut W,
    block: &mut Vec<u8>,
    connection: &OrderedConnection,
) -> Result<(), Error>
    ensures ok { OnOk result
        (Appends (W.written sink.old) (W.written sink.new) (connection_head connection.now)) }
    ensures err { OnErr result
        (AppendsFront (W.written sink.old) (W.written sink.new) (connection_head connection.now)) }
    ensures count { CountsWriting (W.failures sink.old) (W.failures sink.new) result }
    ensures error { IfErr result IsOfWriting }
{
    block.clear();
    push_connection_head(block, connection)?;
    write_all(sink, block)
}

/// Writes where the bytes of an end lie, if it sent something.
fn write_flow<W: Sink>(
    sink: &mut W,
    block: &mut Vec<u8>,
    flow: &Option<OrderedFlow>,
) -> Result<(), Error>
    ensures ok { OnOk result
        (Appends (W.written sink.old) (W.written sink.new) (flow_rows flow.now)) }
    ensures err { OnErr result
        (AppendsFront (W.written sink.old) (W.written sink.new) (flow_rows flow.now)) }
    ensures count { CountsWriting (W.failures sink.old) (W.failures sink.new) result }
    ensures error { IfErr result IsOfWriting }
{
    match flow {
        Some(flow) => write_stream(sink, block, &flow.stream),
        None => Ok(()),
    }
}

/// Writes where the bytes of a stream lie.
fn write_stream<W: Sink>(
    sink: &mut W,
    block: &mut Vec<u8>,
    stream: &OrderedStream,
) -> Result<(), Error>
    ensures ok { OnOk result
        (Appends (W.written sink.old) (W.written sink.new) (stream_rows stream.now)) }
    ensures err { OnErr result
        (AppendsFront (W.written sink.old) (W.written sink.new) (stream_rows stream.now)) }
    ensures count { CountsWriting (W.failures sink.old) (W.failures sink.new) result }
    ensures error { IfErr result IsOfWriting }
{
    write_rows(sink, block, stream.runs())?;
    write_rows(sink, block, stream.pairs())
}
