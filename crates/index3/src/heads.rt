//! Heads of an index: its own, and those of connections.

ghost use Rattle.std.specs.Prelude.{◌≡◌, ◌++◌, Some, OnOk};
ghost use Rattle.index3.specs.Indexes.{address_bytes, client_code, connection_head, end_bytes, ending_code, flow_head, index_head, mark_bytes, marks_bytes};

use crate::numbers::{push_long, push_short};
use connections3::OneEnd;
use conversion3::{OrderedConnection, OrderedFlow};
use recording3::{Address, End, Ending, RecordingEnd};
use std::alloc::AllocError;
use streams3::{Mark, Marks};

const MAGIC: [u8; 8] = *b"NFS3IDX1";

/// How many octets the head of what an end sent has.
const FLOW_HEAD: usize = 112;

/// Appends the head of an index with so many frames and connections.
pub(crate) fn push_index_head(
    out: &mut Vec<u8>,
    end: &RecordingEnd,
    frames: usize,
    connections: usize,
) -> Result<(), AllocError>
    ensures { OnOk result
        (out.new.items ≡ out.old.items ++ index_head end.now frames connections) }
{
    out.extend_from_slice(&MAGIC)?;
    push_long(out, frames as u64)?;
    push_long(out, connections as u64)?;
    push_long(out, end.offset)?;
    push_long(out, ending_code(end.why))
}

/// Returns the number for why no more was read.
fn ending_code(why: Ending) -> u64
    ensures { result ≡ ending_code why }
{
    match why {
        Ending::End => 0,
        Ending::Cut => 1,
        Ending::NotRecording => 2,
        Ending::TooLong => 3,
        Ending::BadOrder => 4,
        Ending::BadSize => 5,
        Ending::Unequal => 6,
        Ending::TooShort => 7,
        Ending::NoInterface => 8,
        Ending::TooMany => 9,
    }
}

/// Appends the head of a connection.
pub(crate) fn push_connection_head(
    out: &mut Vec<u8>,
    connection: &OrderedConnection,
) -> Result<(), AllocError>
    ensures { OnOk result (out.new.items ≡ out.old.items ++ connection_head connection.now) }
{
    push_end(out, connection.ends.lower)?;
    push_end(out, connection.ends.higher)?;
    push_long(out, client_code(connection.client))?;
    push_flow_head(out, &connection.lower)?;
    push_flow_head(out, &connection.higher)
}

/// Appends an end of a connection.
fn push_end(out: &mut Vec<u8>, end: End) -> Result<(), AllocError>
    ensures { OnOk result (out.new.items ≡ out.old.items ++ end_bytes end) }
{
    push_address(out, end.address)?;
    push_short(out, end.port as u32)
}

fn push_address(out: &mut Vec<u8>, address: Address) -> Result<(), AllocError>
    ensures { OnOk result (out.new.items ≡ out.old.items ++ address_bytes address) }
{
    match address {
        Address::V4(octets) => {
            out.extend_from_slice(&octets)?;
            out.extend_from_slice(&[0; 12])?;
            push_short(out, 4)
        }
        Address::V6(octets) => {
            out.extend_from_slice(&octets)?;
            push_short(out, 6)
        }
    }
}

/// Returns the number for which end is the client.
fn client_code(client: Option<OneEnd>) -> u64
    ensures { result ≡ client_code client }
{
    match client {
        None => 0,
        Some(OneEnd::Lower) => 1,
        Some(OneEnd::Higher) => 2,
    }
}

/// Appends the head of what an end sent, if it sent something.
fn push_flow_head(out: &mut Vec<u8>, flow: &Option<OrderedFlow>) -> Result<(), AllocError>
    ensures { OnOk result (out.new.items ≡ out.old.items ++ flow_head flow.now) }
{
    match flow {
        Some(flow) => push_sent_head(out, flow),
        None => out.extend_from_slice(&[0; FLOW_HEAD]),
    }
}

/// Appends the head of what an end sent.
fn push_sent_head(out: &mut Vec<u8>, flow: &OrderedFlow) -> Result<(), AllocError>
    ensures { OnOk result (out.new.items ≡ out.old.items ++ flow_head (Some flow.now)) }
{
    push_long(out, 1)?;
    push_long(out, flow.numbers.first as u64)?;
    push_marks(out, flow.stream.marks())?;
    push_long(out, flow.stream.pairs().len() as u64)?;
    push_long(out, flow.stream.runs().len() as u64)
}

/// Appends the marks of a stream.
fn push_marks(out: &mut Vec<u8>, marks: Marks) -> Result<(), AllocError>
    ensures { OnOk result (out.new.items ≡ out.old.items ++ marks_bytes marks) }
{
    push_mark(out, marks.begin)?;
    push_mark(out, marks.end)?;
    push_mark(out, marks.acknowledged)?;
    push_mark(out, marks.reset)?;
    push_long(out, marks.strays)?;
    push_long(out, marks.stray.unwrap_or(0) as u64)
}

/// Appends a mark.
fn push_mark(out: &mut Vec<u8>, mark: Option<Mark>) -> Result<(), AllocError>
    ensures { OnOk result (out.new.items ≡ out.old.items ++ mark_bytes mark) }
{
    match mark {
        Some(mark) => {
            push_long(out, mark.position)?;
            push_long(out, mark.frame as u64)
        }
        None => {
            push_long(out, 0)?;
            push_long(out, 0)
        }
    }
}
