//! Connections whose streams are in order.

ghost use Rattle.std.specs.Prelude.{IfOk};
ghost use Rattle.std.specs.Option.{option_copied};
ghost use Rattle.connections3.specs.declared.connection.Connection.{Connection};
ghost use Rattle.conversion3.specs.OrderedConnections.{AreOrdered, IsOrderedConnection, IsOrderedFlow};
ghost use Rattle.conversion3.specs.Whole.{side_flow};

use capture3::Side;
use connections3::{Connection, EndPair, Flow, OneEnd, UsedNumbers};
use std::alloc::{AllocError, Global};
use streams3::OrderedStream;

/// What one end of a connection sent, in order.
#[derive(Drop)]
pub struct OrderedFlow {
    /// Its stream, which counts from the first of its numbers.
    pub stream: OrderedStream,
    /// The numbers that it used.
    pub numbers: UsedNumbers,
}

/// A connection of TCP whose streams are in order.
#[derive(Drop)]
pub struct OrderedConnection {
    /// Its ends.
    pub ends: EndPair,
    /// Which end opened it, if a SYN was recorded.
    pub client: Option<OneEnd>,
    /// What the lower end sent, if something was recorded.
    pub lower: Option<OrderedFlow>,
    /// What the higher end sent, if something was recorded.
    pub higher: Option<OrderedFlow>,
}

impl OrderedConnection {
    /// Returns what the client sent, or the server. It is nothing if nothing was recorded, or if it
    /// is not known which end is the client.
    pub fn side(&self, side: Side) -> Option<&OrderedFlow>
        ensures { (connection : Connection) → IsOrderedConnection connection self.now
            → IsOrderedFlow (side_flow connection side) (option_copied result) }
    {
        let end = match side {
            Side::Client => self.client?,
            Side::Server => self.client?.other(),
        };
        match end {
            OneEnd::Lower => self.lower.as_ref(),
            OneEnd::Higher => self.higher.as_ref(),
        }
    }
}

/// Puts the streams of all connections in order.
///
/// # Errors
///
/// `AllocError` if an allocation failed.
pub fn order_all(
    alloc: Global,
    connections: Vec<Connection>,
) -> Result<Vec<OrderedConnection>, AllocError>
    ensures { IfOk result (λ ordered. AreOrdered connections.items ordered.items) }
{
    let mut ordered = Vec::new(alloc);
    for connection in connections {
        ordered.push(order(alloc, connection)?)?;
    }
    Ok(ordered)
}

/// Puts the streams of a connection in order.
fn order(alloc: Global, connection: Connection) -> Result<OrderedConnection, AllocError>
    ensures { IfOk result (IsOrderedConnection connection) }
{
    Ok(OrderedConnection {
        ends: connection.ends,
        client: connection.client,
        lower: order_flow(alloc, connection.lower)?,
        higher: order_flow(alloc, connection.higher)?,
    })
}

/// Puts what an end sent in order.
fn order_flow(alloc: Global, flow: Option<Flow>) -> Result<Option<OrderedFlow>, AllocError>
    ensures { IfOk result (IsOrderedFlow flow) }
{
    match flow {
        Some(Flow { stream, numbers }) => {
            let stream = OrderedStream::new(stream, alloc)?;
            Ok(Some(OrderedFlow { stream, numbers }))
        }
        None => Ok(None),
    }
}
