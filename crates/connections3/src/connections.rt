//! All connections of a recording.

ghost use Rattle.std.specs.Prelude.{◌≡◌, ◌<◌, List, [], ◌∷◌, ◌++◌, None, Some, Err, IfSome, OnOk, OnErr, length, unwrap_or};
ghost use Rattle.connections3.specs.Connections.{FindsRecent, IsFlowAtLimit, IsOneAtLimit, ShowsPackets, all_ends, flow_of};
ghost use Rattle.connections3.specs.Groups.{chosen, recent_from, with_newer};
ghost use Rattle.connections3.specs.machinery.Table.{OpensConnection, flow_numbers_at, numbers_in};
ghost use Rattle.connections3.specs.declared.packets.Packet.{Packet};

use crate::connection::{Connection, Flow};
use crate::ends::{EndPair, OneEnd};
use crate::numbers::{UsedNumbers, begins_another, is_nearer};
use crate::packets::Packet;
use std::alloc::Global;
use std::collections::BTreeMap;
use std::marker::Model;
use streams3::Refused;

/// The two newest connections between two ends, by their indices.
#[derive(Clone, Copy, Debug, PartialEq, Eq, Drop)]
pub struct Recent {
    /// The newest.
    pub newest: usize,
    /// The one before it; if there is none, the newest again.
    pub older: usize,
}

/// All connections of a recording, in the order of their first packets.
#[derive(Drop)]
pub struct Connections {
    alloc: Global,
    recent: BTreeMap<EndPair, Recent>,
    connections: Vec<Connection>,
}

impl Model for Connections {
    ghost use Rattle.std.specs.Prelude.{List};
    ghost use Rattle.connections3.specs.declared.connection.Connection.{Connection};

    ghost Value = { List Connection };

    ghost use Rattle.connections3.specs.Connections.{IsIndexed, connections_of};

    ghost view = { connections_of };

    ghost invariant = { IsIndexed };
}

impl Connections {
    /// Returns no connections. It allocates nothing yet.
    pub fn new(alloc: Global) -> Connections
        ensures shows { ShowsPackets result [] }
    {
        Connections {
            alloc,
            recent: BTreeMap::new(alloc),
            connections: Vec::new(alloc),
        }
    }

    /// Returns the connections.
    pub fn as_slice(&self) -> &[Connection]
        ensures { result.now ≡ self.now }
    {
        &self.connections
    }

    /// Returns the connections, so that their streams can be put in order.
    pub fn into_vec(self) -> Vec<Connection>
        ensures { result.items ≡ self }
    {
        self.connections
    }

    /// Takes a packet.
    ///
    /// # Errors
    ///
    /// - `Memory` if an allocation failed. The connections stay as they are then.
    /// - `Long` if a stream of the packet's connection, or the payload's offset, is beyond the
    ///   limits of `streams3`. Nothing is promised of the connections then.
    pub fn take(&mut self, packet: &Packet) -> Result<(), Refused>
        ensures ok { OnOk result ((packets : List Packet) → ShowsPackets self.old packets
            → ShowsPackets self.new (packets ++ packet.now ∷ [])) }
        ensures memory { result ≡ Err Refused.Memory → self.new ≡ self.old }
        ensures long { result ≡ Err Refused.Long → IsOneAtLimit self.old packet.now }
    {
        match find(&self.recent, &self.connections, packet) {
            Some(index) => self.connections[index].take(self.alloc, packet),
            None => open(self.alloc, &mut self.recent, &mut self.connections, packet),
        }
    }
}

/// Opens a connection with its first packet.
fn open(
    alloc: Global,
    recent: &mut BTreeMap<EndPair, Recent>,
    connections: &mut Vec<Connection>,
    packet: &Packet,
) -> Result<(), Refused>
    requires table { FindsRecent recent.old (all_ends connections.old.items) }
    ensures table { FindsRecent recent.new (all_ends connections.new.items) }
    ensures opened { OnOk result (OpensConnection connections.old.items connections.new.items
        packet.now) }
    ensures err { OnErr result (connections.new.items ≡ connections.old.items) }
    ensures long { result ≡ Err Refused.Long → IsFlowAtLimit None packet.now }
{
    let connection = Connection::new(alloc, packet)?;
    let newest = connections.len();
    let two = with_newer(recent.get(&packet.ends).copied(), newest);
    if connections.push(connection).is_err() {
        return Err(Refused::Memory);
    }
    if recent.insert(packet.ends, two).is_err() {
        connections.truncate(newest);
        return Err(Refused::Memory);
    }
    Ok(())
}

/// Returns the two newest connections with a newer one.
fn with_newer(found: Option<Recent>, newest: usize) -> Recent
    ensures { result ≡ with_newer found newest }
{
    let older = match found {
        Some(recent) => recent.newest,
        None => newest,
    };
    Recent { newest, older }
}

/// Returns the index of a packet's connection, unless it begins one.
fn find(
    recent: &BTreeMap<EndPair, Recent>,
    connections: &[Connection],
    packet: &Packet,
) -> Option<usize>
    requires table { FindsRecent recent.now (all_ends connections.now) }
    ensures within { IfSome result (λ index. index < length connections.now) }
    ensures chosen { unwrap_or result (length connections.now)
        ≡ chosen (recent_from None 0 (all_ends connections.now) packet.now.ends)
        (flow_numbers_at connections.now) (length connections.now) packet.now }
{
    match recent.get(&packet.ends) {
        Some(recent) => choose(*recent, connections, packet),
        None => None,
    }
}

/// Returns which of two connections is a packet's, unless it begins another.
fn choose(recent: Recent, connections: &[Connection], packet: &Packet) -> Option<usize>
    requires newest { recent.newest < length connections.now }
    requires older { recent.older < length connections.now }
    ensures within { IfSome result (λ index. index < length connections.now) }
    ensures chosen { unwrap_or result (length connections.now) ≡ chosen (Some recent)
        (flow_numbers_at connections.now) (length connections.now) packet.now }
{
    let newer = numbers_at(connections, packet.from, recent.newest);
    if begins_another(newer, packet) {
        return None;
    }
    if packet.segment.syn {
        return Some(recent.newest);
    }
    let older = numbers_at(connections, packet.from, recent.older);
    if is_nearer(older, newer, packet.segment.first_number()) {
        Some(recent.older)
    } else {
        Some(recent.newest)
    }
}

/// Returns the numbers that an end used in the connection at an index.
fn numbers_at(connections: &[Connection], end: OneEnd, index: usize) -> Option<UsedNumbers>
    requires { index < length connections.now }
    ensures { result ≡ flow_numbers_at connections.now end index }
{
    numbers_in(&connections[index], end)
}

/// Returns the numbers that an end of a connection used.
fn numbers_in(connection: &Connection, end: OneEnd) -> Option<UsedNumbers>
    ensures { result ≡ numbers_in (flow_of connection.now end) }
{
    let flow: &Option<Flow> = match end {
        OneEnd::Lower => &connection.lower,
        OneEnd::Higher => &connection.higher,
    };
    match flow {
        Some(flow) => Some(flow.numbers),
        None => None,
    }
}
