//! A connection, and what each end of it sent.

ghost use Rattle.std.specs.Prelude.{◌≡◌, ◌≢◌, ◌⊎◌, List, [], ◌∷◌, ◌++◌, None, Err, IfOk, OnOk};
ghost use Rattle.streams3.specs.Events.{Sent};
ghost use Rattle.streams3.specs.Streams.{IsLong};
ghost use Rattle.connections3.specs.Connections.{IsAtLimit, IsFlowAtLimit, ShowsFlow, ShowsGroup, client_from, shown_by};
ghost use Rattle.connections3.specs.Ends.{other_end};
ghost use Rattle.connections3.specs.machinery.Table.{AddsEvents};
ghost use Rattle.connections3.specs.declared.ends.EndPair.{EndPair};
ghost use Rattle.connections3.specs.declared.ends.OneEnd.TheVariants.{Higher, Lower};
ghost use Rattle.connections3.specs.declared.packets.Packet.{Packet};

use crate::ends::{EndPair, OneEnd};
use crate::numbers::{UsedNumbers, with_packet};
use crate::packets::Packet;
use std::alloc::Global;
use streams3::{Acknowledgment, Refused, Stream};

/// What one end of a connection sent.
#[derive(Drop)]
pub struct Flow {
    /// Its stream, which counts from the first of its numbers.
    pub stream: Stream,
    /// The numbers that it used.
    pub numbers: UsedNumbers,
}

/// A connection of TCP.
#[derive(Drop)]
pub struct Connection {
    /// Its ends.
    pub ends: EndPair,
    /// Which end opened it, if a SYN was recorded.
    pub client: Option<OneEnd>,
    /// What the lower end sent, if something was recorded.
    pub lower: Option<Flow>,
    /// What the higher end sent, if something was recorded.
    pub higher: Option<Flow>,
}

impl Connection {
    /// Returns a connection of one packet.
    pub(crate) fn new(alloc: Global, packet: &Packet) -> Result<Connection, Refused>
        ensures ok { IfOk result (λ c. ShowsGroup c (record {
          ends = packet.now.ends;
          packets = packet.now ∷ [];
        })) }
        ensures long { result ≡ Err Refused.Long → IsFlowAtLimit None packet.now }
    {
        let mut connection = Connection {
            ends: packet.ends,
            client: None,
            lower: None,
            higher: None,
        };
        connection.take(alloc, packet)?;
        Ok(connection)
    }

    /// Takes a packet of this connection.
    pub(crate) fn take(&mut self, alloc: Global, packet: &Packet) -> Result<(), Refused>
        ensures ok { OnOk result ((ends : EndPair) (packets : List Packet)
            → ShowsGroup self.old (record { ends = ends; packets = packets })
            → ShowsGroup self.new (record {
              ends = ends;
              packets = packets ++ packet.now ∷ [];
            })) }
        ensures ends { self.new.ends ≡ self.old.ends }
        ensures memory { result ≡ Err Refused.Memory → self.new ≡ self.old }
        ensures long { result ≡ Err Refused.Long
            → IsFlowAtLimit self.old.lower packet.now ⊎ IsFlowAtLimit self.old.higher packet.now }
    {
        take_flows(alloc, &mut self.lower, &mut self.higher, packet)?;
        self.client = client_by(self.client, packet);
        Ok(())
    }
}

/// Returns which end is the client with one more packet.
fn client_by(found: Option<OneEnd>, packet: &Packet) -> Option<OneEnd>
    ensures { result ≡ client_from found (packet.now ∷ []) }
{
    if found.is_some() || !packet.segment.syn {
        return found;
    }
    match packet.acknowledgment {
        None => Some(packet.from),
        Some(_) => Some(packet.from.other()),
    }
}

/// Takes a packet of either end.
fn take_flows(
    alloc: Global,
    lower: &mut Option<Flow>,
    higher: &mut Option<Flow>,
    packet: &Packet,
) -> Result<(), Refused>
    ensures lower { OnOk result ((packets : List Packet)
        → ShowsFlow lower.old Lower packets
        → ShowsFlow lower.new Lower (packets ++ packet.now ∷ [])) }
    ensures higher { OnOk result ((packets : List Packet)
        → ShowsFlow higher.old Higher packets
        → ShowsFlow higher.new Higher (packets ++ packet.now ∷ [])) }
    ensures memory { result ≡ Err Refused.Memory
        → (lower.new ≡ lower.old) × (higher.new ≡ higher.old) }
    ensures long { result ≡ Err Refused.Long
        → IsFlowAtLimit lower.old packet.now ⊎ IsFlowAtLimit higher.old packet.now }
{
    match packet.from {
        OneEnd::Lower => take_both(alloc, lower, higher, packet),
        OneEnd::Higher => take_both(alloc, higher, lower, packet),
    }
}

/// Takes a packet of one end, which acknowledges what the other sent.
fn take_both(
    alloc: Global,
    own: &mut Option<Flow>,
    other: &mut Option<Flow>,
    packet: &Packet,
) -> Result<(), Refused>
    ensures own { OnOk result ((packets : List Packet)
        → ShowsFlow own.old packet.now.from packets
        → ShowsFlow own.new packet.now.from (packets ++ packet.now ∷ [])) }
    ensures other { OnOk result ((packets : List Packet)
        → ShowsFlow other.old (other_end packet.now.from) packets
        → ShowsFlow other.new (other_end packet.now.from) (packets ++ packet.now ∷ [])) }
    ensures memory { result ≡ Err Refused.Memory → (own.new ≡ own.old) × (other.new ≡ other.old) }
    ensures long { result ≡ Err Refused.Long
        → IsFlowAtLimit own.old packet.now ⊎ IsFlowAtLimit other.old packet.now }
{
    take_sent(alloc, own, packet)?;
    take_answer(other, packet)
}

/// Takes what an end sent.
fn take_sent(alloc: Global, flow: &mut Option<Flow>, packet: &Packet) -> Result<(), Refused>
    ensures ok { OnOk result ((packets : List Packet)
        → ShowsFlow flow.old packet.now.from packets
        → ShowsFlow flow.new packet.now.from (packets ++ packet.now ∷ [])) }
    ensures memory { result ≡ Err Refused.Memory → flow.new ≡ flow.old }
    ensures long { result ≡ Err Refused.Long → IsFlowAtLimit flow.old packet.now }
{
    match flow {
        Some(flow) => {
            take_segment(&mut flow.stream, packet)?;
            flow.numbers = with_packet(Some(flow.numbers), packet);
        }
        None => {
            let numbers = with_packet(None, packet);
            let mut stream = Stream::new(alloc, numbers.first);
            take_segment(&mut stream, packet)?;
            *flow = Some(Flow { stream, numbers });
        }
    }
    Ok(())
}

/// Takes what the other end acknowledged, if the stream has begun.
fn take_answer(flow: &mut Option<Flow>, packet: &Packet) -> Result<(), Refused>
    ensures ok { OnOk result ((packets : List Packet)
        → ShowsFlow flow.old (other_end packet.now.from) packets
        → ShowsFlow flow.new (other_end packet.now.from) (packets ++ packet.now ∷ [])) }
    ensures memory { result ≢ Err Refused.Memory }
    ensures long { result ≡ Err Refused.Long → IsFlowAtLimit flow.old packet.now }
{
    match flow {
        Some(flow) => take_mark(&mut flow.stream, packet.acknowledgment),
        None => Ok(()),
    }
}

/// Takes a segment, and up to where it was sent if it is cut.
fn take_segment(stream: &mut Stream, packet: &Packet) -> Result<(), Refused>
    ensures ok { OnOk result (AddsEvents stream.old stream.new
        (Sent packet.now.segment ∷ shown_by packet.now.cut)) }
    ensures memory { result ≡ Err Refused.Memory → stream.new ≡ stream.old }
    ensures long { result ≡ Err Refused.Long → IsAtLimit stream.old packet.now }
{
    stream.take(&packet.segment)?;
    take_mark(stream, packet.cut)
}

/// Takes up to where something shows that bytes were sent.
fn take_mark(stream: &mut Stream, mark: Option<Acknowledgment>) -> Result<(), Refused>
    ensures ok { OnOk result (AddsEvents stream.old stream.new (shown_by mark)) }
    ensures memory { result ≢ Err Refused.Memory }
    ensures long { result ≡ Err Refused.Long → IsLong stream.old 0 }
{
    match mark {
        Some(mark) => stream.acknowledge(mark),
        None => Ok(()),
    }
}
