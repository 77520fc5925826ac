//! Connections out of the frames of a recording.

ghost use Rattle.std.specs.Prelude.{◌≡◌, ◌++◌, List, [], OnOk, Err};
ghost use Rattle.connections3.specs.Connections.{ShowsPackets};
ghost use Rattle.connections3.specs.Frames.{HasNotTaken, ShowsFrames};
ghost use Rattle.connections3.specs.declared.packets.Packet.{Packet};
ghost use Rattle.connections3.specs.machinery.Taking.{IsInRange, packets_in};

use crate::connections::Connections;
use crate::packets::Packet;
use recording3::{FrameHead, FrameTaker, NoSegment, Segment, Tally, read_segment};
use std::alloc::Global;
use streams3::Refused;
use thiserror::Error;

/// Takes the frames of a recording: their packets into connections, and counts what they carry.
#[derive(Drop)]
pub struct PacketTaker {
    /// The connections of all packets.
    pub connections: Connections,
    /// How many frames had a segment of TCP, and why the others had none.
    pub tally: Tally,
}

/// Why a frame was not taken.
#[derive(Clone, Copy, Debug, PartialEq, Eq, Error)]
pub enum NotTaken {
    /// An allocation failed.
    #[error("out of memory")]
    Memory,
    /// A stream is beyond the limits of `streams3`.
    #[error("a stream is too long")]
    Long,
    /// The frame's segment has no packet, or 2^64 - 1 frames were counted.
    #[error("too many frames")]
    TooMany,
}

impl PacketTaker {
    /// Returns a taker that took nothing. It allocates nothing yet.
    pub fn new(alloc: Global) -> PacketTaker
        ensures { ShowsFrames result [] }
    {
        PacketTaker {
            connections: Connections::new(alloc),
            tally: Tally::new(),
        }
    }
}

impl FrameTaker for PacketTaker {
    type Error = NotTaken;

    ghost took = { ShowsFrames };

    ghost failed = { HasNotTaken };

    fn take(&mut self, head: &FrameHead, octets: &[u8]) -> Result<(), NotTaken> {
        let outcome = read_segment(head.link, octets, head.wire);
        let mut tally = self.tally;
        if tally.count(outcome).is_err() {
            return Err(NotTaken::TooMany);
        }
        if let Err(error) = take_outcome(&mut self.connections, head, outcome) {
            return Err(error);
        }
        self.tally = tally;
        Ok(())
    }
}

/// Takes the packet of a frame, if it has one.
fn take_outcome(
    connections: &mut Connections,
    head: &FrameHead,
    outcome: Result<Segment, NoSegment>,
) -> Result<(), NotTaken>
    ensures ok { OnOk result ((packets : List Packet) → ShowsPackets connections.old packets
        → ShowsPackets connections.new (packets ++ packets_in head.now outcome)) }
    ensures has { OnOk result (IsInRange head.now outcome) }
    ensures memory { result ≡ Err NotTaken.Memory → connections.new ≡ connections.old }
    ensures many { result ≡ Err NotTaken.TooMany
        → (connections.new ≡ connections.old) × (IsInRange head.now outcome → ⊥) }
{
    let Ok(segment) = outcome else {
        return Ok(());
    };
    let Some(packet) = Packet::of(head, &segment) else {
        return Err(NotTaken::TooMany);
    };
    match connections.take(&packet) {
        Ok(()) => Ok(()),
        Err(Refused::Memory) => Err(NotTaken::Memory),
        Err(Refused::Long) => Err(NotTaken::Long),
    }
}
