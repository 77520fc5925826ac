//! Packets of TCP, out of the segments that frames carry.

ghost use Rattle.std.specs.Prelude.{◌≡◌, ◌<◌, SomeIff};
ghost use Rattle.connections3.specs.Packets.{HasPacket, acknowledgment_of, cut_of, has_flag, packet_of};

use crate::ends::{EndPair, OneEnd, ends_between};
use recording3::{FrameHead, Segment};
use streams3::{Acknowledgment, StreamSegment};

/// What is taken of a segment of TCP (RFC 9293, section 3.1).
#[derive(Clone, Copy, Debug, PartialEq, Eq)]
pub struct Packet {
    /// Both ends.
    pub ends: EndPair,
    /// Which of them sent it.
    pub from: OneEnd,
    /// The segment with what is recorded of its payload. FIN counts only if that is all. With RST it
    /// has none: its bytes are not of the stream (RFC 1122, section 4.2.2.12).
    pub segment: StreamSegment,
    /// The number behind the payload, if that is cut: the bytes before it were sent.
    pub cut: Option<Acknowledgment>,
    /// What it acknowledges, if ACK is set.
    pub acknowledgment: Option<Acknowledgment>,
}

impl Packet {
    /// Returns the packet of a segment that a frame carries. There is none if the frame's number or
    /// the payload's size is above 2^32 - 1, or the payload's offset above 2^64 - 1.
    pub fn of(head: &FrameHead, segment: &Segment) -> Option<Packet>
        ensures { SomeIff result (HasPacket head.now segment.now)
            (packet_of head.now segment.now) }
    {
        let frame = u32::try_from(head.number).ok()?;
        let size = u32::try_from(segment.end.saturating_sub(segment.begin)).ok()?;
        let at = head.at.checked_add(segment.begin as u64)?;
        let (ends, from) = ends_between(segment.source, segment.target);
        let rst = has_flag(segment.flags, RST);
        let sent = StreamSegment {
            sequence: segment.sequence,
            size: if rst { 0 } else { size },
            at,
            frame,
            syn: has_flag(segment.flags, SYN),
            fin: has_flag(segment.flags, FIN) && segment.missing == 0,
            rst,
        };
        Some(Packet {
            ends,
            from,
            segment: sent,
            cut: cut_of(&sent, segment.missing),
            acknowledgment: acknowledgment_of(segment, frame),
        })
    }
}

// Control bits.
const FIN: u8 = 1;

const SYN: u8 = 2;

const RST: u8 = 4;

const ACK: u8 = 16;

/// Returns whether a control bit is set.
#[inline(always)]
fn has_flag(flags: u8, bit: u8) -> bool
    requires { 0 < bit }
    ensures { result ≡ has_flag flags bit }
{
    flags / bit % 2 == 1
}

/// Returns the number behind a payload that is cut.
#[inline(always)]
fn cut_of(segment: &StreamSegment, missing: usize) -> Option<Acknowledgment>
    ensures { result ≡ cut_of segment.now missing }
{
    if missing == 0 || segment.rst {
        return None;
    }
    let missing = (missing % 0x1_0000_0000) as u32;
    Some(Acknowledgment {
        number: segment
            .first_number()
            .wrapping_add(segment.size)
            .wrapping_add(missing),
        frame: segment.frame,
    })
}

/// Returns what a segment acknowledges.
#[inline(always)]
fn acknowledgment_of(segment: &Segment, frame: u32) -> Option<Acknowledgment>
    ensures { result ≡ acknowledgment_of segment.now frame }
{
    if !has_flag(segment.flags, ACK) {
        return None;
    }
    Some(Acknowledgment {
        number: segment.acknowledged,
        frame,
    })
}
