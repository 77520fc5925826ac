//! Segments of TCP in frames.

ghost use Rattle.std.specs.Prelude.{◌≡◌, ◌↔◌, ◌≤◌, length, IfOk, IfErr, Ok, Err};
ghost use Rattle.recording3.specs.Segments.{IsSegment, ReachesNone, LacksSegment, ReachesSegment};
ghost use Rattle.recording3.specs.declared.parts.Segment.{Segment};
ghost use Rattle.recording3.specs.declared.parts.NoSegment.{NoSegment};

use crate::ip::read_ip;
use crate::link::find_start;
use crate::parts::{NoSegment, Segment, Start};
use crate::tcp::read_tcp;
use crate::tunnels::find_inner;

/// Reads the segment of TCP that a frame carries, also in up to four tunnels, one in the other
/// (RFC 9293, section 3.1). The frame has a link type, and had `wire` octets, of which fewer may be
/// recorded. A fragment of IP is not put together.
pub fn read_segment(link: u32, frame: &[u8], wire: u32) -> Result<Segment, NoSegment>
    ensures ok { IfOk result (IsSegment link frame.now wire) }
    ensures err { IfErr result (LacksSegment link frame.now wire) }

    // It is returned exactly if the frame carries it, and a reason exactly if it is the first.
    ensures exactly { (s : Segment) → (result ≡ Ok s) ↔ IsSegment link frame.now wire s }
    ensures why { (reason : NoSegment) → (result ≡ Err reason)
        ↔ LacksSegment link frame.now wire reason }
{
    layers(link, frame, wire)
}

/// Reads one layer after the other.
#[inline(always)]
fn layers(link: u32, frame: &[u8], wire: u32) -> Result<Segment, NoSegment>
    ensures ok { IfOk result (IsSegment link frame.now wire) }
    ensures err { IfErr result (LacksSegment link frame.now wire) }
{
    let start = find_start(link, frame)?;
    reach(frame, start, wire as usize, 4)
}

/// Reads on from the start of a datagram, through so many tunnels at most.
fn reach(frame: &[u8], start: Start, wire: usize, tunnels: usize) -> Result<Segment, NoSegment>
    requires { start.at ≤ length frame.now }
    ensures ok { IfOk result (ReachesSegment tunnels frame.now start wire) }
    ensures err { IfErr result (ReachesNone tunnels frame.now start wire) }
{
    let datagram = match read_ip(frame, start, wire) {
        Ok(datagram) => datagram,
        Err(why) => return Err(why),
    };
    if datagram.protocol == 6 {
        return read_tcp(frame, &datagram);
    }
    if tunnels == 0 {
        return Err(NoSegment::NotTcp);
    }
    let inner = match find_inner(frame, &datagram) {
        Ok(inner) => inner,
        Err(why) => return Err(why),
    };
    reach(frame, inner, datagram.end, tunnels - 1)
}
