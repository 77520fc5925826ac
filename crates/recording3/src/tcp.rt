//! Segments of TCP in datagrams (RFC 9293, section 3.1).

ghost use Rattle.std.specs.Prelude.{◌≡◌, ◌≤◌, ◌+◌, ◌^◌, ◌<◌, length, IfOk, IfErr};
ghost use Rattle.recording3.specs.Tcp.{IsTcp, NoTcp};

use crate::octets::{four, two};
use crate::parts::{Datagram, End, NoSegment, Segment};

/// Reads the segment that a datagram carries.
#[inline(always)]
pub fn read_tcp(frame: &[u8], datagram: &Datagram) -> Result<Segment, NoSegment>
    requires { datagram.now.begin + 20 < 2 ^ 64 }
    ensures ok { IfOk result (IsTcp frame.now datagram.now) }
    ensures err { IfErr result (NoTcp frame.now datagram.now) }
{
    let at = datagram.begin;
    let end = datagram.end;
    if end < at + 20 {
        return Err(NoSegment::BadTcp);
    }
    if frame.len() < at + 20 {
        return Err(NoSegment::Cut);
    }
    let size = frame[at + 12] / 16 * 4;
    if size < 20 || end - at < size as usize {
        return Err(NoSegment::BadTcp);
    }
    let recorded = end.min(frame.len());
    let text = at + size as usize;
    Ok(Segment {
        source: End {
            address: datagram.source,
            port: two(frame, at),
        },
        target: End {
            address: datagram.target,
            port: two(frame, at + 2),
        },
        sequence: four(frame, at + 4),
        acknowledged: four(frame, at + 8),
        flags: frame[at + 13],
        begin: text.min(recorded),
        end: recorded,
        missing: end - text.max(recorded),
    })
}
