//! Tunnels: datagrams of IP that carry others.

ghost use Rattle.std.specs.Prelude.{◌≡◌, ◌≤◌, ◌<◌, ◌+◌, ◌^◌, length, IfOk, IfErr, MatchOption};
ghost use Rattle.recording3.specs.Tunnels.{IsGre, IsInner, IsTunnel, IsUdpTunnel, NoGre, NoInner, NoTunnel, NoUdpTunnel};
ghost use Rattle.recording3.specs.declared.link.Placed.{Placed};

use crate::link::{Placed, leads, typed};
use crate::octets::two;
use crate::parts::{Datagram, NoSegment, Start};

/// Finds where a datagram of IP begins in one that is a tunnel.
pub fn find_inner(frame: &[u8], datagram: &Datagram) -> Result<Start, NoSegment>
    requires { datagram.now.begin < length frame.now + 4096 }
    ensures ok { IfOk result (IsInner frame.now datagram.now) }
    ensures within { IfOk result (λ start. start.at ≤ length frame.now) }
    ensures err { IfErr result (NoInner frame.now datagram.now) }
{
    let placed = match in_tunnel(frame, datagram) {
        Ok(placed) => placed,
        Err(why) => return Err(why),
    };
    // Ethernet in a tunnel
    if placed.kind == 0x6558 {
        return typed(frame, placed.at + 12, placed.at + 14);
    }
    if frame.len() < placed.at {
        return Err(NoSegment::Cut);
    }
    leads(frame, placed)
}

/// Returns the Ethernet type of what a tunnel carries, and where that begins.
fn in_tunnel(frame: &[u8], datagram: &Datagram) -> Result<Placed, NoSegment>
    requires { datagram.now.begin < length frame.now + 4096 }
    ensures ok { IfOk result (IsTunnel frame.now datagram.now) }
    ensures near { IfOk result (λ p. p.at < length frame.now + 8192) }
    ensures err { IfErr result (NoTunnel frame.now datagram.now) }
{
    let at = datagram.begin;
    match datagram.protocol {
        4 => Ok(Placed { kind: 0x0800, at }),
        41 => Ok(Placed { kind: 0x86dd, at }),
        47 => in_gre(frame, at),
        17 => in_udp(frame, at),
        _ => Err(NoSegment::NotTcp),
    }
}

/// Returns these of a tunnel of GRE without routing (RFC 2784, section 2).
fn in_gre(frame: &[u8], at: usize) -> Result<Placed, NoSegment>
    requires { at < length frame.now + 4096 }
    ensures ok { IfOk result (IsGre frame.now at) }
    ensures near { IfOk result (λ p. p.at < length frame.now + 8192) }
    ensures err { IfErr result (NoGre frame.now at) }
{
    if frame.len() < at + 4 {
        return Err(NoSegment::Cut);
    }
    let flags = two(frame, at);
    if flags / 16384 % 2 != 0 || flags % 8 != 0 {
        return Err(NoSegment::NotTcp);
    }
    let fields = flags / 32768 % 2 + flags / 8192 % 2 + flags / 4096 % 2;
    Ok(Placed {
        kind: two(frame, at + 2),
        at: at + 4 + 4 * fields as usize,
    })
}

/// Returns these of a tunnel by UDP: VXLAN (RFC 7348, section 5) or Geneve (RFC 8926, section 3.4).
fn in_udp(frame: &[u8], at: usize) -> Result<Placed, NoSegment>
    requires { at < length frame.now + 4096 }
    ensures ok { IfOk result (IsUdpTunnel frame.now at) }
    ensures near { IfOk result (λ p. p.at < length frame.now + 8192) }
    ensures err { IfErr result (NoUdpTunnel frame.now at) }
{
    if frame.len() < at + 8 {
        return Err(NoSegment::Cut);
    }
    let port = two(frame, at + 2);
    if port != 4789 && port != 8472 && port != 6081 {
        return Err(NoSegment::NotTcp);
    }
    if frame.len() < at + 16 {
        return Err(NoSegment::Cut);
    }
    let flags = frame[at + 8];
    match port {
        4789 | 8472 if flags / 8 % 2 == 1 => Ok(Placed {
            kind: 0x6558,
            at: at + 16,
        }),
        6081 if flags / 64 == 0 => Ok(Placed {
            kind: two(frame, at + 10),
            at: at + 16 + 4 * (flags % 64) as usize,
        }),
        _ => Err(NoSegment::NotTcp),
    }
}
