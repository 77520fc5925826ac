//! Datagrams of IP: version 4 (RFC 791, section 3.1) and version 6 (RFC 8200, section 3).

ghost use Rattle.std.specs.Prelude.{◌≡◌, ◌≤◌, ◌<◌, ◌+◌, ◌^◌, ◌/◌, ◌↔◌, IsTrue, length, IfOk, IfErr, MatchOption};
ghost use Rattle.recording3.specs.Octets.{octet};
ghost use Rattle.recording3.specs.Ip.{IsHeaders, IsIp, IsIpv4, IsIpv6, MayBe, NoHeaders, NoIp, NoIpv4, NoIpv6, datagram_end, is_extension};

use crate::octets::{copied4, copied16, two};
use crate::parts::{Address, Datagram, IpVersion, NoSegment, Start};

/// Reads the datagram that begins in a frame, which had `wire` octets.
#[inline(always)]
pub fn read_ip(frame: &[u8], start: Start, wire: usize) -> Result<Datagram, NoSegment>
    requires { start.at ≤ length frame.now }
    ensures ok { IfOk result (IsIp frame.now start wire) }
    ensures near { IfOk result (λ d. d.begin < length frame.now + 4096) }
    ensures err { IfErr result (NoIp frame.now start wire) }
{
    if frame.len() <= start.at {
        return Err(NoSegment::Cut);
    }
    let version = frame[start.at] / 16;
    if !may_be(start.version, version) {
        return Err(NoSegment::NotIp);
    }
    if version == 4 {
        read_ipv4(frame, start.at, wire)
    } else {
        read_ipv6(frame, start.at, wire)
    }
}

/// Returns whether this version of IP may stand there.
#[inline(always)]
fn may_be(version: IpVersion, number: u8) -> bool
    ensures { IsTrue result ↔ MayBe version number }
{
    match version {
        IpVersion::Four => number == 4,
        IpVersion::Six => number == 6,
        IpVersion::Either => number == 4 || number == 6,
    }
}

/// Returns where a datagram ends, by a length in its header.
#[inline(always)]
fn datagram_end(size: u16, begin: usize, wire: usize) -> usize
    requires { begin + size < 2 ^ 64 }
    ensures { result ≡ datagram_end size begin wire }
{
    if size == 0 {
        wire
    } else {
        begin + size as usize
    }
}

/// Reads a datagram of version 4.
#[inline(always)]
fn read_ipv4(frame: &[u8], at: usize, wire: usize) -> Result<Datagram, NoSegment>
    requires at { at < length frame.now }
    requires version { octet frame.now at / 16 ≡ 4 }
    ensures ok { IfOk result (IsIpv4 frame.now at wire) }
    ensures near { IfOk result (λ d. d.begin < length frame.now + 4096) }
    ensures err { IfErr result (NoIpv4 frame.now at wire) }
{
    if frame.len() < at + 20 {
        return Err(NoSegment::Cut);
    }
    let size = frame[at] % 16 * 4;
    let begin = at + size as usize;
    let end = datagram_end(two(frame, at + 2), at, wire);
    if size < 20 || end < begin || wire < end {
        return Err(NoSegment::BadIp);
    }
    if two(frame, at + 6) % 16384 != 0 {
        return Err(NoSegment::Fragment);
    }
    Ok(Datagram {
        source: Address::V4(copied4(frame, at + 12)),
        target: Address::V4(copied4(frame, at + 16)),
        protocol: frame[at + 9],
        begin,
        end,
    })
}

/// Reads a datagram of version 6, with its extension headers.
fn read_ipv6(frame: &[u8], at: usize, wire: usize) -> Result<Datagram, NoSegment>
    requires at { at < length frame.now }
    requires version { octet frame.now at / 16 ≡ 6 }
    ensures ok { IfOk result (IsIpv6 frame.now at wire) }
    ensures near { IfOk result (λ d. d.begin < length frame.now + 4096) }
    ensures err { IfErr result (NoIpv6 frame.now at wire) }
{
    if frame.len() < at + 40 {
        return Err(NoSegment::Cut);
    }
    let Some((kind, begin)) = past_headers(frame, frame[at + 6], at + 40) else {
        return Err(NoSegment::Cut);
    };
    let end = datagram_end(two(frame, at + 4), at + 40, wire);
    if end < begin || wire < end {
        return Err(NoSegment::BadIp);
    }
    if kind == 44 {
        return Err(NoSegment::Fragment);
    }
    Ok(Datagram {
        source: Address::V6(copied16(frame, at + 8)),
        target: Address::V6(copied16(frame, at + 24)),
        protocol: kind,
        begin,
        end,
    })
}

/// Returns what stands behind the extension headers, and where; `None` if one of them is cut short.
fn past_headers(frame: &[u8], first: u8, begin: usize) -> Option<(u8, usize)>
    requires { begin ≤ length frame.now }
    ensures { MatchOption result (NoHeaders frame.now first begin)
        (λ p. IsHeaders frame.now first begin p.0 p.1 × (p.1 < length frame.now + 4096)) }
{
    let mut kind = first;
    let mut at = begin;
    'headers: while is_extension(kind) {
        if frame.len() < at + 2 {
            return None;
        }
        kind = frame[at];
        at += 8 * (frame[at + 1] as usize + 1);
    }
    Some((kind, at))
}

/// Returns whether it is an extension header that states its length.
#[inline(always)]
fn is_extension(kind: u8) -> bool
    ensures { result ≡ is_extension kind }
{
    kind == 0 || kind == 43 || kind == 60
}
