//! Headers of the link layer (www.tcpdump.org/linktypes.html), up to where a datagram of IP begins.

ghost use Rattle.std.specs.Prelude.{◌≡◌, ◌≤◌, ◌<◌, ◌+◌, ◌^◌, length, IfOk, IfErr, MatchOption, ℕ};
ghost use Rattle.recording3.specs.Link.{HasLabels, IsSession, IsLinkStart, IsTyped, IsUntyped, LeadsToIp, NoLabels, NoLinkStart, NoTyped, NoUntyped, LeadsNowhere, ether_type_of, link_of, past_tag};
ghost use Rattle.recording3.specs.declared.link.Placed.{Placed};

use crate::octets::two;
use crate::parts::{IpVersion, NoSegment, Start};

/// The link types that are read.
#[derive(Clone, Copy)]
pub enum Link {
    /// Of BSD's loopback (0, and 108 as OpenBSD has it).
    Loopback,
    /// Of Ethernet (1).
    Ethernet,
    /// None: the frame is a datagram (101, 12, 14, 228, 229).
    Raw,
    /// Of Linux, where it records several links (113).
    Cooked,
    /// The second version of that (276).
    Cooked2,
}

/// What an Ethernet type names.
#[derive(Clone, Copy)]
pub enum EtherType {
    /// A datagram of IP.
    Ip(IpVersion),
    /// A stack of labels of MPLS (RFC 3032, section 2.1).
    Labelled,
    /// A session of PPPoE (RFC 2516, section 4).
    Session,
    /// Anything else.
    Unknown,
}

/// An Ethernet type, and where what it names begins.
#[derive(Clone, Copy)]
pub struct Placed {
    /// The number of the type.
    pub kind: u16,
    /// The place in the frame.
    pub at: usize,
}

/// Returns the link type that has the number.
fn link_of(number: u32) -> Option<Link>
    ensures { result ≡ link_of number }
{
    match number {
        0 | 108 => Some(Link::Loopback),
        1 => Some(Link::Ethernet),
        12 | 14 | 101 | 228 | 229 => Some(Link::Raw),
        113 => Some(Link::Cooked),
        276 => Some(Link::Cooked2),
        _ => None,
    }
}

/// Finds where a datagram of IP begins in a frame of a link type.
#[inline(always)]
pub fn find_start(link: u32, frame: &[u8]) -> Result<Start, NoSegment>
    ensures ok { IfOk result (IsLinkStart link frame.now) }
    ensures within { IfOk result (λ start. start.at ≤ length frame.now) }
    ensures err { IfErr result (NoLinkStart link frame.now) }
{
    match link_of(link) {
        None => Err(NoSegment::UnknownLink),
        Some(Link::Loopback) => untyped(frame, 4),
        Some(Link::Ethernet) => typed(frame, 12, 14),
        Some(Link::Raw) => untyped(frame, 0),
        Some(Link::Cooked) => typed(frame, 14, 16),
        Some(Link::Cooked2) => typed(frame, 0, 20),
    }
}

/// Finds it behind a header of `size` octets, which says nothing of what follows.
#[inline(always)]
fn untyped(frame: &[u8], size: usize) -> Result<Start, NoSegment>
    ensures ok { IfOk result (IsUntyped size frame.now) }
    ensures err { IfErr result (NoUntyped size frame.now) }
{
    if frame.len() < size {
        return Err(NoSegment::Cut);
    }
    Ok(Start {
        version: IpVersion::Either,
        at: size,
    })
}

/// Finds it behind a header of `size` octets, which has an Ethernet type at a place.
#[inline(always)]
pub fn typed(frame: &[u8], place: usize, size: usize) -> Result<Start, NoSegment>
    requires place { place + 2 ≤ size }
    requires size { size < 2 ^ 63 + 16384 }
    ensures ok { IfOk result (IsTyped place size frame.now) }
    ensures within { IfOk result (λ start. start.at ≤ length frame.now) }
    ensures err { IfErr result (NoTyped place size frame.now) }
{
    if frame.len() < size {
        return Err(NoSegment::Cut);
    }
    let first = Placed {
        kind: two(frame, place),
        at: size,
    };
    let Some(second) = past_tag(frame, first) else {
        return Err(NoSegment::Cut);
    };
    let Some(last) = past_tag(frame, second) else {
        return Err(NoSegment::Cut);
    };
    leads(frame, last)
}

/// Returns the type behind the tag of a VLAN, if one stands there; `None` if that is cut short.
#[inline(always)]
#[tactic(auto, unfolding(crate::specs::Link::past_tag))]
fn past_tag(frame: &[u8], p: Placed) -> Option<Placed>
    requires { p.at ≤ length frame.now }
    ensures { MatchOption result (length frame.now < (past_tag frame.now p).at)
        (λ q. (q ≡ past_tag frame.now p) × (q.at ≤ length frame.now)) }
{
    match p.kind {
        0x8100 | 0x88a8 | 0x9100 => {
            if frame.len() < p.at + 4 {
                None
            } else {
                Some(Placed {
                    kind: two(frame, p.at + 2),
                    at: p.at + 4,
                })
            }
        }
        _ => Some(p),
    }
}

/// Returns what an Ethernet type names.
fn ether_type_of(kind: u16) -> EtherType
    ensures { result ≡ ether_type_of kind }
{
    match kind {
        0x0800 => EtherType::Ip(IpVersion::Four),
        0x86dd => EtherType::Ip(IpVersion::Six),
        0x8847 | 0x8848 => EtherType::Labelled,
        0x8864 => EtherType::Session,
        _ => EtherType::Unknown,
    }
}

/// Finds where a datagram of IP begins in what an Ethernet type names.
#[inline(always)]
pub fn leads(frame: &[u8], p: Placed) -> Result<Start, NoSegment>
    requires { p.at ≤ length frame.now }
    ensures ok { IfOk result (LeadsToIp (ether_type_of p.kind) frame.now p.at) }
    ensures within { IfOk result (λ start. start.at ≤ length frame.now) }
    ensures err { IfErr result (LeadsNowhere (ether_type_of p.kind) frame.now p.at) }
{
    match ether_type_of(p.kind) {
        EtherType::Ip(version) => Ok(Start { version, at: p.at }),
        EtherType::Labelled => match past_labels(frame, p.at) {
            Some(at) => Ok(Start {
                version: IpVersion::Either,
                at,
            }),
            None => Err(NoSegment::Cut),
        },
        EtherType::Session => in_session(frame, p.at),
        EtherType::Unknown => Err(NoSegment::NotIp),
    }
}

/// Returns the end of a stack of labels; `None` if it is cut short.
fn past_labels(frame: &[u8], first: usize) -> Option<usize>
    requires { first ≤ length frame.now }
    ensures { MatchOption result (NoLabels frame.now first)
        (λ end. HasLabels frame.now first end × (end ≤ length frame.now)) }
{
    let mut at = first;
    'labels: loop {
        if frame.len() - at < 4 {
            return None;
        }
        let is_last = frame[at + 2] % 2 == 1;
        at += 4;
        if is_last {
            return Some(at);
        }
    }
}

/// Finds it in a session of PPPoE.
fn in_session(frame: &[u8], at: usize) -> Result<Start, NoSegment>
    requires { at ≤ length frame.now }
    ensures ok { IfOk result (IsSession frame.now at) }
    ensures within { IfOk result (λ start. start.at ≤ length frame.now) }
    ensures err { IfErr result (LeadsNowhere EtherType.Session frame.now at) }
{
    if frame.len() - at < 8 {
        return Err(NoSegment::Cut);
    }
    let version = match two(frame, at + 6) {
        0x0021 => IpVersion::Four,
        0x0057 => IpVersion::Six,
        _ => return Err(NoSegment::NotIp),
    };
    Ok(Start {
        version,
        at: at + 8,
    })
}
