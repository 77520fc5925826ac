//! What is read out of a frame.

use thiserror::Error;

/// An address of IP, its octets as they were sent.
#[derive(Clone, Copy, Debug, PartialEq, Eq, PartialOrd, Ord)]
pub enum Address {
    /// Of version 4 (RFC 791, section 3.2).
    V4([u8; 4]),
    /// Of version 6 (RFC 4291, section 2).
    V6([u8; 16]),
}

/// One of the two ends of a connection, a socket (RFC 9293, section 4).
#[derive(Clone, Copy, Debug, PartialEq, Eq, PartialOrd, Ord)]
pub struct End {
    /// Its address of IP.
    pub address: Address,
    /// Its port of TCP.
    pub port: u16,
}

/// A datagram of IP (RFC 791, section 3.1; RFC 8200, section 3).
#[derive(Clone, Copy)]
pub struct Datagram {
    /// The address of the sender.
    pub source: Address,
    /// The address of the receiver.
    pub target: Address,
    /// The number of the protocol of what it carries.
    pub protocol: u8,
    /// Where in the frame that begins.
    pub begin: usize,
    /// Where it ends, which may be past the octets that were recorded.
    pub end: usize,
}

/// A segment of TCP (RFC 9293, section 3.1).
#[derive(Clone, Copy, Debug, PartialEq, Eq)]
pub struct Segment {
    /// The end that sent it.
    pub source: End,
    /// The end to which it was sent.
    pub target: End,
    /// The Sequence Number.
    pub sequence: u32,
    /// The Acknowledgment Number, whether the flag ACK is set or not.
    pub acknowledged: u32,
    /// The control bits: FIN is 1, SYN 2, RST 4, PSH 8, ACK 16, URG 32, ECE 64, CWR 128.
    pub flags: u8,
    /// Where in the frame the payload begins.
    pub begin: usize,
    /// Where the recorded part of the payload ends.
    pub end: usize,
    /// How many octets of the payload were on the wire and are not recorded.
    pub missing: usize,
}

/// Which version of IP may begin at a place.
#[derive(Clone, Copy)]
pub enum IpVersion {
    /// Version 4 alone.
    Four,
    /// Version 6 alone.
    Six,
    /// What the first four bits say.
    Either,
}

/// Where a datagram of IP begins.
#[derive(Clone, Copy)]
pub struct Start {
    /// Which version of IP may begin there.
    pub version: IpVersion,
    /// The place in the frame.
    pub at: usize,
}

/// Why no segment of TCP is read from a frame.
#[derive(Clone, Copy, Debug, PartialEq, Eq, Error)]
pub enum NoSegment {
    /// The link type is none of those that are read.
    #[error("an unknown link type")]
    UnknownLink,
    /// The recording has too few octets of the frame for a header.
    #[error("a header is cut short")]
    Cut,
    /// The frame carries no IP.
    #[error("no IP")]
    NotIp,
    /// The lengths in a header of IP do not fit together, or not to the frame's length.
    #[error("a header of IP that does not fit")]
    BadIp,
    /// The datagram is a fragment, also the only one (RFC 791, section 3.2; RFC 8200, section 4.5).
    #[error("a fragment")]
    Fragment,
    /// The datagram carries something else, or is a fifth tunnel.
    #[error("no TCP")]
    NotTcp,
    /// The header of TCP does not fit its datagram.
    #[error("a header of TCP that does not fit")]
    BadTcp,
}
