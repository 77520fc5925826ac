//! What a recording consists of.

use crate::pcap::{Header, Order};
use crate::pcapng::Interface;
use thiserror::Error;

/// A recorded frame. The places are those of the bytes in which it was found.
#[derive(Clone, Copy, Debug, PartialEq, Eq)]
pub struct Frame {
    /// When it was recorded, in nanoseconds since 1970; 0 if that is not known.
    pub time: u64,
    /// Its link type, below 65,536.
    pub link: u32,
    /// How many octets it had on the wire, no fewer than were recorded.
    pub wire: u32,
    /// Where the recorded octets begin.
    pub begin: usize,
    /// Where they end.
    pub end: usize,
}

/// What a part of a recording is.
#[derive(Clone, Copy, Debug, PartialEq, Eq)]
pub enum Content {
    /// The header of a file in the format pcap.
    Header(Header),
    /// The head of a section of pcapng, and the section's byte order.
    Section(Order),
    /// An interface of a section.
    Interface(Interface),
    /// A frame.
    Frame(Frame),
    /// A block of pcapng of any other type.
    Other,
}

/// A part at the front of some bytes. The next one begins behind it.
#[derive(Clone, Copy, Debug, PartialEq, Eq)]
pub struct RecordingPart {
    /// What it is.
    pub content: Content,
    /// How many octets it has.
    pub size: usize,
}

/// Why no part of a recording begins at a place.
#[derive(Clone, Copy, Debug, PartialEq, Eq, Error)]
pub enum Ending {
    /// There are no bytes.
    #[error("the end")]
    End,
    /// The bytes end inside a header, a frame or a block.
    #[error("cut short")]
    Cut,
    /// They begin with no magic number of a recording.
    #[error("no recording")]
    NotRecording,
    /// A frame is longer than its block, or of more than 16,777,216 octets in the format pcap.
    #[error("a frame is too long")]
    TooLong,
    /// A section has none of the two Byte-Order Magics.
    #[error("the byte order of a section is unknown")]
    BadOrder,
    /// The length of a block is below 12, above 16,781,312, or no multiple of four.
    #[error("a block of an impossible size")]
    BadSize,
    /// The lengths at the front and at the end of a block differ.
    #[error("the two lengths of a block differ")]
    Unequal,
    /// A block has no room for the fields of its type.
    #[error("a block is too short")]
    TooShort,
    /// A frame's interface is not described in its section.
    #[error("a frame of an interface that is not described")]
    NoInterface,
    /// 2^63 frames or octets came before.
    #[error("too many frames")]
    TooMany,
}
