//! Where a reading of a recording stands, and the part that begins there.

ghost use Rattle.std.specs.Prelude.{◌≡◌, ◌≤◌, ◌<◌, ◌+◌, ◌^◌, ◌↔◌, IsTrue, length, IfOk, IfErr, OnOk};
ghost use Rattle.recording3.specs.Octets.{octets};
ghost use Rattle.recording3.specs.Places.{BeginsSection, HasPart, IsPart, LacksPart, LacksPartOf, MayGoOn};
ghost use Rattle.recording3.specs.machinery.Reached.{IsInside, place_of};

use crate::contents::{Content, Ending, RecordingPart};
use crate::octets::four;
use crate::pcap::{Header, Order, frame_at, header_of};
use crate::pcapng::{Interface, block_of};

const MOST: u64 = 1 << 63;

/// What the parts of a recording are.
#[derive(Clone, Copy, Debug, PartialEq, Eq)]
pub enum Format {
    /// Nothing was read yet.
    Unknown,
    /// Frames of the format pcap.
    Pcap(Header),
    /// Blocks of the format pcapng, in a section of this byte order.
    Pcapng(Order),
}

/// Where a reading of a recording stands.
#[derive(Drop)]
pub struct Reached {
    /// What the next part is.
    pub format: Format,
    /// The interfaces that the section described so far.
    pub interfaces: Vec<Interface>,
    /// How many frames came so far, with those of earlier files.
    pub frames: u64,
    /// How many octets of the file were read.
    pub offset: u64,
}

/// Reads the part at the front of the bytes.
pub fn part_at(reached: &Reached, bytes: &[u8]) -> Result<RecordingPart, Ending>
    ensures ok { IfOk result (IsPart (place_of reached.now) bytes.now) }
    ensures inside { IfOk result (IsInside (length bytes.now)) }
    ensures err { IfErr result (LacksPart (place_of reached.now) bytes.now) }
    ensures short { IfErr result (λ why. MayGoOn why → length bytes.now < 16781312) }
{
    if reached.offset >= MOST || reached.frames >= MOST {
        return Err(Ending::TooMany);
    }
    part_of(reached.format, &reached.interfaces, bytes)
}

/// Reads the part of a format.
fn part_of(format: Format, interfaces: &[Interface], bytes: &[u8]) -> Result<RecordingPart, Ending>
    ensures ok { IfOk result (HasPart format interfaces.now bytes.now) }
    ensures inside { IfOk result (IsInside (length bytes.now)) }
    ensures err { IfErr result (LacksPartOf format interfaces.now bytes.now) }
    ensures short { IfErr result (λ why. MayGoOn why → length bytes.now < 16781312) }
{
    match format {
        Format::Unknown => first_part(interfaces, bytes),
        Format::Pcap(header) => match frame_at(&header, bytes, 0) {
            Ok(frame) => Ok(RecordingPart {
                content: Content::Frame(frame),
                size: frame.end,
            }),
            Err(why) => Err(why),
        },
        Format::Pcapng(order) => block_of(order, interfaces, bytes),
    }
}

/// Reads the first part of a recording: a header of the format pcap, or a section of pcapng.
fn first_part(interfaces: &[Interface], bytes: &[u8]) -> Result<RecordingPart, Ending>
    ensures ok { IfOk result (HasPart Format.Unknown interfaces.now bytes.now) }
    ensures inside { IfOk result (IsInside (length bytes.now)) }
    ensures err { IfErr result (LacksPartOf Format.Unknown interfaces.now bytes.now) }
    ensures short { IfErr result (λ why. MayGoOn why → length bytes.now < 16781312) }
{
    if begins_section(bytes) {
        return block_of(Order::Little, interfaces, bytes);
    }
    match header_of(bytes) {
        Ok(header) => Ok(RecordingPart {
            content: Content::Header(header),
            size: 24,
        }),
        Err(why) => Err(why),
    }
}

/// Returns whether the bytes begin with the type of a Section Header Block.
fn begins_section(bytes: &[u8]) -> bool
    ensures { IsTrue result ↔ BeginsSection bytes.now }
{
    bytes.len() >= 4 && four(bytes, 0) == 0x0a0d_0d0a
}

/// Returns whether more bytes may change that no part begins there.
pub fn may_go_on(why: Ending) -> bool
    ensures { IsTrue result ↔ MayGoOn why }
{
    match why {
        Ending::End | Ending::Cut => true,
        _ => false,
    }
}
