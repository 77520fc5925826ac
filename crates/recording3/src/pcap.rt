//! Frames of a recording in the format pcap (draft-ietf-opsawg-pcap).

ghost use Rattle.std.specs.Prelude.{◌≡◌, ◌↔◌, ◌≤◌, ◌<◌, ◌+◌, ◌*◌, ◌^◌, length, IfOk, IfErr, MatchOption, Ok, Err};
ghost use Rattle.recording3.specs.Octets.{octets};
ghost use Rattle.recording3.specs.Pcap.{IsFrame, IsFileHeader, LacksFrame, LacksFileHeader, pcap_magic, nanoseconds, file_half, file_long, file_word};
ghost use Rattle.recording3.specs.declared.contents.Ending.{Ending};
ghost use Rattle.recording3.specs.declared.contents.Frame.{Frame};
ghost use Rattle.recording3.specs.declared.pcap.Form.{Form};
ghost use Rattle.recording3.specs.declared.pcap.Header.{Header};

use crate::contents::{Ending, Frame};
use crate::octets::{four, two};
use byteorder::{BigEndian, ByteOrder, LittleEndian};

/// The most octets of a frame that are read: 16 MiB, a limit of this project.
pub const LONGEST: u32 = 16_777_216;

/// In which order the octets of a number stand.
#[derive(Clone, Copy, Debug, PartialEq, Eq)]
pub enum Order {
    /// The highest first.
    Big,
    /// The lowest first.
    Little,
}

/// What the second word of a time counts.
#[derive(Clone, Copy, Debug, PartialEq, Eq)]
pub enum Unit {
    /// Millionths of a second.
    Microseconds,
    /// Thousandths of these.
    Nanoseconds,
}

/// What the Magic Number of a recording tells (section 4 of the draft).
#[derive(Clone, Copy, Debug, PartialEq, Eq)]
pub struct Form {
    /// The byte order of the machine that recorded.
    pub order: Order,
    /// The unit of its times.
    pub unit: Unit,
}

/// What the header of a recording tells (section 4 of the draft).
#[derive(Clone, Copy, Debug, PartialEq, Eq)]
pub struct Header {
    /// Byte order and unit of times.
    pub form: Form,
    /// The link type of all frames, below 65,536.
    pub link: u32,
}

/// Reads the header at the front of a file's bytes (section 4 of the draft). Its versions and its
/// SnapLen are passed over.
pub fn read_header(file: &[u8]) -> Result<Header, Ending>
    ensures ok { IfOk result (IsFileHeader file.now) }
    ensures err { IfErr result (LacksFileHeader file.now) }

    // It is returned exactly if it is there, and a reason exactly if it is the first.
    ensures exactly { (h : Header) → (result ≡ Ok h) ↔ IsFileHeader file.now h }
    ensures why { (reason : Ending) → (result ≡ Err reason) ↔ LacksFileHeader file.now reason }
{
    header_of(file)
}

/// Does the same.
pub(crate) fn header_of(file: &[u8]) -> Result<Header, Ending>
    ensures ok { IfOk result (IsFileHeader file.now) }
    ensures err { IfErr result (LacksFileHeader file.now) }
{
    if file.len() < 4 {
        return Err(Ending::Cut);
    }
    let Some(form) = form_of(four(file, 0)) else {
        return Err(Ending::NotRecording);
    };
    if file.len() < 24 {
        return Err(Ending::Cut);
    }
    Ok(Header {
        form,
        link: file_word(form.order, file, 20) % 65536,
    })
}

/// Returns what a Magic Number tells, whose highest octet was read first.
fn form_of(number: u32) -> Option<Form>
    ensures { MatchOption result ((form : Form) → number ≡ pcap_magic form.order form.unit → ⊥)
        (λ form. number ≡ pcap_magic form.order form.unit) }
{
    let (order, unit) = match number {
        0xa1b2_c3d4 => (Order::Big, Unit::Microseconds),
        0xa1b2_3c4d => (Order::Big, Unit::Nanoseconds),
        0xd4c3_b2a1 => (Order::Little, Unit::Microseconds),
        0x4d3c_b2a1 => (Order::Little, Unit::Nanoseconds),
        _ => return None,
    };
    Some(Form { order, unit })
}

/// Reads the frame that begins at a place of the file's bytes (section 5 of the draft).
#[inline(always)]
pub fn read_frame(header: &Header, file: &[u8], at: usize) -> Result<Frame, Ending>
    requires { at ≤ length file.now }
    ensures ok { IfOk result (IsFrame header.now file.now at) }
    ensures err { IfErr result (LacksFrame header.now file.now at) }

    // It is returned exactly if it is there, and a reason exactly if it is the first.
    ensures exactly { (f : Frame) → (result ≡ Ok f) ↔ IsFrame header.now file.now at f }
    ensures why { (reason : Ending) → (result ≡ Err reason)
        ↔ LacksFrame header.now file.now at reason }
{
    frame_at(header, file, at)
}

/// Does the same.
#[inline(always)]
pub(crate) fn frame_at(header: &Header, file: &[u8], at: usize) -> Result<Frame, Ending>
    requires { at ≤ length file.now }
    ensures ok { IfOk result (IsFrame header.now file.now at) }
    ensures err { IfErr result (LacksFrame header.now file.now at) }
{
    let there = file.len() - at;
    if there == 0 {
        return Err(Ending::End);
    }
    if there < 16 {
        return Err(Ending::Cut);
    }
    let order = header.form.order;
    let captured = file_word(order, file, at + 8);
    if captured > LONGEST {
        return Err(Ending::TooLong);
    }
    if there - 16 < captured as usize {
        return Err(Ending::Cut);
    }
    Ok(Frame {
        time: time_of(
            header.form.unit,
            file_word(order, file, at),
            file_word(order, file, at + 4),
        ),
        link: header.link,
        wire: file_word(order, file, at + 12).max(captured),
        begin: at + 16,
        end: at + 16 + captured as usize,
    })
}

/// Returns a time in nanoseconds since 1970.
#[inline(always)]
fn time_of(unit: Unit, seconds: u32, fraction: u32) -> u64
    ensures { result ≡ seconds * 1000000000 + fraction * nanoseconds unit }
{
    let scale = match unit {
        Unit::Microseconds => 1000,
        Unit::Nanoseconds => 1,
    };
    seconds as u64 * 1_000_000_000 + fraction as u64 * scale
}

/// Returns the number in the four octets from a place on, in a byte order.
#[inline(always)]
#[tactic(auto, unfolding(crate::specs::Pcap::file_word, crate::specs::Octets::octets))]
pub(crate) fn file_word(order: Order, file: &[u8], at: usize) -> u32
    requires { at + 4 ≤ length file.now }
    ensures { result ≡ file_word order file.now at }
{
    match order {
        Order::Big => four(file, at),
        Order::Little => LittleEndian::read_u32(&file[at..at + 4]),
    }
}

/// Returns the number in the two octets from a place on, in a byte order.
#[inline(always)]
#[tactic(auto, unfolding(crate::specs::Pcap::file_half, crate::specs::Octets::octets))]
pub(crate) fn file_half(order: Order, bytes: &[u8], at: usize) -> u16
    requires { at + 2 ≤ length bytes.now }
    ensures { result ≡ file_half order bytes.now at }
{
    match order {
        Order::Big => two(bytes, at),
        Order::Little => LittleEndian::read_u16(&bytes[at..at + 2]),
    }
}

/// Returns the number in the eight octets from a place on, in a byte order.
#[inline(always)]
#[tactic(auto, unfolding(crate::specs::Pcap::file_long, crate::specs::Octets::octets))]
pub(crate) fn file_long(order: Order, bytes: &[u8], at: usize) -> u64
    requires { at + 8 ≤ length bytes.now }
    ensures { result ≡ file_long order bytes.now at }
{
    match order {
        Order::Big => BigEndian::read_u64(&bytes[at..at + 8]),
        Order::Little => LittleEndian::read_u64(&bytes[at..at + 8]),
    }
}
