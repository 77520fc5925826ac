//! Blocks of a recording in the format pcapng (draft-ietf-opsawg-pcapng).

ghost use Rattle.std.specs.Prelude.{◌≡◌, ◌↔◌, ◌≤◌, ◌<◌, ◌+◌, ◌*◌, ◌-◌, ◌^◌, ◌/◌, max, length, take, slice_get, IfOk, IfErr, Some, Ok, Err};
ghost use Rattle.recording3.specs.Clocks.{HasOptions, clock_with, elapsed, moved, offset_of, per_second, time_of};
ghost use Rattle.recording3.specs.Pcap.{file_half, file_long, file_word};
ghost use Rattle.recording3.specs.Pcapng.{HasContent, HasOrder, IsBlock, IsInterface, IsPacket, IsSimple, IsSized, LacksBlock, LacksContent, NoInterfaceAt, NoOrder, NoPacket, NoSimple, NoSize, simple_size};
ghost use Rattle.recording3.specs.declared.contents.Ending.{Ending};
ghost use Rattle.recording3.specs.declared.contents.RecordingPart.{RecordingPart};

use crate::contents::{Content, Ending, Frame, RecordingPart};
use crate::pcap::{Order, file_half, file_long, file_word};

const SECTION: u32 = 0x0a0d_0d0a;

const NANOSECONDS: u128 = 1_000_000_000;

/// How many seconds an interface's times are to be moved (if_tsoffset, section 4.2 of the draft).
#[derive(Clone, Copy, Debug, PartialEq, Eq)]
pub enum ClockOffset {
    /// So many later, below 2^63.
    Later(u64),
    /// So many earlier, up to 2^63.
    Earlier(u64),
}

/// What an interface's times count.
#[derive(Clone, Copy, Debug, PartialEq, Eq)]
pub struct Clock {
    /// How many of its units are a second (if_tsresol), from 1 to 2^127. A finer unit is taken for
    /// the last.
    pub per_second: u128,
    /// How far its times are to be moved.
    pub offset: ClockOffset,
}

/// An interface, as its Interface Description Block tells it (section 4.2 of the draft).
#[derive(Clone, Copy, Debug, PartialEq, Eq)]
pub struct Interface {
    /// The link type of its frames.
    pub link: u16,
    /// How many octets of a frame it keeps; 0 for all.
    pub kept: u32,
    /// What its times count.
    pub clock: Clock,
}

/// Reads the block at the front of the bytes (section 3.1 of the draft), which is never a
/// `Content::Header`. `order` is the byte order of the section so far, and `interfaces` are those
/// that it described. A Section Header Block has an order of its own.
pub fn read_block(
    order: Order,
    interfaces: &[Interface],
    bytes: &[u8],
) -> Result<RecordingPart, Ending>
    ensures ok { IfOk result (IsBlock order interfaces.now bytes.now) }
    ensures err { IfErr result (LacksBlock order interfaces.now bytes.now) }

    // It is returned exactly if it is there, and a reason exactly if it is the first.
    ensures exactly { (p : RecordingPart)
        → (result ≡ Ok p) ↔ IsBlock order interfaces.now bytes.now p }
    ensures why { (reason : Ending) → (result ≡ Err reason)
        ↔ LacksBlock order interfaces.now bytes.now reason }
{
    block_of(order, interfaces, bytes)
}

/// Does the same.
pub(crate) fn block_of(
    order: Order,
    interfaces: &[Interface],
    bytes: &[u8],
) -> Result<RecordingPart, Ending>
    ensures ok { IfOk result (IsBlock order interfaces.now bytes.now) }
    ensures err { IfErr result (LacksBlock order interfaces.now bytes.now) }
{
    let order = match order_of(order, bytes) {
        Ok(order) => order,
        Err(why) => return Err(why),
    };
    let size = match size_of(order, bytes) {
        Ok(size) => size,
        Err(why) => return Err(why),
    };
    match content_of(order, interfaces, &bytes[..size]) {
        Ok(content) => Ok(RecordingPart { content, size }),
        Err(why) => Err(why),
    }
}

/// Returns the byte order of the block: a section begins with its own.
fn order_of(order: Order, bytes: &[u8]) -> Result<Order, Ending>
    ensures ok { IfOk result (HasOrder order bytes.now) }
    ensures err { IfErr result (NoOrder order bytes.now) }
{
    if bytes.is_empty() {
        return Err(Ending::End);
    }
    if bytes.len() < 12 {
        return Err(Ending::Cut);
    }
    if file_word(order, bytes, 0) != SECTION {
        return Ok(order);
    }
    match file_word(Order::Big, bytes, 8) {
        0x1a2b_3c4d => Ok(Order::Big),
        0x4d3c_2b1a => Ok(Order::Little),
        _ => Err(Ending::BadOrder),
    }
}

/// Returns how many octets the block has, all of which are there.
fn size_of(order: Order, bytes: &[u8]) -> Result<usize, Ending>
    requires { 12 ≤ length bytes.now }
    ensures ok { IfOk result (IsSized order bytes.now) }
    ensures err { IfErr result (NoSize order bytes.now) }
{
    let size = file_word(order, bytes, 4);
    if size % 4 != 0 || size < 12 || size > 16_781_312 {
        return Err(Ending::BadSize);
    }
    let size = size as usize;
    if bytes.len() < size {
        return Err(Ending::Cut);
    }
    if file_word(order, bytes, size - 4) as usize != size {
        return Err(Ending::Unequal);
    }
    Ok(size)
}

/// Returns what the block is, by its type.
fn content_of(order: Order, interfaces: &[Interface], block: &[u8]) -> Result<Content, Ending>
    requires { 12 ≤ length block.now }
    ensures ok { IfOk result (HasContent order interfaces.now block.now) }
    ensures err { IfErr result (LacksContent order interfaces.now block.now) }
{
    match file_word(order, block, 0) {
        SECTION => {
            if block.len() < 28 {
                return Err(Ending::TooShort);
            }
            Ok(Content::Section(order))
        }
        1 => match interface_of(order, block) {
            Ok(interface) => Ok(Content::Interface(interface)),
            Err(why) => Err(why),
        },
        6 => {
            let number = file_word(order, block, 8);
            match packet_of(order, interfaces, block, number) {
                Ok(frame) => Ok(Content::Frame(frame)),
                Err(why) => Err(why),
            }
        }
        2 => {
            let number = file_half(order, block, 8);
            match packet_of(order, interfaces, block, number as u32) {
                Ok(frame) => Ok(Content::Frame(frame)),
                Err(why) => Err(why),
            }
        }
        3 => match simple_of(order, interfaces, block) {
            Ok(frame) => Ok(Content::Frame(frame)),
            Err(why) => Err(why),
        },
        _ => Ok(Content::Other),
    }
}

/// Returns the interface of an Interface Description Block.
fn interface_of(order: Order, block: &[u8]) -> Result<Interface, Ending>
    ensures ok { IfOk result (IsInterface order block.now) }
    ensures err { IfErr result (NoInterfaceAt block.now) }
{
    if block.len() < 20 {
        return Err(Ending::TooShort);
    }
    Ok(Interface {
        link: file_half(order, block, 8),
        kept: file_word(order, block, 12),
        clock: clock_of(order, &block[..block.len() - 4]),
    })
}

/// Returns the clock that the options of an Interface Description Block tell, without its last
/// word.
fn clock_of(order: Order, body: &[u8]) -> Clock
    ensures { HasOptions order body.now result }
{
    let mut clock = Clock {
        per_second: 1_000_000,
        offset: ClockOffset::Later(0),
    };
    let mut at = 16;
    'options: while at + 4 <= body.len() && file_half(order, body, at) != 0 {
        clock = clock_with(order, body, at, &clock);
        at += 4 + (file_half(order, body, at + 2) as usize + 3) / 4 * 4;
    }
    clock
}

/// Returns the clock after an option at a place.
#[tactic(auto, unfolding(crate::specs::Clocks::clock_with))]
fn clock_with(order: Order, body: &[u8], at: usize, clock: &Clock) -> Clock
    requires { at + 4 ≤ length body.now }
    ensures { result ≡ clock_with order body.now at clock.now }
{
    let room = body.len() - at - 4;
    match (file_half(order, body, at), file_half(order, body, at + 2)) {
        (9, 1) if room >= 1 => Clock {
            per_second: per_second(body[at + 4]),
            offset: clock.offset,
        },
        (14, 8) if room >= 8 => Clock {
            per_second: clock.per_second,
            offset: offset_of(file_long(order, body, at + 4)),
        },
        _ => *clock,
    }
}

/// Returns how many units are a second, by the value of if_tsresol.
#[tactic(auto, unfolding(crate::specs::Clocks::per_second))]
fn per_second(resolution: u8) -> u128
    ensures { result ≡ per_second resolution }
{
    let base: u128 = if resolution < 128 { 10 } else { 2 };
    match base.checked_pow(resolution as u32 % 128) {
        Some(units) => units.min(1 << 127),
        None => 1 << 127,
    }
}

/// Returns how far times are moved, by the value of if_tsoffset, which is in two's complement.
fn offset_of(seconds: u64) -> ClockOffset
    ensures { result ≡ offset_of seconds }
{
    if seconds < 1 << 63 {
        ClockOffset::Later(seconds)
    } else {
        ClockOffset::Earlier(u64::MAX - seconds + 1)
    }
}

/// Returns the frame of a block that has a time: an Enhanced Packet Block, or an obsolete Packet
/// Block. Its interface has this number.
fn packet_of(
    order: Order,
    interfaces: &[Interface],
    block: &[u8],
    number: u32,
) -> Result<Frame, Ending>
    ensures ok { IfOk result (IsPacket order interfaces.now block.now number) }
    ensures err { IfErr result (NoPacket order interfaces.now block.now number) }
{
    if block.len() < 32 {
        return Err(Ending::TooShort);
    }
    if number as usize >= interfaces.len() {
        return Err(Ending::NoInterface);
    }
    let captured = file_word(order, block, 20);
    if captured as usize > block.len() - 32 {
        return Err(Ending::TooLong);
    }
    let interface = interface_at(interfaces, number as usize);
    let high = file_word(order, block, 12);
    let low = file_word(order, block, 16);
    Ok(Frame {
        time: time_of(&interface.clock, high as u64 * 4_294_967_296 + low as u64),
        link: interface.link as u32,
        wire: file_word(order, block, 24).max(captured),
        begin: 28,
        end: 28 + captured as usize,
    })
}

/// Returns the interface that has the number.
fn interface_at(interfaces: &[Interface], number: usize) -> Interface
    requires { number < length interfaces.now }
    ensures { slice_get interfaces.now number ≡ Some result }
{
    interfaces[number]
}

/// Returns the frame of a Simple Packet Block.
fn simple_of(order: Order, interfaces: &[Interface], block: &[u8]) -> Result<Frame, Ending>
    ensures ok { IfOk result (IsSimple order interfaces.now block.now) }
    ensures err { IfErr result (NoSimple interfaces.now block.now) }
{
    if block.len() < 16 {
        return Err(Ending::TooShort);
    }
    if interfaces.is_empty() {
        return Err(Ending::NoInterface);
    }
    let interface = interface_at(interfaces, 0);
    let wire = file_word(order, block, 8);
    Ok(Frame {
        time: 0,
        link: interface.link as u32,
        wire,
        begin: 12,
        end: 12 + simple_size(wire, interface.kept, block.len() - 16),
    })
}

/// Returns how many octets of a Simple Packet are recorded.
fn simple_size(wire: u32, kept: u32, room: usize) -> usize
    ensures value { result ≡ simple_size wire kept room }
    ensures within { result ≤ room }
{
    let wanted = if kept == 0 { wire } else { wire.min(kept) };
    room.min(wanted as usize)
}

/// Returns a time in nanoseconds since 1970.
fn time_of(clock: &Clock, units: u64) -> u64
    ensures { result ≡ time_of clock.now units }
{
    let time = moved(clock.offset, elapsed(clock.per_second, units));
    if time < 1 << 63 { time as u64 } else { 0 }
}

/// Returns how many nanoseconds so many units are.
fn elapsed(per_second: u128, units: u64) -> u128
    ensures value { result ≡ elapsed per_second units }
    ensures limit { result < 2 ^ 94 }
{
    units as u128 * NANOSECONDS / per_second.max(1)
}

/// Returns a time moved by an offset.
fn moved(offset: ClockOffset, time: u128) -> u128
    requires { time < 2 ^ 94 }
    ensures { result ≡ moved offset time }
{
    match offset {
        ClockOffset::Later(seconds) => time + seconds as u128 * NANOSECONDS,
        ClockOffset::Earlier(seconds) => time.saturating_sub(seconds as u128 * NANOSECONDS),
    }
}
